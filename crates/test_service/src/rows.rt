//! Rows in files. A title and the lines of a run are as in a transcript; below them, a line that
//! begins with `? ` is a row: a call and its arguments, ` = `, and the answer.

use crate::calls::answer;
use crate::collected::AnswerWords;
use crate::transcripts::outcomes::Exchange;
use crate::transcripts::runs::{Others, exchange_of};
use std::{fs, io};

/// Whether a row's call answers what the row says; if not, prints what it answers.
fn holds(
    rt: &HostRuntime,
    exchange: &Exchange,
    row: &str,
    place: (&str, usize),
) -> io::Result<bool> {
    let (call, want) = row.split_once(" = ").unwrap_or((row, "?"));
    let mut said = AnswerWords::new(rt.alloc());
    answer(&mut said, exchange, call);
    let same = said.is(want);
    if !same {
        let (name, line) = place;
        println!(rt;
            "{name}:{line}: {call} = {}: it should be {want}",
            said.text()
        )?;
    }
    Ok(same)
}

/// Prints how many rows below a title hold. Returns whether all do.
fn section_holds(rt: &HostRuntime, name: &str, first: usize, section: &str) -> io::Result<bool> {
    let exchange = exchange_of(rt.alloc(), section, &Others::none(rt.alloc()))?;
    let mut rows: usize = 0;
    let mut held: usize = 0;
    for (below, line) in section.lines().enumerate() {
        if let Some(row) = line.strip_prefix("? ") {
            rows = rows.wrapping_add(1);
            if holds(rt, &exchange, row, (name, first.wrapping_add(below)))? {
                held = held.wrapping_add(1);
            }
        }
    }
    let title = section.lines().next().unwrap_or("");
    println!(rt; "{title}: {held} of {rows}")?;
    Ok(held == rows)
}

/// Whether all rows of a file hold. Lines above its first title are comments.
pub fn rows_hold(rt: &HostRuntime, name: &str) -> io::Result<bool> {
    let text = fs::read_to_string(rt, name)?;
    let mut sections = text.split("\n# ");
    let above = sections.next().unwrap_or("");
    let mut line = above.split("\n").count().wrapping_add(1);
    let mut hold = true;
    for section in sections {
        hold &= section_holds(rt, name, line, section)?;
        line = line.wrapping_add(section.split("\n").count());
    }
    Ok(hold)
}
