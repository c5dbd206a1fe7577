//! Rows in files: a call and its arguments, `=`, and the answer. A line that begins with `#` is the
//! title of the rows below it; one that begins with `/` is a comment.

use crate::answer::Answer;
use crate::format::answer_call;
use crate::words::Words;
use std::{env, fs, io};

/// How many lines and rows of a file were read so far, and how many of these rows hold.
#[derive(Drop)]
struct Tally<'a> {
    file: &'a str,
    lines: u64,
    rows: u64,
    held: u64,
}

impl Tally<'_> {
    /// Answers the call of a row. If the answer differs from the row's, prints both.
    fn row(&mut self, rt: &HostRuntime, row: &str) -> io::Result<()> {
        self.rows = self.rows.wrapping_add(1);
        let (call, want) = row.split_once('=').unwrap_or((row, "?"));
        let mut words = Words::new(rt.alloc(), call);
        let mut answer = Answer::new(rt.alloc());
        answer_call(self.file, &mut answer, &mut words);
        if !words.are_read() {
            answer.fail();
        }
        if answer.is(want) {
            self.held = self.held.wrapping_add(1);
            return Ok(());
        }
        println!(rt;
            "line {} does not hold: {call}={}",
            self.lines,
            answer.text()
        )
    }

    /// Prints a title, or answers a row.
    fn line(&mut self, rt: &HostRuntime, line: &str) -> io::Result<()> {
        self.lines = self.lines.wrapping_add(1);
        match line.as_bytes() {
            [] | [b'/', ..] => Ok(()),
            [b'#', ..] => println!(rt; "{line}"),
            _ => self.row(rt, line),
        }
    }
}

/// Prints the titles of a file, and how many of its rows hold. Returns whether all do.
fn file_holds(rt: &HostRuntime, file: &str) -> io::Result<bool> {
    let text = fs::read_to_string(rt, file)?;
    let mut tally = Tally {
        file,
        lines: 0,
        rows: 0,
        held: 0,
    };
    for line in text.lines() {
        tally.line(rt, line)?;
    }
    println!(rt; "{file}: {} of {} rows hold", tally.held, tally.rows)?;
    Ok(tally.held == tally.rows)
}

/// The words after the program's own name are files of rows.
pub fn all_hold(rt: &HostRuntime) -> io::Result<bool> {
    let mut files = env::args(rt)?;
    let _ = files.next();
    let mut all = true;
    for file in files {
        all &= file_holds(rt, &file)?;
    }
    Ok(all)
}
