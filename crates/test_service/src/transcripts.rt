//! Replays transcripts of sessions. The lines of each run go to a service of their own, whose
//! output is compared with the replies in the transcript. Then they are sent again, between the
//! lines of other sessions, and the replies have to be the same.

mod marks;
pub mod outcomes;
pub mod runs;

use crate::transcripts::runs::{Others, are_answered, runs_of};
use std::{fs, io};

/// Prints the title of a run and, if its replies differ, says so. Returns whether they are those of
/// the run.
fn replay(rt: &HostRuntime, run: &str, others: &Others) -> io::Result<bool> {
    let title = run.lines().next().unwrap_or("");
    let alone = are_answered(rt.alloc(), run, &Others::none(rt.alloc()))?;
    let between = are_answered(rt.alloc(), run, others)?;
    let said = match (alone, between) {
        (true, true) => "",
        (true, false) => ": answered otherwise between others",
        (false, _) => ": answered otherwise",
    };
    println!(rt; "{title}{said}")?;
    Ok(alone && between)
}

/// Whether all runs of a file get the replies in the file.
pub fn transcript_holds(rt: &HostRuntime, name: &str, others: &Others) -> io::Result<bool> {
    let text = fs::read_to_string(rt, name)?;
    let mut same = true;
    for run in runs_of(&text) {
        same &= replay(rt, run, others)?;
    }
    Ok(same)
}
