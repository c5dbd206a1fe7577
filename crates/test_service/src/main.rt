//! Replays transcripts of sessions, and goes through rows of calls.
#![tactic(auto)]

mod calls;
mod collected;
mod rows;
mod serving;
mod transcripts;

use crate::rows::rows_hold;
use crate::transcripts::runs::Others;
use crate::transcripts::transcript_holds;
use std::process::ExitCode;
use std::{env, fs, io};

/// The words name a file of other sessions' lines, and then transcripts and files of rows. Returns
/// whether all of them hold.
fn all_hold(rt: &HostRuntime) -> io::Result<bool> {
    let mut names = env::args(rt)?.skip(1);
    let Some(name) = names.next() else {
        return Ok(true);
    };
    let others = Others::read(rt.alloc(), &fs::read_to_string(rt, &name)?)?;
    let mut hold = true;
    for name in names {
        hold &= if name.ends_with(".rows") {
            rows_hold(rt, &name)?
        } else {
            transcript_holds(rt, &name, &others)?
        };
    }
    Ok(hold)
}

fn main(rt: HostRuntime) -> ExitCode {
    match all_hold(&rt) {
        Ok(true) => ExitCode::from(0),
        Ok(false) => ExitCode::from(1),
        Err(_) => ExitCode::from(2),
    }
}
