//! Rows of calls: the answers of each public call of the crates that read the format, for bytes
//! written by hand. Memory is never refused.
#![tactic(auto)]

mod answer;
mod bytes;
mod format;
mod rows;
mod words;

use crate::rows::all_hold;
use std::process::ExitCode;

fn main(rt: HostRuntime) -> ExitCode {
    match all_hold(&rt) {
        Ok(true) => ExitCode::from(0),
        Ok(false) => ExitCode::from(1),
        Err(_) => ExitCode::from(2),
    }
}
