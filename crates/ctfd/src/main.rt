//! `ctfd`: a type service over CTF dictionaries, on standard input and output.
#![tactic(auto)]

mod commands;
mod dumping;
mod printable;
mod serving;

use std::process::ExitCode;

fn main(rt: HostRuntime) -> ExitCode {
    ExitCode::from(commands::run(&rt))
}
