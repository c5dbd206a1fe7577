//! `ctfd serve`: files are published, and then standard input is served to standard output.

use crate::printable::complain;
use clap::ArgMatches;
use ctf_command::{FromReader, ToWriter, end, serve_lines, start};
use std::io;
use std::mem::forget;

/// Publishes the files that the words name, serves standard input, and returns the exit status.
pub fn run(rt: &HostRuntime, words: &ArgMatches<'_>) -> u8 {
    let publications = words.get_strs("publications").unwrap_or(&[]);
    match start(rt.alloc(), rt, publications) {
        Ok(mut broker) => {
            let mut source = FromReader::new(rt.reader());
            let mut sink = ToWriter::new(io::writer(rt));
            let status = end(
                rt,
                serve_lines(rt.alloc(), &mut broker, &mut source, &mut sink),
            );
            // The process ends here, and the system takes its memory back at once.
            forget(broker);
            status
        }
        Err(why) => {
            let status = why.status();
            let _ = complain(rt, format_args!("ctfd: {why}\n"));
            status
        }
    }
}
