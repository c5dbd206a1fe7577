//! `ctfd dump`: a dictionary as text, on standard output.

use crate::printable::{Printable, complain};
use clap::ArgMatches;
use ctf_command::{
    Bytes, DataModel, DumpEnd, InputFile, Inputs, MISUSED, dump_lists, model_named, read_file,
};
use std::io;
use std::io::{BufWriter, ErrorKind, Write};

/// The status of a program that SIGPIPE ended, as a shell reports it.
const READER_LEFT: u8 = 141;

/// A writer that notes whether its reader has left.
#[derive(Drop)]
struct Watched<W> {
    writer: W,
    has_left: bool,
}

impl<W: Write> Write for Watched<W> {
    fn write(&mut self, buf: &[u8]) -> io::Result<usize> {
        match self.writer.write(buf) {
            Ok(n) => Ok(n),
            Err(error) => {
                self.has_left = error.kind() == ErrorKind::BrokenPipe;
                Err(error)
            }
        }
    }

    fn flush(&mut self) -> io::Result<()> {
        self.writer.flush()
    }
}

/// The file with a name.
fn read<'a>(rt: &HostRuntime, name: &'a str) -> Result<InputFile<'a>, DumpEnd<'a>> {
    let bytes = Bytes::from(read_file(rt, name)?);
    Ok(InputFile { name, bytes })
}

/// The file of an option, if the option is given.
fn read_option<'a>(
    rt: &HostRuntime,
    words: &ArgMatches<'a>,
    option: &str,
) -> Result<Option<InputFile<'a>>, DumpEnd<'a>> {
    match words.get_str(option) {
        Some(name) => Ok(Some(read(rt, name)?)),
        None => Ok(None),
    }
}

/// Reads the files, dumps them, and returns the exit status; an error if not all were read. If the
/// reader of the text has left, no message is printed, as with a program that SIGPIPE ends.
fn dump_files<'a>(
    rt: &HostRuntime,
    words: &ArgMatches<'a>,
    model: DataModel,
) -> Result<u8, DumpEnd<'a>> {
    let inputs = Inputs {
        ctf: read(rt, words.get_str("ctf").unwrap_or(""))?,
        parent: read_option(rt, words, "parent")?,
        sym: read_option(rt, words, "sym")?,
        str: read_option(rt, words, "str")?,
        model,
    };
    let mut watched = Watched {
        writer: io::writer(rt),
        has_left: false,
    };
    let mut said = Vec::new(rt.alloc());
    let Ok(mut out) = BufWriter::new(rt.alloc(), &mut watched) else {
        return Err(DumpEnd::Memory);
    };
    let status = dump_lists(rt.alloc(), inputs, &mut out, &mut said);
    drop(out);
    if watched.has_left {
        return Ok(READER_LEFT);
    }
    let mut errors = Printable {
        writer: rt.stderr(),
    };
    let _ = errors.write_all(&said);
    Ok(status)
}

/// Dumps the files that the words name, and returns the exit status.
pub fn run(rt: &HostRuntime, words: &ArgMatches<'_>) -> u8 {
    // The option has a default, and the parser accepts no other word.
    let Some(model) = words.get_str("model").and_then(|word| model_named(word)) else {
        return MISUSED;
    };
    match dump_files(rt, words, model) {
        Ok(status) => status,
        Err(end) => {
            let status = end.status();
            let _ = complain(rt, format_args!("ctfd: {end}\n"));
            status
        }
    }
}
