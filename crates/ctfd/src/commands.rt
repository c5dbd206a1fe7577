//! The command line.

use crate::printable::complain;
use crate::{dumping, serving};
use clap::error::ErrorKind;
use clap::{Arg, ArgMatches, Command, Error};
use ctf_command::{MISUSED, RunFault, end, usage_status};
use std::alloc::{AllocError, Global};
use std::{env, io};

/// What `--version` prints: the version, and on a second line which build this is. A build without
/// the proofs has another second line (scripts/quick.py writes it). docs/PROTOCOL.md says what a
/// version promises.
const VERSION: &str = "0.2.0\nproved build: rattle-kit-13, logic dac8208d650f15bf";

/// The text below the help of each command.
const STATUSES_AND_PAGES: &str = "\
Exit status:
  0  done
  1  a file was refused
  2  the words are wrong
  3  a read or a write failed
  4  memory was refused

Pages: ctfd(1), ctfd-protocol(5); docs/PROTOCOL.md has every word, field and fault";

/// An option that names a file.
fn file_option<'a>(alloc: Global, name: &'a str, help: &'a str) -> Arg<'a> {
    Arg::new(alloc, name).long(name).value_name("F").help(help)
}

/// The option for the number of bytes of the program's pointers.
fn model_option<'a>(alloc: Global) -> Arg<'a> {
    let models: &'a [&'a str] = &["lp64", "ilp32"];
    Arg::new(alloc, "model")
        .long("model")
        .value_name("MODEL")
        .value_parser(models)
        .default_value("lp64")
        .help("The program's data model: pointers of 8 bytes, or of 4")
}

fn dump_command<'a>(alloc: Global) -> Result<Command<'a>, AllocError> {
    let ctf = Arg::new(alloc, "ctf")
        .value_name("CTF")
        .required(true)
        .help("The dictionary, as a file of a CTF section");
    Command::new(alloc, "dump")
        .about("Prints a dictionary as text, one line for each type, member and symbol")
        .after_help(STATUSES_AND_PAGES)
        .arg(ctf)?
        .arg(model_option(alloc))?
        .arg(file_option(alloc, "parent", "Its parent's CTF section"))?
        .arg(file_option(alloc, "sym", "The program's symbol table"))?
        .arg(file_option(alloc, "str", "The strings of that symbol table"))
}

fn serve_command<'a>(alloc: Global) -> Result<Command<'a>, AllocError> {
    let publications = Arg::new(alloc, "publications")
        .value_name("NAME=FILE")
        .num_args(..)
        .help("A CTF section that sessions may take from owner 0 by this name");
    Command::new(alloc, "serve")
        .about(
            "Answers requests on standard input, one JSON line each, \
            with one line each on standard output",
        )
        .after_help(STATUSES_AND_PAGES)
        .arg(publications)
}

/// The commands.
fn command<'a>(alloc: Global) -> Result<Command<'a>, AllocError> {
    Command::new(alloc, "ctfd")
        .version(VERSION)
        .about("A type service over CTF dictionaries")
        .after_help(STATUSES_AND_PAGES)
        .subcommand_required(true)
        .subcommand(serve_command(alloc)?)?
        .subcommand(dump_command(alloc)?)
}

/// Runs a command, and returns the exit status.
fn obey(rt: &HostRuntime, matches: &ArgMatches<'_>) -> u8 {
    if let Some(words) = matches.subcommand_matches("dump") {
        return dumping::run(rt, words);
    }
    match matches.subcommand_matches("serve") {
        Some(words) => serving::run(rt, words),
        None => MISUSED,
    }
}

/// Parses the command line, and runs the command.
fn parse(rt: &HostRuntime) -> Result<u8, Error> {
    let mut command = command(rt.alloc())?;
    match env::args(rt) {
        Ok(words) => {
            let words: Vec<String> = words.collect(rt.alloc())?;
            let matches = command.try_get_matches_from(words.as_slice())?;
            Ok(obey(rt, &matches))
        }
        Err(error) if error.kind() == io::ErrorKind::InvalidData => {
            Err(command.error(ErrorKind::InvalidValue, "an argument is not UTF-8")?)
        }
        Err(_) => Err(Error::from(AllocError)),
    }
}

/// Prints help, the version or what is wrong with the words, and returns the exit status.
fn tell(rt: &HostRuntime, error: &Error) -> u8 {
    if error.kind() == ErrorKind::OutOfMemory {
        return end(rt, Err(RunFault::Memory));
    }
    let printed = match error.kind() {
        ErrorKind::DisplayHelp | ErrorKind::DisplayVersion => error.print(rt),
        _ => complain(rt, error),
    };
    match printed {
        Ok(()) => usage_status(error.kind()),
        Err(_) => end(rt, Err(RunFault::Write)),
    }
}

/// Runs the command line, and returns the exit status.
pub fn run(rt: &HostRuntime) -> u8 {
    match parse(rt) {
        Ok(status) => status,
        Err(error) => tell(rt, &error),
    }
}
