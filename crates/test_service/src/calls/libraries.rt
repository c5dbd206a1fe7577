//! The calls below `serve` that answer a request: of a library, and of a broker.

use crate::collected::AnswerWords;
use crate::transcripts::outcomes::Exchange;
use ctf_answers::Reply;
use ctf_lines::{FromLine, Scratch, ToLine, write_change};
use ctf_protocol::Request;
use ctf_wire::{Broker, Library, Pool};
use std::alloc::{AllocError, Global};

/// Asks a library for the answer to a line, and appends the line of its reply.
fn ask_library(
    alloc: Global,
    out: &mut Vec<u8>,
    library: &mut Library,
    pool: &mut Pool,
    line: &str,
) -> Result<(), AllocError> {
    let Ok((session, request)) = Request::read(alloc, &mut Scratch::new(alloc), line.as_bytes())
    else {
        return Ok(());
    };
    match request {
        Request::Changes(change) => write_change(out, session, library.step(&change, None, pool)),
        Request::Asks { d, question } => {
            let outcome = library.answer(d, &question);
            Reply { session, outcome }.write(out)
        }
    }
}

/// Asks a broker for the answer to a line, and appends the line of its reply.
fn ask_broker(
    alloc: Global,
    out: &mut Vec<u8>,
    broker: &mut Broker,
    line: &str,
) -> Result<(), AllocError> {
    let Ok((session, request)) = Request::read(alloc, &mut Scratch::new(alloc), line.as_bytes())
    else {
        return Ok(());
    };
    match request {
        Request::Changes(change) => write_change(out, session, broker.step(session, &change)),
        Request::Asks { d, question } => {
            let outcome = broker.answer(session, d, &question);
            Reply { session, outcome }.write(out)
        }
    }
}

/// The lines of some bytes that are text.
fn lines(bytes: &[u8]) -> &str {
    std::str::from_utf8(bytes).unwrap_or("no text")
}

/// The replies of a library to the lines, whatever sessions these name.
pub fn library(said: &mut AnswerWords, told: &Exchange) {
    let mut library = Library::new(said.alloc());
    let mut pool = Pool::new(said.alloc());
    let mut out = Vec::new(said.alloc());
    for line in lines(&told.input).lines() {
        said.note(ask_library(said.alloc(), &mut out, &mut library, &mut pool, line));
    }
    said.front(&told.want, &out);
}

/// The replies of a broker to the lines.
pub fn broker(said: &mut AnswerWords, told: &Exchange) {
    let mut broker = Broker::new(said.alloc());
    let mut out = Vec::new(said.alloc());
    for line in lines(&told.input).lines() {
        said.note(ask_broker(said.alloc(), &mut out, &mut broker, line));
    }
    said.front(&told.want, &out);
}
