//! Lines of replies: values of each sort, changes, refusals, and replies that are too long.

use crate::collected::AnswerWords;
use ctf_answers::{Answer, Counts, Reply, Single};
use ctf_lines::{ToLine, memory_line, write_change};
use ctf_protocol::{Fault, placeless};
use std::alloc::{AllocError, Global};

/// The text before the line of a reply.
const BEFORE: &[u8] = b"before ";

/// Of a line longer than this, only the length is reported.
const LONG: usize = 1000;

/// The first two of some numbers.
fn numbers(words: &str) -> (u64, u64) {
    let (first, second) = words.split_once(' ').unwrap_or((words, ""));
    (
        first.parse::<u64>().unwrap_or(0),
        second.parse::<u64>().unwrap_or(0),
    )
}

/// The bytes of digits, or those of `61*3` three times; none where these are no digits.
fn bytes_of(alloc: Global, words: &str) -> Result<Vec<u8>, AllocError> {
    let (digits, times) = words.split_once('*').unwrap_or((words, "1"));
    let mut bytes = Vec::new(alloc);
    let Ok(part) = hex::decode(alloc, digits) else {
        return Ok(bytes);
    };
    for _ in 0..times.parse::<usize>().unwrap_or(0) {
        bytes.extend_from_slice(&part)?;
    }
    Ok(bytes)
}

/// A value of the given sort.
fn value<'a>(sort: &str, words: &str, bytes: &'a [u8]) -> Single<'a> {
    match sort {
        "number" => Single::Number(numbers(words).0),
        "signed" => Single::Signed(words.parse::<i32>().unwrap_or(0)),
        "truth" => Single::Truth(words == "true"),
        "struct" => Single::Word("struct"),
        "text" => Single::Text(bytes),
        _ => Single::Bytes(bytes),
    }
}

/// The outcome of a reply: a value, two words, or a refusal with a code and a place.
fn outcome<'a>(sort: &str, words: &str, bytes: &'a [u8]) -> Result<Answer<'a>, Fault> {
    match sort {
        "fault" => {
            let (code, place) = words.split_once(' ').unwrap_or((words, ""));
            Err(Fault {
                code: code.parse::<u16>().unwrap_or(0),
                place: place.parse::<u64>().unwrap_or(0),
            })
        }
        "forward" => Ok(Answer::two(
            "kind",
            Single::Word("forward"),
            "tag",
            Single::Word("union"),
        )),
        _ => Ok(Answer::one("x", value(sort, words, bytes))),
    }
}

/// The line of a reply, after the text before it.
fn reply_line(alloc: Global, session: u32, sort: &str, words: &str) -> Result<Vec<u8>, AllocError> {
    let mut out = Vec::from_slice(alloc, BEFORE)?;
    let bytes = bytes_of(alloc, words)?;
    let outcome = outcome(sort, words, &bytes);
    Reply { session, outcome }.write(&mut out)?;
    Ok(out)
}

/// The answer to a change: nothing, a length, a slot and a number of types, or a refusal.
fn counts(sort: &str, words: &str) -> Result<Counts, Fault> {
    let (first, second) = numbers(words);
    match sort {
        "done" => Ok(Counts::of_success()),
        "length" => Ok(Counts::one("length", first)),
        "types" => Ok(Counts::two("d", first, "types", second)),
        _ => Err(placeless(words.parse::<u16>().unwrap_or(0))),
    }
}

/// The line of a reply to a change, after the text before it.
fn change_line(
    alloc: Global,
    session: u32,
    sort: &str,
    words: &str,
) -> Result<Vec<u8>, AllocError> {
    let mut out = Vec::from_slice(alloc, BEFORE)?;
    write_change(&mut out, session, counts(sort, words))?;
    Ok(out)
}

/// Reports a line without its newline, or its length, if it comes after the text before it.
fn put_line(said: &mut AnswerWords, written: Result<Vec<u8>, AllocError>) {
    let Ok(written) = written else {
        return said.word("no memory");
    };
    match written.strip_prefix(BEFORE) {
        Some(line) if line.len() > LONG => said.number(line.len() as u64),
        Some(line) => said.text_of(line.strip_suffix(b"\n").unwrap_or(b"no line")),
        None => said.word("nothing before it"),
    }
}

/// A session, and the outcome of its reply.
fn parts_of(words: &str) -> (u32, &str, &str) {
    let (session, words) = words.split_once(' ').unwrap_or((words, ""));
    let (sort, words) = words.split_once(' ').unwrap_or((words, ""));
    (session.parse::<u32>().unwrap_or(0), sort, words)
}

pub fn reply(said: &mut AnswerWords, words: &str) {
    let (session, sort, words) = parts_of(words);
    put_line(said, reply_line(said.alloc(), session, sort, words));
}

pub fn change(said: &mut AnswerWords, words: &str) {
    let (session, sort, words) = parts_of(words);
    put_line(said, change_line(said.alloc(), session, sort, words));
}

/// The line that says that memory was refused.
pub fn memory(said: &mut AnswerWords, words: &str) {
    let mut buffer = [0; 96];
    let len = memory_line(parts_of(words).0, &mut buffer);
    let line = buffer.get(..len).unwrap_or(b"");
    said.text_of(line.strip_suffix(b"\n").unwrap_or(b"no line"));
}
