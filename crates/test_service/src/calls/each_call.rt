//! Runs in which each call of a sort fails in turn, or that end at each bound on reads.

use crate::collected::AnswerWords;
use crate::serving::cases::Case;
use crate::serving::{Ran, served_in};
use crate::transcripts::outcomes::Exchange;
use ctf_wire::{Broker, RunFault};

/// More calls of each sort than any of the runs makes.
const CALLS: u32 = 600;

/// The expected output for the first `lines` replies: up to the bar after the last of them.
fn noted_of(want: &[u8], lines: usize) -> &[u8] {
    let mut left = lines;
    let mut len: usize = 0;
    for byte in want {
        if left > 0 {
            len = len.wrapping_add(1);
            if *byte == b'|' {
                left = left.wrapping_sub(1);
            }
        }
    }
    want.get(..len).unwrap_or(b"")
}

/// The output expected after the first `reads` reads; no two lines may end in the same read.
fn noted_after(told: &Exchange, size: usize, reads: u32) -> &[u8] {
    let len = size.wrapping_mul(reads as usize).min(told.input.len());
    let read = told.input.get(..len).unwrap_or(b"");
    noted_of(
        &told.want,
        read.iter().filter(|byte| **byte == b'\n').count(),
    )
}

/// Checks the end and the output of a run whose call number `number` failed (`word` says which
/// sort of call), or that was limited to `number` reads.
fn is_cut(told: &Exchange, size: usize, word: &str, number: u32, ran: &Ran) -> bool {
    let (end, noted) = ran;
    match word {
        "reads" => {
            *end == Err(RunFault::ReadBound) && noted.as_slice() == noted_after(told, size, number)
        }
        "read" => {
            let before = number.wrapping_sub(1);
            *end == Err(RunFault::Read) && noted.as_slice() == noted_after(told, size, before)
        }
        _ => {
            *end == Err(RunFault::Write)
                && told.want.starts_with(noted)
                && noted.len() < told.want.len()
        }
    }
}

/// Counts the runs that end early: at the first call of a sort, at the second and so on, until a
/// run reaches its end.
pub fn each(said: &mut AnswerWords, told: &Exchange, words: &str) {
    let (size, word) = words.split_once(' ').unwrap_or((words, ""));
    let size = size.parse::<usize>().unwrap_or(0);
    let first = if word == "reads" { 0 } else { 1 };
    let mut cut: u64 = 0;
    for number in first..CALLS {
        let case = Case::of(size).with(word, number);
        let ran = served_in(
            said.alloc(),
            &mut Broker::new(said.alloc()),
            &told.input,
            case,
        );
        if ran.0 == Ok(()) && ran.1.as_slice() == told.want.as_slice() {
            break;
        }
        if !is_cut(told, size, word, number, &ran) {
            said.word("other at");
            said.number(u64::from(number));
            return;
        }
        cut = cut.wrapping_add(1);
    }
    said.number(cut);
}
