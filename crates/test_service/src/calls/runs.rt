//! Runs in which a call fails, or that end at a bound on reads.

use crate::collected::AnswerWords;
use crate::serving::cases::Case;
use crate::serving::served_in;
use crate::transcripts::outcomes::Exchange;
use ctf_wire::{Broker, RunFault};

/// The case of words such as `7, reads 9, read 2`.
pub fn case_of(words: &str) -> Case {
    let mut parts = words.split(", ");
    let size = parts.next().unwrap_or("").parse::<usize>();
    let mut case = Case::of(size.unwrap_or(0));
    for part in parts {
        let (word, number) = part.split_once(' ').unwrap_or((part, ""));
        case = case.with(word, number.parse::<u32>().unwrap_or(0));
    }
    case
}

/// Reports how a run ended.
pub fn put_end(said: &mut AnswerWords, end: Result<(), RunFault>) {
    match end {
        Ok(()) => said.word("Ok"),
        Err(fault) => said.push_word(format!(in said.alloc(); "{fault}")),
    }
}

/// Reports how a broker's run over the lines ends, and how much of the replies it writes.
pub fn put_run(said: &mut AnswerWords, broker: &mut Broker, told: &Exchange, case: Case) {
    let (end, written) = served_in(said.alloc(), broker, &told.input, case);
    put_end(said, end);
    said.front(&told.want, &written);
}

/// A run in a case.
pub fn run(said: &mut AnswerWords, told: &Exchange, words: &str) {
    let mut broker = Broker::new(said.alloc());
    put_run(said, &mut broker, told, case_of(words));
}

/// A run in a case, and then another in which no call fails.
pub fn again(said: &mut AnswerWords, told: &Exchange, words: &str) {
    let mut broker = Broker::new(said.alloc());
    let case = case_of(words);
    put_run(said, &mut broker, told, case);
    put_run(said, &mut broker, told, Case::of(case.size));
}
