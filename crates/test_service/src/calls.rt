//! The calls of rows, by their names.

mod each_call;
mod libraries;
mod loads;
mod marks;
mod pools;
mod replies;
mod requests;
mod runs;
mod shelves;

use crate::collected::AnswerWords;
use crate::transcripts::outcomes::Exchange;

/// Answers the calls about the lines of a run. Returns whether it knows the name.
fn answers_run(said: &mut AnswerWords, told: &Exchange, name: &str, words: &str) -> bool {
    match name {
        "run" => runs::run(said, told, words),
        "again" => runs::again(said, told, words),
        "each" => each_call::each(said, told, words),
        "shelf" => shelves::put_shelf(said, told, words),
        "marks" => marks::marks(said, told),
        "library" => libraries::library(said, told),
        "broker" => libraries::broker(said, told),
        "load" => loads::load(said, told, words),
        _ => return false,
    }
    true
}

/// Answers a call: its name and its arguments.
pub fn answer(said: &mut AnswerWords, told: &Exchange, call: &str) {
    let (name, words) = call.split_once(' ').unwrap_or((call, ""));
    if answers_run(said, told, name, words) {
        return;
    }
    match name {
        "read" => requests::read(said, words),
        "reply" => replies::reply(said, words),
        "change" => replies::change(said, words),
        "memory" => replies::memory(said, words),
        "pool" => pools::pool(said, words),
        "slot" => marks::slot(said, words),
        "faults" => marks::faults(said),
        _ => said.word("no call"),
    }
}
