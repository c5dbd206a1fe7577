//! The public calls of the crates that read the format, a module for each crate.

mod chains;
mod graph;
mod model;
mod parts;
mod records;
mod sections;
mod spelling;
mod views;

use crate::answer::Answer;
use crate::words::Words;

/// Answers a call; each file of rows is about one crate.
pub fn answer_call(file: &str, answer: &mut Answer, words: &mut Words<'_>) {
    match file {
        "model.rows" => model::answer_call(answer, words),
        "sections.rows" => sections::answer_call(answer, words),
        "records.rows" => records::answer_call(answer, words),
        "views.rows" => views::answer_call(answer, words),
        "chains.rows" => chains::answer_call(answer, words),
        _ => answer.fail(),
    }
}
