//! What the operator publishes before any line is read.

use crate::calls::runs::{case_of, put_run};
use crate::collected::AnswerWords;
use crate::transcripts::outcomes::Exchange;
use ctf_protocol::{Bytes, DataModel, Fault, Parts, PublicationName, fault_name};
use ctf_wire::{Broker, Counts, Loaded};
use std::alloc::Global;

/// The dictionary in a list.
fn open_list(alloc: Global, ctf: &[u8]) -> Option<Loaded> {
    let parts = Parts {
        ctf: Bytes::from_slice(alloc, ctf).ok()?,
        sym: None,
        strs: None,
    };
    Loaded::build(alloc, parts, DataModel::Lp64).ok()
}

/// The name of a publication.
fn name_of(alloc: Global, text: &str) -> Option<PublicationName> {
    PublicationName::new(Vec::from_slice(alloc, text.as_bytes()).ok()?)
}

fn put_outcome(said: &mut AnswerWords, outcome: Result<Counts, Fault>) {
    match outcome {
        Ok(_) => said.word("Ok"),
        Err(fault) => {
            said.word(fault_name(fault.code));
            said.number(fault.place);
        }
    }
}

fn load_dictionary(
    said: &mut AnswerWords,
    broker: &mut Broker,
    name: &PublicationName,
    ctf: &[u8],
) {
    match open_list(said.alloc(), ctf) {
        Some(dictionary) => put_outcome(said, broker.load(name, dictionary)),
        None => said.word("no dictionary"),
    }
}

fn load_section(said: &mut AnswerWords, broker: &mut Broker, name: &PublicationName, ctf: &[u8]) {
    match Vec::from_slice(said.alloc(), ctf) {
        Ok(ctf) => put_outcome(said, broker.load_section(name, ctf)),
        Err(_) => said.word("no memory"),
    }
}

/// Loads a list as a dictionary or as a section, or an empty section, and says the outcome.
fn load_as(said: &mut AnswerWords, broker: &mut Broker, sort: &str, name: &str, ctf: &[u8]) {
    let Some(name) = name_of(said.alloc(), name) else {
        return said.word("no name");
    };
    match sort {
        "dictionary" => load_dictionary(said, broker, &name, ctf),
        "section" => load_section(said, broker, &name, ctf),
        _ => load_section(said, broker, &name, b""),
    }
}

/// A row has the digits of a list; then what it is loaded as, and under which name, or a run over
/// the lines.
pub fn load(said: &mut AnswerWords, told: &Exchange, words: &str) {
    let (digits, steps) = words.split_once(", ").unwrap_or((words, ""));
    let Ok(ctf) = hex::decode(said.alloc(), digits) else {
        return said.word("no digits");
    };
    let mut broker = Broker::new(said.alloc());
    for step in steps.split(", ") {
        let (sort, words) = step.split_once(' ').unwrap_or((step, ""));
        if sort == "run" {
            put_run(said, &mut broker, told, case_of(words));
        } else {
            load_as(said, &mut broker, sort, words, &ctf);
        }
    }
}
