//! Lines that are read as requests, word by word.

use crate::collected::AnswerWords;
use ctf_lines::{FromLine, Scratch};
use ctf_protocol::{
    Change, HeldQuestion, ListName, Names, PlainQuestion, Question, Request, SlotQuestion,
    TypeQuestion, Window,
};

fn put_list(said: &mut AnswerWords, list: ListName) {
    said.word(match list {
        ListName::Ctf => "ctf",
        ListName::Sym => "sym",
        ListName::Str => "str",
    });
}

fn put_change(said: &mut AnswerWords, change: &Change) {
    match change {
        Change::Part { section, bytes } => {
            said.word("part");
            put_list(said, *section);
            said.digits(bytes.as_slice());
        }
        Change::Check => said.word("check"),
        Change::Open { .. } => said.word("open"),
        Change::Reset => said.word("reset"),
        Change::Publish { d, name } => {
            said.word("publish");
            said.number(u64::from(d.get()));
            said.text_of(name.as_slice());
        }
        Change::Withdraw { name } => {
            said.word("withdraw");
            said.text_of(name.as_slice());
        }
        Change::Take { owner, name } => {
            said.word("take");
            said.number(u64::from(*owner));
            said.text_of(name.as_slice());
        }
        _ => said.word("another change"),
    }
}

fn plain_word(question: PlainQuestion) -> &'static str {
    match question {
        PlainQuestion::Kind => "kind",
        PlainQuestion::Record => "record",
        PlainQuestion::Args => "args",
        PlainQuestion::Array => "array",
        PlainQuestion::Encoding => "encoding",
        PlainQuestion::Reference => "reference",
        PlainQuestion::Resolve => "resolve",
        PlainQuestion::Size => "size",
        PlainQuestion::Align => "align",
        PlainQuestion::Name => "name",
        PlainQuestion::Pointer => "pointer",
    }
}

fn type_word(question: &TypeQuestion) -> &'static str {
    match question {
        TypeQuestion::Plain(question) => plain_word(*question),
        TypeQuestion::Members(_) => "members",
        TypeQuestion::Enumerators(_) => "enumerators",
        TypeQuestion::Path(_) => "path",
        TypeQuestion::Show { .. } => "show",
    }
}

fn slot_word(question: &SlotQuestion) -> &'static str {
    match question {
        SlotQuestion::Find(_) => "find",
        SlotQuestion::Symbol(_) => "symbol",
        SlotQuestion::Object(_) => "object",
        SlotQuestion::Function(_) => "function",
        SlotQuestion::Labels(_) => "labels",
        SlotQuestion::Label(_) => "label",
    }
}

fn held_word(question: HeldQuestion) -> &'static str {
    match question {
        HeldQuestion::Info => "info",
        HeldQuestion::Model => "model",
        HeldQuestion::Bytes { .. } => "bytes",
    }
}

/// The window of a question: its first item and, if stated, its number of items.
fn put_window(said: &mut AnswerWords, window: Window) {
    said.word("from");
    said.number(u64::from(window.from));
    if let Some(count) = window.count {
        said.word("count");
        said.number(u64::from(count));
    }
}

/// The digits of each name.
fn put_names(said: &mut AnswerWords, names: &Names) {
    let names = names.as_joined();
    for place in 0..names.len() {
        said.digits(names.text(place));
    }
}

/// What a question on a type has besides its word.
fn put_rest(said: &mut AnswerWords, question: &TypeQuestion) {
    match question {
        TypeQuestion::Members(window) => put_window(said, *window),
        TypeQuestion::Enumerators(window) => put_window(said, *window),
        TypeQuestion::Path(names) => put_names(said, names),
        _ => (),
    }
}

fn put_question(said: &mut AnswerWords, d: u32, question: &Question) {
    match question {
        Question::OfType { t, question } => {
            said.word(type_word(question));
            said.number(u64::from(d));
            said.number(u64::from(t.0));
            put_rest(said, question);
        }
        Question::OfSlot(question) => {
            said.word(slot_word(question));
            said.number(u64::from(d));
        }
        Question::OfHeld(question) => {
            said.word(held_word(*question));
            said.number(u64::from(d));
        }
    }
}

/// The session of a line and what it asks, or the code of the refusal.
pub fn read(said: &mut AnswerWords, line: &str) {
    let alloc = said.alloc();
    match Request::read(alloc, &mut Scratch::new(alloc), line.as_bytes()) {
        Ok((session, request)) => {
            said.number(u64::from(session));
            match &request {
                Request::Changes(change) => put_change(said, change),
                Request::Asks { d, question } => put_question(said, d.get(), question),
            }
        }
        Err((session, fault)) => {
            said.number(u64::from(session));
            said.word("fault");
            said.number(u64::from(fault.code));
        }
    }
}
