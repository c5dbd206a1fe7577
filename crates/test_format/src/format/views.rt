//! The calls of ctf_views, on one record: each word after the record and its tables asks the same
//! view again.

use crate::answer::Answer;
use crate::format::spelling::variant_of;
use crate::words::Words;
use ctf_model::TypeNum;
use ctf_sections::{Differences, Strings};
use ctf_views::{
    Args, ArrayInfo, Encoding, Enumerator, Member, Members, Row, RowIter, Variant, is_variadic,
};

/// An item of a view, in the form of an answer.
trait AnswerItem: Drop {
    fn tell(&self, answer: &mut Answer);
}

impl AnswerItem for Member<'_> {
    fn tell(&self, answer: &mut Answer) {
        answer.name(self.name);
        answer.say(self.tnum.0);
        answer.say(self.offset);
    }
}

impl AnswerItem for Enumerator<'_> {
    fn tell(&self, answer: &mut Answer) {
        answer.name(self.name);
        answer.say(self.value);
    }
}

impl AnswerItem for TypeNum {
    fn tell(&self, answer: &mut Answer) {
        answer.say(self.0);
    }
}

fn tell<T: AnswerItem>(answer: &mut Answer, item: Option<T>) {
    match item {
        Some(item) => item.tell(answer),
        None => answer.word("none"),
    }
}

/// Asks a list for its rest; a number asks for the item with that number.
fn ask<R: Row>(answer: &mut Answer, rows: &mut RowIter<'_, R>, word: &str)
where
    R::Item: AnswerItem,
{
    match word {
        "len" => answer.say(rows.len()),
        "hint" => answer.say(rows.size_hint()),
        "next" => tell(answer, rows.next()),
        "back" => tell(answer, rows.next_back()),
        place => match place.parse::<usize>() {
            Ok(place) => tell(answer, rows.get(place)),
            Err(_) => answer.fail(),
        },
    }
}

fn ask_members(answer: &mut Answer, members: &mut Members<'_>, word: &str) {
    match word.strip_prefix("named:") {
        Some(name) => tell(
            answer,
            members.member_named(name.as_bytes(), &mut Differences::none()),
        ),
        None => ask(answer, members, word),
    }
}

fn ask_arguments(answer: &mut Answer, args: &mut Args<'_>, word: &str) {
    match word {
        "variadic" => answer.say(is_variadic(args)),
        _ => ask(answer, args, word),
    }
}

fn put_array(answer: &mut Answer, info: ArrayInfo) {
    answer.word("array");
    answer.say(info.contents.0);
    answer.say(info.index.0);
    answer.say(info.count);
}

fn put_encoding(answer: &mut Answer, info: Encoding) {
    answer.word("encoding");
    answer.say(info.encoding);
    answer.say(info.offset);
    answer.say(info.bits);
}

/// Answers the words that ask a view.
fn ask_all(answer: &mut Answer, view: Variant<'_>, words: &str) {
    match view {
        Variant::Members(mut members) => {
            answer.word("members");
            for word in words.split_terminator(' ') {
                ask_members(answer, &mut members, word);
            }
        }
        Variant::Enumerators(mut values) => {
            answer.word("enumerators");
            for word in words.split_terminator(' ') {
                ask(answer, &mut values, word);
            }
        }
        Variant::Args(mut args) => {
            answer.word("arguments");
            for word in words.split_terminator(' ') {
                ask_arguments(answer, &mut args, word);
            }
        }
        Variant::Array(info) => put_array(answer, info),
        Variant::Encoding(info) => put_encoding(answer, info),
        Variant::Tag(tag) => {
            answer.word("tag");
            answer.say(tag);
        }
        Variant::Nothing => answer.word("nothing"),
    }
}

/// Answers a row of ctf_views: a record, its tables, and the words that ask its view.
pub fn answer_call(answer: &mut Answer, words: &mut Words<'_>) {
    let types = words.bytes();
    let own = words.bytes();
    let elf = words.bytes();
    let strings = Strings::new(&own, if elf.is_empty() { None } else { Some(&elf) });
    match variant_of(&types, strings) {
        Some(view) => ask_all(answer, view, words.rest()),
        None => answer.fail(),
    }
}
