//! The calls of ctf_sections: headers and names.

use crate::answer::Answer;
use crate::words::Words;
use ctf_model::Section;
use ctf_sections::bytes::{u16_at, u32_at};
use ctf_sections::{Differences, Header, Places, Strings, is_text_after};

/// An integer named "int": header, one record of 12 bytes, 5 bytes of strings.
const INT: [u8; 53] = *b"\xf1\xcf\x02\x00\
    \x00\x00\x00\x00\x00\x00\x00\x00\
    \x00\x00\x00\x00\x00\x00\x00\x00\x00\x00\x00\x00\x00\x00\x00\x00\
    \x0c\x00\x00\x00\x05\x00\x00\x00\
    \x01\x00\x00\x00\x00\x0c\x04\x00\x20\x00\x00\x01\
    \x00int\x00";

/// `INT` with bytes changed as words such as `3:2` say: the byte at 3 becomes 2.
fn change_bytes(answer: &mut Answer, changes: &str) -> [u8; 53] {
    let mut ctf = INT;
    for change in changes.split_terminator(' ') {
        let (at, byte) = change.split_once(':').unwrap_or(("", ""));
        match (at.parse::<usize>(), byte.parse::<u8>()) {
            (Ok(at), Ok(byte)) if at < ctf.len() => ctf[at] = byte,
            _ => answer.fail(),
        }
    }
    ctf
}

/// Whether a header is read, or its fault.
fn read(answer: &mut Answer, ctf: &[u8]) {
    match Header::read(ctf) {
        Ok(_) => answer.word("ok"),
        Err(fault) => answer.fault(fault),
    }
}

/// Where the sections are, and the references of the parent.
fn ranges(answer: &mut Answer, ctf: &[u8]) {
    let Ok(header) = Header::read(ctf) else {
        return answer.fail();
    };
    answer.say(header.range(Section::SLabels));
    answer.say(header.range(Section::SObjects));
    answer.say(header.range(Section::SFunctions));
    answer.say(header.range(Section::STypes));
    answer.say(header.range(Section::SStrings));
    answer.say(header.parlabel());
    answer.say(header.parname());
}

fn put_name(answer: &mut Answer, name: Option<&[u8]>) {
    match name {
        Some(name) => answer.name(name),
        None => answer.word("none"),
    }
}

/// Whether references are those of names, with a cache of earlier comparisons.
fn are_names(answer: &mut Answer, strings: Strings<'_>, words: &mut Words<'_>) {
    let mut places = Places::new();
    let mut others = Differences::kept_in(&mut places);
    for _ in 0..words.number::<u16>() {
        let reference = words.number();
        answer.say(strings.is_name_after(reference, &words.bytes(), &mut others));
    }
}

/// A call on tables: the dictionary's own, and that of an ELF file if there is one.
fn of_strings(answer: &mut Answer, call: &str, words: &mut Words<'_>) {
    let own = words.bytes();
    let elf = words.bytes();
    let strings = Strings::new(&own, if elf.is_empty() { None } else { Some(&elf) });
    match call {
        "name" => put_name(answer, strings.name(words.number())),
        "short_name" => put_name(answer, strings.short_name(words.number(), words.number())),
        "is_name" => answer.say(strings.is_name(words.number(), &words.bytes())),
        "are_names" => are_names(answer, strings, words),
        _ => answer.fail(),
    }
}

/// Whether texts begin at places of a table, with a cache of earlier comparisons.
fn are_texts(answer: &mut Answer, words: &mut Words<'_>) {
    let table = words.bytes();
    let mut places = Places::new();
    let mut others = Differences::kept_in(&mut places);
    for _ in 0..words.number::<u16>() {
        let place = words.number();
        answer.say(is_text_after(&table, place, &words.bytes(), &mut others));
    }
}

/// The numbers of two and of four bytes at a place.
fn numbers(answer: &mut Answer, bytes: &[u8]) {
    if bytes.len() < 5 {
        return answer.fail();
    }
    answer.say(u16_at(bytes, 1));
    answer.say(u32_at(bytes, 1));
}

/// Answers a call of ctf_sections.
pub fn answer_call(answer: &mut Answer, words: &mut Words<'_>) {
    match words.word() {
        "header" => {
            let ctf = change_bytes(answer, words.rest());
            read(answer, &ctf);
        }
        "header_bytes" => read(answer, &words.bytes()),
        "ranges" => {
            let ctf = change_bytes(answer, words.rest());
            ranges(answer, &ctf);
        }
        "are_texts" => are_texts(answer, words),
        "numbers_at_1" => numbers(answer, &words.bytes()),
        call => of_strings(answer, call, words),
    }
}
