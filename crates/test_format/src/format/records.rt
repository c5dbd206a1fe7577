//! The calls of ctf_records: the parts of records, and where a section has no more records.

use crate::answer::Answer;
use crate::words::Words;
use ctf_records::{Record, Records, WIDE_MEMBERS, member_len, record_at, record_numbered};

/// All parts of a head.
fn put_head(answer: &mut Answer, record: &Record<'_>) {
    answer.say(record.kind());
    answer.say(record.size());
    answer.say(record.reference());
    answer.say(record.tag());
    answer.say(record.vlen());
    answer.say(record.is_long());
    answer.say(record.root());
    answer.say(record.name_ref());
}

/// A record: its number and place, its bytes, its head, and the bytes after the head.
fn put_record(answer: &mut Answer, record: Option<Record<'_>>) {
    let Some(record) = record else {
        return answer.word("none");
    };
    answer.say(record.index());
    answer.say(record.place());
    answer.bytes(record.bytes());
    put_head(answer, &record);
    answer.bytes(record.rest());
}

/// The record that an iterator over a section yields after so many.
fn put_next(answer: &mut Answer, section: &[u8], passed: u64) {
    let mut records = Records::new(section);
    for _ in 0..passed {
        let _ = records.next();
    }
    match records.next() {
        Some(Ok(record)) => put_record(answer, Some(record)),
        Some(Err(fault)) => answer.fault(fault),
        None => answer.word("none"),
    }
}

/// How many records a section has, and the fault after the last.
fn put_end(answer: &mut Answer, section: &[u8]) {
    let mut count: u64 = 0;
    for record in Records::new(section) {
        match record {
            Ok(_) => count = count.wrapping_add(1),
            Err(fault) => {
                answer.say(count);
                return answer.fault(fault);
            }
        }
    }
    answer.say(count);
}

/// The types that a record lists.
fn put_types(answer: &mut Answer, record: &Record<'_>) {
    let count = record.listed_count();
    answer.say(count);
    for item in 0..count {
        answer.say(record.listed_type(item).0);
    }
}

/// A call on one record, which has all the bytes that are given.
fn of_record(answer: &mut Answer, call: &str, bytes: &[u8]) {
    let Some(record) = record_at(bytes, 0, 1) else {
        return answer.fail();
    };
    match call {
        "types" => put_types(answer, &record),
        "record_member_len" => answer.say(record.member_len()),
        _ => answer.fail(),
    }
}

/// A call on a section.
fn of_section(answer: &mut Answer, call: &str, words: &mut Words<'_>) {
    let bytes = words.bytes();
    match call {
        "after" => put_next(answer, &bytes, words.number()),
        "numbered" => put_record(answer, record_numbered(&bytes, words.number())),
        "begins" => put_record(answer, record_at(&bytes, words.number(), words.number())),
        "end" => put_end(answer, &bytes),
        _ => of_record(answer, call, &bytes),
    }
}

/// Answers a call of ctf_records.
pub fn answer_call(answer: &mut Answer, words: &mut Words<'_>) {
    match words.word() {
        "member_len" => answer.say(member_len(words.number())),
        "wide_members" => answer.say(WIDE_MEMBERS),
        call => of_section(answer, call, words),
    }
}
