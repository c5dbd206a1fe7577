//! The calls of ctf_model.

use crate::answer::Answer;
use crate::format::parts::join_bytes;
use crate::words::Words;
use ctf_model::{Bytes, Fault, LONGEST_PIECE, Piece, TypeNum, fault_name, placeless};
use std::alloc::AllocError;

/// The bytes, and the same bytes as a vector and as a piece.
fn put_owned(answer: &mut Answer, bytes: Bytes) {
    answer.say(bytes.len());
    answer.say(bytes.is_empty());
    answer.bytes(bytes.as_slice());
    let bytes = bytes.into_vec();
    answer.bytes(&bytes);
    if bytes.len() <= LONGEST_PIECE {
        let piece = Piece::new(bytes);
        answer.bytes(piece.as_slice());
        answer.bytes(&piece.into_vec());
    }
}

fn put(answer: &mut Answer, bytes: Result<Bytes, AllocError>) {
    match bytes {
        Ok(bytes) => answer.bytes(bytes.as_slice()),
        Err(_) => answer.fail(),
    }
}

/// Appends three lists of bytes.
fn put_appended(answer: &mut Answer, words: &mut Words<'_>) {
    let mut bytes = Bytes::new(answer.alloc());
    for _ in 0..3 {
        if bytes.append(&words.bytes()).is_err() {
            answer.fail();
        }
    }
    answer.bytes(bytes.as_slice());
    answer.say(bytes.len());
}

/// Where the type with a number is, without a parent and in a child.
fn put_place(answer: &mut Answer, number: TypeNum) {
    answer.say(number.place(false));
    answer.say(number.place(true));
}

/// Answers a call of ctf_model.
pub fn answer_call(answer: &mut Answer, words: &mut Words<'_>) {
    match words.word() {
        "fault_name" => answer.say(fault_name(words.number())),
        "BAD_NAME" => answer.say(fault_name(Fault::BAD_NAME)),
        "QUOTA_FULL" => answer.say(fault_name(Fault::QUOTA_FULL)),
        "NO_SLOT" => answer.say(placeless(Fault::NO_SLOT)),
        "new" => put_owned(answer, Bytes::new(answer.alloc())),
        "owned" => put_owned(answer, Bytes::from(words.bytes())),
        "copied" => put(answer, Bytes::from_slice(answer.alloc(), &words.bytes())),
        "appended" => put_appended(answer, words),
        "joined" => {
            let (front, back) = (words.bytes(), words.bytes());
            put(answer, join_bytes(answer.alloc(), &front, &back));
        }
        "place" => put_place(answer, TypeNum(words.number())),
        _ => answer.fail(),
    }
}
