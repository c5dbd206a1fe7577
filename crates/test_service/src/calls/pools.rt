//! Dictionaries that are opened again while a pool has them, or after it has dropped them.

use crate::collected::AnswerWords;
use ctf_protocol::{Bytes, DataModel, Parts, fault_name};
use ctf_wire::Pool;
use std::alloc::{AllocError, Global};

/// The lists of a dictionary: `front`, and `rest` after it.
fn lists(alloc: Global, front: &[u8], rest: &[u8]) -> Result<Parts, AllocError> {
    let mut ctf = Bytes::from_slice(alloc, front)?;
    ctf.append(rest)?;
    Ok(Parts {
        ctf,
        sym: None,
        strs: None,
    })
}

/// Opens lists, and reports whether the dictionary ends as they do; or how they are refused, and
/// how many bytes come back.
fn put_opened(said: &mut AnswerWords, pool: &mut Pool, front: &[u8], rest: &[u8]) {
    let Ok(parts) = lists(said.alloc(), front, rest) else {
        return said.word("no memory");
    };
    match pool.open(parts, DataModel::Lp64) {
        Ok(loaded) if loaded.view().lists().ctf.ends_with(rest) => said.word("Ok"),
        Ok(_) => said.word("another"),
        Err((fault, parts)) => {
            said.word(fault_name(fault.code));
            said.number(parts.ctf.len() as u64);
        }
    }
}

/// A row has the digits of the front of a list, and for each list that is opened the bytes that
/// follow; a dash for none.
pub fn pool(said: &mut AnswerWords, words: &str) {
    let (digits, steps) = words.split_once(' ').unwrap_or((words, ""));
    let Ok(front) = hex::decode(said.alloc(), digits) else {
        return said.word("no digits");
    };
    let mut pool = Pool::new(said.alloc());
    for step in steps.split(" ") {
        match hex::decode(said.alloc(), step.strip_prefix('-').unwrap_or(step)) {
            Ok(rest) => put_opened(said, &mut pool, &front, &rest),
            Err(_) => said.word("no digits"),
        }
    }
}
