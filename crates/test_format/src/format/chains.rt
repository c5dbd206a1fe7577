//! Long chains of each sort, cycles, and what looking for them costs.
ghost use Rattle.std.specs.Prelude.{◌≡◌, ◌<◌, IfSome, None, length};
ghost use Rattle.ctf_model.specs.rules.Faults.{walk_fault};
ghost use Rattle.ctf_model.specs.format.Section.{records};

use crate::answer::Answer;
use crate::format::graph::search_rows;
use crate::words::Words;
use ctf_chains::{
    Chain, Ticks, Types, first_deep_counted, first_deep_type, record_started, record_starts,
};
use ctf_records::Records;
use std::alloc::{AllocError, Global};
use std::marker::Brand;
use std::sync::ledger::{Blank, Ledger};

/// The number of the records of a section, if all are whole.
fn whole_count(types: &[u8]) -> Option<usize>
    ensures count { IfSome result (λ n. n ≡ length (records types.now)) }
    ensures whole { IfSome result (λ n. walk_fault (records types.now) ≡ None) }
{
    let mut count: usize = 0;
    for record in Records::new(types) {
        if record.is_err() {
            return None;
        }
        count = count.checked_add(1)?;
    }
    Some(count)
}

/// The same search, with the number of its ticks, in a new ledger.
fn count_ticks<L: Ledger>(
    alloc: Global,
    types: &Types<'_>,
    blank: Blank,
) -> Result<(Option<usize>, u64), AllocError>
    requires name { blank.name ≡ L.name }
    requires parts { blank.parts ≡ L.parts }
    requires some { 0 < blank.parts }
{
    let mut work = Ticks::<L>::new(blank);
    let found = first_deep_counted(alloc, types, &mut work)?;
    Ok((found, work.count()))
}

/// The first type from which a chain of one sort is too long, and the cost of finding it; none if a
/// record is not whole, or if the two calls that search find different types.
fn first(
    alloc: Global,
    types: &[u8],
    child: bool,
    chain: Chain,
) -> Result<Option<(Option<usize>, u64)>, AllocError> {
    let Some(count) = whole_count(types) else {
        return Ok(None);
    };
    if types.len() >= 0x1_0000_0000 {
        return Ok(None);
    }
    let starts = record_starts(alloc, types, count)?;
    let graph = Types::new(types, &starts, child, chain);
    let found = count_ticks::<Brand>(alloc, &graph, Blank::new(1))?;
    let alike = first_deep_type(alloc, types, &starts, child, chain)? == found.0;
    Ok(if alike { Some(found) } else { None })
}

/// The sort of chains for a word.
fn chain_of(answer: &mut Answer, word: &str) -> Chain {
    match word {
        "value" => Chain::ByValue,
        "declarator" => Chain::Declarator,
        _ => {
            answer.fail();
            Chain::ByValue
        }
    }
}

fn put_found(answer: &mut Answer, found: Option<usize>) {
    match found {
        Some(place) => answer.say(place),
        None => answer.word("none"),
    }
}

/// Searches a section, of a child or another dictionary, for a chain of one sort.
fn put_first(answer: &mut Answer, counts: bool, words: &mut Words<'_>) {
    let chain = chain_of(answer, words.word());
    let child = words.word() == "child";
    match first(answer.alloc(), &words.bytes(), child, chain) {
        Ok(Some((found, ticks))) => {
            put_found(answer, found);
            if counts {
                answer.say(ticks);
            }
        }
        _ => answer.fail(),
    }
}

/// Searches rows of numbers, and adds the cost of that.
fn put_searched(answer: &mut Answer, words: &mut Words<'_>) {
    match search_rows(answer.alloc(), words) {
        Ok((found, ticks)) => {
            put_found(answer, found);
            answer.say(ticks);
        }
        Err(_) => answer.fail(),
    }
}

/// Where the records of a section begin; and the number and the place of each.
fn put_starts(answer: &mut Answer, types: &[u8]) {
    let Some(count) = whole_count(types) else {
        return answer.fail();
    };
    if types.len() >= 0x1_0000_0000 {
        return answer.fail();
    }
    let Ok(starts) = record_starts(answer.alloc(), types, count) else {
        return answer.fail();
    };
    let places = starts.as_slice();
    answer.say(places);
    for i in 0..places.len() {
        let record = record_started(types, places, i);
        answer.say((record.index(), record.place()));
    }
}

/// Answers a call of ctf_chains.
pub fn answer_call(answer: &mut Answer, words: &mut Words<'_>) {
    match words.word() {
        "first" => put_first(answer, false, words),
        "counted" => put_first(answer, true, words),
        "searched" => put_searched(answer, words),
        "starts" => put_starts(answer, &words.bytes()),
        _ => answer.fail(),
    }
}
