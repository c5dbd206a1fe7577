//! Reads a section record by record.
ghost use Rattle.std.specs.Prelude.{◌≡◌};
ghost use Rattle.std.specs.Option.{option_map};
ghost use Rattle.std.specs.Iterator.{YieldsFirstBy, item_count};
ghost use Rattle.ctf_model.specs.format.Section.{records, stop_code};
ghost use Rattle.ctf_records.specs.RecordView.{piece, result_piece};
ghost use Rattle.ctf_records.specs.Pieces.{piece_numbered};

use crate::front::{front_len, kind_of};
use crate::place::take_record;
use crate::record::Record;
use ctf_model::Fault;
use std::marker::Model;

/// The records of a section in order, and then the fault of the rest, if no record begins there.
#[derive(Drop)]
pub struct Records<'a> {
    rest: &'a [u8],
    index: u64,
    at: usize,
}

impl<'a> Model for Records<'a> {
    ghost use Rattle.std.specs.Prelude.{◌≤◌, ◌+◌, ◌^◌, length, List, Result};
    ghost use Rattle.ctf_model.specs.format.Section.{Piece, walk};
    ghost use Rattle.ctf_model.specs.declared.faults.Fault.{Fault};

    ghost Value = { List (Result Piece Fault) };

    ghost view = { λ it. walk (length it.rest.now) it.index it.at it.rest.now };

    ghost invariant = { λ it. (it.index + length it.rest.now ≤ 2 ^ 63)
        × (it.at + length it.rest.now ≤ 2 ^ 63) };
}

/// The fault of bytes at which no whole record begins.
fn stop_fault(rest: &[u8], index: u64) -> Fault
    ensures { result ≡ record { code = stop_code rest.now; place = index } }
{
    let code = if rest.len() >= 8 && kind_of(rest).is_none() {
        Fault::BAD_KIND
    } else {
        Fault::TRUNCATED
    };
    Fault { code, place: index }
}

impl<'a> Records<'a> {
    pub fn new(section: &'a [u8]) -> Records<'a>
        ensures { result ≡ records section.now }
    {
        Records {
            rest: section,
            index: 1,
            at: 0,
        }
    }
}

impl<'a> Iterator for Records<'a> {
    type Item = Result<Record<'a>, Fault>;

    ghost next_gives = { YieldsFirstBy result_piece (λ rest. rest) };

    ghost remaining = { item_count (λ rest. rest) };

    fn next(&mut self) -> Option<Result<Record<'a>, Fault>> {
        if self.rest.is_empty() {
            return None;
        }
        match front_len(self.rest) {
            None => {
                let fault = stop_fault(self.rest, self.index);
                self.rest = &[];
                Some(Err(fault))
            }
            Some(len) => {
                let record = take_record(self.rest, len, self.index, self.at);
                self.rest = self.rest.split_at(len).1;
                self.index += 1;
                self.at += len;
                Some(Ok(record))
            }
        }
    }
}

/// The record with a number, if a section has one.
pub fn record_numbered<'a>(types: &'a [u8], index: u64) -> Option<Record<'a>>
    ensures { option_map piece result ≡ piece_numbered (records types.now) index }
{
    for record in Records::new(types) {
        let Ok(record) = record else { return None };
        if record.index() == index {
            return Some(record);
        }
    }
    None
}
