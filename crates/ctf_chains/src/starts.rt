//! Where the records of a section begin.
ghost use Rattle.std.specs.Prelude.{◌≡◌, ◌+◌, ◌<◌, ◌^◌, length, slice_get, slice_index_or, IfOk, Some, Ok, None};
ghost use Rattle.ctf_model.specs.rules.Faults.{walk_fault};
ghost use Rattle.ctf_model.specs.format.Section.{records};
ghost use Rattle.ctf_chains.specs.Starts.{starts_in};
ghost use Rattle.ctf_records.specs.RecordView.{piece};

use ctf_records::{Record, Records, record_of_len};
use std::alloc::{AllocError, Global};
use std::marker::Model;

/// The places at which the records of a section begin, in order. Each takes four bytes.
#[derive(Drop)]
pub struct Starts {
    places: Vec<u32>,
}

impl Model for Starts {
    ghost use Rattle.std.specs.Prelude.{ℕ, List};

    ghost Value = { List ℕ };

    ghost view = { λ s. s.places.items };
}

impl Starts {
    /// The places themselves.
    pub fn as_slice(&self) -> &[u32]
        ensures { result.now ≡ self.now }
    {
        self.places.as_slice()
    }
}

/// Where the record with a number from 0 ends: where the next one begins, or the section ends.
#[inline(always)]
fn end_of(places: &[u32], i: usize, len: usize) -> usize
    requires { i < length places.now }
    ensures { result ≡ slice_index_or places.now (i + 1) len }
{
    if i + 1 < places.len() {
        places[i + 1] as usize
    } else {
        len
    }
}

/// The record with a number from 0. The places at which all records begin give it without reading
/// those before it.
#[inline(always)]
pub fn record_started<'a>(types: &'a [u8], places: &[u32], i: usize) -> Record<'a>
    requires whole { walk_fault (records types.now) ≡ None }
    requires starts { places.now ≡ starts_in (records types.now) }
    requires inside { i < length places.now }
    ensures { slice_get (records types.now) i ≡ Some (Ok (piece result)) }
{
    let at = places[i] as usize;
    let end = end_of(places, i, types.len());
    record_of_len(types, at, end - at, i as u64 + 1)
}

/// Where the `count` records of a section begin.
pub fn record_starts(alloc: Global, types: &[u8], count: usize) -> Result<Starts, AllocError>
    requires count { count ≡ length (records types.now) }
    requires short { length types.now < 2 ^ 32 }
    ensures { IfOk result (λ starts. starts ≡ starts_in (records types.now)) }
{
    let mut places = Vec::with_capacity(alloc, count)?;
    for record in Records::new(types) {
        if let Ok(record) = record {
            places.push_reserved(record.place() as u32);
        }
    }
    Ok(Starts { places })
}
