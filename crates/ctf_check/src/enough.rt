//! An upper bound on the type numbers that records refer to, computed before the types are
//! counted.
ghost use Rattle.std.specs.Prelude.{◌≡◌, max};
ghost use Rattle.ctf_records.specs.ListedTypes.{listed_types};
ghost use Rattle.ctf_records.specs.RecordView.{bytes_of};
ghost use Rattle.ctf_check.specs.Enough.{enough_among, enough_for as enough_for_number, record_enough};

use crate::references::has_long_tag;
use ctf_model::{Place, TypeNum};
use ctf_records::Record;

/// More types than a dictionary may have.
const TOO_MANY: usize = 32767;

pub fn more(a: usize, b: usize) -> usize
    ensures { result ≡ max a b }
{
    if a < b { b } else { a }
}

/// The least number of types with which a reference to this number names one.
#[tactic(auto, using(crate::proofs::Listed::enough_plain))]
#[inline(always)]
fn enough_for(child: bool, number: TypeNum) -> usize
    ensures { result ≡ enough_for_number child number.0 }
{
    if !child {
        return usize::from(number.0);
    }
    match number.place(child) {
        Place::Nowhere => { if number.0 == 0 { 0 } else { TOO_MANY } }
        Place::Own(i) => i + 1,
        Place::Parents(_) => 0,
    }
}

/// The least number of types with which the references after a record's head each name one.
#[tactic(auto, using(crate::proofs::Listed::enough_next, crate::proofs::Listed::enough_end))]
#[inline(always)]
fn enough_for_listed(child: bool, term: &Record<'_>) -> usize
    ensures { result ≡ enough_among child (listed_types (bytes_of term.now)) }
{
    let listed = term.reference_list();
    let mut enough = 0;
    for item in 0..listed.count() {
        enough = more(enough, enough_for(child, listed.get(item)));
    }
    enough
}

/// The least number of types with which all references of a record each name one.
#[tactic(auto, unfolding(crate::specs::Enough::record_enough, crate::specs::Enough::enough_among))]
pub fn enough_for_record(child: bool, term: &Record<'_>) -> usize
    ensures { result ≡ record_enough child (bytes_of term.now) }
{
    if has_long_tag(term) {
        return TOO_MANY;
    }
    match term.reference() {
        Some(number) => more(enough_for(child, number), enough_for_listed(child, term)),
        None => enough_for_listed(child, term),
    }
}
