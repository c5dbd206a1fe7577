//! Where a record has the numbers of the types that its steps lead to.
ghost use Rattle.std.specs.Prelude.{◌≡◌, ◌<◌, drop, length, slice_index};
ghost use Rattle.ctf_model.specs.rules.Chains.{own_index as own_index_of};
ghost use Rattle.ctf_model.specs.spaces.TypePlaces.{own_number};
ghost use Rattle.ctf_records.specs.ListedView.{numbers_listed};
ghost use Rattle.ctf_records.specs.RecordView.{bytes_of};
ghost use Rattle.ctf_chains.specs.Numbers.{numbers, spot};

use crate::chain::Chain;
use ctf_model::{Kind, TypeNum};
use ctf_records::{Record, ReferenceList};

/// Where the type numbers are.
#[derive(Clone, Copy)]
enum Spot {
    Nowhere,
    Head,
    Contents,
    Members,
}

fn spot_of(chain: Chain, kind: Kind) -> Spot
    ensures { result ≡ spot chain kind }
{
    match (kind, chain) {
        (Kind::KTypedef | Kind::KVolatile | Kind::KConst | Kind::KRestrict, _) => Spot::Head,
        (Kind::KArray, _) => Spot::Contents,
        (Kind::KStruct | Kind::KUnion, Chain::ByValue) => Spot::Members,
        (Kind::KPointer | Kind::KFunction, Chain::Declarator) => Spot::Head,
        _ => Spot::Nowhere,
    }
}

/// The numbers of the types that the steps from a record lead to, each as often as the record names
/// it. No name is read.
#[inline(always)]
pub fn places<'a>(source: &Record<'a>, chain: Chain) -> ReferenceList<'a>
    ensures { numbers_listed result ≡ numbers chain (bytes_of source.now) }
{
    match spot_of(chain, source.kind()) {
        Spot::Nowhere => ReferenceList::new(&[], 2, 0, 0),
        Spot::Head => ReferenceList::new(field_on(source), 2, 0, 1),
        Spot::Contents => ReferenceList::new(source.rest(), 2, 0, 1),
        Spot::Members => source.reference_list(),
    }
}

/// The bytes of a record from its reference field on.
fn field_on<'a>(source: &Record<'a>) -> &'a [u8]
    ensures { result.now ≡ drop 6 (bytes_of source.now) }
{
    &source.bytes()[6..]
}

/// How many types the steps from a record lead to, each counted as often as the record names it.
pub fn place_count(source: &Record<'_>, chain: Chain) -> usize
    ensures { result ≡ length (numbers chain (bytes_of source.now)) }
{
    places(source, chain).count()
}

/// The number of the type that one of the steps from a record leads to. No name is read.
pub fn place_number(source: &Record<'_>, chain: Chain, k: usize) -> TypeNum
    requires { k < length (numbers chain (bytes_of source.now)) }
    ensures { result.0 ≡ slice_index (numbers chain (bytes_of source.now)) k }
{
    places(source, chain).get(k)
}

/// The number of the first own type.
#[inline(always)]
fn first_own(child: bool) -> u16
    ensures { result ≡ own_number child 0 }
{
    if child { 0x8001 } else { 1 }
}

/// The own type with a number, counted from 0, if there are that many types.
#[inline(always)]
#[tactic(auto, using(crate::proofs::OwnNumbers::below_own, crate::proofs::OwnNumbers::at_own))]
pub(crate) fn own_index(child: bool, count: usize, number: TypeNum) -> Option<usize>
    ensures { result ≡ own_index_of child count number.0 }
{
    let first = first_own(child);
    if number.0 < first {
        return None;
    }
    let i = (number.0 - first) as usize;
    if i < count { Some(i) } else { None }
}
