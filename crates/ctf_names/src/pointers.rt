//! The pointers of a dictionary, by the types that they point to.
ghost use Rattle.std.specs.Prelude.{◌≡◌, ◌+◌, ◌<◌, ◌^◌, ℕ, List, length, OnOk, IfSome, Some, None, nat_lt, if◌then◌else◌};
ghost use Rattle.std.specs.List.Sorted.{IsSortedBy, IsPermutation};
ghost use Rattle.ctf_model.specs.names.Lookups.{first_place, is_pointer_to};
ghost use Rattle.ctf_model.specs.format.Term.{Term};
ghost use Rattle.ctf_names.specs.Briefs.{IsBriefAt};
ghost use Rattle.ctf_names.specs.Pointers.{pointer_precedes, slot, HasOutside, LowerBefore, NoneLowerBehind, PointersFrom};
ghost use Rattle.ctf_names.specs.PointersKept.{ArePointers};

use crate::types::Brief;
use ctf_model::TypeNum;
use std::alloc::AllocError;

/// A pointer, by the type that it points to and its own number from 0.
#[derive(Clone, Copy)]
pub(crate) struct Pointer {
    pub(crate) target: u16,
    pub(crate) place: u16,
}

/// The pointers of a dictionary, as plain numbers from 0: for each type from a number on the first
/// pointer to it, or 65,535 for none; and all pointers to other types, sorted.
#[derive(Drop)]
pub(crate) struct Pointers {
    pub(crate) base: u16,
    pub(crate) firsts: Vec<u16>,
    pub(crate) outside: Vec<Pointer>,
}

/// The slot of a type, among so many slots for the types from a number on.
#[inline(always)]
fn slot_of(base: u16, slots: usize, target: u16) -> Option<usize>
    ensures is { result ≡ slot base slots target }
    ensures inside { IfSome result (λ k. k < slots) }
{
    if target < base {
        return None;
    }
    let place = usize::from(target - base);
    if place < slots { Some(place) } else { None }
}

/// Enters a pointer before those that were entered, if the type is one.
pub(crate) fn enter_pointer(
    firsts: &mut [u16],
    outside: &mut Vec<Pointer>,
    base: u16,
    of: Brief,
    place: usize,
) -> Result<(), AllocError>
    requires { place < 2 ^ 16 }
    ensures { (terms : List Term) → IsBriefAt terms place of
        → PointersFrom terms base (place + 1) firsts.old outside.old.items
        → OnOk result (PointersFrom terms base place firsts.new outside.new.items) }
{
    let Some(target) = of.target else {
        return Ok(());
    };
    if let Some(slot) = slot_of(base, firsts.len(), target.0) {
        firsts[slot] = place as u16;
        return Ok(());
    }
    outside.push(Pointer {
        target: target.0,
        place: place as u16,
    })?;
    Ok(())
}

/// Sorts pointers by what they point to, and then by number.
fn arrange(pointers: &mut Vec<Pointer>)
    ensures permutation { IsPermutation pointers.old.items pointers.new.items }
    ensures sorted { IsSortedBy pointer_precedes pointers.new.items }
{
    pointers.sort_unstable_by(|a, b| {
        if a.target == b.target {
            a.place.cmp(&b.place)
        } else {
            a.target.cmp(&b.target)
        }
    });
}

/// The pointers to other types, sorted by what they point to.
pub(crate) fn in_order(mut outside: Vec<Pointer>) -> Vec<Pointer>
    ensures same { (terms : List Term) (base slots : ℕ)
        → HasOutside terms base slots 0 outside.items
        → HasOutside terms base slots 0 result.items }
    ensures sorted { IsSortedBy pointer_precedes result.items }
{
    arrange(&mut outside);
    outside
}

/// An entry of a table, if it is below the number of types.
#[inline(always)]
fn place_among(types: usize, place: u16) -> Option<u32>
    ensures { result ≡ (if nat_lt place types then Some place else None) }
{
    if usize::from(place) < types {
        Some(u32::from(place))
    } else {
        None
    }
}

/// Where the pointers to a type begin, or would begin.
fn begin(pointers: &[Pointer], target: u16) -> usize
    ensures low { IsSortedBy pointer_precedes pointers.now
        → LowerBefore pointers.now target result }
    ensures high { IsSortedBy pointer_precedes pointers.now
        → NoneLowerBehind pointers.now target result }
{
    pointers.partition_point(|p| p.target < target)
}

/// The first pointer to a type that has no slot, by a binary search.
fn first_outside(pointers: &[Pointer], target: u16) -> Option<u32>
    ensures { (terms : List Term) (base slots : ℕ)
        → HasOutside terms base slots 0 pointers.now
        → IsSortedBy pointer_precedes pointers.now
        → slot base slots target ≡ None
        → result ≡ first_place (is_pointer_to target) terms }
{
    let from = begin(pointers, target);
    let pointer = pointers.get(from)?;
    if pointer.target == target {
        Some(u32::from(pointer.place))
    } else {
        None
    }
}

impl Pointers {
    /// The first pointer to a type, in a dictionary with so many types.
    #[inline(always)]
    pub(crate) fn first_to(&self, types: usize, target: TypeNum) -> Option<u32>
        ensures { (terms : List Term) → ArePointers terms self.now → types ≡ length terms
            → result ≡ first_place (is_pointer_to target.0) terms }
    {
        match slot_of(self.base, self.firsts.len(), target.0) {
            Some(slot) => place_among(types, self.firsts[slot]),
            None => first_outside(&self.outside, target.0),
        }
    }
}
