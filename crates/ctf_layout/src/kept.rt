//! The sizes and alignments of the own types of a dictionary.
ghost use Rattle.std.specs.Prelude.{◌≡◌, ◌+◌, ◌<◌, ◌≤◌, IfOk, OnOk, length};
ghost use Rattle.std.specs.Option.{ForSome};
ghost use Rattle.ctf_layout.specs.Kept.{AreExtents};
ghost use Rattle.ctf_layout.specs.SmallExtents.{extent_at, extents_in, extents_of_wide};
ghost use Rattle.ctf_layout.specs.Work.{types_work};
ghost use Rattle.ctf_model.specs.figures.FigureLaws.{HasBoundedValues};

use crate::entry::KeptExtent;
use crate::extents::{Extent, Refusal, refused};
use crate::filling::fill;
use crate::small_extent::{SmallExtent, wide_extent};
use crate::types::Types;
use ctf_chains::Ticks;
use std::alloc::{AllocError, Global};
use std::sync::ledger::Ledger;

/// The extents of the own types of a dictionary, in the order of their numbers. They borrow nothing
/// from it.
#[derive(Drop)]
pub struct Extents {
    /// One for each type; or none, and then all types are among the wide ones.
    pub(crate) small: Vec<SmallExtent>,
    /// Those that don't fit into 8 bytes, in the order in which they come.
    pub(crate) wide: Vec<KeptExtent>,
}

/// The place of the next wide entry, as 32 bits. There is at most one for each type before `i`.
fn wide_place<L: Ledger, T: Types<L>>(types: &T, i: usize, place: usize) -> u32
    requires own { i < length (T.space types.now).own.terms }
    requires few { place ≤ i }
    ensures { result ≡ place }
{
    // The number of a type is greater than the count of own types before it, and fits.
    let number = types.number(i);
    place.min(usize::from(number.0)) as u32
}

/// The same entries in 8 bytes each, beside a list of those that don't fit. None where these are
/// more than half.
fn small_and_wide_entries<L: Ledger, T: Types<L>>(
    alloc: Global,
    types: &T,
    table: &[KeptExtent],
) -> Result<Option<Extents>, AllocError>
    requires { length table.now ≡ length (T.space types.now).own.terms }
    ensures { IfOk result (λ found. ForSome found
        (λ e. extents_in e ≡ extents_of_wide table.now)) }
{
    let mut small = Vec::with_capacity(alloc, table.len())?;
    let mut wide = Vec::new(alloc);
    for entry in table {
        let next = match entry.to_small() {
            Some(next) => next,
            None => {
                if wide.len() == table.len() / 2 {
                    return Ok(None);
                }
                let place = wide_place(types, small.len(), wide.len());
                wide.push(*entry)?;
                SmallExtent::Wide(place)
            }
        };
        small.push_reserved(next);
    }
    wide.shrink_to_fit();
    Ok(Some(Extents { small, wide }))
}

/// The same entries, in fewer bytes unless more than half are wide.
#[tactic(auto, unfolding(crate::specs::SmallExtents::extents_in))]
fn pack_extents<L: Ledger, T: Types<L>>(
    alloc: Global,
    types: &T,
    table: Vec<KeptExtent>,
) -> Result<Extents, AllocError>
    requires { length table.items ≡ length (T.space types.now).own.terms }
    ensures { IfOk result (λ e. extents_in e ≡ extents_of_wide table.items) }
{
    match small_and_wide_entries(alloc, types, &table)? {
        Some(extents) => Ok(extents),
        None => Ok(Extents {
            small: Vec::new(alloc),
            wide: table,
        }),
    }
}

/// The entries of all own types, in 24 bytes each.
fn full_table<L: Ledger, T: Types<L>>(
    alloc: Global,
    types: &T,
    work: &mut Ticks<L>,
) -> Result<Vec<KeptExtent>, AllocError>
    requires bounded { HasBoundedValues (T.space types.now).own }
    ensures count { IfOk result (λ t. length t.items ≡ length (T.space types.now).own.terms) }
    ensures right { IfOk result (λ t. AreExtents (T.space types.now) (extents_of_wide t.items)) }
    ensures steps { OnOk result (work.new
        ≡ work.old + types_work (T.space types.now).own.terms) }
{
    let mut entries = vec![in alloc; KeptExtent::open(); types.count()]?;
    fill(types, entries.as_mut_slice(), work);
    Ok(entries)
}

impl Extents {
    /// The extents of a dictionary; each is computed once. They take 8 bytes a type, and 24 more
    /// for one that does not fit; where more than half do not, 24 for each.
    pub fn build<L: Ledger, T: Types<L>>(
        alloc: Global,
        types: &T,
        work: &mut Ticks<L>,
    ) -> Result<Extents, AllocError>
        requires bounded { HasBoundedValues (T.space types.now).own }
        ensures right { IfOk result (λ e. AreExtents (T.space types.now) (extents_in e)) }
        ensures steps { OnOk result (work.new
            ≡ work.old + types_work (T.space types.now).own.terms) }
    {
        let table = full_table(alloc, types, work)?;
        pack_extents(alloc, types, table)
    }

    /// The extent of the own type with a number from 0.
    #[inline(always)]
    #[tactic(auto, unfolding(crate::specs::SmallExtents::extents_in))]
    pub fn at(&self, i: usize) -> Extent
        ensures { result ≡ extent_at (extents_in self.now) i }
    {
        match self.small.get(i) {
            Some(entry) => entry.extent(&self.wide),
            None => self.behind_small(i),
        }
    }

    /// The extent of a type that has no small entry.
    #[inline(always)]
    #[tactic(auto, unfolding(crate::specs::SmallExtents::extents_in))]
    fn behind_small(&self, i: usize) -> Extent
        requires { length self.now.small.items ≤ i }
        ensures { result ≡ extent_at (extents_in self.now) i }
    {
        if self.small.is_empty() {
            wide_extent(&self.wide, i)
        } else {
            refused(Refusal::NoType)
        }
    }
}
