//! Fills the table of sizes, alignments and resolved types: each own type is computed once.
ghost use Rattle.std.specs.Prelude.{◌≡◌, ℕ, ◌+◌, ◌<◌, ◌≤◌, Some, None, IsSome, MatchOption, length, slice_set};
ghost use Rattle.ctf_layout.specs.Extents.{IsExtent, itself};
ghost use Rattle.ctf_layout.specs.Kept.{IsByKept, IsKept, extent_kept, table_kept};
ghost use Rattle.ctf_layout.specs.Table.{IsFilled, IsWhole, Knows, entry};
ghost use Rattle.ctf_layout.specs.declared.extents.Extent.{Extent as WholeExtent};
ghost use Rattle.ctf_layout.specs.Work.{types_work};
ghost use Rattle.ctf_model.specs.rules.Chains.{IsWithin, longest_chain, own_index as own_index_of};
ghost use Rattle.ctf_model.specs.figures.FigureLaws.{HasBoundedValues, value_edges};

use crate::amounts::{greater, row_amount};
use crate::bases::{Basis, Row};
use crate::entry::KeptExtent;
use crate::extents::{Amount, Extent, Refusal, Target, of_no_type, refused};
use crate::types::Types;
use ctf_chains::{LONGEST_CHAIN, Ticks};
use ctf_model::{Place, TypeNum};
use std::sync::ledger::Ledger;

/// The own type with a number, counted from 0, if there are that many.
fn own_index<L: Ledger, T: Types<L>>(types: &T, number: TypeNum) -> Option<usize>
    ensures { let d = (T.space types.now).own in
        result ≡ own_index_of d.child (length d.terms) number.0 }
{
    match number.place(types.child()) {
        Place::Own(i) if i < types.count() => Some(i),
        _ => None,
    }
}

/// The extent of a number that is no own type's.
fn elsewhere<L: Ledger, T: Types<L>>(types: &T, number: TypeNum) -> Extent
    requires not_own { let d = (T.space types.now).own in
        own_index_of d.child (length d.terms) number.0 ≡ None }
    ensures { IsExtent (T.space types.now) number.0 result }
{
    if number.0 == 0 {
        return of_no_type();
    }
    match number.place(types.child()) {
        Place::Parents(i) => types.outside(i),
        _ => refused(Refusal::NoType),
    }
}

/// The entry of a type.
#[inline(always)]
fn entry_at(table: &[KeptExtent], i: usize) -> KeptExtent
    requires { i < length table.now }
    ensures { entry (table_kept table.now) i ≡ extent_kept result }
{
    table[i]
}

/// The entry of a type, if it was computed.
#[inline(always)]
fn known_entry(table: &[KeptExtent], i: usize) -> Option<KeptExtent>
    requires { i < length table.now }
    ensures { MatchOption result (entry (table_kept table.now) i ≡ None)
        (λ x. (entry (table_kept table.now) i ≡ extent_kept x) × IsSome (extent_kept x)) }
{
    let entry = entry_at(table, i);
    match entry.extent() {
        Some(_) => Some(entry),
        None => None,
    }
}

/// Stores the entry of a type in the table.
#[inline(always)]
fn keep(table: &mut [KeptExtent], i: usize, found: KeptExtent)
    requires { i < length table.old }
    ensures { table_kept table.new ≡ slice_set (table_kept table.old) i (extent_kept found) }
{
    table[i] = found;
}

/// The extent of a type that resolves to itself.
fn of_itself(size: Amount, align: Amount, number: TypeNum) -> Extent
    ensures { result ≡ itself size align number }
{
    Extent {
        size,
        align,
        target: Target::Known(number),
    }
}

/// The entry of a type that resolves to itself.
#[inline(always)]
fn kept_itself(size: Amount, align: Amount, number: TypeNum) -> KeptExtent
    ensures { extent_kept result ≡ Some (itself size align number) }
{
    KeptExtent::new(of_itself(size, align, number))
}

/// The entry that a number which is no own type's would have.
fn kept_elsewhere<L: Ledger, T: Types<L>>(types: &T, number: TypeNum) -> KeptExtent
    requires not_own { let d = (T.space types.now).own in
        own_index_of d.child (length d.terms) number.0 ≡ None }
    ensures { IsKept (T.space types.now) number.0 result }
{
    KeptExtent::new(elsewhere(types, number))
}

/// The entry of a type that is a row of elements.
fn kept_row(row: Row, element: KeptExtent, number: TypeNum) -> KeptExtent
    ensures { (e : WholeExtent) → extent_kept element ≡ Some e
        → IsByKept number.0 (Some row) e result }
{
    match element.extent() {
        Some(e) => kept_itself(row_amount(Some(row), e.size), e.align, number),
        None => KeptExtent::open(),
    }
}

/// The entry of a type that depends on one other: the same, or for a row of elements.
#[inline(always)]
fn kept_by_one(row: Option<Row>, one: KeptExtent, number: TypeNum) -> KeptExtent
    ensures { (e : WholeExtent) → extent_kept one ≡ Some e → IsByKept number.0 row e result }
{
    match row {
        None => one,
        Some(row) => kept_row(row, one, number),
    }
}

/// Computes an own type, and the types that it depends on; each is begun at most once. No chain of
/// steps by value from it may be longer than the budget. Returns its entry.
#[cycle(extents)]
#[inline(always)]
fn extent<L: Ledger, T: Types<L>>(
    types: &T,
    table: &mut [KeptExtent],
    work: &mut Ticks<L>,
    i: usize,
    budget: u16,
) -> KeptExtent
    requires same { length table.old ≡ length (T.space types.now).own.terms }
    requires own { i < length (T.space types.now).own.terms }
    requires short { budget ≤ longest_chain }
    requires within { IsWithin (value_edges (T.space types.now).own) budget i }
    requires knows { Knows (T.space types.now) (table_kept table.old) }
    ensures filled { IsFilled (T.space types.now) i (table_kept table.old) (table_kept table.new)
        work.old work.new }
    ensures kept { entry (table_kept table.new) i ≡ extent_kept result }
{
    match known_entry(table, i) {
        Some(entry) => entry,
        None => {
            visit_below(types, table, work, i, budget);
            entry_at(table, i)
        }
    }
}

/// The same for a type whose entry is open.
#[cycle(extents)]
#[inline(always)]
fn visit<L: Ledger, T: Types<L>>(
    types: &T,
    table: &mut [KeptExtent],
    work: &mut Ticks<L>,
    i: usize,
    budget: u16,
)
    requires same { length table.old ≡ length (T.space types.now).own.terms }
    requires own { i < length (T.space types.now).own.terms }
    requires short { budget ≤ longest_chain }
    requires within { IsWithin (value_edges (T.space types.now).own) budget i }
    requires knows { Knows (T.space types.now) (table_kept table.old) }
    requires open { entry (table_kept table.old) i ≡ None }
    ensures { IsFilled (T.space types.now) i (table_kept table.old) (table_kept table.new)
        work.old work.new }
{
    match types.basis(i, work) {
        Basis::Itself(size, align) => {
            keep(table, i, kept_itself(size, align, types.number(i)));
        }
        Basis::One(number, row) => {
            let one = match own_index(types, number) {
                Some(j) => extent(types, table, work, j, budget - 1),
                None => kept_elsewhere(types, number),
            };
            keep(table, i, kept_by_one(row, one, types.number(i)));
        }
        Basis::Members(size, read) => {
            let mut align = Amount::Known(0);
            for k in 0..read {
                let number = types.member_type(i, k, work);
                let member = match own_index(types, number) {
                    Some(j) => extent(types, table, work, j, budget - 1),
                    None => kept_elsewhere(types, number),
                };
                align = greater(align, member.alignment());
            }
            let size = Amount::Known(size);
            keep(table, i, kept_itself(size, align, types.number(i)));
        }
    }
}

/// `visit` out of line, for the recursion: the loop over all types inlines it, which saves a call
/// for most types.
#[cycle(extents)]
#[inline(never)]
fn visit_below<L: Ledger, T: Types<L>>(
    types: &T,
    table: &mut [KeptExtent],
    work: &mut Ticks<L>,
    i: usize,
    budget: u16,
)
    requires same { length table.old ≡ length (T.space types.now).own.terms }
    requires own { i < length (T.space types.now).own.terms }
    requires short { budget ≤ longest_chain }
    requires within { IsWithin (value_edges (T.space types.now).own) budget i }
    requires knows { Knows (T.space types.now) (table_kept table.old) }
    requires open { entry (table_kept table.old) i ≡ None }
    ensures { IsFilled (T.space types.now) i (table_kept table.old) (table_kept table.new)
        work.old work.new }
{
    visit(types, table, work, i, budget);
}

/// Computes an own type if its entry is open, for the loop over all types: `visit` is inlined.
#[inline(always)]
fn fill_one<L: Ledger, T: Types<L>>(
    types: &T,
    table: &mut [KeptExtent],
    work: &mut Ticks<L>,
    i: usize,
    budget: u16,
)
    requires same { length table.old ≡ length (T.space types.now).own.terms }
    requires own { i < length (T.space types.now).own.terms }
    requires short { budget ≤ longest_chain }
    requires within { IsWithin (value_edges (T.space types.now).own) budget i }
    requires knows { Knows (T.space types.now) (table_kept table.old) }
    ensures { IsFilled (T.space types.now) i (table_kept table.old) (table_kept table.new)
        work.old work.new }
{
    match known_entry(table, i) {
        Some(_) => {}
        None => visit(types, table, work, i, budget),
    }
}

/// Computes the extents of all own types.
pub fn fill<L: Ledger, T: Types<L>>(types: &T, table: &mut [KeptExtent], work: &mut Ticks<L>)
    requires same { length table.old ≡ length (T.space types.now).own.terms }
    requires empty { (j : ℕ) → entry (table_kept table.old) j ≡ None }
    requires bounded { HasBoundedValues (T.space types.now).own }
    ensures whole { IsWhole (T.space types.now) (table_kept table.new) }
    ensures steps { work.new ≡ work.old + types_work (T.space types.now).own.terms }
{
    for i in 0..types.count() {
        fill_one(types, table, work, i, LONGEST_CHAIN);
    }
}
