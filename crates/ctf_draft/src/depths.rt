//! Bounds on the depths of types, and the types that contain them.
ghost use Rattle.std.specs.Prelude.{◌≡◌, ◌+◌, ◌<◌, ◌≤◌, ℕ, [], true, length, min, slice_index_or, MatchOption, OnOk};
ghost use Rattle.ctf_draft.specs.Bounding.{IsAbove, IsBounded, IsLifted, IsNoted, IsOver, IsReady, above_of, bound, needed_bound};
ghost use Rattle.ctf_model.specs.drafts.Drafts.{Draft as Making, count_of};

use std::alloc::{AllocError, Global};

/// The bound that stands for "unknown": more than the longest chain of steps.
pub(crate) const UNKNOWN: u16 = 513;

/// How many types a rise may go up through, one after the other, each with 150 bytes of stack. If
/// no type contains itself, that is no more than the greatest bound; around a cycle it may be more.
const MOST_RISES: u16 = 1026;

/// How many holders of types a rise visits before it gives all further ones the unknown bound: a
/// type may have to rise once for each way that leads to it.
const MOST_LOOKS: usize = 65_536;

/// For each type a bound: no chain of steps by value from it is longer. For each pending type also
/// its holders, the types that contain it by value. A type without a bound is unknown.
#[derive(Drop)]
pub(crate) struct Depths {
    pub(crate) bounds: Vec<u16>,
    pub(crate) above: Vec<Vec<u16>>,
}

/// The bound of a type that contains one with this bound.
#[inline(always)]
fn over(bound: u16) -> u16
    ensures { result ≡ min 513 (bound + 1) }
{
    if bound < UNKNOWN { bound + 1 } else { UNKNOWN }
}

/// The bound of a type that needs at least `least`: that one, as long as further types may be
/// visited.
#[inline(always)]
fn raised_bound(least: u16, looks: usize) -> u16
    ensures { least ≤ result }
{
    if looks == 0 {
        least.max(UNKNOWN)
    } else {
        least
    }
}

/// Whether a type has no holders.
#[inline(always)]
fn is_on_top(above: &[Vec<u16>], i: usize) -> bool
    ensures { result ≡ true → slice_index_or (above_of above.now) i [] ≡ [] }
{
    i >= above.len() || above[i].is_empty()
}

/// Raises the bound of a pending type if that changes no other: the bound is high enough, or the
/// type has no holders. Returns whether it did.
#[inline(always)]
fn lift_alone(bounds: &mut [u16], above: &[Vec<u16>], first: usize, i: usize, least: u16) -> bool
    ensures len { length bounds.new ≡ length bounds.old }
    ensures lifted { IsLifted first (above_of above.now) bounds.old bounds.new }
    ensures high { result ≡ true → least ≤ bound bounds.new i }
{
    if i < first || i >= bounds.len() {
        return false;
    }
    if bounds[i] >= least {
        return true;
    }
    if is_on_top(above, i) {
        bounds[i] = least;
        return true;
    }
    false
}

/// Raises the bound of a type, and those of its holders accordingly. Updated types, from 0 to
/// `first`, are not changed. Returns whether it succeeded.
fn lift(
    bounds: &mut [u16],
    above: &[Vec<u16>],
    first: usize,
    i: usize,
    least: u16,
    rises: u16,
    looks: &mut usize,
) -> bool
    ensures len { length bounds.new ≡ length bounds.old }
    ensures lifted { result ≡ true → IsLifted first (above_of above.now) bounds.old bounds.new }
    ensures high { result ≡ true → least ≤ bound bounds.new i }
{
    if i < first || i >= bounds.len() {
        return false;
    }
    if bounds[i] >= least {
        return true;
    }
    if rises == 0 {
        return false;
    }
    let value = raised_bound(least, *looks);
    bounds[i] = value;
    if i >= above.len() {
        return true;
    }
    let next = over(value);
    let holders = above[i].as_slice();
    *looks = looks.saturating_sub(holders.len());
    for k in 0..holders.len() {
        let holder = usize::from(holders[k]);
        if !lift_alone(bounds, above, first, holder, next) {
            if !lift(bounds, above, first, holder, next, rises - 1, looks) {
                return false;
            }
        }
    }
    true
}

impl Depths {
    pub(crate) fn new(alloc: Global) -> Depths
        ensures bounds { result.bounds.items ≡ [] }
        ensures above { result.above.items ≡ [] }
    {
        Depths {
            bounds: Vec::new(alloc),
            above: Vec::new(alloc),
        }
    }

    /// Whether the bound shows that no more than 512 steps by value begin at a type.
    pub(crate) fn is_shallow(&self, i: usize) -> bool
        ensures { result ≡ true → bound self.now.bounds.items i ≤ 512 }
    {
        i < self.bounds.len() && self.bounds[i] < UNKNOWN
    }

    /// The bound of a type that contains this one, or none.
    fn bound_over(&self, held: Option<usize>) -> u16
        ensures { result ≡ needed_bound self.now.bounds.items held }
    {
        match held {
            Some(j) => over(self.bound(j)),
            None => 0,
        }
    }

    fn bound(&self, j: usize) -> u16
        ensures { result ≡ bound self.now.bounds.items j }
    {
        if j < self.bounds.len() {
            self.bounds[j]
        } else {
            UNKNOWN
        }
    }

    /// Makes lists of holders for the first so many types.
    fn make_lists(&mut self, alloc: Global, count: usize) -> Result<(), AllocError>
        ensures bounds { self.new.bounds.items ≡ self.old.bounds.items }
        ensures same { (k : ℕ) → slice_index_or (above_of self.new.above.items) k []
            ≡ slice_index_or (above_of self.old.above.items) k [] }
        ensures len { OnOk result (count ≤ length self.new.above.items) }
    {
        for _ in self.above.len()..count {
            self.above.push(Vec::new(alloc))?;
        }
        Ok(())
    }

    /// Adds a holder to a type.
    fn note(&mut self, alloc: Global, j: usize, i: u16) -> Result<(), AllocError>
        requires small { j < 65536 }
        ensures bounds { self.new.bounds.items ≡ self.old.bounds.items }
        ensures grows { (k p : ℕ) → IsAbove (above_of self.old.above.items) k p
            → IsAbove (above_of self.new.above.items) k p }
        ensures noted { OnOk result (IsAbove (above_of self.new.above.items) j i) }
    {
        self.make_lists(alloc, j + 1)?;
        let holders = &mut self.above[j];
        if holders.last() == Some(&i) {
            return Ok(());
        }
        holders.push(i)?;
        Ok(())
    }

    /// The same, unless the type is updated.
    fn note_pending(
        &mut self,
        alloc: Global,
        first: usize,
        j: usize,
        i: u16,
    ) -> Result<(), AllocError>
        requires small { j < 65536 }
        ensures bounds { self.new.bounds.items ≡ self.old.bounds.items }
        ensures grows { (k p : ℕ) → IsAbove (above_of self.old.above.items) k p
            → IsAbove (above_of self.new.above.items) k p }
        ensures noted { OnOk result (IsNoted first (above_of self.new.above.items) i j) }
    {
        if j < first {
            return Ok(());
        }
        self.note(alloc, j, i)
    }

    /// Raises the bound of a type for one that it contains, and those of all its holders. If that
    /// leads too far, all bounds are dropped.
    fn rise(&mut self, first: usize, i: usize, j: usize)
        requires noted { IsNoted first (above_of self.old.above.items) i j }
        ensures above { self.new.above.items ≡ self.old.above.items }
        ensures still { (d : Making) → length d.updated.terms ≡ first → IsBounded d self.old
            → IsBounded d self.new }
        ensures over { IsOver self.new.bounds.items i j }
    {
        let least = over(self.bound(j));
        let bounds = self.bounds.as_mut_slice();
        let above = self.above.as_slice();
        let mut looks = MOST_LOOKS;
        if !lift(bounds, above, first, i, least, MOST_RISES, &mut looks) {
            self.bounds.clear();
        }
    }

    /// Prepares for a type that gets one more type by value, before it does.
    pub(crate) fn make_ready(
        &mut self,
        alloc: Global,
        first: usize,
        i: usize,
        held: Option<usize>,
    ) -> Result<(), AllocError>
        requires holder { i < 65536 }
        requires held { MatchOption held (Unit {0}) (λ j. j < 65536) }
        ensures still { (d : Making) → length d.updated.terms ≡ first → IsBounded d self.old
            → IsBounded d self.new }
        ensures ready { OnOk result (IsReady first self.new i held) }
    {
        let Some(j) = held else {
            return Ok(());
        };
        self.note_pending(alloc, first, j, i as u16)?;
        self.rise(first, i, j);
        Ok(())
    }

    /// Gives the next type a bound. If an earlier type has none, it gets none.
    fn set_next(&mut self, count: usize, value: u16) -> Result<(), AllocError>
        requires known { value ≤ 513 }
        ensures above { self.new.above.items ≡ self.old.above.items }
        ensures front { (k : ℕ) → k < count
            → bound self.new.bounds.items k ≡ bound self.old.bounds.items k }
        ensures next { OnOk result (value ≤ bound self.new.bounds.items count) }
    {
        self.bounds.truncate(count);
        if self.bounds.len() == count {
            self.bounds.push(value)?;
        }
        Ok(())
    }

    /// Prepares for a new type; `held` is the index of the type that it contains by value, if any.
    pub(crate) fn make_next(
        &mut self,
        alloc: Global,
        first: usize,
        count: usize,
        held: Option<usize>,
    ) -> Result<(), AllocError>
        requires small { count < 65536 }
        requires held { MatchOption held (Unit {0}) (λ j. j < count) }
        ensures still { (d : Making) → length d.updated.terms ≡ first → count_of d ≡ count
            → IsBounded d self.old → IsBounded d self.new }
        ensures ready { OnOk result (IsReady first self.new count held) }
    {
        let value = self.bound_over(held);
        if let Some(j) = held {
            self.note_pending(alloc, first, j, count as u16)?;
        }
        self.set_next(count, value)
    }

    /// Keeps the bounds of the first types, which are updated.
    pub(crate) fn truncate(&mut self, first: usize)
        ensures front { (k : ℕ) → k < first
            → bound self.new.bounds.items k ≡ bound self.old.bounds.items k }
    {
        self.bounds.truncate(first);
        self.above.truncate(first);
    }
}
