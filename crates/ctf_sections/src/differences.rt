//! A cache of the places at which names differed from the names that were looked for.
ghost use Rattle.std.specs.Prelude.{◌≡◌, ◌<◌, IsTrue, length};

use crate::alike::{are_alike_at, last_difference};

/// The number of slots that are chosen by where names end.
const SLOTS: usize = 4096;

/// The number of most recent places that are kept besides.
const RECENT: usize = 8;

/// A small cache of places at which names differ from texts that were looked for. A name is
/// identified by where it ends, so names that are ends of one text share a place. Each end has two
/// slots, by two factors.
#[derive(Drop)]
pub struct Places {
    by_end: [u32; 4096],
    factors: [u64; 2],
    recent: [u32; 8],
    kept: usize,
}

/// What is known from earlier comparisons: where earlier names differed, the next names are
/// compared first. This is only a hint: the answer is the same, whatever is known.
#[derive(Drop)]
pub struct Differences<'a> {
    places: Option<&'a mut Places>,
}

/// The slot of an end, by a factor.
fn slot(end: usize, factor: u64) -> usize
    ensures { result < 4096 }
{
    ((end as u64).wrapping_mul(factor) >> 52) as usize % SLOTS
}

/// Whether two texts of the same length have the same eight bytes at a place that is counted from
/// their ends.
fn are_alike_from_end(text: &[u8], other: &[u8], from_end: u32) -> bool
    requires { length text.now ≡ length other.now }
    ensures { text.now ≡ other.now → IsTrue result }
{
    are_alike_at(text, other, text.len().saturating_sub(from_end as usize))
}

impl Places {
    /// No places yet.
    pub fn new() -> Places {
        Places {
            by_end: [0; 4096],
            factors: [0x9e37_79b9_7f4a_7c15, 0xc2b2_ae3d_27d4_eb4f],
            recent: [0; 8],
            kept: 0,
        }
    }

    /// Whether two texts of the same length may be equal, as far as the kept places show.
    #[inline(never)]
    fn may_be_same(&self, end: usize, text: &[u8], other: &[u8]) -> bool
        requires { length text.now ≡ length other.now }
        ensures { text.now ≡ other.now → IsTrue result }
    {
        let first = self.by_end[slot(end, self.factors[0])];
        if !are_alike_from_end(text, other, first) {
            return false;
        }
        let second = self.by_end[slot(end, self.factors[1])];
        if !are_alike_from_end(text, other, second) {
            return false;
        }
        for index in 0..RECENT {
            if !are_alike_from_end(text, other, self.recent[index]) {
                return false;
            }
        }
        true
    }

    /// Keeps a place in one of the two slots of an end. Once as many places were kept as there are
    /// slots, other factors are used, since the names may have been made for these.
    #[inline(never)]
    fn keep(&mut self, end: usize, place: u32) {
        let way = self.kept % 2;
        self.by_end[slot(end, self.factors[way])] = place;
        self.recent[self.kept / 2 % RECENT] = place;
        self.kept = self.kept.wrapping_add(1) % SLOTS;
        if self.kept == 0 {
            self.factors = [
                self.factors[0].wrapping_mul(self.factors[1]),
                self.factors[1].wrapping_mul(self.factors[1]),
            ];
        }
    }
}

impl<'a> Differences<'a> {
    /// Knows nothing, and keeps nothing.
    pub fn none() -> Differences<'a> {
        Differences { places: None }
    }

    /// Uses the places that were kept, and keeps more.
    pub fn kept_in(places: &'a mut Places) -> Differences<'a> {
        Differences {
            places: Some(places),
        }
    }

    /// Whether two texts of the same length may be equal, as far as is known.
    #[inline(always)]
    pub(crate) fn may_be_same(&self, end: usize, text: &[u8], other: &[u8]) -> bool
        requires { length text.now ≡ length other.now }
        ensures { text.now ≡ other.now → IsTrue result }
    {
        match &self.places {
            Some(places) => places.may_be_same(end, text, other),
            None => true,
        }
    }

    /// Keeps a place at which a text differs from the name that ends at `end`.
    pub(crate) fn keep(&mut self, end: usize, text: &[u8], place: usize) {
        if let Some(places) = &mut self.places {
            let from_end = text.len().saturating_sub(place);
            places.keep(end, u32::try_from(from_end).unwrap_or(0));
        }
    }

    /// Keeps where two texts of the same length differ last.
    #[inline(always)]
    pub(crate) fn keep_last(&mut self, end: usize, text: &[u8], other: &[u8])
        requires { length text.now ≡ length other.now }
    {
        if self.places.is_some() {
            self.keep(end, text, last_difference(text, other));
        }
    }
}
