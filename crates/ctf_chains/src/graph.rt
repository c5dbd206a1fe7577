//! Records that lead to each other.
ghost use Rattle.std.specs.Prelude.{◌≡◌, ◌+◌, ◌<◌, ℕ, List, length, Option, MatchOption, slice_index_or};
ghost use Rattle.ctf_chains.specs.Places.{Places, places_at};

use crate::ticks::Ticks;
use std::sync::ledger::Ledger;

/// Records, numbered from 0. Each has places, and a place may lead to a record. Opening a record is
/// a tick, and so is reading a place.
pub trait Graph<L: Ledger> {
    /// An opened record.
    type Opened: Copy;

    ghost places: { Self → Places };

    ghost places_of: { Self → Self.Opened → List (Option ℕ) };

    /// How many records there are.
    fn len(&self) -> usize
        ensures { result ≡ length (places self.now) };

    /// Opens a record.
    fn open(&self, i: usize, work: &mut Ticks<L>) -> Self::Opened
        requires { i < length (places self.now) }
        ensures opened { places_of self.now result ≡ places_at (places self.now) i }
        ensures tick { work.new ≡ work.old + 1 };

    /// How many places an opened record has.
    fn place_count(&self, opened: Self::Opened) -> usize
        ensures { result ≡ length (places_of self.now opened) };

    /// The record that a place of an opened record leads to.
    fn place(&self, opened: Self::Opened, k: usize, work: &mut Ticks<L>) -> Option<usize>
        requires { k < length (places_of self.now opened) }
        ensures leads { result ≡ slice_index_or (places_of self.now opened) k None }
        ensures inside { MatchOption result Unit (λ j. j < length (places self.now)) }
        ensures tick { work.new ≡ work.old + 1 };
}
