//! A count of work that nothing but a tick changes.
ghost use Rattle.std.specs.Prelude.{◌≡◌, ◌+◌, ◌<◌};
ghost use Rattle.ctf_chains.specs.Places.{cap};

use std::marker::Model;
use std::sync::ledger::{Blank, Book, Ledger, Share};

/// The number of ticks in a ledger. Code that has one can neither set it back nor make a second one
/// for the same ledger.
#[derive(Drop)]
pub struct Ticks<L: Ledger> {
    count: u64,
    book: Book<L>,
    share: Share<L>,
}

impl<L: Ledger> Model for Ticks<L> {
    ghost use Rattle.std.specs.Prelude.{ℕ, ◌≡◌, ◌<◌};
    ghost use Rattle.ctf_chains.specs.Places.{cap};

    ghost Value = { ℕ };

    ghost view = { λ t. t.book.total };

    ghost invariant = { λ t. (0 < t.share.parts) × (t.count ≡ cap t.book.total) };
}

impl<L: Ledger> Ticks<L> {
    /// No ticks yet, in a new ledger.
    pub fn new(blank: Blank) -> Ticks<L>
        requires name { blank.name ≡ L.name }
        requires parts { blank.parts ≡ L.parts }
        requires some { 0 < blank.parts }
        ensures { result ≡ 0 }
    {
        let (book, share) = blank.open::<L>();
        Ticks {
            count: 0,
            book,
            share,
        }
    }

    #[inline(always)]
    pub fn tick(&mut self)
        ensures { self.new ≡ self.old + 1 }
    {
        self.book.add(&mut self.share, 1);
        self.count = self.count.saturating_add(1);
    }

    /// The number of ticks, at most 2^64 - 1.
    pub fn count(&self) -> u64
        ensures { result ≡ cap self.now }
    {
        self.count
    }
}
