//! What a source and a sink did so far, for proofs only.
ghost use Rattle.std.specs.Prelude.{◌≡◌, [], ◌∷◌, ◌++◌};
ghost use Rattle.std.specs.Borrow.{ftrue};
ghost use Rattle.ctf_wire.specs.Flushes.{Flushes};

use std::marker::{Model, PhantomData};

/// The bytes that were pulled or pushed, in pieces that end at the flushes. It takes no memory, and
/// its methods do nothing at run time.
#[derive(Drop)]
pub struct History {
    marker: PhantomData<u8>,
    pub ghost flushes: { Flushes },
}

impl Model for History {
    ghost also_owns = { λ _. ftrue };
}

impl History {
    /// Nothing yet.
    pub fn new() -> History
        ensures { result.flushes ≡ record { pieces = []; waiting = [] } }
    {
        History {
            marker: PhantomData,
        }
    }

    /// Adds these bytes.
    pub fn note(&mut self, _bytes: &[u8])
        ensures { self.new.flushes ≡ record {
          pieces = self.old.flushes.pieces;
          waiting = self.old.flushes.waiting ++ _bytes.now;
        } }
    {}

    /// Adds a flush of what came since the last one.
    pub fn note_flush(&mut self)
        ensures { self.new.flushes ≡ record {
          pieces = self.old.flushes.pieces ++ self.old.flushes.waiting ∷ [];
          waiting = [];
        } }
    {}
}
