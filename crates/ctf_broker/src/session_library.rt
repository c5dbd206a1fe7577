//! The library of a session, in memory of its own.
ghost use Rattle.std.specs.Prelude.{◌≡◌, IfOk, true};
ghost use Rattle.ctf_library.specs.Stepping.{Does, Makes};
ghost use Rattle.ctf_protocol.specs.sessions.State.{empty_state};
ghost use Rattle.ctf_protocol.specs.sessions.Steps.{change_step, publishes_kept};
ghost use Rattle.ctf_protocol.specs.sessions.Quiet.{is_quiet_change};

use ctf_answers::Counts;
use ctf_library::{Library, Loaded, Pool};
use ctf_protocol::{Change, Fault, PublicationName};
use std::alloc::{AllocError, Global};
use std::marker::Model;

/// A library, behind a pointer: a place of a page takes 16 bytes, with a library or without.
#[derive(Drop)]
pub struct SessionLibrary {
    library: Box<Library>,
}

impl Model for SessionLibrary {
    ghost use Rattle.ctf_protocol.specs.sessions.State.{State};

    ghost Value = { State };

    ghost view = { λ h. h.library.value };
}

impl SessionLibrary {
    /// A library with nothing in it, for a session's first change.
    #[inline(always)]
    pub fn new(alloc: Global) -> Result<SessionLibrary, AllocError>
        ensures { IfOk result (λ h. h ≡ empty_state) }
    {
        Ok(SessionLibrary {
            library: Box::new(alloc, Library::new(alloc))?,
        })
    }

    /// The library.
    pub fn library(&self) -> &Library
        ensures { result.now ≡ self.now }
    {
        &self.library
    }

    /// Makes the step of a change.
    #[inline(always)]
    pub fn step(
        &mut self,
        change: &Change,
        found: Option<Loaded>,
        pool: &mut Pool,
    ) -> Result<Counts, Fault>
        ensures step { Makes self.old
            (change_step self.old change.now found) result self.new }
        ensures quiet { is_quiet_change change.now ≡ true → Does
            (change_step self.old change.now found) result self.new }
    {
        self.library.step(change, found, pool)
    }

    /// Publishes a dictionary that is in no slot.
    pub fn publish_loaded(
        &mut self,
        name: &PublicationName,
        loaded: Loaded,
    ) -> Result<Counts, Fault>
        ensures { Makes self.old (publishes_kept name.now loaded self.old) result self.new }
    {
        self.library.publish_loaded(name, loaded)
    }
}
