//! A page of the table of sessions.
//!
//! A session among very many is found with one access to memory that is in no cache, the access to
//! its page: the tree of pages is small. A tree of all sessions needed several such accesses. The
//! numbers of sessions mostly follow one another, so most pages are full. A page of one session
//! costs 256 bytes more.
ghost use Rattle.std.specs.Prelude.{◌≡◌, ◌≢◌, ◌↔◌, ◌/◌, ◌%◌, ◌<◌, IfOk, IsTrue, None, option_map, true};
ghost use Rattle.ctf_broker.specs.Pages.{DiffersAt, IsVacant, library_in};
ghost use Rattle.ctf_broker.specs.Table.{entry_at};
ghost use Rattle.ctf_library.specs.Stepping.{Does, Makes};
ghost use Rattle.ctf_protocol.specs.sessions.Quiet.{is_quiet_change};
ghost use Rattle.ctf_protocol.specs.sessions.State.{empty_state};
ghost use Rattle.ctf_protocol.specs.sessions.Steps.{change_step, publishes_kept};

use crate::session_library::SessionLibrary;
use ctf_answers::Counts;
use ctf_library::{Library, Loaded, Pool};
use ctf_protocol::{Change, Fault, PublicationName};
use std::alloc::{AllocError, Global};
use std::marker::Model;

/// How many sessions a page is for.
const SESSIONS: u32 = 16;

/// The number of the page that a session is in.
pub fn page_of(session: u32) -> u32
    ensures { result ≡ session / 16 }
{
    session / SESSIONS
}

/// The place of a session in its page.
pub fn place_of(session: u32) -> usize
    ensures place { result ≡ session % 16 }
    ensures bound { result < 16 }
{
    (session % SESSIONS) as usize
}

/// The libraries of sixteen sessions, in memory of their own.
#[derive(Drop)]
pub struct Page {
    libraries: Box<[Option<SessionLibrary>; 16]>,
}

impl Model for Page {
    ghost use Rattle.std.specs.Prelude.{◌≡◌, List, Option, length};
    ghost use Rattle.ctf_protocol.specs.sessions.State.{State};

    ghost Value = { List (Option State) };

    ghost view = { λ p. p.libraries.value };

    ghost invariant = { λ p. length p.libraries.value ≡ 16 };
}

impl Page {
    /// A page without libraries.
    pub fn new(alloc: Global) -> Result<Page, AllocError>
        ensures { IfOk result IsVacant }
    {
        let libraries = [
            None, None, None, None, None, None, None, None, None, None, None, None, None, None,
            None, None,
        ];
        Ok(Page {
            libraries: Box::new(alloc, libraries)?,
        })
    }

    /// The library at a place, if there is one.
    pub fn library(&self, place: usize) -> Option<&Library>
        requires { place < 16 }
        ensures { option_map (λ l. l.now) result ≡ entry_at self.now place }
    {
        match &self.libraries[place] {
            Some(library) => Some(library.library()),
            None => None,
        }
    }

    /// Frees the library at a place.
    pub fn drop_library(&mut self, place: usize)
        requires { place < 16 }
        ensures own { entry_at self.new place ≡ None }
        ensures others { DiffersAt place self.old self.new }
    {
        self.libraries[place] = None;
    }

    /// Whether it has no library.
    pub fn is_empty(&self) -> bool
        ensures { IsTrue result ↔ IsVacant self.now }
    {
        for library in self.libraries.iter() {
            if library.is_some() {
                return false;
            }
        }
        true
    }

    /// Makes the step of a change in the library at a place, which is made if there is none yet.
    #[inline(always)]
    pub fn step(
        &mut self,
        alloc: Global,
        place: usize,
        change: &Change,
        found: Option<Loaded>,
        pool: &mut Pool,
    ) -> Result<Counts, Fault>
        requires { place < 16 }
        ensures own { Makes (library_in self.old place)
            (change_step (library_in self.old place) change.now found) result
            (library_in self.new place) }
        ensures others { DiffersAt place self.old self.new }
        ensures quiet { is_quiet_change change.now ≡ true → library_in self.old place ≢ empty_state
            → Does (change_step (library_in self.old place) change.now found) result
            (library_in self.new place) }
    {
        let entry = &mut self.libraries[place];
        if let Some(library) = entry {
            return library.step(change, found, pool);
        }
        let library = entry.insert(SessionLibrary::new(alloc)?);
        library.step(change, found, pool)
    }

    /// Publishes a dictionary in the library at a place, which is made if there is none yet.
    pub fn publish_loaded(
        &mut self,
        alloc: Global,
        place: usize,
        name: &PublicationName,
        loaded: Loaded,
    ) -> Result<Counts, Fault>
        requires { place < 16 }
        ensures own { Makes (library_in self.old place)
            (publishes_kept name.now loaded (library_in self.old place)) result
            (library_in self.new place) }
        ensures others { DiffersAt place self.old self.new }
    {
        let entry = &mut self.libraries[place];
        if let Some(library) = entry {
            return library.publish_loaded(name, loaded);
        }
        let library = entry.insert(SessionLibrary::new(alloc)?);
        library.publish_loaded(name, loaded)
    }
}
