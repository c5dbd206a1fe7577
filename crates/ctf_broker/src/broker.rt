//! The libraries of all sessions.
ghost use Rattle.std.specs.Prelude.{◌≡◌, ◌≢◌, ℕ, None, true, false};
ghost use Rattle.ctf_protocol.specs.sessions.Runs.{Answered, IsGranted, Steps};
ghost use Rattle.ctf_protocol.specs.sessions.State.{empty_state};
ghost use Rattle.ctf_protocol.specs.sessions.SlotQuestions.{answer_to};
ghost use Rattle.ctf_protocol.specs.sessions.Steps.{publishes_kept};
ghost use Rattle.ctf_protocol.specs.sessions.Quiet.{is_quiet, is_quiet_change, MayAnswer};
ghost use Rattle.ctf_answers.specs.Replies.{unaddressed_reply, change_reply};
ghost use Rattle.ctf_protocol.specs.declared.requests.Request.TheVariants.{Changes};
ghost use Rattle.ctf_broker.specs.Loading.{loads_section};
ghost use Rattle.ctf_broker.specs.Table.{kept_for, library_at};
ghost use Rattle.ctf_laws.specs.Good.{AreGood, FitsChange};
ghost use Rattle.ctf_library.specs.Telling.{makes_text};

use crate::libraries::{drop_new, forget, found_by, library_of, publish_in, step_in};
use crate::page::Page;
use ctf_answers::{Answer, Counts};
use ctf_library::{DEFAULT_MODEL, Loaded, Pool};
use ctf_protocol::{Bytes, Change, Fault, Parts, PublicationName, Question, SlotNumber, placeless};
use std::alloc::Global;
use std::collections::BTreeMap;
use std::marker::Model;

/// The operator's session, which makes no requests.
const OPERATOR: u32 = 0;

/// The libraries of all sessions, each made at the session's first change, and the dictionaries
/// that were opened last.
#[derive(Drop)]
pub struct Broker {
    alloc: Global,
    libraries: BTreeMap<u32, Page>,
    pool: Pool,
}

impl Model for Broker {
    ghost use Rattle.ctf_broker.specs.Table.{Libraries};

    ghost Value = { Libraries };

    ghost view = { λ b. b.libraries.entries };
}

impl Broker {
    /// A broker whose sessions are all new.
    pub fn new(alloc: Global) -> Broker
        ensures empty { (session : ℕ) → library_at result session ≡ empty_state }
        ensures good { AreGood (library_at result) }
    {
        Broker {
            alloc,
            libraries: BTreeMap::new(alloc),
            pool: Pool::new(alloc),
        }
    }

    /// What its libraries are made with.
    pub fn allocator(&self) -> Global {
        self.alloc
    }

    /// Publishes a dictionary for the operator, under a name that is not in use.
    pub fn load(&mut self, name: &PublicationName, dictionary: Loaded) -> Result<Counts, Fault>
        ensures own { Answered (library_at self.old 0)
            (publishes_kept name.now dictionary (library_at self.old 0))
            (unaddressed_reply result) (library_at self.new 0) }
        ensures others { (other : ℕ) → other ≢ 0
            → kept_for self.new other ≡ kept_for self.old other }
        // Good libraries stay good: what was opened breaks no rule.
        ensures good { AreGood (library_at self.old) → AreGood (library_at self.new) }
    {
        dictionary.keeps_rules();
        self.publish(name, dictionary)
    }

    fn publish(&mut self, name: &PublicationName, dictionary: Loaded) -> Result<Counts, Fault>
        ensures own { Answered (library_at self.old 0)
            (publishes_kept name.now dictionary (library_at self.old 0))
            (unaddressed_reply result) (library_at self.new 0) }
        ensures others { (other : ℕ) → other ≢ 0
            → kept_for self.new other ≡ kept_for self.old other }
    {
        publish_in(self.alloc, &mut self.libraries, OPERATOR, name, dictionary)
    }

    /// Publishes a CTF section for the operator, without the symbols and strings of a program. The
    /// section is checked before its name.
    pub fn load_section(&mut self, name: &PublicationName, ctf: Vec<u8>) -> Result<Counts, Fault>
        ensures own { Answered (library_at self.old 0)
            (loads_section name.now ctf.items (library_at self.old 0))
            (unaddressed_reply result) (library_at self.new 0) }
        ensures others { (other : ℕ) → other ≢ 0
            → kept_for self.new other ≡ kept_for self.old other }
        ensures good { AreGood (library_at self.old) → AreGood (library_at self.new) }
    {
        let parts = Parts {
            ctf: Bytes::from(ctf),
            sym: None,
            strs: None,
        };
        match Loaded::build(self.alloc, parts, DEFAULT_MODEL) {
            Ok(loaded) => self.load(name, loaded),
            Err((fault, _parts)) => Err(fault),
        }
    }

    /// Forgets a session: all that it has, and all that it has published. Others keep what they
    /// took from it.
    pub fn leave(&mut self, session: u32)
        ensures own { kept_for self.new session ≡ None }
        ensures others { (other : ℕ) → other ≢ session
            → kept_for self.new other ≡ kept_for self.old other }
        ensures good { AreGood (library_at self.old) → AreGood (library_at self.new) }
    {
        forget(&mut self.libraries, session);
    }

    /// Makes the step of a change in the session's own library; a take gets what its owner has
    /// published. All other libraries stay as they are.
    ///
    /// The library is found in time logarithmic in the number of sessions.
    pub fn step(&mut self, session: u32, change: &Change) -> Result<Counts, Fault>
        requires session { session ≢ 0 }
        ensures step { Steps (library_at self.old) session (Changes change.now)
            (change_reply session result) (library_at self.new) }
        ensures others { (other : ℕ) → other ≢ session
            → kept_for self.new other ≡ kept_for self.old other }
        // Where the session holds anything, these take no memory.
        ensures quiet { is_quiet_change change.now ≡ true
            → library_at self.old session ≢ empty_state
            → IsGranted (library_at self.old) session (Changes change.now)
            (change_reply session result) (library_at self.new) }
        // Good libraries stay good, if the numbers of what is added fit their fields.
        ensures good { AreGood (library_at self.old) → FitsChange change.now
            → AreGood (library_at self.new) }
        // A session whose library equals a new one takes no memory.
        ensures spare { library_at self.new session ≡ empty_state
            → kept_for self.new session ≡ None }
    {
        let outcome = self.make(session, change);
        drop_new(&mut self.libraries, session);
        outcome
    }

    fn make(&mut self, session: u32, change: &Change) -> Result<Counts, Fault>
        requires session { session ≢ 0 }
        ensures step { Steps (library_at self.old) session (Changes change.now)
            (change_reply session result) (library_at self.new) }
        ensures others { (other : ℕ) → other ≢ session
            → kept_for self.new other ≡ kept_for self.old other }
        ensures quiet { is_quiet_change change.now ≡ true
            → library_at self.old session ≢ empty_state
            → IsGranted (library_at self.old) session (Changes change.now)
            (change_reply session result) (library_at self.new) }
    {
        let found = found_by(&self.libraries, change)?;
        step_in(
            self.alloc,
            &mut self.libraries,
            &mut self.pool,
            session,
            change,
            found,
        )
    }

    /// Answers a question of a session. Names and lists are borrowed from its own library.
    pub fn answer<'a>(
        &'a self,
        session: u32,
        d: SlotNumber,
        question: &Question,
    ) -> Result<Answer<'a>, Fault>
        ensures answer { MayAnswer (answer_to d question.now (library_at self.now session)) result }
        // These take no memory.
        ensures quiet { is_quiet question.now ≡ true
            → result ≡ answer_to d question.now (library_at self.now session) }
        // Nor does any other whose answer is no text.
        ensures lent { makes_text question.now ≡ false
            → result ≡ answer_to d question.now (library_at self.now session) }
    {
        match library_of(&self.libraries, session) {
            Some(library) => library.answer(d, question),
            None => Err(placeless(Fault::NO_SLOT)),
        }
    }
}
