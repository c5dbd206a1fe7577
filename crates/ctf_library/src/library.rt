//! The library of one session.
ghost use Rattle.std.specs.Prelude.{◌≡◌, ◌↔◌, IsTrue, ◌⊎◌, ◌+◌, ◌≤◌, None, Some, Ok, Err, IfOk, IfErr, OnOk, true, false, is_some, option_map, option_and_then, option_copied};
ghost use Rattle.ctf_protocol.specs.sessions.Charges.{charge, slot_bytes};
ghost use Rattle.ctf_protocol.specs.sessions.Publications.{published_as};
ghost use Rattle.ctf_protocol.specs.sessions.State.{empty_state};
ghost use Rattle.ctf_library.specs.SlotView.{slot_of};
ghost use Rattle.ctf_model.specs.rules.Refusals.{out_of_memory, placeless as refusal};
ghost use Rattle.ctf_model.specs.declared.faults.TheConstants.Fault.{NO_SLOT};
ghost use Rattle.ctf_protocol.specs.declared.requests.DraftStep.TheVariants.{Discard};
ghost use Rattle.ctf_protocol.specs.sessions.Outcomes.{outcome_of, quota};
ghost use Rattle.ctf_protocol.specs.sessions.SlotQuestions.{answer_to};
ghost use Rattle.ctf_protocol.specs.sessions.Slots.{has_room as room_in, slot_at};
ghost use Rattle.ctf_protocol.specs.sessions.Steps.{adds_draft, change_step, checks, clears, closes, creates, imports, opens, parts, publishes, publishes_kept, resets, steps_draft, takes, withdraws};
ghost use Rattle.ctf_protocol.specs.sessions.Quiet.{is_quiet, is_quiet_change, MayAnswer};
ghost use Rattle.ctf_laws.specs.Good.{FitsChange, IsFaultless, IsGood};
ghost use Rattle.ctf_library.specs.Stepping.{Does, Makes};
ghost use Rattle.std.specs.Option.{ForSome};
ghost use Rattle.ctf_library.specs.Telling.{makes_text};

use crate::charges::fits;
use crate::pool::Pool;
use crate::publications::Publications;
use crate::slot_list::SlotList;
use crate::slots::Slot;
use crate::stage::Stage;
use ctf_answers::{Answer, Counts};
use ctf_open::Loaded;
use ctf_protocol::{
    Change, Creation, DataModel, DraftStep, Fault, ListName, PublicationName, Question, SlotNumber,
    placeless,
};
use std::alloc::Global;
use std::marker::Model;

/// How many slots may be in use.
const MOST_SLOTS: usize = 1023;

/// What one session has: its slots, the number of the next one, the staged lists, and what it
/// published. The sum of the slots' bytes is stored too.
#[derive(Drop)]
pub struct Library {
    slots: SlotList,
    slot_bytes: u128,
    alloc: Global,
    next: u64,
    stage: Stage,
    published: Publications,
}

impl Model for Library {
    ghost use Rattle.std.specs.Prelude.{◌≡◌, ◌≤◌, ◌^◌, None, map, true};
    ghost use Rattle.ctf_library.specs.Charged.{IsCounted};
    ghost use Rattle.ctf_library.specs.SlotOrder.{rise_between};
    ghost use Rattle.ctf_protocol.specs.sessions.State.{State};
    ghost use Rattle.ctf_library.specs.SlotView.{slot_of};

    ghost Value = { State };

    ghost view = { λ l. record {
      slots = map slot_of l.slots.items;
      next = l.next;
      stage = l.stage;
      published = l.published;
    } };

    ghost invariant = { λ l. (l.next ≤ 2 ^ 32)
        × (rise_between 0 l.slots.items l.next ≡ true)
        × IsCounted l.slots.items l.published l.stage l.slot_bytes };
}

impl Library {
    /// A library with nothing in it.
    pub fn new(alloc: Global) -> Library
        ensures { result ≡ empty_state }
    {
        Library {
            slots: SlotList::new(alloc),
            slot_bytes: 0,
            alloc,
            next: 1,
            stage: Stage::new(),
            published: Publications::new(),
        }
    }

    /// Whether it equals a new library.
    pub fn is_new(&self) -> bool
        ensures { IsTrue result ↔ (self.now ≡ empty_state) }
    {
        if !self.slots.is_empty() {
            return false;
        }
        if self.next != 1 {
            return false;
        }
        if !self.stage.is_empty() {
            return false;
        }
        self.published.is_empty()
    }

    /// What it has published under a name.
    pub fn publication(&self, name: &[u8]) -> Option<&Loaded>
        ensures { option_map (λ l. l.now) result ≡ published_as name.now self.now.published }
    {
        self.published.find(name)
    }

    /// Makes the step of a change, with what was found for a take, whatever the pool holds. Running
    /// out of memory changes nothing.
    #[inline(always)]
    pub fn step(
        &mut self,
        change: &Change,
        found: Option<Loaded>,
        pool: &mut Pool,
    ) -> Result<Counts, Fault>
        ensures step { Makes self.old
            (change_step self.old change.now found) result self.new }
        // These take no memory.
        ensures quiet { is_quiet_change change.now ≡ true → Does
            (change_step self.old change.now found) result self.new }
        // A good library stays good, if the numbers of what is added fit their fields.
        ensures good { IsGood self.old → FitsChange change.now → ForSome found IsFaultless
            → IsGood self.new }
    {
        let outcome = self.make(change, found, pool);
        self.give_back_room();
        outcome
    }

    /// Frees the room for slots if no slot is in use, as after a refused `open`.
    fn give_back_room(&mut self)
        ensures { self.new ≡ self.old }
    {
        self.slots.give_back_room(self.alloc);
    }

    #[tactic(auto, unfolding(ctf_protocol::specs::sessions::Steps::change_step))]
    fn make(
        &mut self,
        change: &Change,
        found: Option<Loaded>,
        pool: &mut Pool,
    ) -> Result<Counts, Fault>
        ensures step { Makes self.old
            (change_step self.old change.now found) result self.new }
        ensures quiet { is_quiet_change change.now ≡ true → Does
            (change_step self.old change.now found) result self.new }
    {
        match change {
            Change::Part { section, bytes } => self.part(*section, bytes.as_slice()),
            Change::Check => self.check(),
            Change::Open { model } => self.open(*model, pool),
            Change::Clear => self.clear(),
            Change::Reset => self.reset(),
            Change::Close { d } => self.close(d.get()),
            Change::Import { d, parent } => self.import(d.get(), parent.get()),
            Change::Publish { d, name } => self.publish(d.get(), name),
            Change::Withdraw { name } => self.withdraw(name),
            Change::Take { .. } => self.take(found),
            Change::Create(creation) => self.create(creation, pool),
            Change::Draft { d, step } => self.step_draft(d.get(), step),
        }
    }

    /// The bytes of all that it has.
    #[tactic(auto, unfolding(ctf_protocol::specs::sessions::Charges::charge))]
    fn charge(&self) -> u128
        ensures { result ≡ charge self.now }
    {
        self.stage.bytes() + (self.slot_bytes + self.published.bytes())
    }

    fn part(&mut self, list: ListName, piece: &[u8]) -> Result<Counts, Fault>
        ensures { Makes self.old (parts list piece.now self.old) result self.new }
    {
        let has_room = fits(self.charge(), piece.len() as u128);
        let length = self.stage.add(self.alloc, list, piece, has_room)?;
        Ok(Counts::one("length", length))
    }

    fn check(&mut self) -> Result<Counts, Fault>
        ensures { Makes self.old (checks self.old) result self.new }
    {
        self.stage.check(self.alloc)?;
        Ok(Counts::of_success())
    }

    /// Whether there may be one more slot, and a number for it.
    fn has_room(&self) -> bool
        ensures { result ≡ room_in self.now }
    {
        self.slots.len() < MOST_SLOTS && self.next <= u64::from(u32::MAX)
    }

    fn open(&mut self, model: DataModel, pool: &mut Pool) -> Result<Counts, Fault>
        ensures { Makes self.old (opens model self.old) result self.new }
    {
        if !self.has_room() {
            return Err(placeless(Fault::SLOTS_FULL));
        }
        if let Some(fault) = self.stage.known_fault() {
            return Err(fault);
        }
        self.slots.reserve()?;
        let loaded = self.stage.open(self.alloc, model, pool)?;
        let number = self.next as u32;
        let count = loaded.view().count() as u64;
        self.slot_bytes += loaded.bytes();
        self.slots.push(Slot::of(number, loaded));
        self.next += 1;
        Ok(Counts::two("d", u64::from(number), "types", count))
    }

    fn clear(&mut self) -> Result<Counts, Fault>
        ensures { Does (clears self.old) result self.new }
    {
        self.stage = Stage::new();
        Ok(Counts::of_success())
    }

    fn reset(&mut self) -> Result<Counts, Fault>
        ensures { Does (resets self.old) result self.new }
    {
        self.slots.clear();
        self.slot_bytes = 0;
        self.next = 1;
        self.clear()
    }

    fn close(&mut self, d: u32) -> Result<Counts, Fault>
        ensures { Does (closes d self.old) result self.new }
    {
        let Some(closed) = self.slots.remove(d) else {
            return Err(placeless(Fault::NO_SLOT));
        };
        self.slot_bytes -= closed.bytes();
        Ok(Counts::of_success())
    }

    fn import(&mut self, d: u32, parent: u32) -> Result<Counts, Fault>
        ensures { Makes self.old (imports d parent self.old) result self.new }
    {
        let Some(child) = self.slots.find(d) else {
            return Err(placeless(Fault::NO_SLOT));
        };
        let Some(source) = self.slots.find(parent) else {
            return Err(placeless(Fault::NO_SLOT));
        };
        if child.dictionary.is_drafted() {
            return Err(placeless(Fault::FIXED_PARENT));
        }
        let parent = source.dictionary.own();
        let old = child.parent_bytes();
        let new = parent.bytes();
        let has_room = fits(self.charge() - old, new);
        let imported = child.dictionary.over(self.alloc, parent, has_room)?;
        self.slots.set_parent(d, imported);
        self.slot_bytes = self.slot_bytes - old + new;
        Ok(Counts::of_success())
    }

    fn publish(&mut self, d: u32, name: &PublicationName) -> Result<Counts, Fault>
        ensures { Makes self.old (publishes d name.now self.old) result self.new }
    {
        let Some(slot) = self.slots.find(d) else {
            return Err(placeless(Fault::NO_SLOT));
        };
        if slot.dictionary.pending() > 0 {
            return Err(placeless(Fault::NOT_UPDATED));
        }
        if !fits(self.charge(), slot.dictionary.own().bytes()) {
            if self.publication(name.as_slice()).is_some() {
                return Err(placeless(Fault::NAME_TAKEN));
            }
            return Err(placeless(Fault::QUOTA_FULL));
        }
        let loaded = slot.dictionary.own().share()?;
        self.publish_loaded(name, loaded)
    }

    /// Publishes a dictionary that is in no slot, under a name that is not in use, whatever its
    /// bytes. If the bytes can't be counted in 128 bits, memory is refused.
    pub fn publish_loaded(
        &mut self,
        name: &PublicationName,
        loaded: Loaded,
    ) -> Result<Counts, Fault>
        ensures { Makes self.old (publishes_kept name.now loaded self.old) result self.new }
    {
        if loaded.bytes() > u128::MAX - self.charge() {
            return Err(placeless(Fault::MEMORY));
        }
        if !self.published.add(self.alloc, name, loaded)? {
            return Err(placeless(Fault::NAME_TAKEN));
        }
        Ok(Counts::of_success())
    }

    fn withdraw(&mut self, name: &PublicationName) -> Result<Counts, Fault>
        ensures { Does (withdraws name.now self.old) result self.new }
    {
        if !self.published.remove(name.as_slice()) {
            return Err(placeless(Fault::NOT_PUBLISHED));
        }
        Ok(Counts::of_success())
    }

    fn take(&mut self, found: Option<Loaded>) -> Result<Counts, Fault>
        ensures { Makes self.old (takes found self.old)
            result self.new }
    {
        if !self.has_room() {
            return Err(placeless(Fault::SLOTS_FULL));
        }
        let Some(loaded) = found else {
            return Err(placeless(Fault::NOT_PUBLISHED));
        };
        let bytes = loaded.bytes();
        if !fits(self.charge(), bytes) {
            return Err(placeless(Fault::QUOTA_FULL));
        }
        self.slots.reserve()?;
        let number = self.next as u32;
        let types = loaded.view().count() as u64;
        self.slot_bytes += bytes;
        self.slots.push(Slot::of(number, loaded));
        self.next += 1;
        Ok(Counts::two("d", u64::from(number), "types", types))
    }

    /// The dictionary of a slot, if a slot is named.
    fn parent_at(&self, d: Option<SlotNumber>) -> Result<Option<&Loaded>, Fault>
        ensures ok { IfOk result (λ parent. option_copied parent
            ≡ option_and_then (λ d. option_map (λ s. s.kept) (slot_at d self.now.slots)) d) }
        ensures there { IfOk result (λ parent. is_some parent ≡ is_some d) }
        ensures err { IfErr result (λ f. (f ≡ refusal NO_SLOT)
            × (option_and_then (λ d. slot_at d self.now.slots) d ≡ None) × (is_some d ≡ true)) }
    {
        let Some(d) = d else {
            return Ok(None);
        };
        match self.slots.find(d.get()) {
            Some(slot) => Ok(Some(slot.dictionary.own())),
            None => Err(placeless(Fault::NO_SLOT)),
        }
    }

    fn create(&mut self, creation: &Creation, pool: &mut Pool) -> Result<Counts, Fault>
        ensures { Makes self.old (creates creation.now self.old) result self.new }
    {
        self.slots.reserve()?;
        let slot = self.new_slot(creation, pool)?;
        let number = slot.number;
        self.slot_bytes += slot.bytes();
        self.slots.push(slot);
        self.next += 1;
        Ok(Counts::one("d", u64::from(number)))
    }

    /// The slot of a new draft, with the next number.
    fn new_slot(&self, creation: &Creation, pool: &mut Pool) -> Result<Slot, Fault>
        ensures ok { IfOk result (λ slot. (creates creation.now self.now
            ≡ adds_draft (slot_of slot) self.now) × (slot.number ≡ self.now.next)) }
        ensures free { OnOk result (room_in self.now ≡ true) }
        ensures room { IfOk result (λ slot. charge self.now + slot_bytes (slot_of slot) ≤ quota) }
        ensures exact_err { IfErr result (λ f. (f ≡ out_of_memory)
            ⊎ (creates creation.now self.now ≡ outcome_of (Err f) self.now)) }
    {
        let parent = self.parent_at(creation.parent())?;
        if !self.has_room() {
            return Err(placeless(Fault::SLOTS_FULL));
        }
        Slot::create(pool, self.next as u32, parent, creation, self.charge())
    }

    fn step_draft(&mut self, d: u32, step: &DraftStep) -> Result<Counts, Fault>
        ensures step { Makes self.old (steps_draft d step.now self.old) result self.new }
        ensures quiet { step.now ≡ Discard
            → Does (steps_draft d step.now self.old) result self.new }
    {
        let others = self.charge() - self.slot_bytes;
        self.slots
            .step_draft(self.alloc, &mut self.slot_bytes, others, d, step)
    }

    /// Answers a question to a slot. Names and lists are borrowed from its dictionary, or its
    /// parent.
    pub fn answer<'a>(&'a self, d: SlotNumber, question: &Question) -> Result<Answer<'a>, Fault>
        ensures answer { MayAnswer (answer_to d question.now self.now) result }
        // These take no memory.
        ensures quiet { is_quiet question.now ≡ true → result ≡ answer_to d question.now self.now }
        // Nor does any other whose answer is no text.
        ensures lent { makes_text question.now ≡ false
            → result ≡ answer_to d question.now self.now }
    {
        let Some(slot) = self.slots.find(d.get()) else {
            return Err(placeless(Fault::NO_SLOT));
        };
        slot.answer(self.alloc, question)
    }
}
