//! Drafts in slots: how they are made, updated and dropped.
ghost use Rattle.std.specs.Prelude.{◌≡◌, ◌==◌, ◌⊎◌, ◌+◌, ◌≤◌, not, length, is_some, IfErr, IfOk, Ok, option_copied};
ghost use Rattle.ctf_library.specs.Quotas.{IsUncreated, step_beside, within};
ghost use Rattle.ctf_library.specs.Drafting.{IsStepped};
ghost use Rattle.ctf_library.specs.SlotView.{slot_of};
ghost use Rattle.ctf_answers.specs.Replies.{change_answer};
ghost use Rattle.ctf_model.specs.rules.Refusals.{out_of_memory};
ghost use Rattle.ctf_model.specs.spaces.Kept.{model_over as parents_model};
ghost use Rattle.ctf_protocol.specs.sessions.Charges.{slot_bytes};
ghost use Rattle.ctf_protocol.specs.sessions.DraftSteps.{created_slot, model_made, slot_step};
ghost use Rattle.ctf_protocol.specs.sessions.Outcomes.{quota};
ghost use Rattle.ctf_protocol.specs.declared.requests.DraftStep.TheVariants.{Update as Updates, Discard};

use crate::charges::QUOTA;
use crate::pool::Pool;
use crate::slots::Slot;
use ctf_answers::Counts;
use ctf_open::{DEFAULT_MODEL, Loaded, Room};
use ctf_protocol::{Creation, DataModel, DraftStep, Fault};
use std::alloc::Global;

/// The data model of a dictionary over a parent: the parent's, if there is one.
fn model_over(parent: Option<&Loaded>) -> DataModel
    ensures { result ≡ parents_model (option_copied parent.entry) }
{
    match parent {
        Some(parent) => parent.model(),
        None => DEFAULT_MODEL,
    }
}

/// The data model of a new draft: the stated one, or else the parent's.
fn model_of(parent: Option<&Loaded>, creation: &Creation) -> DataModel
    ensures { result ≡ model_made (option_copied parent.entry) creation.now }
{
    match creation.model() {
        Some(model) => model,
        None => model_over(parent),
    }
}

impl Slot {
    /// Makes a step of its draft, if it has one. The result has to fit into the quota, with the
    /// bytes of all else. Running out of memory changes nothing.
    pub(crate) fn step(
        &mut self,
        alloc: Global,
        step: &DraftStep,
        others: u128,
    ) -> Result<Counts, Fault>
        ensures step { IsStepped (step_beside others step.now (slot_of self.old)) result
            (slot_of self.old) (slot_of self.new) }
        ensures number { self.new.number ≡ self.old.number }
        ensures room { (slot_bytes (slot_of self.new) ≡ slot_bytes (slot_of self.old))
            ⊎ (others + slot_bytes (slot_of self.new) ≤ quota) }
        // This takes no memory.
        ensures quiet { step.now ≡ Discard
            → change_answer result ≡ (slot_step step.now (slot_of self.old)).said }
    {
        match step {
            DraftStep::Add(addition) => self.add(alloc, addition),
            DraftStep::Update => self.update(alloc, others),
            DraftStep::Discard => self.discard(),
        }
    }

    fn update(&mut self, alloc: Global, others: u128) -> Result<Counts, Fault>
        ensures step { IsStepped (within others (slot_step Updates (slot_of self.old))
            (slot_of self.old)) result (slot_of self.old) (slot_of self.new) }
        ensures number { self.new.number ≡ self.old.number }
        ensures room { (slot_bytes (slot_of self.new) ≡ slot_bytes (slot_of self.old))
            ⊎ (others + slot_bytes (slot_of self.new) ≤ quota) }
    {
        let room = Room {
            others,
            most: QUOTA,
        };
        let types = self.dictionary.update_within(alloc, Some(room))?;
        Ok(Counts::one("types", types))
    }

    fn discard(&mut self) -> Result<Counts, Fault>
        ensures said { change_answer result ≡ (slot_step Discard (slot_of self.old)).said }
        ensures slot { slot_of self.new ≡ (slot_step Discard (slot_of self.old)).slot }
        ensures number { self.new.number ≡ self.old.number }
        ensures same { slot_bytes (slot_of self.new) ≡ slot_bytes (slot_of self.old) }
    {
        let types = self.dictionary.discard()?;
        Ok(Counts::one("types", types))
    }

    /// A slot with a new draft, over a parent if there is one, updated with nothing in it. It has
    /// to fit into the quota, with the bytes of all else.
    pub(crate) fn create(
        pool: &mut Pool,
        number: u32,
        parent: Option<&Loaded>,
        creation: &Creation,
        others: u128,
    ) -> Result<Slot, Fault>
        requires { is_some parent ≡ not (length creation.now.parname == 0) }
        ensures ok { IfOk result (λ slot. (created_slot number (option_copied parent.entry)
            creation.now ≡ Ok (slot_of slot)) × (slot.number ≡ number)) }
        ensures room { IfOk result (λ slot. others + slot_bytes (slot_of slot) ≤ quota) }
        ensures exact_err { IfErr result (λ f. (f ≡ out_of_memory)
            ⊎ IsUncreated (created_slot number (option_copied parent.entry) creation.now)
            others f) }
    {
        let model = model_of(parent, creation);
        let room = Some(Room {
            others,
            most: QUOTA,
        });
        let parname = creation.parname();
        let parlabel = creation.parlabel();
        let draft = pool.create(parent, parname, parlabel, model, room)?;
        Ok(Slot {
            number,
            dictionary: draft,
        })
    }
}
