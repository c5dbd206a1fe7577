//! The list of a session's slots.
ghost use Rattle.std.specs.Prelude.{◌≡◌, ◌≢◌, ◌==◌, ◌<◌, ◌+◌, ◌^◌, ◌++◌, ◌∷◌, [], ℕ, Err, None, Some, true, length, map, option_map, option_copied, IfSome, IfNone, OnOk};
ghost use Rattle.std.specs.Option.{option_to_list};
ghost use Rattle.std.specs.List.Sorted.{IsNonDecreasingBy};
ghost use Rattle.ctf_library.specs.Charged.{bytes_in};
ghost use Rattle.ctf_library.specs.Drafting.{HaveStepped};
ghost use Rattle.ctf_library.specs.SlotOrder.{rise_between};
ghost use Rattle.ctf_library.specs.SlotView.{slot_of};
ghost use Rattle.ctf_model.specs.opened.Sizes.{kept_bytes, parent_bytes};
ghost use Rattle.ctf_model.specs.rules.Refusals.{out_of_memory};
ghost use Rattle.ctf_model.specs.spaces.Kept.{fault_over};
ghost use Rattle.ctf_open.specs.Fitting.{AreTablesOf};
ghost use Rattle.ctf_protocol.specs.declared.requests.DraftStep.TheVariants.{Discard};
ghost use Rattle.ctf_protocol.specs.sessions.Charges.{slot_bytes};
ghost use Rattle.ctf_protocol.specs.sessions.Slots.{slot_at, slots_with_parent, slots_without};

use crate::places::{find_slot, push_slot, remove_slot, set_parent, step_draft, step_slot};
use crate::slots::Slot;
use ctf_answers::Counts;
use ctf_open::Imported;
use ctf_protocol::{DraftStep, Fault, placeless};
use std::alloc::{AllocError, Global};
use std::marker::Model;
use std::mem;

/// The slots of a session, by rising numbers. The first lies in the list itself, since most
/// sessions have one alone: a question to it, among very many sessions, then waits for memory once
/// less.
#[derive(Drop)]
pub struct SlotList {
    first: Option<Slot>,
    others: Vec<Slot>,
}

impl Model for SlotList {
    ghost use Rattle.std.specs.Prelude.{◌≡◌, ◌++◌, ◌+◌, [], IfNone, vec_capacity};
    ghost use Rattle.std.specs.Option.{option_to_list};
    ghost use Rattle.ctf_library.specs.SlotItems.{SlotItems};

    ghost Value = { SlotItems };

    ghost view = { λ s. record {
      items = option_to_list s.first ++ s.others.items;
      capacity = vec_capacity s.others + 1;
    } };

    ghost invariant = { λ s. IfNone s.first (s.others.items ≡ []) };
}

/// Removes the first slot, if there is one.
fn pop_front(slots: &mut Vec<Slot>) -> Option<Slot>
    ensures slots { slots.old.items ≡ option_to_list result ++ slots.new.items }
    ensures none { IfNone result (slots.new.items ≡ []) }
{
    if slots.is_empty() {
        return None;
    }
    Some(slots.remove(0))
}

impl SlotList {
    /// A list without slots.
    pub fn new(alloc: Global) -> SlotList
        ensures { result.items ≡ [] }
    {
        SlotList {
            first: None,
            others: Vec::new(alloc),
        }
    }

    /// Whether there is no slot.
    pub fn is_empty(&self) -> bool
        ensures { result ≡ (length self.now.items == 0) }
    {
        self.first.is_none()
    }

    /// How many slots there are.
    pub fn len(&self) -> usize
        ensures { result ≡ length self.now.items }
    {
        match &self.first {
            Some(_) => self.others.len() + 1,
            None => 0,
        }
    }

    /// Removes all slots.
    pub fn clear(&mut self)
        ensures { self.new.items ≡ [] }
    {
        self.first = None;
        self.others.clear();
    }

    /// Makes room for one more slot.
    pub fn reserve(&mut self) -> Result<(), AllocError>
        ensures items { self.new.items ≡ self.old.items }
        ensures ok { OnOk result (length self.new.items < self.new.capacity) }
    {
        if self.first.is_none() {
            return Ok(());
        }
        self.others.reserve_exact(1)
    }

    /// Frees the room for slots if there is none.
    pub fn give_back_room(&mut self, alloc: Global)
        ensures { self.new.items ≡ self.old.items }
    {
        if self.first.is_none() {
            self.others = Vec::new(alloc);
        }
    }

    /// The slot with a number.
    #[inline(always)]
    pub fn find(&self, number: u32) -> Option<&Slot>
        requires { IsNonDecreasingBy (λ s. s.number) self.now.items }
        ensures { option_map slot_of (option_copied result)
            ≡ slot_at number (map slot_of self.now.items) }
    {
        let Some(first) = &self.first else {
            return None;
        };
        if first.number == number {
            return Some(first);
        }
        find_slot(&self.others, number)
    }

    /// Adds a slot at the end, for which room was made.
    pub fn push(&mut self, slot: Slot)
        requires room { length self.old.items < self.old.capacity }
        ensures slots { map slot_of self.new.items
            ≡ map slot_of self.old.items ++ slot_of slot ∷ [] }
        ensures bytes { bytes_in self.new.items
            ≡ bytes_in self.old.items + slot_bytes (slot_of slot) }
        ensures rise { rise_between 0 self.old.items slot.number ≡ true
            → rise_between 0 self.new.items (slot.number + 1) ≡ true }
    {
        if self.first.is_none() {
            self.first = Some(slot);
            return;
        }
        push_slot(&mut self.others, slot);
    }

    /// Removes the slot with a number.
    pub fn remove(&mut self, number: u32) -> Option<Slot>
        requires { IsNonDecreasingBy (λ s. s.number) self.old.items }
        ensures slot { option_map slot_of result ≡ slot_at number (map slot_of self.old.items) }
        ensures slots { map slot_of self.new.items
            ≡ slots_without number (map slot_of self.old.items) }
        ensures bytes { IfSome result (λ slot. bytes_in self.new.items + slot_bytes (slot_of slot)
            ≡ bytes_in self.old.items) }
        ensures none { IfNone result (self.new.items ≡ self.old.items) }
        ensures rise { (next : ℕ) → rise_between 0 self.old.items next ≡ true
            → rise_between 0 self.new.items next ≡ true }
    {
        let Some(first) = &self.first else {
            return None;
        };
        if first.number != number {
            return remove_slot(&mut self.others, number);
        }
        let next = pop_front(&mut self.others);
        mem::replace(&mut self.first, next)
    }

    /// Gives the slot with a number a parent that was checked, with its tables over this parent.
    pub fn set_parent(&mut self, number: u32, imported: Imported)
        requires order { IsNonDecreasingBy (λ s. s.number) self.old.items }
        requires fits { IfSome (slot_at number (map slot_of self.old.items))
            (λ slot. fault_over slot.kept imported.parent ≡ None) }
        requires undrafted { IfSome (slot_at number (map slot_of self.old.items))
            (λ slot. slot.draft ≡ None) }
        requires made { IfSome (slot_at number (map slot_of self.old.items))
            (λ slot. AreTablesOf slot.kept (Some imported.parent) imported.tables.value) }
        ensures slots { map slot_of self.new.items
            ≡ slots_with_parent number imported.parent (map slot_of self.old.items) }
        ensures bytes { IfSome (slot_at number (map slot_of self.old.items))
            (λ slot. bytes_in self.new.items + parent_bytes slot.parent
            ≡ bytes_in self.old.items + kept_bytes imported.parent) }
        ensures rise { (next : ℕ) → rise_between 0 self.old.items next ≡ true
            → rise_between 0 self.new.items next ≡ true }
    {
        let Some(first) = &mut self.first else {
            return;
        };
        if first.number == number {
            first.adopt(imported);
        } else {
            set_parent(&mut self.others, number, imported);
        }
    }

    /// Makes a step of the draft in the slot with a number, and updates the sum of the slots'
    /// bytes; `others` are the bytes of all else. Running out of memory changes nothing.
    pub fn step_draft(
        &mut self,
        alloc: Global,
        bytes: &mut u128,
        others: u128,
        number: u32,
        step: &DraftStep,
    ) -> Result<Counts, Fault>
        requires order { IsNonDecreasingBy (λ s. s.number) self.old.items }
        requires counted { bytes.old ≡ bytes_in self.old.items }
        requires small { others + bytes.old < 2 ^ 128 }
        ensures slots { HaveStepped others step.now number result (map slot_of self.old.items)
            (map slot_of self.new.items) }
        ensures counted { bytes.new ≡ bytes_in self.new.items }
        ensures small { others + bytes.new < 2 ^ 128 }
        ensures rise { (next : ℕ) → rise_between 0 self.old.items next ≡ true
            → rise_between 0 self.new.items next ≡ true }
        // This takes no memory.
        ensures quiet { step.now ≡ Discard → result ≢ Err out_of_memory }
    {
        let Some(first) = &mut self.first else {
            return Err(placeless(Fault::NO_SLOT));
        };
        if first.number == number {
            return step_slot(alloc, first, bytes, others, step);
        }
        let before = first.bytes();
        let mut after = *bytes - before;
        let stepped = step_draft(
            alloc,
            &mut self.others,
            &mut after,
            others + before,
            number,
            step,
        );
        *bytes = before + after;
        stepped
    }
}
