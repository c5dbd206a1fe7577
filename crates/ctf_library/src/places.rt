//! Lists of slots by rising numbers: how they are searched and changed.
ghost use Rattle.std.specs.Prelude.{◌≡◌, ◌≢◌, Err, ◌<◌, ◌≤◌, ◌+◌, ◌-◌, ◌^◌, ◌++◌, ◌∷◌, [], ℕ, true, map, option_map, option_copied, IfNone, IfSome, None, Some, vec_len, vec_capacity};
ghost use Rattle.ctf_library.specs.Charged.{bytes_in};
ghost use Rattle.ctf_library.specs.Drafting.{HaveStepped, IsStepped};
ghost use Rattle.ctf_library.specs.Quotas.{step_beside};
ghost use Rattle.ctf_protocol.specs.sessions.Charges.{slot_bytes};
ghost use Rattle.ctf_model.specs.opened.Sizes.{kept_bytes, parent_bytes};
ghost use Rattle.ctf_model.specs.rules.Refusals.{out_of_memory};
ghost use Rattle.ctf_protocol.specs.declared.requests.DraftStep.TheVariants.{Discard};
ghost use Rattle.ctf_model.specs.spaces.Kept.{fault_over};
ghost use Rattle.ctf_protocol.specs.sessions.Slots.{slot_at, slots_with_parent, slots_without};
ghost use Rattle.std.specs.List.Sorted.{IsNonDecreasingBy};
ghost use Rattle.ctf_library.specs.SlotOrder.{rise_between};
ghost use Rattle.ctf_library.specs.SlotPlaces.{place_of};
ghost use Rattle.ctf_open.specs.Fitting.{AreTablesOf};
ghost use Rattle.ctf_library.specs.SlotView.{slot_of};

use crate::slots::Slot;
use ctf_answers::Counts;
use ctf_open::Imported;
use ctf_protocol::{DraftStep, Fault, placeless};
use std::alloc::Global;

/// The index of the slot with a number, by a binary search.
fn find_place(slots: &[Slot], number: u32) -> Option<usize>
    requires { IsNonDecreasingBy (λ s. s.number) slots.now }
    ensures { result ≡ place_of number (map slot_of slots.now) }
{
    let place = slots.partition_point(|slot| slot.number < number);
    if place == slots.len() {
        return None;
    }
    if slots[place].number != number {
        return None;
    }
    Some(place)
}

/// The slot with a number.
pub fn find_slot(slots: &[Slot], number: u32) -> Option<&Slot>
    requires { IsNonDecreasingBy (λ s. s.number) slots.now }
    ensures { option_map slot_of (option_copied result) ≡ slot_at number (map slot_of slots.now) }
{
    match find_place(slots, number) {
        Some(place) => Some(&slots[place]),
        None => None,
    }
}

/// Adds a slot at the end, for which room was made.
pub fn push_slot(slots: &mut Vec<Slot>, slot: Slot)
    requires room { vec_len slots.old < vec_capacity slots.old }
    ensures slots { map slot_of slots.new.items ≡ map slot_of slots.old.items ++ slot_of slot ∷ [] }
    ensures bytes { bytes_in slots.new.items
        ≡ bytes_in slots.old.items + slot_bytes (slot_of slot) }
    ensures items { slots.new.items ≡ slots.old.items ++ slot ∷ [] }
{
    slots.push_reserved(slot);
}

/// Removes the slot with a number.
pub fn remove_slot(slots: &mut Vec<Slot>, number: u32) -> Option<Slot>
    requires { IsNonDecreasingBy (λ s. s.number) slots.old.items }
    ensures slot { option_map slot_of result ≡ slot_at number (map slot_of slots.old.items) }
    ensures slots { map slot_of slots.new.items
        ≡ slots_without number (map slot_of slots.old.items) }
    ensures bytes { IfSome result (λ slot. bytes_in slots.new.items + slot_bytes (slot_of slot)
        ≡ bytes_in slots.old.items) }
    ensures none { IfNone result (slots.new.items ≡ slots.old.items) }
    ensures rise { (least next : ℕ) → rise_between least slots.old.items next ≡ true
        → rise_between least slots.new.items next ≡ true }
{
    match find_place(slots, number) {
        Some(place) => Some(slots.remove(place)),
        None => None,
    }
}

/// Gives the slot with a number a parent that was checked, with its tables over this parent.
pub fn set_parent(slots: &mut Vec<Slot>, number: u32, imported: Imported)
    requires order { IsNonDecreasingBy (λ s. s.number) slots.old.items }
    requires fits { IfSome (slot_at number (map slot_of slots.old.items))
        (λ slot. fault_over slot.kept imported.parent ≡ None) }
    requires undrafted { IfSome (slot_at number (map slot_of slots.old.items))
        (λ slot. slot.draft ≡ None) }
    requires made { IfSome (slot_at number (map slot_of slots.old.items))
        (λ slot. AreTablesOf slot.kept (Some imported.parent) imported.tables.value) }
    ensures slots { map slot_of slots.new.items
        ≡ slots_with_parent number imported.parent (map slot_of slots.old.items) }
    ensures bytes { IfSome (slot_at number (map slot_of slots.old.items))
        (λ slot. bytes_in slots.new.items + parent_bytes slot.parent
        ≡ bytes_in slots.old.items + kept_bytes imported.parent) }
    ensures rise { (least next : ℕ) → rise_between least slots.old.items next ≡ true
        → rise_between least slots.new.items next ≡ true }
{
    if let Some(place) = find_place(slots, number) {
        let slot = &mut slots[place];
        slot.adopt(imported);
    }
}

/// Makes a step of the draft in a slot, and updates the sum of the slots' bytes; `others` are the
/// bytes of all but slots. Running out of memory changes nothing.
#[inline(always)]
pub fn step_slot(
    alloc: Global,
    slot: &mut Slot,
    bytes: &mut u128,
    others: u128,
    step: &DraftStep,
) -> Result<Counts, Fault>
    requires part { slot_bytes (slot_of slot.old) ≤ bytes.old }
    requires small { others + bytes.old < 2 ^ 128 }
    ensures step { IsStepped
        (step_beside (others + (bytes.old - slot_bytes (slot_of slot.old))) step.now
        (slot_of slot.old)) result (slot_of slot.old) (slot_of slot.new) }
    ensures number { slot.new.number ≡ slot.old.number }
    ensures counted { bytes.new + slot_bytes (slot_of slot.old)
        ≡ bytes.old + slot_bytes (slot_of slot.new) }
    ensures small { others + bytes.new < 2 ^ 128 }
    // This takes no memory.
    ensures quiet { step.now ≡ Discard → result ≢ Err out_of_memory }
{
    let other_slots = *bytes - slot.bytes();
    let stepped = slot.step(alloc, step, others + other_slots);
    *bytes = other_slots + slot.bytes();
    stepped
}

/// Makes a step of the draft in the slot with a number, and updates the sum of the slots' bytes;
/// `others` are the bytes of all else. Running out of memory changes nothing.
pub fn step_draft(
    alloc: Global,
    slots: &mut Vec<Slot>,
    bytes: &mut u128,
    others: u128,
    number: u32,
    step: &DraftStep,
) -> Result<Counts, Fault>
    requires order { IsNonDecreasingBy (λ s. s.number) slots.old.items }
    requires counted { bytes.old ≡ bytes_in slots.old.items }
    requires small { others + bytes.old < 2 ^ 128 }
    ensures slots { HaveStepped others step.now number result (map slot_of slots.old.items)
        (map slot_of slots.new.items) }
    ensures counted { bytes.new ≡ bytes_in slots.new.items }
    ensures small { others + bytes.new < 2 ^ 128 }
    ensures rise { (least next : ℕ) → rise_between least slots.old.items next ≡ true
        → rise_between least slots.new.items next ≡ true }
    // This takes no memory.
    ensures quiet { step.now ≡ Discard → result ≢ Err out_of_memory }
{
    let Some(place) = find_place(slots, number) else {
        return Err(placeless(Fault::NO_SLOT));
    };
    step_slot(alloc, &mut slots[place], bytes, others, step)
}
