//! Exports that make, update and drop drafts, and give the bytes of dictionaries.
ghost use Rattle.std.specs.Prelude.{◌≡◌, ◌==◌, ◌⊎◌, [], None, Some, Ok, Err, IfOk, IfErr, drop, is_some, length, not, option_copied};
ghost use Rattle.ctf_c.specs.Drafting.{Creates, Does, StepsAt, created_under};
ghost use Rattle.ctf_model.specs.opened.Steps.{created, discard_step, step_update};
ghost use Rattle.ctf_c.specs.Given.{GivesBytes, ask, model_if};
ghost use Rattle.ctf_model.specs.rules.Refusals.{out_of_memory};

use crate::handle::Handle;
use crate::handles::{OptionBox, to_box};
use crate::out_pointers::{NOT_OPEN, dictionary_of, model_of, status, write_front};
use ctf_model::{DataModel, Fault, placeless};
use ctf_open::{Loaded, OpenDictionary};
use std::alloc::Global;

/// A new draft on the heap.
fn new_draft(
    alloc: Global,
    parent: Option<&Loaded>,
    parname: &[u8],
    parlabel: &[u8],
    model: DataModel,
) -> Result<Box<OpenDictionary>, Fault>
    requires { is_some parent ≡ not (length parname.now == 0) }
    ensures ok { IfOk result (λ s.
        created (option_copied parent.entry) parname.now parlabel.now model ≡ Ok s.value) }
    ensures exact_err { IfErr result (λ f. (f ≡ out_of_memory)
        ⊎ (created (option_copied parent.entry) parname.now parlabel.now model ≡ Err f)) }
{
    let draft = OpenDictionary::create(alloc, parent, parname, parlabel, model)?;
    Ok(to_box(alloc, draft)?)
}

/// Makes a draft without a parent, in place of what was open. If it is refused, what was open
/// stays, and `place` is 0 or the place of the fault.
#[unsafe(no_mangle)]
pub extern "C" fn ctfd_create(
    alloc: Global,
    handle: &mut Handle,
    ilp32: bool,
    place: &mut u64,
) -> u32
    ensures { Creates (created None [] [] (model_if ilp32)) result place.old place.new
        handle.old.held.dictionary handle.new.held.dictionary }
{
    match new_draft(alloc, None, &[], &[], model_of(ilp32)) {
        Ok(dictionary) => {
            handle.option_box().hold(dictionary);
            0
        }
        Err(fault) => {
            *place = fault.place;
            status(fault)
        }
    }
}

/// A new draft on the heap, over the open dictionary.
fn drafted_under(
    alloc: Global,
    parent: &OpenDictionary,
    parname: &[u8],
    parlabel: &[u8],
) -> Result<Box<OpenDictionary>, Fault>
    ensures ok { IfOk result (λ s.
        created_under (Some parent.now) parname.now parlabel.now ≡ Ok s.value) }
    ensures exact_err { IfErr result (λ f. (f ≡ out_of_memory)
        ⊎ (created_under (Some parent.now) parname.now parlabel.now ≡ Err f)) }
{
    if parname.is_empty() {
        return Err(placeless(Fault::BAD_REQUEST));
    }
    new_draft(alloc, Some(parent.own()), parname, parlabel, parent.model())
}

/// Makes a draft over the dictionary that is open in another handle, with that one's data model, in
/// place of what was open. The parent has to have a name.
#[unsafe(no_mangle)]
pub extern "C" fn ctfd_create_child(
    alloc: Global,
    handle: &mut Handle,
    parent: &mut Handle,
    parname: &[u8],
    parlabel: &[u8],
    place: &mut u64,
) -> u32
    ensures parent { parent.new.held.dictionary ≡ parent.old.held.dictionary }
    ensures answer { Creates
        (created_under parent.old.held.dictionary parname.now parlabel.now) result
        place.old place.new handle.old.held.dictionary handle.new.held.dictionary }
{
    let Some(source) = parent.option_box().get() else {
        *place = 0;
        return NOT_OPEN;
    };
    match drafted_under(alloc, source, parname, parlabel) {
        Ok(dictionary) => {
            handle.option_box().hold(dictionary);
            0
        }
        Err(fault) => {
            *place = fault.place;
            status(fault)
        }
    }
}

/// Updates the open draft.
fn update(
    alloc: Global,
    dictionary: &mut OptionBox<OpenDictionary>,
    types: &mut u64,
    place: &mut u64,
) -> u32
    ensures { StepsAt (ask dictionary.old.held.value step_update) result types.old types.new
        place.old place.new dictionary.old.held.value dictionary.new.held.value }
{
    let Some(dictionary) = dictionary.get_mut() else {
        *place = 0;
        return NOT_OPEN;
    };
    match dictionary.update(alloc) {
        Ok(count) => {
            *types = count;
            0
        }
        Err(fault) => {
            *place = fault.place;
            status(fault)
        }
    }
}

/// Makes all additions part of the dictionary, and gives the number of its types. If it is refused,
/// `place` is the place of the fault, and nothing changes.
#[unsafe(no_mangle)]
pub extern "C" fn ctfd_update(
    alloc: Global,
    handle: &mut Handle,
    types: &mut u64,
    place: &mut u64,
) -> u32
    ensures { StepsAt (ask handle.old.held.dictionary step_update) result types.old types.new
        place.old place.new handle.old.held.dictionary handle.new.held.dictionary }
{
    update(alloc, handle.option_box(), types, place)
}

/// Drops what is pending in the open draft.
fn discard(dictionary: &mut OptionBox<OpenDictionary>, types: &mut u64) -> u32
    ensures { Does (ask dictionary.old.held.value discard_step) result types.old types.new
        dictionary.old.held.value dictionary.new.held.value }
{
    let Some(dictionary) = dictionary.get_mut() else {
        return NOT_OPEN;
    };
    match dictionary.discard() {
        Ok(count) => {
            *types = count;
            0
        }
        Err(fault) => status(fault),
    }
}

/// Drops the additions since the last update, and gives the number of the dictionary's types.
#[unsafe(no_mangle)]
pub extern "C" fn ctfd_discard(handle: &mut Handle, types: &mut u64) -> u32
    ensures { Does (ask handle.old.held.dictionary discard_step) result types.old types.new
        handle.old.held.dictionary handle.new.held.dictionary }
{
    discard(handle.option_box(), types)
}

/// The bytes from a place on.
fn behind(bytes: &[u8], from: u64) -> &[u8]
    ensures { result.now ≡ drop from bytes.now }
{
    bytes.get(from as usize..).unwrap_or(&[])
}

/// The bytes of the dictionary from a place on, as many as fit, and how many it has in all.
#[unsafe(no_mangle)]
pub extern "C" fn ctfd_bytes(handle: &mut Handle, from: u64, bytes: &mut [u8], len: &mut u64) -> u32
    ensures same { handle.new.held.dictionary ≡ handle.old.held.dictionary }
    ensures answer { GivesBytes (ask handle.old.held.dictionary (λ s. Ok s.own.lists.ctf)) from
        result (record { text = bytes.old; len = len.old })
        (record { text = bytes.new; len = len.new }) }
{
    let dictionary = dictionary_of!(handle);
    let ctf = dictionary.ctf();
    write_front(behind(ctf, from), bytes);
    *len = ctf.len() as u64;
    0
}
