//! Exports that open, close and import.
ghost use Rattle.std.specs.Prelude.{◌≡◌, None, IfOk, IfErr, OnOk, option_copied};
ghost use Rattle.ctf_c.specs.Given.{Imports, IsLate, Opens, list_if as list_there, model_if, open_alone};
ghost use Rattle.ctf_check.specs.ListsView.{given};
ghost use Rattle.ctf_model.specs.opened.Steps.{Refuses};
ghost use Rattle.ctf_model.specs.rules.Faults.{first_fault};

use crate::handle::Handle;
use crate::handles::{OptionBox, to_box};
use crate::out_pointers::{NOT_OPEN, list_if, model_of, status};
use ctf_model::{DataModel, Fault};
use ctf_open::OpenDictionary;
use std::alloc::Global;

/// A dictionary on the heap, over copies of lists.
fn open_copies(
    alloc: Global,
    ctf: &[u8],
    sym: Option<&[u8]>,
    strs: Option<&[u8]>,
    model: DataModel,
) -> Result<Box<OpenDictionary>, Fault>
    ensures ok { IfOk result (λ s. s.value
        ≡ open_alone (given ctf.now (option_copied sym.entry) (option_copied strs.entry)) model) }
    ensures exact_ok { OnOk result (first_fault
        (given ctf.now (option_copied sym.entry) (option_copied strs.entry)) ≡ None) }
    ensures exact_err { IfErr result (λ f. Refuses (first_fault
        (given ctf.now (option_copied sym.entry) (option_copied strs.entry))) f) }
    ensures late { IfErr result (λ f. IsLate
        (given ctf.now (option_copied sym.entry) (option_copied strs.entry)) f) }
{
    let dictionary = OpenDictionary::open(alloc, ctf, sym, strs, model)?;
    Ok(to_box(alloc, dictionary)?)
}

/// A dictionary on the heap, over lists that it borrows.
fn opened_lent(
    alloc: Global,
    ctf: &'static [u8],
    sym: Option<&'static [u8]>,
    strs: Option<&'static [u8]>,
    model: DataModel,
) -> Result<Box<OpenDictionary>, Fault>
    ensures ok { IfOk result (λ s. s.value
        ≡ open_alone (given ctf.now (option_copied sym.entry) (option_copied strs.entry)) model) }
    ensures exact_ok { OnOk result (first_fault
        (given ctf.now (option_copied sym.entry) (option_copied strs.entry)) ≡ None) }
    ensures exact_err { IfErr result (λ f. Refuses (first_fault
        (given ctf.now (option_copied sym.entry) (option_copied strs.entry))) f) }
    ensures late { IfErr result (λ f. IsLate
        (given ctf.now (option_copied sym.entry) (option_copied strs.entry)) f) }
{
    let dictionary = OpenDictionary::open_lent(alloc, ctf, sym, strs, model)?;
    Ok(to_box(alloc, dictionary)?)
}

/// Opens a dictionary from copies of its lists, in place of what was open. If it is refused,
/// `place` is the place of the fault, and what was open stays.
#[unsafe(no_mangle)]
pub extern "C" fn ctfd_open(
    alloc: Global,
    handle: &mut Handle,
    ctf: &[u8],
    sym: &[u8],
    strs: &[u8],
    has_sym: bool,
    has_strs: bool,
    ilp32: bool,
    place: &mut u64,
) -> u32
    ensures { Opens (record {
      lists = record {
        ctf = ctf.now;
        sym = list_there has_sym sym.now;
        strs = list_there has_strs strs.now;
      };
      model = model_if ilp32;
    }) result place.old place.new handle.old.held.dictionary handle.new.held.dictionary }
{
    let model = model_of(ilp32);
    match open_copies(
        alloc,
        ctf,
        list_if(has_sym, sym),
        list_if(has_strs, strs),
        model,
    ) {
        Ok(dictionary) => {
            handle.option_box().hold(dictionary);
            0
        }
        Err(fault) => {
            *place = fault.place;
            status(fault)
        }
    }
}

/// Opens a dictionary over lists that it borrows, in place of what was open: no list is copied. If
/// it is refused, `place` is the place of the fault, and what was open stays.
///
/// By its type, the function borrows the lists for ever. The caller may free them once no handle
/// has the dictionary open, or has it as its parent: only such handles use the lists.
#[unsafe(no_mangle)]
pub extern "C" fn ctfd_open_lent(
    alloc: Global,
    handle: &mut Handle,
    ctf: &'static [u8],
    sym: &'static [u8],
    strs: &'static [u8],
    has_sym: bool,
    has_strs: bool,
    ilp32: bool,
    place: &mut u64,
) -> u32
    ensures { Opens (record {
      lists = record {
        ctf = ctf.now;
        sym = list_there has_sym sym.now;
        strs = list_there has_strs strs.now;
      };
      model = model_if ilp32;
    }) result place.old place.new handle.old.held.dictionary handle.new.held.dictionary }
{
    let sym = list_if(has_sym, sym);
    let strs = list_if(has_strs, strs);
    match opened_lent(alloc, ctf, sym, strs, model_of(ilp32)) {
        Ok(dictionary) => {
            handle.option_box().hold(dictionary);
            0
        }
        Err(fault) => {
            *place = fault.place;
            status(fault)
        }
    }
}

/// Closes what is open.
#[unsafe(no_mangle)]
pub extern "C" fn ctfd_close(alloc: Global, handle: &mut Handle)
    ensures { handle.new.held.dictionary ≡ None }
{
    drop(handle.option_box().take(alloc));
}

/// Imports the dictionary that is open in another box.
fn import(
    alloc: Global,
    dictionary: &mut OptionBox<OpenDictionary>,
    parent: &OptionBox<OpenDictionary>,
    place: &mut u64,
) -> u32
    ensures { Imports dictionary.old.held.value parent.now.held.value result place.old place.new
        dictionary.new.held.value }
{
    let Some(child) = dictionary.get_mut() else {
        return NOT_OPEN;
    };
    let Some(source) = parent.get() else {
        return NOT_OPEN;
    };
    match child.import(alloc, source) {
        Ok(()) => 0,
        Err(fault) => {
            *place = fault.place;
            status(fault)
        }
    }
}

/// Imports the dictionary that is open in another handle as the parent. Both handles share it. A
/// refusal changes nothing.
#[unsafe(no_mangle)]
pub extern "C" fn ctfd_import(
    alloc: Global,
    handle: &mut Handle,
    parent: &mut Handle,
    place: &mut u64,
) -> u32
    ensures parent { parent.new.held.dictionary ≡ parent.old.held.dictionary }
    ensures answer { Imports handle.old.held.dictionary parent.old.held.dictionary result
        place.old place.new handle.new.held.dictionary }
{
    import(alloc, handle.option_box(), parent.option_box(), place)
}
