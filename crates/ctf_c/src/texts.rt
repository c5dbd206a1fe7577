//! Exports that give a text.
ghost use Rattle.std.specs.Prelude.{◌≡◌};
ghost use Rattle.ctf_c.specs.Given.{GivesText, MayGiveText, ask};
ghost use Rattle.ctf_model.specs.opened.Open.{space_in};
ghost use Rattle.ctf_model.specs.opened.Questions.{name_answered, value_answered};
ghost use Rattle.ctf_model.specs.spaces.Space.{space_type};
ghost use Rattle.ctf_space.specs.TypeView.{name_in};

use crate::handle::Handle;
use crate::out_pointers::{dictionary_of, give_text, status, write_front};
use ctf_model::TypeNum;
use std::alloc::Global;

/// The name in a type's record. As much of it is written as fits.
#[unsafe(no_mangle)]
pub extern "C" fn ctfd_declared_name(
    handle: &mut Handle,
    t: u16,
    text: &mut [u8],
    len: &mut u64,
) -> u32
    ensures same { handle.new.held.dictionary ≡ handle.old.held.dictionary }
    ensures answer { GivesText
        (ask handle.old.held.dictionary (λ s. name_in (space_type (space_in s) t))) result
        (record { text = text.old; len = len.old })
        (record { text = text.new; len = len.new }) }
{
    let dictionary = dictionary_of!(handle);
    give_text(dictionary.declared_name(TypeNum(t)), text, len)
}

/// The name of a type, as C spells it. As much of it is written as fits.
#[unsafe(no_mangle)]
pub extern "C" fn ctfd_name(
    alloc: Global,
    handle: &mut Handle,
    t: u16,
    text: &mut [u8],
    len: &mut u64,
) -> u32
    ensures same { handle.new.held.dictionary ≡ handle.old.held.dictionary }
    ensures answer { MayGiveText
        (ask handle.old.held.dictionary (λ s. name_answered (space_in s) t)) result
        (record { text = text.old; len = len.old })
        (record { text = text.new; len = len.new }) }
{
    let dictionary = dictionary_of!(handle);
    match dictionary.name(alloc, TypeNum(t)) {
        Ok(said) => {
            write_front(said.as_slice(), text);
            *len = said.len() as u64;
            0
        }
        Err(fault) => status(fault),
    }
}

/// The text of the value of a type that begins at a bit of some memory. As much of it is written as
/// fits.
#[unsafe(no_mangle)]
pub extern "C" fn ctfd_show(
    alloc: Global,
    handle: &mut Handle,
    t: u16,
    memory: &[u8],
    offset: u64,
    text: &mut [u8],
    len: &mut u64,
) -> u32
    ensures same { handle.new.held.dictionary ≡ handle.old.held.dictionary }
    ensures answer { MayGiveText (ask handle.old.held.dictionary (λ s.
        value_answered (space_in s) memory.now offset t)) result
        (record { text = text.old; len = len.old })
        (record { text = text.new; len = len.new }) }
{
    let dictionary = dictionary_of!(handle);
    match dictionary.show(alloc, TypeNum(t), memory, offset) {
        Ok(said) => {
            write_front(said.as_slice(), text);
            *len = said.len() as u64;
            0
        }
        Err(fault) => status(fault),
    }
}
