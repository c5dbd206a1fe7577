//! Exports that give many members or enumerators at once, and where their names are.
ghost use Rattle.std.specs.Prelude.{◌≡◌, Some};
ghost use Rattle.ctf_c.specs.Given.{ask};
ghost use Rattle.ctf_c.specs.Rowed.{GivesRows, lists_with};
ghost use Rattle.ctf_c.specs.names.Filling.{FillsFrom, TellsEnumerator, TellsMember};
ghost use Rattle.ctf_model.specs.opened.Questions.{enumerators_answered, members_answered, on_shape, shape_of};
ghost use Rattle.ctf_model.specs.opened.Open.{space_in};
ghost use Rattle.ctf_model.specs.spaces.Space.{space_type};

use crate::handle::Handle;
use crate::names::{enumerators_into, held_type, members_into};
use crate::out_pointers::{dictionary_of, status};
use ctf_model::{Fault, TypeNum};
use ctf_open::OpenDictionary;

/// A member: `struct ctfd_member_row`. Its name begins at an offset in one of the lists, and ends
/// with a zero byte. The member's own offset is in bits.
#[repr(C)]
#[derive(Clone, Copy)]
pub struct GivenMemberRow {
    pub offset: u64,
    pub name_at: u64,
    pub name_list: u32,
    pub tnum: u16,
}

/// An enumerator: `struct ctfd_enumerator_row`.
#[repr(C)]
#[derive(Clone, Copy)]
pub struct GivenEnumeratorRow {
    pub name_at: u64,
    pub name_list: u32,
    pub value: i32,
}

/// Fills rows with the members of a type, from a number on, and returns how many it has.
fn members(
    dictionary: &OpenDictionary,
    t: TypeNum,
    from: usize,
    rows: &mut [GivenMemberRow],
) -> Result<u64, Fault>
    ensures { FillsFrom (TellsMember (lists_with (Some dictionary.now) t.0))
        (on_shape members_answered (shape_of (space_type (space_in dictionary.now) t.0)))
        from result rows.old rows.new }
{
    let found = held_type(&dictionary.space(), t)?;
    members_into(&found, from, rows)
}

/// The same for the enumerators of a type.
fn enumerators(
    dictionary: &OpenDictionary,
    t: TypeNum,
    from: usize,
    rows: &mut [GivenEnumeratorRow],
) -> Result<u64, Fault>
    ensures { FillsFrom (TellsEnumerator (lists_with (Some dictionary.now) t.0))
        (on_shape enumerators_answered (shape_of (space_type (space_in dictionary.now) t.0)))
        from result rows.old rows.new }
{
    let found = held_type(&dictionary.space(), t)?;
    enumerators_into(&found, from, rows)
}

/// The members of a struct or union from a number on, as many as there are rows, and how many it
/// has in all.
#[unsafe(no_mangle)]
pub extern "C" fn ctfd_members(
    handle: &mut Handle,
    t: u16,
    from: usize,
    rows: &mut [GivenMemberRow],
    count: &mut u64,
) -> u32
    ensures same { handle.new.held.dictionary ≡ handle.old.held.dictionary }
    ensures answer { GivesRows (TellsMember (lists_with handle.old.held.dictionary t))
        (ask handle.old.held.dictionary (λ s.
        on_shape members_answered (shape_of (space_type (space_in s) t)))) from result
        rows.old rows.new count.old count.new }
{
    let dictionary = dictionary_of!(handle);
    match members(dictionary, TypeNum(t), from, rows) {
        Ok(all) => {
            *count = all;
            0
        }
        Err(fault) => status(fault),
    }
}

/// The enumerators of an enum from a number on, as many as there are rows, and how many it has in
/// all.
#[unsafe(no_mangle)]
pub extern "C" fn ctfd_enumerators(
    handle: &mut Handle,
    t: u16,
    from: usize,
    rows: &mut [GivenEnumeratorRow],
    count: &mut u64,
) -> u32
    ensures same { handle.new.held.dictionary ≡ handle.old.held.dictionary }
    ensures answer { GivesRows (TellsEnumerator (lists_with handle.old.held.dictionary t))
        (ask handle.old.held.dictionary (λ s.
        on_shape enumerators_answered (shape_of (space_type (space_in s) t)))) from result
        rows.old rows.new count.old count.new }
{
    let dictionary = dictionary_of!(handle);
    match enumerators(dictionary, TypeNum(t), from, rows) {
        Ok(all) => {
            *count = all;
            0
        }
        Err(fault) => status(fault),
    }
}
