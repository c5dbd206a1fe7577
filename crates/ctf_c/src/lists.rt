//! Exports that give one item of a list.
ghost use Rattle.std.specs.Prelude.{◌≡◌};
ghost use Rattle.ctf_c.specs.Given.{GivesEnumerator, GivesMember, ask};
ghost use Rattle.ctf_model.specs.opened.Questions.{enumerator_answered, member_answered, on_shape, shape_of};
ghost use Rattle.ctf_model.specs.opened.Open.{space_in};
ghost use Rattle.ctf_model.specs.spaces.Space.{space_type};

use crate::handle::Handle;
use crate::out_pointers::{dictionary_of, status, write_front};
use ctf_model::TypeNum;

/// A member, apart from its name: `struct ctfd_member`. The offset is in bits.
#[repr(C)]
#[derive(Drop)]
pub struct GivenMember {
    pub offset: u64,
    pub name_len: u64,
    pub tnum: u16,
}

/// A member of a struct or union, counted from 0. As much of its name is written as fits.
#[unsafe(no_mangle)]
pub extern "C" fn ctfd_member(
    handle: &mut Handle,
    t: u16,
    index: usize,
    name: &mut [u8],
    out: &mut GivenMember,
) -> u32
    ensures same { handle.new.held.dictionary ≡ handle.old.held.dictionary }
    ensures answer { GivesMember (ask handle.old.held.dictionary (λ s.
        on_shape (member_answered index) (shape_of (space_type (space_in s) t))))
        result name.old name.new
        (record { offset = out.old.offset; name_len = out.old.name_len; tnum = out.old.tnum })
        (record { offset = out.new.offset; name_len = out.new.name_len; tnum = out.new.tnum }) }
{
    let dictionary = dictionary_of!(handle);
    match dictionary.member(TypeNum(t), index) {
        Ok(member) => {
            write_front(member.name, name);
            *out = GivenMember {
                offset: member.offset,
                name_len: member.name.len() as u64,
                tnum: member.tnum.0,
            };
            0
        }
        Err(fault) => status(fault),
    }
}

/// An enumerator of an enum, counted from 0. As much of its name is written as fits.
#[unsafe(no_mangle)]
pub extern "C" fn ctfd_enumerator(
    handle: &mut Handle,
    t: u16,
    index: usize,
    name: &mut [u8],
    value: &mut i32,
    len: &mut u64,
) -> u32
    ensures same { handle.new.held.dictionary ≡ handle.old.held.dictionary }
    ensures answer { GivesEnumerator (ask handle.old.held.dictionary (λ s.
        on_shape (enumerator_answered index) (shape_of (space_type (space_in s) t)))) result
        (record { text = name.old; len = len.old }) (record { text = name.new; len = len.new })
        value.old value.new }
{
    let dictionary = dictionary_of!(handle);
    match dictionary.enumerator(TypeNum(t), index) {
        Ok(enumerator) => {
            write_front(enumerator.name, name);
            *value = enumerator.value;
            *len = enumerator.name.len() as u64;
            0
        }
        Err(fault) => status(fault),
    }
}
