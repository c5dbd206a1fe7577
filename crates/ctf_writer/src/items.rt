//! Appends the items of a type's list, for which there is room.
ghost use Rattle.std.specs.Prelude.{◌≡◌, ◌+◌, ◌≤◌, ◌<◌, ◌++◌, length, map, vec_len, vec_capacity};
ghost use Rattle.std.specs.List.{flat_map, All};
ghost use Rattle.ctf_draft.specs.TypeView.{enumerator_of, member_of, number_of};
ghost use Rattle.ctf_model.specs.drafts.Fitting.{FitsMember};
ghost use Rattle.ctf_model.specs.writing.WritingLaws.{IsKept};
ghost use Rattle.ctf_model.specs.writing.WrittenRecords.{argument_bytes, member_bytes};
ghost use Rattle.ctf_writer.specs.DraftContentView.{written_argument, written_enumerator, written_member};
ghost use Rattle.ctf_writer.specs.Tables.{names, used};

use crate::numbers::{put_halves, put_u16, put_u32};
use crate::strings::Strings;
use ctf_draft::{Enumerator, Member};
use ctf_model::TypeNum;

/// From this size on, in bytes, a struct or union has its members in the wide form.
pub(crate) const FIRST_WIDE: u64 = 8192;

fn put_narrow_member(out: &mut Vec<u8>, strings: &Strings<'_>, size: u64, member: &Member)
    requires room { vec_len out.old + 8 ≤ vec_capacity out.old }
    requires narrow { size < 8192 }
    requires fits { FitsMember size (member_of member.now) }
    requires kept { IsKept (used strings.now) member.now.name }
    ensures items { out.new.items
        ≡ out.old.items ++ member_bytes (names strings.now) size (member_of member.now) }
    ensures len { vec_len out.new ≡ vec_len out.old + 8 }
    ensures capacity { vec_capacity out.new ≡ vec_capacity out.old }
{
    put_u32(out, strings.reference(member.name.as_slice()));
    put_u16(out, member.tnum.0);
    put_u16(out, member.offset as u16);
}

fn put_wide_member(out: &mut Vec<u8>, strings: &Strings<'_>, size: u64, member: &Member)
    requires room { vec_len out.old + 16 ≤ vec_capacity out.old }
    requires wide { 8192 ≤ size }
    requires kept { IsKept (used strings.now) member.now.name }
    ensures items { out.new.items
        ≡ out.old.items ++ member_bytes (names strings.now) size (member_of member.now) }
    ensures len { vec_len out.new ≡ vec_len out.old + 16 }
    ensures capacity { vec_capacity out.new ≡ vec_capacity out.old }
{
    put_u32(out, strings.reference(member.name.as_slice()));
    put_u16(out, member.tnum.0);
    put_u16(out, 0);
    put_halves(out, member.offset);
}

fn put_member(out: &mut Vec<u8>, strings: &Strings<'_>, size: u64, member: &Member)
    requires room { vec_len out.old + length (written_member (names strings.now) size member.now)
        ≤ vec_capacity out.old }
    requires fits { FitsMember size (member_of member.now) }
    requires kept { IsKept (used strings.now) member.now.name }
    ensures items { out.new.items
        ≡ out.old.items ++ written_member (names strings.now) size member.now }
    ensures len { vec_len out.new
        ≡ vec_len out.old + length (written_member (names strings.now) size member.now) }
    ensures capacity { vec_capacity out.new ≡ vec_capacity out.old }
{
    if size < FIRST_WIDE {
        put_narrow_member(out, strings, size, member);
        return;
    }
    put_wide_member(out, strings, size, member);
}

/// Appends the members of a struct or union of a size.
pub(crate) fn put_members(out: &mut Vec<u8>, strings: &Strings<'_>, size: u64, members: &[Member])
    requires room { vec_len out.old
        + length (flat_map (written_member (names strings.now) size) members.now)
        ≤ vec_capacity out.old }
    requires fits { All (λ m. FitsMember size (member_of m)) members.now }
    requires kept { All (λ m. IsKept (used strings.now) m.name) members.now }
    ensures items { out.new.items
        ≡ out.old.items ++ flat_map (written_member (names strings.now) size) members.now }
    ensures len { vec_len out.new ≡ vec_len out.old
        + length (flat_map (written_member (names strings.now) size) members.now) }
    ensures capacity { vec_capacity out.new ≡ vec_capacity out.old }
{
    for member in members {
        put_member(out, strings, size, member);
    }
}

fn put_enumerator(out: &mut Vec<u8>, strings: &Strings<'_>, enumerator: &Enumerator)
    requires room { vec_len out.old + 8 ≤ vec_capacity out.old }
    requires kept { IsKept (used strings.now) enumerator.now.name }
    ensures items { out.new.items
        ≡ out.old.items ++ written_enumerator (names strings.now) enumerator.now }
    ensures len { vec_len out.new ≡ vec_len out.old + 8 }
    ensures capacity { vec_capacity out.new ≡ vec_capacity out.old }
{
    put_u32(out, strings.reference(enumerator.name.as_slice()));
    put_u32(out, enumerator.value.cast_unsigned());
}

/// Appends the enumerators of an enum.
pub(crate) fn put_enumerators(out: &mut Vec<u8>, strings: &Strings<'_>, enumerators: &[Enumerator])
    requires room { vec_len out.old
        + length (flat_map (written_enumerator (names strings.now)) enumerators.now)
        ≤ vec_capacity out.old }
    requires kept { All (λ e. IsKept (used strings.now) e.name) enumerators.now }
    ensures items { out.new.items
        ≡ out.old.items ++ flat_map (written_enumerator (names strings.now)) enumerators.now }
    ensures len { vec_len out.new ≡ vec_len out.old
        + length (flat_map (written_enumerator (names strings.now)) enumerators.now) }
    ensures capacity { vec_capacity out.new ≡ vec_capacity out.old }
{
    for enumerator in enumerators {
        put_enumerator(out, strings, enumerator);
    }
}

fn put_types(out: &mut Vec<u8>, types: &[TypeNum])
    requires room { vec_len out.old + length (flat_map written_argument types.now)
        ≤ vec_capacity out.old }
    ensures items { out.new.items ≡ out.old.items ++ flat_map written_argument types.now }
    ensures len { vec_len out.new ≡ vec_len out.old + length (flat_map written_argument types.now) }
    ensures capacity { vec_capacity out.new ≡ vec_capacity out.old }
{
    for tnum in types {
        put_u16(out, tnum.0);
    }
}

/// Appends arguments, and a pad if their number is odd.
pub(crate) fn put_arguments(out: &mut Vec<u8>, arguments: &[TypeNum])
    requires room { vec_len out.old + length (argument_bytes (map number_of arguments.now))
        ≤ vec_capacity out.old }
    ensures items { out.new.items
        ≡ out.old.items ++ argument_bytes (map number_of arguments.now) }
    ensures len { vec_len out.new
        ≡ vec_len out.old + length (argument_bytes (map number_of arguments.now)) }
    ensures capacity { vec_capacity out.new ≡ vec_capacity out.old }
{
    put_types(out, arguments);
    if arguments.len() % 2 > 0 {
        put_u16(out, 0);
    }
}
