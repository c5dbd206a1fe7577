//! The members of a struct or union, read from their rows without reading their names.
ghost use Rattle.std.specs.Prelude.{◌≡◌, ◌<◌, ◌≤◌, length, slice_get, IfSome};
ghost use Rattle.ctf_model.specs.format.Record.{member_len as len_of_member};
ghost use Rattle.ctf_model.specs.format.Spelling.{member_of};
ghost use Rattle.ctf_sections.specs.StringsView.{tables};
ghost use Rattle.ctf_views.specs.Lists.{AreGood, items_in};
ghost use Rattle.ctf_c.specs.names.MemberPlaces.{IsMember, bits_in};

use crate::names::named_rows::row_at;
use ctf_model::TypeNum;
use ctf_records::{WIDE_MEMBERS, member_len};
use ctf_sections::Strings;
use ctf_sections::bytes::{u16_at, u32_at};

/// A member: the reference to its name, its type, and its offset in bits.
#[derive(Clone, Copy)]
pub struct MemberRow {
    pub reference: u32,
    pub tnum: TypeNum,
    pub offset: u64,
}

/// The members of a struct or union, whose size in bytes is known.
#[derive(Clone, Copy)]
pub struct MemberRows<'a> {
    bytes: &'a [u8],
    size: u64,
    count: usize,
    strings: Strings<'a>,
    ghost good: { AreGood (member_of size (tables strings)) (len_of_member size) count bytes.now },
}

/// The offset in bits of the member at the front of some bytes.
fn bits_at(size: u64, bytes: &[u8]) -> u64
    requires { len_of_member size ≤ length bytes.now }
    ensures { result ≡ bits_in size bytes.now }
{
    if size < WIDE_MEMBERS {
        u64::from(u16_at(bytes, 6))
    } else {
        u64::from(u32_at(bytes, 8)) * 0x1_0000_0000 + u64::from(u32_at(bytes, 12))
    }
}

impl<'a> MemberRows<'a> {
    ghost use Rattle.ctf_c.specs.names.MembersView.{members_at, tables_behind};

    pub fn new(bytes: &'a [u8], size: u64, count: usize, strings: Strings<'a>) -> MemberRows<'a>
        requires { AreGood (member_of size (tables strings)) (len_of_member size) count bytes.now }
        ensures members { items_in (member_of size (tables strings.entry)) (len_of_member size)
            count bytes.now ≡ members_at result }
        ensures tables { tables_behind result ≡ tables strings.entry }
    {
        MemberRows {
            bytes,
            size,
            count,
            strings,
        }
    }

    pub fn len(&self) -> usize
        ensures { result ≡ length (members_at self.now) }
    {
        self.count
    }

    /// The member with a number, from 0.
    pub fn get(&self, index: usize) -> MemberRow
        requires { index < length (members_at self.now) }
        ensures { IfSome (slice_get (members_at self.now) index)
            (λ m. IsMember (tables_behind self.now) m result) }
    {
        let bytes = row_at(self.bytes, member_len(self.size), index);
        MemberRow {
            reference: u32_at(bytes, 0),
            tnum: TypeNum(u16_at(bytes, 4)),
            offset: bits_at(self.size, bytes),
        }
    }
}
