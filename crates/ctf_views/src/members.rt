//! The members of a struct or union.
ghost use Rattle.std.specs.Prelude.{◌≡◌, ◌≤◌, length, IsSome, Some, bytes_eq, option_and_then, slice_get};
ghost use Rattle.std.specs.Option.{option_map};
ghost use Rattle.ctf_model.specs.figures.Paths.{member_named};
ghost use Rattle.ctf_model.specs.format.Record.{member_len as len_of_member};
ghost use Rattle.ctf_model.specs.format.Spelling.{member_of};
ghost use Rattle.ctf_sections.specs.StringsView.{tables};
ghost use Rattle.ctf_views.specs.ItemsView.{member};
ghost use Rattle.ctf_views.specs.Lists.{AreGood, items_in};

use crate::row::Row;
use crate::rows::{RowIter, bytes_at};
use ctf_model::TypeNum;
use ctf_records::{WIDE_MEMBERS, member_len};
use ctf_sections::bytes::{u16_at, u32_at};
use ctf_sections::{Differences, Strings};
use std::marker::Model;

/// A member: its name, its type, and where it begins in its struct or union, in bits.
#[derive(Clone, Copy, Debug, PartialEq, Eq)]
pub struct Member<'a> {
    pub name: &'a [u8],
    pub tnum: TypeNum,
    pub offset: u64,
}

/// In contracts, a member of the definitions. No value of this type is made.
pub struct SpelledMember(());

impl Model for SpelledMember {
    ghost use Rattle.std.specs.Prelude.{[]};
    ghost use Rattle.ctf_model.specs.format.Term.{Member as Spelled};

    ghost Value = { Spelled };

    ghost view = { λ _. record { name = []; tnum = 0; offset = 0 } };
}

/// How a member is stored: the reference to its name, its type, and its offset, which is wide if
/// the size of its struct or union requires that.
#[derive(Clone, Copy)]
pub struct MemberRow<'a> {
    pub(crate) size: u64,
    pub(crate) strings: Strings<'a>,
}

impl<'a> MemberRow<'a> {
    /// Whether the member at the front of some bytes has this name.
    fn is_named(&self, bytes: &[u8], name: &[u8], others: &mut Differences<'_>) -> bool
        requires inside { len_of_member self.now.size ≤ length bytes.now }
        requires good { IsSome (member_of self.now.size (tables self.now.strings) bytes.now) }
        ensures { Some result ≡ option_map (λ m. bytes_eq name.now m.name)
            (member_of self.now.size (tables self.now.strings) bytes.now) }
    {
        self.strings.is_name_after(u32_at(bytes, 0), name, others)
    }
}

impl<'a> Row for MemberRow<'a> {
    type Item = Member<'a>;

    type Shown = SpelledMember;

    ghost row_len = { λ row. len_of_member row.size };

    ghost item_of = { λ row. member_of row.size (tables row.strings) };

    ghost seen = { member };

    fn len(&self) -> usize {
        member_len(self.size)
    }

    fn first(&self, bytes: &[u8]) -> Member<'a> {
        Member {
            name: self.strings.name(u32_at(bytes, 0)).unwrap(),
            tnum: TypeNum(u16_at(bytes, 4)),
            offset: if self.size < WIDE_MEMBERS {
                u16_at(bytes, 6) as u64
            } else {
                u32_at(bytes, 8) as u64 * 0x1_0000_0000 + u32_at(bytes, 12) as u64
            },
        }
    }
}

/// The remaining members of a struct or union.
pub type Members<'a> = RowIter<'a, MemberRow<'a>>;

/// The number of the first member with a name, among `count` members in some bytes.
#[tactic(auto, using(crate::proofs::Named::named_here, crate::proofs::Named::named_later, crate::proofs::Named::named_nowhere))]
fn first_named(
    row: MemberRow<'_>,
    bytes: &[u8],
    count: usize,
    name: &[u8],
    others: &mut Differences<'_>,
) -> Option<usize>
    requires { AreGood (member_of row.size (tables row.strings)) (len_of_member row.size) count
        bytes.now }
    ensures { let members = items_in (member_of row.entry.size (tables row.entry.strings))
        (len_of_member row.entry.size) count bytes.now in
        option_and_then (slice_get members) result ≡ member_named name.now members }
{
    for index in 0..count {
        if row.is_named(bytes_at(row, bytes, count, index), name, others) {
            return Some(index);
        }
    }
    None
}

impl<'a> RowIter<'a, MemberRow<'a>> {
    /// The first member with a name; an unnamed member has the empty name. `others` is what earlier
    /// comparisons showed: however long names are and wherever they overlap, a search compares at
    /// most a few times the bytes of the tables.
    pub fn member_named(&self, name: &[u8], others: &mut Differences<'_>) -> Option<Member<'a>>
        ensures { option_map member result ≡ member_named name.now self.now }
    {
        let (row, bytes, count) = self.parts();
        self.get(first_named(row, bytes, count, name, others)?)
    }
}
