//! The head of the record at the front of some bytes, and where that record ends.
ghost use Rattle.std.specs.Prelude.{◌≡◌, ◌≤◌, length, slice_get};
ghost use Rattle.ctf_model.specs.format.Record.{kinds, kind, size, vlen, head_len, variant_len};
ghost use Rattle.ctf_model.specs.format.Section.{front_len as front_of};

use crate::reference_list::member_len;
use ctf_model::Kind;
use ctf_sections::bytes::{u16_at, u32_at};

fn kind_numbered(number: u16) -> Option<Kind>
    ensures { result ≡ slice_get kinds number }
{
    match number {
        0 => Some(Kind::KUnknown),
        1 => Some(Kind::KInteger),
        2 => Some(Kind::KFloat),
        3 => Some(Kind::KPointer),
        4 => Some(Kind::KArray),
        5 => Some(Kind::KFunction),
        6 => Some(Kind::KStruct),
        7 => Some(Kind::KUnion),
        8 => Some(Kind::KEnum),
        9 => Some(Kind::KForward),
        10 => Some(Kind::KTypedef),
        11 => Some(Kind::KVolatile),
        12 => Some(Kind::KConst),
        13 => Some(Kind::KRestrict),
        _ => None,
    }
}

/// The kind of the record at the front of some bytes, if it is known.
pub(crate) fn kind_of(bytes: &[u8]) -> Option<Kind>
    requires { 8 ≤ length bytes.now }
    ensures { result ≡ kind bytes.now }
{
    kind_numbered(u16_at(bytes, 4) >> 11)
}

pub(crate) fn size_of(bytes: &[u8]) -> u64
    requires { head_len bytes.now ≤ length bytes.now }
    ensures { result ≡ size bytes.now }
{
    let field = u16_at(bytes, 6);
    if field == 0xffff {
        u32_at(bytes, 8) as u64 * 0x1_0000_0000 + u32_at(bytes, 12) as u64
    } else {
        field as u64
    }
}

/// The number in the vlen field, whether or not the kind has a list.
pub(crate) fn vlen_of(bytes: &[u8]) -> usize
    requires { 8 ≤ length bytes.now }
    ensures number { result ≡ vlen bytes.now }
    ensures short { result ≤ 1023 }
{
    (u16_at(bytes, 4) & 1023) as usize
}

pub(crate) fn head_len_of(bytes: &[u8]) -> usize
    requires { 8 ≤ length bytes.now }
    ensures { result ≡ head_len bytes.now }
{
    if u16_at(bytes, 6) == 0xffff { 16 } else { 8 }
}

fn variant_len_of(kind: Kind, size: u64, vlen: usize) -> usize
    requires { vlen ≤ 1023 }
    ensures length { result ≡ variant_len kind size vlen }
    ensures short { result ≤ 16368 }
{
    match kind {
        Kind::KInteger | Kind::KFloat => 4,
        Kind::KArray => 8,
        Kind::KFunction => 2 * (vlen + vlen % 2),
        Kind::KStruct | Kind::KUnion => member_len(size) * vlen,
        Kind::KEnum => 8 * vlen,
        _ => 0,
    }
}

/// The length of the whole record at the front of some bytes, if there is one.
#[tactic(auto, unfolding(ctf_model::specs::format::Section::front_len))]
pub(crate) fn front_len(bytes: &[u8]) -> Option<usize>
    ensures { result ≡ front_of bytes.now }
{
    if bytes.len() < 8 {
        return None;
    }
    let kind = kind_of(bytes)?;
    let head = head_len_of(bytes);
    if bytes.len() < head {
        return None;
    }
    let len = head + variant_len_of(kind, size_of(bytes), vlen_of(bytes));
    if len > bytes.len() { None } else { Some(len) }
}
