//! The record at a place of a section.
ghost use Rattle.std.specs.Prelude.{◌≡◌, ◌≤◌, ◌+◌, ◌^◌, take, drop, Some};
ghost use Rattle.std.specs.Option.{option_map};
ghost use Rattle.ctf_model.specs.format.Section.{front_len as front_of};
ghost use Rattle.ctf_records.specs.RecordView.{piece, piece_at};

use crate::front::front_len;
use crate::record::Record;

/// The record of a known length at the front of `rest`, with its number and its place.
pub(crate) fn take_record<'a>(rest: &'a [u8], len: usize, index: u64, at: usize) -> Record<'a>
    requires whole { front_of rest.now ≡ Some len }
    requires near { at + len ≤ 2 ^ 63 }
    ensures { piece result ≡ record { index = index; at = at; bytes = take len rest.now } }
{
    let (bytes, _) = rest.split_at(len);
    Record { index, at, bytes }
}

/// The whole record of a known length at a place of a section, with a number. It reads no byte of
/// the record.
#[inline(always)]
pub fn record_of_len<'a>(types: &'a [u8], at: usize, len: usize, index: u64) -> Record<'a>
    requires { front_of (drop at types.now) ≡ Some len }
    ensures { Some (piece result) ≡ piece_at types.now at index }
{
    let (_, rest) = types.split_at(at);
    take_record(rest, len, index, at)
}

/// The whole record at a place of a section, if one begins there, with a number.
pub fn record_at<'a>(types: &'a [u8], at: usize, index: u64) -> Option<Record<'a>>
    ensures { option_map piece result ≡ piece_at types.now at index }
{
    if at > types.len() {
        return None;
    }
    let (_, rest) = types.split_at(at);
    let len = front_len(rest)?;
    Some(take_record(rest, len, index, at))
}
