//! Compares a text with the name at an offset of a table.
ghost use Rattle.std.specs.Prelude.{◌≡◌, ◌<◌, ◌↔◌, IsTrue, Some, length, slice_get};
ghost use Rattle.std.specs.Str.{bytes_eq};
ghost use Rattle.ctf_model.specs.format.Name.{text as text_in, text_at};
ghost use Rattle.ctf_sections.specs.ShortNames.{is_named};

use crate::alike::are_alike_at;
use crate::differences::Differences;
use memchr::memrchr;

/// Whether there is a zero byte at a place.
#[inline(always)]
fn is_end(bytes: &[u8], at: usize) -> bool
    ensures inside { IsTrue result → at < length bytes.now }
    ensures zero { IsTrue result ↔ (slice_get bytes.now at ≡ Some 0) }
{
    match bytes.get(at) {
        Some(byte) => *byte == 0,
        None => false,
    }
}

/// Whether the first eight and the last eight of as many bytes as a text has are those of the text,
/// and a zero byte follows.
#[inline(always)]
fn has_ends(bytes: &[u8], text: &[u8]) -> bool
    ensures end { IsTrue result → (slice_get bytes.now (length text.now) ≡ Some 0) }
    ensures inside { IsTrue result → length text.now < length bytes.now }
    ensures named { IsTrue (is_named text.now (text_in bytes.now)) → IsTrue result }
{
    if !is_end(bytes, text.len()) {
        return false;
    }
    let front = &bytes[..text.len()];
    if !are_alike_at(text, front, text.len()) {
        return false;
    }
    are_alike_at(text, front, 0)
}

/// Whether the bytes before the first zero byte are this text. It looks at the byte after them, at
/// both ends, and then for a zero byte, last byte first: of overlapping names, it searches at most
/// one.
fn begins_with(bytes: &[u8], text: &[u8]) -> bool
    ensures { result ≡ is_named text.now (text_in bytes.now) }
{
    if !has_ends(bytes, text) {
        return false;
    }
    let front = &bytes[..text.len()];
    match memrchr(0, front) {
        Some(_) => false,
        None => text == front,
    }
}

/// The same after other comparisons: it also looks where the others differed. `end` is where the
/// text would end.
#[inline(always)]
fn is_front_after(bytes: &[u8], text: &[u8], end: usize, others: &mut Differences<'_>) -> bool
    ensures { result ≡ is_named text.now (text_in bytes.now) }
{
    if !has_ends(bytes, text) {
        return false;
    }
    let front = &bytes[..text.len()];
    if !others.may_be_same(end, text, front) {
        return false;
    }
    if let Some(zero) = memrchr(0, front) {
        others.keep(end, text, zero);
        return false;
    }
    if text == front {
        return true;
    }
    others.keep_last(end, text, front);
    false
}

/// Whether two texts of the same length have the same last byte, if they have any.
#[inline(always)]
fn have_one_end(text: &[u8], other: &[u8]) -> bool
    requires { length text.now ≡ length other.now }
    ensures { text.now ≡ other.now → IsTrue result }
{
    if text.is_empty() {
        return true;
    }
    let last = text.len() - 1;
    text[last] == other[last]
}

/// The same. Two bytes are enough to tell most names from the text.
#[inline(always)]
fn begins_with_after(rest: &[u8], text: &[u8], end: usize, others: &mut Differences<'_>) -> bool
    ensures { result ≡ is_named text.now (text_in rest.now) }
{
    if !is_end(rest, text.len()) {
        return false;
    }
    if !have_one_end(text, &rest[..text.len()]) {
        return false;
    }
    is_front_after(rest, text, end, others)
}

/// Whether the name at an offset of a table is this text.
pub fn is_text(table: &[u8], offset: usize, text: &[u8]) -> bool
    ensures { result ≡ is_named text.now (text_at (Some table.now) offset) }
{
    match table.get(offset..) {
        Some(rest) => begins_with(rest, text),
        None => false,
    }
}

/// Whether the name at an offset of a table is this text, after others were compared with it.
#[inline(always)]
pub fn is_text_after(table: &[u8], offset: usize, text: &[u8], others: &mut Differences<'_>) -> bool
    ensures { result ≡ is_named text.now (text_at (Some table.now) offset) }
{
    match table.get(offset..) {
        Some(rest) => begins_with_after(rest, text, offset.wrapping_add(text.len()), others),
        None => false,
    }
}
