//! Searches for bytes that end a run of plain ones.
ghost use Rattle.std.specs.Prelude.{◌≡◌, ◌+◌, ◌≤◌, ◌||◌, IsTrue, drop, get_or, length, map};
ghost use Rattle.std.specs.Char.{is_ascii_digit};
ghost use Rattle.std.specs.List.{prefix_len};
ghost use Rattle.std.specs.Simd.Lanes.{mask_l};
ghost use Rattle.json.specs.Align.{is_blank};
ghost use Rattle.json.specs.Lex.{between, class, in_word, lex};
ghost use Rattle.json.specs.Run.{is_plain, is_stop};
ghost use Rattle.json.specs.Word.{head, is_operator, is_space};
ghost use Rattle.ctf_json.specs.Bits.{bits_of};
ghost use Rattle.ctf_json.specs.Plain.{BeginsOrEnds};

use std::simd::prelude::*;

/// The byte at a place, or a space after the end.
#[inline(always)]
pub(crate) fn byte_at(text: &[u8], i: usize) -> u8
    ensures value { result ≡ get_or text.now i 32 }
    ensures head { result ≡ head (drop i text.now) }
{
    if i < text.len() { text[i] } else { b' ' }
}

/// Whether a byte ends a number or a literal.
#[inline(always)]
pub(crate) fn is_delimiter(c: u8) -> bool
    ensures { result ≡ (is_operator c || is_space c) }
{
    let operator = (c == b'{')
        | (c == b'}')
        | (c == b'[')
        | (c == b']')
        | (c == b':')
        | (c == b',');
    let space = (c == b' ') | (c == b'\t') | (c == b'\n') | (c == b'\r');
    operator | space
}

#[inline(always)]
pub(crate) fn is_white(c: u8) -> bool
    ensures { result ≡ is_blank (class c) }
{
    (c == b' ') | (c == b'\t') | (c == b'\n') | (c == b'\r')
}

/// Which of 16 bytes are quotes, backslashes or control bytes, a bit for each.
#[inline(always)]
fn stops_16(v: u8x16) -> u64
    ensures { result ≡ mask_l (map is_stop v) }
{
    (v.simd_eq(u8x16::splat(b'"'))
        | v.simd_eq(u8x16::splat(b'\\'))
        | v.simd_lt(u8x16::splat(0x20))).to_bitmask()
}

/// Which of 16 bytes are backslashes, a bit for each.
#[inline(always)]
pub(crate) fn backslashes_16(v: u8x16) -> u64
    ensures { result ≡ bits_of 92 v }
{
    v.simd_eq(u8x16::splat(b'\\')).to_bitmask()
}

/// Which of 64 bytes are quotes, backslashes or control bytes, a bit for each.
#[inline(always)]
fn stops_64(v: u8x64) -> u64
    ensures { result ≡ mask_l (map is_stop v) }
{
    (v.simd_eq(u8x64::splat(b'"'))
        | v.simd_eq(u8x64::splat(b'\\'))
        | v.simd_lt(u8x64::splat(0x20))).to_bitmask()
}

/// The same for 8 bytes.
#[inline(always)]
fn stops_8(v: u8x8) -> u64
    ensures { result ≡ mask_l (map is_stop v) }
{
    (v.simd_eq(u8x8::splat(b'"'))
        | v.simd_eq(u8x8::splat(b'\\'))
        | v.simd_lt(u8x8::splat(0x20))).to_bitmask()
}

#[inline(always)]
fn plain_end_slowly(text: &[u8], from: usize) -> usize
    requires { from ≤ length text.now }
    ensures { result ≡ from + prefix_len is_plain (drop from text.now) }
{
    let mut i = from;
    while i < text.len() && text[i] != b'"' && text[i] != b'\\' && text[i] >= 0x20 {
        i += 1;
    }
    i
}

/// The offset of the first byte that is not plain, if fewer than 16 bytes are left; the text's
/// length if all are plain.
#[inline(always)]
fn plain_end_8(text: &[u8], from: usize) -> usize
    requires { from ≤ length text.now }
    ensures { result ≡ from + prefix_len is_plain (drop from text.now) }
{
    if text.len() - from < 8 {
        return plain_end_slowly(text, from);
    }
    let found = stops_8(u8x8::from_slice(&text[from..]));
    if found != 0 {
        return from + found.trailing_zeros() as usize;
    }
    plain_end_slowly(text, from + 8)
}

/// Skips blocks of 64 bytes that have none of them, and returns the place after these. Only for
/// long texts.
#[inline(never)]
fn passed_blocks(text: &[u8], from: usize) -> usize
    requires { from ≤ length text.now }
    ensures same { result + prefix_len is_plain (drop result text.now)
        ≡ from + prefix_len is_plain (drop from text.now) }
    ensures bound { (from ≤ result) × (result ≤ length text.now) }
{
    let mut i = from;
    while text.len() - i >= 64 {
        let found = stops_64(u8x64::from_slice(&text[i..]));
        if found != 0 {
            return i;
        }
        i += 64;
    }
    i
}

/// The place from which to continue, if there is none of them before place `i`: a text with 64
/// plain bytes is likely to be much longer.
#[inline(always)]
fn next_place(text: &[u8], from: usize, i: usize) -> usize
    requires { (from ≤ i) × (i ≤ length text.now) }
    ensures same { result + prefix_len is_plain (drop result text.now)
        ≡ i + prefix_len is_plain (drop i text.now) }
    ensures bound { (i ≤ result) × (result ≤ length text.now) }
{
    if i - from == 64 {
        passed_blocks(text, i)
    } else {
        i
    }
}

/// The first quote, backslash or control byte from a place on, or the text's length.
#[inline(always)]
pub(crate) fn plain_end(text: &[u8], from: usize) -> usize
    requires { from ≤ length text.now }
    ensures value { result ≡ from + prefix_len is_plain (drop from text.now) }
    ensures bound { (from ≤ result) × (result ≤ length text.now) }
{
    let mut i = from;
    while text.len() - i >= 16 {
        let found = stops_16(u8x16::from_slice(&text[i..]));
        if found != 0 {
            return i + found.trailing_zeros() as usize;
        }
        i = next_place(text, from, i + 16);
    }
    plain_end_8(text, i)
}

#[inline(always)]
pub(crate) fn is_digit(c: u8) -> bool
    ensures { IsTrue result → (48 ≤ c) × (c ≤ 57) }
{
    (b'0' <= c) & (c <= b'9')
}

/// Whether so many digits are a number of few digits: a single zero, or at most 19 digits without a
/// zero in front.
#[inline(always)]
pub(crate) fn are_few(first: u8, count: usize) -> bool
    ensures { IsTrue result → (count ≤ 19) × (first ≡ 48 → count ≤ 1) }
{
    if first == b'0' {
        count <= 1
    } else {
        count <= 19
    }
}

#[inline(always)]
pub(crate) fn digits_end(text: &[u8], from: usize) -> usize
    requires { from ≤ length text.now }
    ensures value { result ≡ from + prefix_len is_ascii_digit (drop from text.now) }
    ensures bound { result ≤ length text.now }
{
    let mut i = from;
    while i < text.len() && text[i].is_ascii_digit() {
        i += 1;
    }
    i
}

/// Where the next token begins, or the text's length.
#[inline(always)]
pub(crate) fn blanks_end(text: &[u8], from: usize) -> usize
    requires { from ≤ length text.now }
    ensures same { lex between (drop result text.now) ≡ lex between (drop from text.now) }
    ensures begins { BeginsOrEnds (drop result text.now) }
    ensures bound { result ≤ length text.now }
{
    let mut i = from;
    while i < text.len() && is_white(text[i]) {
        i += 1;
    }
    i
}

/// Where the word ends that has the byte at a place.
#[inline(always)]
pub(crate) fn word_end(text: &[u8], from: usize) -> usize
    requires { from ≤ length text.now }
    ensures same { lex between (drop result text.now) ≡ lex in_word (drop from text.now) }
    ensures bound { result ≤ length text.now }
{
    let mut i = from;
    while i < text.len() && !is_delimiter(text[i]) {
        i += 1;
    }
    i
}
