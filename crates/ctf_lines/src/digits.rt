//! Bytes that hexadecimal digits spell.
ghost use Rattle.std.specs.Prelude.{◌≡◌, ◌<◌, ◌≤◌, ◌+◌, ◌*◌, ℕ, length, option_map, slice_index, Ok, Err, IfOk, IfSome, MatchBool};
ghost use Rattle.std.specs.Result.{result_ok};
ghost use Rattle.hex.specs.Hex.{decode_of, decode_pairs, hex_digit_value, is_hex_digit, pair_value};
ghost use Rattle.hex.specs.declared.error.FromHexError.{FromHexError};
ghost use Rattle.ctf_lines.specs.Decoded.{IsDecodedTo, IsNoHex};

use std::alloc::{AllocError, Global};
use std::simd::prelude::*;

/// The value of a digit, in either case; for any other byte something below 16.
#[inline(always)]
fn number(digit: u8) -> u8
    ensures value { IfSome (hex_digit_value digit) (λ n. result ≡ n) }
    ensures small { result < 16 }
{
    if digit > b'9' {
        (digit % 16 + 9) % 16
    } else {
        digit % 16
    }
}

/// Whether a byte is a digit, in either case.
#[inline(always)]
fn is_digit(byte: u8) -> bool
    ensures { result ≡ is_hex_digit byte }
{
    let figure = (b'0' <= byte) & (byte <= b'9');
    let capital = (b'A' <= byte) & (byte <= b'F');
    let small = (b'a' <= byte) & (byte <= b'f');
    figure | capital | small
}

/// The byte that two digits spell, and whether they are digits. No branch depends on them, so that
/// many are looked at at once.
#[inline(always)]
fn pair(high: u8, low: u8) -> (u8, bool)
    ensures { MatchBool result.1 ((i : ℕ) → pair_value high low i ≡ Ok result.0)
        ((i : ℕ) → (e : FromHexError) × (pair_value high low i ≡ Err e)) }
{
    let byte = 16 * number(high) + number(low);
    let good = is_digit(high) & is_digit(low);
    (byte, good)
}

/// The first digit of each of 64 pairs from a place on.
#[inline(always)]
fn firsts(digits: &[u8], at: usize) -> u8x64
    requires { at + 128 ≤ length digits.now }
    ensures { (k : ℕ) → k < 64 → slice_index result k ≡ slice_index digits.now (at + 2 * k) }
{
    u8x64::from_slice(&digits[at..]).shuffle(
        u8x64::from_slice(&digits[at + 64..]),
        [
            0, 2, 4, 6, 8, 10, 12, 14, 16, 18, 20, 22, 24, 26, 28, 30, 32, 34, 36, 38, 40, 42, 44,
            46, 48, 50, 52, 54, 56, 58, 60, 62, 64, 66, 68, 70, 72, 74, 76, 78, 80, 82, 84, 86, 88,
            90, 92, 94, 96, 98, 100, 102, 104, 106, 108, 110, 112, 114, 116, 118, 120, 122, 124,
            126,
        ],
    )
}

/// The second digit of each of 64 pairs from a place on.
#[inline(always)]
fn seconds(digits: &[u8], at: usize) -> u8x64
    requires { at + 128 ≤ length digits.now }
    ensures { (k : ℕ) → k < 64 → slice_index result k ≡ slice_index digits.now (at + (2 * k + 1)) }
{
    u8x64::from_slice(&digits[at..]).shuffle(
        u8x64::from_slice(&digits[at + 64..]),
        [
            1, 3, 5, 7, 9, 11, 13, 15, 17, 19, 21, 23, 25, 27, 29, 31, 33, 35, 37, 39, 41, 43, 45,
            47, 49, 51, 53, 55, 57, 59, 61, 63, 65, 67, 69, 71, 73, 75, 77, 79, 81, 83, 85, 87, 89,
            91, 93, 95, 97, 99, 101, 103, 105, 107, 109, 111, 113, 115, 117, 119, 121, 123, 125,
            127,
        ],
    )
}

/// Fills 64 bytes of a list from a place on, and returns whether all their digits are valid. The
/// digits are split in blocks, since else each byte would be read by itself.
#[inline(always)]
fn fill_block(digits: &[u8], bytes: &mut [u8], at: usize) -> bool
    requires len { length digits.now ≡ 2 * length bytes.old }
    requires room { at + 64 ≤ length bytes.old }
    ensures len { length bytes.new ≡ length bytes.old }
    ensures filled { IsDecodedTo digits.now bytes.old at
        → MatchBool result (IsDecodedTo digits.now bytes.new (at + 64)) (IsNoHex digits.now) }
{
    let highs = firsts(digits, 2 * at).to_array();
    let lows = seconds(digits, 2 * at).to_array();
    let mut all = true;
    'block: for k in 0..64 {
        let (byte, good) = pair(highs[k], lows[k]);
        bytes[at + k] = byte;
        all = all & good;
    }
    all
}

/// Fills a list with the bytes that digits spell, and says whether all are digits.
fn fill(digits: &[u8], bytes: &mut [u8]) -> bool
    requires { length digits.now ≡ 2 * length bytes.old }
    ensures { MatchBool result (decode_pairs 0 digits.now ≡ Ok bytes.new)
        ((e : FromHexError) × (decode_pairs 0 digits.now ≡ Err e)) }
{
    let mut at = 0;
    'wide: while bytes.len() - at >= 64 {
        if !fill_block(digits, bytes, at) {
            return false;
        }
        at += 64;
    }
    let mut all = true;
    'rest: for last in at..bytes.len() {
        let (byte, is_good) = pair(digits[2 * last], digits[2 * last + 1]);
        bytes[last] = byte;
        all = all & is_good;
    }
    all
}

/// The bytes that digits spell, two digits for each.
pub fn decode(alloc: Global, digits: &[u8]) -> Result<Option<Vec<u8>>, AllocError>
    ensures { IfOk result (λ bytes.
        option_map (λ v. v.items) bytes ≡ result_ok (decode_of digits.now)) }
{
    if digits.len() % 2 != 0 {
        return Ok(None);
    }
    let mut bytes = Vec::from_elem(alloc, 0, digits.len() / 2)?;
    if fill(digits, &mut bytes) {
        Ok(Some(bytes))
    } else {
        Ok(None)
    }
}
