//! Numbers in memory, and how they are shown as raw digits.
ghost use Rattle.std.specs.Prelude.{◌≡◌, ◌+◌, ◌-◌, ◌*◌, ◌≤◌, ◌<◌, ◌^◌, ◌/◌, ◌%◌, length, nat_le, IfErr, OnOk, Ok};
ghost use Rattle.ctf_model.specs.values.MemoryBits.{bits_at, bit_field as field_of, hexadecimal, started_bytes};
ghost use Rattle.ctf_model.specs.values.Pieces.{piece};
ghost use Rattle.ctf_model.specs.dumps.Texts.{hex_digit as hex_digit_of, hex_of_byte};
ghost use Rattle.ctf_model.specs.values.Values.{raw_shown};
ghost use Rattle.ctf_print.specs.Written.{Refused, written};

use crate::text::Text;
use byteorder::{ByteOrder, LittleEndian};
use ctf_model::{Fault, placeless};

/// The number in so many bits from a bit on, which are in the memory. They begin in one byte and
/// end at most eight bytes later.
#[inline(always)]
fn bits(memory: &[u8], at: u128, width: u16) -> u64
    requires some { 0 < width }
    requires short { width ≤ 64 }
    requires inside { at + width ≤ 8 * length memory.now }
    ensures value { result ≡ bits_at memory.now at width }
    ensures small { result < 2 ^ width }
{
    let bytes = &memory[(at / 8) as usize..];
    let number = LittleEndian::read_uint128(bytes, bytes.len().min(9));
    ((number >> (at % 8)) % (1 << width)) as u64
}

/// Whether the memory has so many bits from a bit on.
fn has_bits(memory: &[u8], at: u128, width: u128) -> bool
    ensures { result ≡ nat_le (at + width) (8 * length memory.now) }
{
    let end = memory.len() as u128 * 8;
    at <= end && width <= end - at
}

/// The number in so many bits from a bit on.
#[inline(always)]
pub fn field(memory: &[u8], at: u128, width: u16) -> Result<u64, Fault>
    requires some { 0 < width }
    requires short { width ≤ 64 }
    ensures { result ≡ field_of memory.now at width }
{
    if has_bits(memory, at, u128::from(width)) {
        Ok(bits(memory, at, width))
    } else {
        Err(placeless(Fault::SHORT_MEMORY))
    }
}

fn hex_digit(number: u8) -> u8
    requires { number < 16 }
    ensures { result ≡ hex_digit_of number }
{
    if number < 10 {
        48 + number
    } else {
        87 + number
    }
}

/// Appends a byte as two digits.
fn put_byte(byte: u8, out: &mut Text) -> Result<(), Fault>
    ensures ok { OnOk result (written out.old (piece (hex_of_byte byte)) ≡ Ok out.new) }
    ensures err { IfErr result (Refused out.old (piece (hex_of_byte byte))) }
{
    let digits = [hex_digit(byte / 16), hex_digit(byte % 16)];
    out.put_short(&digits)
}

/// The byte with a number, from 0, of a number in so many bits.
fn byte_of(memory: &[u8], at: u128, width: u128, index: u128) -> u8
    requires inside { at + width ≤ 8 * length memory.now }
    requires there { 8 * index < width }
    ensures { result ≡ bits_at memory.now at width / 256 ^ index % 256 }
{
    let left = (width - 8 * index).min(8);
    bits(memory, at + 8 * index, left as u16) as u8
}

/// Appends the digits of so many bits, the highest byte first.
fn put_digits(memory: &[u8], at: u128, width: u128, out: &mut Text) -> Result<(), Fault>
    requires inside { at + width ≤ 8 * length memory.now }
    ensures ok { OnOk result (written out.old
        (piece (hexadecimal (started_bytes width) (bits_at memory.now at width))) ≡ Ok out.new) }
    ensures err { IfErr result (Refused out.old
        (piece (hexadecimal (started_bytes width) (bits_at memory.now at width)))) }
{
    let count = (width + 7) / 8;
    for i in 0..count {
        put_byte(byte_of(memory, at, width, count - 1 - i), out)?;
    }
    out.put_nothing()
}

/// Appends so many bits as raw digits.
#[inline(never)]
pub fn show_raw(memory: &[u8], at: u128, width: u128, out: &mut Text) -> Result<(), Fault>
    ensures ok { OnOk result (written out.old (raw_shown memory.now at width) ≡ Ok out.new) }
    ensures err { IfErr result (Refused out.old (raw_shown memory.now at width)) }
{
    if has_bits(memory, at, width) {
        out.put_short(b"0x")?;
        put_digits(memory, at, width, out)
    } else {
        out.end(placeless(Fault::SHORT_MEMORY))
    }
}
