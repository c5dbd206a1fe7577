//! Integers and floats.
ghost use Rattle.std.specs.Prelude.{◌≡◌, ◌≤◌, ◌<◌, ◌^◌, decimal, IfErr, OnOk, Ok};
ghost use Rattle.ctf_model.specs.values.MemoryBits.{signed_value};
ghost use Rattle.ctf_model.specs.values.Pieces.{piece};
ghost use Rattle.ctf_model.specs.values.Values.{float_shown, integer_shown, integer_value};
ghost use Rattle.ctf_model.specs.dumps.Texts.{signed_decimal};
ghost use Rattle.ctf_views.specs.PartsView.{encoding_info};
ghost use Rattle.ctf_print.specs.Written.{Refused, written};

use crate::numbers::{field, show_raw};
use crate::text::Text;
use ctf_model::Fault;
use ctf_views::Encoding;
use itoa::Buffer;

/// The value of so many bits in two's complement: for a negative number, all higher bits are set.
#[inline(always)]
pub fn twos_complement(width: u16, number: u64) -> i64
    requires some { 0 < width }
    requires short { width ≤ 64 }
    requires small { number < 2 ^ width }
    ensures { result ≡ signed_value width number }
{
    let most = u64::MAX >> (64 - width);
    if number <= most / 2 {
        number.cast_signed()
    } else {
        (number + (u64::MAX - most)).cast_signed()
    }
}

#[inline(never)]
fn put_digits(number: u64, out: &mut Text) -> Result<(), Fault>
    ensures ok { OnOk result (written out.old (piece (decimal number)) ≡ Ok out.new) }
    ensures err { IfErr result (Refused out.old (piece (decimal number))) }
{
    out.put(Buffer::new().format(number).as_bytes())
}

/// Appends a negative number.
#[inline(never)]
fn put_negative(value: i64, out: &mut Text) -> Result<(), Fault>
    ensures ok { OnOk result (written out.old (piece (signed_decimal value)) ≡ Ok out.new) }
    ensures err { IfErr result (Refused out.old (piece (signed_decimal value))) }
{
    out.put(Buffer::new().format(value).as_bytes())
}

/// Appends a number with its sign, in decimal digits.
#[inline(always)]
pub fn put_signed(value: i64, out: &mut Text) -> Result<(), Fault>
    ensures ok { OnOk result (written out.old (piece (signed_decimal value)) ≡ Ok out.new) }
    ensures err { IfErr result (Refused out.old (piece (signed_decimal value))) }
{
    if value >= 0 {
        return put_unsigned(value.cast_unsigned(), out);
    }
    put_negative(value, out)
}

/// Appends a number in decimal digits. Small numbers are the common case.
#[inline(always)]
fn put_unsigned(number: u64, out: &mut Text) -> Result<(), Fault>
    ensures ok { OnOk result (written out.old (piece (decimal number)) ≡ Ok out.new) }
    ensures err { IfErr result (Refused out.old (piece (decimal number))) }
{
    if number < 10 {
        return out.put_short(&[b'0' + number as u8]);
    }
    put_digits(number, out)
}

/// Appends a number of so many bits, in decimal digits.
#[inline(always)]
fn put_integer(encoding: Encoding, number: u64, out: &mut Text) -> Result<(), Fault>
    requires some { 0 < encoding.bits }
    requires short { encoding.bits ≤ 64 }
    requires small { number < 2 ^ encoding.bits }
    ensures ok { OnOk result (written out.old
        (piece (signed_decimal (integer_value encoding.encoding encoding.bits number)))
        ≡ Ok out.new) }
    ensures err { IfErr result (Refused out.old
        (piece (signed_decimal (integer_value encoding.encoding encoding.bits number)))) }
{
    if encoding.encoding % 2 == 1 {
        put_signed(twos_complement(encoding.bits, number), out)
    } else {
        put_unsigned(number, out)
    }
}

/// Appends the integer whose storage begins at bit `at`.
#[inline(always)]
pub fn show_integer(
    memory: &[u8],
    at: u128,
    encoding: Encoding,
    out: &mut Text,
) -> Result<(), Fault>
    ensures ok { OnOk result (written out.old
        (integer_shown memory.now at (encoding_info encoding)) ≡ Ok out.new) }
    ensures err { IfErr result (Refused out.old
        (integer_shown memory.now at (encoding_info encoding))) }
{
    if encoding.bits == 0 {
        return out.put(b"void");
    }
    let place = at.saturating_add(u128::from(encoding.offset));
    if encoding.bits > 64 {
        return show_raw(memory, place, u128::from(encoding.bits), out);
    }
    match field(memory, place, encoding.bits) {
        Ok(number) => put_integer(encoding, number, out),
        Err(fault) => out.end(fault),
    }
}

/// Appends the float whose storage begins at bit `at`.
#[inline(always)]
pub fn show_float(memory: &[u8], at: u128, encoding: Encoding, out: &mut Text) -> Result<(), Fault>
    ensures ok { OnOk result (written out.old
        (float_shown memory.now at (encoding_info encoding)) ≡ Ok out.new) }
    ensures err { IfErr result (Refused out.old
        (float_shown memory.now at (encoding_info encoding))) }
{
    if encoding.bits == 0 {
        return out.put(b"void");
    }
    let place = at.saturating_add(u128::from(encoding.offset));
    show_raw(memory, place, u128::from(encoding.bits), out)
}
