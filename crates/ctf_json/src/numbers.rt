//! The value of a number's text, as serde_json reads it.
ghost use Rattle.std.specs.Prelude.{◌≡◌, ◌==◌, ◌<◌, ◌≤◌, IfSome, IsTrue, Some, is_some, length, option_and_then, option_map, slice_index, true, false};
ghost use Rattle.std.specs.Char.{digit_value};
ghost use Rattle.std.specs.Str.Parse.{AllDigits};
ghost use Rattle.fast_float.specs.Text.{scan};
ghost use Rattle.serde_json.specs.Data.{unsigned as unsigned_number};
ghost use Rattle.serde_json.specs.Find.{as_u64 as unsigned_of};
ghost use Rattle.serde_json.specs.Read.{float_of, number_from, number_of};
ghost use Rattle.serde_json.specs.View.{number_view};

use fast_float::Numeral;
use serde_json::Number;

/// Whether a text begins with a minus.
#[inline(always)]
fn has_minus(bytes: &[u8]) -> bool
    ensures value { result ≡ (slice_index bytes.now 0 == 45) }
    ensures some { IsTrue result → 0 < length bytes.now }
{
    !bytes.is_empty() && bytes[0] == b'-'
}

/// A number that is no integer of 64 bits.
fn nearest(negative: bool, numeral: &Numeral<'_>) -> Option<Number>
    ensures { option_map number_view result ≡ float_of negative numeral.now }
{
    Number::from_f64(numeral.to_float::<f64>(negative))
}

#[inline(always)]
fn digit(byte: u8) -> Option<u64>
    ensures { IfSome result (λ d. (digit_value byte < 10) × (d ≡ digit_value byte)) }
{
    match byte {
        b'0'..=b'9' => Some(u64::from(byte - b'0')),
        _ => None,
    }
}

/// The value of a number that is digits only, as almost all are. `None` if it may not fit.
#[inline(always)]
fn digits_alone(bytes: &[u8]) -> Option<u64>
    ensures scanned { IfSome result
        (λ n. number_from false (scan bytes.now) ≡ Some (unsigned_number n)) }
    ensures number { IfSome result (λ n. number_of bytes.now ≡ Some (unsigned_number n)) }
{
    if bytes.is_empty() {
        return None;
    }
    let mut value = 0;
    for byte in bytes {
        let Some(digit) = digit(*byte) else {
            return None;
        };
        if value >= 1_000_000_000_000_000_000 {
            return None;
        }
        value = 10 * value + digit;
    }
    Some(value)
}

fn unsigned_number(bytes: &[u8]) -> Option<Number>
    ensures { option_map number_view result ≡ number_from false (scan bytes.now) }
{
    match digits_alone(bytes) {
        Some(n) => Some(Number::from(n)),
        None => scan_numeral(&Numeral::scan(bytes)),
    }
}

fn scan_numeral(numeral: &Numeral<'_>) -> Option<Number>
    ensures { option_map number_view result ≡ number_from false numeral.now }
{
    match numeral.to_u64() {
        Some(n) => Some(Number::from(n)),
        None => nearest(false, numeral),
    }
}

fn negative(numeral: &Numeral<'_>) -> Option<Number>
    ensures { option_map number_view result ≡ number_from true numeral.now }
{
    match numeral.to_i64(true) {
        Some(n) if n < 0 => Some(Number::from(n)),
        _ => nearest(true, numeral),
    }
}

/// The value of a number's text, if it has one: a number that is too large for a float has none.
pub fn number(text: &str) -> Option<Number>
    ensures { option_map number_view result ≡ number_of text.now }
{
    let bytes = text.as_bytes();
    if has_minus(bytes) {
        negative(&Numeral::scan(&bytes[1..]))
    } else {
        unsigned_number(bytes)
    }
}

/// The value of a number's text, if it has no sign and no fraction, and fits.
#[inline(always)]
pub(crate) fn natural(text: &str) -> Option<u64>
    ensures { result ≡ option_and_then unsigned_of (number_of text.now) }
{
    match digits_alone(text.as_bytes()) {
        Some(n) => Some(n),
        None => natural_of_any(text),
    }
}

/// The same, for any text. It is apart so that the memory that it uses is not cleared for digits.
#[inline(never)]
fn natural_of_any(text: &str) -> Option<u64>
    ensures { result ≡ option_and_then unsigned_of (number_of text.now) }
{
    number(text)?.as_u64()
}

/// Whether a text is digits only, and so few that the value fits.
fn are_few_digits(bytes: &[u8]) -> bool
    ensures { IsTrue result
        → (0 < length bytes.now) × (length bytes.now ≤ 19) × AllDigits 10 bytes.now }
{
    if bytes.is_empty() {
        return false;
    }
    if bytes.len() > 19 {
        return false;
    }
    for byte in bytes {
        let Some(_) = digit(*byte) else {
            return false;
        };
    }
    true
}

/// Whether a number's text has a value. For few digits, the value is not computed.
pub(crate) fn has_value(text: &str) -> bool
    ensures { result ≡ is_some (number_of text.now) }
{
    if are_few_digits(text.as_bytes()) {
        return true;
    }
    number(text).is_some()
}
