//! Numbers and the three literals `true`, `false` and `null`.
ghost use Rattle.std.specs.Prelude.{◌≡◌, ◌<◌, ◌≤◌, drop, length, nat_eq};
ghost use Rattle.std.specs.List.{starts_with};
ghost use Rattle.json.specs.Word.{after_digits, after_minus, after_sign, number_before, literal, after_whole, after_fraction, after_exponent, after_number, word};
ghost use Rattle.json.specs.Run.{EndsAt};
ghost use Rattle.json.specs.Reads.{token_of};

use crate::runs::{byte_at, digits_end, is_delimiter};
use json::Token;

#[inline(always)]
fn digits(text: &[u8], i: usize) -> Option<usize>
    requires { i ≤ length text.now }
    ensures { EndsAt text.now i result (after_digits (drop i text.now)) }
{
    let end = digits_end(text, i);
    if end == i { None } else { Some(end) }
}

#[inline(always)]
fn whole_word(text: &[u8], i: usize) -> Option<usize>
    requires { i ≤ length text.now }
    ensures { EndsAt text.now i result (after_whole (drop i text.now)) }
{
    if byte_at(text, i) == b'0' {
        Some(i + 1)
    } else {
        digits(text, i)
    }
}

#[inline(always)]
fn fraction(text: &[u8], i: usize) -> Option<usize>
    requires { i ≤ length text.now }
    ensures { EndsAt text.now i result (after_fraction (drop i text.now)) }
{
    if byte_at(text, i) == b'.' {
        digits(text, i + 1)
    } else {
        Some(i)
    }
}

#[inline(always)]
fn sign_end(text: &[u8], i: usize) -> usize
    requires { i ≤ length text.now }
    ensures value { drop result text.now ≡ after_sign (drop i text.now) }
    ensures bounds { (i ≤ result) × (result ≤ length text.now) }
{
    let c = byte_at(text, i);
    if (c == b'-') | (c == b'+') { i + 1 } else { i }
}

#[inline(always)]
fn minus_end(text: &[u8], i: usize) -> usize
    requires { i ≤ length text.now }
    ensures value { drop result text.now ≡ after_minus (drop i text.now) }
    ensures bounds { (i ≤ result) × (result ≤ length text.now) }
{
    if byte_at(text, i) == b'-' { i + 1 } else { i }
}

#[inline(always)]
fn exponent(text: &[u8], i: usize) -> Option<usize>
    requires { i ≤ length text.now }
    ensures { EndsAt text.now i result (after_exponent (drop i text.now)) }
{
    let c = byte_at(text, i);
    if !((c == b'e') | (c == b'E')) {
        return Some(i);
    }
    digits(text, sign_end(text, i + 1))
}

#[inline(always)]
fn number_end(text: &[u8], from: usize) -> Option<usize>
    requires { from ≤ length text.now }
    ensures { EndsAt text.now from result (after_number (drop from text.now)) }
{
    let point = whole_word(text, minus_end(text, from))?;
    let power = fraction(text, point)?;
    exponent(text, power)
}

#[inline(always)]
fn number<'a>(text: &'a str, from: usize) -> Token<'a>
    requires { from < length text.now }
    ensures { token_of result
        ≡ number_before (drop from text.now) (after_number (drop from text.now)) }
{
    let bytes = text.as_bytes();
    let Some(end) = number_end(bytes, from) else {
        return Token::Bad;
    };
    if is_delimiter(byte_at(bytes, end)) {
        Token::Number(&text[from..end])
    } else {
        Token::Bad
    }
}

/// Whether a text begins with these bytes.
#[inline(always)]
fn begins_with(text: &[u8], name: &[u8]) -> bool
    ensures { result ≡ starts_with nat_eq text.now name.now }
{
    if text.len() < name.len() {
        return text.starts_with(name);
    }
    let mut same = true;
    let mut i = name.len();
    while i > 0 {
        i -= 1;
        same = (name[i] == text[i]) & same;
    }
    same
}

#[inline(always)]
fn literal<'a>(text: &[u8], from: usize, name: &[u8], token: Token<'a>) -> Token<'a>
    requires { from ≤ length text.now }
    ensures { token_of result ≡ literal name.now (token_of token.entry) (drop from text.now) }
{
    let rest = &text[from..];
    if begins_with(rest, name) & is_delimiter(byte_at(rest, name.len())) {
        token
    } else {
        Token::Bad
    }
}

#[inline(always)]
pub(crate) fn word<'a>(text: &'a str, from: usize) -> Token<'a>
    requires { from < length text.now }
    ensures { token_of result ≡ word (drop from text.now) }
{
    let bytes = text.as_bytes();
    let c = byte_at(bytes, from);
    if c == b't' {
        literal(bytes, from, b"true", Token::Bool(true))
    } else if c == b'f' {
        literal(bytes, from, b"false", Token::Bool(false))
    } else if c == b'n' {
        literal(bytes, from, b"null", Token::Null)
    } else {
        number(text, from)
    }
}
