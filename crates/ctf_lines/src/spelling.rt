//! Bytes that texts of a line spell: by hexadecimal digits, or as a name with its escapes.
ghost use Rattle.std.specs.Prelude.{◌≡◌, ◌<◌, ◌≤◌, ◌++◌, [], ◌∷◌, All, IfOk, IfSome, IsTrue, None, Some, cond, length, option_map, option_and_then};
ghost use Rattle.ctf_joined.specs.Joined.{texts};
ghost use Rattle.ctf_json.specs.Values.{texts_data, value_data as view};
ghost use Rattle.ctf_protocol.specs.lines.LineFields.{bytes_spelled, not_too_many, not_too_many_names, name_spelled, names_spelled};
ghost use Rattle.ctf_protocol.specs.lines.Text.{digit_value as digit_value_of, byte_value as byte_value_of, bytes_spelled_by};
ghost use Rattle.ctf_lines.specs.Fronts.{IsFront, escape as escape_of};

use crate::digits::decode;
use crate::escapes::{are_plain, is_plain};
use ctf_joined::Joined;
use ctf_json::{Value, as_str};
use ctf_protocol::{LONGEST_PIECE, Names, Piece};
use std::alloc::{AllocError, Global};

/// The bytes that hexadecimal digits spell.
pub fn piece(alloc: Global, digits: &str) -> Result<Option<Piece>, AllocError>
    ensures { IfOk result (λ piece. piece ≡ bytes_spelled digits.now) }
{
    match decode(alloc, digits.as_bytes())? {
        Some(bytes) => Ok(short_piece(bytes)),
        None => Ok(None),
    }
}

/// Bytes, if they are no more than a request may have.
fn short_piece(bytes: Vec<u8>) -> Option<Piece>
    ensures { result ≡ not_too_many bytes.items }
{
    if bytes.len() <= LONGEST_PIECE {
        Some(Piece::new(bytes))
    } else {
        None
    }
}

/// The number of a digit, in lower case.
fn digit_value(digit: u8) -> Option<u8>
    ensures value { result ≡ digit_value_of digit }
    ensures small { IfSome result (λ value. value < 16) }
{
    match digit {
        b'0'..=b'9' => Some(digit - b'0'),
        b'a'..=b'f' => Some(digit - 87),
        _ => None,
    }
}

/// The byte that two digits spell.
fn byte_value(high: u8, low: u8) -> Option<u8>
    ensures { result ≡ byte_value_of high low }
{
    let high = digit_value(high)?;
    let low = digit_value(low)?;
    Some(16 * high + low)
}

/// The escaped byte at the front of a text, and the text after it.
fn escape(text: &[u8]) -> Option<(u8, &[u8])>
    ensures { option_map (λ split. (split.0, split.1.now)) result ≡ escape_of text.now }
{
    match text {
        [b'\\', b'x', high, low, rest @ ..] => Some((byte_value(*high, *low)?, rest)),
        _ => None,
    }
}

/// The byte at the front of a text, and the text after it.
#[tactic(auto, using(crate::proofs::Fronts::escape_front))]
fn front(text: &[u8]) -> Option<(u8, &[u8])>
    requires { 0 < length text.now }
    ensures { IsFront text.now (option_map (λ split. (split.0, split.1.now)) result) }
{
    match text {
        [byte, rest @ ..] if is_plain(*byte) => Some((*byte, rest)),
        _ => escape(text),
    }
}

/// The bytes that a text spells. It takes at most as many bytes of memory as the text has.
fn bytes_of(alloc: Global, text: &[u8]) -> Result<Option<Vec<u8>>, AllocError>
    ensures { IfOk result (λ bytes. option_map (λ v. v.items) bytes ≡ bytes_spelled_by text.now) }
{
    if are_plain(text) {
        return Ok(Some(Vec::from_slice(alloc, text)?));
    }
    escaped_bytes_of(alloc, text)
}

fn escaped_bytes_of(alloc: Global, text: &[u8]) -> Result<Option<Vec<u8>>, AllocError>
    ensures { IfOk result (λ bytes. option_map (λ v. v.items) bytes ≡ bytes_spelled_by text.now) }
{
    let mut bytes = Vec::new(alloc);
    if spell(&mut bytes, text)? {
        Ok(Some(bytes))
    } else {
        Ok(None)
    }
}

/// Writes the bytes that a text spells in place of others. False if it spells none.
fn spell(bytes: &mut Vec<u8>, text: &[u8]) -> Result<bool, AllocError>
    ensures { IfOk result (λ good. cond good (Some bytes.new.items) None
        ≡ bytes_spelled_by text.now) }
{
    bytes.clear();
    bytes.reserve_exact(text.len())?;
    let mut rest = text;
    while !rest.is_empty() {
        let Some((byte, behind)) = front(rest) else {
            return Ok(false);
        };
        bytes.push_reserved(byte);
        rest = behind;
    }
    Ok(true)
}

/// The name that a text spells.
fn spelled_name(alloc: Global, text: &str) -> Result<Option<Piece>, AllocError>
    ensures { IfOk result (λ name. name
        ≡ option_and_then not_too_many (bytes_spelled_by text.now)) }
{
    match bytes_of(alloc, text.as_bytes())? {
        Some(bytes) => Ok(short_piece(bytes)),
        None => Ok(None),
    }
}

/// The name that a value spells.
#[inline]
pub fn name(alloc: Global, value: &Value<'_, '_>) -> Result<Option<Piece>, AllocError>
    ensures { IfOk result (λ name. name ≡ name_spelled (view value.now)) }
{
    match as_str(value) {
        Some(text) => spelled_name(alloc, text),
        None => Ok(None),
    }
}

/// Adds a name, if it is no longer than a request may have. False if it is longer.
fn push_short(names: &mut Joined, name: &[u8]) -> Result<bool, AllocError>
    ensures { IfOk result (λ good. cond good (Some (texts names.new)) None
        ≡ option_map (λ name. texts names.old ++ name ∷ []) (not_too_many name.now)) }
{
    if name.len() > LONGEST_PIECE {
        return Ok(false);
    }
    names.push(name)?;
    Ok(true)
}

/// Adds the name that a text spells. False if it spells none.
fn push_spelled(names: &mut Joined, bytes: &mut Vec<u8>, text: &[u8]) -> Result<bool, AllocError>
    ensures { IfOk result (λ good. cond good (Some (texts names.new)) None
        ≡ option_map (λ name. texts names.old ++ name ∷ [])
        (option_and_then not_too_many (bytes_spelled_by text.now))) }
{
    if are_plain(text) {
        return push_short(names, text);
    }
    if !spell(bytes, text)? {
        return Ok(false);
    }
    push_short(names, bytes.as_slice())
}

/// Names, if they are no more than a request may have.
fn short_list(names: Joined) -> Option<Names>
    requires { All (λ name. length name ≤ 1048576) (texts names) }
    ensures { result ≡ not_too_many_names (texts names) }
{
    if names.len() <= LONGEST_PIECE {
        Some(Names::new(names))
    } else {
        None
    }
}

/// Whether a text is the name that it spells.
fn spells_itself(text: &[u8]) -> bool
    ensures { IsTrue result
        → Some text.now ≡ option_and_then not_too_many (bytes_spelled_by text.now) }
{
    if text.len() > LONGEST_PIECE {
        return false;
    }
    are_plain(text)
}

/// Whether all texts are the names that they spell.
fn spell_themselves(names: &Joined) -> bool
    ensures spelled { IsTrue result
        → names_spelled (texts_data (texts names.now)) ≡ Some (texts names.now) }
    ensures short { IsTrue result → All (λ name. length name ≤ 1048576) (texts names.now) }
{
    for place in 0..names.len() {
        if !spells_itself(names.text(place)) {
            return false;
        }
    }
    true
}

/// The names that texts spell, if each spells one and they are no more than a request may have.
pub fn names(alloc: Global, spelled: Joined) -> Result<Option<Names>, AllocError>
    ensures { IfOk result (λ names. names
        ≡ option_and_then not_too_many_names (names_spelled (texts_data (texts spelled)))) }
{
    if spell_themselves(&spelled) {
        return Ok(short_list(spelled));
    }
    escaped_names(alloc, &spelled)
}

fn escaped_names(alloc: Global, spelled: &Joined) -> Result<Option<Names>, AllocError>
    ensures { IfOk result (λ names. names
        ≡ option_and_then not_too_many_names (names_spelled (texts_data (texts spelled.now)))) }
{
    let mut names = Joined::new(alloc);
    let mut bytes = Vec::new(alloc);
    for place in 0..spelled.len() {
        if !push_spelled(&mut names, &mut bytes, spelled.text(place))? {
            return Ok(None);
        }
    }
    Ok(short_list(names))
}
