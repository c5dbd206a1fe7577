//! Skips values that no request uses, and builds nothing.
ghost use Rattle.std.specs.Prelude.{◌≡◌, ◌<◌, ◌≤◌, ◌∷◌, None, Some, MatchResult, OnOk, length};
ghost use Rattle.json.specs.Reads.{token_of};
ghost use Rattle.ctf_json.specs.Memory.{IsLeft};
ghost use Rattle.ctf_json.specs.Passed.{passed_items, passed_members, passed_value};

use crate::numbers::has_value;
use crate::readers::Reader;
use json::{Invalid, Token};

/// Skips a value. Invalid if there is no value, if its arrays and objects nest deeper than `depth`,
/// or if one of its numbers has no value.
#[cycle(pass)]
#[inline(always)]
pub(crate) fn pass(reader: &mut Reader<'_>, depth: usize) -> Result<(), Invalid>
    ensures passed { MatchResult result (λ _. passed_value depth reader.old ≡ Some reader.new)
        (λ _. passed_value depth reader.old ≡ None) }
    ensures shorter { OnOk result (length reader.new < length reader.old) }
    ensures left { OnOk result (IsLeft reader.old reader.new) }
{
    if reader.take_array() {
        return pass_from(Token::BeginArray, reader, depth);
    }
    let token = reader.next_item().ok_or(Invalid)?;
    pass_from(token, reader, depth)
}

/// The same, after the first token of the value was read.
#[cycle(pass)]
#[inline(always)]
pub(crate) fn pass_from(
    token: Token<'_>,
    reader: &mut Reader<'_>,
    depth: usize,
) -> Result<(), Invalid>
    ensures passed { MatchResult result
        (λ _. passed_value depth (token_of token.entry ∷ reader.old) ≡ Some reader.new)
        (λ _. passed_value depth (token_of token.entry ∷ reader.old) ≡ None) }
    ensures shorter { OnOk result (length reader.new ≤ length reader.old) }
    ensures left { OnOk result (IsLeft (token_of token.entry ∷ reader.old) reader.new) }
{
    match token {
        Token::Null | Token::Bool(_) | Token::String(_) => Ok(()),
        Token::Number(text) => if has_value(text) {
            Ok(())
        } else {
            Err(Invalid)
        },
        Token::BeginArray => if depth == 0 {
            Err(Invalid)
        } else {
            pass_items(reader, depth - 1)
        },
        Token::BeginObject => if depth == 0 {
            Err(Invalid)
        } else {
            pass_members(reader, depth - 1)
        },
        Token::EndObject | Token::EndArray | Token::Key(_) | Token::Bad => Err(Invalid),
    }
}

/// Skips the items of an array that has begun, and its end.
#[cycle(pass)]
#[inline(never)]
pub(crate) fn pass_items(reader: &mut Reader<'_>, depth: usize) -> Result<(), Invalid>
    ensures passed { MatchResult result (λ _. passed_items depth reader.old ≡ Some reader.new)
        (λ _. passed_items depth reader.old ≡ None) }
    ensures shorter { OnOk result (length reader.new < length reader.old) }
{
    while !reader.take_end_array() {
        pass(reader, depth)?;
    }
    Ok(())
}

/// Skips the members of an object that has begun, and its end.
#[cycle(pass)]
#[inline(never)]
fn pass_members(reader: &mut Reader<'_>, depth: usize) -> Result<(), Invalid>
    ensures passed { MatchResult result (λ _. passed_members depth reader.old ≡ Some reader.new)
        (λ _. passed_members depth reader.old ≡ None) }
    ensures shorter { OnOk result (length reader.new < length reader.old) }
    ensures left { OnOk result (IsLeft reader.old reader.new) }
{
    while let Some(_) = reader.next_key()? {
        pass(reader, depth)?;
    }
    Ok(())
}
