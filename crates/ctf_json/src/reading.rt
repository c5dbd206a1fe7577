//! Reads what requests use of a line, with memory that each call borrows.
ghost use Rattle.std.specs.Prelude.{◌≡◌, ◌<◌, ◌∷◌, List, MatchResult, OnOk, None, Some, Err, length, true};
ghost use Rattle.json.specs.Json.{members as read_members, object, parse_map, value as read_value};
ghost use Rattle.json.specs.Lex.{tokens};
ghost use Rattle.json.specs.Reads.{token_of};
ghost use Rattle.json.specs.Token.{Token as SpecToken};
ghost use Rattle.serde_json.specs.Read.{read as read_text};
ghost use Rattle.ctf_json.specs.Keys.{place_in};
ghost use Rattle.ctf_json.specs.Kept.{AreKept, IsKeptAt, IsReadAt};
ghost use Rattle.ctf_json.specs.Memory.{IsLeft, list_among, takes_memory};
ghost use Rattle.ctf_json.specs.Passed.{begun, passed_members, passed_value};
ghost use Rattle.ctf_json.specs.PlainReader.{IsTaken};
ghost use Rattle.ctf_json.specs.TreeData.{tree_data};
ghost use Rattle.ctf_json.specs.Values.{IsNew, keys, line_data, data_of};
ghost use Rattle.ctf_json.specs.declared.reading.NotRead.TheVariants as why;

use crate::keys::{place_of, wanted_list};
use crate::line::Line;
use crate::lists::list_at;
use crate::passing::{pass, pass_from};
use crate::readers::{Reader, is_read_in_place};
use crate::scratch::Scratch;
use crate::values::Field;
use json::{Invalid, Token};
use std::alloc::{AllocError, Global};

/// The greatest depth to which arrays and objects may nest.
const MAX_DEPTH: usize = 127;

/// Why a text is not read.
#[derive(Clone, Copy, Drop)]
pub enum NotRead {
    NotJson,
    Memory,
}

impl From<Invalid> for NotRead {
    ghost use Rattle.std.specs.Prelude.{◌≡◌};
    ghost use Rattle.ctf_json.specs.declared.reading.NotRead.TheVariants.{NotJson};

    ghost from_gives = { λ _ e. e ≡ NotJson };

    fn from(_invalid: Invalid) -> NotRead {
        NotRead::NotJson
    }
}

/// Reads a text into a line without fields: its values at the keys, if serde_json reads it. Nothing
/// else of it is stored.
#[inline(always)]
pub fn read_line<'a>(
    alloc: Global,
    text: &'a str,
    scratch: &'a mut Scratch,
    line: &mut Line<'a>,
) -> Result<(), NotRead>
    ensures ok { IsNew line.old → OnOk result (IsReadAt text.now (line_data line.new)) }
    ensures refused { result ≡ Err why.NotJson → read_text text.now ≡ None }
    ensures memory { result ≡ Err why.Memory → takes_memory text.now ≡ true }
{
    if is_read_in_place(text) {
        return read_from(alloc, text, &mut Reader::in_place(text), line);
    }
    read_by_any(alloc, text, scratch, line)
}

/// The same, by a reader that suits the text.
#[inline(never)]
fn read_by_any<'a>(
    alloc: Global,
    text: &'a str,
    scratch: &'a mut Scratch,
    line: &mut Line<'a>,
) -> Result<(), NotRead>
    ensures ok { IsNew line.old → OnOk result (IsReadAt text.now (line_data line.new)) }
    ensures refused { result ≡ Err why.NotJson → read_text text.now ≡ None }
    ensures memory { result ≡ Err why.Memory → takes_memory text.now ≡ true }
{
    match Reader::new(text, scratch) {
        Ok(mut reader) => read_from(alloc, text, &mut reader, line),
        Err(AllocError) => Err(NotRead::Memory),
    }
}

/// Reads a text into a line without fields, from a reader that has read nothing of the text.
#[inline(always)]
fn read_from<'a>(
    alloc: Global,
    text: &str,
    reader: &mut Reader<'a>,
    line: &mut Line<'a>,
) -> Result<(), NotRead>
    requires { reader.old ≡ tokens text.now }
    ensures ok { IsNew line.old → OnOk result (IsReadAt text.now (line_data line.new)) }
    ensures refused { result ≡ Err why.NotJson → read_text text.now ≡ None }
    ensures memory { result ≡ Err why.Memory → takes_memory text.now ≡ true }
{
    line_at(alloc, reader, line)?;
    if reader.next().is_some() {
        return Err(NotRead::NotJson);
    }
    Ok(())
}

/// Stores what the next value has at the keys.
#[inline(always)]
fn line_at<'a>(alloc: Global, reader: &mut Reader<'a>, line: &mut Line<'a>) -> Result<(), NotRead>
    ensures ok { OnOk result (AreKept (IsNew line.old) (read_value 127 reader.old)
        (line_data line.new) reader.new) }
    ensures refused { result ≡ Err why.NotJson → passed_value 127 reader.old ≡ None }
    ensures memory { result ≡ Err why.Memory → list_among reader.old ≡ true }
{
    if reader.take_object() {
        return members_at(alloc, reader, MAX_DEPTH - 1, line);
    }
    any_line_at(alloc, reader, line)
}

/// The same, wherever the value begins, and whatever it is.
#[inline(never)]
fn any_line_at<'a>(
    alloc: Global,
    reader: &mut Reader<'a>,
    line: &mut Line<'a>,
) -> Result<(), NotRead>
    ensures ok { OnOk result (AreKept (IsNew line.old) (read_value 127 reader.old)
        (line_data line.new) reader.new) }
    ensures refused { result ≡ Err why.NotJson → passed_value 127 reader.old ≡ None }
    ensures memory { result ≡ Err why.Memory → list_among reader.old ≡ true }
{
    let token = reader.next().ok_or(Invalid)?;
    if let Token::BeginObject = token {
        members_at(alloc, reader, MAX_DEPTH - 1, line)?;
        return Ok(());
    }
    pass_from(token, reader, MAX_DEPTH)?;
    Ok(())
}

/// Stores the members at the keys, of an object that has begun; of a repeated key, the last value.
#[inline]
fn members_at<'a>(
    alloc: Global,
    reader: &mut Reader<'a>,
    depth: usize,
    line: &mut Line<'a>,
) -> Result<(), NotRead>
    ensures ok { OnOk result (AreKept (IsNew line.old) (parse_map object
        (read_members (read_value depth) (length reader.old) reader.old)) (line_data line.new)
        reader.new) }
    ensures refused { result ≡ Err why.NotJson → passed_members depth reader.old ≡ None }
    ensures memory { result ≡ Err why.Memory → list_among reader.old ≡ true }
{
    while let Some(member) = reader.next_member()? {
        let (key, taken) = member;
        if let Some(place) = place_of(key) {
            keep_next(alloc, reader, depth, key, place, taken, line)?;
        } else {
            pass_next(reader, depth, taken)?;
        }
    }
    Ok(())
}

/// Skips a value that no request uses, unless it was taken already.
#[inline(always)]
fn pass_next<'a>(
    reader: &mut Reader<'a>,
    depth: usize,
    taken: Option<Field<'a>>,
) -> Result<(), Invalid>
    ensures passed { (ts : List SpecToken) → IsTaken ts taken.entry reader.old → MatchResult result
        (λ _. passed_value depth ts ≡ Some reader.new) (λ _. passed_value depth ts ≡ None) }
    ensures shorter { (ts : List SpecToken) → IsTaken ts taken.entry reader.old
        → OnOk result (length reader.new < length ts) }
    ensures left { (ts : List SpecToken) → IsTaken ts taken.entry reader.old
        → OnOk result (IsLeft ts reader.new) }
{
    match taken {
        Some(_) => Ok(()),
        None => pass_unknown(reader, depth),
    }
}

/// Skips a value that no request uses.
#[inline(never)]
fn pass_unknown(reader: &mut Reader<'_>, depth: usize) -> Result<(), Invalid>
    ensures passed { MatchResult result (λ _. passed_value depth reader.old ≡ Some reader.new)
        (λ _. passed_value depth reader.old ≡ None) }
    ensures shorter { OnOk result (length reader.new < length reader.old) }
    ensures left { OnOk result (IsLeft reader.old reader.new) }
{
    pass(reader, depth)
}

/// Stores the value at a key, which may have been taken already.
#[inline(always)]
fn keep_next<'a>(
    alloc: Global,
    reader: &mut Reader<'a>,
    depth: usize,
    key: &str,
    place: usize,
    taken: Option<Field<'a>>,
    line: &mut Line<'a>,
) -> Result<(), NotRead>
    requires { place_in key.now keys ≡ Some place }
    ensures ok { (ts : List SpecToken) → IsTaken ts taken.entry reader.old
        → OnOk result (IsKeptAt key.now (read_value depth ts) (line_data line.old)
        (line_data line.new) reader.new) }
    ensures shorter { (ts : List SpecToken) → IsTaken ts taken.entry reader.old
        → OnOk result (length reader.new < length ts) }
    ensures refused { (ts : List SpecToken) → IsTaken ts taken.entry reader.old
        → result ≡ Err why.NotJson → passed_value depth ts ≡ None }
    ensures memory { (ts : List SpecToken) → IsTaken ts taken.entry reader.old
        → result ≡ Err why.Memory → list_among ts ≡ true }
    ensures left { (ts : List SpecToken) → IsTaken ts taken.entry reader.old
        → OnOk result (IsLeft ts reader.new) }
{
    match taken {
        Some(field) => {
            line.keep_at(key, place, field);
            Ok(())
        }
        None => keep_any(alloc, reader, depth, key, place, line),
    }
}

/// Stores the next value at a key.
#[inline(never)]
fn keep_any<'a>(
    alloc: Global,
    reader: &mut Reader<'a>,
    depth: usize,
    key: &str,
    place: usize,
    line: &mut Line<'a>,
) -> Result<(), NotRead>
    requires { place_in key.now keys ≡ Some place }
    ensures ok { OnOk result (IsKeptAt key.now (read_value depth reader.old) (line_data line.old)
        (line_data line.new) reader.new) }
    ensures shorter { OnOk result (length reader.new < length reader.old) }
    ensures refused { result ≡ Err why.NotJson → passed_value depth reader.old ≡ None }
    ensures memory { result ≡ Err why.Memory → list_among reader.old ≡ true }
    ensures left { OnOk result (IsLeft reader.old reader.new) }
{
    let token = reader.next().ok_or(Invalid)?;
    if let Token::BeginArray = token {
        return keep_list(alloc, reader, depth, key, place, line);
    }
    pass_from(token, reader, depth)?;
    line.keep_at(key, place, field_of(token));
    Ok(())
}

/// Stores the items of an array that has begun. It is not inlined into its caller, since few lines
/// have an array.
#[inline(never)]
fn keep_list<'a>(
    alloc: Global,
    reader: &mut Reader<'a>,
    depth: usize,
    key: &str,
    place: usize,
    line: &mut Line<'a>,
) -> Result<(), NotRead>
    requires { place_in key.now keys ≡ Some place }
    ensures ok { OnOk result (IsKeptAt key.now
        (read_value depth (SpecToken.begin_array ∷ reader.old)) (line_data line.old)
        (line_data line.new) reader.new) }
    ensures shorter { OnOk result (length reader.new < length reader.old) }
    ensures refused { result ≡ Err why.NotJson
        → passed_value depth (SpecToken.begin_array ∷ reader.old) ≡ None }
{
    if depth == 0 {
        return Err(NotRead::NotJson);
    }
    let value = list_at(alloc, reader, depth - 1, wanted_list(key))?;
    line.keep(key, place, value);
    Ok(())
}

/// What is stored of a value that begins with a token: nothing of an array or an object.
#[inline]
fn field_of<'a>(token: Token<'a>) -> Field<'a>
    ensures { data_of result ≡ tree_data (begun (token_of token.entry)) }
{
    match token {
        Token::String(text) => Field::String(text),
        Token::Number(text) => Field::Number(text),
        Token::Bool(truth) => Field::Bool(truth),
        _ => Field::Null,
    }
}
