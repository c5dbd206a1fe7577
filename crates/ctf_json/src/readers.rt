//! Readers of texts: of any text, with memory that they borrow, or of a text without escapes,
//! without memory.
ghost use Rattle.std.specs.Prelude.{◌≡◌, [], ◌∷◌, None, Some, true, IfOk, IsTrue, MatchOption, MatchResult, OnErr, option_map};
ghost use Rattle.std.specs.Bool.{MatchBool};
ghost use Rattle.json.specs.Json.{after_end_array, read_key};
ghost use Rattle.json.specs.Lex.{tokens};
ghost use Rattle.json.specs.Reads.{token_of};
ghost use Rattle.json.specs.Token as spec;
ghost use Rattle.ctf_json.specs.Memory.{has_byte};
ghost use Rattle.ctf_json.specs.Plain.{HasNoEscape};
ghost use Rattle.ctf_json.specs.PlainReader.{IsField, IsMember, field_token};

use crate::plain_reader::PlainReader;
use crate::runs::backslashes_16;
use crate::scratch::Scratch;
use crate::values::Field;
use json::{Invalid, Token};
use memchr::memchr;
use std::alloc::AllocError;
use std::marker::Model;
use std::simd::prelude::*;

/// A text of at most this length is faster to read byte by byte than with an index, whatever its
/// end.
const SHORT: usize = 512;

/// Whether a short text contains a byte. The loop never stops early.
fn has_in_short(byte: u8, text: &[u8]) -> bool
    ensures { result ≡ has_byte byte text.now }
{
    let mut found = false;
    for other in text {
        found = (*other == byte) | found;
    }
    found
}

fn has(byte: u8, text: &[u8]) -> bool
    ensures { result ≡ has_byte byte text.now }
{
    if text.len() <= SHORT {
        return has_in_short(byte, text);
    }
    match memchr(byte, text) {
        Some(_) => true,
        None => false,
    }
}

/// Whether a text has a backslash. A short one is looked through 16 bytes at a time, and its last
/// 16 are looked at whether or not some of them were before.
fn has_backslash(text: &[u8]) -> bool
    ensures { result ≡ has_byte 92 text.now }
{
    if text.len() < 16 {
        return has_in_short(b'\\', text);
    }
    if text.len() > SHORT {
        return has(b'\\', text);
    }
    let mut i = 0;
    while text.len() - i >= 16 {
        let found = backslashes_16(u8x16::from_slice(&text[i..]));
        if found != 0 {
            return true;
        }
        i += 16;
    }
    let found = backslashes_16(u8x16::from_slice(&text[text.len() - 16..]));
    found != 0
}

/// Whether a text ends in a brace, as an object does, and not in blanks.
fn ends_object(text: &[u8]) -> bool {
    match text.last() {
        Some(byte) => *byte == b'}',
        None => false,
    }
}

/// Whether a text is faster to read in place. With an index, blanks are skipped faster: so a text
/// that is padded at its end is read that way, unless it has a list, whose items may be short.
fn is_sooner_plain(text: &[u8]) -> bool {
    text.len() <= SHORT || ends_object(text) || has(b'[', text)
}

/// Whether a text has no escapes and is faster to read in place.
#[inline(always)]
pub(crate) fn is_read_in_place(text: &str) -> bool
    ensures { IsTrue result → HasNoEscape text.now }
{
    is_sooner_plain(text.as_bytes()) && !has_backslash(text.as_bytes())
}

#[derive(Drop)]
pub(crate) enum TextSource<'a> {
    Lent(Box<json::Reader<'a>>),
    Plain(PlainReader<'a>),
}

/// Contracts see the tokens that are still to come.
#[derive(Drop)]
pub(crate) struct Reader<'a> {
    source: TextSource<'a>,
}

impl<'a> Model for Reader<'a> {
    ghost use Rattle.std.specs.Prelude.{List};
    ghost use Rattle.json.specs.Token.{Token as SpecToken, tokens_code};

    ghost Value = { List SpecToken };

    ghost coded = { tokens_code };

    ghost use Rattle.ctf_json.specs.Readers.{left_of};

    ghost view = { λ a. left_of a.source };
}

/// The next token of a text with escapes.
#[inline(never)]
fn lent_token<'a>(reader: &mut json::Reader<'a>) -> Option<Token<'a>>
    ensures { MatchOption result ((reader.old ≡ []) × (reader.new ≡ []))
        (λ t. reader.old ≡ token_of t ∷ reader.new) }
{
    reader.next()
}

/// A key, or None at the brace that closes an object.
#[inline(always)]
fn lent_key<'a>(reader: &mut json::Reader<'a>) -> Result<Option<&'a str>, Invalid>
    ensures value { MatchResult result
        (λ k. read_key reader.old ≡ Some (option_map (λ s. s.now) k, reader.new))
        (λ _. read_key reader.old ≡ None) }
{
    let token = lent_token(reader).ok_or(Invalid)?;
    match token {
        Token::Key(key) => Ok(Some(key)),
        Token::EndObject => Ok(None),
        _ => Err(Invalid),
    }
}

/// The token of a field.
#[inline(always)]
fn token<'a>(field: Field<'a>) -> Token<'a>
    ensures { token_of result ≡ field_token field.entry }
{
    match field {
        Field::String(text) => Token::String(text),
        Field::Number(text) => Token::Number(text),
        Field::Bool(truth) => Token::Bool(truth),
        Field::Null => Token::Null,
    }
}

fn reader_over<'a>(text: &'a str, scratch: &'a mut Scratch) -> Result<Reader<'a>, AllocError>
    ensures { IfOk result (λ reader. reader ≡ tokens text.now) }
{
    let alloc = scratch.allocator();
    let reader = json::Reader::new(text, scratch.lend()?)?;
    Ok(Reader {
        source: TextSource::Lent(Box::new(alloc, reader)?),
    })
}

fn without_scratch<'a>(text: &'a str) -> Result<Reader<'a>, AllocError>
    ensures ok { IfOk result (λ reader. reader ≡ tokens text.now) }
    ensures full { OnErr result (has_byte 92 text.now ≡ true) }
{
    if has_backslash(text.as_bytes()) {
        return Err(AllocError);
    }
    Ok(Reader::in_place(text))
}

impl<'a> Reader<'a> {
    /// A text without escapes, which is read in place.
    #[inline(always)]
    pub(crate) fn in_place(text: &'a str) -> Reader<'a>
        requires { HasNoEscape text.now }
        ensures { result ≡ tokens text.now }
    {
        Reader {
            source: TextSource::Plain(PlainReader::new(text)),
        }
    }

    /// A text without escapes is mostly read in place. For other texts, strings with escapes are
    /// written to the scratch, which grows to the length of the text. If it cannot grow, a text
    /// without escapes is read all the same.
    pub(crate) fn new(text: &'a str, scratch: &'a mut Scratch) -> Result<Reader<'a>, AllocError>
        ensures ok { IfOk result (λ reader. reader ≡ tokens text.now) }
        ensures full { OnErr result (has_byte 92 text.now ≡ true) }
    {
        if is_sooner_plain(text.as_bytes()) {
            if let Ok(reader) = without_scratch(text) {
                return Ok(reader);
            }
        }
        match reader_over(text, scratch) {
            Ok(reader) => Ok(reader),
            Err(AllocError) => without_scratch(text),
        }
    }

    #[inline(always)]
    pub(crate) fn next(&mut self) -> Option<Token<'a>>
        ensures { MatchOption result ((self.old ≡ []) × (self.new ≡ []))
            (λ t. self.old ≡ token_of t ∷ self.new) }
    {
        match &mut self.source {
            TextSource::Plain(reader) => reader.next(),
            TextSource::Lent(reader) => lent_token(reader),
        }
    }

    /// The same, faster if the next item of a list is a text or a number.
    #[inline(always)]
    pub(crate) fn next_item(&mut self) -> Option<Token<'a>>
        ensures { MatchOption result ((self.old ≡ []) × (self.new ≡ []))
            (λ t. self.old ≡ token_of t ∷ self.new) }
    {
        match self.take_field() {
            Some(field) => Some(token(field)),
            None => self.next(),
        }
    }

    /// A key, or None at the brace that closes an object.
    #[inline(always)]
    pub(crate) fn next_key(&mut self) -> Result<Option<&'a str>, Invalid>
        ensures value { MatchResult result
            (λ k. read_key self.old ≡ Some (option_map (λ s. s.now) k, self.new))
            (λ _. read_key self.old ≡ None) }
    {
        match &mut self.source {
            TextSource::Plain(reader) => reader.next_key(),
            TextSource::Lent(reader) => Ok(lent_key(reader)?),
        }
    }

    /// A key, with its value if this is read in one step; or None at the brace that closes an
    /// object.
    #[inline(always)]
    pub(crate) fn next_member(&mut self) -> Result<Option<(&'a str, Option<Field<'a>>)>, Invalid>
        ensures value { MatchResult result
            (λ read. MatchOption read (read_key self.old ≡ Some (None, self.new))
            (λ member. IsMember self.old member.0.now member.1 self.new))
            (λ _. read_key self.old ≡ None) }
    {
        match &mut self.source {
            TextSource::Plain(reader) => reader.next_member(),
            TextSource::Lent(reader) => match lent_key(reader)? {
                Some(key) => Ok(Some((key, None))),
                None => Ok(None),
            },
        }
    }

    /// Takes the brace that begins an object, if it is the next byte.
    #[inline(always)]
    pub(crate) fn take_object(&mut self) -> bool
        ensures { MatchBool result (self.old ≡ spec.begin_object ∷ self.new)
            (self.new ≡ self.old) }
    {
        match &mut self.source {
            TextSource::Plain(reader) => reader.take_object(),
            TextSource::Lent(_) => false,
        }
    }

    /// Takes the bracket that begins an array, if it is the next byte.
    #[inline(always)]
    pub(crate) fn take_array(&mut self) -> bool
        ensures { MatchBool result (self.old ≡ spec.begin_array ∷ self.new)
            (self.new ≡ self.old) }
    {
        match &mut self.source {
            TextSource::Plain(reader) => reader.take_array(),
            TextSource::Lent(_) => false,
        }
    }

    /// Takes a text or a number of few digits, if it is next and can be read in one step.
    #[inline(always)]
    pub(crate) fn take_field(&mut self) -> Option<Field<'a>>
        ensures { MatchOption result (self.new ≡ self.old) (λ f. IsField self.old f self.new) }
    {
        match &mut self.source {
            TextSource::Plain(reader) => reader.take_field(),
            TextSource::Lent(_) => None,
        }
    }

    /// Takes the bracket that closes an array, if it is next.
    #[inline(always)]
    pub(crate) fn take_end_array(&mut self) -> bool
        ensures { MatchBool result (after_end_array self.old ≡ Some self.new)
            ((after_end_array self.old ≡ None) × (self.new ≡ self.old)) }
    {
        match &mut self.source {
            TextSource::Plain(reader) => reader.take_end_array(),
            TextSource::Lent(reader) => reader.take_end_array(),
        }
    }
}
