//! Reads the request of a line.
ghost use Rattle.std.specs.Prelude.{◌≡◌, ◌≢◌, ◌<◌, ◌≤◌, IfSome, length, None, Some, IfOk, IfErr, Ok, Err, OnErr, OnOk, true, false};
ghost use Rattle.std.specs.Str.{IsUtf8};
ghost use Rattle.serde_json.specs.Read.{read as read_text};
ghost use Rattle.ctf_json.specs.Kept.{IsReadAt};
ghost use Rattle.ctf_json.specs.Memory.{takes_memory as may_take};
ghost use Rattle.ctf_json.specs.Values.{IsNew, line_data as view};
ghost use Rattle.std.specs.Option.{ForSome};
ghost use Rattle.ctf_lines.specs.Memory.{keeps_text, takes_memory, word_keeps_text};
ghost use Rattle.ctf_lines.specs.Numbered.{ask_as, ask_or, begins_object as starts_object, given_to as number_given, is_blank as blank, number_or, value_asked_or};
ghost use Rattle.ctf_protocol.specs.lines.Lines.{longest_line};
ghost use Rattle.ctf_protocol.specs.lines.Ask.{ask, word_asked, asked_with};
ghost use Rattle.ctf_model.specs.rules.Refusals.{placeless, out_of_memory};
ghost use Rattle.ctf_model.specs.declared.faults.TheConstants.Fault.{MEMORY, NOT_JSON};

use crate::changes::{close, import, open, publish, read_part, take, withdraw};
use crate::drafts::{add, create, discard, update};
use crate::field_values::{number_within, text};
use crate::line_traits::FromLine;
use crate::questions::{
    about_bytes, about_enumerators, about_function, about_held, about_labels, about_members,
    about_object, about_type, path, read_find, read_label, read_show, read_symbol,
};
use crate::words::word_of;
use ctf_json::{Line, NotRead, Scratch, get};
use ctf_protocol::{Change, Fault, Request, TypeQuestion, Word, placeless};
use std::alloc::{AllocError, Global};

/// The longest line that is read, in bytes without its newline.
pub const LONGEST_LINE: usize = 1_048_576;

/// The longest line that is read with the memory that is kept from line to line, in bytes. A longer
/// one takes memory of its own, so that no more is kept than such a line needs.
const LONGEST_KEPT: usize = 8_192;

impl FromLine for Request {
    ghost asked = { ask };

    ghost takes_memory = { takes_memory };

    fn read(
        alloc: Global,
        scratch: &mut Scratch,
        line: &[u8],
    ) -> Result<(u32, Request), (u32, Fault)> {
        read_or(alloc, scratch, line, None)
    }
}

#[inline(always)]
fn is_blank(c: u8) -> bool
    ensures { result ≡ blank c }
{
    (c == b' ') | (c == b'\t') | (c == b'\n') | (c == b'\r')
}

/// Whether a text begins with a brace, after blanks.
fn begins_object(text: &[u8]) -> bool
    ensures { result ≡ starts_object text.now }
{
    for byte in text {
        if !is_blank(*byte) {
            return *byte == b'{';
        }
    }
    false
}

/// The session number for a line that names none; none if the line is no object.
fn given_to(session: u32, line: &[u8]) -> Option<u32>
    ensures { result ≡ number_given session line.now }
{
    if begins_object(line) {
        Some(session)
    } else {
        None
    }
}

/// Reads a line of a session, given without its newline. An object that names no session has this
/// one.
pub fn read_as(
    alloc: Global,
    scratch: &mut Scratch,
    session: u32,
    line: &[u8],
) -> Result<(u32, Request), (u32, Fault)>
    requires { session ≢ 0 }
    ensures ok { IfOk result (λ said. ask_as session line.now ≡ Ok said) }
    ensures session { IfOk result (λ said. said.0 ≢ 0) }
    ensures refused { IfErr result (λ refusal. refusal.1.code ≢ MEMORY
        → ask_as session line.now ≡ Err refusal) }
    ensures memory { IfErr result (λ refusal. refusal.1.code ≡ MEMORY
        → refusal ≡ (0, out_of_memory)) }
    ensures needed { IfErr result (λ refusal. refusal.1.code ≡ MEMORY
        → takes_memory line.now ≡ true) }
    ensures long { longest_line < length line.now → ask_as session line.now ≡ result }
{
    read_or(alloc, scratch, line, given_to(session, line))
}

/// Reads a line. If it names no session, it has the one that is given.
#[inline(always)]
fn read_or(
    alloc: Global,
    scratch: &mut Scratch,
    line: &[u8],
    given: Option<u32>,
) -> Result<(u32, Request), (u32, Fault)>
    requires { ForSome given (λ n. n ≢ 0) }
    ensures ok { IfOk result (λ said. ask_or given line.now ≡ Ok said) }
    ensures session { IfOk result (λ said. said.0 ≢ 0) }
    ensures refused { IfErr result (λ refusal. refusal.1.code ≢ MEMORY
        → ask_or given line.now ≡ Err refusal) }
    ensures memory { IfErr result (λ refusal. refusal.1.code ≡ MEMORY
        → refusal ≡ (0, out_of_memory)) }
    ensures needed { IfErr result (λ refusal. refusal.1.code ≡ MEMORY
        → takes_memory line.now ≡ true) }
    ensures long { longest_line < length line.now → ask_or given line.now ≡ result }
{
    if line.len() <= LONGEST_KEPT {
        read_within(alloc, scratch, line, given)
    } else {
        read_long(alloc, line, given)
    }
}

/// Reads a long line with memory of its own.
#[inline(never)]
fn read_long(alloc: Global, line: &[u8], given: Option<u32>) -> Result<(u32, Request), (u32, Fault)>
    requires { ForSome given (λ n. n ≢ 0) }
    ensures ok { IfOk result (λ said. ask_or given line.now ≡ Ok said) }
    ensures session { IfOk result (λ said. said.0 ≢ 0) }
    ensures refused { IfErr result (λ refusal. refusal.1.code ≢ MEMORY
        → ask_or given line.now ≡ Err refusal) }
    ensures memory { IfErr result (λ refusal. refusal.1.code ≡ MEMORY
        → refusal ≡ (0, out_of_memory)) }
    ensures needed { IfErr result (λ refusal. refusal.1.code ≡ MEMORY
        → takes_memory line.now ≡ true) }
    ensures long { longest_line < length line.now → ask_or given line.now ≡ result }
{
    if line.len() > LONGEST_LINE {
        return Err((0, placeless(Fault::LONG_LINE)));
    }
    read_within(alloc, &mut Scratch::new(alloc), line, given)
}

/// Reads a line that is not too long. It is not inlined into its callers, so their frames stay
/// small.
#[inline(never)]
fn read_within(
    alloc: Global,
    scratch: &mut Scratch,
    line: &[u8],
    given: Option<u32>,
) -> Result<(u32, Request), (u32, Fault)>
    requires given { ForSome given (λ n. n ≢ 0) }
    requires short { length line.now ≤ longest_line }
    ensures ok { IfOk result (λ said. ask_or given line.now ≡ Ok said) }
    ensures session { IfOk result (λ said. said.0 ≢ 0) }
    ensures refused { IfErr result (λ refusal. refusal.1.code ≢ MEMORY
        → ask_or given line.now ≡ Err refusal) }
    ensures memory { IfErr result (λ refusal. refusal.1.code ≡ MEMORY
        → refusal ≡ (0, out_of_memory)) }
    ensures needed { IfErr result (λ refusal. refusal.1.code ≡ MEMORY
        → takes_memory line.now ≡ true) }
{
    let mut fields = Line::new();
    if let Err(fault) = read_json(alloc, scratch, line, &mut fields) {
        return Err((0, fault));
    }
    read_fields(alloc, &mut fields, given)
}

/// Reads the fields of a line that is JSON, or says why it is not.
#[inline(always)]
fn read_json<'a>(
    alloc: Global,
    scratch: &'a mut Scratch,
    line: &'a [u8],
    fields: &mut Line<'a>,
) -> Result<(), Fault>
    ensures text { OnOk result (IsUtf8 line.now) }
    ensures ok { IsNew fields.old → OnOk result (IsReadAt line.now (view fields.new)) }
    ensures refused { IfErr result (λ fault. fault.code ≢ MEMORY
        → (fault ≡ placeless NOT_JSON) × (IsUtf8 line.now → read_text line.now ≡ None)) }
    ensures memory { IfErr result (λ fault. fault.code ≡ MEMORY
        → (fault ≡ out_of_memory) × (may_take line.now ≡ true)) }
{
    let Ok(text) = str::from_utf8(line) else {
        return Err(placeless(Fault::NOT_JSON));
    };
    match ctf_json::read_line(alloc, text, scratch, fields) {
        Ok(()) => Ok(()),
        Err(NotRead::NotJson) => Err(placeless(Fault::NOT_JSON)),
        Err(NotRead::Memory) => Err(placeless(Fault::MEMORY)),
    }
}

#[inline(always)]
fn read_fields(
    alloc: Global,
    line: &mut Line<'_>,
    given: Option<u32>,
) -> Result<(u32, Request), (u32, Fault)>
    requires { ForSome given (λ n. n ≢ 0) }
    ensures ok { IfOk result (λ said. value_asked_or given (Some (view line.old)) ≡ Ok said) }
    ensures session { IfOk result (λ said. said.0 ≢ 0) }
    ensures refused { IfErr result (λ refusal. refusal.1.code ≢ MEMORY
        → value_asked_or given (Some (view line.old)) ≡ Err refusal) }
    ensures memory { IfErr result (λ refusal. refusal.1.code ≡ MEMORY
        → refusal ≡ (0, placeless MEMORY)) }
    ensures needed { IfErr result (λ refusal. refusal.1.code ≡ MEMORY
        → word_keeps_text (word_asked (view line.old)) ≡ true) }
{
    let Some(session) = session_of(line, given) else {
        return Err((0, placeless(Fault::BAD_REQUEST)));
    };
    let Some(word) = word(line) else {
        return Err((session, placeless(Fault::BAD_REQUEST)));
    };
    match read_word(alloc, line, word) {
        Ok(Some(request)) => Ok((session, request)),
        Ok(None) => Err((session, placeless(Fault::BAD_REQUEST))),
        Err(AllocError) => Err((0, placeless(Fault::MEMORY))),
    }
}

/// The session number of a line, or the given one if it names none.
#[inline(always)]
fn session_of(line: &Line<'_>, given: Option<u32>) -> Option<u32>
    requires { ForSome given (λ n. n ≢ 0) }
    ensures number { result ≡ number_or given (view line.now) }
    ensures named { IfSome result (λ n. n ≢ 0) }
{
    match get(line, "s") {
        Some(number) => Some(number_within(&number, 1, u64::from(u32::MAX))? as u32),
        None => given,
    }
}

/// The word of a line.
#[inline(always)]
fn word(line: &Line<'_>) -> Option<Word>
    ensures { result ≡ word_asked (view line.now) }
{
    word_of(text(line, "op")?)
}

/// The request of a word, with its fields. The most frequent words have functions of their own.
#[inline(always)]
fn read_word(alloc: Global, line: &mut Line<'_>, word: Word) -> Result<Option<Request>, AllocError>
    ensures ok { IfOk result (λ request. request ≡ asked_with (view line.old) word) }
    ensures needed { OnErr result (keeps_text word ≡ true) }
{
    match word {
        Word::Plain(question) => Ok(about_type(line, Some(TypeQuestion::Plain(question)))),
        Word::Find => read_find(alloc, line),
        Word::Symbol => read_symbol(alloc, line),
        Word::Reset => Ok(Some(Request::Changes(Change::Reset))),
        _ => read_other(alloc, line, word),
    }
}

#[inline(never)]
fn read_other(alloc: Global, line: &mut Line<'_>, word: Word) -> Result<Option<Request>, AllocError>
    ensures ok { IfOk result (λ request. request ≡ asked_with (view line.old) word) }
    ensures needed { OnErr result (keeps_text word ≡ true) }
{
    match word {
        Word::Part => read_part(alloc, line),
        Word::Publish => publish(alloc, line),
        Word::Withdraw => withdraw(alloc, line),
        Word::Take => take(alloc, line),
        Word::Create => create(alloc, line),
        Word::Add => add(alloc, line),
        Word::Find => read_find(alloc, line),
        Word::Path => path(alloc, line),
        Word::Show => read_show(alloc, line),
        Word::Symbol => read_symbol(alloc, line),
        Word::Label => read_label(alloc, line),
        _ => Ok(read_numbers(line, word)),
    }
}

/// What a word asks of which no text of the line is kept.
#[inline(always)]
fn read_numbers(line: &Line<'_>, word: Word) -> Option<Request>
    ensures { keeps_text word ≡ false → result ≡ asked_with (view line.now) word }
{
    match word {
        Word::Check => Some(Request::Changes(Change::Check)),
        Word::Open => open(line),
        Word::Clear => Some(Request::Changes(Change::Clear)),
        Word::Reset => Some(Request::Changes(Change::Reset)),
        Word::Close => close(line),
        Word::Import => import(line),
        Word::Update => update(line),
        Word::Discard => discard(line),
        Word::Plain(question) => about_type(line, Some(TypeQuestion::Plain(question))),
        Word::Members => about_members(line),
        Word::Enumerators => about_enumerators(line),
        Word::Object => about_object(line),
        Word::Function => about_function(line),
        Word::Labels => about_labels(line),
        Word::Held(question) => about_held(line, Some(question)),
        Word::Bytes => about_bytes(line),
        _ => None,
    }
}
