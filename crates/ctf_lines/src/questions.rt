//! Reads questions to a slot.
ghost use Rattle.std.specs.Prelude.{◌≡◌, IfOk, codes, option_map, option_and_then};
ghost use Rattle.ctf_json.specs.Values.{line_data as view};
ghost use Rattle.ctf_protocol.specs.lines.Ask.{about_type as type_question_asked, about_slot as slot_question_asked, about_held as held_question_asked, bytes_asked, symbol_asked, show_asked, names_asked, asked_with};
ghost use Rattle.ctf_protocol.specs.lines.LineFields.{name_under as name_asked, window_asked};
ghost use Rattle.ctf_protocol.specs.declared.questions.Question.TheVariants as asked;
ghost use Rattle.ctf_protocol.specs.declared.questions.SlotQuestion.TheVariants as whole;
ghost use Rattle.ctf_protocol.specs.declared.questions.TypeQuestion.TheVariants as about;
ghost use Rattle.ctf_protocol.specs.declared.requests.Request.TheVariants as request;
ghost use Rattle.ctf_protocol.specs.declared.words.Word.TheVariants as word;

use crate::field_values::{name_under, number, slot, text, type_number, window};
use crate::spelling::{names, piece};
use ctf_json::{Line, take_names};
use ctf_protocol::{
    HeldQuestion, Names, Question, Request, SlotNumber, SlotQuestion, TypeNum, TypeQuestion,
};
use std::alloc::{AllocError, Global};

#[inline(never)]
pub(crate) fn read_find(alloc: Global, line: &Line<'_>) -> Result<Option<Request>, AllocError>
    ensures { IfOk result (λ request. request ≡ asked_with (view line.now) word.Find) }
{
    Ok(about_slot(line, find(alloc, line)?))
}

#[inline(never)]
pub(crate) fn read_symbol(alloc: Global, line: &Line<'_>) -> Result<Option<Request>, AllocError>
    ensures { IfOk result (λ request. request ≡ asked_with (view line.now) word.Symbol) }
{
    Ok(about_slot(line, symbol(alloc, line)?))
}

#[inline(always)]
pub(crate) fn read_show(alloc: Global, line: &Line<'_>) -> Result<Option<Request>, AllocError>
    ensures { IfOk result (λ request. request ≡ asked_with (view line.now) word.Show) }
{
    Ok(about_type(line, show(alloc, line)?))
}

#[inline(always)]
pub(crate) fn read_label(alloc: Global, line: &Line<'_>) -> Result<Option<Request>, AllocError>
    ensures { IfOk result (λ request. request ≡ asked_with (view line.now) word.Label) }
{
    Ok(about_slot(line, label(alloc, line)?))
}

#[inline(always)]
pub(crate) fn about_members(line: &Line<'_>) -> Option<Request>
    ensures { result ≡ asked_with (view line.now) word.Members }
{
    about_type(line, members(line))
}

#[inline(always)]
pub(crate) fn about_enumerators(line: &Line<'_>) -> Option<Request>
    ensures { result ≡ asked_with (view line.now) word.Enumerators }
{
    about_type(line, enumerators(line))
}

#[inline(always)]
pub(crate) fn about_object(line: &Line<'_>) -> Option<Request>
    ensures { result ≡ asked_with (view line.now) word.Object }
{
    about_slot(line, object(line))
}

#[inline(always)]
pub(crate) fn about_function(line: &Line<'_>) -> Option<Request>
    ensures { result ≡ asked_with (view line.now) word.Function }
{
    about_slot(line, function(line))
}

#[inline(always)]
pub(crate) fn about_labels(line: &Line<'_>) -> Option<Request>
    ensures { result ≡ asked_with (view line.now) word.Labels }
{
    about_slot(line, labels(line))
}

#[inline(always)]
pub(crate) fn about_bytes(line: &Line<'_>) -> Option<Request>
    ensures { result ≡ asked_with (view line.now) word.Bytes }
{
    about_held(line, bytes(line))
}

fn members(line: &Line<'_>) -> Option<TypeQuestion>
    ensures { result ≡ option_map (λ window. about.Members window) (window_asked (view line.now)) }
{
    Some(TypeQuestion::Members(window(line)?))
}

fn enumerators(line: &Line<'_>) -> Option<TypeQuestion>
    ensures { result
        ≡ option_map (λ window. about.Enumerators window) (window_asked (view line.now)) }
{
    Some(TypeQuestion::Enumerators(window(line)?))
}

/// The request of `path`, whose names are taken out of the line.
pub(crate) fn path(alloc: Global, line: &mut Line<'_>) -> Result<Option<Request>, AllocError>
    ensures { IfOk result (λ request. request ≡ asked_with (view line.old) word.Path) }
{
    let d = slot(line);
    let t = type_number(line);
    let names = names_under(alloc, line)?;
    Ok(path_along(d, t, names))
}

/// A path from a type of a slot along names, if all three are valid.
fn path_along(d: Option<SlotNumber>, t: Option<TypeNum>, names: Option<Names>) -> Option<Request>
    ensures { result
        ≡ option_and_then (λ question. option_and_then (λ d. option_map (λ t.
        request.Asks d (asked.OfType t question)) t) d)
        (option_map (λ names. about.Path names) names) }
{
    let names = names?;
    let d = d?;
    let t = t?;
    Some(Request::Asks {
        d,
        question: Question::OfType {
            t,
            question: TypeQuestion::Path(names),
        },
    })
}

/// The names of a field, which are taken out of the line.
fn names_under(alloc: Global, line: &mut Line<'_>) -> Result<Option<Names>, AllocError>
    ensures { IfOk result (λ names. names ≡ names_asked (view line.old)) }
{
    match take_names(line) {
        Some(texts) => names(alloc, texts),
        None => Ok(None),
    }
}

/// The memory of a value, and the bit at which it begins.
fn show(alloc: Global, line: &Line<'_>) -> Result<Option<TypeQuestion>, AllocError>
    ensures { IfOk result (λ question. question ≡ show_asked (view line.now)) }
{
    let Some(offset) = number(line, "offset", 0, u64::MAX) else {
        return Ok(None);
    };
    let Some(digits) = text(line, "bytes") else {
        return Ok(None);
    };
    match piece(alloc, digits)? {
        Some(memory) => Ok(Some(TypeQuestion::Show { memory, offset })),
        None => Ok(None),
    }
}

#[inline(always)]
fn find(alloc: Global, line: &Line<'_>) -> Result<Option<SlotQuestion>, AllocError>
    ensures { IfOk result (λ question. question
        ≡ option_map (λ written. whole.Find written)
        (name_asked (codes "text") (view line.now))) }
{
    match name_under(alloc, line, "text")? {
        Some(written) => Ok(Some(SlotQuestion::Find(written))),
        None => Ok(None),
    }
}

#[inline(always)]
fn symbol(alloc: Global, line: &Line<'_>) -> Result<Option<SlotQuestion>, AllocError>
    ensures { IfOk result (λ question. question
        ≡ option_map (λ name. whole.Symbol name) (name_asked (codes "name") (view line.now))) }
{
    match name_under(alloc, line, "name")? {
        Some(name) => Ok(Some(SlotQuestion::Symbol(name))),
        None => Ok(None),
    }
}

fn label(alloc: Global, line: &Line<'_>) -> Result<Option<SlotQuestion>, AllocError>
    ensures { IfOk result (λ question. question
        ≡ option_map (λ name. whole.Label name) (name_asked (codes "name") (view line.now))) }
{
    match name_under(alloc, line, "name")? {
        Some(name) => Ok(Some(SlotQuestion::Label(name))),
        None => Ok(None),
    }
}

/// The number of a symbol.
fn symbol_number(line: &Line<'_>) -> Option<u32>
    ensures { result ≡ symbol_asked (view line.now) }
{
    Some(number(line, "sym", 0, u64::from(u32::MAX))? as u32)
}

fn object(line: &Line<'_>) -> Option<SlotQuestion>
    ensures { result ≡ option_map (λ number. whole.Object number) (symbol_asked (view line.now)) }
{
    Some(SlotQuestion::Object(symbol_number(line)?))
}

fn function(line: &Line<'_>) -> Option<SlotQuestion>
    ensures { result
        ≡ option_map (λ number. whole.Function number) (symbol_asked (view line.now)) }
{
    Some(SlotQuestion::Function(symbol_number(line)?))
}

fn labels(line: &Line<'_>) -> Option<SlotQuestion>
    ensures { result ≡ option_map (λ window. whole.Labels window) (window_asked (view line.now)) }
{
    Some(SlotQuestion::Labels(window(line)?))
}

/// A question on the types, symbols or labels of a slot, if its own fields are valid.
#[inline(always)]
fn about_slot(line: &Line<'_>, question: Option<SlotQuestion>) -> Option<Request>
    ensures { result ≡ slot_question_asked question (view line.now) }
{
    let question = question?;
    let d = slot(line)?;
    Some(Request::Asks {
        d,
        question: Question::OfSlot(question),
    })
}

/// The bytes of a dictionary that are asked for: the first, and at most how many.
fn bytes(line: &Line<'_>) -> Option<HeldQuestion>
    ensures { result ≡ bytes_asked (view line.now) }
{
    let from = number(line, "from", 0, u64::from(u32::MAX))?;
    let count = number(line, "count", 0, 1_048_576)?;
    Some(HeldQuestion::Bytes {
        from: from as u32,
        count: count as u32,
    })
}

/// A question on what a slot has, if its own fields are valid.
pub(crate) fn about_held(line: &Line<'_>, question: Option<HeldQuestion>) -> Option<Request>
    ensures { result ≡ held_question_asked question (view line.now) }
{
    let question = question?;
    let d = slot(line)?;
    Some(Request::Asks {
        d,
        question: Question::OfHeld(question),
    })
}

/// A question on a type of a slot, if its own fields are valid.
#[inline(always)]
pub(crate) fn about_type(line: &Line<'_>, question: Option<TypeQuestion>) -> Option<Request>
    ensures { result ≡ type_question_asked question (view line.now) }
{
    let question = question?;
    let d = slot(line)?;
    let t = type_number(line)?;
    Some(Request::Asks {
        d,
        question: Question::OfType { t, question },
    })
}
