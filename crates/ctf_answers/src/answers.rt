//! The answer to a request that is not refused.
ghost use Rattle.std.specs.Prelude.{◌≡◌, ◌≢◌, ◌<◌, [], ◌∷◌, codes, length, IfSome, None, Some, slice_get};
ghost use Rattle.ctf_protocol.specs.answers.Answers.{says, lists, number, truth, text as said_text};
ghost use Rattle.ctf_answers.specs.Singles.{single_of};
ghost use Rattle.ctf_answers.specs.Fields.{field_of};
ghost use Rattle.ctf_answers.specs.AnswerContent.{entry_view, fields_view};
ghost use Rattle.ctf_answers.specs.TypeFields.{record_view, info_view};

use crate::fields::{Field, Value};
use crate::item_lists::ItemWindow;
use crate::singles::{KeyedValue, Single};
use crate::type_fields::{InfoAnswer, RecordAnswer, field};
use crate::values::AnswerContent;
use ctf_protocol::Bytes;
use std::marker::Model;

/// The answer to a request that is not refused: at most eight fields, their keys in byte order.
#[derive(Drop)]
pub struct Answer<'a> {
    said: AnswerContent<'a>,
}

impl<'a> Model for Answer<'a> {
    ghost use Rattle.ctf_protocol.specs.answers.Answers.{Answer as SaidAnswer};
    ghost use Rattle.ctf_answers.specs.AnswerContent.{fields_view};

    ghost Value = { SaidAnswer };

    ghost view = { λ a. fields_view a.said };
}

fn entry<'a>(key: &'static str, value: Single<'a>) -> KeyedValue<'a>
    ensures { entry_view result ≡ says key.now (single_of value.entry) }
{
    KeyedValue { key, value }
}

impl<'a> Answer<'a> {
    /// An answer without fields, for success.
    pub fn of_success() -> Answer<'a>
        ensures { result ≡ [] }
    {
        Answer {
            said: AnswerContent::Done,
        }
    }

    /// An answer with a single value.
    pub fn one(key: &'static str, value: Single<'a>) -> Answer<'a>
        ensures { result ≡ says key.now (single_of value.entry) ∷ [] }
    {
        Answer {
            said: AnswerContent::One(entry(key, value)),
        }
    }

    /// An answer with two single values.
    pub fn two(
        key: &'static str,
        value: Single<'a>,
        key2: &'static str,
        value2: Single<'a>,
    ) -> Answer<'a>
        ensures { result ≡ says key.now (single_of value.entry)
            ∷ says key2.now (single_of value2.entry) ∷ [] }
    {
        Answer {
            said: AnswerContent::Two(entry(key, value), entry(key2, value2)),
        }
    }

    /// An answer with three single values.
    pub fn three(
        key: &'static str,
        value: Single<'a>,
        key2: &'static str,
        value2: Single<'a>,
        key3: &'static str,
        value3: Single<'a>,
    ) -> Answer<'a>
        ensures { result ≡ says key.now (single_of value.entry)
            ∷ says key2.now (single_of value2.entry) ∷ says key3.now (single_of value3.entry) ∷ [] }
    {
        Answer {
            said: AnswerContent::Three(entry(key, value), entry(key2, value2), entry(key3, value3)),
        }
    }

    /// Some items of a list, and how many the whole list has.
    pub fn window(key: &'static str, items: ItemWindow<'a>, total: u64) -> Answer<'a>
        ensures { result ≡ lists key.now items.entry ∷ says (codes "total") (number total) ∷ [] }
    {
        Answer {
            said: AnswerContent::Window { key, items, total },
        }
    }

    /// What a function takes and returns.
    pub fn signature(args: ItemWindow<'a>, ret: u64, varargs: bool) -> Answer<'a>
        ensures { result ≡ lists (codes "args") args.entry ∷ says (codes "return") (number ret)
            ∷ says (codes "varargs") (truth varargs) ∷ [] }
    {
        Answer {
            said: AnswerContent::Signature { args, ret, varargs },
        }
    }

    /// A type without its list.
    pub fn record_of(told: RecordAnswer<'a>) -> Answer<'a>
        ensures { result ≡ record_view told.entry }
    {
        Answer {
            said: AnswerContent::Record(told),
        }
    }

    /// The answer of `info`: what a dictionary has in all.
    pub fn info(told: InfoAnswer<'a>) -> Answer<'a>
        ensures { result ≡ info_view told.entry }
    {
        Answer {
            said: AnswerContent::Info(told),
        }
    }

    /// A text that was made for this answer.
    pub fn with_text(key: &'static str, text: Bytes) -> Answer<'a>
        ensures { result ≡ says key.now (said_text text) ∷ [] }
    {
        Answer {
            said: AnswerContent::Made { key, text },
        }
    }

    /// How many fields it has.
    pub fn len(&self) -> usize
        ensures { result ≡ length self.now }
    {
        match &self.said {
            AnswerContent::Done => 0,
            AnswerContent::One(_) => 1,
            AnswerContent::Made { .. } => 1,
            AnswerContent::Two(_, _) => 2,
            AnswerContent::Window { .. } => 2,
            AnswerContent::Three(_, _, _) => 3,
            AnswerContent::Signature { .. } => 3,
            AnswerContent::Record(told) => told.len(),
            AnswerContent::Info(_) => 8,
        }
    }

    /// The answer of `info`, if this is one.
    pub fn as_info(&self) -> Option<InfoAnswer<'a>>
        ensures info { IfSome result (λ told. self.now ≡ info_view told) }
        ensures none { result ≡ None → length self.now ≢ 8 }
    {
        match &self.said {
            AnswerContent::Info(told) => Some(*told),
            _ => None,
        }
    }

    /// The only field, if it has just one.
    pub fn only_field(&self) -> Option<KeyedValue<'_>>
        ensures field { IfSome result (λ field. self.now ≡ entry_view field ∷ []) }
        ensures none { result ≡ None → length self.now ≢ 1 }
    {
        match &self.said {
            AnswerContent::One(entry) => Some(*entry),
            AnswerContent::Made { key, text } => Some(entry(*key, Single::Text(text.as_slice()))),
            _ => None,
        }
    }

    /// The field with a number, from 0.
    pub fn get<'b>(&'b self, index: usize) -> Field<'a, 'b>
        requires { index < length self.now }
        ensures { Some (field_of result) ≡ slice_get self.now index }
    {
        match &self.said {
            AnswerContent::Done => return field("", Single::Number(0)),
            AnswerContent::One(a) => return field(a.key, a.value),
            AnswerContent::Two(a, b) => return pick_two(*a, *b, index),
            AnswerContent::Three(a, b, c) => return pick_three(*a, *b, *c, index),
            AnswerContent::Window { key, items, total } => return pick_window(
                *key, items, *total, index,
            ),
            AnswerContent::Signature { args, ret, varargs } => {
                return pick_signature(args, *ret, *varargs, index);
            }
            AnswerContent::Record(told) => return told.get(index),
            AnswerContent::Info(told) => return told.get(index),
            AnswerContent::Made { key, text } => return made_field(*key, text),
        }
    }
}

fn list_field<'a, 'b>(key: &'static str, items: &'b ItemWindow<'a>) -> Field<'a, 'b>
    ensures { field_of result ≡ lists key.now items.now }
{
    Field {
        key,
        value: Value::Many(items),
    }
}

fn made_field<'a, 'b>(key: &'static str, text: &'b Bytes) -> Field<'a, 'b>
    ensures { field_of result ≡ says key.now (said_text text.now) }
{
    Field {
        key,
        value: Value::Made(text.as_slice()),
    }
}

fn pick_two<'a, 'b>(a: KeyedValue<'a>, b: KeyedValue<'a>, index: usize) -> Field<'a, 'b>
    requires { index < 2 }
    ensures { Some (field_of result)
        ≡ slice_get (entry_view a.entry ∷ entry_view b.entry ∷ []) index }
{
    match index {
        0 => field(a.key, a.value),
        _ => field(b.key, b.value),
    }
}

fn pick_three<'a, 'b>(
    a: KeyedValue<'a>,
    b: KeyedValue<'a>,
    c: KeyedValue<'a>,
    index: usize,
) -> Field<'a, 'b>
    requires { index < 3 }
    ensures { Some (field_of result)
        ≡ slice_get (entry_view a.entry ∷ entry_view b.entry ∷ entry_view c.entry ∷ []) index }
{
    match index {
        0 => field(a.key, a.value),
        1 => field(b.key, b.value),
        _ => field(c.key, c.value),
    }
}

fn pick_window<'a, 'b>(
    key: &'static str,
    items: &'b ItemWindow<'a>,
    total: u64,
    index: usize,
) -> Field<'a, 'b>
    requires { index < 2 }
    ensures { Some (field_of result) ≡ slice_get
        (lists key.now items.now ∷ says (codes "total") (number total) ∷ []) index }
{
    if index == 0 {
        return list_field(key, items);
    }
    field("total", Single::Number(total))
}

fn pick_signature<'a, 'b>(
    args: &'b ItemWindow<'a>,
    ret: u64,
    varargs: bool,
    index: usize,
) -> Field<'a, 'b>
    requires { index < 3 }
    ensures { Some (field_of result) ≡ slice_get (lists (codes "args") args.now
        ∷ says (codes "return") (number ret) ∷ says (codes "varargs") (truth varargs) ∷ []) index }
{
    if index == 0 {
        return list_field("args", args);
    }
    if index == 1 {
        return field("return", Single::Number(ret));
    }
    field("varargs", Single::Truth(varargs))
}
