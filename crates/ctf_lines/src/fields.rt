//! The fields of an answer.
ghost use Rattle.std.specs.Prelude.{◌≡◌, [], ◌∷◌, map};
ghost use Rattle.ctf_model.specs.dumps.Texts.{with_commas};
ghost use Rattle.ctf_protocol.specs.lines.ReplyLines.{list_text, field_text, json_text};
ghost use Rattle.ctf_answers.specs.AnswerContent.{entry_view};
ghost use Rattle.ctf_answers.specs.Fields.{field_of, value_of};

use crate::info_fields::put_info;
use crate::series::{Series, put_series};
use crate::singles::{put_key, put_quoted, put_single};
use crate::text_sinks::TextSink;
use ctf_answers::{Answer, Field, ItemWindow, KeyedValue, Value};

/// Writes the items of a list.
fn put_list<P: TextSink>(sink: &mut P, items: &ItemWindow<'_>)
    ensures { P.Took sink.old (list_text items.now) sink.new }
{
    sink.put_one(b'[');
    put_series(sink, items);
    sink.put_one(b']');
}

/// Writes a field's value.
fn put_value<P: TextSink>(sink: &mut P, value: Value<'_, '_>)
    ensures { P.Took sink.old (json_text (value_of value.entry)) sink.new }
{
    match value {
        Value::One(value) => put_single(sink, &value),
        Value::Many(items) => put_list(sink, items),
        Value::Made(text) => put_quoted(sink, text),
    }
}

/// Writes a field.
fn put_field<P: TextSink>(sink: &mut P, field: Field<'_, '_>)
    ensures { P.Took sink.old (field_text (field_of field.entry)) sink.new }
{
    put_key(sink, field.key);
    put_value(sink, field.value);
}

/// The fields of an answer.
#[derive(Clone, Copy)]
struct Fields<'a, 'b> {
    answer: &'b Answer<'a>,
}

impl<'a, 'b> Series for Fields<'a, 'b> {
    ghost use Rattle.std.specs.Prelude.{map};
    ghost use Rattle.ctf_protocol.specs.lines.ReplyLines.{field_text};

    ghost texts = { λ fields. map field_text fields.answer.now };

    fn count(&self) -> usize {
        self.answer.len()
    }

    fn put_text<P: TextSink>(&self, sink: &mut P, index: usize) {
        put_field(sink, self.answer.get(index));
    }
}

/// Writes a field after which there is no other.
#[inline(always)]
fn put_only_field<P: TextSink>(sink: &mut P, field: &KeyedValue<'_>)
    ensures { P.Took sink.old (with_commas (field_text (entry_view field.now) ∷ [])) sink.new }
{
    put_key(sink, field.key);
    put_single(sink, &field.value);
}

/// Writes the fields of an answer.
pub fn put_fields<P: TextSink>(sink: &mut P, answer: &Answer<'_>)
    ensures { P.Took sink.old (with_commas (map field_text answer.now)) sink.new }
{
    if let Some(field) = answer.only_field() {
        return put_only_field(sink, &field);
    }
    match answer.as_info() {
        Some(told) => put_info(sink, &told),
        None => put_series(sink, &Fields { answer }),
    }
}
