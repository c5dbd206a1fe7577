//! Look-ups in a line, as serde_json has them for its values.
ghost use Rattle.std.specs.Prelude.{◌≡◌, MatchOption, Some, codes, option_map, option_and_then};
ghost use Rattle.serde_json.specs.Find.{get as found_under, as_array as array_said, as_bool as truth_said, as_i64 as signed_said, as_number as number_data, as_str as text_data, as_u64 as unsigned_said};
ghost use Rattle.serde_json.specs.View.{number_view};
ghost use Rattle.serde_json.specs.Data.{object};
ghost use Rattle.ctf_joined.specs.Joined.{texts};
ghost use Rattle.ctf_json.specs.Values.{keys, line_data, members_data, numbers_data, texts_data, value_data};

use crate::keys::{place_of, wanted_list};
use crate::line::Line;
use crate::numbers::{natural, number};
use crate::values::{Field, Value};
use crate::wanted::Wanted;
use ctf_joined::Joined;
use ctf_model::TypeNum;
use serde_json::Number;

/// The value at a key.
#[inline(always)]
pub fn get<'v, 'a>(line: &'v Line<'a>, key: &str) -> Option<Value<'v, 'a>>
    ensures { option_map value_data result ≡ found_under key.now (line_data line.now) }
{
    match list_of(line, key) {
        Some(list) => Some(list),
        None => plain_value(line, key),
    }
}

/// The list at a key, if there is one.
#[inline(always)]
fn list_of<'v, 'a>(line: &'v Line<'a>, key: &str) -> Option<Value<'v, 'a>>
    ensures { MatchOption result
        (found_under key.now (object (members_data keys line.now.fields.all))
        ≡ found_under key.now (line_data line.now))
        (λ list. Some (value_data list) ≡ found_under key.now (line_data line.now)) }
{
    match wanted_list(key) {
        Wanted::Texts => match &line.names {
            Some(texts) => Some(Value::Texts(texts)),
            None => None,
        },
        Wanted::Numbers => match &line.args {
            Some(numbers) => Some(Value::Numbers(numbers.as_slice())),
            None => None,
        },
        Wanted::Nothing => None,
    }
}

/// The value at a key, if it is no list.
#[inline(always)]
fn plain_value<'v, 'a>(line: &'v Line<'a>, key: &str) -> Option<Value<'v, 'a>>
    ensures { option_map value_data result
        ≡ found_under key.now (object (members_data keys line.now.fields.all)) }
{
    let place = place_of(key)?;
    match line.fields.all[place] {
        Some(field) => Some(Value::Field(field)),
        None => None,
    }
}

pub fn as_str<'a>(value: &Value<'_, 'a>) -> Option<&'a str>
    ensures { option_map (λ s. s.now) result ≡ text_data (value_data value.now) }
{
    match value {
        Value::Field(Field::String(text)) => Some(*text),
        _ => None,
    }
}

pub fn as_bool(value: &Value<'_, '_>) -> Option<bool>
    ensures { result ≡ truth_said (value_data value.now) }
{
    match value {
        Value::Field(Field::Bool(truth)) => Some(*truth),
        _ => None,
    }
}

fn as_number(value: &Value<'_, '_>) -> Option<Number>
    ensures { option_map number_view result ≡ number_data (value_data value.now) }
{
    match value {
        Value::Field(Field::Number(text)) => number(text),
        _ => None,
    }
}

#[inline(always)]
pub fn as_u64(value: &Value<'_, '_>) -> Option<u64>
    ensures { result ≡ option_and_then unsigned_said (number_data (value_data value.now)) }
{
    match value {
        Value::Field(Field::Number(text)) => natural(text),
        _ => None,
    }
}

pub fn as_i64(value: &Value<'_, '_>) -> Option<i64>
    ensures { result ≡ option_and_then signed_said (number_data (value_data value.now)) }
{
    as_number(value)?.as_i64()
}

/// The names of a line, if they are a list of texts. They are taken out of the line.
pub fn take_names(line: &mut Line<'_>) -> Option<Joined>
    ensures { option_map (λ names. texts_data (texts names)) result
        ≡ option_and_then array_said (found_under (codes "names") (line_data line.old)) }
{
    line.names.take()
}

/// The types of a line's arguments, if they are a list of 16-bit numbers. They are taken out of the
/// line.
pub fn take_args(line: &mut Line<'_>) -> Option<Vec<TypeNum>>
    ensures { option_map (λ args. numbers_data args.items) result
        ≡ option_and_then array_said (found_under (codes "args") (line_data line.old)) }
{
    line.args.take()
}
