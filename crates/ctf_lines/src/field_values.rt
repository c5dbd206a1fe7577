//! The values of fields that many requests have: numbers, texts, slots and types.
ghost use Rattle.std.specs.Prelude.{◌≡◌, ◌≤◌, IfSome, IfOk, option_map, option_and_then};
ghost use Rattle.serde_json.specs.Find.{as_number, as_u64};
ghost use Rattle.ctf_json.specs.Values.{line_data as view, value_data as value_view};
ghost use Rattle.ctf_protocol.specs.lines.LineFields.{in_range, number_in, text_in, slot_under as slot_named, slot_in, type_asked, name_under as name_asked, from_asked, count_asked, window_asked};

use crate::spelling::name;
use ctf_json::{Line, Value, as_str, as_u64, get};
use ctf_protocol::{Piece, SlotNumber, TypeNum, Window};
use std::alloc::{AllocError, Global};

/// The number that a value is, if it is in a range.
#[inline(always)]
pub(crate) fn number_within(value: &Value<'_, '_>, low: u64, high: u64) -> Option<u64>
    ensures number { result ≡ option_and_then (in_range low high)
        (option_and_then as_u64 (as_number (value_view value.now))) }
    ensures in_range { IfSome result (λ n. (low ≤ n) × (n ≤ high)) }
{
    let number = as_u64(value)?;
    if low <= number && number <= high {
        Some(number)
    } else {
        None
    }
}

/// The number of a field, if there is one and it is in its range.
#[inline(always)]
pub(crate) fn number(line: &Line<'_>, key: &str, low: u64, high: u64) -> Option<u64>
    ensures number { result ≡ number_in low high key.now (view line.now) }
    ensures in_range { IfSome result (λ n. (low ≤ n) × (n ≤ high)) }
{
    number_within(&get(line, key)?, low, high)
}

/// The text of a field.
#[inline(always)]
pub(crate) fn text<'a>(line: &Line<'a>, key: &str) -> Option<&'a str>
    ensures { option_map (λ s. s.now) result ≡ text_in key.now (view line.now) }
{
    as_str(&get(line, key)?)
}

/// The number of a slot, if the value is one.
#[inline(always)]
pub(crate) fn as_slot_number(value: &Value<'_, '_>) -> Option<SlotNumber>
    ensures { result ≡ option_and_then (in_range 1 4294967295)
        (option_and_then as_u64 (as_number (value_view value.now))) }
{
    let number = number_within(value, 0, u64::from(u32::MAX))?;
    SlotNumber::new(number as u32)
}

/// The number of a slot in a field.
#[inline(always)]
pub(crate) fn slot_under(line: &Line<'_>, key: &str) -> Option<SlotNumber>
    ensures { result ≡ slot_named key.now (view line.now) }
{
    as_slot_number(&get(line, key)?)
}

#[inline(always)]
pub(crate) fn slot(line: &Line<'_>) -> Option<SlotNumber>
    ensures { result ≡ slot_in (view line.now) }
{
    slot_under(line, "d")
}

#[inline(always)]
pub(crate) fn type_number(line: &Line<'_>) -> Option<TypeNum>
    ensures { result ≡ type_asked (view line.now) }
{
    let number = number(line, "t", 0, u64::from(u16::MAX))?;
    Some(TypeNum(number as u16))
}

/// The number of the first item; 0 if it is not stated.
fn from(line: &Line<'_>) -> Option<u32>
    ensures { result ≡ from_asked (view line.now) }
{
    match get(line, "from") {
        None => Some(0),
        Some(from) => Some(number_within(&from, 0, u64::from(u32::MAX))? as u32),
    }
}

/// The number of items; all if it is not stated.
fn count(line: &Line<'_>) -> Option<Option<u32>>
    ensures { result ≡ count_asked (view line.now) }
{
    match get(line, "count") {
        None => Some(None),
        Some(count) => Some(Some(number_within(&count, 0, u64::from(u32::MAX))? as u32)),
    }
}

#[inline(always)]
pub(crate) fn window(line: &Line<'_>) -> Option<Window>
    ensures { result ≡ window_asked (view line.now) }
{
    let from = from(line)?;
    let count = count(line)?;
    Some(Window { from, count })
}

/// The name that a field spells.
#[inline(always)]
pub(crate) fn name_under(
    alloc: Global,
    line: &Line<'_>,
    key: &str,
) -> Result<Option<Piece>, AllocError>
    ensures { IfOk result (λ name. name ≡ name_asked key.now (view line.now)) }
{
    match get(line, key) {
        Some(spelled) => name(alloc, &spelled),
        None => Ok(None),
    }
}
