//! Enums.
ghost use Rattle.std.specs.Prelude.{◌≡◌, ◌<◌, IfErr, OnOk, Ok};
ghost use Rattle.ctf_model.specs.values.Pieces.{piece};
ghost use Rattle.ctf_model.specs.values.Values.{enum_shown, name_of_value};
ghost use Rattle.ctf_print.specs.Placing.{first_with, shown_how};
ghost use Rattle.ctf_print.specs.ShowRules as rule;
ghost use Rattle.ctf_print.specs.ShowRules.{stated_size};
ghost use Rattle.ctf_print.specs.Written.{Refused, written};

use crate::integers::{put_signed, twos_complement};
use crate::numbers::{field, show_raw};
use crate::show_cache::ShowCache;
use crate::text::Text;
use ctf_model::{Fault, TypeNum};
use ctf_views::Enumerators;

/// Appends the name of the first enumerator with a value, whose position is known, or the value
/// itself. Only that name is read.
#[inline(never)]
fn put_name(
    enumerators: &Enumerators<'_>,
    place: Option<usize>,
    value: i64,
    out: &mut Text,
) -> Result<(), Fault>
    requires { place ≡ first_with value 0 enumerators.now }
    ensures ok { OnOk result
        (written out.old (piece (name_of_value enumerators.now value)) ≡ Ok out.new) }
    ensures err { IfErr result (Refused out.old (piece (name_of_value enumerators.now value))) }
{
    match place {
        Some(i) => out.put(enumerators.get(i).unwrap().name),
        None => put_signed(value, out),
    }
}

/// The size in bytes of an enum; that of an int if the record has none.
fn enum_size(said: Option<u64>) -> u64
    ensures size { result ≡ stated_size said }
    ensures some { 0 < result }
{
    match said {
        Some(size) if size > 0 => size,
        _ => 4,
    }
}

/// Appends an enum, by its number and the size in bytes in its record.
#[inline(always)]
pub fn show_enum(
    memory: &[u8],
    at: u128,
    number: TypeNum,
    said: Option<u64>,
    enumerators: &Enumerators<'_>,
    known: &mut ShowCache<'_>,
    out: &mut Text,
) -> Result<(), Fault>
    requires { shown_how known.old number.0 ≡ rule.enum said enumerators.now }
    ensures ok { OnOk result (written out.old
        (enum_shown memory.now at (stated_size said) enumerators.now) ≡ Ok out.new) }
    ensures err { IfErr result (Refused out.old
        (enum_shown memory.now at (stated_size said) enumerators.now)) }
    ensures kept { known.new ≡ known.old }
{
    let size = enum_size(said);
    if size > 8 {
        return show_raw(memory, at, size as u128 * 8, out);
    }
    let width = size as u16 * 8;
    match field(memory, at, width) {
        Ok(bits) => {
            let value = twos_complement(width, bits);
            let place = known.first_place(number, enumerators, value);
            put_name(enumerators, place, value, out)
        }
        Err(fault) => out.end(fault),
    }
}
