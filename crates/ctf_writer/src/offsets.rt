//! Where names begin in a string section.
ghost use Rattle.std.specs.Prelude.{◌≡◌, ◌<◌, ◌≤◌, ℕ, List, true, length, drop, Some, None, IfOk, OnOk, if◌then◌else◌};
ghost use Rattle.std.specs.List.{before_first};
ghost use Rattle.std.specs.Map.{lookup};
ghost use Rattle.std.specs.Option.{option_or};
ghost use Rattle.std.specs.Str.{bytes_eq};
ghost use Rattle.ctf_model.specs.format.Name.{is_zero};
ghost use Rattle.ctf_writer.specs.Endings.{is_marked};
ghost use Rattle.ctf_writer.specs.TableNames.{is_name, names_within, place_from};

use crate::endings::Endings;
use ctf_sections::up_to_zero;
use indexmap::IndexMap;
use std::alloc::{AllocError, Global};

/// Notes where a name begins, if it has one of these endings and no earlier place is known.
fn note<'a>(
    offsets: &mut IndexMap<&'a [u8], u32>,
    endings: &Endings,
    name: &'a [u8],
    at: u32,
) -> Result<(), AllocError>
    ensures { OnOk result ((text : List ℕ) → is_marked endings.now text ≡ true
        → lookup (is_name text) offsets.new.entries
        ≡ option_or (lookup (is_name text) offsets.old.entries)
        (if bytes_eq text name.now then Some at else None)) }
{
    if !endings.has(name) {
        return Ok(());
    }
    if offsets.contains_key(name) {
        return Ok(());
    }
    let Ok(_) = offsets.insert(name, at) else {
        return Err(AllocError);
    };
    Ok(())
}

/// The name that begins at a place.
fn name_at(table: &[u8], at: usize) -> &[u8]
    requires { at < length table.now }
    ensures { result.now ≡ before_first is_zero (drop at table.now) }
{
    up_to_zero(&table[at..])
}

/// Where the names of a string section begin, of those with one of these endings.
pub(crate) fn offsets_in<'a>(
    alloc: Global,
    table: &'a [u8],
    endings: &Endings,
) -> Result<IndexMap<&'a [u8], u32>, AllocError>
    requires { length table.now ≤ 67108864 }
    ensures { IfOk result (λ offsets. (text : List ℕ) → is_marked endings.now text ≡ true
        → lookup (is_name text) offsets.entries ≡ place_from 1 (names_within table.now) text) }
{
    let mut offsets = IndexMap::new(alloc);
    let mut at = 1;
    'names: while at < table.len() {
        let name = name_at(table, at);
        note(&mut offsets, endings, name, at as u32)?;
        at += name.len() + 1;
    }
    Ok(offsets)
}

/// Where a name begins, if that is known.
pub(crate) fn offset_of(offsets: &IndexMap<&[u8], u32>, name: &[u8]) -> Option<u32>
    ensures { result ≡ lookup (is_name name.now) offsets.now.entries }
{
    if offsets.is_empty() {
        return None;
    }
    match offsets.get(name) {
        Some(at) => Some(*at),
        None => None,
    }
}
