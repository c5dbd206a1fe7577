//! Where the names of symbols are.
ghost use Rattle.std.specs.Prelude.{◌≡◌, Some, option_copied};
ghost use Rattle.ctf_model.specs.format.Lists.{Lists};
ghost use Rattle.ctf_model.specs.symbols.Symbols.{symbol_name};
ghost use Rattle.ctf_sections.specs.TableEnds.{EndsAt};
ghost use Rattle.ctf_c.specs.names.Places.{text_in};

use crate::names::places::{IN_STRINGS, NOWHERE, NamePosition};
use ctf_sections::end_of_names;

/// The place after the last name in a symbol table's strings.
pub fn names_end(strs: Option<&[u8]>) -> usize
    ensures { EndsAt (option_copied strs.entry) result }
{
    match strs {
        Some(table) => end_of_names(table),
        None => 0,
    }
}

/// Where the name of a symbol is, by its offset in strings whose last name ends at a place.
pub fn symbol_position(end: usize, offset: u32) -> NamePosition
    ensures { (s : Lists) → EndsAt s.strs end
        → text_in s result.list result.at ≡ Some (symbol_name s.strs offset) }
{
    let at = u64::from(offset);
    if at == 0 {
        return NamePosition { list: NOWHERE, at };
    }
    if end as u64 <= at {
        return NamePosition {
            list: NOWHERE,
            at: 0,
        };
    }
    NamePosition {
        list: IN_STRINGS,
        at,
    }
}
