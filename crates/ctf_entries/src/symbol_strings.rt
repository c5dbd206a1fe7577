//! The strings that have the names of symbols.
ghost use Rattle.std.specs.Prelude.{◌≡◌, drop, option_copied};
ghost use Rattle.std.specs.List.{before_first};
ghost use Rattle.ctf_model.specs.format.Name.{is_zero};
ghost use Rattle.ctf_model.specs.symbols.Symbols.{symbol_name};
ghost use Rattle.ctf_sections.specs.TableEnds.{EndsAt};

use ctf_sections::end_of_names;

/// The strings of a program, and the place after the last name in them; 0 if there are no strings.
#[derive(Clone, Copy)]
pub struct SymbolNames<'a> {
    strs: Option<&'a [u8]>,
    end: usize,
    ghost ends: { EndsAt (option_copied strs) end },
}

/// The bytes from an offset on, if it is inside.
fn behind(table: &[u8], offset: usize) -> &[u8]
    ensures { result.now ≡ drop offset table.now }
{
    if offset < table.len() {
        &table[offset..]
    } else {
        &[]
    }
}

impl<'a> SymbolNames<'a> {
    ghost use Rattle.ctf_entries.specs.NamesView.{strings_of};

    /// Finds the end of the last name once, so that no later call searches for the end of a name.
    pub fn new(strs: Option<&'a [u8]>) -> SymbolNames<'a>
        ensures { strings_of result ≡ option_copied strs.entry }
    {
        let end = match strs {
            Some(table) => end_of_names(table),
            None => 0,
        };
        SymbolNames { strs, end }
    }

    /// The strings from the name at an offset on; empty if there is no name. Takes constant time.
    pub(crate) fn from(self, offset: usize) -> &'a [u8]
        ensures { before_first is_zero result.now ≡ symbol_name (strings_of self.entry) offset }
    {
        if offset == 0 {
            return &[];
        }
        if offset >= self.end {
            return &[];
        }
        match self.strs {
            Some(table) => behind(table, offset),
            None => &[],
        }
    }
}
