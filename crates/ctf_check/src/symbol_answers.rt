//! What an accepted dictionary says of the program's symbols.
ghost use Rattle.std.specs.Prelude.{◌≡◌, ◌<◌, ◌^◌, length, unwrap_or, [], None, option_copied};
ghost use Rattle.ctf_model.specs.format.Header.{section};
ghost use Rattle.ctf_model.specs.symbols.Symbols.{with_types, symbols_of};
ghost use Rattle.ctf_entries.specs.Sound.{bad_place};
ghost use Rattle.ctf_check.specs.CheckedView.{dictionary_of, lists_of};
ghost use Rattle.ctf_model.specs.declared.sections.Section.TheVariants.{SObjects, SFunctions};

use crate::checked::Checked;
use crate::symbols::table_of;
use ctf_entries::Entries;
use ctf_model::Section;

/// The bytes about symbols: the symbol table, empty if it is absent, its strings, and the sections
/// of objects and of functions.
#[derive(Clone, Copy)]
pub struct SymbolParts<'a> {
    pub sym: &'a [u8],
    pub strs: Option<&'a [u8]>,
    pub objects: &'a [u8],
    pub functions: &'a [u8],
}

impl<'a> Checked<'a> {
    /// The bytes about symbols.
    pub fn symbol_parts(&self) -> SymbolParts<'a>
        ensures sym { result.sym.now ≡ unwrap_or (lists_of self.now).sym [] }
        ensures strs { option_copied result.strs ≡ (lists_of self.now).strs }
        ensures objects { result.objects.now ≡ section (lists_of self.now).ctf SObjects }
        ensures functions { result.functions.now ≡ section (lists_of self.now).ctf SFunctions }
        ensures short_objects { length result.objects.now < 2 ^ 32 }
        ensures short_functions { length result.functions.now < 2 ^ 32 }
        // No function's entry is malformed.
        ensures sound { bad_place (with_types (symbols_of (option_copied result.strs)
            result.sym.now)) result.functions.now ≡ None }
    {
        let lists = self.lists();
        SymbolParts {
            sym: table_of(lists.sym),
            strs: lists.strs,
            objects: self.section(Section::SObjects),
            functions: self.section(Section::SFunctions),
        }
    }

    /// The considered symbols in order, and what the dictionary says of each. Names and arguments
    /// are borrowed.
    pub fn entries(&self) -> Entries<'a>
        ensures { result ≡ (dictionary_of self.now).entries }
    {
        let parts = self.symbol_parts();
        Entries::new(parts.sym, parts.strs, parts.objects, parts.functions)
    }
}
