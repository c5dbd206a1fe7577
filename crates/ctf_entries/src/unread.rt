//! Symbols, and what is left of the sections with their entries.
ghost use Rattle.std.specs.Prelude.{◌≡◌, ◌≤◌, ◌+◌, ◌^◌, length, None};
ghost use Rattle.ctf_model.specs.symbols.Symbols.{considered_from, symbols_of};
ghost use Rattle.ctf_entries.specs.NamesView.{strings_of};
ghost use Rattle.ctf_entries.specs.Sound.{bad_place};

use crate::symbol_strings::SymbolNames;

/// Symbols that are numbered from `number` on, and what is left of the sections with their entries.
#[derive(Clone, Copy)]
pub(crate) struct Unread<'a> {
    pub sym: &'a [u8],
    pub names: SymbolNames<'a>,
    pub number: u64,
    pub objects: &'a [u8],
    pub functions: &'a [u8],
    ghost near: { number + length sym.now ≤ 2 ^ 63 },
    ghost sound: { bad_place (considered_from number (symbols_of (strings_of names) sym.now))
        functions.now ≡ None },
}
