//! A symbol of a program.
ghost use Rattle.std.specs.Prelude.{◌≡◌, ◌≤◌, length, true};
ghost use Rattle.ctf_model.specs.symbols.Symbols.{is_absolute_zero as absolute_zero, is_considered as considered, is_function as function, is_named as named, is_object as object, symbol_of};
ghost use Rattle.ctf_entries.specs.NamesView.{strings_of};
ghost use Rattle.ctf_entries.specs.SymbolView.{symbol, numbered_symbol};

use crate::marks::begins_mark;
use crate::symbol_strings::SymbolNames;
use ctf_sections::bytes::{u16_at, u32_at, u64_at};
use ctf_sections::up_to_zero;

/// A symbol, borrowed: where its name begins, its class (1 an object, 2 a function), its section
/// and its value.
#[derive(Clone, Copy)]
pub struct Symbol<'a> {
    /// The strings from its name on; empty if it has no name.
    text: &'a [u8],
    sort: u8,
    section: u16,
    value: u64,
}

impl<'a> Symbol<'a> {
    /// The symbol at the front of some bytes.
    pub fn read(bytes: &[u8], names: SymbolNames<'a>) -> Symbol<'a>
        requires { 24 ≤ length bytes.now }
        ensures { symbol result ≡ symbol_of (strings_of names.entry) bytes.now }
    {
        Symbol {
            text: names.from(u32_at(bytes, 0) as usize),
            sort: bytes[4] % 16,
            section: u16_at(bytes, 6),
            value: u64_at(bytes, 8),
        }
    }

    /// Its name. This reads the name to find its end.
    pub fn name(self) -> &'a [u8]
        ensures { result.now ≡ (symbol self.entry).name }
    {
        up_to_zero(self.text)
    }

    pub fn is_object(self) -> bool
        ensures { result ≡ object (symbol self.entry) }
    {
        self.sort == 1
    }

    pub fn is_function(self) -> bool
        ensures { result ≡ function (symbol self.entry) }
    {
        self.sort == 2
    }

    /// Whether it has a name of its own.
    #[tactic(auto, using(crate::proofs::NameFronts::no_name, crate::proofs::NameFronts::empty_name, crate::proofs::NameFronts::some_name))]
    fn is_named(self) -> bool
        ensures { result ≡ named (symbol self.entry) }
    {
        if self.text.is_empty() {
            return false;
        }
        if self.text[0] == 0 {
            return false;
        }
        !begins_mark(self.text)
    }

    /// Whether it is an absolute object with the value 0.
    fn is_absolute_zero(self) -> bool
        ensures { result ≡ absolute_zero (symbol self.entry) }
    {
        self.is_object() && self.section == 0xfff1 && self.value == 0
    }

    /// Whether a dictionary can have a type for it, if it has this number. Reads a few bytes of its
    /// name.
    #[inline(always)]
    #[tactic(auto, unfolding(ctf_model::specs::symbols::Symbols::is_considered))]
    pub fn is_considered(self, number: u64) -> bool
        ensures test { result ≡ considered (numbered_symbol number self.entry) }
        ensures small { result ≡ true → number ≤ 0xffffffff }
    {
        if number > 0xffff_ffff || self.section == 0 {
            return false;
        }
        if !self.is_object() && !self.is_function() {
            return false;
        }
        self.is_named() && !self.is_absolute_zero()
    }
}
