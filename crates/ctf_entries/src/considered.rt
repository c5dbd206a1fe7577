//! The considered symbols of a program: those for which a dictionary can have types.
ghost use Rattle.std.specs.Prelude.{◌≡◌, ◌≤◌, ◌+◌, ◌^◌, length, drop, [], ◌∷◌, MatchOption, IfSome};
ghost use Rattle.std.specs.Iterator.{YieldsFirstBy, item_count};
ghost use Rattle.ctf_model.specs.symbols.Symbols.{with_types, considered_from, symbols_of};
ghost use Rattle.ctf_entries.specs.NamesView.{strings_of};
ghost use Rattle.ctf_entries.specs.SymbolView.{number_and_symbol};

use crate::ahead::read_ahead;
use crate::symbol::Symbol;
use crate::symbol_strings::SymbolNames;
use std::marker::Model;

/// A symbol with its number, from 0.
#[derive(Clone, Copy)]
pub struct Numbered<'a> {
    pub number: u32,
    pub symbol: Symbol<'a>,
}

/// A considered symbol, and the symbols after it.
#[derive(Drop)]
pub(crate) struct FirstSymbol<'a> {
    pub first: Numbered<'a>,
    pub behind: &'a [u8],
}

/// The symbols after the first one.
pub(crate) fn behind_first(sym: &[u8]) -> &[u8]
    requires { 24 ≤ length sym.now }
    ensures { result.now ≡ drop 24 sym.now }
{
    let (_, behind) = sym.split_at(24);
    behind
}

/// The first considered symbol, among symbols that are numbered from `number` on.
#[inline(always)]
pub(crate) fn first_considered<'a>(
    sym: &'a [u8],
    names: SymbolNames<'a>,
    number: u64,
) -> Option<FirstSymbol<'a>>
    requires near { number + length sym.now ≤ 2 ^ 63 }
    ensures near { IfSome result (λ f. f.first.number + 1 + length f.behind.now ≤ 2 ^ 63) }
    ensures first { MatchOption result
        (considered_from number (symbols_of (strings_of names.entry) sym.now) ≡ [])
        (λ f. considered_from number (symbols_of (strings_of names.entry) sym.now)
        ≡ number_and_symbol f.first ∷ considered_from (f.first.number + 1)
        (symbols_of (strings_of names.entry) f.behind.now)) }
{
    let mut rest = sym;
    let mut number = number;
    'symbols: while rest.len() >= 24 {
        let symbol = Symbol::read(rest, names);
        let behind = behind_first(rest);
        if symbol.is_considered(number) {
            let first = Numbered {
                number: number as u32,
                symbol,
            };
            return Some(FirstSymbol { first, behind });
        }
        rest = behind;
        number += 1;
    }
    None
}

/// The remaining considered symbols.
#[derive(Drop)]
pub struct Considered<'a> {
    sym: &'a [u8],
    names: SymbolNames<'a>,
    number: u64,
    read_until: u64,
}

impl<'a> Model for Considered<'a> {
    ghost use Rattle.std.specs.Prelude.{◌≤◌, ◌+◌, ◌^◌, ℕ, List, length};
    ghost use Rattle.ctf_model.specs.symbols.Symbols.{Symbol as SaidSymbol, considered_from, symbols_of};
    ghost use Rattle.ctf_entries.specs.NamesView.{strings_of};

    ghost Value = { List (ℕ × SaidSymbol) };

    ghost view = { λ it. considered_from it.number (symbols_of (strings_of it.names) it.sym.now) };

    ghost invariant = { λ it. it.number + length it.sym.now ≤ 2 ^ 63 };
}

impl<'a> Considered<'a> {
    /// The considered symbols of a table.
    pub fn new(sym: &'a [u8], names: SymbolNames<'a>) -> Considered<'a>
        ensures { result ≡ with_types (symbols_of (strings_of names.entry) sym.now) }
    {
        Considered {
            sym,
            names,
            number: 0,
            read_until: 0,
        }
    }
}

impl<'a> Iterator for Considered<'a> {
    type Item = Numbered<'a>;

    ghost next_gives = { YieldsFirstBy number_and_symbol (λ rest. rest) };

    ghost remaining = { item_count (λ rest. rest) };

    fn next(&mut self) -> Option<Numbered<'a>> {
        self.read_until = read_ahead(self.sym, self.names, self.number, self.read_until);
        let found = first_considered(self.sym, self.names, self.number)?;
        self.sym = found.behind;
        self.number = found.first.number as u64 + 1;
        Some(found.first)
    }
}
