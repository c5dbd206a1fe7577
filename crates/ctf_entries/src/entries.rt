//! What a dictionary says of a program's symbols.
ghost use Rattle.std.specs.Prelude.{◌≡◌, ◌≤◌, ◌+◌, ◌^◌, length, [], ◌∷◌, true, false, None, MatchOption, option_copied};
ghost use Rattle.std.specs.Iterator.{YieldsFirstBy, item_count};
ghost use Rattle.ctf_model.specs.symbols.Entries.{entries_of};
ghost use Rattle.ctf_model.specs.symbols.Symbols.{with_types, is_object, symbols_of};
ghost use Rattle.ctf_entries.specs.EntriesView.{entry};
ghost use Rattle.ctf_entries.specs.Left.{entries_left, IsFirst};
ghost use Rattle.ctf_entries.specs.Sound.{bad_place};
ghost use Rattle.ctf_entries.specs.SymbolView.{symbol};

use crate::considered::{FirstSymbol, first_considered};
use crate::function::{behind_function, signature_of};
use crate::object::{behind_object, type_in};
use crate::signature::Signature;
use crate::symbol::Symbol;
use crate::symbol_strings::SymbolNames;
use crate::unread::Unread;
use ctf_model::TypeNum;
use std::marker::Model;

/// What a dictionary says of a symbol: the type of an object, the signature of a function, or
/// nothing.
#[derive(Drop)]
pub enum SymbolInfo<'a> {
    Object(Option<TypeNum>),
    Function(Option<Signature<'a>>),
}

/// A considered symbol, with its number from 0, and what the dictionary says of it.
#[derive(Drop)]
pub struct Entry<'a> {
    pub number: u32,
    pub symbol: Symbol<'a>,
    pub info: SymbolInfo<'a>,
}

/// The first entry, and what is left after it.
#[derive(Drop)]
struct FirstEntry<'a> {
    first: Entry<'a>,
    left: Unread<'a>,
}

/// Takes the entry of the first symbol, which is an object.
fn take_object<'a>(unread: Unread<'a>, found: FirstSymbol<'a>) -> FirstEntry<'a>
    requires first { IsFirst unread found }
    requires near { found.first.number + 1 + length found.behind.now ≤ 2 ^ 63 }
    requires object { is_object (symbol found.first.symbol) ≡ true }
    ensures { entries_left unread.entry ≡ entry result.first ∷ entries_left result.left }
{
    let first = Entry {
        number: found.first.number,
        symbol: found.first.symbol,
        info: SymbolInfo::Object(type_in(unread.objects)),
    };
    let left = Unread {
        sym: found.behind,
        names: unread.names,
        number: found.first.number as u64 + 1,
        objects: behind_object(unread.objects),
        functions: unread.functions,
    };
    FirstEntry { first, left }
}

/// Takes the entry of the first symbol, which is a function.
fn take_function<'a>(unread: Unread<'a>, found: FirstSymbol<'a>) -> FirstEntry<'a>
    requires first { IsFirst unread found }
    requires near { found.first.number + 1 + length found.behind.now ≤ 2 ^ 63 }
    requires function { is_object (symbol found.first.symbol) ≡ false }
    ensures { entries_left unread.entry ≡ entry result.first ∷ entries_left result.left }
{
    let first = Entry {
        number: found.first.number,
        symbol: found.first.symbol,
        info: SymbolInfo::Function(signature_of(unread.functions)),
    };
    let left = Unread {
        sym: found.behind,
        names: unread.names,
        number: found.first.number as u64 + 1,
        objects: unread.objects,
        functions: behind_function(unread.functions),
    };
    FirstEntry { first, left }
}

/// Takes the entry of the first considered symbol, if there is one.
#[tactic(auto, using(crate::proofs::Telling::entries_none))]
fn first_entry<'a>(unread: Unread<'a>) -> Option<FirstEntry<'a>>
    ensures { MatchOption result (entries_left unread.entry ≡ [])
        (λ t. entries_left unread.entry ≡ entry t.first ∷ entries_left t.left) }
{
    match first_considered(unread.sym, unread.names, unread.number) {
        None => None,
        Some(found) => {
            if found.first.symbol.is_object() {
                Some(take_object(unread, found))
            } else {
                Some(take_function(unread, found))
            }
        }
    }
}

/// The remaining entries, in the order of their symbols.
#[derive(Drop)]
pub struct Entries<'a> {
    unread: Unread<'a>,
}

impl<'a> Model for Entries<'a> {
    ghost use Rattle.std.specs.Prelude.{List};
    ghost use Rattle.ctf_model.specs.symbols.Entries.{Entry as SaidEntry};
    ghost use Rattle.ctf_entries.specs.Left.{entries_left};

    ghost Value = { List SaidEntry };

    ghost view = { λ it. entries_left it.unread };
}

impl<'a> Entries<'a> {
    /// The entries of all considered symbols. No function's entry may be malformed.
    pub fn new(
        sym: &'a [u8],
        strs: Option<&'a [u8]>,
        objects: &'a [u8],
        functions: &'a [u8],
    ) -> Entries<'a>
        requires sound { bad_place
            (with_types (symbols_of (option_copied strs) sym.now)) functions.now ≡ None }
        ensures { result ≡ entries_of
            (with_types (symbols_of (option_copied strs.entry) sym.now)) objects.now functions.now }
    {
        let names = SymbolNames::new(strs);
        let unread = Unread {
            sym,
            names,
            number: 0,
            objects,
            functions,
        };
        Entries { unread }
    }
}

impl<'a> Iterator for Entries<'a> {
    type Item = Entry<'a>;

    ghost next_gives = { YieldsFirstBy entry (λ rest. rest) };

    ghost remaining = { item_count (λ rest. rest) };

    fn next(&mut self) -> Option<Entry<'a>> {
        let taken = first_entry(self.unread)?;
        self.unread = taken.left;
        Some(taken.first)
    }
}
