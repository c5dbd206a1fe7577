//! The symbols of a table in one walk: where each symbol's entry begins, and which symbols have
//! names.
ghost use Rattle.std.specs.Prelude.{◌≡◌, ◌≤◌, ◌<◌, ◌^◌, length, IfOk, None};
ghost use Rattle.ctf_model.specs.symbols.Symbols.{with_types, symbols_of};
ghost use Rattle.ctf_entries.specs.NamesView.{strings_of};
ghost use Rattle.ctf_entries.specs.Sound.{bad_place};
ghost use Rattle.ctf_symbols.specs.Kept.{lefts_from};
ghost use Rattle.ctf_symbols.specs.Named.{AreItems, called_symbol, program_names};

use crate::items::symbol_item;
use crate::rows::behind_symbol;
use ctf_entries::{Symbol, SymbolNames, behind_function, behind_object, read_ahead};
use ctf_order::NamedItem;
use std::alloc::{AllocError, Global};

/// What one walk through the symbols of a table finds.
#[derive(Drop)]
pub(crate) struct SymbolItems {
    /// How many bytes of its section are left where each symbol's entry begins; 0 if it has none.
    pub(crate) lefts: Vec<u32>,
    /// The considered symbols.
    pub(crate) items: Vec<NamedItem>,
}

/// Lists the symbols of a table. Reads each symbol and each entry once, and a few bytes of each
/// name.
pub(crate) fn list(
    alloc: Global,
    sym: &[u8],
    names: SymbolNames<'_>,
    objects: &[u8],
    functions: &[u8],
) -> Result<SymbolItems, AllocError>
    requires sound { bad_place (with_types (symbols_of (strings_of names) sym.now)) functions.now
        ≡ None }
    requires objects { length objects.now < 2 ^ 32 }
    requires functions { length functions.now < 2 ^ 32 }
    requires near { length sym.now ≤ 2 ^ 63 }
    ensures lefts { IfOk result (λ l. l.lefts.items
        ≡ lefts_from 0 (symbols_of (strings_of names.entry) sym.now) objects.now functions.now) }
    ensures items { IfOk result (λ l. AreItems (program_names (strings_of names.entry))
        called_symbol (with_types (symbols_of (strings_of names.entry) sym.now)) l.items.items) }
{
    let mut lefts = Vec::with_capacity(alloc, sym.len() / 24)?;
    let mut items = Vec::with_capacity(alloc, sym.len() / 24)?;
    let mut number = 0;
    let mut rest = sym;
    let mut objects = objects;
    let mut functions = functions;
    let mut read_until = 0;
    'symbols: while rest.len() >= 24 {
        let first = rest;
        read_until = read_ahead(first, names, number, read_until);
        let symbol = Symbol::read(first, names);
        rest = behind_symbol(first);
        if !symbol.is_considered(number) {
            lefts.push(0)?;
        } else if symbol.is_object() {
            items.push(symbol_item(first, number))?;
            lefts.push(objects.len() as u32)?;
            objects = behind_object(objects);
        } else {
            items.push(symbol_item(first, number))?;
            lefts.push(functions.len() as u32)?;
            functions = behind_function(functions);
        }
        number += 1;
    }
    Ok(SymbolItems { lefts, items })
}
