//! The names of symbols, by their numbers.
ghost use Rattle.std.specs.Prelude.{◌≡◌, ◌≤◌, ◌<◌, ◌*◌, ◌/◌, length, drop, slice_get};
ghost use Rattle.std.specs.Option.{option_map};
ghost use Rattle.std.specs.Result.{result_map_both};
ghost use Rattle.ctf_model.specs.symbols.SymbolQuestions.{name_of_symbol};
ghost use Rattle.ctf_model.specs.symbols.Symbols.{symbols_of};
ghost use Rattle.ctf_check.specs.CheckedView.{dictionary_of};
ghost use Rattle.ctf_entries.specs.NamesView.{strings_of};
ghost use Rattle.ctf_entries.specs.SymbolView.{symbol};

use ctf_check::Checked;
use ctf_entries::{Symbol, SymbolNames};
use ctf_model::{Fault, placeless};

/// The bytes from a symbol on.
fn from_symbol(sym: &[u8], number: usize) -> &[u8]
    requires { number < length sym.now / 24 }
    ensures { result.now ≡ drop (24 * number) sym.now }
{
    let (_, behind) = sym.split_at(24 * number);
    behind
}

/// The symbol with a number, from 0, if there is one.
fn symbol_at<'a>(sym: &[u8], names: SymbolNames<'a>, number: u32) -> Option<Symbol<'a>>
    ensures { option_map symbol result
        ≡ slice_get (symbols_of (strings_of names.entry) sym.now) number }
{
    let number = number as usize;
    if number < sym.len() / 24 {
        Some(Symbol::read(from_symbol(sym, number), names))
    } else {
        None
    }
}

/// The name of the symbol with a number, from 0; empty if it has none. Refused as NoSymbol (34).
pub fn symbol_name<'a>(dictionary: &Checked<'a>, number: u32) -> Result<&'a [u8], Fault>
    ensures { result_map_both (λ n. n.now) (λ f. f) result
        ≡ name_of_symbol (dictionary_of dictionary.now) number }
{
    let parts = dictionary.symbol_parts();
    match symbol_at(parts.sym, SymbolNames::new(parts.strs), number) {
        Some(found) => Ok(found.name()),
        None => Err(placeless(Fault::NO_SYMBOL)),
    }
}
