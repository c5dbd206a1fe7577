//! The export that gives many symbols of a program at once, and where their names are.
ghost use Rattle.std.specs.Prelude.{◌≡◌, ◌<◌, ◌≤◌, ◌*◌, ◌%◌, ◌^◌, Ok, Some, drop, length, min, slice_index};
ghost use Rattle.std.specs.List.{range_with_len};
ghost use Rattle.std.specs.Result.{result_map_both};
ghost use Rattle.ctf_c.specs.Given.{ask};
ghost use Rattle.ctf_c.specs.ItemRows.{TellsSymbol, class_of_sort, return_of, symbol_numbers};
ghost use Rattle.ctf_c.specs.Rowed.{GivesRows};
ghost use Rattle.ctf_c.specs.names.Filling.{Fills};
ghost use Rattle.ctf_check.specs.CheckedView.{dictionary_of as dictionary_in};
ghost use Rattle.ctf_model.specs.opened.Open.{own_in};
ghost use Rattle.ctf_model.specs.symbols.SymbolQuestions.{function_of, object_of};
ghost use Rattle.ctf_sections.specs.TableEnds.{EndsAt};

use crate::handle::Handle;
use crate::names::{names_end, symbol_position};
use crate::out_pointers::{dictionary_of, give_type};
use ctf_check::Checked;
use ctf_model::{Fault, TypeNum};
use ctf_open::OpenDictionary;
use ctf_sections::bytes::u32_at;

/// The class of a symbol that is neither an object nor a function.
const OTHER: u32 = 0;

/// The class of an object.
const OBJECT: u32 = 1;

/// The class of a function.
const FUNCTION: u32 = 2;

/// The greatest number of symbols that have a number.
const MOST_SYMBOLS: usize = 0x1_0000_0000;

/// A symbol: `struct ctfd_symbol_row`. Its type is that of an object, or the one that a function
/// returns; if the call for that type alone would be refused, it is 0, with the status of the
/// refusal. Its name begins at an offset in one of the lists, and ends with a zero byte.
#[repr(C)]
#[derive(Clone, Copy)]
pub struct GivenSymbolRow {
    pub name_at: u64,
    pub name_list: u32,
    pub number: u32,
    pub symbol_class: u32,
    pub type_status: u32,
    pub tnum: u16,
}

/// How many symbols of a program have a number.
fn symbol_count(dictionary: &Checked<'_>) -> usize
    ensures { result ≡ min (length (dictionary_in dictionary.now).symbols) (2 ^ 32) }
{
    let parts = dictionary.symbol_parts();
    (parts.sym.len() / 24).min(MOST_SYMBOLS)
}

/// The bytes at which a symbol begins, counted from 0.
fn symbol_at(sym: &[u8], number: usize) -> &[u8]
    requires { 24 * number ≤ length sym.now }
    ensures { result.now ≡ drop (24 * number) sym.now }
{
    &sym[24 * number..]
}

/// The class of the symbol at the front of some bytes.
fn symbol_class(bytes: &[u8]) -> u32
    requires { 24 ≤ length bytes.now }
    ensures { result ≡ class_of_sort (slice_index bytes.now 4 % 16) }
{
    match bytes[4] % 16 {
        1 => OBJECT,
        2 => FUNCTION,
        _ => OTHER,
    }
}

/// The type that a function returns, or the type of an object.
fn symbol_type(dictionary: &OpenDictionary, class: u32, number: u32) -> Result<TypeNum, Fault>
    ensures function { class ≡ 2 → result_map_both (λ t. t.0) (λ f. f) result
        ≡ return_of (function_of (own_in dictionary.now) number) }
    ensures object { (class ≡ 2 → ⊥) → result_map_both (λ t. t.0) (λ f. f) result
        ≡ object_of (own_in dictionary.now) number }
{
    if class == FUNCTION {
        Ok(dictionary.function(number)?.ret)
    } else {
        dictionary.object(number)
    }
}

/// The row of a symbol, counted from 0; the names of symbols end at `end`.
fn symbol_row(dictionary: &OpenDictionary, end: usize, number: u32) -> GivenSymbolRow
    requires there { number < length (own_in dictionary.now).symbols }
    requires ends { EndsAt dictionary.now.own.lists.strs end }
    ensures { TellsSymbol (Some dictionary.now) number result }
{
    let own = dictionary.dictionary();
    let parts = own.symbol_parts();
    let bytes = symbol_at(parts.sym, number as usize);
    let place = symbol_position(end, u32_at(bytes, 0));
    let class = symbol_class(bytes);
    let mut tnum = 0;
    let type_status = give_type(symbol_type(dictionary, class, number), &mut tnum);
    GivenSymbolRow {
        name_at: place.at,
        name_list: place.list,
        number,
        symbol_class: class,
        type_status,
        tnum,
    }
}

/// Fills rows with the symbols from a number on, and returns how many there are.
fn symbols_into(dictionary: &OpenDictionary, from: usize, rows: &mut [GivenSymbolRow]) -> u64
    ensures count { result ≡ length (symbol_numbers (own_in dictionary.now)) }
    ensures filled { Fills (TellsSymbol (Some dictionary.now))
        (symbol_numbers (own_in dictionary.now)) from rows.old rows.new }
{
    let own = dictionary.dictionary();
    let parts = own.symbol_parts();
    let end = names_end(parts.strs);
    let all = symbol_count(&own);
    let left = all.saturating_sub(from);
    let count = left.min(rows.len());
    for i in 0..count {
        rows[i] = symbol_row(dictionary, end, (from + i) as u32);
    }
    all as u64
}

/// The symbols of the program from a number on, as many as there are rows, and how many there are
/// in all.
#[unsafe(no_mangle)]
pub extern "C" fn ctfd_symbols(
    handle: &mut Handle,
    from: usize,
    rows: &mut [GivenSymbolRow],
    count: &mut u64,
) -> u32
    ensures same { handle.new.held.dictionary ≡ handle.old.held.dictionary }
    ensures answer { GivesRows (TellsSymbol handle.old.held.dictionary)
        (ask handle.old.held.dictionary (λ s. Ok (symbol_numbers (own_in s)))) from result
        rows.old rows.new count.old count.new }
{
    let dictionary = dictionary_of!(handle);
    *count = symbols_into(dictionary, from, rows);
    0
}
