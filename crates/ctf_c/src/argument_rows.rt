//! Exports that answer many arguments at once, of a function type or of a program's function.
ghost use Rattle.std.specs.Prelude.{◌≡◌, ◌<◌, ◌≤◌, Some, length, slice_get, take};
ghost use Rattle.ctf_c.specs.Given.{ask};
ghost use Rattle.ctf_c.specs.ItemRows.{IsArgument, arguments_answered, named_list};
ghost use Rattle.ctf_c.specs.Rowed.{GivesRows};
ghost use Rattle.ctf_c.specs.names.Filling.{Fills, FillsFrom};
ghost use Rattle.ctf_check.specs.TypedView.{term_in};
ghost use Rattle.ctf_model.specs.format.Shown.{named_arguments};
ghost use Rattle.ctf_model.specs.opened.Open.{own_in, space_in};
ghost use Rattle.ctf_model.specs.opened.Questions.{on_shape, shape_of};
ghost use Rattle.ctf_model.specs.spaces.Space.{space_type};
ghost use Rattle.ctf_model.specs.spaces.TypeNumbers.{or_no_type};
ghost use Rattle.ctf_model.specs.symbols.SymbolQuestions.{function_of};

use crate::handle::Handle;
use crate::out_pointers::{dictionary_of, status};
use ctf_check::Typed;
use ctf_model::{Fault, TypeNum, placeless};
use ctf_open::{OpenDictionary, named_count};
use ctf_views::{Args, Variant};

/// The type of an argument, counted from 0.
fn argument_at(args: &Args<'_>, index: usize) -> u16
    requires { index < length args.now }
    ensures { slice_get args.now index ≡ Some result }
{
    args.get(index).unwrap().0
}

/// Fills rows with arguments, of which there are `all`, from a number on.
fn fill_arguments(args: &Args<'_>, all: usize, from: usize, rows: &mut [u16])
    requires { all ≤ length args.now }
    ensures { Fills IsArgument (take all args.now) from rows.old rows.new }
{
    let left = all.saturating_sub(from);
    let count = left.min(rows.len());
    for i in 0..count {
        rows[i] = argument_at(args, from + i);
    }
}

/// Fills rows with the arguments of a type, and returns how many it has.
fn arguments_into(found: &Typed<'_>, from: usize, rows: &mut [u16]) -> Result<u64, Fault>
    ensures { FillsFrom IsArgument
        (on_shape arguments_answered (shape_of (or_no_type (term_in found.now))))
        from result rows.old rows.new }
{
    match found.variant() {
        Variant::Args(args) => {
            let all = args.len();
            fill_arguments(&args, all, from, rows);
            Ok(all as u64)
        }
        _ => Err(placeless(Fault::WRONG_KIND)),
    }
}

/// Fills rows with the arguments of a function type, from a number on, and returns how many it has.
fn arguments(
    dictionary: &OpenDictionary,
    t: TypeNum,
    from: usize,
    rows: &mut [u16],
) -> Result<u64, Fault>
    ensures { FillsFrom IsArgument
        (on_shape arguments_answered (shape_of (space_type (space_in dictionary.now) t.0)))
        from result rows.old rows.new }
{
    let found = dictionary.space().term(t)?;
    arguments_into(&found, from, rows)
}

/// Fills rows with the named arguments of a program's function, and returns how many these are.
fn named_into(args: &Args<'_>, from: usize, rows: &mut [u16]) -> u64
    ensures count { result ≡ length (named_arguments args.now) }
    ensures filled { Fills IsArgument (named_arguments args.now) from rows.old rows.new }
{
    let all = named_count(args);
    fill_arguments(args, all, from, rows);
    all as u64
}

/// Fills rows with the named arguments of a program's function, from a number on, and returns how
/// many these are.
fn function_arguments(
    dictionary: &OpenDictionary,
    number: u32,
    from: usize,
    rows: &mut [u16],
) -> Result<u64, Fault>
    ensures { FillsFrom IsArgument (named_list (function_of (own_in dictionary.now) number))
        from result rows.old rows.new }
{
    let function = dictionary.function(number)?;
    Ok(named_into(&function.args, from, rows))
}

/// The types of a function type's arguments from a number on, as they are stored, as many as there
/// are rows, and how many it has in all.
#[unsafe(no_mangle)]
pub extern "C" fn ctfd_arguments(
    handle: &mut Handle,
    t: u16,
    from: usize,
    rows: &mut [u16],
    count: &mut u64,
) -> u32
    ensures same { handle.new.held.dictionary ≡ handle.old.held.dictionary }
    ensures answer { GivesRows IsArgument (ask handle.old.held.dictionary (λ s.
        on_shape arguments_answered (shape_of (space_type (space_in s) t)))) from result
        rows.old rows.new count.old count.new }
{
    let dictionary = dictionary_of!(handle);
    match arguments(dictionary, TypeNum(t), from, rows) {
        Ok(all) => {
            *count = all;
            0
        }
        Err(fault) => status(fault),
    }
}

/// The types of the arguments that a function of the program names, by the number of its symbol,
/// from a number on, as many as there are rows, and how many it names in all.
#[unsafe(no_mangle)]
pub extern "C" fn ctfd_function_arguments(
    handle: &mut Handle,
    number: u32,
    from: usize,
    rows: &mut [u16],
    count: &mut u64,
) -> u32
    ensures same { handle.new.held.dictionary ≡ handle.old.held.dictionary }
    ensures answer { GivesRows IsArgument (ask handle.old.held.dictionary (λ s.
        named_list (function_of (own_in s) number))) from result
        rows.old rows.new count.old count.new }
{
    let dictionary = dictionary_of!(handle);
    match function_arguments(dictionary, number, from, rows) {
        Ok(all) => {
            *count = all;
            0
        }
        Err(fault) => status(fault),
    }
}
