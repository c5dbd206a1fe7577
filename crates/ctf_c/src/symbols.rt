//! Exports for a program's functions and symbols, and for labels.
ghost use Rattle.std.specs.Prelude.{◌≡◌, Ok, length};
ghost use Rattle.std.specs.Result.{result_map_both};
ghost use Rattle.ctf_check.specs.FactsView.{shape_view};
ghost use Rattle.ctf_c.specs.Given.{Gives, GivesLabel, GivesText, ask, function_answer};
ghost use Rattle.ctf_model.specs.opened.Questions.{answer_map, label_at, named_answered, on_shape, shape_of, signature_answered};
ghost use Rattle.ctf_model.specs.opened.Open.{own_in, space_in};
ghost use Rattle.ctf_model.specs.spaces.Space.{space_type};
ghost use Rattle.ctf_model.specs.symbols.SymbolQuestions.{function_of, name_of_symbol};

use crate::handle::Handle;
use crate::out_pointers::{dictionary_of, flag, give, give_text, give_type, status, write_front};
use ctf_check::Shape;
use ctf_model::{Fault, TypeNum, placeless};
use ctf_open::{OpenDictionary, named_count};
use ctf_views::{Variant, is_variadic};

/// A function of the program: `struct ctfd_function`. A last argument 0 is not counted; it says
/// that more may follow.
#[repr(C)]
#[derive(Drop)]
pub struct GivenFunction {
    pub arguments: u64,
    pub varargs: u32,
    pub ret: u16,
}

/// A label, apart from its name: `struct ctfd_label`.
#[repr(C)]
#[derive(Drop)]
pub struct GivenLabel {
    pub name_len: u64,
    pub last: u32,
}

/// The name of a symbol of the program, by its number. As much of it is written as fits.
#[unsafe(no_mangle)]
pub extern "C" fn ctfd_symbol_name(
    handle: &mut Handle,
    number: u32,
    text: &mut [u8],
    len: &mut u64,
) -> u32
    ensures same { handle.new.held.dictionary ≡ handle.old.held.dictionary }
    ensures answer { GivesText (ask handle.old.held.dictionary (λ s.
        name_of_symbol (own_in s) number)) result
        (record { text = text.old; len = len.old })
        (record { text = text.new; len = len.new }) }
{
    let dictionary = dictionary_of!(handle);
    give_text(dictionary.symbol_name(number), text, len)
}

/// What a function of the program returns, and how many arguments it names, by the number of its
/// symbol.
#[unsafe(no_mangle)]
pub extern "C" fn ctfd_function(handle: &mut Handle, number: u32, out: &mut GivenFunction) -> u32
    ensures same { handle.new.held.dictionary ≡ handle.old.held.dictionary }
    ensures answer { Gives (ask handle.old.held.dictionary (λ s.
        function_answer (function_of (own_in s) number))) result
        (record { arguments = out.old.arguments; varargs = out.old.varargs; ret = out.old.ret })
        (record { arguments = out.new.arguments; varargs = out.new.varargs; ret = out.new.ret }) }
{
    let dictionary = dictionary_of!(handle);
    match dictionary.function(number) {
        Ok(function) => {
            *out = GivenFunction {
                arguments: named_count(&function.args) as u64,
                varargs: flag(is_variadic(&function.args)),
                ret: function.ret.0,
            };
            0
        }
        Err(fault) => status(fault),
    }
}

/// What a type is, apart from its name.
fn shape(dictionary: &OpenDictionary, t: TypeNum) -> Result<Shape<'_>, Fault>
    ensures { result_map_both shape_view (λ f. f) result
        ≡ shape_of (space_type (space_in dictionary.now) t.0) }
{
    let found = dictionary.space().term(t)?;
    Ok(found.shape())
}

/// What a function type returns, and how many arguments it names.
fn signature(x: Shape<'_>) -> Result<GivenFunction, Fault>
    ensures { answer_map (λ f. record { arguments = f.arguments; varargs = f.varargs; ret = f.ret })
        result ≡ function_answer (signature_answered (shape_view x.entry)) }
{
    match (x.behind, x.reference) {
        (Variant::Args(args), Some(ret)) => Ok(GivenFunction {
            arguments: named_count(&args) as u64,
            varargs: flag(is_variadic(&args)),
            ret: ret.0,
        }),
        _ => Err(placeless(Fault::WRONG_KIND)),
    }
}

/// The same for the type of a number.
fn signature_of(dictionary: &OpenDictionary, t: TypeNum) -> Result<GivenFunction, Fault>
    ensures { answer_map (λ f. record { arguments = f.arguments; varargs = f.varargs; ret = f.ret })
        result ≡ function_answer (on_shape signature_answered
        (shape_of (space_type (space_in dictionary.now) t.0))) }
{
    signature(shape(dictionary, t)?)
}

/// What a function type returns, and how many arguments it names, in the form of `ctfd_function`.
#[unsafe(no_mangle)]
pub extern "C" fn ctfd_signature(handle: &mut Handle, t: u16, out: &mut GivenFunction) -> u32
    ensures same { handle.new.held.dictionary ≡ handle.old.held.dictionary }
    ensures answer { Gives (ask handle.old.held.dictionary (λ s.
        function_answer (on_shape signature_answered (shape_of (space_type (space_in s) t))))) result
        (record { arguments = out.old.arguments; varargs = out.old.varargs; ret = out.old.ret })
        (record { arguments = out.new.arguments; varargs = out.new.varargs; ret = out.new.ret }) }
{
    let dictionary = dictionary_of!(handle);
    match signature_of(dictionary, TypeNum(t)) {
        Ok(function) => {
            *out = function;
            0
        }
        Err(fault) => status(fault),
    }
}

/// An argument that a function of the program names, counted from 0.
#[unsafe(no_mangle)]
pub extern "C" fn ctfd_function_argument(
    handle: &mut Handle,
    number: u32,
    index: usize,
    out: &mut u16,
) -> u32
    ensures same { handle.new.held.dictionary ≡ handle.old.held.dictionary }
    ensures answer { Gives (ask handle.old.held.dictionary (λ s.
        named_answered index (function_of (own_in s) number))) result out.old out.new }
{
    let dictionary = dictionary_of!(handle);
    give_type(dictionary.function_argument(number, index), out)
}

/// The number of labels.
#[unsafe(no_mangle)]
pub extern "C" fn ctfd_label_count(handle: &mut Handle, out: &mut u64) -> u32
    ensures same { handle.new.held.dictionary ≡ handle.old.held.dictionary }
    ensures answer { Gives (ask handle.old.held.dictionary (λ s. Ok (length (own_in s).labels)))
        result out.old out.new }
{
    let dictionary = dictionary_of!(handle);
    give(Ok(dictionary.label_count()), out)
}

/// A label, counted from 0. As much of its name is written as fits.
#[unsafe(no_mangle)]
pub extern "C" fn ctfd_label(
    handle: &mut Handle,
    index: usize,
    name: &mut [u8],
    out: &mut GivenLabel,
) -> u32
    ensures same { handle.new.held.dictionary ≡ handle.old.held.dictionary }
    ensures answer { GivesLabel (ask handle.old.held.dictionary (λ s.
        label_at index (own_in s).labels)) result name.old name.new
        (record { name_len = out.old.name_len; last = out.old.last })
        (record { name_len = out.new.name_len; last = out.new.last }) }
{
    let dictionary = dictionary_of!(handle);
    match dictionary.label_numbered(index) {
        Ok(label) => {
            write_front(label.name, name);
            *out = GivenLabel {
                name_len: label.name.len() as u64,
                last: label.last,
            };
            0
        }
        Err(fault) => status(fault),
    }
}
