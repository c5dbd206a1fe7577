//! Exports for a dictionary as a whole, and look-ups by name.
ghost use Rattle.std.specs.Prelude.{◌≡◌, Ok, length};
ghost use Rattle.ctf_c.specs.Given.{Gives, GivesText, ask, flag as flag_of, model_number as number_of_model};
ghost use Rattle.ctf_model.specs.opened.Questions.{parent_types};
ghost use Rattle.ctf_model.specs.opened.Open.{own_in, space_in};
ghost use Rattle.ctf_model.specs.names.Lookups.{lookup};
ghost use Rattle.ctf_model.specs.symbols.SymbolQuestions.{by_name, label_of, object_of};

use crate::handle::Handle;
use crate::out_pointers::{
    dictionary_of, flag, give, give_short, give_text, give_type, model_number,
};

/// The type that a written name finds, such as "struct node *".
#[unsafe(no_mangle)]
pub extern "C" fn ctfd_find(handle: &mut Handle, text: &[u8], out: &mut u16) -> u32
    ensures same { handle.new.held.dictionary ≡ handle.old.held.dictionary }
    ensures answer { Gives (ask handle.old.held.dictionary (λ s. lookup (space_in s) text.now))
        result out.old out.new }
{
    let dictionary = dictionary_of!(handle);
    give_type(dictionary.find(text), out)
}

/// The number of the first symbol with a name.
#[unsafe(no_mangle)]
pub extern "C" fn ctfd_symbol(handle: &mut Handle, name: &[u8], out: &mut u32) -> u32
    ensures same { handle.new.held.dictionary ≡ handle.old.held.dictionary }
    ensures answer { Gives (ask handle.old.held.dictionary (λ s. by_name (own_in s) name.now))
        result out.old out.new }
{
    let dictionary = dictionary_of!(handle);
    give_short(dictionary.symbol(name), out)
}

/// The last type of the first label with a name.
#[unsafe(no_mangle)]
pub extern "C" fn ctfd_label_last(handle: &mut Handle, name: &[u8], out: &mut u32) -> u32
    ensures same { handle.new.held.dictionary ≡ handle.old.held.dictionary }
    ensures answer { Gives (ask handle.old.held.dictionary (λ s. label_of (own_in s) name.now))
        result out.old out.new }
{
    let dictionary = dictionary_of!(handle);
    give_short(dictionary.label(name), out)
}

/// The type of an object of the program, by the number of its symbol.
#[unsafe(no_mangle)]
pub extern "C" fn ctfd_object(handle: &mut Handle, number: u32, out: &mut u16) -> u32
    ensures same { handle.new.held.dictionary ≡ handle.old.held.dictionary }
    ensures answer { Gives (ask handle.old.held.dictionary (λ s. object_of (own_in s) number))
        result out.old out.new }
{
    let dictionary = dictionary_of!(handle);
    give_type(dictionary.object(number), out)
}

/// The number of the dictionary's own types.
#[unsafe(no_mangle)]
pub extern "C" fn ctfd_count(handle: &mut Handle, out: &mut u64) -> u32
    ensures same { handle.new.held.dictionary ≡ handle.old.held.dictionary }
    ensures answer { Gives (ask handle.old.held.dictionary (λ s. Ok (length (own_in s).terms)))
        result out.old out.new }
{
    let dictionary = dictionary_of!(handle);
    give(Ok(dictionary.count()), out)
}

/// 1 if the low numbers of types are those of a parent, else 0.
#[unsafe(no_mangle)]
pub extern "C" fn ctfd_child(handle: &mut Handle, out: &mut u32) -> u32
    ensures same { handle.new.held.dictionary ≡ handle.old.held.dictionary }
    ensures answer { Gives (ask handle.old.held.dictionary (λ s. Ok (flag_of (own_in s).child)))
        result out.old out.new }
{
    let dictionary = dictionary_of!(handle);
    give_short(Ok(flag(dictionary.child())), out)
}

/// The number of types that the imported parent has.
#[unsafe(no_mangle)]
pub extern "C" fn ctfd_parent_count(handle: &mut Handle, out: &mut u64) -> u32
    ensures same { handle.new.held.dictionary ≡ handle.old.held.dictionary }
    ensures answer { Gives (ask handle.old.held.dictionary (λ s. parent_types s))
        result out.old out.new }
{
    let dictionary = dictionary_of!(handle);
    give(dictionary.parent_count(), out)
}

/// The name of the parent in the dictionary's header. As much of it is written as fits.
#[unsafe(no_mangle)]
pub extern "C" fn ctfd_parent_name(handle: &mut Handle, text: &mut [u8], len: &mut u64) -> u32
    ensures same { handle.new.held.dictionary ≡ handle.old.held.dictionary }
    ensures answer { GivesText (ask handle.old.held.dictionary (λ s. Ok (own_in s).parname))
        result (record { text = text.old; len = len.old })
        (record { text = text.new; len = len.new }) }
{
    let dictionary = dictionary_of!(handle);
    give_text(Ok(dictionary.parname()), text, len)
}

/// The label of the parent in the dictionary's header. As much of it is written as fits.
#[unsafe(no_mangle)]
pub extern "C" fn ctfd_parent_label(handle: &mut Handle, text: &mut [u8], len: &mut u64) -> u32
    ensures same { handle.new.held.dictionary ≡ handle.old.held.dictionary }
    ensures answer { GivesText (ask handle.old.held.dictionary (λ s. Ok (own_in s).parlabel))
        result (record { text = text.old; len = len.old })
        (record { text = text.new; len = len.new }) }
{
    let dictionary = dictionary_of!(handle);
    give_text(Ok(dictionary.parlabel()), text, len)
}

/// 1 if the program's pointers have 4 bytes, else 0.
#[unsafe(no_mangle)]
pub extern "C" fn ctfd_model(handle: &mut Handle, out: &mut u32) -> u32
    ensures same { handle.new.held.dictionary ≡ handle.old.held.dictionary }
    ensures answer { Gives (ask handle.old.held.dictionary
        (λ s. Ok (number_of_model s.own.model))) result out.old out.new }
{
    let dictionary = dictionary_of!(handle);
    give_short(Ok(model_number(dictionary.model())), out)
}
