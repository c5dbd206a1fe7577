//! Exports that find an enumerator by its value or its name.
ghost use Rattle.std.specs.Prelude.{◌≡◌};
ghost use Rattle.std.specs.Result.{result_map_both};
ghost use Rattle.ctf_c.specs.Given.{Gives, GivesText, ask};
ghost use Rattle.ctf_c.specs.names.Firsts.{named_answered, valued_answered};
ghost use Rattle.ctf_model.specs.opened.Questions.{on_shape, shape_of, answer_map};
ghost use Rattle.ctf_model.specs.opened.Open.{space_in};
ghost use Rattle.ctf_model.specs.spaces.Space.{space_type};
ghost use Rattle.ctf_views.specs.ItemsView.{enumerator as enumerator_view};

use crate::handle::Handle;
use crate::names::{with_name, with_value};
use crate::out_pointers::{dictionary_of, status, write_front};
use ctf_model::{Fault, TypeNum};
use ctf_open::OpenDictionary;
use ctf_views::Enumerator;

/// The first enumerator of an enum with a value.
fn of_value(dictionary: &OpenDictionary, t: TypeNum, value: i32) -> Result<Enumerator<'_>, Fault>
    ensures { result_map_both enumerator_view (λ f. f) result
        ≡ on_shape (valued_answered value) (shape_of (space_type (space_in dictionary.now) t.0)) }
{
    let found = dictionary.space().term(t)?;
    with_value(&found, value)
}

/// The first enumerator of an enum with a name.
fn of_name<'a>(
    dictionary: &'a OpenDictionary,
    t: TypeNum,
    name: &[u8],
) -> Result<Enumerator<'a>, Fault>
    ensures { result_map_both enumerator_view (λ f. f) result
        ≡ on_shape (named_answered name.now) (shape_of (space_type (space_in dictionary.now) t.0)) }
{
    let found = dictionary.space().term(t)?;
    with_name(&found, name)
}

/// The name of the first enumerator with a value. As much of it is written as fits.
#[unsafe(no_mangle)]
pub extern "C" fn ctfd_enum_name(
    handle: &mut Handle,
    t: u16,
    value: i32,
    text: &mut [u8],
    len: &mut u64,
) -> u32
    ensures same { handle.new.held.dictionary ≡ handle.old.held.dictionary }
    ensures answer { GivesText (ask handle.old.held.dictionary (λ s. answer_map (λ e. e.name)
        (on_shape (valued_answered value) (shape_of (space_type (space_in s) t))))) result
        (record { text = text.old; len = len.old }) (record { text = text.new; len = len.new }) }
{
    let dictionary = dictionary_of!(handle);
    match of_value(dictionary, TypeNum(t), value) {
        Ok(enumerator) => {
            write_front(enumerator.name, text);
            *len = enumerator.name.len() as u64;
            0
        }
        Err(fault) => status(fault),
    }
}

/// The value of the first enumerator with a name.
#[unsafe(no_mangle)]
pub extern "C" fn ctfd_enum_value(handle: &mut Handle, t: u16, name: &[u8], value: &mut i32) -> u32
    ensures same { handle.new.held.dictionary ≡ handle.old.held.dictionary }
    ensures answer { Gives (ask handle.old.held.dictionary (λ s. answer_map (λ e. e.value)
        (on_shape (named_answered name.now) (shape_of (space_type (space_in s) t)))))
        result value.old value.new }
{
    let dictionary = dictionary_of!(handle);
    match of_name(dictionary, TypeNum(t), name) {
        Ok(enumerator) => {
            *value = enumerator.value;
            0
        }
        Err(fault) => status(fault),
    }
}
