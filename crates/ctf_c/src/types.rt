//! Exports that give a number of a type.
ghost use Rattle.std.specs.Prelude.{◌≡◌, Some, option_map};
ghost use Rattle.std.specs.Result.{result_map_both};
ghost use Rattle.ctf_c.specs.Given.{Gives, ask, flag as flag_of, number_of_kind, number_of_tag};
ghost use Rattle.ctf_model.specs.opened.Questions.{align_answered, argument_answered, kind_answered, length_answered, pointer_answered, resolved_answered, return_answered, root_answered, on_shape, shape_of, size_answered, tag_answered, answer_map};
ghost use Rattle.ctf_model.specs.opened.Open.{space_in};
ghost use Rattle.ctf_model.specs.figures.Figures.{reference as reference_of, referred_type as referred_of};
ghost use Rattle.ctf_model.specs.format.Shown.{shape};
ghost use Rattle.ctf_check.specs.TypedView.{term_in};
ghost use Rattle.ctf_model.specs.spaces.Space.{space_type};

use crate::handle::Handle;
use crate::out_pointers::{
    dictionary_of, flag_result, give, give_short, give_type, kind_result, tag_result,
};
use ctf_check::Typed;
use ctf_model::{Fault, Kind, TypeNum, placeless};
use ctf_open::OpenDictionary;

/// The number of a type's kind in sys/ctf.h.
#[unsafe(no_mangle)]
pub extern "C" fn ctfd_kind(handle: &mut Handle, t: u16, out: &mut u32) -> u32
    ensures same { handle.new.held.dictionary ≡ handle.old.held.dictionary }
    ensures answer { Gives (ask handle.old.held.dictionary (λ s.
        answer_map number_of_kind (on_shape kind_answered (shape_of (space_type (space_in s) t)))))
        result out.old out.new }
{
    let dictionary = dictionary_of!(handle);
    give_short(kind_result(dictionary.kind(TypeNum(t))), out)
}

/// 1 if look-ups by name find a type, else 0.
#[unsafe(no_mangle)]
pub extern "C" fn ctfd_root(handle: &mut Handle, t: u16, out: &mut u32) -> u32
    ensures same { handle.new.held.dictionary ≡ handle.old.held.dictionary }
    ensures answer { Gives
        (ask handle.old.held.dictionary (λ s.
        answer_map flag_of (root_answered (space_type (space_in s) t))))
        result out.old out.new }
{
    let dictionary = dictionary_of!(handle);
    give_short(flag_result(dictionary.root(TypeNum(t))), out)
}

/// The number of the kind that a forward declares: 6 for a struct, 7 for a union, 8 for an enum.
#[unsafe(no_mangle)]
pub extern "C" fn ctfd_tag(handle: &mut Handle, t: u16, out: &mut u32) -> u32
    ensures same { handle.new.held.dictionary ≡ handle.old.held.dictionary }
    ensures answer { Gives (ask handle.old.held.dictionary (λ s.
        answer_map number_of_tag (on_shape tag_answered (shape_of (space_type (space_in s) t)))))
        result out.old out.new }
{
    let dictionary = dictionary_of!(handle);
    give_short(tag_result(dictionary.tag(TypeNum(t))), out)
}

/// How many members, enumerators or arguments a type has: 0 for kinds without a list.
#[unsafe(no_mangle)]
pub extern "C" fn ctfd_length(handle: &mut Handle, t: u16, out: &mut u64) -> u32
    ensures same { handle.new.held.dictionary ≡ handle.old.held.dictionary }
    ensures answer { Gives (ask handle.old.held.dictionary (λ s.
        on_shape length_answered (shape_of (space_type (space_in s) t))))
        result out.old out.new }
{
    let dictionary = dictionary_of!(handle);
    give(dictionary.length(TypeNum(t)), out)
}

/// The size of a type, in bytes.
#[unsafe(no_mangle)]
pub extern "C" fn ctfd_size(handle: &mut Handle, t: u16, out: &mut u64) -> u32
    ensures same { handle.new.held.dictionary ≡ handle.old.held.dictionary }
    ensures answer { Gives (ask handle.old.held.dictionary (λ s. size_answered (space_in s) t))
        result out.old out.new }
{
    let dictionary = dictionary_of!(handle);
    give(dictionary.size(TypeNum(t)), out)
}

/// The alignment of a type, in bytes.
#[unsafe(no_mangle)]
pub extern "C" fn ctfd_align(handle: &mut Handle, t: u16, out: &mut u64) -> u32
    ensures same { handle.new.held.dictionary ≡ handle.old.held.dictionary }
    ensures answer { Gives (ask handle.old.held.dictionary (λ s. align_answered (space_in s) t))
        result out.old out.new }
{
    let dictionary = dictionary_of!(handle);
    give(dictionary.align(TypeNum(t)), out)
}

/// The type that a type resolves to, through typedefs and qualifiers; 0 if that is `void`.
#[unsafe(no_mangle)]
pub extern "C" fn ctfd_resolve(handle: &mut Handle, t: u16, out: &mut u16) -> u32
    ensures same { handle.new.held.dictionary ≡ handle.old.held.dictionary }
    ensures answer { Gives (ask handle.old.held.dictionary
        (λ s. resolved_answered (space_in s) t)) result out.old out.new }
{
    let dictionary = dictionary_of!(handle);
    give_type(dictionary.resolve(TypeNum(t)), out)
}

/// The type that a type points to, renames or qualifies.
#[inline(always)]
fn referred_type(found: &Typed<'_>) -> Result<TypeNum, Fault>
    ensures { option_map (λ x. referred_of (shape x.body)) (term_in found.now)
        ≡ Some (result_map_both (λ t. t.0) (λ f. f) result) }
{
    let Some(to) = found.reference() else {
        return Err(placeless(Fault::NOT_REFERENCE));
    };
    if found.kind() == Kind::KFunction {
        return Err(placeless(Fault::NOT_REFERENCE));
    }
    Ok(to)
}

/// Like `referred_type`, for the type with this number.
#[inline(always)]
fn reference(dictionary: &OpenDictionary, t: TypeNum) -> Result<TypeNum, Fault>
    ensures { result_map_both (λ t. t.0) (λ f. f) result
        ≡ reference_of (space_in dictionary.now) t.0 }
{
    let found = dictionary.space().term(t)?;
    referred_type(&found)
}

/// The type that a type points to, renames or qualifies.
#[unsafe(no_mangle)]
pub extern "C" fn ctfd_reference(handle: &mut Handle, t: u16, out: &mut u16) -> u32
    ensures same { handle.new.held.dictionary ≡ handle.old.held.dictionary }
    ensures answer { Gives (ask handle.old.held.dictionary (λ s. reference_of (space_in s) t))
        result out.old out.new }
{
    let dictionary = dictionary_of!(handle);
    give_type(reference(dictionary, TypeNum(t)), out)
}

/// The least pointer to a type; if there is none, to the type that it resolves to.
#[unsafe(no_mangle)]
pub extern "C" fn ctfd_pointer(handle: &mut Handle, t: u16, out: &mut u16) -> u32
    ensures same { handle.new.held.dictionary ≡ handle.old.held.dictionary }
    ensures answer { Gives (ask handle.old.held.dictionary (λ s. pointer_answered (space_in s) t))
        result out.old out.new }
{
    let dictionary = dictionary_of!(handle);
    give_type(dictionary.pointer(TypeNum(t)), out)
}

/// What a function type returns.
#[unsafe(no_mangle)]
pub extern "C" fn ctfd_return(handle: &mut Handle, t: u16, out: &mut u16) -> u32
    ensures same { handle.new.held.dictionary ≡ handle.old.held.dictionary }
    ensures answer { Gives (ask handle.old.held.dictionary (λ s.
        on_shape return_answered (shape_of (space_type (space_in s) t))))
        result out.old out.new }
{
    let dictionary = dictionary_of!(handle);
    give_type(dictionary.return_type(TypeNum(t)), out)
}

/// An argument of a function type, counted from 0, as stored: a last 0 says that more may follow.
#[unsafe(no_mangle)]
pub extern "C" fn ctfd_argument(handle: &mut Handle, t: u16, index: usize, out: &mut u16) -> u32
    ensures same { handle.new.held.dictionary ≡ handle.old.held.dictionary }
    ensures answer { Gives (ask handle.old.held.dictionary (λ s.
        on_shape (argument_answered index) (shape_of (space_type (space_in s) t))))
        result out.old out.new }
{
    let dictionary = dictionary_of!(handle);
    give_type(dictionary.argument(TypeNum(t), index), out)
}
