//! The type of a number, in the dictionary that has it.
ghost use Rattle.std.specs.Prelude.{◌≡◌, ◌<◌, IfOk, Some, slice_get};
ghost use Rattle.ctf_check.specs.CheckedView.{dictionary_of, lists_of};
ghost use Rattle.ctf_check.specs.TypedView.{dictionary_in};
ghost use Rattle.ctf_model.specs.spaces.Space.{space_type};
ghost use Rattle.ctf_model.specs.spaces.TypeNumbers.{or_no_type};
ghost use Rattle.ctf_model.specs.spaces.TypePlaces.{place as place_for};
ghost use Rattle.ctf_space.specs.SpaceView.{own_lists, parent_lists, space_of};
ghost use Rattle.ctf_space.specs.TypeView.{type_found};
ghost use Rattle.ctf_c.specs.names.Holders.{lists_at};

use ctf_check::{Checked, Typed};
use ctf_model::{Fault, Place, TypeNum, placeless};
use ctf_space::Space;

/// The own type of a dictionary with a number from 0.
fn own_type<'a>(dictionary: Checked<'a>, i: usize) -> Result<Typed<'a>, Fault>
    requires { i < 65536 }
    ensures found { type_found result
        ≡ or_no_type (slice_get (dictionary_of dictionary.entry).terms i) }
    ensures lists { IfOk result (λ x. lists_of (dictionary_in x) ≡ lists_of dictionary.entry) }
{
    match dictionary.type_at(i + 1) {
        Some(found) => Ok(found),
        None => Err(placeless(Fault::NO_TYPE)),
    }
}

/// The type of a number, in the dictionary that has it.
pub fn held_type<'a>(space: &Space<'a>, t: TypeNum) -> Result<Typed<'a>, Fault>
    ensures found { type_found result ≡ space_type (space_of space.now) t.0 }
    ensures lists { IfOk result (λ x. lists_at (place_for (space_of space.now).own.child t.0)
        (own_lists space.now) (parent_lists space.now) ≡ Some (lists_of (dictionary_in x))) }
{
    match t.place(space.child()) {
        Place::Own(i) => own_type(space.dictionary(), i),
        Place::Parents(i) => match space.parent() {
            Some(parent) => own_type(parent.dictionary(), i),
            None => Err(placeless(Fault::NO_PARENT)),
        },
        Place::Nowhere => Err(placeless(Fault::NO_TYPE)),
    }
}
