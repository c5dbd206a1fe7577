//! The least number of the types that are looked for in a space.
ghost use Rattle.std.specs.Prelude.{◌≡◌};
ghost use Rattle.std.specs.Option.{option_map};
ghost use Rattle.ctf_model.specs.names.Lookups.{least as least_of, least_own, least_parents};
ghost use Rattle.ctf_names.specs.Fitting.{Fits, IsNamesOf};
ghost use Rattle.ctf_names.specs.Sought.{passes};
ghost use Rattle.ctf_space.specs.SpaceView.{own_lists, parent_lists, space_of};

use crate::index::NameIndex;
use crate::kept::Names;
use crate::sought::Sought;
use ctf_model::TypeNum;
use ctf_space::Space;

/// The least number of the own types that are looked for.
#[inline(always)]
fn least_among(space: &Space<'_>, names: &Names, sought: Sought<'_>) -> Option<TypeNum>
    requires { IsNamesOf (own_lists space.now) names.now }
    ensures { option_map (λ t. t.0) result
        ≡ least_own (passes sought.entry) (space_of space.now).own }
{
    let dictionary = space.dictionary();
    let place = names.first(&dictionary, sought)?;
    Some(space.own_number(place as usize))
}

/// The least number of the parent's types that are looked for, if there is a parent.
fn least_of_parent(space: &Space<'_>, index: &NameIndex, sought: Sought<'_>) -> Option<TypeNum>
    requires { Fits (own_lists space.now) (parent_lists space.now) index.now }
    ensures { option_map (λ t. t.0) result
        ≡ least_parents (passes sought.entry) (space_of space.now).parent }
{
    let parent = space.parent()?;
    match &index.parent {
        Some(names) => least_among(&parent, names, sought),
        None => None,
    }
}

/// The least number of the types that are looked for, own types before the parent's.
#[inline(always)]
pub(crate) fn least(space: &Space<'_>, index: &NameIndex, sought: Sought<'_>) -> Option<TypeNum>
    requires { Fits (own_lists space.now) (parent_lists space.now) index.now }
    ensures { option_map (λ t. t.0) result ≡ least_of (passes sought.entry) (space_of space.now) }
{
    match least_among(space, &index.own, sought) {
        Some(number) => Some(number),
        None => least_of_parent(space, index, sought),
    }
}
