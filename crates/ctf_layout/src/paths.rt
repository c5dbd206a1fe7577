//! The offset of a member of a member.
ghost use Rattle.std.specs.Prelude.{◌≡◌, option_map};
ghost use Rattle.std.specs.Result.{result_map_both};
ghost use Rattle.ctf_layout.specs.Reached.{position_of, spot};
ghost use Rattle.ctf_model.specs.figures.Paths.{member_position, members_found, path as path_to, step_to as stepped};
ghost use Rattle.ctf_model.specs.spaces.Space.{space_type};
ghost use Rattle.ctf_space.specs.SpaceView.{space_of};
ghost use Rattle.ctf_views.specs.ItemsView.{member as shown_member};

use crate::figures::resolve;
use crate::path_names::PathNames;
use ctf_model::{Fault, TypeNum, placeless};
use ctf_sections::{Differences, Places};
use ctf_space::Space;
use ctf_views::{Member, Members, Variant};

/// From this many bytes on, the names of a path count as long.
const LONG: usize = 4096;

/// A position on a path: its offset in bits, and the type that is declared there.
#[derive(Clone, Copy)]
pub(crate) struct Reached {
    offset: u64,
    tnum: TypeNum,
}

/// The members of the struct or union that a number names.
fn members<'a>(space: &Space<'a>, number: TypeNum) -> Option<Members<'a>>
    ensures { result ≡ members_found (space_type (space_of space.now) number.0) }
{
    match space.term(number) {
        Ok(found) => match found.variant() {
            Variant::Members(members) => Some(members),
            _ => None,
        },
        Err(_) => None,
    }
}

/// The position of a member at an offset, if there is such a member and the sum fits.
fn behind(step: u64, offset: u64, member: Option<Member<'_>>) -> Result<Reached, Fault>
    ensures { result_map_both spot (λ f. f) result
        ≡ member_position step offset (option_map shown_member member.entry) }
{
    let Some(member) = member else {
        return Err(Fault {
            code: Fault::NO_MEMBER,
            place: step,
        });
    };
    match offset.checked_add(member.offset) {
        Some(offset) => Ok(Reached {
            offset,
            tnum: member.tnum,
        }),
        None => Err(placeless(Fault::TOO_BIG)),
    }
}

/// One step of a path: to the first member with a name.
fn step_to(
    space: &Space<'_>,
    step: u64,
    name: &[u8],
    at: Reached,
    others: &mut Differences<'_>,
) -> Result<Reached, Fault>
    ensures { result_map_both spot (λ f. f) result
        ≡ stepped (space_of space.now) step name.now (spot at) }
{
    let number = resolve(space, at.tnum)?;
    match members(space, number) {
        Some(members) => behind(step, at.offset, members.member_named(name, others)),
        None => Err(Fault {
            code: Fault::NOT_AGGREGATE,
            place: step,
        }),
    }
}

/// Whether the names of a path are long in all.
fn are_long<N: PathNames>(names: &N) -> bool {
    let mut left = LONG;
    for place in 0..names.count() {
        left = left.saturating_sub(names.name(place).len());
    }
    left == 0
}

/// Takes all steps of a path, from a type on.
fn follow_names<N: PathNames>(
    space: &Space<'_>,
    number: TypeNum,
    names: &N,
    others: &mut Differences<'_>,
) -> Result<(u64, TypeNum), Fault>
    ensures { result_map_both position_of (λ f. f) result
        ≡ path_to (space_of space.now) number.0 (N.names_of names.now) }
{
    let mut at = Reached {
        offset: 0,
        tnum: number,
    };
    for step in 0..names.count() {
        at = step_to(space, step as u64, names.name(step), at, others)?;
    }
    Ok((at.offset, at.tnum))
}

/// The offset in bits of the member that names lead to, from a type on, and its type as declared.
/// Each step takes the first member with its name, and looks into no unnamed member; no name leads
/// to the beginning of the type itself. If names are long, the places at which others differed from
/// them are cached for all steps.
pub fn path<N: PathNames>(
    space: &Space<'_>,
    number: TypeNum,
    names: &N,
) -> Result<(u64, TypeNum), Fault>
    ensures { result_map_both position_of (λ f. f) result
        ≡ path_to (space_of space.now) number.0 (N.names_of names.now) }
{
    if !are_long(names) {
        return follow_names(space, number, names, &mut Differences::none());
    }
    let mut places = Places::new();
    follow_names(space, number, names, &mut Differences::kept_in(&mut places))
}
