//! The type that a type resolves to, and the one that it refers to.
ghost use Rattle.std.specs.Prelude.{◌≡◌, Ok, option_map};
ghost use Rattle.std.specs.Result.{result_map_both};
ghost use Rattle.ctf_check.specs.FactsView.{shape_view};
ghost use Rattle.ctf_layout.specs.Following.{follow_own, onward as onward_of, alias_target as renamed_of};
ghost use Rattle.ctf_model.specs.figures.Figures.{parents_figure, reference as reference_of, referred_type as referred_of, resolved_type, resolving};
ghost use Rattle.ctf_space.specs.SpaceView.{space_alone, space_of};

use ctf_check::Shape;
use ctf_model::{Fault, Kind, Place, TypeNum, placeless};
use ctf_space::Space;
use ctf_views::Variant;

/// The greatest number of types in a chain within a dictionary: the steps of the longest chain, one
/// more type, and the number after it.
const MOST_NUMBERS: u16 = 514;

/// The type that a typedef or a qualifier refers to.
fn alias_target(x: &Shape<'_>) -> Option<TypeNum>
    ensures { option_map (λ t. t.0) result ≡ renamed_of (shape_view x.now) }
{
    match x.kind {
        Kind::KTypedef | Kind::KVolatile | Kind::KConst | Kind::KRestrict => x.reference,
        _ => None,
    }
}

/// Follows typedefs and qualifiers among own types. A number of the parent's is not followed.
fn follow(space: &Space<'_>, number: TypeNum) -> Result<TypeNum, Fault>
    ensures { result_map_both (λ t. t.0) (λ f. f) result
        ≡ follow_own (space_of space.now).own number.0 }
{
    let mut at = number;
    for _step in 0..MOST_NUMBERS {
        if at.0 == 0 {
            return Ok(at);
        }
        if let Place::Parents(_) = at.place(space.child()) {
            return Ok(at);
        }
        let found = space.term(at)?;
        match alias_target(&found.shape()) {
            Some(next) => at = next,
            None => return Ok(at),
        }
    }
    Err(placeless(Fault::INCOMPLETE))
}

/// The same in the parent of a space, where numbers of a parent lead no further.
fn follow_parents(parent: &Space<'_>, number: TypeNum) -> Result<TypeNum, Fault>
    ensures { let d = (space_of parent.now).own in result_map_both (λ t. t.0) (λ f. f) result
        ≡ resolved_type (space_alone d (space_of parent.now).model) number.0 }
{
    let at = follow(parent, number)?;
    match at.place(parent.child()) {
        Place::Parents(_) => Err(placeless(Fault::NO_PARENT)),
        _ => Ok(at),
    }
}

/// Follows a number in the parent, if it is one of the parent's.
fn onward(space: &Space<'_>, at: TypeNum) -> Result<TypeNum, Fault>
    ensures { let s = space_of space.now in result_map_both (λ t. t.0) (λ f. f) result
        ≡ onward_of (parents_figure resolving s.parent) s.own (Ok at.0) }
{
    match at.place(space.child()) {
        Place::Parents(_) => match space.parent() {
            Some(parent) => follow_parents(&parent, at),
            None => Err(placeless(Fault::NO_PARENT)),
        },
        _ => Ok(at),
    }
}

/// The type that a type resolves to, through typedefs and qualifiers; 0 if that is no type.
pub fn resolve(space: &Space<'_>, number: TypeNum) -> Result<TypeNum, Fault>
    ensures { result_map_both (λ t. t.0) (λ f. f) result
        ≡ resolved_type (space_of space.now) number.0 }
{
    let at = follow(space, number)?;
    onward(space, at)
}

/// What a type refers to, by its shape.
pub fn referred(x: Shape<'_>) -> Result<TypeNum, Fault>
    ensures { result_map_both (λ t. t.0) (λ f. f) result ≡ referred_of (shape_view x.entry) }
{
    match (x.behind, x.reference) {
        (Variant::Args(_), _) | (_, None) => Err(placeless(Fault::NOT_REFERENCE)),
        (_, Some(at)) => Ok(at),
    }
}

/// The type that a type points to, renames or qualifies, as it is declared.
pub fn reference(space: &Space<'_>, number: TypeNum) -> Result<TypeNum, Fault>
    ensures { result_map_both (λ t. t.0) (λ f. f) result
        ≡ reference_of (space_of space.now) number.0 }
{
    let found = space.term(number)?;
    referred(found.shape())
}
