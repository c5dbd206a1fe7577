//! Which type a written name finds, and which pointer points to a type.
ghost use Rattle.std.specs.Prelude.{◌≡◌, Ok};
ghost use Rattle.std.specs.Option.{option_map};
ghost use Rattle.std.specs.Result.{result_map_both};
ghost use Rattle.ctf_model.specs.names.Lookups.{lookup, or_not_found as or_not_found_of, pointers_on as pointed_of, pointer_behind as pointer_behind_of, pointer_to as pointer_of};
ghost use Rattle.ctf_model.specs.figures.Figures.{resolved_type as resolved_of};
ghost use Rattle.ctf_names.specs.Fitting.{Fits};
ghost use Rattle.ctf_space.specs.SpaceView.{own_lists, parent_lists, space_of};

use crate::index::NameIndex;
use crate::numbers::least;
use crate::sought::Sought;
use crate::written::{base, is_no_name, stars, written};
use ctf_layout::resolve;
use ctf_model::{Fault, TypeNum, placeless};
use ctf_space::Space;

fn or_not_found(number: Option<TypeNum>) -> Result<TypeNum, Fault>
    ensures { result_map_both (λ t. t.0) (λ f. f) result
        ≡ or_not_found_of (option_map (λ t. t.0) number) }
{
    match number {
        Some(number) => Ok(number),
        None => Err(placeless(Fault::NOT_FOUND)),
    }
}

/// The least pointer to the type that a type resolves to, unless that is no type.
fn pointer_behind(space: &Space<'_>, index: &NameIndex, target: TypeNum) -> Result<TypeNum, Fault>
    requires { Fits (own_lists space.now) (parent_lists space.now) index.now }
    ensures { let s = space_of space.now in result_map_both (λ t. t.0) (λ f. f) result
        ≡ pointer_behind_of s (resolved_of s target.0) }
{
    match resolve(space, target)? {
        TypeNum(0) => Err(placeless(Fault::NOT_FOUND)),
        resolved => or_not_found(least(space, index, Sought::PointerTo(resolved))),
    }
}

/// The least pointer to a type; if there is none, to the type that it resolves to. Takes no memory.
pub fn pointer_to(space: &Space<'_>, index: &NameIndex, target: TypeNum) -> Result<TypeNum, Fault>
    requires { Fits (own_lists space.now) (parent_lists space.now) index.now }
    ensures { result_map_both (λ t. t.0) (λ f. f) result
        ≡ pointer_of (space_of space.now) target.0 }
{
    match least(space, index, Sought::PointerTo(target)) {
        Some(number) => Ok(number),
        None => pointer_behind(space, index, target),
    }
}

/// The same for a type that is known to resolve to `resolved`.
pub fn pointer_resolved(
    space: &Space<'_>,
    index: &NameIndex,
    target: TypeNum,
    resolved: TypeNum,
) -> Result<TypeNum, Fault>
    requires fits { Fits (own_lists space.now) (parent_lists space.now) index.now }
    requires stands { resolved_of (space_of space.now) target.0 ≡ Ok resolved.0 }
    ensures { result_map_both (λ t. t.0) (λ f. f) result
        ≡ pointer_of (space_of space.now) target.0 }
{
    if let Some(number) = least(space, index, Sought::PointerTo(target)) {
        return Ok(number);
    }
    if resolved.0 == 0 {
        return Err(placeless(Fault::NOT_FOUND));
    }
    if resolved.0 == target.0 {
        return Err(placeless(Fault::NOT_FOUND));
    }
    or_not_found(least(space, index, Sought::PointerTo(resolved)))
}

/// Goes from a type to the pointer to it, so many times.
fn pointers_on(
    space: &Space<'_>,
    index: &NameIndex,
    count: usize,
    from: TypeNum,
) -> Result<TypeNum, Fault>
    requires { Fits (own_lists space.now) (parent_lists space.now) index.now }
    ensures { result_map_both (λ t. t.0) (λ f. f) result
        ≡ pointed_of (space_of space.now) count (Ok from.0) }
{
    let mut at = from;
    for _star in 0..count {
        at = pointer_to(space, index, at)?;
    }
    Ok(at)
}

/// The type that a written name, such as `struct node **`, finds. Takes no memory.
pub fn find(space: &Space<'_>, index: &NameIndex, text: &[u8]) -> Result<TypeNum, Fault>
    requires { Fits (own_lists space.now) (parent_lists space.now) index.now }
    ensures { result_map_both (λ t. t.0) (λ f. f) result ≡ lookup (space_of space.now) text.now }
{
    let base = base(text);
    if is_no_name(base) {
        return Err(placeless(Fault::BAD_SYNTAX));
    }
    let parts = written(base);
    let sought = Sought::Named {
        sort: parts.sort,
        name: parts.name,
    };
    let first = or_not_found(least(space, index, sought))?;
    pointers_on(space, index, stars(&text[base.len()..]), first)
}
