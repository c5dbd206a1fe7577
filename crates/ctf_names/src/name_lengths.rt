//! The length of a type's name, computed from the innermost name, layer by layer.
ghost use Rattle.std.specs.Prelude.{◌≡◌, [], ◌∷◌, IfSome, Result, Err, length, min};
ghost use Rattle.ctf_model.specs.declared.faults.Fault.{Fault as Refusal};
ghost use Rattle.ctf_model.specs.names.TypeNames.{Declaration, around as round_of, declared, text_of_declaration};
ghost use Rattle.ctf_names.specs.Bases.{base_text};
ghost use Rattle.ctf_names.specs.NameLengths.{lengths_of, measure, of_base as lengths_of_base, one_more};

use crate::inside::{Base, plus_base};
use crate::marks::{first_beyond, mark_of};
use crate::sides::{plus_front, plus_sides};
use crate::texts::{LONGEST_TEXT, plus};
use ctf_model::{Fault, Layer, placeless};

/// The lengths of the two parts of a text that further layers go around. A length above
/// `LONGEST_TEXT` counts as `TOO_LONG`.
#[derive(Clone, Copy)]
pub struct NameLengths {
    /// The name, with the qualifiers in front of it.
    name: usize,
    /// The declarator.
    declarator: usize,
    /// The outermost layer that is no qualifier.
    below: Option<Layer>,
}

/// The lengths of a name without layers.
pub fn of_base(base: Base<'_>) -> NameLengths
    ensures { result ≡ lengths_of_base (base_text base.entry) }
{
    NameLengths {
        name: plus_base(0, base),
        declarator: 0,
        below: None,
    }
}

/// The lengths with one layer more.
fn round(layer: Layer, inside: NameLengths) -> NameLengths
    ensures { (d : Declaration) → inside ≡ lengths_of d → result ≡ lengths_of (one_more layer d) }
{
    let mark = mark_of(false, layer, inside.below);
    NameLengths {
        name: plus_front(inside.name, mark),
        declarator: plus_sides(inside.declarator, mark),
        below: first_beyond(layer, inside.below),
    }
}

/// The lengths of a layer around a type.
pub fn around(layer: Layer, inside: Result<NameLengths, Fault>) -> Result<NameLengths, Fault>
    ensures { (x : Result Declaration Refusal) → measure x ≡ inside
        → result ≡ measure (round_of layer x) }
{
    Ok(round(layer, inside?))
}

/// The length of the text of a type whose outermost layer is this one.
fn whole_len(layer: Layer, inside: NameLengths) -> usize
    ensures { (d : Declaration) → inside ≡ lengths_of d
        → result ≡ min (length (declared (layer ∷ d.layers) d.name [])) 65537 }
{
    let mark = mark_of(true, layer, inside.below);
    let name = plus_front(inside.name, mark);
    let declarator = plus_sides(inside.declarator, mark);
    if declarator == 0 {
        name
    } else {
        plus(plus(name, 1), declarator)
    }
}

/// Why a layer around a type has no name, if it has none.
pub fn refused(layer: Layer, inside: Result<NameLengths, Fault>) -> Option<Fault>
    ensures { (x : Result Declaration Refusal) → measure x ≡ inside
        → IfSome result (λ f. text_of_declaration (round_of layer x) ≡ Err f) }
{
    match inside {
        Err(fault) => Some(fault),
        Ok(lengths) => {
            if whole_len(layer, lengths) > LONGEST_TEXT {
                Some(placeless(Fault::TOO_LONG))
            } else {
                None
            }
        }
    }
}
