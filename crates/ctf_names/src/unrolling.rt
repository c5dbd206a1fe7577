//! The layers of a type, and the name inside.
ghost use Rattle.std.specs.Prelude.{◌≡◌, ◌⊎◌, ◌<◌, IfOk, IfErr, Ok, Err, codes, vec_len};
ghost use Rattle.ctf_model.specs.rules.Refusals.{out_of_memory};
ghost use Rattle.ctf_model.specs.names.TypeNames.{declaration, longest_text};
ghost use Rattle.ctf_names.specs.Bases.{base_text};
ghost use Rattle.ctf_names.specs.Unrolling.{declare};
ghost use Rattle.ctf_space.specs.SpaceView.{space_of};

use crate::inside::{Base, Inside, found_inside, or_anon};
use crate::texts::LONGEST_TEXT;
use ctf_model::{Fault, Layer, TypeNum, placeless};
use ctf_space::Space;
use std::alloc::Global;

/// A type as C declares it: its layers, the outermost first, and the name inside.
#[derive(Drop)]
pub struct Unrolled<'a> {
    pub layers: Vec<Layer>,
    pub base: Base<'a>,
}

/// The base `void`, in place of no type.
pub fn void<'a>() -> Base<'a>
    ensures { base_text result ≡ codes "void" }
{
    Base {
        tag: None,
        name: b"void",
    }
}

/// Unrolls the type with a number, layer by layer.
pub fn unroll<'a>(alloc: Global, space: &Space<'a>, number: TypeNum) -> Result<Unrolled<'a>, Fault>
    ensures ok { IfOk result (λ u. declaration (space_of space.now) number.0 ≡ Ok (declare u)) }
    ensures few { IfOk result (λ u. vec_len u.layers < longest_text) }
    ensures err { IfErr result (λ f. (f ≡ out_of_memory)
        ⊎ (declaration (space_of space.now) number.0 ≡ Err f)) }
{
    let mut layers = Vec::new(alloc);
    let mut at = number;
    for _step in 0..LONGEST_TEXT {
        if at.0 == 0 {
            return Ok(Unrolled {
                layers,
                base: void(),
            });
        }
        let found = space.term(at)?;
        match found_inside(&found.shape()) {
            Inside::Name(tag) => {
                let name = or_anon(found.name());
                return Ok(Unrolled {
                    layers,
                    base: Base { tag, name },
                });
            }
            Inside::Layer(layer, next) => {
                if layers.push(layer).is_err() {
                    return Err(placeless(Fault::MEMORY));
                }
                at = next;
            }
        }
    }
    Err(placeless(Fault::TOO_LONG))
}
