//! What each layer adds to a text, and where.
ghost use Rattle.std.specs.Prelude.{◌≡◌, IfOk, Option, true};
ghost use Rattle.ctf_model.specs.names.TypeNames.{is_pointer as is_pointer_below, is_behind as is_behind_below};
ghost use Rattle.ctf_names.specs.Marks.{mark, marks};
ghost use Rattle.ctf_names.specs.MarkSteps.{beyond};

use ctf_model::{Layer, Qualifier};
use std::alloc::{AllocError, Global};

/// A layer's part of a text.
#[derive(Clone, Copy)]
pub enum Mark {
    /// A qualifier in front of the name.
    Front(Qualifier),
    /// A qualifier of a pointer, with nothing after it.
    Alone(Qualifier),
    /// A qualifier of a pointer, before more of the declarator.
    Before(Qualifier),
    Star,
    /// A star that is put in parentheses with what is inside, before the brackets after it.
    Grouped,
    /// An array's brackets.
    Count(u32),
    /// A function's parentheses.
    Call,
}

fn is_pointer(below: Option<Layer>) -> bool
    ensures { result ≡ is_pointer_below below }
{
    matches!(below, Some(Layer::Pointer))
}

fn is_behind(below: Option<Layer>) -> bool
    ensures { result ≡ is_behind_below below }
{
    matches!(below, Some(Layer::Array(_) | Layer::Function))
}

/// The mark of a layer. It depends on whether the layer is the outermost, and on what its
/// qualifiers qualify.
pub fn mark_of(outermost: bool, layer: Layer, below: Option<Layer>) -> Mark
    ensures { result ≡ mark outermost layer below }
{
    match layer {
        Layer::Pointer => {
            if is_behind(below) {
                Mark::Grouped
            } else {
                Mark::Star
            }
        }
        Layer::Array(count) => Mark::Count(count),
        Layer::Function => Mark::Call,
        Layer::Qualified(qualifier) => {
            if !is_pointer(below) {
                Mark::Front(qualifier)
            } else if outermost {
                Mark::Alone(qualifier)
            } else {
                Mark::Before(qualifier)
            }
        }
    }
}

/// A layer, or the layer below it if it is a qualifier.
pub fn first_beyond(layer: Layer, below: Option<Layer>) -> Option<Layer>
    ensures { result ≡ beyond layer below }
{
    match layer {
        Layer::Qualified(_) => below,
        _ => Some(layer),
    }
}

/// The marks of all layers, the outermost first.
pub fn marked(alloc: Global, layers: &[Layer]) -> Result<Vec<Mark>, AllocError>
    ensures { IfOk result (λ ms. ms.items ≡ marks true layers.now) }
{
    let mut found = Vec::new(alloc);
    let mut below = None;
    for k in 0..layers.len() {
        let i = layers.len() - 1 - k;
        let layer = layers[i];
        found.push(mark_of(i == 0, layer, below))?;
        below = first_beyond(layer, below);
    }
    found.as_mut_slice().reverse();
    Ok(found)
}
