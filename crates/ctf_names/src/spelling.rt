//! Spells the name of a type.
ghost use Rattle.std.specs.Prelude.{◌≡◌, ◌+◌, ◌≤◌, ◌⊎◌, ◌++◌, length, min, vec_len, vec_capacity, OnOk, IfErr, OnErr, Ok, Err};
ghost use Rattle.ctf_model.specs.rules.Refusals.{out_of_memory};
ghost use Rattle.ctf_model.specs.names.TypeNames.{spelled_name};
ghost use Rattle.ctf_names.specs.Adding.{append_text};
ghost use Rattle.ctf_names.specs.Bases.{base_text};
ghost use Rattle.ctf_names.specs.Marks.{marked_text};
ghost use Rattle.ctf_space.specs.SpaceView.{space_of};

use crate::inside::{Base, plus_base, put_base};
use crate::marks::{Mark, marked};
use crate::sides::{plus_fronts, plus_lefts, plus_rights, put_fronts, put_lefts, put_rights};
use crate::texts::{LONGEST_TEXT, TOO_LONG, plus, put};
use crate::unrolling::unroll;
use ctf_model::{Fault, TypeNum, placeless};
use ctf_space::Space;
use std::alloc::Global;

/// The length of a text, or `TOO_LONG`.
fn text_len(marks: &[Mark], base: Base<'_>) -> usize
    ensures { result ≡ min (length (marked_text marks.now (base_text base.entry))) TOO_LONG }
{
    let declarator = plus_rights(plus_lefts(0, marks), marks);
    let len = plus_fronts(plus_base(0, base), marks);
    if declarator == 0 {
        len
    } else {
        plus(plus(len, 1), declarator)
    }
}

/// Appends a text, for which there is room.
fn put_text(out: &mut Vec<u8>, marks: &[Mark], base: Base<'_>)
    requires { vec_len out.old + length (marked_text marks.now (base_text base))
        ≤ vec_capacity out.old }
    ensures { out.new.items ≡ out.old.items ++ marked_text marks.now (base_text base.entry) }
{
    put_fronts(out, marks);
    put_base(out, base);
    if plus_rights(plus_lefts(0, marks), marks) != 0 {
        put(out, b" ");
        put_lefts(out, marks);
        put_rights(out, marks);
    }
}

/// Appends the name of the type with a number, as C spells it. First its length is computed, and
/// room for all of it is allocated, so a refusal appends nothing.
pub fn spell(
    alloc: Global,
    space: &Space<'_>,
    number: TypeNum,
    out: &mut Vec<u8>,
) -> Result<(), Fault>
    ensures exact_ok { OnOk result
        (append_text out.old.items (spelled_name (space_of space.now) number.0)
        ≡ Ok out.new.items) }
    ensures exact_err { IfErr result (λ f. (f ≡ out_of_memory)
        ⊎ (spelled_name (space_of space.now) number.0 ≡ Err f)) }
    ensures kept { OnErr result (out.new.items ≡ out.old.items) }
{
    let unrolled = unroll(alloc, space, number)?;
    let marks = marked(alloc, unrolled.layers.as_slice())?;
    let len = text_len(marks.as_slice(), unrolled.base);
    if len > LONGEST_TEXT {
        return Err(placeless(Fault::TOO_LONG));
    }
    out.reserve_exact(len)?;
    put_text(out, marks.as_slice(), unrolled.base);
    Ok(())
}
