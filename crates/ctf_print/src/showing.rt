//! The entry point: appends one value of a type as text, or nothing.
ghost use Rattle.std.specs.Prelude.{◌≡◌, ◌⊎◌, IfErr, OnErr, OnOk, Err, Ok};
ghost use Rattle.ctf_layout.specs.Fitting.{Fits};
ghost use Rattle.ctf_model.specs.rules.Refusals.{out_of_memory};
ghost use Rattle.ctf_model.specs.values.Values.{value_text};
ghost use Rattle.ctf_space.specs.SpaceView.{space_of};
ghost use Rattle.ctf_print.specs.Written.{append_answer};

use crate::image::Image;
use crate::pen::Pen;
use crate::show_cache::ShowCache;
use crate::text::Text;
use crate::values::show_value;
use ctf_layout::Layout;
use ctf_model::{Fault, TypeNum, placeless};
use ctf_space::Space;
use std::alloc::Global;

/// The greatest number of types in a chain of values, the first included.
const MOST_VALUES: u32 = 1027;

/// Appends the text of the value of type `number` that begins at bit `at` of the memory, counted
/// from 0. A refusal appends nothing.
pub fn show(
    alloc: Global,
    space: &Space<'_>,
    layout: &Layout,
    number: TypeNum,
    memory: &[u8],
    offset: u64,
    out: &mut Vec<u8>,
) -> Result<(), Fault>
    requires { Fits (space_of space.now) layout.now }
    ensures exact_ok { OnOk result (append_answer out.old.items
        (value_text (space_of space.now) memory.now number.0 offset) ≡ Ok out.new.items) }
    ensures exact_err { IfErr result (λ f. (f ≡ out_of_memory)
        ⊎ (value_text (space_of space.now) memory.now number.0 offset ≡ Err f)) }
    ensures kept { OnErr result (out.new.items ≡ out.old.items) }
{
    let image = Image {
        space: *space,
        layout,
        memory,
    };
    let mut pen = Pen {
        known: ShowCache::new(alloc, *space),
        out: Text::new(alloc),
        fault: placeless(Fault::INCOMPLETE),
    };
    match show_value(&image, number, u128::from(offset), MOST_VALUES, &mut pen) {
        Ok(()) => {}
        Err(_) => return Err(pen.fault),
    }
    out.extend_from_slice(pen.out.as_slice())?;
    Ok(())
}
