//! All lines of a dictionary.
ghost use Rattle.std.specs.Prelude.{◌≡◌, ◌<◌, [], IfErr, OnOk};
ghost use Rattle.std.specs.Io.KnownBytes.{Appends};
ghost use Rattle.ctf_dump.specs.Progress.{HasBegun};
ghost use Rattle.ctf_layout.specs.Fitting.{Fits};
ghost use Rattle.ctf_model.specs.dumps.Dump.{dump as text_of, types_from};
ghost use Rattle.ctf_model.specs.spaces.TypePlaces.{own_number};
ghost use Rattle.ctf_space.specs.SpaceView.{space_of};

use crate::heads::{head_line, label_lines, symbol_lines};
use crate::line::{DumpFault, Line};
use crate::types::type_lines;
use ctf_layout::Layout;
use ctf_model::TypeNum;
use ctf_names::KnownNames;
use ctf_space::Space;
use std::alloc::Global;
use std::io::Write;

/// The number of an own type that is counted from 0 here.
fn number_of(child: bool, place: usize) -> TypeNum
    requires { place < 32767 }
    ensures { result.0 ≡ own_number child place }
{
    let first: u16 = if child { 0x8001 } else { 1 };
    TypeNum(place as u16 + first)
}

/// The lines of all own types.
#[tactic(auto, using(crate::proofs::Progress::nothing_yet))]
fn all_type_lines<W: Write>(
    alloc: Global,
    space: &Space<'_>,
    names: &mut KnownNames<'_>,
    layout: &Layout,
    line: &mut Line,
    out: &mut W,
) -> Result<(), DumpFault>
    requires known { names.old ≡ space_of space.now }
    requires line { line.old ≡ [] }
    ensures written { Fits (space_of space.now) layout.now → OnOk result
        (Appends (W.contents out.old) (W.contents out.new)
        (types_from (space_of space.now) 0 (space_of space.now).own.terms)) }
    ensures begun { Fits (space_of space.now) layout.now → IfErr result
        (λ f. f ≡ DumpFault.Memory → HasBegun (W.contents out.old) (W.contents out.new)
        (types_from (space_of space.now) 0 (space_of space.now).own.terms)) }
{
    let dictionary = space.dictionary();
    for place in 0..dictionary.count() {
        let number = number_of(dictionary.child(), place);
        type_lines(alloc, space, names, layout, number, line, out)?;
    }
    Ok(())
}

/// Writes a dictionary as text, line by line. The types are its own; their names, sizes and
/// alignments are those over the parent, if there is one.
pub fn dump<W: Write>(
    alloc: Global,
    space: &Space<'_>,
    layout: &Layout,
    out: &mut W,
) -> Result<(), DumpFault>
    ensures written { Fits (space_of space.now) layout.now → OnOk result
        (Appends (W.contents out.old) (W.contents out.new) (text_of (space_of space.now))) }
    ensures begun { Fits (space_of space.now) layout.now → IfErr result
        (λ f. f ≡ DumpFault.Memory → HasBegun (W.contents out.old) (W.contents out.new)
        (text_of (space_of space.now))) }
{
    let mut line = Line::new(alloc);
    let dictionary = space.dictionary();
    head_line(&dictionary, &mut line, out)?;
    label_lines(&dictionary, &mut line, out)?;
    symbol_lines(&dictionary, &mut line, out)?;
    let mut names = KnownNames::new(alloc, *space);
    all_type_lines(alloc, space, &mut names, layout, &mut line, out)
}
