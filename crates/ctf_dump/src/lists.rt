//! The dump of files that were read: the files are checked, and then dumped.
ghost use Rattle.std.specs.Prelude.{◌≡◌, ◌⊎◌, IfOk, IfErr, OnOk, None, Some, option_copied};
ghost use Rattle.ctf_check.specs.ListsView.{lists_in};
ghost use Rattle.std.specs.Option.{option_map};
ghost use Rattle.std.specs.Io.KnownBytes.{Appends, Keeps};
ghost use Rattle.ctf_dump.specs.Progress.{HasBegun};
ghost use Rattle.ctf_dump.specs.Refused.{EndsBy, MayAnswer, RefusedBy, bytes_of, in_file, own_kept, own_lists, parent_lists, refusal, space_in, status_after};
ghost use Rattle.ctf_model.specs.dumps.Dump.{dump as text_of};
ghost use Rattle.ctf_model.specs.rules.Faults.{first_fault};
ghost use Rattle.ctf_model.specs.rules.Refusals.{out_of_memory};
ghost use Rattle.ctf_model.specs.spaces.Kept.{fault_over, kept_space};
ghost use Rattle.ctf_space.specs.SpaceView.{space_of};

use crate::dumping::dump;
use crate::ends::{DONE, DumpEnd};
use crate::inputs::{InputFile, Inputs};
use ctf_check::{Judged, LentLists};
use ctf_layout::Layout;
use ctf_model::{DataModel, Fault};
use ctf_space::Space;
use std::alloc::Global;
use std::io::Write;

/// How a dump ends if a file has a fault.
fn end_of_refusal(file: &str, fault: Fault) -> DumpEnd<'_>
    ensures memory { fault ≡ out_of_memory → result ≡ DumpEnd.Memory }
    ensures other { (result ≡ DumpEnd.Memory) ⊎ (result ≡ DumpEnd.Refused file.entry fault) }
{
    if fault.code == Fault::MEMORY {
        DumpEnd::Memory
    } else {
        DumpEnd::Refused(file, fault)
    }
}

/// The bytes of a file, if there is one.
fn bytes<'l>(file: &'l Option<InputFile<'_>>) -> Option<&'l [u8]>
    ensures { option_copied result ≡ bytes_of file.now }
{
    match file {
        Some(file) => Some(file.bytes.as_slice()),
        None => None,
    }
}

/// Checks lists; the CTF section comes from `file`.
fn judge_file<'l, 'a>(
    alloc: Global,
    file: &InputFile<'a>,
    lists: LentLists<'l>,
    model: DataModel,
) -> Result<Judged<'l>, DumpEnd<'a>>
    ensures ok { IfOk result
        (λ j. j.kept ≡ record { lists = lists_in lists.entry; model = model }) }
    ensures exact_ok { OnOk result (first_fault (lists_in lists.entry) ≡ None) }
    ensures exact_err { IfErr result (λ e. RefusedBy
        (in_file file.now (first_fault (lists_in lists.entry))) e) }
{
    match Judged::judge(alloc, lists, model) {
        Ok(judged) => Ok(judged),
        Err(fault) => Err(end_of_refusal(file.name, fault)),
    }
}

/// Checks the dictionary, with the symbols and strings of its program if there are files of them.
fn own_judged<'l, 'a>(alloc: Global, inputs: &'l Inputs<'a>) -> Result<Judged<'l>, DumpEnd<'a>>
    ensures ok { IfOk result (λ j. j.kept ≡ own_kept inputs.now) }
    ensures exact_ok { OnOk result (first_fault (own_lists inputs.now) ≡ None) }
    ensures exact_err { IfErr result (λ e. RefusedBy
        (in_file inputs.now.ctf (first_fault (own_lists inputs.now))) e) }
{
    let lists = LentLists {
        ctf: inputs.ctf.bytes.as_slice(),
        sym: bytes(&inputs.sym),
        strs: bytes(&inputs.str),
    };
    judge_file(alloc, &inputs.ctf, lists, inputs.model)
}

/// Checks a parent, which has no symbols, if there is a file of one.
fn parent_judged<'l, 'a>(
    alloc: Global,
    file: &'l InputFile<'a>,
    model: DataModel,
) -> Result<Judged<'l>, DumpEnd<'a>>
    ensures ok { IfOk result
        (λ j. j.kept ≡ record { lists = parent_lists file.now; model = model }) }
    ensures exact_ok { OnOk result (first_fault (parent_lists file.now) ≡ None) }
    ensures exact_err { IfErr result (λ e. RefusedBy
        (in_file file.now (first_fault (parent_lists file.now))) e) }
{
    let lists = LentLists {
        ctf: file.bytes.as_slice(),
        sym: None,
        strs: None,
    };
    judge_file(alloc, file, lists, model)
}

/// Dumps a space, and flushes the text.
fn dump_space<'a, W: Write>(
    alloc: Global,
    space: &Space<'_>,
    out: &mut W,
) -> Result<(), DumpEnd<'a>>
    ensures end { IfErr result (λ e. EndsBy None e) }
    ensures written { OnOk result (Appends (W.contents out.old) (W.contents out.new)
        (text_of (space_of space.now))) }
    ensures begun { IfErr result (λ e. e ≡ DumpEnd.Memory
        → HasBegun (W.contents out.old) (W.contents out.new) (text_of (space_of space.now))) }
{
    let layout = Layout::build(alloc, space)?;
    dump(alloc, space, &layout, out)?;
    match out.flush() {
        Ok(()) => Ok(()),
        Err(_) => Err(DumpEnd::Write),
    }
}

/// Dumps the dictionary of a file over its parent, unless that is refused.
fn dump_over<'a, W: Write>(
    alloc: Global,
    name: &'a str,
    own: &Judged<'_>,
    parent: &Judged<'_>,
    out: &mut W,
) -> Result<(), DumpEnd<'a>>
    ensures written { OnOk result (Appends (W.contents out.old) (W.contents out.new)
        (text_of (kept_space own.now.kept (Some parent.now.kept)))) }
    ensures exact_ok { OnOk result (fault_over own.now.kept parent.now.kept ≡ None) }
    ensures exact_err { IfErr result (λ e. EndsBy
        (option_map (λ x. record { file = name.now; fault = x })
        (fault_over own.now.kept parent.now.kept)) e) }
    ensures quiet { IfErr result (λ e. status_after e ≡ 1
        → Keeps (W.contents out.old) (W.contents out.new)) }
    ensures begun { IfErr result (λ e. e ≡ DumpEnd.Memory
        → HasBegun (W.contents out.old) (W.contents out.new)
        (text_of (kept_space own.now.kept (Some parent.now.kept)))) }
{
    match Space::over(own.view(), own.model(), parent.view(), parent.model()) {
        Ok(space) => dump_space(alloc, &space, out),
        Err(fault) => Err(DumpEnd::Refused(name, fault)),
    }
}

/// Dumps the files, unless one of them is refused. Nothing of them is copied.
fn dump_inputs<'a, W: Write>(
    alloc: Global,
    inputs: &Inputs<'a>,
    out: &mut W,
) -> Result<(), DumpEnd<'a>>
    ensures written { OnOk result (Appends (W.contents out.old) (W.contents out.new)
        (text_of (space_in inputs.now))) }
    ensures exact_ok { OnOk result (refusal inputs.now ≡ None) }
    ensures exact_err { IfErr result (λ e. EndsBy (refusal inputs.now) e) }
    ensures quiet { IfErr result (λ e. status_after e ≡ 1
        → Keeps (W.contents out.old) (W.contents out.new)) }
    ensures begun { IfErr result (λ e. e ≡ DumpEnd.Memory
        → HasBegun (W.contents out.old) (W.contents out.new) (text_of (space_in inputs.now))) }
{
    let own = own_judged(alloc, inputs)?;
    match &inputs.parent {
        None => dump_space(alloc, &Space::own(own.view(), own.model()), out),
        Some(file) => {
            let parent = parent_judged(alloc, file, inputs.model)?;
            dump_over(alloc, inputs.ctf.name, &own, &parent, out)
        }
    }
}

/// Writes the dump of files that were read, or writes to the second writer why not. Returns the
/// exit status of a program that does so.
pub fn dump_lists<W: Write, E: Write>(
    alloc: Global,
    inputs: Inputs<'_>,
    out: &mut W,
    err: &mut E,
) -> u8
    ensures status { MayAnswer (refusal inputs.entry) result }
    ensures written { result ≡ 0 → Appends (W.contents out.old) (W.contents out.new)
        (text_of (space_in inputs.entry)) }
    // If a file is refused, nothing is dumped.
    ensures quiet { result ≡ 1 → Keeps (W.contents out.old) (W.contents out.new) }
    // If memory is refused, the text breaks off.
    ensures begun { result ≡ 4 → HasBegun (W.contents out.old) (W.contents out.new)
        (text_of (space_in inputs.entry)) }
{
    match dump_inputs(alloc, &inputs, out) {
        Ok(()) => DONE,
        Err(end) => {
            let _ = writeln!(err, "ctfd: {end}");
            end.status()
        }
    }
}
