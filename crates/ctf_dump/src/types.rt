//! The lines of types, with their members or enumerators.
ghost use Rattle.std.specs.Prelude.{◌≡◌, ◌++◌, [], codes, decimal, option_map, IfErr, OnOk, Ok};
ghost use Rattle.std.specs.List.{flat_map};
ghost use Rattle.std.specs.Io.KnownBytes.{Appends, Keeps};
ghost use Rattle.ctf_check.specs.FactsView.{facts_view, shape_view};
ghost use Rattle.ctf_dump.specs.Progress.{HasBegun};
ghost use Rattle.ctf_dump.specs.Words.{array_text, encoding_text, facts_text, figures_text, lines_behind, lines_of_type, returned_text, root_text, shape_text, size_text, to_text, typed_text};
ghost use Rattle.ctf_layout.specs.Fitting.{Fits};
ghost use Rattle.ctf_model.specs.dumps.Dump.{in_quotes, member_line as line_of_member, or_fault, value_line as line_of_value};
ghost use Rattle.ctf_model.specs.names.KindNames.{name_of_tag};
ghost use Rattle.ctf_model.specs.spaces.Space.{space_type};
ghost use Rattle.ctf_model.specs.format.Term.{Term};
ghost use Rattle.ctf_model.specs.names.TypeNames.{spelled_name};
ghost use Rattle.ctf_records.specs.RecordView.{tag_of};
ghost use Rattle.ctf_space.specs.SpaceView.{space_of};
ghost use Rattle.ctf_views.specs.ItemsView.{enumerator as enumerator_shown, member as member_shown};
ghost use Rattle.ctf_views.specs.PartsView.{array_info, encoding_info};
ghost use Rattle.ctf_views.specs.VariantView.{shown_of};

use crate::heads::put_signature;
use crate::line::{DumpFault, Line};
use ctf_check::{Facts, Shape};
use ctf_layout::Layout;
use ctf_model::{Fault, TypeNum, fault_name, kind_name};
use ctf_names::KnownNames;
use ctf_records::Tag;
use ctf_space::Space;
use ctf_views::{Args, ArrayInfo, Encoding, Enumerator, Enumerators, Member, Members, Variant};
use std::alloc::{AllocError, Global};
use std::io::Write;

fn tag_word(tag: Tag) -> &'static str
    ensures { result.now ≡ codes " tag=" ++ name_of_tag (tag_of tag) }
{
    match tag {
        Tag::Struct => " tag=struct",
        Tag::Union => " tag=union",
        Tag::Enum => " tag=enum",
    }
}

fn put_size(line: &mut Line, size: Option<u64>) -> Result<(), AllocError>
    ensures { OnOk result (line.new ≡ line.old ++ size_text size) }
{
    match size {
        Some(size) => line.word(" size=", size),
        None => Ok(()),
    }
}

fn put_reference(line: &mut Line, number: Option<TypeNum>) -> Result<(), AllocError>
    ensures { OnOk result (line.new ≡ line.old ++ to_text (option_map (λ t. t.0) number)) }
{
    match number {
        Some(number) => line.word(" to=", u64::from(number.0)),
        None => Ok(()),
    }
}

fn put_returned(line: &mut Line, ret: Option<TypeNum>, args: Args<'_>) -> Result<(), AllocError>
    ensures { OnOk result (line.new ≡ line.old
        ++ returned_text (option_map (λ t. t.0) ret) args.entry) }
{
    match ret {
        Some(ret) => put_signature(line, ret, args),
        None => Ok(()),
    }
}

fn put_array(line: &mut Line, info: ArrayInfo) -> Result<(), AllocError>
    ensures { OnOk result (line.new ≡ line.old ++ array_text (array_info info)) }
{
    line.word(" contents=", u64::from(info.contents.0))?;
    line.word(" index=", u64::from(info.index.0))?;
    line.word(" count=", u64::from(info.count))
}

fn put_encoding(line: &mut Line, info: Encoding) -> Result<(), AllocError>
    ensures { OnOk result (line.new ≡ line.old ++ encoding_text (encoding_info info)) }
{
    line.word(" encoding=", u64::from(info.encoding))?;
    line.word(" offset=", u64::from(info.offset))?;
    line.word(" bits=", u64::from(info.bits))
}

/// What a type's record says, apart from its name and its list.
fn put_detail(line: &mut Line, x: Shape<'_>) -> Result<(), AllocError>
    ensures { OnOk result (line.new ≡ line.old ++ shape_text (shape_view x.entry)) }
{
    let Shape {
        size,
        reference,
        behind,
        ..
    } = x;
    match behind {
        Variant::Members(_) | Variant::Enumerators(_) => put_size(line, size),
        Variant::Args(args) => put_returned(line, reference, args),
        Variant::Array(info) => {
            put_array(line, info)?;
            put_size(line, size)
        }
        Variant::Encoding(info) => {
            put_size(line, size)?;
            put_encoding(line, info)
        }
        Variant::Tag(tag) => line.text(tag_word(tag)),
        Variant::Nothing => put_reference(line, reference),
    }
}

/// The name of the type with a number, or in its place that of the fault.
fn put_spelled(
    alloc: Global,
    names: &mut KnownNames<'_>,
    number: TypeNum,
    line: &mut Line,
) -> Result<(), AllocError>
    ensures text { OnOk result (line.new ≡ line.old
        ++ or_fault in_quotes (spelled_name names.old number.0)) }
    ensures kept { names.new ≡ names.old }
{
    let mut name = Vec::new(alloc);
    match names.spell(number, &mut name) {
        Ok(()) => line.push_quoted(&name),
        Err(fault) if fault.code == Fault::MEMORY => Err(AllocError),
        Err(fault) => line.text(fault_name(fault.code)),
    }
}

fn put_figure(line: &mut Line, figure: Result<u64, Fault>) -> Result<(), AllocError>
    ensures { OnOk result (line.new ≡ line.old ++ or_fault decimal figure) }
{
    match figure {
        Ok(figure) => line.number(figure),
        Err(fault) => line.text(fault_name(fault.code)),
    }
}

fn root_word(root: bool) -> &'static str
    ensures { result.now ≡ root_text root }
{
    if root { " root" } else { " hidden" }
}

/// The words of a type, up to those of its record.
fn put_facts(line: &mut Line, number: TypeNum, x: Facts<'_>) -> Result<(), AllocError>
    ensures { OnOk result (line.new ≡ line.old ++ facts_text number.0 (facts_view x.entry)) }
{
    line.word("type ", u64::from(number.0))?;
    line.text(" ")?;
    line.text(kind_name(x.shape.kind))?;
    line.text(" ")?;
    line.push_quoted(x.name)?;
    line.text(root_word(x.root))?;
    put_detail(line, x.shape)
}

/// The spelled name of a type, its size and its alignment.
fn put_figures(
    alloc: Global,
    names: &mut KnownNames<'_>,
    layout: &Layout,
    number: TypeNum,
    line: &mut Line,
) -> Result<(), AllocError>
    ensures text { Fits names.old layout.now → OnOk result (line.new ≡ line.old
        ++ figures_text names.old number.0) }
    ensures kept { names.new ≡ names.old }
{
    line.text(" : ")?;
    put_spelled(alloc, names, number, line)?;
    line.text(" bytes=")?;
    put_figure(line, layout.size(number))?;
    line.text(" align=")?;
    put_figure(line, layout.align(number))
}

fn member_line<W: Write>(member: Member<'_>, line: &mut Line, out: &mut W) -> Result<(), DumpFault>
    requires { line.old ≡ [] }
    ensures written { OnOk result (Appends (W.contents out.old) (W.contents out.new)
        (line_of_member (member_shown member.entry))) }
    ensures empty { OnOk result (line.new ≡ []) }
    ensures quiet { IfErr result (λ f. f ≡ DumpFault.Memory
        → Keeps (W.contents out.old) (W.contents out.new)) }
{
    line.text("  member ")?;
    line.push_quoted(member.name)?;
    line.word(" offset=", member.offset)?;
    line.word(" type=", u64::from(member.tnum.0))?;
    line.end(out)
}

#[tactic(auto, using(crate::proofs::Progress::all_done, crate::proofs::Progress::nothing_yet, crate::proofs::Progress::one_more, crate::proofs::Progress::not_begun, crate::proofs::Progress::begun_next))]
fn member_lines<W: Write>(
    members: Members<'_>,
    line: &mut Line,
    out: &mut W,
) -> Result<(), DumpFault>
    requires { line.old ≡ [] }
    ensures written { OnOk result (Appends (W.contents out.old) (W.contents out.new)
        (flat_map line_of_member members.entry)) }
    ensures empty { OnOk result (line.new ≡ []) }
    ensures begun { IfErr result (λ f. f ≡ DumpFault.Memory
        → HasBegun (W.contents out.old) (W.contents out.new)
        (flat_map line_of_member members.entry)) }
{
    for member in members {
        member_line(member, line, out)?;
    }
    Ok(())
}

fn value_line<W: Write>(
    enumerator: Enumerator<'_>,
    line: &mut Line,
    out: &mut W,
) -> Result<(), DumpFault>
    requires { line.old ≡ [] }
    ensures written { OnOk result (Appends (W.contents out.old) (W.contents out.new)
        (line_of_value (enumerator_shown enumerator.entry))) }
    ensures empty { OnOk result (line.new ≡ []) }
    ensures quiet { IfErr result (λ f. f ≡ DumpFault.Memory
        → Keeps (W.contents out.old) (W.contents out.new)) }
{
    line.text("  value ")?;
    line.push_quoted(enumerator.name)?;
    line.text(" ")?;
    line.push_signed(enumerator.value)?;
    line.end(out)
}

#[tactic(auto, using(crate::proofs::Progress::all_done, crate::proofs::Progress::nothing_yet, crate::proofs::Progress::one_more, crate::proofs::Progress::not_begun, crate::proofs::Progress::begun_next))]
fn value_lines<W: Write>(
    enumerators: Enumerators<'_>,
    line: &mut Line,
    out: &mut W,
) -> Result<(), DumpFault>
    requires { line.old ≡ [] }
    ensures written { OnOk result (Appends (W.contents out.old) (W.contents out.new)
        (flat_map line_of_value enumerators.entry)) }
    ensures empty { OnOk result (line.new ≡ []) }
    ensures begun { IfErr result (λ f. f ≡ DumpFault.Memory
        → HasBegun (W.contents out.old) (W.contents out.new)
        (flat_map line_of_value enumerators.entry)) }
{
    for enumerator in enumerators {
        value_line(enumerator, line, out)?;
    }
    Ok(())
}

/// The lines of what follows a type's head: its members or enumerators.
fn list_of_lines<W: Write>(
    behind: Variant<'_>,
    line: &mut Line,
    out: &mut W,
) -> Result<(), DumpFault>
    requires { line.old ≡ [] }
    ensures written { OnOk result (Appends (W.contents out.old) (W.contents out.new)
        (lines_behind (shown_of behind.entry))) }
    ensures empty { OnOk result (line.new ≡ []) }
    ensures begun { IfErr result (λ f. f ≡ DumpFault.Memory
        → HasBegun (W.contents out.old) (W.contents out.new)
        (lines_behind (shown_of behind.entry))) }
{
    match behind {
        Variant::Members(members) => member_lines(members, line, out),
        Variant::Enumerators(enumerators) => value_lines(enumerators, line, out),
        _ => Ok(()),
    }
}

/// The line of a type with a number.
fn type_line<W: Write>(
    alloc: Global,
    names: &mut KnownNames<'_>,
    layout: &Layout,
    number: TypeNum,
    facts: Facts<'_>,
    line: &mut Line,
    out: &mut W,
) -> Result<(), DumpFault>
    requires { line.old ≡ [] }
    ensures written { Fits names.old layout.now → OnOk result
        (Appends (W.contents out.old) (W.contents out.new)
        (typed_text names.old number.0 (facts_view facts.entry))) }
    ensures empty { OnOk result (line.new ≡ []) }
    ensures kept { names.new ≡ names.old }
    ensures quiet { IfErr result (λ f. f ≡ DumpFault.Memory
        → Keeps (W.contents out.old) (W.contents out.new)) }
{
    put_facts(line, number, facts)?;
    put_figures(alloc, names, layout, number, line)?;
    line.end(out)
}

/// The lines of the type with a number.
pub fn type_lines<W: Write>(
    alloc: Global,
    space: &Space<'_>,
    names: &mut KnownNames<'_>,
    layout: &Layout,
    number: TypeNum,
    line: &mut Line,
    out: &mut W,
) -> Result<(), DumpFault>
    requires known { names.old ≡ space_of space.now }
    requires line { line.old ≡ [] }
    ensures written { Fits (space_of space.now) layout.now → (x : Term)
        → space_type (space_of space.now) number.0 ≡ Ok x → OnOk result
        (Appends (W.contents out.old) (W.contents out.new)
        (lines_of_type (space_of space.now) number.0 x)) }
    ensures empty { OnOk result (line.new ≡ []) }
    ensures kept { names.new ≡ names.old }
    ensures begun { Fits (space_of space.now) layout.now → (x : Term)
        → space_type (space_of space.now) number.0 ≡ Ok x → IfErr result
        (λ f. f ≡ DumpFault.Memory → HasBegun (W.contents out.old) (W.contents out.new)
        (lines_of_type (space_of space.now) number.0 x)) }
{
    let Ok(found) = space.term(number) else {
        return Ok(());
    };
    type_line(alloc, names, layout, number, found.facts(), line, out)?;
    list_of_lines(found.variant(), line, out)
}
