//! The first lines: the dictionary itself, its labels, and what it says of symbols.
ghost use Rattle.std.specs.Prelude.{◌≡◌, ◌++◌, [], codes, decimal, map, IfErr, OnOk};
ghost use Rattle.std.specs.List.{flat_map};
ghost use Rattle.std.specs.Io.KnownBytes.{Appends, Keeps};
ghost use Rattle.ctf_check.specs.CheckedView.{dictionary_of};
ghost use Rattle.ctf_dump.specs.Progress.{HasBegun};
ghost use Rattle.ctf_dump.specs.Words.{function_text, object_text, parent_text, signature_text};
ghost use Rattle.ctf_entries.specs.EntriesView.{entry as entry_shown};
ghost use Rattle.ctf_entries.specs.FunctionView.{signature};
ghost use Rattle.ctf_model.specs.dumps.Dump.{head_line as line_of_head, in_quotes, label_line as line_of_label, numbers, symbol_line as line_of_symbol, yes_or_no};
ghost use Rattle.ctf_model.specs.dumps.Texts.{after_commas};
ghost use Rattle.ctf_views.specs.ItemsView.{label as label_shown};

use crate::line::{DumpFault, Line};
use ctf_check::Checked;
use ctf_entries::{Entry, Signature, SymbolInfo};
use ctf_model::TypeNum;
use ctf_views::{Args, Label};
use std::alloc::AllocError;
use std::io::Write;

fn child_word(child: bool) -> &'static str
    ensures { result.now ≡ codes " child=" ++ yes_or_no child }
{
    if child { " child=yes" } else { " child=no" }
}

/// The parent that a dictionary names, and up to which label it uses the parent.
fn put_parent(line: &mut Line, dictionary: &Checked<'_>) -> Result<(), AllocError>
    ensures { OnOk result (line.new ≡ line.old ++ parent_text (dictionary_of dictionary.now)) }
{
    line.text(" parname=")?;
    line.push_quoted(dictionary.parname())?;
    line.text(" parlabel=")?;
    line.push_quoted(dictionary.parlabel())
}

pub fn head_line<W: Write>(
    dictionary: &Checked<'_>,
    line: &mut Line,
    out: &mut W,
) -> Result<(), DumpFault>
    requires { line.old ≡ [] }
    ensures written { OnOk result (Appends (W.contents out.old) (W.contents out.new)
        (line_of_head (dictionary_of dictionary.now))) }
    ensures empty { OnOk result (line.new ≡ []) }
    ensures quiet { IfErr result (λ f. f ≡ DumpFault.Memory
        → Keeps (W.contents out.old) (W.contents out.new)) }
{
    line.word("ctf types=", dictionary.count() as u64)?;
    line.text(child_word(dictionary.child()))?;
    put_parent(line, dictionary)?;
    line.end(out)
}

fn label_line<W: Write>(label: Label<'_>, line: &mut Line, out: &mut W) -> Result<(), DumpFault>
    requires { line.old ≡ [] }
    ensures written { OnOk result (Appends (W.contents out.old) (W.contents out.new)
        (line_of_label (label_shown label.entry))) }
    ensures empty { OnOk result (line.new ≡ []) }
    ensures quiet { IfErr result (λ f. f ≡ DumpFault.Memory
        → Keeps (W.contents out.old) (W.contents out.new)) }
{
    line.text("label ")?;
    line.push_quoted(label.name)?;
    line.word(" ", u64::from(label.last))?;
    line.end(out)
}

#[tactic(auto, using(crate::proofs::Progress::all_done, crate::proofs::Progress::nothing_yet, crate::proofs::Progress::one_more, crate::proofs::Progress::not_begun, crate::proofs::Progress::begun_next))]
pub fn label_lines<W: Write>(
    dictionary: &Checked<'_>,
    line: &mut Line,
    out: &mut W,
) -> Result<(), DumpFault>
    requires { line.old ≡ [] }
    ensures written { OnOk result (Appends (W.contents out.old) (W.contents out.new)
        (flat_map line_of_label (dictionary_of dictionary.now).labels)) }
    ensures empty { OnOk result (line.new ≡ []) }
    ensures begun { IfErr result (λ f. f ≡ DumpFault.Memory
        → HasBegun (W.contents out.old) (W.contents out.new)
        (flat_map line_of_label (dictionary_of dictionary.now).labels)) }
{
    for label in dictionary.labels() {
        label_line(label, line, out)?;
    }
    Ok(())
}

/// Numbers of types, with a comma before each.
fn put_more(line: &mut Line, args: Args<'_>) -> Result<(), AllocError>
    ensures { OnOk result (line.new ≡ line.old ++ after_commas (map decimal args.entry)) }
{
    for arg in args {
        line.word(",", u64::from(arg.0))?;
    }
    Ok(())
}

/// Numbers of types, with commas between them.
fn put_numbers(line: &mut Line, args: Args<'_>) -> Result<(), AllocError>
    ensures { OnOk result (line.new ≡ line.old ++ numbers args.entry) }
{
    let mut args = args;
    match args.next() {
        Some(first) => {
            line.number(u64::from(first.0))?;
            put_more(line, args)
        }
        None => Ok(()),
    }
}

/// What a function returns and takes; its arguments as stored.
pub fn put_signature(line: &mut Line, ret: TypeNum, args: Args<'_>) -> Result<(), AllocError>
    ensures { OnOk result (line.new ≡ line.old ++ signature_text ret.0 args.entry) }
{
    line.word(" return=", u64::from(ret.0))?;
    line.text(" args=")?;
    put_numbers(line, args)
}

fn put_symbol(line: &mut Line, class: &str, number: u32, name: &[u8]) -> Result<(), AllocError>
    ensures { OnOk result (line.new ≡ line.old
        ++ (class.now ++ (decimal number ++ (codes " " ++ in_quotes name.now)))) }
{
    line.word(class, u64::from(number))?;
    line.text(" ")?;
    line.push_quoted(name)
}

fn object_line<W: Write>(
    number: u32,
    name: &[u8],
    tnum: TypeNum,
    line: &mut Line,
    out: &mut W,
) -> Result<(), DumpFault>
    requires { line.old ≡ [] }
    ensures written { OnOk result (Appends (W.contents out.old) (W.contents out.new)
        (object_text number name.now tnum.0)) }
    ensures empty { OnOk result (line.new ≡ []) }
    ensures quiet { IfErr result (λ f. f ≡ DumpFault.Memory
        → Keeps (W.contents out.old) (W.contents out.new)) }
{
    put_symbol(line, "object ", number, name)?;
    line.word(" ", u64::from(tnum.0))?;
    line.end(out)
}

fn function_line<W: Write>(
    number: u32,
    name: &[u8],
    info: Signature<'_>,
    line: &mut Line,
    out: &mut W,
) -> Result<(), DumpFault>
    requires { line.old ≡ [] }
    ensures written { OnOk result (Appends (W.contents out.old) (W.contents out.new)
        (function_text number name.now (signature info.entry))) }
    ensures empty { OnOk result (line.new ≡ []) }
    ensures quiet { IfErr result (λ f. f ≡ DumpFault.Memory
        → Keeps (W.contents out.old) (W.contents out.new)) }
{
    put_symbol(line, "function ", number, name)?;
    put_signature(line, info.ret, info.args)?;
    line.end(out)
}

/// The line of a symbol. A symbol of which the dictionary says nothing has no line, and its name is
/// not read.
fn symbol_line<W: Write>(entry: Entry<'_>, line: &mut Line, out: &mut W) -> Result<(), DumpFault>
    requires { line.old ≡ [] }
    ensures written { OnOk result (Appends (W.contents out.old) (W.contents out.new)
        (line_of_symbol (entry_shown entry.entry))) }
    ensures empty { OnOk result (line.new ≡ []) }
    ensures quiet { IfErr result (λ f. f ≡ DumpFault.Memory
        → Keeps (W.contents out.old) (W.contents out.new)) }
{
    let Entry {
        number,
        symbol,
        info,
    } = entry;
    match info {
        SymbolInfo::Object(Some(tnum)) => object_line(number, symbol.name(), tnum, line, out),
        SymbolInfo::Function(Some(info)) => function_line(number, symbol.name(), info, line, out),
        _ => Ok(()),
    }
}

#[tactic(auto, using(crate::proofs::Progress::all_done, crate::proofs::Progress::nothing_yet, crate::proofs::Progress::one_more, crate::proofs::Progress::not_begun, crate::proofs::Progress::begun_next))]
pub fn symbol_lines<W: Write>(
    dictionary: &Checked<'_>,
    line: &mut Line,
    out: &mut W,
) -> Result<(), DumpFault>
    requires { line.old ≡ [] }
    ensures written { OnOk result (Appends (W.contents out.old) (W.contents out.new)
        (flat_map line_of_symbol (dictionary_of dictionary.now).entries)) }
    ensures empty { OnOk result (line.new ≡ []) }
    ensures begun { IfErr result (λ f. f ≡ DumpFault.Memory
        → HasBegun (W.contents out.old) (W.contents out.new)
        (flat_map line_of_symbol (dictionary_of dictionary.now).entries)) }
{
    for entry in dictionary.entries() {
        symbol_line(entry, line, out)?;
    }
    Ok(())
}
