//! Writes a draft as bytes.
ghost use Rattle.std.specs.Prelude.{[], ◌≡◌, ◌+◌, ◌<◌, ◌≤◌, ◌^◌, ◌⊎◌, ◌++◌, length, IfErr, IfOk, MatchOption, Err, Ok, vec_len, vec_capacity};
ghost use Rattle.std.specs.List.{All, AllByRecursion, flat_map};
ghost use Rattle.ctf_draft.specs.TypeView.{type_of};
ghost use Rattle.ctf_model.specs.drafts.Drafts.{content as held_by};
ghost use Rattle.ctf_model.specs.drafts.Fitting.{Fits};
ghost use Rattle.ctf_model.specs.rules.Refusals.{out_of_memory};
ghost use Rattle.ctf_model.specs.writing.WritingLaws.{IsKept};
ghost use Rattle.ctf_model.specs.writing.Written.{bytes_of, fields_over, header_bytes, labels_written, most_written, records_written, written};
ghost use Rattle.ctf_model.specs.writing.WrittenNames.{strings_of as strings_in};
ghost use Rattle.ctf_writer.specs.DraftContentView.{dictionary_of, uses, written_type};
ghost use Rattle.ctf_writer.specs.Before.{IsBefore, later_uses};
ghost use Rattle.ctf_writer.specs.Tables.{names, used};
ghost use Rattle.ctf_writer.specs.Updating.{StandsFor};
ghost use Rattle.ctf_writer.specs.Uses.{with_names};

use crate::before::Before;
use crate::chains::judge_chains;
use crate::draft_view::DraftContent;
use crate::labels::put_labels;
use crate::numbers::{copy, put, put_u32};
use crate::records::put_record;
use crate::sizes::records_len;
use crate::strings::{LONGEST, Strings};
use crate::uses::strings_of;
use ctf_draft::{Draft, DraftType};
use ctf_model::{Fault, placeless};
use std::alloc::Global;

/// The length of the header.
const HEADER: usize = 36;

/// The numbers in the header: the references of the parent's label and name, and the lengths of
/// labels, records and strings.
#[derive(Clone, Copy)]
struct Heading {
    parlabel: u32,
    parname: u32,
    labels: u32,
    records: u32,
    strings: u32,
}

/// Appends a header.
fn put_header(out: &mut Vec<u8>, heading: Heading)
    requires room { vec_len out.old + 36 ≤ vec_capacity out.old }
    requires fits { heading.labels + heading.records < 2 ^ 32 }
    ensures items { out.new.items ≡ out.old.items ++ header_bytes (fields_over heading.parlabel
        heading.parname heading.labels heading.records heading.strings) }
    ensures len { vec_len out.new ≡ vec_len out.old + 36 }
    ensures capacity { vec_capacity out.new ≡ vec_capacity out.old }
{
    put(out, &[0xf1, 0xcf, 2, 0]);
    put_u32(out, heading.parlabel);
    put_u32(out, heading.parname);
    put_u32(out, 0);
    put_u32(out, heading.labels);
    put_u32(out, heading.labels);
    put_u32(out, heading.labels);
    put_u32(out, heading.labels + heading.records);
    put_u32(out, heading.strings);
}

/// Appends the records of types.
fn put_records(out: &mut Vec<u8>, strings: &Strings<'_>, types: &[DraftType])
    requires room { vec_len out.old
        + length (flat_map (written_type (names strings.now)) types.now) ≤ vec_capacity out.old }
    requires fits { All (λ t. Fits (type_of t)) types.now }
    requires kept { All (λ t. AllByRecursion (IsKept (used strings.now)) (uses t)) types.now }
    ensures items { out.new.items
        ≡ out.old.items ++ flat_map (written_type (names strings.now)) types.now }
    ensures len { vec_len out.new ≡ vec_len out.old
        + length (flat_map (written_type (names strings.now)) types.now) }
    ensures capacity { vec_capacity out.new ≡ vec_capacity out.old }
{
    for t in types {
        put_record(out, strings, t);
    }
}

/// The lengths of the parts, and of the whole.
#[derive(Clone, Copy)]
struct Lengths {
    labels: usize,
    records: usize,
    whole: usize,
}

/// The lengths of the parts, if the whole is no more than a dictionary may have.
fn lengths_of(held: DraftContent<'_>, before: Before<'_>, strings: &Strings<'_>) -> Option<Lengths>
    requires fits { AllByRecursion Fits (dictionary_of held).terms }
    requires before { IsBefore (dictionary_of held) before }
    requires strings { names strings.now ≡ strings_in (dictionary_of held) }
    ensures { MatchOption result (most_written < length (bytes_of (dictionary_of held.entry)))
        (λ l. (l.labels ≡ length (labels_written (dictionary_of held.entry)))
        × (l.records ≡ length (records_written (dictionary_of held.entry)))
        × (l.whole ≡ length (bytes_of (dictionary_of held.entry))) × (l.whole ≤ most_written)) }
{
    if held.labels.len() > LONGEST / 8 {
        return None;
    }
    let labels = 8 * held.labels.len();
    let Some(more) = records_len(before.others(held.types)) else {
        return None;
    };
    let records = before.records.len() + more;
    let whole = HEADER + labels + records + strings.len();
    if whole > LONGEST {
        return None;
    }
    Some(Lengths {
        labels,
        records,
        whole,
    })
}

/// Appends the content of a draft, whose parts have these lengths.
fn put_content(
    out: &mut Vec<u8>,
    held: DraftContent<'_>,
    before: Before<'_>,
    strings: &Strings<'_>,
    lengths: Lengths,
)
    requires fits { AllByRecursion Fits (dictionary_of held).terms }
    requires before { IsBefore (dictionary_of held) before }
    requires strings { names strings.now ≡ strings_in (dictionary_of held) }
    requires used { used strings.now ≡ with_names [] (later_uses (dictionary_of held) before.count) }
    requires labels { lengths.labels ≡ length (labels_written (dictionary_of held)) }
    requires records { lengths.records ≡ length (records_written (dictionary_of held)) }
    requires short { length (bytes_of (dictionary_of held)) ≤ most_written }
    requires room { vec_len out.old + length (bytes_of (dictionary_of held))
        ≤ vec_capacity out.old }
    ensures items { out.new.items ≡ out.old.items ++ bytes_of (dictionary_of held.entry) }
{
    let heading = Heading {
        parlabel: strings.reference(held.parlabel),
        parname: strings.reference(held.parname),
        labels: lengths.labels as u32,
        records: lengths.records as u32,
        strings: strings.len() as u32,
    };
    put_header(out, heading);
    put_labels(out, strings, held.labels);
    copy(out, before.records);
    put_records(out, strings, before.others(held.types));
    strings.put(out);
}

/// The content of a draft as bytes, or the fault for which it is not written. What was written
/// before is copied.
pub(crate) fn write_content(
    alloc: Global,
    held: DraftContent<'_>,
    before: Before<'_>,
) -> Result<Vec<u8>, Fault>
    requires fits { AllByRecursion Fits (dictionary_of held).terms }
    requires before { IsBefore (dictionary_of held) before }
    ensures ok { IfOk result (λ bytes. written (dictionary_of held.entry) ≡ Ok bytes.items) }
    ensures exact_err { IfErr result (λ f. (f ≡ out_of_memory)
        ⊎ (written (dictionary_of held.entry) ≡ Err f)) }
{
    judge_chains(alloc, held)?;
    let strings = strings_of(alloc, held, before)?;
    let Some(lengths) = lengths_of(held, before, &strings) else {
        return Err(placeless(Fault::DICT_TOO_BIG));
    };
    let mut out = Vec::with_capacity(alloc, lengths.whole)?;
    put_content(&mut out, held, before, &strings, lengths);
    Ok(out)
}

/// All that a draft holds, updated and pending, as the bytes of a dictionary; or the fault for
/// which it is not written: a chain of types that is too long, or too many bytes.
///
/// Takes time linear in the bytes, and allocates exactly that many at once.
pub fn write(alloc: Global, draft: &Draft) -> Result<Vec<u8>, Fault>
    ensures ok { IfOk result (λ bytes. written (held_by draft.now.draft) ≡ Ok bytes.items) }
    ensures stands { IfOk result (λ bytes. StandsFor draft.now.draft bytes.items) }
    ensures exact_err { IfErr result (λ f. (f ≡ out_of_memory)
        ⊎ (written (held_by draft.now.draft) ≡ Err f)) }
{
    write_content(alloc, DraftContent::of(draft), Before::nothing())
}
