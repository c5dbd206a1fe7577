//! Writes a draft whose last update wrote a dictionary.
ghost use Rattle.std.specs.Prelude.{◌≡◌, ◌⊎◌, IfErr, IfOk, Err, Ok};
ghost use Rattle.ctf_check.specs.CheckedView.{lists_of};
ghost use Rattle.ctf_model.specs.drafts.Drafts.{content as held_by, rollback};
ghost use Rattle.ctf_model.specs.rules.Refusals.{out_of_memory};
ghost use Rattle.ctf_model.specs.writing.Written.{lists_of as lists_alone, written};
ghost use Rattle.ctf_writer.specs.Before.{IsBefore};
ghost use Rattle.ctf_writer.specs.Updating.{StandsFor};

use crate::before::Before;
use crate::draft_view::DraftContent;
use crate::writing::write_content;
use ctf_check::Checked;
use ctf_draft::Draft;
use ctf_model::{Fault, Section};
use std::alloc::Global;

/// What of the dictionary is written again as it is: all types, if no label was added, else none.
fn before_in<'a>(draft: &Draft, dictionary: Checked<'a>) -> Before<'a>
    requires written { written (held_by (rollback draft.now.draft))
        ≡ Ok (lists_of dictionary).ctf }
    requires alone { lists_of dictionary ≡ lists_alone (lists_of dictionary).ctf }
    ensures { IsBefore (held_by draft.now.draft) result }
{
    let held = DraftContent::of(draft);
    if dictionary.section(Section::SLabels).len() / 8 == held.labels.len() {
        Before::all(dictionary)
    } else {
        Before::nothing()
    }
}

/// What `write` gives, if the last update of the draft wrote this dictionary. Unless labels were
/// added since, its records and strings are copied, and only what was added is written.
pub fn write_over(alloc: Global, draft: &Draft, dictionary: Checked<'_>) -> Result<Vec<u8>, Fault>
    requires written { written (held_by (rollback draft.now.draft))
        ≡ Ok (lists_of dictionary).ctf }
    requires alone { lists_of dictionary ≡ lists_alone (lists_of dictionary).ctf }
    ensures ok { IfOk result (λ bytes. written (held_by draft.now.draft) ≡ Ok bytes.items) }
    ensures stands { IfOk result (λ bytes. StandsFor draft.now.draft bytes.items) }
    ensures exact_err { IfErr result (λ f. (f ≡ out_of_memory)
        ⊎ (written (held_by draft.now.draft) ≡ Err f)) }
{
    write_content(alloc, DraftContent::of(draft), before_in(draft, dictionary))
}
