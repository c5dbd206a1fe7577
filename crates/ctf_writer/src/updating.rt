//! Makes the additions to a draft part of its dictionary.
ghost use Rattle.std.specs.Prelude.{◌≡◌, ◌⊎◌, IfErr, IfOk, OnErr, OnOk, MatchOption, None, Err, length};
ghost use Rattle.ctf_model.specs.drafts.Drafts.{content as held_by, commit};
ghost use Rattle.ctf_model.specs.format.Dictionary.{said_by};
ghost use Rattle.ctf_model.specs.rules.Faults.{first_fault};
ghost use Rattle.ctf_model.specs.rules.Refusals.{out_of_memory};
ghost use Rattle.ctf_model.specs.writing.Written.{lists_of, written};
ghost use Rattle.ctf_writer.specs.Updating.{IsMadeOf};

use crate::writing::write;
use ctf_check::Judged;
use ctf_draft::Draft;
use ctf_model::{Bytes, DataModel, Fault, Parts, placeless};
use std::alloc::Global;
use std::rc::Rc;

/// The dictionary of bytes without a fault, which encode so many types.
fn judge(
    alloc: Global,
    bytes: Vec<u8>,
    model: DataModel,
    count: usize,
) -> Result<Rc<Judged<'static>>, Fault>
    requires faultless { first_fault (lists_of bytes.items) ≡ None }
    requires count { count ≡ length (said_by (lists_of bytes.items)).terms }
    ensures ok { IfOk result
        (λ d. d.value.kept ≡ record { lists = lists_of bytes.items; model = model }) }
    ensures err { IfErr result (λ f. f ≡ out_of_memory) }
{
    let parts = Parts {
        ctf: Bytes::from(bytes),
        sym: None,
        strs: None,
    };
    let dictionary = Judged::of_faultless(alloc, parts, model, count)?;
    match Rc::new(alloc, dictionary) {
        Ok(dictionary) => Ok(dictionary),
        Err(_) => Err(placeless(Fault::MEMORY)),
    }
}

/// Makes all additions part of the draft's dictionary, which then has the bytes that `write` gives;
/// or leaves the draft as it was, with the fault for which it is not written.
///
/// The bytes can be borrowed from `draft.dictionary()`.
pub fn update(alloc: Global, draft: &mut Draft) -> Result<(), Fault>
    ensures draft { OnOk result (draft.new.draft ≡ commit draft.old.draft) }
    ensures dictionary { OnOk result
        (MatchOption draft.new.dictionary ⊥ (IsMadeOf draft.old.draft)) }
    ensures exact_err { IfErr result (λ f. (f ≡ out_of_memory)
        ⊎ (written (held_by draft.old.draft) ≡ Err f)) }
    ensures kept { OnErr result (draft.new ≡ draft.old) }
{
    let bytes = write(alloc, draft)?;
    let dictionary = judge(alloc, bytes, draft.model(), draft.types().len())?;
    draft.settle(dictionary);
    Ok(())
}
