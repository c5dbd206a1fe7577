//! A draft, borrowed to be written.
ghost use Rattle.std.specs.Prelude.{◌≡◌};
ghost use Rattle.ctf_model.specs.drafts.DraftLaws.{IsSound};
ghost use Rattle.ctf_model.specs.drafts.Drafts.{content};
ghost use Rattle.ctf_writer.specs.DraftContentView.{dictionary_of};

use ctf_draft::{Draft, DraftType, Labels};

/// All that is written of a draft: its updated and its pending parts.
#[derive(Clone, Copy)]
pub struct DraftContent<'a> {
    pub child: bool,
    pub parname: &'a [u8],
    pub parlabel: &'a [u8],
    pub labels: &'a Labels,
    pub types: &'a [DraftType],
}

impl<'a> DraftContent<'a> {
    pub fn of(draft: &'a Draft) -> DraftContent<'a>
        ensures dictionary { dictionary_of result ≡ content draft.now.draft }
        ensures sound { IsSound draft.now.draft }
    {
        DraftContent {
            child: draft.parent().is_some(),
            parname: draft.parname(),
            parlabel: draft.parlabel(),
            labels: draft.labels(),
            types: draft.types(),
        }
    }
}
