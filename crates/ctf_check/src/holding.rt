//! The lists of a dictionary, owned or borrowed.
ghost use Rattle.std.specs.Prelude.{◌≡◌};
ghost use Rattle.ctf_check.specs.DictionaryListsView.{lists_held};
ghost use Rattle.ctf_check.specs.ListsView.{lists_in};

use crate::lists::{LentLists, lent_lists};
use ctf_model::Parts;

/// The lists of a dictionary, owned or borrowed.
#[derive(Drop)]
pub(crate) enum DictionaryLists<'a> {
    Owned(Parts),
    Lent(LentLists<'a>),
}

impl<'a> DictionaryLists<'a> {
    /// The lists, borrowed.
    pub(crate) fn lists(&self) -> LentLists<'_>
        ensures { lists_in result ≡ lists_held self.now }
    {
        match self {
            DictionaryLists::Owned(parts) => lent_lists(parts),
            DictionaryLists::Lent(lists) => *lists,
        }
    }

    /// The CTF section.
    #[inline(always)]
    pub(crate) fn ctf(&self) -> &[u8]
        ensures { result.now ≡ (lists_held self.now).ctf }
    {
        match self {
            DictionaryLists::Owned(parts) => parts.ctf.as_slice(),
            DictionaryLists::Lent(lists) => lists.ctf,
        }
    }
}
