//! The byte lists of a dictionary, borrowed.
ghost use Rattle.std.specs.Prelude.{◌≡◌, option_copied};
ghost use Rattle.ctf_check.specs.ListsView.{lists_in};
ghost use Rattle.ctf_model.specs.format.OwnedLists.{lists_owned};

use ctf_model::{Bytes, Parts};

/// The CTF section, and the program's symbol table and its strings, if there are any.
#[derive(Clone, Copy)]
pub struct LentLists<'a> {
    pub ctf: &'a [u8],
    pub sym: Option<&'a [u8]>,
    pub strs: Option<&'a [u8]>,
}

/// The bytes of a list, if there is one.
fn list_bytes(list: &Option<Bytes>) -> Option<&[u8]>
    ensures { option_copied result ≡ list.now }
{
    match list {
        Some(bytes) => Some(bytes.as_slice()),
        None => None,
    }
}

/// Owned lists, borrowed.
pub fn lent_lists(parts: &Parts) -> LentLists<'_>
    ensures { lists_in result ≡ lists_owned parts.now }
{
    LentLists {
        ctf: parts.ctf.as_slice(),
        sym: list_bytes(&parts.sym),
        strs: list_bytes(&parts.strs),
    }
}
