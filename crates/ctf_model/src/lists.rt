//! The byte lists of a dictionary, owned.
ghost use Rattle.std.specs.Prelude.{◌≡◌};
ghost use Rattle.ctf_model.specs.format.OwnedLists.{lists_owned};
ghost use Rattle.ctf_model.specs.format.Lists.{no_lists};

use crate::bytes::Bytes;
use std::alloc::Global;

/// The CTF section, and the program's symbol table and its strings, if there are any.
#[derive(Drop)]
pub struct Parts {
    pub ctf: Bytes,
    pub sym: Option<Bytes>,
    pub strs: Option<Bytes>,
}

/// No list of a dictionary yet.
pub fn no_parts(alloc: Global) -> Parts
    ensures { lists_owned result ≡ no_lists }
{
    Parts {
        ctf: Bytes::new(alloc),
        sym: None,
        strs: None,
    }
}
