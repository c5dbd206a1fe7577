//! Names that a draft owns.
ghost use Rattle.std.specs.Prelude.{◌≡◌, IfOk};

use smallvec::SmallVec;
use std::alloc::{AllocError, Global};
use std::marker::Model;

/// The name of a type, a member or an enumerator. One of at most 16 bytes, as most have, takes no
/// memory of its own.
#[derive(Drop)]
pub struct Name {
    bytes: SmallVec<u8, 16>,
}

impl Model for Name {
    ghost use Rattle.std.specs.Prelude.{ℕ, List};

    ghost Value = { List ℕ };

    ghost view = { λ n. n.bytes.items };
}

impl Name {
    /// A copy of a name.
    pub fn from_slice(alloc: Global, name: &[u8]) -> Result<Name, AllocError>
        ensures { IfOk result (λ copy. copy ≡ name.now) }
    {
        Ok(Name {
            bytes: SmallVec::from_slice(alloc, name)?,
        })
    }

    pub fn as_slice(&self) -> &[u8]
        ensures { result.now ≡ self.now }
    {
        self.bytes.as_slice()
    }
}
