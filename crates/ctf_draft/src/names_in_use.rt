//! The names that the members or enumerators of a type have, by their hashes.
ghost use Rattle.std.specs.Prelude.{◌≡◌, [], is_some, OnErr, OnOk};
ghost use Rattle.ctf_draft.specs.NamesInUseView.{may_be_in, name_hash, with_hash};

use indexmap::IndexMap;
use std::alloc::{AllocError, Global};
use std::hash::{FoldHasher, Hasher};
use std::marker::Model;

/// The hash of each name that is not empty, with the place of a name that has this hash. Two names
/// may have the same hash, so a place is only where to look first.
#[derive(Drop)]
pub(crate) struct NamesInUse {
    places: IndexMap<u64, u16>,
}

impl Model for NamesInUse {
    ghost use Rattle.std.specs.Prelude.{ℕ, List};
    ghost use Rattle.std.specs.Map.{keys_of};

    ghost Value = { List ℕ };

    ghost view = { λ t. keys_of t.places.entries };
}

impl NamesInUse {
    pub(crate) fn new(alloc: Global) -> NamesInUse
        ensures { result ≡ [] }
    {
        NamesInUse {
            places: IndexMap::new(alloc),
        }
    }

    /// Where a name is, if it may be in use. If it may not, no name that was added is equal to it.
    pub(crate) fn place_of(&self, name: &[u8]) -> Option<usize>
        ensures { is_some result ≡ may_be_in self.now name.now }
    {
        if name.is_empty() {
            return None;
        }
        match self.places.get(&hash_of(name)) {
            Some(place) => Some(usize::from(*place)),
            None => None,
        }
    }

    /// Adds a name that gets a place, unless it is empty.
    pub(crate) fn add(&mut self, name: &[u8], place: usize) -> Result<(), AllocError>
        ensures ok { OnOk result (self.new ≡ with_hash self.old name.now) }
        ensures err { OnErr result (self.new ≡ self.old) }
    {
        if name.is_empty() {
            return Ok(());
        }
        let place = u16::try_from(place).unwrap_or(0);
        let Ok(_) = self.places.insert(hash_of(name), place) else {
            return Err(AllocError);
        };
        Ok(())
    }
}

/// The hash of a name: a number that equal names share.
fn hash_of(name: &[u8]) -> u64
    ensures { result ≡ name_hash name.now }
{
    let mut hasher = FoldHasher::default();
    hasher.write(name);
    hasher.finish()
}
