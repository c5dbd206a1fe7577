//! Dictionaries under names, each found by its name's hash.
ghost use Rattle.std.specs.Prelude.{◌≡◌, ◌+◌, ◌<◌, ◌^◌, ◌++◌, [], ◌∷◌, true, false, Ok, IfOk, OnErr, is_some, not, option_map, sum_by, ◌↔◌, IsTrue};
ghost use Rattle.std.specs.BTreeMap.{IsOrdered, get, insert_entry};
ghost use Rattle.ctf_model.specs.opened.Sizes.{kept_bytes};
ghost use Rattle.ctf_library.specs.NameOrder.{by_hash};
ghost use Rattle.ctf_protocol.specs.sessions.Charges.{publication_bytes};
ghost use Rattle.ctf_protocol.specs.sessions.Publications.{published_as, published_without};

use crate::name_keys::{NameKey, NameQuery};
use crate::publication::Publication;
use ctf_open::Loaded;
use ctf_protocol::PublicationName;
use std::alloc::{AllocError, Global};
use std::collections::BTreeMap;
use std::collections::btree_map::Entry;
use std::marker::Model;

/// Publications and the sum of their bytes. They are stored in the order of their keys, and
/// contracts see them in the order in which they were published.
#[derive(Drop)]
pub struct PublicationMap {
    alloc: Global,
    by_name: BTreeMap<NameKey, Publication>,
    turns: u64,
    bytes: u128,
}

impl Model for PublicationMap {
    ghost use Rattle.std.specs.Prelude.{List};
    ghost use Rattle.ctf_library.specs.Published.{IsKept, published_in};
    ghost use Rattle.ctf_protocol.specs.sessions.State.{Publication};

    ghost Value = { List Publication };

    ghost view = { λ p. published_in p.by_name.entries };

    ghost invariant = { λ p. IsKept p.by_name p.turns p.bytes };
}

/// Puts a value under a key that is not in use, and returns whether it was not. The key is looked
/// for once.
fn put_new<V: Drop>(
    map: &mut BTreeMap<NameKey, V>,
    key: NameKey,
    value: V,
) -> Result<bool, AllocError>
    ensures free { IfOk result (λ is_free. is_free
        ≡ not (is_some (get by_hash map.old key))) }
    ensures put { result ≡ Ok true → map.new.entries
        ≡ insert_entry by_hash map.old.entries key value }
    ensures taken { result ≡ Ok false → map.new.entries ≡ map.old.entries }
    ensures err { OnErr result (map.new.entries ≡ map.old.entries) }
    ensures ordered { IsOrdered by_hash map.new }
{
    let Entry::Vacant(entry) = map.entry(key)? else {
        return Ok(false);
    };
    entry.insert(value);
    Ok(true)
}

impl PublicationMap {
    /// No publications.
    pub fn new(alloc: Global) -> PublicationMap
        ensures { result ≡ [] }
    {
        PublicationMap {
            alloc,
            by_name: BTreeMap::new(alloc),
            turns: 0,
            bytes: 0,
        }
    }

    /// Whether there are no publications.
    pub fn is_empty(&self) -> bool
        ensures { IsTrue result ↔ (self.now ≡ []) }
    {
        self.by_name.is_empty()
    }

    /// How many bytes all of them have.
    pub fn bytes(&self) -> u128
        ensures { result ≡ sum_by publication_bytes self.now }
    {
        self.bytes
    }

    /// What is published under a name, in time logarithmic in the number of publications.
    pub fn find(&self, name: &[u8]) -> Option<&Loaded>
        ensures { option_map (λ l. l.now) result ≡ published_as name.now self.now }
    {
        let query = NameQuery::new(name);
        match self.by_name.get(query) {
            Some(publication) => Some(&publication.loaded),
            None => None,
        }
    }

    /// Publishes a dictionary under a name that is not in use, and returns whether it was not. If
    /// the name is in use, or memory is refused, nothing changes; the same if 64 bits can't count
    /// one publication more.
    pub fn add(&mut self, name: &PublicationName, loaded: Loaded) -> Result<bool, AllocError>
        requires small { sum_by publication_bytes self.old + kept_bytes loaded < 2 ^ 128 }
        ensures free { IfOk result (λ is_free. is_free
            ≡ not (is_some (published_as name.now self.old))) }
        ensures added { result ≡ Ok true → self.new
            ≡ self.old ++ (record { name = name.now; kept = loaded }) ∷ [] }
        ensures taken { result ≡ Ok false → self.new ≡ self.old }
        ensures err { OnErr result (self.new ≡ self.old) }
    {
        if self.turns == u64::MAX {
            return Err(AllocError);
        }
        let bytes = loaded.bytes();
        let publication = Publication {
            turn: self.turns,
            loaded,
        };
        let key = NameKey::new(self.alloc, name.as_slice())?;
        if !put_new(&mut self.by_name, key, publication)? {
            return Ok(false);
        }
        self.turns += 1;
        self.bytes += bytes;
        Ok(true)
    }

    /// Removes what is published under a name, if anything is.
    pub fn remove(&mut self, name: &[u8]) -> bool
        ensures there { result ≡ is_some (published_as name.now self.old) }
        ensures left { self.new ≡ published_without name.now self.old }
    {
        let query = NameQuery::new(name);
        let Some(publication) = self.by_name.remove(query) else {
            return false;
        };
        self.bytes -= publication.loaded.bytes();
        true
    }
}
