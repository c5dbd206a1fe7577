//! Labels of a draft, in the order in which they were added.
ghost use Rattle.std.specs.Prelude.{◌≡◌, ◌<◌, ◌^◌, ◌++◌, [], ◌∷◌, false, length, map, option_map, slice_get, take, OnOk, OnErr};
ghost use Rattle.std.specs.List.{list_any};
ghost use Rattle.std.specs.Str.{bytes_eq};

use indexmap::IndexMap;
use std::alloc::{AllocError, Global};
use std::marker::Model;

/// Labels: each has a name, and the last type that it covers. No name occurs twice.
#[derive(Drop)]
pub struct Labels {
    map: IndexMap<Vec<u8>, u32>,
}

impl Model for Labels {
    ghost use Rattle.std.specs.Prelude.{List};
    ghost use Rattle.ctf_model.specs.format.Dictionary.{Label};
    ghost use Rattle.ctf_draft.specs.LabelView.{labels_in};

    ghost Value = { List Label };

    ghost view = { λ l. labels_in l.map.entries };
}

impl Labels {
    pub(crate) fn new(alloc: Global) -> Labels
        ensures { result ≡ [] }
    {
        Labels {
            map: IndexMap::new(alloc),
        }
    }

    pub fn len(&self) -> usize
        ensures len { result ≡ length self.now }
        ensures small { result < 2 ^ 63 }
    {
        self.map.len()
    }

    /// A label: its name, and the last type that it covers.
    pub fn get(&self, i: usize) -> Option<(&[u8], u32)>
        ensures { option_map (λ p. record { name = p.0.now; last = p.1 }) result
            ≡ slice_get self.now i }
    {
        match self.map.get_index(i) {
            Some((name, last)) => Some((name.as_slice(), *last)),
            None => None,
        }
    }

    /// Whether a label has the name.
    pub fn has(&self, name: &[u8]) -> bool
        ensures { result ≡ list_any (bytes_eq name.now) (map (λ l. l.name) self.now) }
    {
        self.map.contains_key(name)
    }

    /// Adds a label, whose name is not in use.
    pub(crate) fn push(&mut self, name: Vec<u8>, last: u32) -> Result<(), AllocError>
        requires fresh { list_any (bytes_eq name.items) (map (λ l. l.name) self.old) ≡ false }
        ensures ok { OnOk result (self.new
            ≡ self.old ++ (record { name = name.items; last = last }) ∷ []) }
        ensures err { OnErr result (self.new ≡ self.old) }
    {
        let Ok(_) = self.map.insert(name, last) else {
            return Err(AllocError);
        };
        Ok(())
    }

    /// Keeps the first `len` labels.
    pub(crate) fn truncate(&mut self, len: usize)
        ensures { self.new ≡ take len self.old }
    {
        self.map.truncate(len)
    }
}
