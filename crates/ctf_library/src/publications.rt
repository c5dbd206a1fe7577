//! What a session published. It takes memory only from the first publication on.
ghost use Rattle.std.specs.Prelude.{◌≡◌, ◌+◌, ◌<◌, ◌^◌, ◌++◌, [], ◌∷◌, true, false, Ok, IfOk, OnErr, is_some, not, option_map, sum_by, ◌↔◌, IsTrue};
ghost use Rattle.ctf_model.specs.opened.Sizes.{kept_bytes};
ghost use Rattle.ctf_protocol.specs.sessions.Charges.{publication_bytes};
ghost use Rattle.ctf_protocol.specs.sessions.Publications.{published_as, published_without};

use crate::publication_map::PublicationMap;
use ctf_open::Loaded;
use ctf_protocol::PublicationName;
use std::alloc::{AllocError, Global};
use std::marker::Model;

/// What a session published, in the order of publishing.
#[derive(Drop)]
pub struct Publications {
    map: Option<Box<PublicationMap>>,
}

impl Model for Publications {
    ghost use Rattle.std.specs.Prelude.{List};
    ghost use Rattle.ctf_library.specs.PublishedMap.{publications_in};
    ghost use Rattle.ctf_protocol.specs.sessions.State.{Publication};

    ghost Value = { List Publication };

    ghost view = { λ p. publications_in p.map };
}

impl Publications {
    /// No publications.
    pub fn new() -> Publications
        ensures { result ≡ [] }
    {
        Publications { map: None }
    }

    /// Whether there are no publications.
    pub fn is_empty(&self) -> bool
        ensures { IsTrue result ↔ (self.now ≡ []) }
    {
        match &self.map {
            Some(map) => map.is_empty(),
            None => true,
        }
    }

    /// How many bytes all of them have.
    pub fn bytes(&self) -> u128
        ensures { result ≡ sum_by publication_bytes self.now }
    {
        match &self.map {
            Some(map) => map.bytes(),
            None => 0,
        }
    }

    /// What is published under a name, in time logarithmic in the number of publications.
    pub fn find(&self, name: &[u8]) -> Option<&Loaded>
        ensures { option_map (λ l. l.now) result ≡ published_as name.now self.now }
    {
        match &self.map {
            Some(map) => map.find(name),
            None => None,
        }
    }

    /// Publishes a dictionary under a name that is not in use, and returns whether it was not. If
    /// the name is in use, or memory is refused, nothing changes; the same if 64 bits can't count
    /// one publication more.
    pub fn add(
        &mut self,
        alloc: Global,
        name: &PublicationName,
        loaded: Loaded,
    ) -> Result<bool, AllocError>
        requires small { sum_by publication_bytes self.old + kept_bytes loaded < 2 ^ 128 }
        ensures free { IfOk result (λ is_free. is_free
            ≡ not (is_some (published_as name.now self.old))) }
        ensures added { result ≡ Ok true → self.new
            ≡ self.old ++ (record { name = name.now; kept = loaded }) ∷ [] }
        ensures taken { result ≡ Ok false → self.new ≡ self.old }
        ensures err { OnErr result (self.new ≡ self.old) }
    {
        match &mut self.map {
            Some(map) => map.add(name, loaded),
            None => {
                let mut map = PublicationMap::new(alloc);
                let is_free = map.add(name, loaded)?;
                self.map = Some(Box::new(alloc, map)?);
                Ok(is_free)
            }
        }
    }

    /// Removes what is published under a name, if anything is.
    pub fn remove(&mut self, name: &[u8]) -> bool
        ensures there { result ≡ is_some (published_as name.now self.old) }
        ensures left { self.new ≡ published_without name.now self.old }
    {
        match &mut self.map {
            Some(map) => map.remove(name),
            None => false,
        }
    }
}
