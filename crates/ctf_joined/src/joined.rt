//! A list of texts, stored one after the other.
ghost use Rattle.std.specs.Prelude.{◌≡◌, ◌<◌, ◌++◌, [], ◌∷◌, OnErr, OnOk, get_or, length, true};
ghost use Rattle.ctf_joined.specs.Texts.{rise};

use std::alloc::{AllocError, Global};

/// A list of texts: their bytes, and where each of them ends. A text takes its bytes and 4 more.
#[derive(Drop)]
pub struct Joined {
    bytes: Vec<u8>,
    ends: Vec<u32>,
    ghost rising: { rise 0 ends.items (length bytes.items) ≡ true },
}

impl Joined {
    ghost use Rattle.ctf_joined.specs.Joined.{texts};

    pub fn new(alloc: Global) -> Joined
        ensures { texts result ≡ [] }
    {
        Joined {
            bytes: Vec::new(alloc),
            ends: Vec::new(alloc),
        }
    }

    /// How many texts there are.
    pub fn len(&self) -> usize
        ensures { result ≡ length (texts self.now) }
    {
        self.ends.len()
    }

    /// The end of the text at an index.
    fn end(&self, place: usize) -> usize
        requires { place < length self.now.ends.items }
        ensures { result ≡ get_or self.now.ends.items place 0 }
    {
        self.ends[place] as usize
    }

    /// The beginning of the text at an index: the end of the text before it.
    fn start(&self, place: usize) -> usize
        requires { place < length self.now.ends.items }
        ensures { result ≡ get_or (0 ∷ self.now.ends.items) place 0 }
    {
        if place == 0 { 0 } else { self.end(place - 1) }
    }

    /// The text at an index.
    pub fn text(&self, place: usize) -> &[u8]
        requires { place < length (texts self.now) }
        ensures { result.now ≡ get_or (texts self.now) place [] }
    {
        &self.bytes[self.start(place)..self.end(place)]
    }

    /// Adds a text at the end. Fails if memory is refused, or if all texts together would have more
    /// than 2^32 - 1 bytes.
    pub fn push(&mut self, text: &[u8]) -> Result<(), AllocError>
        ensures ok { OnOk result (texts self.new ≡ texts self.old ++ text.now ∷ []) }
        ensures err { OnErr result (texts self.new ≡ texts self.old) }
    {
        let Ok(end) = u32::try_from(self.bytes.len() + text.len()) else {
            return Err(AllocError);
        };
        self.ends.reserve(1)?;
        self.bytes.extend_from_slice(text)?;
        self.ends.push_reserved(end);
        Ok(())
    }
}
