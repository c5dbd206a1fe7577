//! Names of publications.
ghost use Rattle.std.specs.Prelude.{◌≡◌, IfOk, IfSome, is_some};
ghost use Rattle.std.specs.List.{list_all};
ghost use Rattle.ctf_protocol.specs.sessions.Publications.{is_publication_name, is_name_byte};

use std::alloc::{AllocError, Global};
use std::marker::Model;

/// The greatest length of a publication's name, in bytes.
pub const LONGEST_NAME: usize = 64;

/// The name of a publication: 1 to 64 ASCII letters, digits and `.`, `_`, `-`.
#[derive(Drop)]
pub struct PublicationName {
    bytes: Vec<u8>,
}

impl Model for PublicationName {
    ghost use Rattle.std.specs.Prelude.{◌≡◌, ℕ, List, true};
    ghost use Rattle.ctf_protocol.specs.sessions.Publications.{is_publication_name};

    ghost Value = { List ℕ };

    ghost view = { λ n. n.bytes.items };

    ghost invariant = { λ n. is_publication_name n.bytes.items ≡ true };
}

fn is_name_letter(byte: u8) -> bool
    ensures { result ≡ is_name_byte byte }
{
    byte.is_ascii_alphanumeric() || byte == b'.' || byte == b'_' || byte == b'-'
}

fn are_name_letters(bytes: &[u8]) -> bool
    ensures { result ≡ list_all is_name_byte bytes.now }
{
    bytes.iter().all(|byte| is_name_letter(*byte))
}

impl PublicationName {
    /// The name with these bytes, if they are a name.
    pub fn new(bytes: Vec<u8>) -> Option<PublicationName>
        ensures some { IfSome result (λ n. n ≡ bytes.items) }
        ensures exact { is_some result ≡ is_publication_name bytes.items }
    {
        if bytes.is_empty() || bytes.len() > LONGEST_NAME || !are_name_letters(&bytes) {
            return None;
        }
        Some(PublicationName { bytes })
    }

    pub fn as_slice(&self) -> &[u8]
        ensures { result.now ≡ self.now }
    {
        self.bytes.as_slice()
    }
}
