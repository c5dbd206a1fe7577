//! What is published before any line is read: the words NAME=FILE of the command line.
ghost use Rattle.std.specs.Prelude.{◌≡◌, IfOk, is_some, option_map, map};
ghost use Rattle.std.specs.List.{list_all};
ghost use Rattle.ctf_protocol.specs.sessions.Publications.{is_name_byte, is_publication_name};
ghost use Rattle.ctf_command.specs.Argument.{all_arguments, argument_in, argument_shown};

use ctf_protocol::PublicationName;
use std::alloc::{AllocError, Global};

/// A file that is to be published under a name.
#[derive(Drop)]
pub struct Wanted<'a> {
    pub name: PublicationName,
    pub file: &'a str,
}

/// The greatest length of a publication's name, in bytes.
const LONGEST_NAME: usize = 64;

fn is_name_letter(byte: u8) -> bool
    ensures { result ≡ is_name_byte byte }
{
    byte.is_ascii_alphanumeric() || byte == b'.' || byte == b'_' || byte == b'-'
}

fn are_name_letters(bytes: &[u8]) -> bool
    ensures { result ≡ list_all is_name_byte bytes.now }
{
    bytes.iter().all(|byte| is_name_letter(*byte))
}

/// Whether a name may be that of a publication. `PublicationName::new` decides the same, but takes
/// memory.
fn is_name(bytes: &[u8]) -> bool
    ensures { result ≡ is_publication_name bytes.now }
{
    !bytes.is_empty() && bytes.len() <= LONGEST_NAME && are_name_letters(bytes)
}

/// Whether a word is NAME=FILE.
fn is_wanted(word: &str) -> bool
    ensures { result ≡ is_some (argument_in word.now) }
{
    match word.split_once('=') {
        Some((name, _)) => is_name(name.as_bytes()),
        None => false,
    }
}

/// Whether all words are NAME=FILE. Takes no memory.
pub fn are_wanted(words: &[&str]) -> bool
    ensures { result ≡ is_some (all_arguments (map (λ w. w.now) words.now)) }
{
    for text in words {
        if !is_wanted(text) {
            return false;
        }
    }
    true
}

/// The name and the file of a word NAME=FILE. The first `=` separates the two.
pub fn wanted_by<'a>(alloc: Global, word: &'a str) -> Result<Option<Wanted<'a>>, AllocError>
    ensures { IfOk result (λ wanted. option_map argument_shown wanted ≡ argument_in word.now) }
{
    let Some((name, file)) = word.split_once('=') else {
        return Ok(None);
    };
    let bytes = Vec::from_slice(alloc, name.as_bytes())?;
    match PublicationName::new(bytes) {
        Some(name) => Ok(Some(Wanted { name, file })),
        None => Ok(None),
    }
}

/// The names and files of all words, in order; none if one of the words is not NAME=FILE.
pub fn all_wanted<'a>(
    alloc: Global,
    words: &[&'a str],
) -> Result<Option<Vec<Wanted<'a>>>, AllocError>
    ensures { IfOk result (λ all. option_map (λ v. map argument_shown v.items) all
        ≡ all_arguments (map (λ w. w.now) words.now)) }
{
    let mut all = Vec::new(alloc);
    for word in words {
        match wanted_by(alloc, word)? {
            Some(wanted) => all.push(wanted)?,
            None => return Ok(None),
        }
    }
    Ok(Some(all))
}
