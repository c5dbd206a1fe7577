//! How a row writes bytes: pieces with commas between them. A piece is two digits for each byte, or
//! a `'` and a text. `COUNT*` in front of a piece repeats it; `+AT` after the piece adds one, in
//! each repetition, to the two-byte number at that place. A dash stands for no bytes.

use ctf_sections::bytes::u16_at;
use std::alloc::Global;

/// The bytes of one piece.
fn piece_of(alloc: Global, piece: &str) -> Option<Vec<u8>> {
    match piece.strip_prefix('\'') {
        Some(text) => Vec::from_slice(alloc, text.as_bytes()).ok(),
        None => hex::decode(alloc, piece).ok(),
    }
}

/// Adds one to the number at a place.
fn raise(bytes: &mut [u8], at: usize) -> Option<()> {
    if at >= bytes.len() || bytes.len() - at < 2 {
        return None;
    }
    let next = u16_at(bytes, at).wrapping_add(1);
    bytes[at..at + 2].copy_from_slice(&next.to_le_bytes());
    Some(())
}

/// Appends a piece as often as it says.
fn append(alloc: Global, bytes: &mut Vec<u8>, text: &str) -> Option<()> {
    let (count, text) = text.split_once('*').unwrap_or(("1", text));
    let (text, places) = text.split_once('+').unwrap_or((text, ""));
    let mut piece = piece_of(alloc, text)?;
    for _ in 0..count.parse::<u16>().ok()? {
        bytes.extend_from_slice(&piece).ok()?;
        for place in places.split_terminator('+') {
            raise(&mut piece, place.parse::<usize>().ok()?)?;
        }
    }
    Some(())
}

/// The bytes that a word stands for, if it is written correctly and memory is there.
pub fn bytes_of(alloc: Global, word: &str) -> Option<Vec<u8>> {
    let mut bytes = Vec::new(alloc);
    if word != "-" {
        for text in word.split_terminator(',') {
            append(alloc, &mut bytes, text)?;
        }
    }
    Some(bytes)
}
