//! Names that are read before they are needed.

use crate::entries::NamedItem;
use crate::texts::Texts;

/// How many names are read ahead at once.
const AHEAD: usize = 64;

/// The search for the end of a name reads so many bytes at once.
const SEARCHED: usize = 64;

/// Whether the names of some items are within 4,096 bytes, as far as the first and the last item
/// show. Names that follow each other are found soon without being read ahead.
fn are_near(items: &[NamedItem]) -> bool {
    match (items.first(), items.last()) {
        (Some(first), Some(last)) => last.reference.wrapping_sub(first.reference) >> 12 == 0,
        _ => true,
    }
}

/// A byte of a table; 0 behind its end.
fn byte_at(strs: &[u8], offset: usize) -> u8 {
    match strs.get(offset) {
        Some(byte) => *byte,
        None => 0,
    }
}

/// How many of the items to read ahead, up to the first without a name. Of the bytes that the search
/// for the end of each name reads, it reads the first and the last.
fn named_count(strs: &[u8], items: &[NamedItem]) -> usize {
    for (count, item) in items.iter().enumerate() {
        let offset = item.reference as usize;
        let bytes = byte_at(strs, offset) | byte_at(strs, offset + (SEARCHED - 1));
        if bytes == 0 {
            return count;
        }
    }
    items.len()
}

/// How many items to read before names are read ahead again.
fn count_ahead(texts: &Texts<'_>, items: &[NamedItem], from: usize) -> usize {
    let Texts::Program(strs) = texts else {
        return AHEAD;
    };
    let Some(next) = items.get(from..from.saturating_add(AHEAD).min(items.len())) else {
        return AHEAD;
    };
    if are_near(next) {
        return AHEAD;
    }
    named_count(strs, next)
}

/// Reads bytes of the next names at once, unless that was done up to an item that comes later. If
/// names are far apart, a processor waits for many no longer than for one.
///
/// Returns the place of the item at which to read ahead again. No answer depends on it.
#[inline(always)]
pub(crate) fn read_ahead(
    texts: &Texts<'_>,
    items: &[NamedItem],
    place: usize,
    until: usize,
) -> usize {
    if place < until {
        return until;
    }
    place.saturating_add(count_ahead(texts, items, place))
}
