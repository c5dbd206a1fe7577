//! Compares two texts of the same length at a place, and finds where they differ.
ghost use Rattle.std.specs.Prelude.{◌≡◌, ◌≤◌, IsTrue, length};

use crate::bytes::u64_at;

/// Whether two texts of the same length have the same eight bytes from a place on, or the same last
/// eight bytes if fewer follow. True for texts of fewer than eight bytes, which are not read.
#[inline(always)]
pub(crate) fn are_alike_at(text: &[u8], other: &[u8], place: usize) -> bool
    requires { length text.now ≡ length other.now }
    ensures { text.now ≡ other.now → IsTrue result }
{
    if text.len() < 8 {
        return true;
    }
    let last = text.len() - 8;
    let at = if place < last { place } else { last };
    u64_at(text, at) == u64_at(other, at)
}

/// A place at most eight bytes before the last byte in which two different texts of the same length
/// differ. It halves the range, and looks at the upper half first.
#[inline(never)]
pub(crate) fn last_difference(text: &[u8], other: &[u8]) -> usize
    requires { length text.now ≡ length other.now }
{
    let mut from = 0;
    let mut to = text.len();
    while to - from > 8 {
        let middle = from + (to - from) / 2;
        if text[middle..to] == other[middle..to] {
            to = middle;
        } else {
            from = middle;
        }
    }
    from
}
