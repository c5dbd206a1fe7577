//! Lists of items that follow each other in bytes, in rows of the same length.
ghost use Rattle.std.specs.Prelude.{◌≡◌, ◌*◌, ◌<◌, ◌≤◌, length, drop, IfSome, Some, slice_get};
ghost use Rattle.std.specs.Option.{option_map};
ghost use Rattle.std.specs.Iterator.{YieldsFirstBy, YieldsLastBy, item_count, UpTo, at_most};
ghost use Rattle.std.specs.Iterator.SizeHint.{IsWithinCount};
ghost use Rattle.ctf_model.specs.format.Spelling.{items};
ghost use Rattle.ctf_views.specs.Lists.{AreGood, items_in};

use crate::row::Row;
use std::iter::FusedIterator;
use std::marker::Model;

/// The remaining items of a list.
#[derive(Drop)]
pub struct RowIter<'a, R: Row> {
    bytes: &'a [u8],
    count: usize,
    row: R,
}

impl<'a, R: Row> Model for RowIter<'a, R> {
    ghost use Rattle.std.specs.Prelude.{List};
    ghost use Rattle.ctf_views.specs.Lists.{items_in, AreGood};

    ghost Value = { List R.Shown };

    ghost view = { λ it. items_in (R.item_of it.row) (R.row_len it.row) it.count it.bytes.now };

    ghost invariant = { λ it. AreGood (R.item_of it.row) (R.row_len it.row) it.count it.bytes.now };
}

/// The bytes from a row on, counted from 0.
fn from_row(bytes: &[u8], len: usize, row: usize) -> &[u8]
    requires { len * row ≤ length bytes.now }
    ensures { result.now ≡ drop (len * row) bytes.now }
{
    &bytes[len * row..]
}

/// The bytes at which one of `count` items begins.
pub(crate) fn bytes_at<'a, R: Row>(row: R, bytes: &'a [u8], count: usize, index: usize) -> &'a [u8]
    requires good { AreGood (R.item_of row) (R.row_len row) count bytes.now }
    requires inside { index < count }
    ensures inside { R.row_len row ≤ length result.now }
    ensures item { R.item_of row result.now
        ≡ slice_get (items_in (R.item_of row) (R.row_len row) count bytes.now) index }
{
    from_row(bytes, row.len(), index)
}

/// One of `count` items in some bytes.
fn item_at<R: Row>(row: R, bytes: &[u8], count: usize, index: usize) -> R::Item
    requires good { AreGood (R.item_of row) (R.row_len row) count bytes.now }
    requires inside { index < count }
    ensures { Some (R.seen result)
        ≡ slice_get (items_in (R.item_of row) (R.row_len row) count bytes.now) index }
{
    row.first(from_row(bytes, row.len(), index))
}

impl<'a, R: Row> RowIter<'a, R> {
    pub(crate) fn new(bytes: &'a [u8], count: usize, row: R) -> RowIter<'a, R>
        requires { AreGood (R.item_of row) (R.row_len row) count bytes.now }
        ensures { items (R.item_of row) (R.row_len row) count bytes.now ≡ Some result }
    {
        RowIter { bytes, count, row }
    }

    /// How the items are read, their bytes, and their number.
    pub(crate) fn parts(&self) -> (R, &'a [u8], usize)
        ensures good { AreGood (R.item_of result.0) (R.row_len result.0) result.2 result.1.now }
        ensures items { items_in (R.item_of result.0) (R.row_len result.0) result.2 result.1.now
            ≡ self.now }
    {
        (self.row, self.bytes, self.count)
    }

    /// How the item with a number is read, and the bytes at which it begins.
    pub(crate) fn row_at(&self, index: usize) -> (R, &'a [u8])
        requires { index < length self.now }
        ensures inside { R.row_len result.0 ≤ length result.1.now }
        ensures item { R.item_of result.0 result.1.now ≡ slice_get self.now index }
    {
        (self.row, from_row(self.bytes, self.row.len(), index))
    }

    /// The item with a number, from 0.
    #[tactic(auto, using(crate::proofs::Items::none_past))]
    pub fn get(&self, index: usize) -> Option<R::Item>
        ensures { option_map R.seen result ≡ slice_get self.now index }
    {
        if index < self.count {
            Some(item_at(self.row, self.bytes, self.count, index))
        } else {
            None
        }
    }
}

impl<'a, R: Row> Iterator for RowIter<'a, R> {
    type Item = R::Item;

    ghost next_gives = { YieldsFirstBy R.seen (λ rest. rest) };

    ghost remaining = { item_count (λ rest. rest) };

    fn next(&mut self) -> Option<R::Item> {
        if self.count == 0 {
            return None;
        }
        let first = item_at(self.row, self.bytes, self.count, 0);
        self.bytes = from_row(self.bytes, self.row.len(), 1);
        self.count -= 1;
        Some(first)
    }

    fn size_hint(&self) -> (usize, Option<usize>)
        ensures lower { IsWithinCount result.0 (at_most (length self.now)) }
        ensures upper { IfSome result.1 (UpTo (at_most (length self.now))) }
        ensures exact { result ≡ (length self.now, Some (length self.now)) }
    {
        let len = self.len();
        (len, Some(len))
    }
}

impl<'a, R: Row> DoubleEndedIterator for RowIter<'a, R> {
    ghost next_back_gives = { YieldsLastBy R.seen (λ rest. rest) };

    fn next_back(&mut self) -> Option<R::Item> {
        if self.count == 0 {
            return None;
        }
        let last = item_at(self.row, self.bytes, self.count, self.count - 1);
        self.count -= 1;
        Some(last)
    }
}

impl<'a, R: Row> ExactSizeIterator for RowIter<'a, R> {
    fn len(&self) -> usize {
        self.count
    }
}

impl<'a, R: Row> FusedIterator for RowIter<'a, R> {}
