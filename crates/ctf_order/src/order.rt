//! Items sorted by their names.
ghost use Rattle.std.specs.Prelude.{◌≡◌, ◌≤◌, IfOk, IsTrue, List, length};
ghost use Rattle.ctf_order.specs.Holding.{Fits, IsFound};
ghost use Rattle.ctf_order.specs.Naming.{naming};
ghost use Rattle.ctf_order.specs.Searching.{first_of, AreLowerBefore, AreParted, IsNear};
ghost use Rattle.ctf_order.specs.declared.entries.NamedItem.{NamedItem as Item};

use crate::comparing::{is_named, rank};
use crate::entries::{NamedItem, Ranked};
use crate::lending::{arrange, ranked_items};
use crate::texts::Texts;
use std::alloc::{AllocError, Global};

/// How many items around a guess are searched first.
const WINDOW: usize = 32;

/// Items sorted by their names: plain numbers, which borrow nothing. It takes at most 16 bytes for
/// each item, whatever the names are.
#[derive(Drop)]
pub struct Order {
    entries: Vec<Ranked>,
}

/// The first item with a name, before those with a greater rank.
fn first_named(texts: &Texts<'_>, entries: &[Ranked], rank: u64, text: &[u8]) -> Option<u32>
    ensures { result ≡ first_of (naming texts.now) rank text.now entries.now }
{
    for one in entries {
        if rank < one.rank {
            return None;
        }
        if is_named(texts, one.entry.reference, text) {
            return Some(one.entry.item);
        }
    }
    None
}

/// The share of a count that a rank is of all ranks.
fn part(count: usize, rank: u64) -> usize {
    ((rank >> 32).wrapping_mul(count as u64) >> 32) as usize
}

/// A guess at where the first item of a rank is, since ranks are spread evenly. The rank at the
/// expected place corrects the guess.
fn guess(entries: &[Ranked], rank: u64) -> usize {
    let count = entries.len();
    let first = part(count, rank);
    match entries.get(first) {
        Some(one) => {
            if one.rank < rank {
                first.saturating_add(part(count, rank - one.rank))
            } else {
                first.saturating_sub(part(count, one.rank - rank))
            }
        },
        None => first,
    }
}

/// Whether the items of a rank begin among the `WINDOW` items from a place on, but not with the
/// first of these.
fn is_near(entries: &[Ranked], from: usize, rank: u64) -> bool
    ensures { IsTrue result → IsNear entries.now from rank }
{
    if entries.len() < WINDOW {
        return false;
    }
    if entries.len() - WINDOW < from {
        return false;
    }
    if entries[from].rank < rank {
        rank <= entries[from + (WINDOW - 1)].rank
    } else {
        false
    }
}

/// Where the items of a rank begin, or would begin.
fn begin(entries: &[Ranked], rank: u64) -> usize
    ensures inside { result ≤ length entries.now }
    ensures low { AreParted entries.now rank → AreLowerBefore entries.now rank result }
{
    let from = guess(entries, rank).saturating_sub(WINDOW / 2);
    if is_near(entries, from, rank) {
        return from + entries[from..from + WINDOW].partition_point(|e| e.rank < rank);
    }
    entries.partition_point(|e| e.rank < rank)
}

impl Order {
    /// The items of a dictionary, by their names. An item without a name is left out. Of items with
    /// the same reference the least is kept, since look-ups find that one.
    ///
    /// To find where names end, it reads each table at most once, or 64 bytes for each item and one
    /// name; and then at most 2,056 bytes of each name. No name is read while items are sorted.
    pub fn build(
        alloc: Global,
        texts: &Texts<'_>,
        items: Vec<NamedItem>,
    ) -> Result<Order, AllocError>
        ensures { IfOk result (λ o. Fits (naming texts.now) items.items o) }
    {
        let mut entries = ranked_items(alloc, texts, items)?;
        arrange(&mut entries);
        Ok(Order { entries })
    }

    /// The least item with a name. It is found by a binary search over numbers, a short one if
    /// ranks are spread evenly, and takes no memory. Of each name that has the rank of the text, it
    /// reads at most one byte more than the text has. Names of one rank have the same length and do
    /// not overlap, so it reads each table at most once, however many names have that rank.
    pub fn find(&self, texts: &Texts<'_>, text: &[u8]) -> Option<u32>
        ensures { (items : List Item) → Fits (naming texts.now) items self.now
            → IsFound (naming texts.now) items text.now result }
    {
        let rank = rank(text);
        let from = begin(&self.entries, rank);
        first_named(texts, &self.entries[from..], rank, text)
    }
}
