//! Names that are borrowed while their items are sorted.
ghost use Rattle.std.specs.Prelude.{◌≡◌, IfOk, option_copied};
ghost use Rattle.std.specs.Option.{ForSome, option_map};
ghost use Rattle.std.specs.List.Sorted.{IsSortedBy, IsPermutation};
ghost use Rattle.ctf_order.specs.Naming.{naming};
ghost use Rattle.ctf_order.specs.declared.texts.Texts.{Texts as AnyTexts};
ghost use Rattle.ctf_order.specs.Lending.{goes_before, repeats, IsLent, IsNextLent, Ranks};

use crate::ahead::read_ahead;
use crate::comparing::rank;
use crate::entries::{NamedItem, Ranked};
use crate::texts::Texts;
use std::alloc::{AllocError, Global};
use std::cmp::Ordering;

/// If names have at most this many bytes in the mean, they are read in the order of their items.
const USUAL_NAME: usize = 64;

/// An item with its name.
#[derive(Clone, Copy)]
pub(crate) struct Named<'a> {
    pub(crate) name: &'a [u8],
    pub(crate) entry: NamedItem,
}

/// The name of a reference that points into another name.
#[inline(always)]
fn rest_of<'a>(before: Named<'a>, reference: u32) -> Option<&'a [u8]>
    ensures { (texts : AnyTexts) → IsLent (naming texts) before.entry
        → ForSome result (λ r. naming texts reference ≡ Some r.now) }
{
    let first = before.entry.reference;
    if first >> 31 != reference >> 31 {
        return None;
    }
    if reference < first {
        return None;
    }
    let skipped = (reference - first) as usize;
    before.name.get(skipped..)
}

/// The name of a reference. If it points into the name before it, no byte is read.
#[inline(always)]
fn name_after<'a>(texts: &Texts<'a>, before: Option<Named<'a>>, reference: u32) -> Option<&'a [u8]>
    requires { ForSome before (IsLent (naming texts.now)) }
    ensures { option_copied result ≡ naming texts.now reference }
{
    if let Some(named) = before {
        if let Some(rest) = rest_of(named, reference) {
            return Some(rest);
        }
    }
    texts.name(reference)
}

/// Whether an item has the same reference as the item before it, whose number is no greater.
#[inline(always)]
fn is_repeated(before: Option<Named<'_>>, item: NamedItem) -> bool
    ensures { result ≡ repeats (option_map (λ n. n.entry) before.entry) item }
{
    match before {
        Some(named) => {
            if named.entry.reference == item.reference {
                named.entry.item <= item.item
            } else {
                false
            }
        }
        None => false,
    }
}

/// An item with its name, if it has one and does not repeat the item before it.
#[inline(always)]
fn next_named<'a>(
    texts: &Texts<'a>,
    before: Option<Named<'a>>,
    item: NamedItem,
) -> Option<Named<'a>>
    requires { ForSome before (IsLent (naming texts.now)) }
    ensures { IsNextLent (naming texts.now) (option_map (λ n. n.entry) before.entry) item result }
{
    if is_repeated(before, item) {
        return None;
    }
    let name = name_after(texts, before, item.reference)?;
    Some(Named { name, entry: item })
}

/// The items that have names, with the ranks of these; of items with the same reference, at least
/// the least item. If references rise, each table is read at most once to find where names end.
fn ranked<'a>(
    alloc: Global,
    texts: &Texts<'a>,
    items: &[NamedItem],
) -> Result<Vec<Ranked>, AllocError>
    ensures { IfOk result (λ ranked. Ranks (naming texts.now) items.now ranked.items) }
{
    let mut ranked = Vec::with_capacity(alloc, items.len())?;
    let mut before: Option<Named<'a>> = None;
    for item in items {
        if let Some(next) = next_named(texts, before, *item) {
            ranked.push(Ranked {
                rank: rank(next.name),
                entry: next.entry,
            })?;
            before = Some(next);
        }
    }
    Ok(ranked)
}

/// The same for items in any order, if their names have at most `most` bytes together. If they have
/// more, it reads at most that many bytes and one name.
fn ranked_within<'a>(
    alloc: Global,
    texts: &Texts<'a>,
    items: &[NamedItem],
    most: usize,
) -> Result<Option<Vec<Ranked>>, AllocError>
    ensures { IfOk result (λ found. ForSome found
        (λ ranked. Ranks (naming texts.now) items.now ranked.items)) }
{
    let mut ranked = Vec::with_capacity(alloc, items.len())?;
    let mut before: Option<Named<'a>> = None;
    let mut left = most;
    let mut read_until = 0;
    for (number, item) in items.iter().enumerate() {
        read_until = read_ahead(texts, items, number, read_until);
        if let Some(next) = next_named(texts, before, *item) {
            if next.name.len() > left {
                return Ok(None);
            }
            left -= next.name.len();
            ranked.push(Ranked {
                rank: rank(next.name),
                entry: next.entry,
            })?;
            before = Some(next);
        }
    }
    Ok(Some(ranked))
}

/// The items that have names, with the ranks of these; for each name, at least the least item. They
/// are sorted by reference only if their names are long.
pub(crate) fn ranked_items(
    alloc: Global,
    texts: &Texts<'_>,
    mut items: Vec<NamedItem>,
) -> Result<Vec<Ranked>, AllocError>
    ensures { IfOk result (λ ranked. Ranks (naming texts.now) items.items ranked.items) }
{
    let most = items.len().saturating_mul(USUAL_NAME);
    if let Some(ranked) = ranked_within(alloc, texts, &items, most)? {
        return Ok(ranked);
    }
    items.sort_unstable();
    let sorted = ranked(alloc, texts, &items)?;
    Ok(sorted)
}

/// Sorts items by the ranks of their names, and then by number.
pub(crate) fn arrange(ranked: &mut Vec<Ranked>)
    ensures permutation { IsPermutation ranked.old.items ranked.new.items }
    ensures sorted { IsSortedBy goes_before ranked.new.items }
{
    ranked.sort_unstable_by(|a, b| {
        if a.rank == b.rank {
            a.entry.item.cmp(&b.entry.item)
        } else {
            a.rank.cmp(&b.rank)
        }
    });
}
