//! The bytes of dictionaries.
//!
//! The sums are of `u128`: the lengths of three lists, each of which memory has room for, may not
//! fit in 64 bits.
ghost use Rattle.std.specs.Prelude.{◌≡◌, ◌+◌, ◌<◌, ◌^◌, [], length, option_copied, unwrap_or};
ghost use Rattle.ctf_check.specs.ListsView.{lists_in};
ghost use Rattle.ctf_model.specs.format.OwnedLists.{lists_owned};
ghost use Rattle.ctf_model.specs.opened.Sizes.{kept_bytes, lists_bytes, parent_bytes};

use crate::loading::Loaded;
use crate::open_dictionary::OpenDictionary;
use ctf_check::{LentLists, lent_lists};
use ctf_model::Parts;

/// How many bytes an optional list has.
fn optional_bytes(list: Option<&[u8]>) -> u128
    ensures count { result ≡ length (unwrap_or (option_copied list.entry) []) }
    ensures small { result < 2 ^ 64 }
{
    match list {
        Some(bytes) => bytes.len() as u128,
        None => 0,
    }
}

/// How many bytes lists have.
fn bytes_of(lists: LentLists<'_>) -> u128
    ensures count { result ≡ lists_bytes (lists_in lists.entry) }
    ensures small { result < 2 ^ 66 }
{
    lists.ctf.len() as u128 + optional_bytes(lists.sym) + optional_bytes(lists.strs)
}

/// How many bytes owned lists have.
pub fn owned_bytes(parts: &Parts) -> u128
    ensures { result ≡ lists_bytes (lists_owned parts.now) }
{
    bytes_of(lent_lists(parts))
}

impl Loaded {
    /// How many bytes its lists have.
    pub fn bytes(&self) -> u128
        ensures count { result ≡ kept_bytes self.now }
        ensures small { result < 2 ^ 66 }
    {
        bytes_of(self.view().lists())
    }
}

impl OpenDictionary {
    /// How many bytes its parent has, if it has one.
    pub fn parent_bytes(&self) -> u128
        ensures count { result ≡ parent_bytes self.now.parent }
        ensures small { result < 2 ^ 66 }
    {
        match &self.imported {
            Some(imported) => imported.parent.bytes(),
            None => 0,
        }
    }

    /// The bytes of the dictionary and its parent.
    #[inline(always)]
    pub fn bytes(&self) -> u128
        ensures { result ≡ kept_bytes self.now.own + parent_bytes self.now.parent }
    {
        self.own.bytes() + self.parent_bytes()
    }
}

/// The bytes of a parent, if there is one.
pub(crate) fn bytes_above(parent: Option<&Loaded>) -> u128
    ensures count { result ≡ parent_bytes (option_copied parent.entry) }
    ensures small { result < 2 ^ 66 }
{
    match parent {
        Some(parent) => parent.bytes(),
        None => 0,
    }
}
