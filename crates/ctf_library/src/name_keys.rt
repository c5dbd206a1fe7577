//! Names as keys of a map, in an order for which mostly one number is compared.
ghost use Rattle.std.specs.Prelude.{◌≡◌, IfOk};
ghost use Rattle.ctf_order.specs.Names.{hash as hash_of};
ghost use Rattle.ctf_library.specs.NameOrder.{by_hash, order_of};

use ctf_order::hash;
use std::alloc::{AllocError, Global};
use std::cmp::Ordering;
use std::collections::btree_map::Comparable;
use std::marker::Model;

/// A name with its hash. Keys are in the order of their hashes; names with the same hash are in the
/// order of their bytes.
#[derive(Drop)]
pub(crate) struct NameKey {
    hash: u64,
    name: Vec<u8>,
}

impl Model for NameKey {
    ghost use Rattle.std.specs.Prelude.{◌≡◌, ℕ, List};
    ghost use Rattle.ctf_order.specs.Names.{hash as hash_of};

    ghost Value = { List ℕ };

    ghost view = { λ k. k.name.items };

    ghost invariant = { λ k. k.hash ≡ hash_of k.name.items };
}

/// A name that is looked for, with its hash.
#[derive(Clone, Copy)]
pub(crate) struct NameQuery<'a> {
    pub(crate) hash: u64,
    pub(crate) name: &'a [u8],
}

impl<'a> NameQuery<'a> {
    #[inline(always)]
    pub(crate) fn new(name: &'a [u8]) -> NameQuery<'a>
        ensures hash { result.hash ≡ hash_of name.now }
        ensures name { result.name.now ≡ name.now }
    {
        NameQuery {
            hash: hash(name),
            name,
        }
    }
}

/// The order of two names with their hashes.
#[inline(always)]
fn compare_hashed(hash: u64, name: &[u8], other_hash: u64, other: &[u8]) -> Ordering
    ensures { result ≡ order_of (hash, name.now) (other_hash, other.now) }
{
    if hash < other_hash {
        return Ordering::Less;
    }
    if hash > other_hash {
        return Ordering::Greater;
    }
    name.cmp(other)
}

impl NameKey {
    pub(crate) fn new(alloc: Global, name: &[u8]) -> Result<NameKey, AllocError>
        ensures { IfOk result (λ key. key ≡ name.now) }
    {
        Ok(NameKey {
            hash: hash(name),
            name: Vec::from_slice(alloc, name)?,
        })
    }
}

impl PartialEq for NameKey {
    ghost use Rattle.std.specs.Cmp.{partial_equiv_from_equiv};
    ghost use Rattle.std.specs.Cmp.Lexicographic.{nat_list_eq_equiv, pointwise};
    ghost use Rattle.std.specs.Prelude.{nat_eq};

    ghost eq = { pointwise nat_eq };

    ghost laws = { partial_equiv_from_equiv nat_list_eq_equiv };

    fn eq(&self, other: &NameKey) -> bool {
        self.name.as_slice() == other.name.as_slice()
    }
}

impl Eq for NameKey {
    ghost use Rattle.std.specs.Cmp.Lexicographic.{nat_list_eq_equiv};

    ghost laws = { nat_list_eq_equiv };
}

impl PartialOrd for NameKey {
    ghost use Rattle.std.specs.Prelude.{Some};
    ghost use Rattle.ctf_library.specs.NameOrder.{by_hash, by_hash-partial};

    ghost partial_cmp = { λ a b. Some (by_hash a b) };

    ghost laws = { by_hash-partial };

    fn partial_cmp(&self, other: &NameKey) -> Option<Ordering> {
        Some(self.cmp(other))
    }
}

impl Ord for NameKey {
    ghost use Rattle.std.specs.Prelude.{refl};
    ghost use Rattle.ctf_library.specs.NameOrder.{by_hash, by_hash-ties, by_hash-total};

    ghost cmp = { by_hash };

    ghost total = { by_hash-total };

    ghost matches_partial_cmp = { λ a b. refl };

    ghost matches_eq = { by_hash-ties };

    fn cmp(&self, other: &NameKey) -> Ordering {
        compare_hashed(
            self.hash,
            self.name.as_slice(),
            other.hash,
            other.name.as_slice(),
        )
    }
}

impl<'a> Comparable<NameKey> for NameQuery<'a> {
    ghost use Rattle.ctf_library.specs.NameOrder.{hashed, order_of, order_of-below, order_of-total};

    ghost compare = { λ q k. order_of (q.hash, q.name.now) (hashed k) };

    ghost respects_cmp = { λ q x y.
        order_of-total.congr (q.hash, q.name.now) (hashed x) (hashed y) };

    ghost below_greater = { λ q x y.
        order_of-below (q.hash, q.name.now) (hashed x) (hashed y) };

    fn compare(&self, key: &NameKey) -> Ordering {
        compare_hashed(self.hash, self.name, key.hash, key.name.as_slice())
    }
}
