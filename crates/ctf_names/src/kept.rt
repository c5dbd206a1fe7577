//! The names and pointers of a dictionary, in tables.
ghost use Rattle.std.specs.Prelude.{◌≡◌, IfOk, replicate};
ghost use Rattle.ctf_check.specs.CheckedView.{dictionary_of, lists_of};
ghost use Rattle.ctf_model.specs.names.Lookups.{first_place};
ghost use Rattle.ctf_names.specs.Fitting.{IsNamesOf};
ghost use Rattle.ctf_names.specs.Sought.{passes};

use crate::buckets::bucket_count;
use crate::chains::Chains;
use crate::filling::fill;
use crate::pointers::{Pointers, in_order};
use crate::sought::Sought;
use ctf_check::Checked;
use std::alloc::{AllocError, Global};

/// The own types of a dictionary by their names, and its pointers.
#[derive(Drop)]
pub(crate) struct Names {
    pub(crate) chains: Chains,
    pub(crate) pointers: Pointers,
}

/// A table that leads to no type yet.
fn blank(alloc: Global, count: usize) -> Result<Vec<u16>, AllocError>
    ensures { IfOk result (λ table. table.items ≡ replicate count 65535) }
{
    let table = vec![in alloc; u16::MAX; count]?;
    Ok(table)
}

/// The number of no type, before those of own types.
fn number_before(child: bool) -> u16 {
    if child { 0x8000 } else { 0 }
}

impl Names {
    pub(crate) fn build(alloc: Global, dictionary: &Checked<'_>) -> Result<Names, AllocError>
        ensures { IfOk result (λ n. IsNamesOf (lists_of dictionary.now) n) }
    {
        let count = dictionary.count();
        let base = number_before(dictionary.child());
        let mut heads = blank(alloc, bucket_count(count))?;
        let mut next = blank(alloc, count)?;
        let mut firsts = blank(alloc, count.saturating_add(1))?;
        let mut outside = Vec::new(alloc);
        fill(
            dictionary,
            base,
            heads.as_mut_slice(),
            next.as_mut_slice(),
            firsts.as_mut_slice(),
            &mut outside,
        )?;
        Ok(Names {
            chains: Chains { heads, next },
            pointers: Pointers {
                base,
                firsts,
                outside: in_order(outside),
            },
        })
    }

    /// The first of the types that are looked for, from 0.
    #[inline(always)]
    pub(crate) fn first(&self, dictionary: &Checked<'_>, sought: Sought<'_>) -> Option<u32>
        requires { IsNamesOf (lists_of dictionary.now) self.now }
        ensures { result ≡ first_place (passes sought.entry) (dictionary_of dictionary.now).terms }
    {
        match sought {
            Sought::Named { sort, name } => self.chains.first_called(dictionary, sort, name),
            Sought::PointerTo(target) => self.pointers.first_to(dictionary.count(), target),
        }
    }
}
