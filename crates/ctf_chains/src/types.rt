//! The types of a section as records that lead to each other.
ghost use Rattle.std.specs.Prelude.{◌≡◌, None, length, map};
ghost use Rattle.ctf_model.specs.rules.Chains.{own_index as own_index_of};
ghost use Rattle.ctf_model.specs.rules.Faults.{walk_fault};
ghost use Rattle.ctf_model.specs.format.Section.{records};
ghost use Rattle.ctf_chains.specs.Numbers.{section_places};
ghost use Rattle.ctf_chains.specs.Starts.{starts_in};
ghost use Rattle.ctf_records.specs.ListedView.{numbers_listed};

use crate::chain::Chain;
use crate::graph::Graph;
use crate::place::{own_index, places};
use crate::starts::{Starts, record_started};
use crate::ticks::Ticks;
use ctf_records::ReferenceList;
use std::sync::ledger::Ledger;

/// The types of a section, and the steps of one sort between them. Code that has only this can read
/// the section only by ticks.
#[derive(Clone, Copy)]
pub struct Types<'a> {
    bytes: &'a [u8],
    starts: &'a [u32],
    child: bool,
    chain: Chain,
    ghost whole: { walk_fault (records bytes.now) ≡ None },
    ghost begin: { starts.now ≡ starts_in (records bytes.now) },
}

impl<'a> Types<'a> {
    ghost use Rattle.ctf_chains.specs.TypesView.{chain_in, is_child, records_in};

    pub fn new(bytes: &'a [u8], starts: &'a Starts, child: bool, chain: Chain) -> Types<'a>
        requires whole { walk_fault (records bytes.now) ≡ None }
        requires starts { starts.now ≡ starts_in (records bytes.now) }
        ensures records { records_in result ≡ records bytes.now }
        ensures child { is_child result ≡ child }
        ensures chain { chain_in result ≡ chain }
    {
        Types {
            bytes,
            starts: starts.as_slice(),
            child,
            chain,
        }
    }
}

impl<'a, L: Ledger> Graph<L> for Types<'a> {
    type Opened = ReferenceList<'a>;

    ghost places = { λ g. section_places g.chain g.child (records g.bytes.now) };

    ghost places_of = { λ g r. map (own_index_of g.child (length (records g.bytes.now)))
        (numbers_listed r) };

    #[inline(always)]
    fn len(&self) -> usize {
        self.starts.len()
    }

    #[inline(always)]
    fn open(&self, i: usize, work: &mut Ticks<L>) -> ReferenceList<'a> {
        work.tick();
        places(&record_started(self.bytes, self.starts, i), self.chain)
    }

    #[inline(always)]
    fn place_count(&self, opened: ReferenceList<'a>) -> usize {
        opened.count()
    }

    #[inline(always)]
    fn place(&self, opened: ReferenceList<'a>, k: usize, work: &mut Ticks<L>) -> Option<usize> {
        work.tick();
        own_index(self.child, self.starts.len(), opened.get(k))
    }
}
