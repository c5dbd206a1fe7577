//! A space, as the input of a table of sizes and alignments.
ghost use Rattle.std.specs.Prelude.{◌≡◌, slice_get, option_and_then, option_map};
ghost use Rattle.ctf_check.specs.CheckedView.{dictionary_of};
ghost use Rattle.ctf_check.specs.TypedView.{term_in};
ghost use Rattle.ctf_layout.specs.Over.{OverParent};
ghost use Rattle.ctf_layout.specs.SmallExtents.{extents_in};
ghost use Rattle.ctf_space.specs.SpaceView.{space_of};

use crate::bases::{Basis, basis_of};
use crate::extents::{Extent, Refusal, refused};
use crate::kept::Extents;
use crate::types::Types;
use ctf_chains::Ticks;
use ctf_check::{Checked, Typed};
use ctf_model::TypeNum;
use ctf_space::Space;
use std::sync::ledger::Ledger;

/// A space, and the extents of its parent's types if it has a parent.
#[derive(Clone, Copy)]
pub struct LayoutInput<'a> {
    pub(crate) space: Space<'a>,
    /// The space's own, which is read for each type.
    pub(crate) dictionary: Checked<'a>,
    pub(crate) parent: Option<&'a Extents>,
    ghost same: { dictionary_of dictionary ≡ (space_of space).own },
    ghost over: { OverParent (space_of space) (option_map (λ e. extents_in e.now) parent) },
}

/// The own type with a number from 0.
#[inline(always)]
fn own_term<'a>(dictionary: &Checked<'a>, i: usize) -> Option<Typed<'a>>
    ensures { option_and_then term_in result
        ≡ slice_get (dictionary_of dictionary.now).terms i }
{
    if i < dictionary.count() {
        dictionary.type_at(i + 1)
    } else {
        None
    }
}

impl<'a, L: Ledger> Types<L> for LayoutInput<'a> {
    ghost use Rattle.ctf_space.specs.SpaceView.{space_of};

    ghost space = { λ s. space_of s.space };

    #[inline(always)]
    fn child(&self) -> bool {
        self.space.child()
    }

    #[inline(always)]
    fn count(&self) -> usize {
        self.space.count()
    }

    #[inline(always)]
    fn number(&self, i: usize) -> TypeNum {
        self.space.own_number(i)
    }

    #[inline(always)]
    fn basis(&self, i: usize, work: &mut Ticks<L>) -> Basis {
        work.tick();
        match own_term(&self.dictionary, i) {
            Some(term) => basis_of(&term, self.space.model()),
            None => unreachable!(),
        }
    }

    #[inline(always)]
    fn member_type(&self, i: usize, k: usize, work: &mut Ticks<L>) -> TypeNum {
        work.tick();
        match own_term(&self.dictionary, i) {
            Some(term) => term.value_type(k),
            None => unreachable!(),
        }
    }

    fn outside(&self, i: usize) -> Extent {
        match self.parent {
            Some(extents) => extents.at(i),
            None => refused(Refusal::NoParent),
        }
    }
}
