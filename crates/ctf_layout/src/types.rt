//! What a table of sizes, alignments and resolved types is computed from.
ghost use Rattle.std.specs.Prelude.{◌≡◌, ℕ, ◌+◌, ◌<◌, length, slice_index};
ghost use Rattle.ctf_layout.specs.Bases.{basis as basis_word, members_read};
ghost use Rattle.ctf_layout.specs.Extents.{IsParentsExtent};
ghost use Rattle.ctf_model.specs.rules.Chains.{by_value};
ghost use Rattle.ctf_model.specs.figures.FigureLaws.{own_body};
ghost use Rattle.ctf_model.specs.format.Shown.{shape};
ghost use Rattle.ctf_model.specs.spaces.TypePlaces.{own_number, place};
ghost use Rattle.ctf_model.specs.declared.numbers.Place.TheVariants.{Parents};

use crate::bases::Basis;
use crate::extents::Extent;
use ctf_chains::Ticks;
use ctf_model::TypeNum;
use std::sync::ledger::Ledger;

/// The own types of a dictionary, numbered from 0. Beginning a type is a tick, and so is reading a
/// member.
pub trait Types<L: Ledger> {
    ghost use Rattle.ctf_model.specs.spaces.Space.{Space};

    ghost space: { Self → Space };

    /// Whether low type numbers are those of a parent.
    fn child(&self) -> bool
        ensures { result ≡ (space self.now).own.child };

    /// How many own types there are.
    fn count(&self) -> usize
        ensures { result ≡ length (space self.now).own.terms };

    /// The number of an own type.
    fn number(&self, i: usize) -> TypeNum
        requires { i < length (space self.now).own.terms }
        ensures { result.0 ≡ own_number (space self.now).own.child i };

    /// Begins a type: what its extent depends on.
    fn basis(&self, i: usize, work: &mut Ticks<L>) -> Basis
        requires { i < length (space self.now).own.terms }
        ensures basis { result
            ≡ basis_word (space self.now).model (shape (own_body (space self.now).own i)) }
        ensures tick { work.new ≡ work.old + 1 };

    /// Reads the type of a member of a struct or union.
    fn member_type(&self, i: usize, k: usize, work: &mut Ticks<L>) -> TypeNum
        requires own { i < length (space self.now).own.terms }
        requires member { k < members_read (own_body (space self.now).own i) }
        ensures named { result.0 ≡ slice_index (by_value (own_body (space self.now).own i)) k }
        ensures tick { work.new ≡ work.old + 1 };

    /// The extent of a type of the parent, counted from 0.
    fn outside(&self, i: usize) -> Extent
        ensures { (n : ℕ) → place (space self.now).own.child n ≡ Parents i
            → IsParentsExtent (space self.now) n result };
}
