//! Sizes of types of a draft, and the types that they resolve to.
ghost use Rattle.std.specs.Prelude.{◌≡◌, ◌<◌, ℕ, suc, option_map, None, Some, slice_get, is_some, MatchOption};
ghost use Rattle.std.specs.Result.{result_map_both};
ghost use Rattle.ctf_draft.specs.Elsewhere.{NamesNone, NamesParents};
ghost use Rattle.ctf_draft.specs.TypeView.{body_of};
ghost use Rattle.ctf_model.specs.rules.Chains.{own_index as own_index_of};
ghost use Rattle.ctf_model.specs.drafts.Drafts.{count_of, content, space_of};
ghost use Rattle.ctf_model.specs.figures.Figures.{comes_to, parents_figure, resolving, sizing, size as size_in, resolved_type};

use crate::draft::Draft;
use crate::parents::Parent;
use crate::sizing::{Sizing, repeated_size};
use crate::types::Body;
use ctf_layout::resolve;
use ctf_model::{Fault, Place, TypeNum, placeless};
use ctf_space::Space;

/// The greatest number of types in a chain: the steps of the longest chain, one more type, and the
/// number after it.
pub(crate) const MOST_NUMBERS: u16 = 514;

impl Draft {
    /// The index, from 0, of the own type with this number; `None` for any other number.
    #[inline(always)]
    pub(crate) fn own_index(&self, n: TypeNum) -> Option<usize>
        ensures { let d = self.now.draft in
            result ≡ own_index_of (is_some d.parent) (count_of d) n.0 }
    {
        match n.place(self.parent.is_some()) {
            Place::Own(i) if i < self.types.len() => Some(i),
            _ => None,
        }
    }

    /// The body of an own type.
    #[inline(always)]
    pub(crate) fn own_body(&self, i: usize) -> &Body
        requires { i < count_of self.now.draft }
        ensures { option_map (λ x. x.body) (slice_get (content self.now.draft).terms i)
            ≡ Some (body_of result.now) }
    {
        &self.types[i].body
    }

    /// The parent, if the number is that of one of its types.
    pub(crate) fn parent_of(&self, n: TypeNum) -> Option<&Parent>
        requires some { 0 < n.0 }
        requires not_own { let d = self.now.draft in
            own_index_of (is_some d.parent) (count_of d) n.0 ≡ None }
        ensures { MatchOption result (NamesNone self.now.draft n.0)
            (λ p. NamesParents self.now.draft n.0 p.now) }
    {
        match &self.parent {
            Some(parent) => match n.place(true) {
                Place::Parents(_) => Some(parent),
                _ => None,
            },
            None => None,
        }
    }

    /// The size of a number that is no own type's.
    fn size_elsewhere(&self, n: TypeNum) -> Result<u64, Fault>
        requires some { 0 < n.0 }
        requires not_own { let d = self.now.draft in
            own_index_of (is_some d.parent) (count_of d) n.0 ≡ None }
        ensures { let s = space_of self.now.draft in (k : ℕ) → result ≡ comes_to
            (sizing s.model) (parents_figure (sizing s.model) s.parent) s.own (suc k) n.0 }
    {
        match self.parent_of(n) {
            Some(parent) => parent.layout.size(n),
            None => Err(placeless(Fault::NO_TYPE)),
        }
    }

    /// The size of a type, following at most so many types.
    fn size_within(&self, n: TypeNum, most: u16) -> Result<u64, Fault>
        ensures { let s = space_of self.now.draft in result ≡ comes_to
            (sizing s.model) (parents_figure (sizing s.model) s.parent) s.own most n.0 }
    {
        let mut at = n;
        for step in 0..most {
            if at.0 == 0 {
                return Err(placeless(Fault::INCOMPLETE));
            }
            let Some(i) = self.own_index(at) else {
                return self.size_elsewhere(at);
            };
            match self.own_body(i).sizing(self.model) {
                Sizing::Itself(size) => return size,
                Sizing::One(t) => at = t,
                Sizing::Row(count, t) => {
                    return repeated_size(count, self.size_within(t, most - step - 1));
                }
            }
        }
        Err(placeless(Fault::INCOMPLETE))
    }

    /// The size of a type, in bytes.
    pub(crate) fn size(&self, n: TypeNum) -> Result<u64, Fault>
        ensures { result ≡ size_in (space_of self.now.draft) n.0 }
    {
        self.size_within(n, MOST_NUMBERS)
    }

    /// The resolved type of a number that is no own type's.
    fn resolve_elsewhere(&self, n: TypeNum) -> Result<TypeNum, Fault>
        requires some { 0 < n.0 }
        requires not_own { let d = self.now.draft in
            own_index_of (is_some d.parent) (count_of d) n.0 ≡ None }
        ensures { let s = space_of self.now.draft in (k : ℕ)
            → result_map_both (λ t. t.0) (λ f. f) result ≡ comes_to
            resolving (parents_figure resolving s.parent) s.own (suc k) n.0 }
    {
        match self.parent_of(n) {
            Some(parent) => resolve(&Space::own(parent.judged.view(), self.model), n),
            None => Err(placeless(Fault::NO_TYPE)),
        }
    }

    /// The type that a type resolves to, through typedefs and qualifiers.
    pub(crate) fn resolve_type(&self, n: TypeNum) -> Result<TypeNum, Fault>
        ensures { result_map_both (λ t. t.0) (λ f. f) result
            ≡ resolved_type (space_of self.now.draft) n.0 }
    {
        let mut at = n;
        for _step in 0..MOST_NUMBERS {
            if at.0 == 0 {
                return Ok(at);
            }
            let Some(i) = self.own_index(at) else {
                return self.resolve_elsewhere(at);
            };
            match self.own_body(i).alias_target() {
                Some(t) => at = t,
                None => return Ok(at),
            }
        }
        Err(placeless(Fault::INCOMPLETE))
    }
}
