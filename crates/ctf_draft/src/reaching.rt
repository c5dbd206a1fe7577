//! Searches for the depth and the alignment of a type of a draft.
ghost use Rattle.std.specs.Prelude.{◌≡◌, ◌<◌, ◌≤◌, ℕ, suc, length, max, None, MatchOption, is_some, if◌then◌else◌};
ghost use Rattle.ctf_draft.specs.Reaching.{Answers, IsFound, IsKnown, Knows};
ghost use Rattle.ctf_model.specs.rules.Chains.{longest_chain, own_index as own_index_of};
ghost use Rattle.ctf_model.specs.drafts.Drafts.{count_of, space_of};
ghost use Rattle.ctf_model.specs.figures.Figures.{aligning, comes_to, greater as greater_of, parents_figure};

use crate::draft::Draft;
use crate::marks::Marks;
use crate::reach::Reach;
use crate::sizing::{Sizing, greater};
use ctf_model::{Fault, TypeNum, placeless};

/// A result, if its depth is within the budget.
#[inline(always)]
fn within(known: Reach, budget: u16) -> Option<Reach>
    ensures { MatchOption result (budget < known.depth)
        (λ same. (same ≡ known) × (known.depth ≤ budget)) }
{
    if known.depth <= budget {
        Some(known)
    } else {
        None
    }
}

#[inline(always)]
fn longer(a: u16, b: u16) -> u16
    ensures { result ≡ max a b }
{
    a.max(b)
}

/// The greater alignment, if the other one counts.
#[inline(always)]
fn beside(align: Result<u64, Fault>, other: Result<u64, Fault>, counts: bool) -> Result<u64, Fault>
    ensures { result ≡ (if counts then greater_of align other else align) }
{
    if counts { greater(align, other) } else { align }
}

impl Draft {
    /// The alignment of a number that is no own type's.
    pub(crate) fn align_elsewhere(&self, n: TypeNum) -> Result<u64, Fault>
        requires not_own { let d = self.now.draft in
            own_index_of (is_some d.parent) (count_of d) n.0 ≡ None }
        ensures { let s = space_of self.now.draft in (k : ℕ) → result ≡ comes_to
            (aligning s.model) (parents_figure (aligning s.model) s.parent) s.own (suc k) n.0 }
    {
        if n.0 == 0 {
            return Err(placeless(Fault::INCOMPLETE));
        }
        match self.parent_of(n) {
            Some(parent) => parent.layout.align(n),
            None => Err(placeless(Fault::NO_TYPE)),
        }
    }

    /// The alignment of a type, following at most so many types; `None` if it depends on a union.
    pub(crate) fn align_within(&self, n: TypeNum, most: u16) -> Option<Result<u64, Fault>>
        ensures { let s = space_of self.now.draft in MatchOption result (Unit {0})
            (λ align. align ≡ comes_to (aligning s.model)
            (parents_figure (aligning s.model) s.parent) s.own most n.0) }
    {
        let mut at = n;
        for _step in 0..most {
            let Some(i) = self.own_index(at) else {
                return Some(self.align_elsewhere(at));
            };
            match self.own_body(i).aligning(self.model)? {
                Sizing::Itself(align) => return Some(align),
                Sizing::One(t) => at = t,
                Sizing::Row(_, _) => return None,
            }
        }
        None
    }

    /// The depth and the alignment of an own type, if the depth is within the budget. Each type
    /// that it leads to is visited once, and types with a result are not searched again.
    pub(crate) fn reach(&self, marks: &mut Marks, i: usize, budget: u16) -> Option<Reach>
        requires room { count_of self.now.draft ≤ length marks.old }
        requires own { i < count_of self.now.draft }
        requires budget { budget ≤ longest_chain }
        requires knows { Knows self.now.draft marks.old }
        ensures room { count_of self.now.draft ≤ length marks.new }
        ensures knows { Knows self.now.draft marks.new }
        ensures grows { (j : ℕ) → IsKnown marks.old j → IsKnown marks.new j }
        ensures known { MatchOption result (Unit {0}) (λ r. IsKnown marks.new i) }
        ensures answer { Answers self.now.draft i budget result }
    {
        if let Some(known) = marks.get(i) {
            return within(known, budget);
        }
        let body = self.own_body(i);
        let counting = body.aligned_by();
        let mut depth = 0;
        let mut align = body.own_align(self.model);
        for k in 0..body.value_count() {
            let number = body.value_type(k);
            let below = match self.own_index(number) {
                Some(j) => {
                    if budget == 0 {
                        return None;
                    }
                    let found = match marks.get(j) {
                        Some(known) => known,
                        None => self.reach(marks, j, budget - 1)?,
                    };
                    if found.depth >= budget {
                        return None;
                    }
                    Reach {
                        depth: found.depth + 1,
                        align: found.align,
                    }
                }
                None => Reach {
                    depth: 0,
                    align: self.align_elsewhere(number),
                },
            };
            depth = longer(depth, below.depth);
            align = beside(align, below.align, k < counting);
        }
        let reach = Reach { depth, align };
        marks.set(i, reach);
        Some(reach)
    }
}
