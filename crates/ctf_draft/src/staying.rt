//! Whether search results stay valid when a type gets a member.
ghost use Rattle.std.specs.Prelude.{◌≡◌, ◌<◌, true, MatchOption, is_some};
ghost use Rattle.ctf_draft.specs.Reaching.{IsBelowAt, Knows, Stays, counts_more};
ghost use Rattle.ctf_draft.specs.TypeView.{body_of};
ghost use Rattle.ctf_model.specs.drafts.Drafts.{count_of, space_of};
ghost use Rattle.ctf_model.specs.figures.Figures.{align as align_in, greater as greater_of};

use crate::draft::Draft;
use crate::marks::Marks;
use crate::types::{AggregateKind, Body};
use ctf_model::{Fault, TypeNum};

/// Whether an alignment stays the greater one.
fn is_as_great(align: Result<u64, Fault>, other: Result<u64, Fault>) -> bool
    ensures { result ≡ true → greater_of align other ≡ align }
{
    match (align, other) {
        (Ok(m), Ok(n)) => n <= m,
        (Err(_), _) => true,
        (Ok(_), Err(_)) => false,
    }
}

impl Body {
    /// Whether one member more may change its alignment.
    fn counts_more(&self) -> bool
        ensures { result ≡ counts_more (body_of self.now) }
    {
        match self {
            Body::Aggregate(AggregateKind::Struct, _, members) => members.is_empty(),
            _ => true,
        }
    }
}

impl Draft {
    /// The alignment of a type, if the results show that fewer than so many steps lead from it.
    fn align_below(&self, marks: &Marks, n: TypeNum, depth: u16) -> Option<Result<u64, Fault>>
        requires { Knows self.now.draft marks.now }
        ensures { MatchOption result (Unit {0}) (λ align.
            (align ≡ align_in (space_of self.now.draft) n.0)
            × IsBelowAt self.now.draft marks.now depth n.0) }
    {
        let Some(j) = self.own_index(n) else {
            return Some(self.align_elsewhere(n));
        };
        let known = marks.reach_of(j)?;
        if known.depth < depth {
            Some(known.align)
        } else {
            None
        }
    }

    /// Whether there is a result for an own type that stays valid with one more member of this
    /// type.
    pub(crate) fn stays_known(&self, marks: &Marks, i: usize, n: TypeNum) -> bool
        requires own { i < count_of self.now.draft }
        requires knows { Knows self.now.draft marks.now }
        ensures { result ≡ true → Stays self.now.draft marks.now i n.0 }
    {
        let Some(known) = marks.reach_of(i) else {
            return false;
        };
        let Some(align) = self.align_below(marks, n, known.depth) else {
            return false;
        };
        if self.own_body(i).counts_more() {
            is_as_great(known.align, align)
        } else {
            true
        }
    }
}
