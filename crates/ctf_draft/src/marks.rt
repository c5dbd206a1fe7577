//! The table of what searches found of types.
ghost use Rattle.std.specs.Prelude.{◌≡◌, ◌<◌, ◌≤◌, ◌⊎◌, ℕ, true, false, None, Some, [], is_some, length, slice_index_or, slice_set, OnOk};

use crate::mark::Mark;
use crate::reach::Reach;
use std::alloc::{AllocError, Global};
use std::marker::Model;

/// A mark that belongs to no round.
const OLD: Mark = Mark {
    round: 0,
    reach: Reach {
        depth: 0,
        align: Ok(0),
    },
};

/// For each type what a search in this round found of it, if anything. A new round forgets all
/// results without walking over them.
#[derive(Drop)]
pub(crate) struct Marks {
    marks: Vec<Mark>,
    round: u64,
}

impl Model for Marks {
    ghost use Rattle.std.specs.Prelude.{◌≡◌, ◌<◌, List, Option, map, true};
    ghost use Rattle.ctf_draft.specs.MarksView.{are_within, reach_in_round};
    ghost use Rattle.ctf_draft.specs.declared.reach.Reach.{Reach};

    ghost Value = { List (Option Reach) };

    ghost view = { λ m. map (reach_in_round m.round) m.marks.items };

    ghost invariant = { λ m. (0 < m.round) × (are_within m.round m.marks.items ≡ true) };
}

impl Marks {
    pub(crate) fn new(alloc: Global) -> Marks
        ensures { result ≡ [] }
    {
        Marks {
            marks: Vec::new(alloc),
            round: 1,
        }
    }

    /// Makes room for so many types.
    pub(crate) fn make_room(&mut self, count: usize) -> Result<(), AllocError>
        ensures room { OnOk result (count ≤ length self.new) }
        ensures same { (j : ℕ) → slice_index_or self.new j None ≡ slice_index_or self.old j None }
    {
        if self.marks.len() < count {
            self.marks.resize(count, OLD)
        } else {
            Ok(())
        }
    }

    /// Forgets all results.
    pub(crate) fn forget(&mut self)
        ensures { (j : ℕ) → slice_index_or self.new j None ≡ None }
    {
        match self.round.checked_add(1) {
            Some(round) => self.round = round,
            None => self.marks.clear(),
        }
    }

    /// Forgets all results, if there is one for a type.
    pub(crate) fn leave(&mut self, i: usize)
        ensures left { (self.new ≡ self.old)
            ⊎ ((j : ℕ) → slice_index_or self.new j None ≡ None) }
        ensures unknown { slice_index_or self.new i None ≡ None }
    {
        if self.has(i) {
            self.forget();
        }
    }

    /// The same, unless the results stay valid.
    pub(crate) fn leave_unless(&mut self, stays: bool, i: usize)
        ensures same { stays ≡ true → self.new ≡ self.old }
        ensures left { (self.new ≡ self.old)
            ⊎ ((j : ℕ) → slice_index_or self.new j None ≡ None) }
        ensures unknown { stays ≡ false → slice_index_or self.new i None ≡ None }
    {
        if !stays {
            self.leave(i);
        }
    }

    /// Whether there is a result for a type.
    fn has(&self, i: usize) -> bool
        ensures { result ≡ is_some (slice_index_or self.now i None) }
    {
        self.reach_of(i).is_some()
    }

    /// The result for a type that may have no mark.
    pub(crate) fn reach_of(&self, i: usize) -> Option<Reach>
        ensures { slice_index_or self.now i None ≡ result }
    {
        if i < self.marks.len() {
            self.get(i)
        } else {
            None
        }
    }

    /// The result for a type.
    #[inline(always)]
    pub(crate) fn get(&self, i: usize) -> Option<Reach>
        requires { i < length self.now }
        ensures { slice_index_or self.now i None ≡ result }
    {
        let mark = self.marks[i];
        if mark.round == self.round {
            Some(mark.reach)
        } else {
            None
        }
    }

    /// Stores the result for a type.
    #[inline(always)]
    pub(crate) fn set(&mut self, i: usize, reach: Reach)
        requires { i < length self.old }
        ensures { self.new ≡ slice_set self.old i (Some reach) }
    {
        let round = self.round;
        self.marks[i] = Mark { round, reach };
    }
}
