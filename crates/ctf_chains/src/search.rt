//! The first record from which a chain has too many steps.
ghost use Rattle.std.specs.Prelude.{◌≡◌, ℕ, ◌+◌, ◌<◌, ◌≤◌, ◌⊎◌, length, IfOk, IfSome, IsSome, None, Ok, slice_index_or};
ghost use Rattle.ctf_model.specs.rules.Chains.{longest_chain};
ghost use Rattle.ctf_chains.specs.Deep.{IsLeastDeep};
ghost use Rattle.ctf_chains.specs.Places.{full_work, steps_between};
ghost use Rattle.ctf_chains.specs.Search.{Knows, OnWay, Answers, work_left};

use crate::entry::{BUSY, VisitState, entry_of};
use crate::graph::Graph;
use crate::ticks::Ticks;
use std::alloc::{AllocError, Global};
use std::sync::ledger::Ledger;

/// The greatest number of steps that a chain may have.
pub const LONGEST_CHAIN: u16 = 512;

fn longer(a: u16, b: u16) -> u16
    ensures both { a ≤ result × b ≤ result }
    ensures one { (result ≡ a) ⊎ (result ≡ b) }
{
    if a < b { b } else { a }
}

/// The depth of record `i`, which is the length of the longest chain from it, if the budget is
/// enough for that.
///
/// `known` has for each record 0 if it was not visited, `BUSY` while it is being visited, and then
/// its depth plus one. A busy record that is met again is on a cycle.
#[cycle(deep)]
#[inline(always)]
fn depth<L: Ledger, G: Graph<L>>(
    graph: &G,
    known: &mut [u16],
    work: &mut Ticks<L>,
    i: usize,
    budget: u16,
) -> Option<u16>
    requires same { length known.old ≡ length (G.places graph.now) }
    requires record { i < length (G.places graph.now) }
    requires budget { budget ≤ longest_chain }
    requires knows { Knows (steps_between (G.places graph.now)) known.old }
    requires on_way { OnWay (steps_between (G.places graph.now)) known.old i }
    ensures knows { Knows (steps_between (G.places graph.now)) known.new }
    ensures answer { Answers (steps_between (G.places graph.now)) budget i known.old known.new
        result }
    ensures work { work.new + work_left (G.places graph.now) known.new
        ≤ work.old + work_left (G.places graph.now) known.old }
    ensures once { IsSome result → work.new + work_left (G.places graph.now) known.new
        ≡ work.old + work_left (G.places graph.now) known.old }
{
    match entry_of(known[i], budget) {
        VisitState::Depth(depth) => Some(depth),
        VisitState::Unvisited => visit_below(graph, known, work, i, budget),
        VisitState::TooDeep => None,
    }
}

/// The same for a record that was not visited.
#[cycle(deep)]
#[inline(always)]
fn visit<L: Ledger, G: Graph<L>>(
    graph: &G,
    known: &mut [u16],
    work: &mut Ticks<L>,
    i: usize,
    budget: u16,
) -> Option<u16>
    requires same { length known.old ≡ length (G.places graph.now) }
    requires record { i < length (G.places graph.now) }
    requires budget { budget ≤ longest_chain }
    requires knows { Knows (steps_between (G.places graph.now)) known.old }
    requires on_way { OnWay (steps_between (G.places graph.now)) known.old i }
    requires unvisited { slice_index_or known.old i 0 ≡ 0 }
    ensures knows { Knows (steps_between (G.places graph.now)) known.new }
    ensures answer { Answers (steps_between (G.places graph.now)) budget i known.old known.new
        result }
    ensures work { work.new + work_left (G.places graph.now) known.new
        ≤ work.old + work_left (G.places graph.now) known.old }
    ensures once { IsSome result → work.new + work_left (G.places graph.now) known.new
        ≡ work.old + work_left (G.places graph.now) known.old }
{
    known[i] = BUSY;
    let opened = graph.open(i, work);
    let mut longest = 0;
    for k in 0..graph.place_count(opened) {
        if let Some(j) = graph.place(opened, k, work) {
            if budget == 0 {
                return None;
            }
            let Some(below) = depth(graph, known, work, j, budget - 1) else {
                return None;
            };
            longest = longer(longest, below + 1);
        }
    }
    known[i] = longest + 1;
    Some(longest)
}

/// `visit` out of line, for the recursion: the loop over all records inlines it, which saves a call
/// for most records.
#[cycle(deep)]
#[inline(never)]
fn visit_below<L: Ledger, G: Graph<L>>(
    graph: &G,
    known: &mut [u16],
    work: &mut Ticks<L>,
    i: usize,
    budget: u16,
) -> Option<u16>
    requires same { length known.old ≡ length (G.places graph.now) }
    requires record { i < length (G.places graph.now) }
    requires budget { budget ≤ longest_chain }
    requires knows { Knows (steps_between (G.places graph.now)) known.old }
    requires on_way { OnWay (steps_between (G.places graph.now)) known.old i }
    requires unvisited { slice_index_or known.old i 0 ≡ 0 }
    ensures knows { Knows (steps_between (G.places graph.now)) known.new }
    ensures answer { Answers (steps_between (G.places graph.now)) budget i known.old known.new
        result }
    ensures work { work.new + work_left (G.places graph.now) known.new
        ≤ work.old + work_left (G.places graph.now) known.old }
    ensures once { IsSome result → work.new + work_left (G.places graph.now) known.new
        ≡ work.old + work_left (G.places graph.now) known.old }
{
    visit(graph, known, work, i, budget)
}

/// `depth` for the loop over all records, with `visit` inlined.
#[inline(always)]
fn depth_first<L: Ledger, G: Graph<L>>(
    graph: &G,
    known: &mut [u16],
    work: &mut Ticks<L>,
    i: usize,
    budget: u16,
) -> Option<u16>
    requires same { length known.old ≡ length (G.places graph.now) }
    requires record { i < length (G.places graph.now) }
    requires budget { budget ≤ longest_chain }
    requires knows { Knows (steps_between (G.places graph.now)) known.old }
    requires on_way { OnWay (steps_between (G.places graph.now)) known.old i }
    ensures knows { Knows (steps_between (G.places graph.now)) known.new }
    ensures answer { Answers (steps_between (G.places graph.now)) budget i known.old known.new
        result }
    ensures work { work.new + work_left (G.places graph.now) known.new
        ≤ work.old + work_left (G.places graph.now) known.old }
    ensures once { IsSome result → work.new + work_left (G.places graph.now) known.new
        ≡ work.old + work_left (G.places graph.now) known.old }
{
    match entry_of(known[i], budget) {
        VisitState::Depth(depth) => Some(depth),
        VisitState::Unvisited => visit(graph, known, work, i, budget),
        VisitState::TooDeep => None,
    }
}

/// Searches the records in turn, beginning with an empty table.
fn first_of<L: Ledger, G: Graph<L>>(
    graph: &G,
    known: &mut [u16],
    work: &mut Ticks<L>,
) -> Option<usize>
    requires same { length known.old ≡ length (G.places graph.now) }
    requires empty { (j : ℕ) → slice_index_or known.old j 0 ≡ 0 }
    ensures least { IsLeastDeep (steps_between (G.places graph.now)) longest_chain result }
    ensures inside { IfSome result (λ i. i < length (G.places graph.now)) }
    ensures work { work.new ≤ work.old + full_work (G.places graph.now) }
    ensures once { result ≡ None → work.new ≡ work.old + full_work (G.places graph.now) }
{
    for i in 0..graph.len() {
        if depth_first(graph, known, work, i, LONGEST_CHAIN).is_none() {
            return Some(i);
        }
    }
    None
}

/// The first record from which a chain has more than `LONGEST_CHAIN` steps, if there is one. A
/// cycle of steps is a chain without end.
///
/// The graph can be seen only by its ticks, so they bound what the search looks at. Takes two bytes
/// for each record while it runs.
pub fn first_deep<L: Ledger, G: Graph<L>>(
    alloc: Global,
    graph: &G,
    work: &mut Ticks<L>,
) -> Result<Option<usize>, AllocError>
    ensures least { IfOk result (λ first.
        IsLeastDeep (steps_between (G.places graph.now)) longest_chain first) }
    ensures inside { IfOk result (λ first. IfSome first (λ i. i < length (G.places graph.now))) }
    ensures work { work.new ≤ work.old + full_work (G.places graph.now) }
    ensures once { result ≡ Ok None → work.new ≡ work.old + full_work (G.places graph.now) }
{
    let mut known = vec![in alloc; 0u16; graph.len()]?;
    Ok(first_of(graph, known.as_mut_slice(), work))
}
