//! The types of a draft as records that lead to each other, and the chains of these that are too
//! long.
ghost use Rattle.std.specs.Prelude.{◌≡◌, ◌+◌, ◌<◌, ◌⊎◌, length, map, None, Some, IfErr, IfOk, OnOk, Option, slice_index};
ghost use Rattle.ctf_chains.specs.Steps.{steps};
ghost use Rattle.ctf_draft.specs.TypeView.{body_of};
ghost use Rattle.ctf_model.specs.rules.Chains.{by_value, declarator, own_index as own_index_of};
ghost use Rattle.ctf_model.specs.rules.Faults.{or_later};
ghost use Rattle.ctf_model.specs.rules.Refusals.{out_of_memory};
ghost use Rattle.ctf_model.specs.writing.Written.{deep_by};
ghost use Rattle.ctf_writer.specs.DraftContentView.{dictionary_of};
ghost use Rattle.ctf_writer.specs.Leading.{draft_places, type_places};

use crate::draft_view::DraftContent;
use ctf_chains::{Chain, Graph, Ticks, first_deep};
use ctf_draft::{Body, DraftType, ReferenceKind};
use ctf_model::{Fault, Place, TypeNum, placeless};
use std::alloc::{AllocError, Global};
use std::marker::Brand;
use std::sync::ledger::{Blank, Ledger};

/// How many types the steps from a type lead to, counted as often as it names them.
fn step_count(body: &Body, chain: Chain) -> usize
    ensures { result ≡ length (steps chain (body_of body.now)) }
{
    match (body, chain) {
        (Body::Reference(ReferenceKind::Pointer, _), Chain::ByValue) => 0,
        (Body::Reference(_, _), _) => 1,
        (Body::Array(_), _) => 1,
        (Body::Function(_, _), Chain::Declarator) => 1,
        (Body::Aggregate(_, _, members), Chain::ByValue) => members.len(),
        _ => 0,
    }
}

/// The number of a type that a step leads to.
fn step(body: &Body, chain: Chain, k: usize) -> TypeNum
    requires { k < length (steps chain (body_of body.now)) }
    ensures { result.0 ≡ slice_index (steps chain (body_of body.now)) k }
{
    match (body, chain) {
        (Body::Reference(_, tnum), _) => *tnum,
        (Body::Array(array), _) => array.contents,
        (Body::Function(returned, _), Chain::Declarator) => *returned,
        (Body::Aggregate(_, _, members), Chain::ByValue) => members[k].tnum,
        _ => TypeNum(0),
    }
}

/// The own type with a number, counted from 0, if there are that many.
fn own_index(child: bool, count: usize, number: TypeNum) -> Option<usize>
    ensures { result ≡ own_index_of child count number.0 }
{
    match number.place(child) {
        Place::Own(i) if i < count => Some(i),
        _ => None,
    }
}

/// The types of a draft, and the steps of one sort between them.
#[derive(Clone, Copy)]
struct Leading<'a> {
    types: &'a [DraftType],
    child: bool,
    chain: Chain,
}

impl<'a, L: Ledger> Graph<L> for Leading<'a> {
    type Opened = &'a DraftType;

    ghost places = { λ g. draft_places g.chain g.child g.types.now };

    ghost places_of = { λ g t. type_places g.chain g.child (length g.types.now) t.now };

    fn len(&self) -> usize {
        self.types.len()
    }

    fn open(&self, i: usize, work: &mut Ticks<L>) -> &'a DraftType {
        work.tick();
        &self.types[i]
    }

    fn place_count(&self, opened: &'a DraftType) -> usize {
        step_count(&opened.body, self.chain)
    }

    fn place(&self, opened: &'a DraftType, k: usize, work: &mut Ticks<L>) -> Option<usize> {
        work.tick();
        let number = step(&opened.body, self.chain, k);
        own_index(self.child, self.types.len(), number)
    }
}

/// The number of a type in a fault: counted from 1.
fn number_of(types: &[DraftType], i: usize) -> u64
    requires { i < length types.now }
    ensures { result ≡ i + 1 }
{
    i as u64 + 1
}

/// The first type from which a chain of one sort has more than 512 steps, counted from 1.
fn deep_with<L: Ledger>(
    alloc: Global,
    held: DraftContent<'_>,
    chain: Chain,
    blank: Blank,
) -> Result<Option<u64>, AllocError>
    requires name { blank.name ≡ L.name }
    requires parts { blank.parts ≡ L.parts }
    requires some { 0 < blank.parts }
    ensures { IfOk result (λ place. place ≡ deep_by (steps chain) (dictionary_of held.entry)) }
{
    let graph = Leading {
        types: held.types,
        child: held.child,
        chain,
    };
    let mut work = Ticks::<L>::new(blank);
    match first_deep(alloc, &graph, &mut work)? {
        Some(i) => Ok(Some(number_of(held.types, i))),
        None => Ok(None),
    }
}

/// The same, with a ledger of its own that nobody reads.
fn deep(alloc: Global, held: DraftContent<'_>, chain: Chain) -> Result<Option<u64>, AllocError>
    ensures { IfOk result (λ place. place ≡ deep_by (steps chain) (dictionary_of held.entry)) }
{
    deep_with::<Brand>(alloc, held, chain, Blank::new(1))
}

/// Checks the chains of a draft's types: by value first, then those of declarators.
pub(crate) fn judge_chains(alloc: Global, held: DraftContent<'_>) -> Result<(), Fault>
    ensures ok { OnOk result ((deep_by by_value (dictionary_of held.entry) ≡ None)
        × (deep_by declarator (dictionary_of held.entry) ≡ None)) }
    ensures err { IfErr result (λ f. (f ≡ out_of_memory) ⊎ ((later : Option Fault)
        → or_later 15 (deep_by by_value (dictionary_of held.entry))
        (or_later 16 (deep_by declarator (dictionary_of held.entry)) later) ≡ Some f)) }
{
    if let Some(place) = deep(alloc, held, Chain::ByValue)? {
        return Err(Fault {
            code: Fault::VALUE_DEEP,
            place,
        });
    }
    if let Some(place) = deep(alloc, held, Chain::Declarator)? {
        return Err(Fault {
            code: Fault::DECL_DEEP,
            place,
        });
    }
    Ok(())
}
