//! The first type of a section from which a chain has too many steps.
ghost use Rattle.std.specs.Prelude.{◌≡◌, ◌+◌, ◌<◌, ◌≤◌, length, IfOk, IfSome, None, Ok};
ghost use Rattle.ctf_model.specs.rules.Faults.{walk_fault};
ghost use Rattle.ctf_model.specs.format.Name.{Tables};
ghost use Rattle.ctf_model.specs.format.Section.{records, terms_in};
ghost use Rattle.ctf_chains.specs.Deep.{IsLeastDeepType};
ghost use Rattle.ctf_chains.specs.Starts.{starts_in};
ghost use Rattle.ctf_chains.specs.Steps.{AreSpelled, steps, steps_work};
ghost use Rattle.ctf_chains.specs.TypesView.{chain_in, is_child, records_in};

use crate::chain::Chain;
use crate::search::first_deep;
use crate::starts::Starts;
use crate::ticks::Ticks;
use crate::types::Types;
use std::alloc::{AllocError, Global};
use std::marker::Brand;
use std::sync::ledger::{Blank, Ledger};

/// The first own type, counted from 0, from which a chain has more than `LONGEST_CHAIN` steps, if
/// there is one.
///
/// Takes two bytes for each record while it runs. No name is read.
pub fn first_deep_type(
    alloc: Global,
    types: &[u8],
    starts: &Starts,
    child: bool,
    chain: Chain,
) -> Result<Option<usize>, AllocError>
    requires whole { walk_fault (records types.now) ≡ None }
    requires starts { starts.now ≡ starts_in (records types.now) }
    ensures least { IfOk result (λ found. IsLeastDeepType chain child (records types.now) found) }
    ensures inside { IfOk result (λ found. IfSome found (λ i. i < length (records types.now))) }
{
    let types = Types::new(types, starts, child, chain);
    first_deep_with::<Brand>(alloc, &types, Blank::new(1))
}

/// The same, counting its work in a ledger of its own that is not returned.
fn first_deep_with<L: Ledger>(
    alloc: Global,
    types: &Types<'_>,
    blank: Blank,
) -> Result<Option<usize>, AllocError>
    requires name { blank.name ≡ L.name }
    requires parts { blank.parts ≡ L.parts }
    requires some { 0 < blank.parts }
    ensures least { IfOk result (λ found.
        IsLeastDeepType (chain_in types.now) (is_child types.now) (records_in types.now) found) }
    ensures inside { IfOk result (λ found. IfSome found (λ i. i < length (records_in types.now))) }
{
    let mut work = Ticks::<L>::new(blank);
    first_deep_counted(alloc, types, &mut work)
}

/// The same, and counts its cost in `work`: a tick for each record that is opened, and one for each
/// type number that is read.
///
/// It sees of the section only what `Types` gives for ticks.
pub fn first_deep_counted<L: Ledger>(
    alloc: Global,
    types: &Types<'_>,
    work: &mut Ticks<L>,
) -> Result<Option<usize>, AllocError>
    ensures least { IfOk result (λ found.
        IsLeastDeepType (chain_in types.now) (is_child types.now) (records_in types.now) found) }
    ensures inside { IfOk result (λ found. IfSome found (λ i. i < length (records_in types.now))) }
    ensures work { (t : Tables) → AreSpelled t (records_in types.now)
        → work.new ≤ work.old
        + steps_work (steps (chain_in types.now)) (terms_in t (records_in types.now)) }
    ensures once { result ≡ Ok None → (t : Tables) → AreSpelled t (records_in types.now)
        → work.new ≡ work.old
        + steps_work (steps (chain_in types.now)) (terms_in t (records_in types.now)) }
{
    first_deep(alloc, types, work)
}
