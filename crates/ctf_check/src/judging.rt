//! The rules of chains: no chain of types is too long.
ghost use Rattle.std.specs.Prelude.{◌≡◌, ◌<◌, ◌^◌, length, OnOk, IfOk, IfErr, None, Some, ◌⊎◌};
ghost use Rattle.ctf_model.specs.rules.Faults.{walk_fault};
ghost use Rattle.ctf_model.specs.format.Section.{records};
ghost use Rattle.ctf_chains.specs.Starts.{starts_in};
ghost use Rattle.ctf_check.specs.Stages.{IsChainPlace, IsChainsFault};
ghost use Rattle.ctf_model.specs.rules.Refusals.{out_of_memory};

use crate::references::Numbers;
use ctf_chains::{Chain, Starts, first_deep_type, record_starts};
use ctf_model::Fault;
use std::alloc::Global;

/// Checks the chains of one sort: if one is too long, the fault has the code `code`.
fn judge_chain(
    alloc: Global,
    types: &[u8],
    starts: &Starts,
    child: bool,
    chain: Chain,
    code: u16,
) -> Result<(), Fault>
    requires whole { walk_fault (records types.now) ≡ None }
    requires starts { starts.now ≡ starts_in (records types.now) }
    requires short { length (records types.now) < 2 ^ 32 }
    ensures ok { OnOk result (IsChainPlace chain child (records types.now) None) }
    ensures err { IfErr result (λ f. (f ≡ out_of_memory)
        ⊎ ((f.code ≡ code) × IsChainPlace chain child (records types.now) (Some f.place))) }
{
    match first_deep_type(alloc, types, starts, child, chain)? {
        None => Ok(()),
        Some(i) => Err(Fault {
            code,
            place: i as u64 + 1,
        }),
    }
}

/// Checks the chains of the types of records: first those of steps by value, then those of
/// declarator steps. Returns where the records begin.
///
/// Takes six bytes for each record while it runs, of which the result keeps four.
pub fn judge_chains(alloc: Global, types: &[u8], numbers: Numbers) -> Result<Starts, Fault>
    requires whole { walk_fault (records types.now) ≡ None }
    requires count { numbers.count ≡ length (records types.now) }
    requires short { length types.now < 2 ^ 32 }
    ensures ok { OnOk result (IsChainsFault numbers.child (records types.now) None) }
    ensures starts { IfOk result (λ s. s ≡ starts_in (records types.now)) }
    ensures err { IfErr result (λ f. (f ≡ out_of_memory)
        ⊎ IsChainsFault numbers.child (records types.now) (Some f)) }
{
    let starts = record_starts(alloc, types, numbers.count)?;
    judge_chain(
        alloc,
        types,
        &starts,
        numbers.child,
        Chain::ByValue,
        Fault::VALUE_DEEP,
    )?;
    judge_chain(
        alloc,
        types,
        &starts,
        numbers.child,
        Chain::Declarator,
        Fault::DECL_DEEP,
    )?;
    Ok(starts)
}
