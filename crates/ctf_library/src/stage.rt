//! The stage of a session. It takes memory only from the first part on.
ghost use Rattle.std.specs.Prelude.{true, ◌↔◌, IsTrue, ◌≡◌, ◌≤◌, ◌⊎◌, ◌++◌, length, Some, None, OnOk, OnErr, IfOk, IfErr, IfSome};
ghost use Rattle.ctf_check.specs.Stages.{fault_before_chains};
ghost use Rattle.ctf_model.specs.rules.Faults.{first_fault as fault_of};
ghost use Rattle.ctf_model.specs.format.Lists.{no_lists};
ghost use Rattle.ctf_model.specs.opened.Sizes.{lists_bytes};
ghost use Rattle.ctf_library.specs.Quotas.{IsFull, IsStaged};
ghost use Rattle.ctf_model.specs.rules.Refusals.{out_of_memory};
ghost use Rattle.ctf_protocol.specs.sessions.Steps.{longest_list, list_in};

use crate::pool::Pool;
use crate::staging::Staged;
use ctf_open::Loaded;
use ctf_protocol::{DataModel, Fault, ListName, no_parts};
use std::alloc::{AllocError, Global};
use std::marker::Model;

/// Staged lists in memory of their own.
fn box_staged(alloc: Global, staged: Staged) -> Result<Box<Staged>, AllocError>
    ensures { IfOk result (λ b. b.value ≡ staged) }
{
    Ok(Box::new(alloc, staged)?)
}

/// The staged lists of a session, if any part was staged since the last `open` or `clear`.
/// Contracts see only the lists.
#[derive(Drop)]
pub struct Stage {
    staged: Option<Box<Staged>>,
}

impl Model for Stage {
    ghost use Rattle.ctf_library.specs.Staged.{lists_in};
    ghost use Rattle.ctf_model.specs.format.Lists.{Lists};

    ghost Value = { Lists };

    ghost view = { λ s. lists_in s.staged };
}

impl Stage {
    /// Nothing is staged.
    pub fn new() -> Stage
        ensures { result ≡ no_lists }
    {
        Stage { staged: None }
    }

    /// Whether the lists are as before the first part.
    pub fn is_empty(&self) -> bool
        ensures { IsTrue result ↔ (self.now ≡ no_lists) }
    {
        match &self.staged {
            Some(staged) => staged.is_empty(),
            None => true,
        }
    }

    /// How many bytes the lists have.
    pub fn bytes(&self) -> u128
        ensures { result ≡ lists_bytes self.now }
    {
        match &self.staged {
            Some(staged) => staged.bytes(),
            None => 0,
        }
    }

    /// Adds a piece to one of the lists, and returns the list's new length. `fits` says whether the
    /// piece fits into the quota.
    pub fn add(
        &mut self,
        alloc: Global,
        list: ListName,
        piece: &[u8],
        fits: bool,
    ) -> Result<u64, Fault>
        ensures staged { IfOk result (λ n. IsStaged list piece.now self.old self.new n) }
        ensures short { OnOk result (length (list_in list self.old ++ piece.now) ≤ longest_list) }
        ensures fits { OnOk result (fits ≡ true) }
        ensures full { IfErr result (λ f. (f ≡ out_of_memory)
            ⊎ IsFull fits (length (list_in list self.old ++ piece.now)) f) }
        ensures err { OnErr result (self.new ≡ self.old) }
    {
        match &mut self.staged {
            Some(staged) => staged.add(alloc, list, piece, fits),
            None => {
                let mut staged = Staged::new(alloc);
                let length = staged.add(alloc, list, piece, fits)?;
                self.staged = Some(box_staged(alloc, staged)?);
                Ok(length)
            }
        }
    }

    /// Their first fault, if it is known and there is one.
    pub fn known_fault(&self) -> Option<Fault>
        ensures { IfSome result (λ fault. fault_of self.now ≡ Some fault) }
    {
        match &self.staged {
            Some(staged) => staged.known_fault(),
            None => None,
        }
    }

    /// Checks the lists, if they were not checked before.
    pub fn check(&mut self, alloc: Global) -> Result<(), Fault>
        ensures ok { OnOk result (fault_of self.old ≡ None) }
        ensures err { IfErr result (λ f. (f ≡ out_of_memory) ⊎ (fault_of self.old ≡ Some f)) }
        ensures late { IfErr result (λ f. (fault_before_chains self.old ≡ None)
            ⊎ (fault_of self.old ≡ Some f)) }
        ensures kept { self.new ≡ self.old }
    {
        match &mut self.staged {
            Some(staged) => staged.check(alloc),
            None => Staged::new(alloc).check(alloc),
        }
    }

    /// Opens the lists through a pool, and empties the stage. If they are refused, they stay
    /// staged.
    pub fn open(
        &mut self,
        alloc: Global,
        model: DataModel,
        pool: &mut Pool,
    ) -> Result<Loaded, Fault>
        ensures ok { IfOk result (λ l. l ≡ record { lists = self.old; model = model }) }
        ensures exact_ok { OnOk result (fault_of self.old ≡ None) }
        ensures empty { OnOk result (self.new ≡ no_lists) }
        ensures exact_err { IfErr result (λ f. (f ≡ out_of_memory)
            ⊎ (fault_of self.old ≡ Some f)) }
        ensures late { IfErr result (λ f. (fault_before_chains self.old ≡ None)
            ⊎ (fault_of self.old ≡ Some f)) }
        ensures kept { OnErr result (self.new ≡ self.old) }
    {
        let Some(mut staged) = self.staged.take() else {
            return match pool.open(no_parts(alloc), model) {
                Ok(loaded) => Ok(loaded),
                Err((fault, _parts)) => Err(fault),
            };
        };
        match pool.open(staged.take(alloc), model) {
            Ok(loaded) => Ok(loaded),
            Err((fault, parts)) => {
                *staged = Staged::refuse(parts, fault);
                self.staged = Some(staged);
                Err(fault)
            }
        }
    }
}
