//! Staged lists, and what is known of them.
ghost use Rattle.std.specs.Prelude.{true, ◌↔◌, IsTrue, ◌≡◌, ◌≢◌, ◌≤◌, ◌<◌, ◌⊎◌, ◌++◌, length, [], Some, None, OnOk, OnErr, IfOk, IfErr, IfSome, unwrap_or};
ghost use Rattle.ctf_check.specs.Stages.{fault_before_chains};
ghost use Rattle.ctf_model.specs.rules.Faults.{first_fault as fault_of};
ghost use Rattle.ctf_model.specs.format.Lists.{no_lists};
ghost use Rattle.ctf_model.specs.format.OwnedLists.{lists_owned};
ghost use Rattle.ctf_model.specs.opened.Sizes.{lists_bytes};
ghost use Rattle.ctf_library.specs.Quotas.{IsFull, IsStaged};
ghost use Rattle.ctf_model.specs.rules.Refusals.{placeless, out_of_memory};
ghost use Rattle.ctf_protocol.specs.sessions.Steps.{longest_list, list_in};
ghost use Rattle.ctf_model.specs.declared.faults.TheConstants.Fault.{STAGE_FULL};

use ctf_check::{check, lent_lists};
use ctf_open::owned_bytes;
use ctf_protocol::{Bytes, Fault, ListName, Parts, no_parts, placeless};
use std::alloc::Global;
use std::marker::Model;
use std::mem;

/// The greatest length of a staged list, in bytes.
const LONGEST_LIST: usize = 67_108_864;

/// Adds a piece to the end of a list, and returns the list's new length. `fits` says whether the
/// piece fits into the quota.
fn add_piece(list: &mut Bytes, piece: &[u8], fits: bool) -> Result<u64, Fault>
    ensures ok { IfOk result (λ n. (list.new ≡ list.old ++ piece.now) × (n ≡ length list.new)) }
    ensures short { OnOk result (length (list.old ++ piece.now) ≤ longest_list) }
    ensures fits { OnOk result (fits ≡ true) }
    ensures full { IfErr result (λ f. (f ≡ out_of_memory)
        ⊎ IsFull fits (length (list.old ++ piece.now)) f) }
    ensures err { OnErr result (list.new ≡ list.old) }
{
    if piece.len() > LONGEST_LIST || list.len() > LONGEST_LIST - piece.len() {
        return Err(placeless(Fault::STAGE_FULL));
    }
    if !fits {
        return Err(placeless(Fault::QUOTA_FULL));
    }
    list.append(piece)?;
    Ok(list.len() as u64)
}

/// The same for a list that may not exist yet; afterwards it does.
fn add_first_piece(
    alloc: Global,
    list: &mut Option<Bytes>,
    piece: &[u8],
    fits: bool,
) -> Result<u64, Fault>
    ensures ok { IfOk result (λ n. (list.new ≡ Some (unwrap_or list.old [] ++ piece.now))
        × (n ≡ length (unwrap_or list.old [] ++ piece.now))) }
    ensures short { OnOk result (length (unwrap_or list.old [] ++ piece.now) ≤ longest_list) }
    ensures fits { OnOk result (fits ≡ true) }
    ensures full { IfErr result (λ f. (f ≡ out_of_memory)
        ⊎ IsFull fits (length (unwrap_or list.old [] ++ piece.now)) f) }
    ensures err { OnErr result (list.new ≡ list.old) }
{
    match list {
        Some(bytes) => add_piece(bytes, piece, fits),
        None => {
            let mut bytes = Bytes::new(alloc);
            let length = add_piece(&mut bytes, piece, fits)?;
            *list = Some(bytes);
            Ok(length)
        }
    }
}

/// Adds a piece to one of the staged lists, and returns the list's new length.
fn stage_piece(
    alloc: Global,
    stage: &mut Parts,
    list: ListName,
    piece: &[u8],
    fits: bool,
) -> Result<u64, Fault>
    ensures staged { IfOk result (λ n. IsStaged list piece.now (lists_owned stage.old)
        (lists_owned stage.new) n) }
    ensures short { OnOk result
        (length (list_in list (lists_owned stage.old) ++ piece.now) ≤ longest_list) }
    ensures fits { OnOk result (fits ≡ true) }
    ensures full { IfErr result (λ f. (f ≡ out_of_memory)
        ⊎ IsFull fits (length (list_in list (lists_owned stage.old) ++ piece.now)) f) }
    ensures err { OnErr result (lists_owned stage.new ≡ lists_owned stage.old) }
{
    match list {
        ListName::Ctf => add_piece(&mut stage.ctf, piece, fits),
        ListName::Sym => add_first_piece(alloc, &mut stage.sym, piece, fits),
        ListName::Str => add_first_piece(alloc, &mut stage.strs, piece, fits),
    }
}

/// The first fault of lists, if they have one. Refused memory is an error.
fn first_fault(alloc: Global, lists: &Parts) -> Result<Option<Fault>, Fault>
    ensures fault { IfOk result (λ fault. fault ≡ fault_of (lists_owned lists.now)) }
    ensures refused { IfErr result (λ f. (f ≡ out_of_memory)
        ⊎ (fault_of (lists_owned lists.now) ≡ Some f)) }
    ensures late { IfErr result (λ f. (fault_before_chains (lists_owned lists.now) ≡ None)
        ⊎ (fault_of (lists_owned lists.now) ≡ Some f)) }
{
    let lists = lent_lists(lists);
    match check(alloc, lists.ctf, lists.sym, lists.strs) {
        Ok(_) => Ok(None),
        Err(fault) if fault.code == Fault::MEMORY => Err(fault),
        Err(fault) => Ok(Some(fault)),
    }
}

/// Staged lists, with their first fault once they were checked: unchanged lists are checked once.
/// Contracts see only the lists.
#[derive(Drop)]
pub struct Staged {
    parts: Parts,
    known: Option<Option<Fault>>,
}

impl Model for Staged {
    ghost use Rattle.std.specs.Prelude.{◌≡◌, IfSome};
    ghost use Rattle.ctf_model.specs.format.Lists.{Lists};
    ghost use Rattle.ctf_model.specs.format.OwnedLists.{lists_owned};
    ghost use Rattle.ctf_model.specs.rules.Faults.{first_fault};

    ghost Value = { Lists };

    ghost view = { λ s. lists_owned s.parts };

    ghost invariant = { λ s. IfSome s.known (λ fault. fault ≡ first_fault (lists_owned s.parts)) };
}

impl Staged {
    /// Nothing is staged.
    pub fn new(alloc: Global) -> Staged
        ensures { result ≡ no_lists }
    {
        Staged {
            parts: no_parts(alloc),
            known: None,
        }
    }

    /// Lists that were not opened, because of this fault or because memory ran out.
    pub fn refuse(parts: Parts, fault: Fault) -> Staged
        requires { (fault ≡ out_of_memory) ⊎ (fault_of (lists_owned parts) ≡ Some fault) }
        ensures { result ≡ lists_owned parts }
    {
        let known = if fault.code == Fault::MEMORY {
            None
        } else {
            Some(Some(fault))
        };
        Staged { parts, known }
    }

    /// Takes the lists out.
    pub fn take(&mut self, alloc: Global) -> Parts
        ensures { lists_owned result ≡ self.old }
    {
        let Staged { parts, .. } = mem::replace(self, Staged::new(alloc));
        parts
    }

    /// Whether they are as before the first part.
    pub fn is_empty(&self) -> bool
        ensures { IsTrue result ↔ (self.now ≡ no_lists) }
    {
        if !self.parts.ctf.is_empty() {
            return false;
        }
        if self.parts.sym.is_some() {
            return false;
        }
        self.parts.strs.is_none()
    }

    /// How many bytes they have.
    pub fn bytes(&self) -> u128
        ensures { result ≡ lists_bytes self.now }
    {
        owned_bytes(&self.parts)
    }

    /// Adds a piece to one of the lists, and returns the list's new length. `fits` says whether the
    /// piece fits into the quota.
    pub fn add(
        &mut self,
        alloc: Global,
        list: ListName,
        piece: &[u8],
        fits: bool,
    ) -> Result<u64, Fault>
        ensures staged { IfOk result (λ n. IsStaged list piece.now self.old self.new n) }
        ensures short { OnOk result (length (list_in list self.old ++ piece.now) ≤ longest_list) }
        ensures fits { OnOk result (fits ≡ true) }
        ensures full { IfErr result (λ f. (f ≡ out_of_memory)
            ⊎ IsFull fits (length (list_in list self.old ++ piece.now)) f) }
        ensures err { OnErr result (self.new ≡ self.old) }
    {
        self.known = None;
        stage_piece(alloc, &mut self.parts, list, piece, fits)
    }

    /// The first fault of the staged lists, if a check already found one.
    pub fn known_fault(&self) -> Option<Fault>
        ensures { IfSome result (λ fault. fault_of self.now ≡ Some fault) }
    {
        match self.known {
            Some(fault) => fault,
            None => None,
        }
    }

    /// Checks the lists, if they were not checked before.
    pub fn check(&mut self, alloc: Global) -> Result<(), Fault>
        ensures ok { OnOk result (fault_of self.old ≡ None) }
        ensures err { IfErr result (λ f. (f ≡ out_of_memory) ⊎ (fault_of self.old ≡ Some f)) }
        ensures late { IfErr result (λ f. (fault_before_chains self.old ≡ None)
            ⊎ (fault_of self.old ≡ Some f)) }
        ensures kept { self.new ≡ self.old }
    {
        let fault = match self.known {
            Some(fault) => fault,
            None => first_fault(alloc, &self.parts)?,
        };
        self.known = Some(fault);
        match fault {
            Some(fault) => Err(fault),
            None => Ok(()),
        }
    }
}
