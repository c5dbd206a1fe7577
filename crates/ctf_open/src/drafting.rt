//! Drafts of sessions: how they are made, updated and dropped.
ghost use Rattle.std.specs.Prelude.{◌≡◌, ◌==◌, ◌⊎◌, ◌+◌, ◌<◌, ◌^◌, true, false, not, length, is_some, IfErr, IfOk, OnErr, OnOk, Ok, Err, None, Some, option_map, option_copied, option_and_then};
ghost use Rattle.std.specs.Option.{ForSome};
ghost use Rattle.ctf_model.specs.opened.Steps.{created, discard_step, step_update};
ghost use Rattle.ctf_open.specs.Drafting.{IsUnder, IsWritten};
ghost use Rattle.ctf_open.specs.Fitting.{AreTablesOf};
ghost use Rattle.ctf_open.specs.Quotas.{IsRefused, IsUncreated, IsUnwritten, fits_in, open_bytes};
ghost use Rattle.ctf_model.specs.opened.Open.{own_in};
ghost use Rattle.ctf_model.specs.opened.Sizes.{kept_bytes, parent_bytes};
ghost use Rattle.ctf_model.specs.drafts.Drafts.{content, new_draft as new_draft_of, rollback};
ghost use Rattle.ctf_model.specs.format.Dictionary.{Denotes};
ghost use Rattle.ctf_model.specs.rules.Refusals.{placeless as refusal, out_of_memory};
ghost use Rattle.ctf_model.specs.declared.faults.TheConstants.Fault.{QUOTA_FULL};
ghost use Rattle.ctf_model.specs.spaces.Kept.{Kept, fault_over, kept_dictionary, modelled_by};
ghost use Rattle.ctf_model.specs.writing.Written.{written};
ghost use Rattle.ctf_writer.specs.Updating.{StandsFor};

use crate::bytes::bytes_above;
use crate::imports::Imported;
use crate::loading::Loaded;
use crate::open_dictionary::OpenDictionary;
use crate::rooms::{Room, has_room};
use ctf_check::Judged;
use ctf_draft::Draft;
use ctf_model::{Bytes, DataModel, Fault, Parts, placeless};
use ctf_writer::{write, write_over};
use std::alloc::{AllocError, Global};
use std::rc::Rc;

/// A parent for a dictionary, if it has one, with the tables of the dictionary over the parent.
fn imported_over(
    alloc: Global,
    own: &Loaded,
    parent: Option<&Loaded>,
) -> Result<Option<Imported>, Fault>
    ensures parent { IfOk result (λ i. option_map (λ i. i.parent) i ≡ option_copied parent.entry) }
    ensures fits { IfOk result (λ i. ForSome i (λ i. fault_over own.now i.parent ≡ None)) }
    ensures made { IfOk result (λ i. ForSome i
        (λ i. AreTablesOf own.now (Some i.parent) i.tables.value)) }
    ensures exact_err { IfErr result (λ f. (f ≡ out_of_memory)
        ⊎ (option_and_then (λ p. fault_over own.now p) (option_copied parent.entry) ≡ Some f)) }
{
    let Some(parent) = parent else {
        return Ok(None);
    };
    Ok(Some(Imported::build(alloc, own, parent, true)?))
}

/// The bytes of a draft as a dictionary, shared by the slot and the draft.
#[derive(Drop)]
struct Updated {
    own: Loaded,
    judged: Rc<Judged<'static>>,
    imported: Option<Imported>,
}

/// A draft in memory of its own.
pub(crate) fn box_draft(alloc: Global, draft: Draft) -> Result<Box<Draft>, AllocError>
    ensures { IfOk result (λ b. b.value ≡ draft) }
{
    Ok(Box::new(alloc, draft)?)
}

/// The bytes of a draft. If it was updated before, `before` is what that wrote.
fn bytes_of(alloc: Global, draft: &Draft, before: Option<&Loaded>) -> Result<Vec<u8>, Fault>
    requires { ForSome (option_copied before) (IsWritten (rollback draft.now.draft)) }
    ensures ok { IfOk result (λ bytes. written (content draft.now.draft) ≡ Ok bytes.items) }
    ensures stands { IfOk result (λ bytes. StandsFor draft.now.draft bytes.items) }
    ensures exact_err { IfErr result (λ f. (f ≡ out_of_memory)
        ⊎ (written (content draft.now.draft) ≡ Err f)) }
{
    match before {
        Some(before) => write_over(alloc, draft, before.view()),
        None => write(alloc, draft),
    }
}

/// The dictionary of a draft's bytes, if there is room for it besides a parent of so many bytes.
fn load(
    alloc: Global,
    draft: &Draft,
    before: Option<&Loaded>,
    parent: u128,
    room: Option<Room>,
) -> Result<Loaded, Fault>
    requires before { ForSome (option_copied before) (IsWritten (rollback draft.now.draft)) }
    requires parent { parent < 2 ^ 66 }
    ensures written { IfOk result (λ l. IsWritten draft.now.draft l) }
    ensures denotes { IfOk result (λ l. Denotes l.lists (content draft.now.draft)) }
    ensures under { IfOk result
        (λ l. (p : Kept) → draft.now.draft.parent ≡ Some (kept_dictionary p)
        → p.model ≡ draft.now.draft.model → fault_over l p ≡ None) }
    ensures room { IfOk result (λ l. fits_in room (length l.lists.ctf + parent) ≡ true) }
    ensures exact_err { IfErr result (λ f. (f ≡ out_of_memory)
        ⊎ IsUnwritten (written (content draft.now.draft)) parent room f) }
{
    let bytes = bytes_of(alloc, draft, before)?;
    if !has_room(room, bytes.len() as u128 + parent) {
        return Err(placeless(Fault::QUOTA_FULL));
    }
    let parts = Parts {
        ctf: Bytes::from(bytes),
        sym: None,
        strs: None,
    };
    Loaded::of_faultless(alloc, parts, draft.model(), draft.types().len())
}

/// The new state of a draft's dictionary after an update, over the draft's parent, if there is room
/// for both.
fn updated_over(
    alloc: Global,
    draft: &Draft,
    before: Option<&Loaded>,
    parent: Option<&Loaded>,
    room: Option<Room>,
) -> Result<Updated, Fault>
    requires before { ForSome (option_copied before) (IsWritten (rollback draft.now.draft)) }
    requires under { IsUnder draft.now.draft (option_copied parent) }
    ensures written { IfOk result (λ u. IsWritten draft.now.draft u.own) }
    ensures denotes { IfOk result (λ u. Denotes u.own.lists (content draft.now.draft)) }
    ensures judged { IfOk result (λ u. u.judged.value.kept ≡ u.own) }
    ensures parent { IfOk result (λ u. option_map (λ i. i.parent) u.imported
        ≡ option_copied parent.entry) }
    ensures fits { IfOk result (λ u. ForSome u.imported (λ i. fault_over u.own i.parent ≡ None)) }
    ensures made { IfOk result (λ u. ForSome u.imported
        (λ i. AreTablesOf u.own (Some i.parent) i.tables.value)) }
    ensures room { IfOk result (λ u. fits_in room (length u.own.lists.ctf
        + parent_bytes (option_copied parent.entry)) ≡ true) }
    ensures exact_err { IfErr result (λ f. (f ≡ out_of_memory)
        ⊎ IsUnwritten (written (content draft.now.draft))
        (parent_bytes (option_copied parent.entry)) room f) }
{
    let own = load(alloc, draft, before, bytes_above(parent), room)?;
    let imported = imported_over(alloc, &own, parent)?;
    let judged = own.share_judged()?;
    Ok(Updated {
        own,
        judged,
        imported,
    })
}

/// The parent of a session, if it has one.
fn parent_of(imported: &Option<Imported>) -> Option<&Loaded>
    ensures { option_copied result ≡ option_map (λ i. i.parent) imported.now }
{
    match imported {
        Some(imported) => Some(&imported.parent),
        None => None,
    }
}

/// The dictionary that is to be the parent of a draft, if there is one.
fn judged_parent(parent: Option<&Loaded>) -> Result<Option<Rc<Judged<'static>>>, AllocError>
    ensures { IfOk result (λ j. option_map (λ p. p.value.kept) j ≡ option_copied parent.entry) }
{
    match parent {
        Some(parent) => Ok(Some(parent.share_judged()?)),
        None => Ok(None),
    }
}

/// A draft with nothing in it.
pub(crate) fn new_draft(
    alloc: Global,
    parent: Option<&Loaded>,
    parname: &[u8],
    parlabel: &[u8],
    model: DataModel,
) -> Result<Draft, Fault>
    requires { is_some parent ≡ not (length parname.now == 0) }
    ensures ok { IfOk result (λ d.
        new_draft_of (option_map modelled_by (option_copied parent.entry)) parname.now
        parlabel.now model ≡ Ok d.draft) }
    ensures under { IfOk result (λ d. IsUnder d.draft (option_copied parent.entry)) }
    ensures exact_err { IfErr result (λ f. (f ≡ out_of_memory)
        ⊎ (new_draft_of (option_map modelled_by (option_copied parent.entry)) parname.now
        parlabel.now model ≡ Err f)) }
{
    let parname = Bytes::from_slice(alloc, parname)?;
    let parlabel = Bytes::from_slice(alloc, parlabel)?;
    let parent = judged_parent(parent)?;
    Draft::new(alloc, parent, parname, parlabel, model)
}

/// How many types a dictionary has.
fn types_of(own: &Loaded) -> u64
    ensures { result ≡ length (kept_dictionary own.now).terms }
{
    own.view().count() as u64
}

impl OpenDictionary {
    /// A new draft, over a parent if there is one, updated with nothing in it.
    pub fn create(
        alloc: Global,
        parent: Option<&Loaded>,
        parname: &[u8],
        parlabel: &[u8],
        model: DataModel,
    ) -> Result<OpenDictionary, Fault>
        requires { is_some parent ≡ not (length parname.now == 0) }
        ensures ok { IfOk result (λ s.
            created (option_copied parent.entry) parname.now parlabel.now model ≡ Ok s) }
        ensures exact_err { IfErr result (λ f. (f ≡ out_of_memory)
            ⊎ (created (option_copied parent.entry) parname.now parlabel.now model ≡ Err f)) }
    {
        OpenDictionary::create_within(alloc, parent, parname, parlabel, model, None)
    }

    /// The same, if there is room for it.
    #[inline(always)]
    pub fn create_within(
        alloc: Global,
        parent: Option<&Loaded>,
        parname: &[u8],
        parlabel: &[u8],
        model: DataModel,
        room: Option<Room>,
    ) -> Result<OpenDictionary, Fault>
        requires { is_some parent ≡ not (length parname.now == 0) }
        ensures ok { IfOk result (λ s.
            created (option_copied parent.entry) parname.now parlabel.now model ≡ Ok s) }
        ensures room { IfOk result (λ s. fits_in room (kept_bytes s.own
            + parent_bytes (option_copied parent.entry)) ≡ true) }
        ensures above { IfOk result (λ s. s.parent ≡ option_copied parent.entry) }
        ensures exact_err { IfErr result (λ f. (f ≡ out_of_memory) ⊎ IsUncreated
            (created (option_copied parent.entry) parname.now parlabel.now model) room f) }
    {
        let mut draft = new_draft(alloc, parent, parname, parlabel, model)?;
        let update = updated_over(alloc, &draft, None, parent, room)?;
        draft.settle(update.judged);
        Ok(OpenDictionary {
            own: update.own,
            imported: update.imported,
            draft: Some(box_draft(alloc, draft)?),
        })
    }

    /// How many types the dictionary has, if there is room for it as it is.
    fn types_within(&self, room: Option<Room>) -> Result<u64, Fault>
        ensures ok { IfOk result (λ n. n ≡ length (own_in self.now).terms) }
        ensures room { OnOk result (fits_in room (open_bytes self.now) ≡ true) }
        ensures exact_err { IfErr result (λ f. (f ≡ refusal QUOTA_FULL)
            × (fits_in room (open_bytes self.now) ≡ false)) }
    {
        if !has_room(room, self.bytes()) {
            return Err(placeless(Fault::QUOTA_FULL));
        }
        Ok(types_of(&self.own))
    }

    /// Makes all additions to its draft part of the dictionary, and returns the number of the
    /// dictionary's types. A refusal changes nothing.
    pub fn update(&mut self, alloc: Global) -> Result<u64, Fault>
        ensures ok { IfOk result (λ n.
            step_update self.old ≡ Ok (record { served = self.new; answer = n })) }
        ensures exact_err { IfErr result (λ f.
            (f ≡ out_of_memory) ⊎ (step_update self.old ≡ Err f)) }
        ensures as_before { OnErr result (self.new ≡ self.old) }
    {
        self.update_within(alloc, None)
    }

    /// The same, if there is room for the result. If nothing is pending, nothing is built.
    pub fn update_within(&mut self, alloc: Global, room: Option<Room>) -> Result<u64, Fault>
        ensures ok { IfOk result (λ n.
            step_update self.old ≡ Ok (record { served = self.new; answer = n })) }
        ensures room { IfOk result (λ n. fits_in room (kept_bytes self.new.own
            + parent_bytes self.old.parent) ≡ true) }
        ensures parent { self.new.parent ≡ self.old.parent }
        ensures exact_err { IfErr result (λ f. (f ≡ out_of_memory)
            ⊎ IsRefused (step_update self.old) room f) }
        ensures as_before { OnErr result (self.new ≡ self.old) }
    {
        let Some(draft) = &mut self.draft else {
            return Err(placeless(Fault::READ_ONLY));
        };
        if draft.pending() == 0 {
            return self.types_within(room);
        }
        let update = updated_over(
            alloc,
            draft,
            Some(&self.own),
            parent_of(&self.imported),
            room,
        )?;
        draft.settle(update.judged);
        self.own = update.own;
        self.imported = update.imported;
        Ok(types_of(&self.own))
    }

    /// Drops the additions to its draft since the last update, and returns the number of the
    /// dictionary's types.
    pub fn discard(&mut self) -> Result<u64, Fault>
        ensures ok { IfOk result (λ n.
            discard_step self.old ≡ Ok (record { served = self.new; answer = n })) }
        ensures err { IfErr result (λ f. discard_step self.old ≡ Err f) }
        ensures as_before { OnErr result (self.new ≡ self.old) }
        ensures own { self.new.own ≡ self.old.own }
        ensures parent { self.new.parent ≡ self.old.parent }
    {
        let Some(draft) = &mut self.draft else {
            return Err(placeless(Fault::READ_ONLY));
        };
        draft.discard();
        Ok(types_of(&self.own))
    }
}
