//! The dictionaries of new drafts without a parent, which such drafts share.
ghost use Rattle.std.specs.Prelude.{◌≡◌, ◌==◌, ◌⊎◌, ◌+◌, [], true, not, length, is_some, IfErr, IfOk, IfSome, None, Ok, option_copied};
ghost use Rattle.ctf_model.specs.opened.Sizes.{kept_bytes, parent_bytes};
ghost use Rattle.ctf_model.specs.opened.Steps.{created};
ghost use Rattle.ctf_model.specs.rules.Refusals.{out_of_memory};
ghost use Rattle.ctf_open.specs.Drafting.{IsEmptyOf};
ghost use Rattle.ctf_open.specs.Quotas.{IsUncreated, fits_in};

use crate::drafting::{box_draft, new_draft};
use crate::loading::Loaded;
use crate::open_dictionary::OpenDictionary;
use crate::rooms::{Room, has_room};
use ctf_model::{DataModel, Fault, placeless};
use std::alloc::Global;
use std::marker::Model;

/// For each data model, the dictionary of a new draft without a parent, once such a draft was made.
#[derive(Drop)]
pub struct EmptyDictionaries {
    lp64: Option<Loaded>,
    ilp32: Option<Loaded>,
}

impl Model for EmptyDictionaries {
    ghost use Rattle.std.specs.Option.{ForSome};
    ghost use Rattle.ctf_model.specs.declared.data_model.DataModel.TheVariants.{Ilp32, Lp64};
    ghost use Rattle.ctf_open.specs.Drafting.{IsEmptyOf};

    ghost Value = { Unit {0} };

    ghost view = { λ e. tt };

    ghost invariant = { λ e. ForSome e.lp64 (IsEmptyOf Lp64) × ForSome e.ilp32 (IsEmptyOf Ilp32) };
}

impl EmptyDictionaries {
    pub fn new() -> EmptyDictionaries {
        EmptyDictionaries {
            lp64: None,
            ilp32: None,
        }
    }

    /// The one of a data model, if a draft was made for it.
    fn of(&self, model: DataModel) -> Option<&Loaded>
        ensures { IfSome result (λ l. IsEmptyOf model l.now) }
    {
        match model {
            DataModel::Lp64 => self.lp64.as_ref(),
            DataModel::Ilp32 => self.ilp32.as_ref(),
        }
    }

    /// Keeps the one of a data model.
    fn keep(&mut self, model: DataModel, own: Loaded)
        requires { IsEmptyOf model own }
    {
        match model {
            DataModel::Lp64 => self.lp64 = Some(own),
            DataModel::Ilp32 => self.ilp32 = Some(own),
        }
    }
}

/// A new draft without a parent over the dictionary of an earlier one, if there is room for it.
fn create_over(
    alloc: Global,
    own: &Loaded,
    model: DataModel,
    room: Option<Room>,
) -> Result<OpenDictionary, Fault>
    requires { IsEmptyOf model own.now }
    ensures ok { IfOk result (λ s. created None [] [] model ≡ Ok s) }
    ensures room { IfOk result (λ s. fits_in room (kept_bytes s.own + 0) ≡ true) }
    ensures above { IfOk result (λ s. s.parent ≡ None) }
    ensures exact_err { IfErr result (λ f. (f ≡ out_of_memory)
        ⊎ IsUncreated (created None [] [] model) room f) }
{
    if !has_room(room, own.bytes()) {
        return Err(placeless(Fault::QUOTA_FULL));
    }
    let own = own.share()?;
    let mut draft = new_draft(alloc, None, &[], &[], model)?;
    draft.settle(own.share_judged()?);
    let draft_box = box_draft(alloc, draft)?;
    Ok(OpenDictionary {
        own,
        imported: None,
        draft: Some(draft_box),
    })
}

/// A new draft without a parent, over the dictionary of an earlier one if there was one.
fn create_alone(
    alloc: Global,
    empty: &mut EmptyDictionaries,
    model: DataModel,
    room: Option<Room>,
) -> Result<OpenDictionary, Fault>
    ensures ok { IfOk result (λ s. created None [] [] model ≡ Ok s) }
    ensures room { IfOk result (λ s. fits_in room (kept_bytes s.own + 0) ≡ true) }
    ensures above { IfOk result (λ s. s.parent ≡ None) }
    ensures exact_err { IfErr result (λ f. (f ≡ out_of_memory)
        ⊎ IsUncreated (created None [] [] model) room f) }
{
    if let Some(own) = empty.of(model) {
        return create_over(alloc, own, model, room);
    }
    let created = OpenDictionary::create_within(alloc, None, &[], &[], model, room)?;
    empty.keep(model, created.own.share()?);
    Ok(created)
}

impl OpenDictionary {
    /// The same as `create_within`. A draft without a parent shares the dictionary of an earlier
    /// one, unless a label is named.
    pub fn create_sharing(
        alloc: Global,
        empty: &mut EmptyDictionaries,
        parent: Option<&Loaded>,
        parname: &[u8],
        parlabel: &[u8],
        model: DataModel,
        room: Option<Room>,
    ) -> Result<OpenDictionary, Fault>
        requires { is_some parent ≡ not (length parname.now == 0) }
        ensures ok { IfOk result (λ s.
            created (option_copied parent.entry) parname.now parlabel.now model ≡ Ok s) }
        ensures room { IfOk result (λ s. fits_in room (kept_bytes s.own
            + parent_bytes (option_copied parent.entry)) ≡ true) }
        ensures above { IfOk result (λ s. s.parent ≡ option_copied parent.entry) }
        ensures exact_err { IfErr result (λ f. (f ≡ out_of_memory) ⊎ IsUncreated
            (created (option_copied parent.entry) parname.now parlabel.now model) room f) }
    {
        if parent.is_some() {
            return OpenDictionary::create_within(alloc, parent, parname, parlabel, model, room);
        }
        if !parlabel.is_empty() {
            return OpenDictionary::create_within(alloc, parent, parname, parlabel, model, room);
        }
        create_alone(alloc, empty, model, room)
    }
}
