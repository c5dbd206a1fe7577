//! A draft, from creation to updates and discards.
ghost use Rattle.std.specs.Prelude.{◌≡◌, ◌⊎◌, ◌++◌, ◌==◌, not, is_some, length, map, None, Some, Ok, Err, IfOk, IfErr, option_map};
ghost use Rattle.std.specs.Option.{ForSome};
ghost use Rattle.ctf_draft.specs.ParentView.{FitsParent, parent_in};
ghost use Rattle.ctf_draft.specs.TypeView.{type_of};
ghost use Rattle.ctf_model.specs.format.Dictionary.{Denotes, said_by};
ghost use Rattle.ctf_model.specs.drafts.DraftLaws.{IsSound};
ghost use Rattle.ctf_model.specs.drafts.Drafts.{above, all_of, rollback, content, is_childs as is_childs_parent, is_of_other as is_of_other_model, new_draft, pending_count, commit};
ghost use Rattle.ctf_model.specs.spaces.Kept.{modelled_by};
ghost use Rattle.ctf_model.specs.rules.Refusals.{out_of_memory};

use crate::depths::Depths;
use crate::labels::Labels;
use crate::marks::Marks;
use crate::naming::has_zero;
use crate::parents::Parent;
use crate::types::DraftType;
use ctf_check::Judged;
use ctf_model::{Bytes, DataModel, Fault, placeless};
use std::alloc::{AllocError, Global};
use std::marker::Model;
use std::rc::Rc;

/// A dictionary to which types and labels are added: those that the last update wrote, followed by
/// pending ones. Contracts see these, and the dictionary of the last update. Every draft is sound,
/// with and without what is pending: its types fit the format, and name no missing type. `types`
/// says so.
///
/// Fields lie in memory in this order: the first four are what `pending` reads, which so finds them
/// in a line or two of the processor's cache.
#[derive(Drop)]
pub struct Draft {
    pub(crate) types: Vec<DraftType>,
    pub(crate) updated: usize,
    updated_labels: usize,
    pub(crate) labels: Labels,
    pub(crate) alloc: Global,
    parname: Bytes,
    parlabel: Bytes,
    pub(crate) parent: Option<Parent>,
    pub(crate) model: DataModel,
    dictionary: Option<Rc<Judged<'static>>>,
    pub(crate) marks: Marks,
    pub(crate) depths: Depths,
}

impl Model for Draft {
    ghost use Rattle.std.specs.Prelude.{◌≤◌, length, map, option_map, vec_len};
    ghost use Rattle.ctf_draft.specs.DraftView.{Owned, made_of};
    ghost use Rattle.ctf_draft.specs.TypeView.{type_of};
    ghost use Rattle.ctf_model.specs.drafts.Adders.{most_types};
    ghost use Rattle.ctf_model.specs.drafts.DraftLaws.{IsSound};
    ghost use Rattle.std.specs.Option.{ForSome};
    ghost use Rattle.ctf_draft.specs.ParentView.{FitsParent, parent_in};
    ghost use Rattle.ctf_draft.specs.Reaching.{Knows};
    ghost use Rattle.ctf_draft.specs.Bounding.{IsBounded};

    ghost Value = { Owned };

    ghost view = { λ d. record {
      draft = made_of d.parname d.parlabel (parent_in d.parent) d.model d.updated d.updated_labels
          (map type_of d.types.items) d.labels;
      dictionary = option_map (λ p. p.value.kept) d.dictionary;
    } };

    ghost invariant = { λ d. (d.updated ≤ vec_len d.types)
        × (d.updated_labels ≤ length d.labels)
        × (vec_len d.types ≤ most_types)
        × ForSome d.parent (FitsParent d.model)
        × IsSound (made_of d.parname d.parlabel (parent_in d.parent) d.model d.updated
        d.updated_labels (map type_of d.types.items) d.labels)
        × Knows (made_of d.parname d.parlabel (parent_in d.parent) d.model d.updated
        d.updated_labels (map type_of d.types.items) d.labels) d.marks
        × IsBounded (made_of d.parname d.parlabel (parent_in d.parent) d.model d.updated
        d.updated_labels (map type_of d.types.items) d.labels) d.depths };
}

impl Draft {
    /// A draft with nothing in it. It has a parent exactly if the parent's name is not empty; the
    /// parent has the same data model, and stays for good.
    #[tactic(auto, unfolding(ctf_model::specs::drafts::Drafts::new_draft))]
    pub fn new(
        alloc: Global,
        parent: Option<Rc<Judged<'static>>>,
        parname: Bytes,
        parlabel: Bytes,
        model: DataModel,
    ) -> Result<Draft, Fault>
        requires named { is_some parent ≡ not (length parname == 0) }
        ensures ok { IfOk result (λ d. (new_draft
            (option_map (λ p. modelled_by p.value.kept) parent.entry) parname parlabel model
            ≡ Ok d.draft) × (d.dictionary ≡ None)) }
        ensures exact_err { IfErr result (λ f. (f ≡ out_of_memory) ⊎ (new_draft
            (option_map (λ p. modelled_by p.value.kept) parent.entry) parname parlabel model
            ≡ Err f)) }
    {
        if has_zero(parname.as_slice()) {
            return Err(placeless(Fault::NAME_HAS_ZERO));
        }
        if has_zero(parlabel.as_slice()) {
            return Err(placeless(Fault::NAME_HAS_ZERO));
        }
        if is_childs(&parent) {
            return Err(placeless(Fault::PARENT_IS_CHILD));
        }
        if is_of_other(model, &parent) {
            return Err(placeless(Fault::MODEL_DIFFERS));
        }
        let parent = shared_parent(alloc, parent, model)?;
        Ok(Draft {
            types: Vec::new(alloc),
            updated: 0,
            updated_labels: 0,
            labels: Labels::new(alloc),
            alloc,
            parname,
            parlabel,
            parent,
            model,
            dictionary: None,
            marks: Marks::new(alloc),
            depths: Depths::new(alloc),
        })
    }

    /// How many types and labels were added since the last update.
    pub fn pending(&self) -> usize
        ensures { result ≡ pending_count self.now.draft }
    {
        self.types.len() - self.updated + (self.labels.len() - self.updated_labels)
    }

    /// Drops what was added since the last update.
    pub fn discard(&mut self)
        ensures draft { self.new.draft ≡ rollback self.old.draft }
        ensures dictionary { self.new.dictionary ≡ self.old.dictionary }
    {
        self.marks.forget();
        self.types.truncate(self.updated);
        self.labels.truncate(self.updated_labels);
        self.depths.truncate(self.updated);
    }

    /// Ends an update: all additions now belong to the dictionary, which was written with them.
    pub fn settle(&mut self, dictionary: Rc<Judged<'static>>)
        requires denotes { Denotes dictionary.value.kept.lists (content self.old.draft) }
        requires model { dictionary.value.kept.model ≡ self.old.draft.model }
        ensures draft { self.new.draft ≡ commit self.old.draft }
        ensures dictionary { self.new.dictionary ≡ Some dictionary.entry.value.kept }
    {
        self.updated = self.types.len();
        self.updated_labels = self.labels.len();
        self.dictionary = Some(dictionary);
    }

    /// Its types, updated ones first.
    pub fn types(&self) -> &[DraftType]
        ensures types { map type_of result.now ≡ (all_of self.now.draft).terms }
        ensures sound { IsSound self.now.draft }
    {
        self.types.as_slice()
    }

    /// Its labels, updated ones first.
    pub fn labels(&self) -> &Labels
        ensures { result.now ≡ (all_of self.now.draft).labels }
    {
        &self.labels
    }

    pub fn parname(&self) -> &[u8]
        ensures { result.now ≡ self.now.draft.parname }
    {
        self.parname.as_slice()
    }

    pub fn parlabel(&self) -> &[u8]
        ensures { result.now ≡ self.now.draft.parlabel }
    {
        self.parlabel.as_slice()
    }

    pub fn parent(&self) -> Option<&Rc<Judged<'static>>>
        ensures { option_map (λ p. said_by p.now.value.kept.lists) result ≡ self.now.draft.parent }
    {
        match &self.parent {
            Some(parent) => Some(&parent.judged),
            None => None,
        }
    }

    /// The dictionary of the last update; nothing before the first one.
    pub fn dictionary(&self) -> Option<&Rc<Judged<'static>>>
        ensures { option_map (λ p. p.now.value.kept) result ≡ self.now.dictionary }
    {
        self.dictionary.as_ref()
    }

    pub fn model(&self) -> DataModel
        ensures { result ≡ self.now.draft.model }
    {
        self.model
    }
}

/// Whether a parent is a child itself.
fn is_childs(parent: &Option<Rc<Judged<'static>>>) -> bool
    ensures { result ≡ is_childs_parent
        (above (option_map (λ p. modelled_by p.value.kept) parent.now)) }
{
    match parent {
        Some(parent) => parent.view().child(),
        None => false,
    }
}

/// Whether a parent has another data model.
fn is_of_other(model: DataModel, parent: &Option<Rc<Judged<'static>>>) -> bool
    ensures { result ≡ is_of_other_model model
        (option_map (λ p. modelled_by p.value.kept) parent.now) }
{
    match parent {
        Some(parent) => parent.model() != model,
        None => false,
    }
}

/// A parent as a draft keeps it.
fn shared_parent(
    alloc: Global,
    parent: Option<Rc<Judged<'static>>>,
    model: DataModel,
) -> Result<Option<Parent>, AllocError>
    ensures same { IfOk result (λ kept. parent_in kept
        ≡ option_map (λ p. said_by p.value.kept.lists) parent.entry) }
    ensures fits { IfOk result (λ kept. ForSome kept (FitsParent model)) }
{
    match parent {
        Some(parent) => Ok(Some(Parent::build(alloc, parent, model)?)),
        None => Ok(None),
    }
}
