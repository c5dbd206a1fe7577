//! An open dictionary: with the parent that it imported, and its draft.
ghost use Rattle.std.specs.Prelude.{◌≡◌, ◌⊎◌, None, Some, IfOk, IfErr, OnOk, is_some, option_copied, option_map};
ghost use Rattle.std.specs.Option.{ForSome};
ghost use Rattle.ctf_model.specs.opened.Steps.{Refuses};
ghost use Rattle.ctf_model.specs.opened.Open.{own_in, pending_in, space_in};
ghost use Rattle.ctf_check.specs.CheckedView.{dictionary_of, lists_of};
ghost use Rattle.ctf_check.specs.ListsView.{lists_in};
ghost use Rattle.ctf_check.specs.Stages.{fault_before_chains};
ghost use Rattle.ctf_open.specs.Drafting.{IsUnder};
ghost use Rattle.ctf_open.specs.Fitting.{AreTablesOf};
ghost use Rattle.ctf_model.specs.format.OwnedLists.{lists_owned};
ghost use Rattle.ctf_model.specs.rules.Faults.{first_fault};
ghost use Rattle.ctf_model.specs.rules.Refusals.{out_of_memory};
ghost use Rattle.ctf_model.specs.spaces.Kept.{fault_over};
ghost use Rattle.ctf_space.specs.SpaceView.{own_lists, parent_lists, space_of};
ghost use Rattle.ctf_symbols.specs.Fitting.{Fits};

use crate::imports::Imported;
use crate::loading::Loaded;
use crate::tables::Tables;
use ctf_check::{Checked, LentLists, check};
use ctf_draft::Draft;
use ctf_model::{Bytes, DataModel, Fault, Parts, placeless};
use ctf_space::Space;
use ctf_symbols::SymbolMap;
use std::alloc::{AllocError, Global};
use std::marker::Model;

/// A dictionary, and its parent if it imported one. Both may be shared with other sessions. If
/// there is a draft, the dictionary is what the draft's last update wrote, and the parent is the
/// draft's.
///
/// Fields lie in memory in this order, so that most questions read its beginning alone.
#[derive(Drop)]
pub struct OpenDictionary {
    pub(crate) own: Loaded,
    pub(crate) draft: Option<Box<Draft>>,
    pub(crate) imported: Option<Imported>,
}

impl Model for OpenDictionary {
    ghost use Rattle.std.specs.Prelude.{◌≡◌, None, Some, option_map};
    ghost use Rattle.std.specs.Option.{ForSome};
    ghost use Rattle.ctf_model.specs.drafts.Drafts.{rollback};
    ghost use Rattle.ctf_model.specs.opened.Open.{Open};
    ghost use Rattle.ctf_open.specs.Drafting.{IsUnder, IsWritten};
    ghost use Rattle.ctf_open.specs.Fitting.{AreTablesOf};
    ghost use Rattle.ctf_model.specs.spaces.Kept.{fault_over};

    ghost Value = { Open };

    ghost view = { λ s. record {
      own = s.own;
      parent = option_map (λ i. i.parent) s.imported;
      draft = option_map (λ d. d.value.draft) s.draft;
    } };

    ghost invariant = { λ s. ForSome s.imported (λ i. fault_over s.own i.parent ≡ None)
        × ForSome s.imported (λ i. AreTablesOf s.own (Some i.parent) i.tables.value)
        × ForSome s.draft (λ d. IsUnder d.value.draft (option_map (λ i. i.parent) s.imported))
        × ForSome s.draft (λ d. IsWritten (rollback d.value.draft) s.own) };
}

/// A copy of a list, if there is one.
fn copy_list(alloc: Global, list: Option<&[u8]>) -> Result<Option<Bytes>, AllocError>
    ensures { IfOk result (λ copy. copy ≡ option_copied list.entry) }
{
    match list {
        Some(bytes) => Ok(Some(Bytes::from_slice(alloc, bytes)?)),
        None => Ok(None),
    }
}

/// Copies of the lists.
pub fn parts_of(
    alloc: Global,
    ctf: &[u8],
    sym: Option<&[u8]>,
    strs: Option<&[u8]>,
) -> Result<Parts, AllocError>
    ensures { IfOk result (λ p. lists_owned p
        ≡ record {
          ctf = ctf.now;
          sym = option_copied sym.entry;
          strs = option_copied strs.entry;
        }) }
{
    Ok(Parts {
        ctf: Bytes::from_slice(alloc, ctf)?,
        sym: copy_list(alloc, sym)?,
        strs: copy_list(alloc, strs)?,
    })
}

/// Why lists are not opened that could not be copied: their first fault, or else out of memory.
fn fault_uncopied(alloc: Global, lists: LentLists<'_>) -> Fault
    ensures fault { Refuses (first_fault (lists_in lists.entry)) result }
    ensures late { (fault_before_chains (lists_in lists.entry) ≡ None)
        ⊎ (first_fault (lists_in lists.entry) ≡ Some result) }
{
    let Err(fault) = check(alloc, lists.ctf, lists.sym, lists.strs) else {
        return placeless(Fault::MEMORY);
    };
    fault
}

impl OpenDictionary {
    /// Checks copies of the lists, and keeps them, or gives their first fault. If memory is
    /// refused, the rules before those of chains are kept; the same for borrowed lists.
    pub fn open(
        alloc: Global,
        ctf: &[u8],
        sym: Option<&[u8]>,
        strs: Option<&[u8]>,
        model: DataModel,
    ) -> Result<OpenDictionary, Fault>
        ensures ok { IfOk result (λ s. s ≡ record {
          own = record {
            lists = record {
              ctf = ctf.now;
              sym = option_copied sym.entry;
              strs = option_copied strs.entry;
            };
            model = model;
          };
          parent = None;
          draft = None;
        }) }
        ensures exact_ok { OnOk result (first_fault (record {
          ctf = ctf.now;
          sym = option_copied sym.entry;
          strs = option_copied strs.entry;
        }) ≡ None) }
        ensures exact_err { IfErr result (λ f. Refuses (first_fault (record {
          ctf = ctf.now;
          sym = option_copied sym.entry;
          strs = option_copied strs.entry;
        })) f) }
        ensures late { IfErr result (λ f. (fault_before_chains (record {
          ctf = ctf.now;
          sym = option_copied sym.entry;
          strs = option_copied strs.entry;
        }) ≡ None) ⊎ (first_fault (record {
          ctf = ctf.now;
          sym = option_copied sym.entry;
          strs = option_copied strs.entry;
        }) ≡ Some f)) }
    {
        let Ok(parts) = parts_of(alloc, ctf, sym, strs) else {
            return Err(fault_uncopied(alloc, LentLists { ctf, sym, strs }));
        };
        match Loaded::build(alloc, parts, model) {
            Ok(own) => Ok(OpenDictionary::of(own)),
            Err((fault, _)) => Err(fault),
        }
    }

    /// The same over borrowed lists, which are not copied.
    pub fn open_lent(
        alloc: Global,
        ctf: &'static [u8],
        sym: Option<&'static [u8]>,
        strs: Option<&'static [u8]>,
        model: DataModel,
    ) -> Result<OpenDictionary, Fault>
        ensures ok { IfOk result (λ s. s ≡ record {
          own = record {
            lists = record {
              ctf = ctf.now;
              sym = option_copied sym.entry;
              strs = option_copied strs.entry;
            };
            model = model;
          };
          parent = None;
          draft = None;
        }) }
        ensures exact_ok { OnOk result (first_fault (record {
          ctf = ctf.now;
          sym = option_copied sym.entry;
          strs = option_copied strs.entry;
        }) ≡ None) }
        ensures exact_err { IfErr result (λ f. Refuses (first_fault (record {
          ctf = ctf.now;
          sym = option_copied sym.entry;
          strs = option_copied strs.entry;
        })) f) }
        ensures late { IfErr result (λ f. (fault_before_chains (record {
          ctf = ctf.now;
          sym = option_copied sym.entry;
          strs = option_copied strs.entry;
        }) ≡ None) ⊎ (first_fault (record {
          ctf = ctf.now;
          sym = option_copied sym.entry;
          strs = option_copied strs.entry;
        }) ≡ Some f)) }
    {
        let own = Loaded::load_lent(alloc, LentLists { ctf, sym, strs }, model)?;
        Ok(OpenDictionary::of(own))
    }

    /// A dictionary without a parent.
    pub fn of(own: Loaded) -> OpenDictionary
        ensures { result ≡ record { own = own; parent = None; draft = None } }
    {
        OpenDictionary {
            own,
            draft: None,
            imported: None,
        }
    }

    /// Whether it has a parent.
    pub fn is_imported(&self) -> bool
        ensures { result ≡ is_some self.now.parent }
    {
        self.imported.is_some()
    }

    /// Whether it has a draft.
    pub fn is_drafted(&self) -> bool
        ensures { result ≡ is_some self.now.draft }
    {
        self.draft.is_some()
    }

    /// How many types and labels its draft has pending, if it has one.
    pub fn pending(&self) -> usize
        ensures { result ≡ pending_in self.now.draft }
    {
        match &self.draft {
            Some(draft) => draft.pending(),
            None => 0,
        }
    }

    /// The dictionary over its parent, for questions.
    #[inline(always)]
    pub fn space(&self) -> Space<'_>
        ensures space { space_of result ≡ space_in self.now }
        ensures lists { own_lists result ≡ self.now.own.lists }
        ensures parent { parent_lists result ≡ option_map (λ p. p.lists) self.now.parent }
    {
        let own = self.own.view();
        let model = self.own.model();
        match &self.imported {
            Some(imported) => Space::again(own, imported.parent.view(), model),
            None => Space::own(own, model),
        }
    }

    /// The tables for questions.
    #[inline(always)]
    pub fn tables(&self) -> &Tables
        ensures { AreTablesOf self.now.own self.now.parent result.now }
    {
        match &self.imported {
            Some(imported) => &imported.tables,
            None => self.own.tables(),
        }
    }

    /// The dictionary itself.
    #[inline(always)]
    pub fn dictionary(&self) -> Checked<'_>
        ensures lists { lists_of result ≡ self.now.own.lists }
        ensures own { dictionary_of result ≡ own_in self.now }
    {
        self.own.view()
    }

    /// The map of its symbols and labels.
    pub fn symbols(&self) -> &SymbolMap
        ensures { Fits self.now.own.lists result.now }
    {
        self.own.symbols()
    }

    /// The bytes of the dictionary.
    pub fn ctf(&self) -> &[u8]
        ensures { result.now ≡ self.now.own.lists.ctf }
    {
        self.own.view().lists().ctf
    }
}
