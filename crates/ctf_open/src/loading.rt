//! A dictionary with the tables that it has by itself.
ghost use Rattle.std.specs.Prelude.{◌≡◌, ◌⊎◌, None, Some, IfOk, IfErr, OnOk, length, true};
ghost use Rattle.ctf_check.specs.CheckedView.{lists_of};
ghost use Rattle.ctf_check.specs.ListsView.{lists_in};
ghost use Rattle.ctf_check.specs.Stages.{fault_before_chains};
ghost use Rattle.ctf_open.specs.Fitting.{AreTablesOf};
ghost use Rattle.ctf_model.specs.rules.Faults.{first_fault};
ghost use Rattle.ctf_model.specs.format.Dictionary.{said_by};
ghost use Rattle.ctf_model.specs.format.OwnedLists.{lists_owned};
ghost use Rattle.ctf_model.specs.rules.Refusals.{out_of_memory};
ghost use Rattle.ctf_symbols.specs.Fitting.{Fits};

use crate::tables::Tables;
use ctf_check::{Checked, Judged, LentLists};
use ctf_model::{DataModel, Fault, Parts, placeless};
use ctf_symbols::SymbolMap;
use std::alloc::{AllocError, Global};
use std::marker::Model;
use std::rc::Rc;

/// The data model of a dictionary if none is stated.
pub const DEFAULT_MODEL: DataModel = DataModel::Lp64;

/// What is derived from a dictionary: the map of its symbols, and the tables that it has without a
/// parent.
#[derive(Drop)]
pub(crate) struct Derived {
    symbols: SymbolMap,
    tables: Tables,
}

/// An opened dictionary, and what is derived from it.
///
/// None of it ever changes, so slots of any sessions, publications and the slots that imported it
/// share it. Contracts see only its lists and its data model.
#[derive(Drop)]
pub struct Loaded {
    dictionary: Rc<Judged<'static>>,
    derived: Rc<Derived>,
}

impl Model for Loaded {
    ghost use Rattle.std.specs.Prelude.{None};
    ghost use Rattle.ctf_open.specs.Fitting.{AreTablesOf};
    ghost use Rattle.ctf_model.specs.spaces.Kept.{Kept};
    ghost use Rattle.ctf_symbols.specs.Fitting.{Fits};

    ghost Value = { Kept };

    ghost view = { λ l. l.dictionary.value.kept };

    ghost invariant = { λ l. Fits l.dictionary.value.kept.lists l.derived.value.symbols
        × AreTablesOf l.dictionary.value.kept None l.derived.value.tables };
}

/// Derives the tables of a dictionary.
fn derive(alloc: Global, dictionary: &Judged<'_>) -> Result<Rc<Derived>, AllocError>
    ensures mapped { IfOk result (λ k. Fits dictionary.now.kept.lists k.value.symbols) }
    ensures made { IfOk result (λ k. AreTablesOf dictionary.now.kept None k.value.tables) }
{
    let symbols = SymbolMap::build(alloc, &dictionary.view())?;
    let tables = Tables::build(alloc, dictionary)?;
    Ok(Rc::new(alloc, Derived { symbols, tables })?)
}

/// The lists of a dictionary that owns them.
fn own_parts(dictionary: Judged<'static>) -> Parts
    requires { dictionary.owned ≡ true }
    ensures { lists_owned result ≡ dictionary.entry.kept.lists }
{
    match dictionary.into_parts() {
        Some(parts) => parts,
        None => unreachable!(),
    }
}

impl Loaded {
    /// The opened form of a checked dictionary; the dictionary again if memory was refused.
    #[inline(always)]
    fn of(alloc: Global, dictionary: Judged<'static>) -> Result<Loaded, Judged<'static>>
        ensures ok { IfOk result (λ l. l ≡ dictionary.entry.kept) }
        ensures back { IfErr result (λ d. d ≡ dictionary.entry) }
    {
        let Ok(derived) = derive(alloc, &dictionary) else {
            return Err(dictionary);
        };
        match Rc::new(alloc, dictionary) {
            Ok(dictionary) => Ok(Loaded {
                dictionary,
                derived,
            }),
            Err(failed) => Err(failed.value),
        }
    }

    /// Opens lists, for a data model, or gives their first fault with the lists.
    pub fn build(alloc: Global, parts: Parts, model: DataModel) -> Result<Loaded, (Fault, Parts)>
        ensures ok { IfOk result (λ l. l ≡ record { lists = lists_owned parts; model = model }) }
        ensures exact_ok { OnOk result (first_fault (lists_owned parts) ≡ None) }
        ensures exact_err { IfErr result (λ e. (e.0 ≡ out_of_memory)
            ⊎ (first_fault (lists_owned parts) ≡ Some e.0)) }
        ensures late { IfErr result (λ e. (fault_before_chains (lists_owned parts) ≡ None)
            ⊎ (first_fault (lists_owned parts) ≡ Some e.0)) }
        ensures back { IfErr result (λ e. lists_owned e.1 ≡ lists_owned parts) }
    {
        let dictionary = Judged::build(alloc, parts, model)?;
        match Loaded::of(alloc, dictionary) {
            Ok(loaded) => Ok(loaded),
            Err(dictionary) => Err((placeless(Fault::MEMORY), own_parts(dictionary))),
        }
    }

    /// Opens lists that are known to break no rule, and have so many types. They are not checked
    /// again.
    pub fn of_faultless(
        alloc: Global,
        parts: Parts,
        model: DataModel,
        count: usize,
    ) -> Result<Loaded, Fault>
        requires faultless { first_fault (lists_owned parts) ≡ None }
        requires count { count ≡ length (said_by (lists_owned parts)).terms }
        ensures ok { IfOk result (λ l. l ≡ record { lists = lists_owned parts; model = model }) }
        ensures err { IfErr result (λ f. f ≡ out_of_memory) }
    {
        let dictionary = Judged::of_faultless(alloc, parts, model, count)?;
        match Loaded::of(alloc, dictionary) {
            Ok(loaded) => Ok(loaded),
            Err(_) => Err(placeless(Fault::MEMORY)),
        }
    }

    /// Opens borrowed lists, for a data model, or gives their first fault. No list is copied. If
    /// memory is refused, the rules before those of chains are kept.
    pub fn load_lent(
        alloc: Global,
        lists: LentLists<'static>,
        model: DataModel,
    ) -> Result<Loaded, Fault>
        ensures ok { IfOk result (λ l. l ≡ record { lists = lists_in lists.entry; model = model }) }
        ensures exact_ok { OnOk result (first_fault (lists_in lists.entry) ≡ None) }
        ensures exact_err { IfErr result (λ f. (f ≡ out_of_memory)
            ⊎ (first_fault (lists_in lists.entry) ≡ Some f)) }
        ensures late { IfErr result (λ f. (fault_before_chains (lists_in lists.entry) ≡ None)
            ⊎ (first_fault (lists_in lists.entry) ≡ Some f)) }
    {
        let dictionary = Judged::judge(alloc, lists, model)?;
        match Loaded::of(alloc, dictionary) {
            Ok(loaded) => Ok(loaded),
            Err(_) => Err(placeless(Fault::MEMORY)),
        }
    }

    /// The same dictionary, shared once more.
    pub fn share(&self) -> Result<Loaded, AllocError>
        ensures { IfOk result (λ l. l ≡ self.now) }
    {
        let dictionary = self.dictionary.clone()?;
        let derived = self.derived.clone()?;
        Ok(Loaded {
            dictionary,
            derived,
        })
    }

    /// The dictionary, shared once more, for a draft over it or for its own draft.
    pub fn share_judged(&self) -> Result<Rc<Judged<'static>>, AllocError>
        ensures { IfOk result (λ j. j.value.kept ≡ self.now) }
    {
        self.dictionary.clone()
    }

    /// The dictionary, borrowed.
    pub fn view(&self) -> Checked<'_>
        ensures { lists_of result ≡ self.now.lists }
    {
        self.dictionary.view()
    }

    /// That it breaks no rule, for proofs.
    pub fn keeps_rules(&self)
        ensures { first_fault self.now.lists ≡ None }
    {
        self.dictionary.keeps_rules();
    }

    /// The data model of its program.
    pub fn model(&self) -> DataModel
        ensures { result ≡ self.now.model }
    {
        self.dictionary.model()
    }

    /// The map of its symbols.
    pub fn symbols(&self) -> &SymbolMap
        ensures { Fits self.now.lists result.now }
    {
        &self.derived.symbols
    }

    /// Its tables without a parent.
    pub fn tables(&self) -> &Tables
        ensures { AreTablesOf self.now None result.now }
    {
        &self.derived.tables
    }
}
