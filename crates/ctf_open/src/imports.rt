//! Imported parents.
ghost use Rattle.std.specs.Prelude.{◌≡◌, ◌⊎◌, None, Some, IfOk, IfErr, IfSome, OnOk, true};
ghost use Rattle.ctf_model.specs.opened.Steps.{Refuses, import_refusal};
ghost use Rattle.ctf_model.specs.rules.Refusals.{out_of_memory};
ghost use Rattle.ctf_model.specs.spaces.Kept.{fault_over};
ghost use Rattle.ctf_open.specs.Fitting.{AreTablesOf};
ghost use Rattle.ctf_open.specs.Quotas.{IsUnserved};

use crate::loading::Loaded;
use crate::open_dictionary::OpenDictionary;
use crate::tables::{Tables, tables_over};
use ctf_model::{Fault, placeless};
use std::alloc::{AllocError, Global};
use std::rc::Rc;

/// The parent that was imported, and the tables of the dictionary over it. An import of the same
/// parent shares both.
#[derive(Drop)]
pub struct Imported {
    pub parent: Loaded,
    pub tables: Rc<Tables>,
}

/// A value, to be shared.
fn share_value<T>(alloc: Global, value: T) -> Result<Rc<T>, AllocError>
where
    T: Drop,
    ensures { IfOk result (λ shared. shared.value ≡ value) }
{
    Ok(Rc::new(alloc, value)?)
}

/// The tables of a dictionary over a parent, to be shared.
fn new_tables(alloc: Global, own: &Loaded, parent: &Loaded, fits: bool) -> Result<Rc<Tables>, Fault>
    ensures made { IfOk result (λ t. AreTablesOf own.now (Some parent.now) t.value) }
    ensures exact_ok { OnOk result (fault_over own.now parent.now ≡ None) }
    ensures fits { OnOk result (fits ≡ true) }
    ensures exact_err { IfErr result (λ f. (f ≡ out_of_memory)
        ⊎ IsUnserved fits (fault_over own.now parent.now) f) }
{
    let tables = tables_over(alloc, own, parent, fits)?;
    Ok(share_value(alloc, tables)?)
}

impl Imported {
    /// A parent for a dictionary, with the dictionary's tables over it. `fits` says whether there
    /// is room for the parent.
    pub(crate) fn build(
        alloc: Global,
        own: &Loaded,
        parent: &Loaded,
        fits: bool,
    ) -> Result<Imported, Fault>
        ensures parent { IfOk result (λ i. i.parent ≡ parent.now) }
        ensures made { IfOk result (λ i. AreTablesOf own.now (Some i.parent) i.tables.value) }
        ensures exact_ok { OnOk result (fault_over own.now parent.now ≡ None) }
        ensures fits { OnOk result (fits ≡ true) }
        ensures exact_err { IfErr result (λ f. (f ≡ out_of_memory)
            ⊎ IsUnserved fits (fault_over own.now parent.now) f) }
    {
        let tables = new_tables(alloc, own, parent, fits)?;
        let parent = parent.share()?;
        Ok(Imported { parent, tables })
    }
}

impl OpenDictionary {
    /// Its tables over a parent, if it has this parent already.
    fn tables_under(&self, parent: &Loaded) -> Option<&Rc<Tables>>
        ensures { IfSome result (λ t. AreTablesOf self.now.own (Some parent.now) t.now.value
            × (fault_over self.now.own parent.now ≡ None)) }
    {
        let Some(imported) = &self.imported else {
            return None;
        };
        if !imported.parent.is_same(parent) {
            return None;
        }
        Some(&imported.tables)
    }

    /// A parent for it, with its tables over this parent. If it has that parent already, nothing is
    /// built. `fits` says whether there is room for the parent.
    pub fn over(&self, alloc: Global, parent: &Loaded, fits: bool) -> Result<Imported, Fault>
        ensures parent { IfOk result (λ i. i.parent ≡ parent.now) }
        ensures made { IfOk result (λ i. AreTablesOf self.now.own (Some i.parent) i.tables.value) }
        ensures exact_ok { OnOk result (fault_over self.now.own parent.now ≡ None) }
        ensures fits { OnOk result (fits ≡ true) }
        ensures exact_err { IfErr result (λ f. (f ≡ out_of_memory)
            ⊎ IsUnserved fits (fault_over self.now.own parent.now) f) }
    {
        let Some(known) = self.tables_under(parent) else {
            return Imported::build(alloc, &self.own, parent, fits);
        };
        if !fits {
            return Err(placeless(Fault::QUOTA_FULL));
        }
        let tables = known.clone()?;
        let parent = parent.share()?;
        Ok(Imported { parent, tables })
    }

    /// Imports the dictionary of another session as its parent, which they share. A draft keeps the
    /// parent that it was created with. A refusal changes nothing.
    pub fn import(&mut self, alloc: Global, parent: &OpenDictionary) -> Result<(), Fault>
        ensures ok { OnOk result (self.new
            ≡ record { own = self.old.own; parent = Some parent.now.own; draft = None }) }
        ensures exact_ok { OnOk result (import_refusal self.old parent.now ≡ None) }
        ensures exact_err { IfErr result (λ f.
            Refuses (import_refusal self.old parent.now) f) }
        ensures kept { IfErr result (λ f. self.new ≡ self.old) }
    {
        if self.draft.is_some() {
            return Err(placeless(Fault::FIXED_PARENT));
        }
        let imported = self.over(alloc, &parent.own, true)?;
        self.imported = Some(imported);
        Ok(())
    }

    /// Takes a parent that was checked, with its tables over this parent.
    pub fn adopt(&mut self, imported: Imported)
        requires undrafted { self.old.draft ≡ None }
        requires fits { fault_over self.old.own imported.parent ≡ None }
        requires made { AreTablesOf self.old.own (Some imported.parent) imported.tables.value }
        ensures { self.new
            ≡ record { own = self.old.own; parent = Some imported.parent; draft = None } }
    {
        self.imported = Some(imported);
    }
}
