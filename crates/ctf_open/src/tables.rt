//! The tables of a slot's dictionary, by which its questions are answered.
ghost use Rattle.std.specs.Prelude.{◌≡◌, ◌⊎◌, None, Some, IfOk, IfErr, OnOk, true};
ghost use Rattle.std.specs.Option.{ForSome};
ghost use Rattle.ctf_open.specs.Quotas.{IsUnserved};
ghost use Rattle.ctf_open.specs.Fitting.{AreTablesOf, Serve, ServeParent};
ghost use Rattle.ctf_model.specs.rules.Refusals.{out_of_memory};
ghost use Rattle.ctf_model.specs.spaces.Kept.{fault_over};
ghost use Rattle.ctf_names.specs.Fitting.{Fits as FitsNames};
ghost use Rattle.ctf_space.specs.SpaceView.{own_lists};

use crate::loading::Loaded;
use ctf_check::Judged;
use ctf_layout::Layout;
use ctf_model::{Fault, placeless};
use ctf_names::NameIndex;
use ctf_space::Space;
use std::alloc::{AllocError, Global};

/// The sizes and alignments of a dictionary's types, and its names, with those of its parent if it
/// has one.
#[derive(Drop)]
pub struct Tables {
    pub layout: Layout,
    pub index: NameIndex,
}

impl Tables {
    /// The tables of a dictionary without a parent.
    pub(crate) fn build(alloc: Global, dictionary: &Judged<'_>) -> Result<Tables, AllocError>
        ensures { IfOk result (λ t. AreTablesOf dictionary.now.kept None t) }
    {
        let space = Space::own(dictionary.view(), dictionary.model());
        Ok(Tables {
            layout: Layout::build(alloc, &space)?,
            index: NameIndex::build(alloc, &space)?,
        })
    }

    /// The tables of a space over a parent. The names of both are those of their own tables, and
    /// so are the parent's sizes: these are shared.
    fn over(
        alloc: Global,
        space: &Space<'_>,
        own: &Tables,
        parent: &Tables,
    ) -> Result<Tables, AllocError>
        requires own { FitsNames (own_lists space.now) None own.now.index }
        requires parent { ServeParent space.now parent.now }
        ensures { IfOk result (λ t. Serve space.now t) }
    {
        Ok(Tables {
            layout: Layout::over(alloc, space, &parent.layout)?,
            index: NameIndex::over(space, &own.index, &parent.index)?,
        })
    }
}

/// The tables of a dictionary over another as its parent, or the fault of such an import. `fits`
/// says whether the session has room for the parent; if not, none are built.
pub(crate) fn tables_over(
    alloc: Global,
    child: &Loaded,
    parent: &Loaded,
    fits: bool,
) -> Result<Tables, Fault>
    ensures ok { IfOk result (λ t. AreTablesOf child.now (Some parent.now) t) }
    ensures exact_ok { OnOk result (fault_over child.now parent.now ≡ None) }
    ensures fits { OnOk result (fits ≡ true) }
    ensures exact_err { IfErr result (λ f. (f ≡ out_of_memory)
        ⊎ IsUnserved fits (fault_over child.now parent.now) f) }
{
    let space = Space::over(child.view(), child.model(), parent.view(), parent.model())?;
    if !fits {
        return Err(placeless(Fault::QUOTA_FULL));
    }
    Ok(Tables::over(alloc, &space, child.tables(), parent.tables())?)
}
