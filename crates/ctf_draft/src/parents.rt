//! The parent of a draft.
ghost use Rattle.std.specs.Prelude.{◌≡◌, IfOk};
ghost use Rattle.ctf_draft.specs.ParentView.{FitsParent};
ghost use Rattle.ctf_model.specs.format.Dictionary.{said_by};
ghost use Rattle.ctf_space.specs.SpaceView.{space_alone};

use ctf_check::Judged;
use ctf_layout::Layout;
use ctf_model::DataModel;
use ctf_space::Space;
use std::alloc::{AllocError, Global};
use std::rc::Rc;

/// A parent's dictionary, and the sizes and alignments of its types.
#[derive(Drop)]
pub struct Parent {
    pub(crate) judged: Rc<Judged<'static>>,
    pub(crate) layout: Layout,
}

impl Parent {
    /// Finds the sizes and alignments of all its types, for a data model.
    pub(crate) fn build(
        alloc: Global,
        judged: Rc<Judged<'static>>,
        model: DataModel,
    ) -> Result<Parent, AllocError>
        ensures same { IfOk result (λ p. p.judged.value ≡ judged.entry.value) }
        ensures fits { IfOk result (λ p. FitsParent model p) }
    {
        let layout = Layout::build(alloc, &Space::own(judged.view(), model))?;
        Ok(Parent { judged, layout })
    }
}
