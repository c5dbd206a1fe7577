//! The names and pointers of a space.
ghost use Rattle.std.specs.Prelude.{◌≡◌, IfOk, Some, None};
ghost use Rattle.std.specs.Option.{ForSome, option_map};
ghost use Rattle.ctf_names.specs.Fitting.{Fits, IsNamesOf, OverParent};
ghost use Rattle.ctf_space.specs.SpaceView.{own_lists, parent_lists};

use crate::kept::Names;
use ctf_space::Space;
use std::alloc::{AllocError, Global};
use std::rc::Rc;

/// The types of a dictionary, and of its parent if it has one, by their names: a type is found by a
/// hash of its name.
///
/// It keeps plain numbers, 6 bytes for each type and 4 for each pointer of a child to a type of its
/// parent, and borrows nothing. The numbers of a parent are shared with the parent's own index.
#[derive(Drop)]
pub struct NameIndex {
    pub(crate) own: Rc<Names>,
    pub(crate) parent: Option<Rc<Names>>,
}

/// The index of a space, with that of its parent.
fn beside(
    alloc: Global,
    space: &Space<'_>,
    parent: Option<Rc<Names>>,
) -> Result<NameIndex, AllocError>
    requires { OverParent (parent_lists space.now) (option_map (λ rc. rc.value) parent) }
    ensures { IfOk result (λ i. Fits (own_lists space.now) (parent_lists space.now) i) }
{
    let own = Names::build(alloc, &space.dictionary())?;
    Ok(NameIndex {
        own: Rc::new(alloc, own)?,
        parent,
    })
}

/// The names of a space's own types, to be shared.
fn by_itself(alloc: Global, space: &Space<'_>) -> Result<Rc<Names>, AllocError>
    ensures { IfOk result (λ rc. IsNamesOf (own_lists space.now) rc.value) }
{
    let names = Names::build(alloc, &space.dictionary())?;
    Ok(Rc::new(alloc, names)?)
}

impl NameIndex {
    /// The index of a space. If the space has a parent, the index of the parent is built too.
    pub fn build(alloc: Global, space: &Space<'_>) -> Result<NameIndex, AllocError>
        ensures { IfOk result (λ i. Fits (own_lists space.now) (parent_lists space.now) i) }
    {
        let parent = match space.parent() {
            Some(parent) => Some(by_itself(alloc, &parent)?),
            None => None,
        };
        beside(alloc, space, parent)
    }

    /// The index of a space over a parent. It shares both indexes that are given: that of the
    /// dictionary by itself, and the parent's. No name is read.
    pub fn over(
        space: &Space<'_>,
        own: &NameIndex,
        parent: &NameIndex,
    ) -> Result<NameIndex, AllocError>
        requires own { Fits (own_lists space.now) None own.now }
        requires parent { ForSome (parent_lists space.now) (λ p. Fits p None parent.now) }
        ensures { IfOk result (λ i. Fits (own_lists space.now) (parent_lists space.now) i) }
    {
        let shared = match space.parent() {
            Some(_) => Some(parent.own.clone()?),
            None => None,
        };
        Ok(NameIndex {
            own: own.own.clone()?,
            parent: shared,
        })
    }
}
