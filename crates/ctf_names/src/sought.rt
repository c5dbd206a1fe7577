//! What is looked for among types.

use crate::sorts::Sort;
use ctf_model::TypeNum;

/// A type that is looked for.
#[derive(Clone, Copy)]
pub(crate) enum Sought<'a> {
    /// A visible type with a keyword and a name.
    Named { sort: Sort, name: &'a [u8] },
    /// A pointer to a type, visible or hidden.
    PointerTo(TypeNum),
}
