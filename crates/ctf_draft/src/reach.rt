//! What a search computes of a type.

use ctf_model::Fault;

/// How many steps by value the longest chain from a type has, and the alignment of the type.
#[derive(Clone, Copy)]
pub(crate) struct Reach {
    pub(crate) depth: u16,
    pub(crate) align: Result<u64, Fault>,
}
