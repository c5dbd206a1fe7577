//! What a search found of one type.

use crate::reach::Reach;

/// What a search found of a type, and in which round.
#[derive(Clone, Copy)]
pub(crate) struct Mark {
    pub(crate) round: u64,
    pub(crate) reach: Reach,
}
