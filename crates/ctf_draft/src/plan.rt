//! The plan for a new member.

/// The offset of a member in bits, and the size in bytes that its struct or union gets.
#[derive(Clone, Copy)]
pub(crate) struct Plan {
    pub(crate) offset: u64,
    pub(crate) size: u64,
}
