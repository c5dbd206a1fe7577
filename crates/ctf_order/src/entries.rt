//! Items that have names.

/// An item of a dictionary: its number, and the reference to its name or, in the strings of a
/// program, the offset of its name.
#[derive(Clone, Copy, Debug, PartialEq, Eq, PartialOrd, Ord)]
pub struct NamedItem {
    pub reference: u32,
    pub item: u32,
}

/// An item with the rank of its name.
#[derive(Clone, Copy)]
pub(crate) struct Ranked {
    pub(crate) rank: u64,
    pub(crate) entry: NamedItem,
}
