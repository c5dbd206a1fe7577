//! What the records of types say.

use ctf_model::{Kind, TypeNum};
use ctf_records::Tag;
use ctf_views::Variant;

/// What the record of a type says, apart from the name. No other type and no name is read.
#[derive(Drop)]
pub struct Shape<'a> {
    pub kind: Kind,
    /// Its size in bytes, if the head has one.
    pub size: Option<u64>,
    /// What it points to, returns, renames or qualifies.
    pub reference: Option<TypeNum>,
    /// What a forward declares.
    pub declares: Option<Tag>,
    /// What follows its head.
    pub behind: Variant<'a>,
}

/// All that a type's record says, borrowed from the record.
#[derive(Drop)]
pub struct Facts<'a> {
    pub name: &'a [u8],
    /// Whether it is visible to look-ups by name.
    pub root: bool,
    pub shape: Shape<'a>,
}
