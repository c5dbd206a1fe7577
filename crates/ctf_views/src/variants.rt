//! What a record has after its head.

use crate::args::Args;
use crate::enumerators::Enumerators;
use crate::members::Members;
use crate::parts::{ArrayInfo, Encoding};
use ctf_records::Tag;

/// What follows the head of a type's record.
#[derive(Drop)]
pub enum Variant<'a> {
    /// The members of a struct or union.
    Members(Members<'a>),
    /// The enumerators of an enum.
    Enumerators(Enumerators<'a>),
    /// The arguments of a function.
    Args(Args<'a>),
    Array(ArrayInfo),
    /// The encoding of an integer or a float.
    Encoding(Encoding),
    /// What a forward declares.
    Tag(Tag),
    /// Nothing, for all other kinds.
    Nothing,
}
