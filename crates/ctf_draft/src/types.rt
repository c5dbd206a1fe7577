//! Types of a draft, which own their names and their lists.
ghost use Rattle.std.specs.Prelude.{◌≡◌, true};
ghost use Rattle.ctf_draft.specs.NamesInUseView.{are_hashed, names_in};

use crate::names::Name;
use crate::names_in_use::NamesInUse;
use ctf_model::TypeNum;
use ctf_records::Tag;
use ctf_views::{ArrayInfo, Encoding};

/// A member of a struct or union.
#[derive(Drop)]
pub struct Member {
    pub name: Name,
    pub tnum: TypeNum,
    /// Where it begins, in bits.
    pub offset: u64,
}

/// A name for a value of an enum.
#[derive(Drop)]
pub struct Enumerator {
    pub name: Name,
    pub value: i32,
}

/// The kinds of types with an encoding.
#[derive(Clone, Copy, Debug, PartialEq, Eq)]
pub enum ScalarKind {
    Integer,
    Float,
}

/// The kinds of types that refer to one other type.
#[derive(Clone, Copy, Debug, PartialEq, Eq)]
pub enum ReferenceKind {
    Pointer,
    Typedef,
    Volatile,
    Const,
    Restrict,
}

/// The kinds of types with members.
#[derive(Clone, Copy, Debug, PartialEq, Eq)]
pub enum AggregateKind {
    Struct,
    Union,
}

/// The body of a type, by its kind. Sizes are in bytes.
#[derive(Drop)]
pub enum Body {
    Unknown,
    /// Its size, and how its value is encoded.
    Scalar(ScalarKind, u64, Encoding),
    Reference(ReferenceKind, TypeNum),
    /// An array, which stores no size.
    Array(ArrayInfo),
    /// What it returns, and its arguments; a last argument 0 says that more may follow.
    Function(TypeNum, Vec<TypeNum>),
    /// Its size and its members.
    Aggregate(AggregateKind, u64, Vec<Member>),
    /// Its size and its enumerators.
    Enum(u64, Vec<Enumerator>),
    Forward(Tag),
}

/// A type of a draft.
#[derive(Drop)]
pub struct DraftType {
    pub name: Name,
    /// Whether it is visible to look-ups by name.
    pub root: bool,
    pub body: Body,
    /// The names that its members or enumerators have.
    pub(crate) taken: NamesInUse,
    ghost kept: { are_hashed taken (names_in body) ≡ true },
}
