//! What a session adds to a draft.

use ctf_model::{Piece, TypeNum};
use std::marker::Model;

/// What a new forward declares.
#[derive(Clone, Copy, Debug, PartialEq, Eq)]
pub enum Declared {
    Struct,
    Union,
    Enum,
}

/// A new integer or float: its size in bytes, its encoding, and where its value lies in its
/// storage, in bits.
#[derive(Clone, Copy, Debug, PartialEq, Eq)]
pub struct NewScalar {
    pub size: u64,
    pub encoding: u8,
    pub offset: u8,
    pub bits: u16,
}

/// A new array: the types of its elements and of its index, and the number of elements.
#[derive(Clone, Copy, Debug, PartialEq, Eq)]
pub struct NewArray {
    pub contents: TypeNum,
    pub index: TypeNum,
    pub count: u32,
}

/// Numbers of types in a request.
#[derive(Drop)]
pub struct TypeNums {
    numbers: Vec<TypeNum>,
}

impl Model for TypeNums {
    ghost use Rattle.std.specs.Prelude.{List};
    ghost use Rattle.ctf_model.specs.declared.numbers.TypeNum.{TypeNum};

    ghost Value = { List TypeNum };

    ghost view = { λ n. n.numbers.items };
}

impl TypeNums {
    ghost use Rattle.std.specs.Prelude.{◌≡◌};

    pub fn new(numbers: Vec<TypeNum>) -> TypeNums
        ensures { result ≡ numbers.items }
    {
        TypeNums { numbers }
    }

    pub fn as_slice(&self) -> &[TypeNum]
        ensures { result.now ≡ self.now }
    {
        self.numbers.as_slice()
    }
}

/// What a new type is, by its kind. Sizes are in bytes.
#[derive(Drop)]
pub enum NewKind {
    Unknown,
    Integer(NewScalar),
    Float(NewScalar),
    Pointer(TypeNum),
    Array(NewArray),
    /// What it returns, and its arguments; a last argument 0 says that more may follow.
    Function(TypeNum, TypeNums),
    /// Its size until members make it greater.
    Struct(u64),
    Union(u64),
    Enum(u64),
    Forward(Declared),
    Typedef(TypeNum),
    Volatile(TypeNum),
    Const(TypeNum),
    Restrict(TypeNum),
}

/// What is added to a draft.
#[derive(Drop)]
pub enum Addition {
    /// A type: its name, whether look-ups by name find it, and what it is.
    Type {
        name: Piece,
        root: bool,
        kind: NewKind,
    },
    /// A member of a struct or union `t`, at an offset in bits if one is stated.
    Member {
        t: TypeNum,
        name: Piece,
        tnum: TypeNum,
        offset: Option<u64>,
    },
    /// An enumerator of an enum `t`.
    Enumerator {
        t: TypeNum,
        name: Piece,
        value: i32,
    },
    /// A label, and the last type that it covers.
    Label {
        name: Piece,
        last: u32,
    },
}
