//! What a session may ask, without changing anything.

use crate::names::Names;
use ctf_model::{Piece, TypeNum};

/// Which items of a list are asked for.
#[derive(Clone, Copy, Debug, PartialEq, Eq)]
pub struct Window {
    /// The number of the first item, from 0.
    pub from: u32,
    /// The greatest number of items; `None` for all that follow.
    pub count: Option<u32>,
}

/// A question on a type, with no further fields.
#[derive(Clone, Copy, Debug, PartialEq, Eq)]
pub enum PlainQuestion {
    /// Its kind.
    Kind,
    /// What it is, without its list.
    Record,
    /// The arguments of a function, and what it returns.
    Args,
    /// The element type, the index type and the number of elements of an array.
    Array,
    /// How the value of an integer or a float is encoded.
    Encoding,
    /// The type that it points to, renames or qualifies.
    Reference,
    /// The type that it resolves to: typedefs and qualifiers followed.
    Resolve,
    /// Its size in bytes.
    Size,
    /// Its alignment in bytes.
    Align,
    /// Its name, as C spells it.
    Name,
    /// The type that points to it.
    Pointer,
}

/// A question on a type.
#[derive(Drop)]
pub enum TypeQuestion {
    /// A question with no further fields.
    Plain(PlainQuestion),
    /// Members of a struct or union.
    Members(Window),
    /// Enumerators of an enum.
    Enumerators(Window),
    /// The offset of a member of a member, by their names, the outermost first.
    Path(Names),
    /// The text of the value of this type that begins at bit `offset` of this memory.
    Show { memory: Piece, offset: u64 },
}

/// A question on the types, symbols or labels that a slot sees.
#[derive(Drop)]
pub enum SlotQuestion {
    /// The type that a written name finds, such as `struct node *`.
    Find(Piece),
    /// The symbol with a name, and whether it is an object or a function.
    Symbol(Piece),
    /// The type of the object with this symbol number.
    Object(u32),
    /// What the function with this symbol number returns and takes.
    Function(u32),
    /// Its labels.
    Labels(Window),
    /// The last type that the label with a name covers.
    Label(Piece),
}

/// A question on what a slot holds.
#[derive(Clone, Copy, Debug, PartialEq, Eq)]
pub enum HeldQuestion {
    /// What its dictionary and its draft have in all.
    Info,
    /// The data model of its dictionary.
    Model,
    /// At most `count` bytes of its dictionary, beginning at byte `from`.
    Bytes { from: u32, count: u32 },
}

/// A question to a slot.
#[derive(Drop)]
pub enum Question {
    /// On a type of its dictionary.
    OfType { t: TypeNum, question: TypeQuestion },
    /// On its dictionary, over the parent.
    OfSlot(SlotQuestion),
    /// On what it holds.
    OfHeld(HeldQuestion),
}
