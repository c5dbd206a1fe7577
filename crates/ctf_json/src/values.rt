//! Values of a line.
use ctf_joined::Joined;
use ctf_model::TypeNum;

/// What is stored of a value that is no list.
#[derive(Clone, Copy, Drop)]
pub enum Field<'a> {
    Null,
    Bool(bool),
    /// The text of a number.
    Number(&'a str),
    String(&'a str),
}

/// What is stored of a value that was read: an array of texts or of 16-bit type numbers, at the key
/// that may have one; any other array, and an object, is null.
#[derive(Drop)]
pub enum Read<'a> {
    Field(Field<'a>),
    Texts(Joined),
    Numbers(Vec<TypeNum>),
}

/// The value at a key.
#[derive(Clone, Copy, Drop)]
pub enum Value<'v, 'a> {
    Field(Field<'a>),
    Texts(&'v Joined),
    Numbers(&'v [TypeNum]),
}
