//! What C puts around a name to declare a type.

/// A qualifier of a type.
#[derive(Clone, Copy, Debug, PartialEq, Eq)]
pub enum Qualifier {
    Volatile,
    Const,
    Restrict,
}

/// A layer of a declarator: what a type is, in terms of the next type.
#[derive(Clone, Copy, Debug, PartialEq, Eq)]
pub enum Layer {
    /// A pointer to the next type.
    Pointer,
    /// An array of so many elements of the next type.
    Array(u32),
    /// A function that returns the next type.
    Function,
    Qualified(Qualifier),
}
