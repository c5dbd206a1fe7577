//! The sorts of steps that chains are made of.

/// A sort of steps from one type to types that it names.
#[derive(Clone, Copy, Debug, PartialEq, Eq)]
pub enum Chain {
    /// To the types of the values that a value of the type is or contains.
    ByValue,
    /// To the types that come next in a declaration of the type.
    Declarator,
}
