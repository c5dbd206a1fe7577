//! What a symbol stands for.

/// The classes of symbols for which a dictionary can have types.
#[derive(Clone, Copy, Debug, PartialEq, Eq)]
pub enum SymbolClass {
    Object,
    Function,
}
