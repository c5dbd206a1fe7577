//! The sections of a dictionary.

/// A section of a dictionary, in the order in which the header gives their offsets.
#[derive(Clone, Copy, Debug, PartialEq, Eq)]
pub enum Section {
    SLabels,
    SObjects,
    SFunctions,
    STypes,
    SStrings,
}
