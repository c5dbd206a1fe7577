//! Symbols that were found by their names.

use ctf_model::SymbolClass;

/// A considered symbol that was found by its name: its number, from 0, and its class.
#[derive(Clone, Copy, Debug, PartialEq, Eq)]
pub struct NamedSymbol {
    pub number: u32,
    pub class: SymbolClass,
}
