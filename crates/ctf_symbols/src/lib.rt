//! What a dictionary says of symbols, by their numbers and names.
//!
//! ```rust
//! use ctf_check::Judged;
//! use ctf_model::{Fault, TypeNum};
//! use ctf_symbols::SymbolMap;
//! use std::alloc::Global;
//!
//! /// The type of the first object of a name.
//! fn object_named(alloc: Global, judged: &Judged<'_>, name: &[u8]) -> Result<TypeNum, Fault> {
//!     let dictionary = judged.view();
//!     let map = SymbolMap::build(alloc, &dictionary)?;
//!     map.object(&dictionary, map.by_name(&dictionary, name)?)
//! }
//! ```
//!
//! Symbols are counted from 0. A map is built once and asked of the dictionary that it was built
//! of: it takes four bytes for each symbol, and at most 16 for each that has a name and for each
//! label. Refusals are NoSymbol, NotData, NotFunction, NoInfo and NoLabel, without a place.
#![tactic(auto)]

mod building;
mod by_name;
mod by_number;
mod items;
mod map;
mod named;
mod rows;
mod symbol_names;

pub use map::SymbolMap;
pub use named::NamedSymbol;
pub use symbol_names::symbol_name;
