//! The symbols of a program for which a dictionary can have types, and what it says of them.
//!
//! ```rust
//! use ctf_entries::{Considered, SymbolNames, type_in};
//! use ctf_model::TypeNum;
//!
//! /// The number of the first symbol that may have an entry: an object or a function with a name.
//! fn first_number(sym: &[u8], strs: Option<&[u8]>) -> Option<u32> {
//!     for considered in Considered::new(sym, SymbolNames::new(strs)) {
//!         return Some(considered.number);
//!     }
//!     None
//! }
//!
//! /// The type of the first object of the section of objects; none where it has no type.
//! fn first_type(objects: &[u8]) -> Option<TypeNum> {
//!     type_in(objects)
//! }
//! ```
//!
//! Symbols are counted from 0, all of the symbol table with them; an entry has 24 bytes. Nothing is
//! refused here: [`is_bad_entry`] says whether the entry of a function is bad, and `ctf_check`
//! refuses the dictionary then. No call takes memory.
#![tactic(auto)]

mod ahead;
mod considered;
mod entries;
mod function;
mod marks;
mod object;
mod signature;
mod symbol;
mod symbol_strings;
mod unread;

pub use ahead::read_ahead;
pub use considered::{Considered, Numbered};
pub use entries::{Entries, Entry, SymbolInfo};
pub use function::{behind_function, is_bad_entry, signature_of};
pub use object::{behind_object, type_in};
pub use signature::Signature;
pub use symbol::Symbol;
pub use symbol_strings::SymbolNames;
