//! Names of types: how C spells them, and look-ups by name.
//!
//! ```rust
//! use ctf_model::Fault;
//! use ctf_names::{NameIndex, find, spell};
//! use ctf_space::Space;
//! use std::alloc::Global;
//!
//! /// How C spells the first type of a name, as `struct packet`.
//! fn spelled(alloc: Global, space: &Space<'_>, name: &[u8]) -> Result<Vec<u8>, Fault> {
//!     let index = NameIndex::build(alloc, space)?;
//!     let mut text = Vec::new(alloc);
//!     spell(alloc, space, find(space, &index, name)?, &mut text)?;
//!     Ok(text)
//! }
//! ```
//!
//! A spelled name has at most 65,536 bytes, else it is refused as TooLong.
#![tactic(auto)]

mod buckets;
mod chains;
mod filling;
mod finding;
mod index;
mod inside;
mod kept;
mod known;
mod marks;
mod measures;
mod name_lengths;
mod numbers;
mod pointers;
mod sides;
mod sorts;
mod sought;
mod spelling;
mod texts;
mod types;
mod unrolling;
mod written;

pub use finding::{find, pointer_resolved, pointer_to};
pub use index::NameIndex;
pub use known::KnownNames;
pub use spelling::spell;
