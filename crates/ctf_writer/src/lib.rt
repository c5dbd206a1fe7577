//! What a draft holds as the bytes of a dictionary, and as its own dictionary.
//!
//! ```rust
//! use ctf_draft::Draft;
//! use ctf_model::Fault;
//! use ctf_writer::update;
//! use std::alloc::Global;
//!
//! /// Makes what is pending part of a draft's dictionary, and answers how many types that has.
//! fn updated_count(alloc: Global, draft: &mut Draft) -> Result<usize, Fault> {
//!     update(alloc, draft)?;
//!     match draft.dictionary() {
//!         Some(dictionary) => Ok(dictionary.view().count()),
//!         None => Ok(0),
//!     }
//! }
//! ```
//!
//! [`write`] gives the bytes alone: a section without symbols, little-endian and not compressed.
//! A draft is refused for a chain of types that is too long, for more bytes than a dictionary may
//! have (DictTooBig), or where memory is refused; it is then as before.
#![tactic(auto)]

mod before;
mod chains;
mod draft_view;
mod endings;
mod items;
mod labels;
mod laws;
mod numbers;
mod offsets;
mod records;
mod rewriting;
mod sizes;
mod strings;
mod updating;
mod used;
mod uses;
mod writing;

pub use laws::{adding_gives_strings, updates_write_the_same};
pub use rewriting::write_over;
pub use updating::update;
pub use writing::write;
