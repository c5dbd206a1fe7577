//! Type records of all kinds, read in place from a section.
//!
//! ```rust
//! use ctf_model::{Fault, Kind};
//! use ctf_records::Records;
//!
//! /// How many structs a section of types has, or the first fault of its records.
//! fn struct_count(types: &[u8]) -> Result<usize, Fault> {
//!     let mut count: usize = 0;
//!     for record in Records::new(types) {
//!         if record?.kind() == Kind::KStruct {
//!             count = count.saturating_add(1);
//!         }
//!     }
//!     Ok(count)
//! }
//! ```
//!
//! Records are numbered from 1, and their sizes and places are in bytes from the front of the
//! section. If no record begins at the rest of a section, the fault is BadKind or Truncated, and
//! its place is the number that the record would have. Nothing is copied and no memory is taken.
#![tactic(auto)]

mod cursor;
mod front;
mod numbers;
mod place;
mod record;
mod reference_list;
mod tag;

pub use cursor::{Records, record_numbered};
pub use numbers::ReferenceList;
pub use place::{record_at, record_of_len};
pub use record::Record;
pub use reference_list::{WIDE_MEMBERS, member_len};
pub use tag::Tag;
