//! Finds the first type of a dictionary at which a chain of types begins that is too long.
//!
//! ```rust
//! use ctf_chains::{Chain, first_deep_type, record_starts};
//! use std::alloc::{AllocError, Global};
//!
//! /// Whether a value of some type holds others more than `LONGEST_CHAIN` deep. The section of
//! /// types has so many records, and breaks no rule of records.
//! fn is_deep(alloc: Global, types: &[u8], count: usize) -> Result<bool, AllocError> {
//!     let starts = record_starts(alloc, types, count)?;
//!     let found = first_deep_type(alloc, types, &starts, false, Chain::ByValue)?;
//!     Ok(found.is_some())
//! }
//! ```
//!
//! Types are counted from 0. The only refusal is that memory was refused: `record_starts` takes
//! four bytes for each record, and the search two while it runs. [`first_deep_counted`] does the
//! same and counts its work in [`Ticks`].
#![tactic(auto)]

mod chain;
mod entry;
mod first;
mod graph;
mod place;
mod search;
mod starts;
mod ticks;
mod types;

pub use chain::Chain;
pub use first::{first_deep_counted, first_deep_type};
pub use graph::Graph;
pub use place::{place_count, place_number, places};
pub use search::{LONGEST_CHAIN, first_deep};
pub use starts::{Starts, record_started, record_starts};
pub use ticks::Ticks;
pub use types::Types;
