//! The check of a dictionary, and what a dictionary that passed it answers.
//!
//! ```rust
//! use ctf_check::{Judged, check};
//! use ctf_model::{DataModel, Fault, Parts};
//! use std::alloc::Global;
//!
//! /// Whether a CTF section, without symbols, breaks no rule of the format.
//! fn is_good(alloc: Global, ctf: &[u8]) -> bool {
//!     check(alloc, ctf, None, None).is_ok()
//! }
//!
//! /// How many types a dictionary has, or its first fault.
//! fn type_count(alloc: Global, parts: Parts) -> Result<usize, Fault> {
//!     match Judged::build(alloc, parts, DataModel::Lp64) {
//!         Ok(judged) => Ok(judged.view().count()),
//!         Err((fault, _parts)) => Err(fault),
//!     }
//! }
//! ```
//!
//! A fault's place counts what docs/FAULTS.md says for its code; code 0 says that memory was
//! refused. Own types are counted from 1 here; from `ctf_space` on, types go by their numbers.
#![tactic(auto)]

mod bad_names;
mod checked;
mod ends;
mod enough;
mod entries;
mod facts;
mod faultless;
mod holding;
mod judge;
mod judged;
mod judging;
mod labels;
mod lists;
mod needs;
mod references;
mod sections;
mod symbol_answers;
mod symbols;
mod typed;
mod walk_result;

pub use checked::Checked;
pub use facts::{Facts, Shape};
pub use judge::{Findings, check};
pub use judged::Judged;
pub use lists::{LentLists, lent_lists};
pub use symbol_answers::SymbolParts;
pub use typed::Typed;
