//! Sizes, alignments and paths: what types come to once typedefs, arrays and members are followed.
//!
//! ```rust
//! use ctf_layout::Layout;
//! use ctf_model::{Fault, TypeNum};
//! use ctf_space::Space;
//! use std::alloc::Global;
//!
//! /// The size and the alignment of a type, in bytes.
//! fn figures(alloc: Global, space: &Space<'_>, number: TypeNum) -> Result<(u64, u64), Fault> {
//!     let layout = Layout::build(alloc, space)?;
//!     Ok((layout.size(number)?, layout.align(number)?))
//! }
//! ```
//!
//! The table is made once for a dictionary: 8 bytes for most types, 24 for each at most. Offsets
//! along a path are in bits.
#![tactic(auto)]

mod amounts;
mod bases;
mod entry;
mod extents;
mod figures;
mod filling;
mod kept;
mod layout;
mod path_names;
mod paths;
mod rows;
mod small_extent;
mod source;
mod types;

pub use extents::{Amount, Extent, Refusal, Target, refused};
pub use figures::{reference, referred, resolve};
pub use layout::Layout;
pub use path_names::PathNames;
pub use paths::path;
pub use rows::work_is_counted;
