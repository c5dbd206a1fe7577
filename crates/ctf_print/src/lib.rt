//! Values in the memory of a program, as text.
//!
//! ```rust
//! use ctf_layout::Layout;
//! use ctf_model::{Fault, TypeNum};
//! use ctf_print::show;
//! use ctf_space::Space;
//! use std::alloc::Global;
//!
//! /// What the first bytes of some memory show as a type.
//! fn shown(alloc: Global, space: &Space<'_>, t: TypeNum, image: &[u8]) -> Result<Vec<u8>, Fault> {
//!     let layout = Layout::build(alloc, space)?;
//!     let mut text = Vec::new(alloc);
//!     show(alloc, space, &layout, t, image, 0, &mut text)?;
//!     Ok(text)
//! }
//! ```
//!
//! The offset of a value is in bits, from the front of the memory, which is little-endian.
#![tactic(auto)]

mod enums;
mod image;
mod integers;
mod numbers;
mod pen;
mod places;
mod show_cache;
mod show_rules;
mod showing;
mod text;
mod value_form;
mod values;

pub use showing::show;
