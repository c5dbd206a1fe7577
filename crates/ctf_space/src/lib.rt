//! Dictionaries over their imported parents.
//!
//! ```rust
//! use ctf_check::Judged;
//! use ctf_model::{DataModel, Fault, TypeNum};
//! use ctf_space::Space;
//!
//! /// How many bytes the name of a type of a child has. Low numbers name types of the parent.
//! fn name_len(child: &Judged<'_>, parent: &Judged<'_>, number: TypeNum) -> Result<usize, Fault> {
//!     let model = DataModel::Lp64;
//!     let space = Space::over(child.view(), model, parent.view(), model)?;
//!     Ok(space.name(number)?.len())
//! }
//! ```
//!
//! `Space::own` is for a dictionary without a parent. An import is refused as NotChild,
//! ParentIsChild, ModelDiffers or ParentShort, in this order, and a number as NoType or NoParent.
//! No call takes memory.
#![tactic(auto)]

mod space;

pub use space::Space;
