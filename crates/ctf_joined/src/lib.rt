//! Lists of texts in two allocations, however many texts there are.
//!
//! ```rust
//! use ctf_joined::Joined;
//! use std::alloc::{AllocError, Global};
//!
//! fn two(alloc: Global) -> Result<Joined, AllocError> {
//!     let mut names = Joined::new(alloc);
//!     names.push(b"first")?;
//!     names.push(b"second")?;
//!     Ok(names)
//! }
//! ```
#![tactic(auto)]

mod joined;

pub use joined::Joined;
