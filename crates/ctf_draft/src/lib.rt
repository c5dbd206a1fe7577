//! Drafts: dictionaries that types and labels are added to.
//!
//! ```rust
//! use ctf_draft::{AggregateKind, Draft, Name, NewBody, NewType, ReferenceKind};
//! use ctf_model::{Bytes, DataModel, Fault};
//! use std::alloc::Global;
//!
//! /// A draft with a struct of a name that has one member, `next`, a pointer to the struct itself.
//! fn list_node(alloc: Global, name: &[u8]) -> Result<Draft, Fault> {
//!     let none = Bytes::new(alloc);
//!     let mut draft = Draft::new(alloc, None, none, Bytes::new(alloc), DataModel::Lp64)?;
//!     let node = draft.add(NewType {
//!         name: Name::from_slice(alloc, name)?,
//!         root: true,
//!         body: NewBody::Aggregate(AggregateKind::Struct, 0),
//!     })?;
//!     let pointer = draft.add(NewType {
//!         name: Name::from_slice(alloc, b"")?,
//!         root: true,
//!         body: NewBody::Reference(ReferenceKind::Pointer, node),
//!     })?;
//!     draft.member(node, Name::from_slice(alloc, b"next")?, pointer, None)?;
//!     Ok(draft)
//! }
//! ```
//!
//! Sizes are in bytes, offsets of members in bits. A refused addition leaves the draft as it was;
//! its fault has the code and place that docs/FAULTS.md says. What was added is pending until
//! `ctf_writer` writes it: a later `Draft::discard` drops it.
#![tactic(auto)]

mod adding;
mod bodies;
mod depths;
mod draft;
mod figures;
mod items;
mod labels;
mod mark;
mod marks;
mod names;
mod names_in_use;
mod naming;
mod new_types;
mod parents;
mod placing;
mod plan;
mod pushing;
mod reach;
mod reaching;
mod sizing;
mod stating;
mod staying;
mod types;
mod widths;

pub use draft::Draft;
pub use labels::Labels;
pub use names::Name;
pub use new_types::{NewBody, NewType};
pub use types::{AggregateKind, Body, DraftType, Enumerator, Member, ReferenceKind, ScalarKind};
