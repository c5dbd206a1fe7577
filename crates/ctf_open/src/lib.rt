//! An open dictionary, with its parent and its draft if it has them, and the tables over these:
//! what it answers, and the steps of its draft.
//!
//! ```rust
//! use ctf_draft::{AggregateKind, NewBody, ReferenceKind};
//! use ctf_model::{Bytes, DataModel, Fault, Parts};
//! use ctf_open::{Loaded, OpenDictionary, Part};
//! use std::alloc::Global;
//!
//! /// How many bytes the first type of a name has, as `struct packet`.
//! fn size_of(alloc: Global, ctf: Vec<u8>, name: &[u8]) -> Result<u64, Fault> {
//!     let parts = Parts {
//!         ctf: Bytes::from(ctf),
//!         sym: None,
//!         strs: None,
//!     };
//!     match Loaded::build(alloc, parts, DataModel::Lp64) {
//!         Ok(loaded) => {
//!             let opened = OpenDictionary::of(loaded);
//!             opened.size(opened.find(name)?)
//!         }
//!         Err((fault, _parts)) => Err(fault),
//!     }
//! }
//!
//! /// A new dictionary with a struct that has a pointer to itself, and how many types it has then.
//! fn made(alloc: Global) -> Result<(OpenDictionary, u64), Fault> {
//!     let mut draft = OpenDictionary::create(alloc, None, &[], &[], DataModel::Lp64)?;
//!     let body = NewBody::Aggregate(AggregateKind::Struct, 0);
//!     let packet = draft.add(alloc, b"packet", true, body)?;
//!     let next = draft.add(
//!         alloc,
//!         b"",
//!         true,
//!         NewBody::Reference(ReferenceKind::Pointer, packet),
//!     )?;
//!     draft.add_part(alloc, Part::Member(packet, b"next", next, None))?;
//!     let types = draft.update(alloc)?;
//!     Ok((draft, types))
//! }
//! ```
//!
//! Sizes and alignments are in bytes, offsets of members in bits. A [`Loaded`] is judged once and
//! then shared. A refusal is a `Fault`; after it the dictionary is as before. Questions take no
//! memory but for `name` and `show`, which make a text.
#![tactic(auto)]

mod adding;
mod bytes;
mod drafting;
mod empty_dictionaries;
mod imports;
mod loading;
mod open_dictionary;
mod programs;
mod questions;
mod rooms;
mod same;
mod tables;

pub use adding::Part;
pub use bytes::owned_bytes;
pub use empty_dictionaries::EmptyDictionaries;
pub use imports::Imported;
pub use loading::{DEFAULT_MODEL, Loaded};
pub use open_dictionary::{OpenDictionary, parts_of};
pub use programs::named_count;
pub use questions::{array_of, encoding_of, signature_of};
pub use rooms::Room;
pub use tables::Tables;
