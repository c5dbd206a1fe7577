//! The libraries of all sessions, and how a dictionary that one of them published comes to others.
//!
//! A [`Broker`] answers requests that are read already; `ctf_wire` runs one over lines of text. The
//! operator's session is 0, which makes no requests: what it publishes, every session may take.
//!
//! ```rust
//! use ctf_broker::Broker;
//! use ctf_protocol::{Fault, PublicationName};
//! use std::alloc::Global;
//!
//! /// A broker that has published a CTF section under a name.
//! fn publishing(alloc: Global, name: &PublicationName, ctf: Vec<u8>) -> Result<Broker, Fault> {
//!     let mut broker = Broker::new(alloc);
//!     broker.load_section(name, ctf)?;
//!     Ok(broker)
//! }
//! ```
//!
//! A refusal is a `Fault`: its code says which, and its place counts what docs/FAULTS.md says for
//! that code. After a refusal everything is as before.
#![tactic(auto)]

mod broker;
mod libraries;
mod page;
mod session_library;

pub use broker::Broker;
pub use ctf_library::{Library, Loaded, Pool};
