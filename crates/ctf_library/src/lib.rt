//! The library of one session: its slots, staged lists and publications, and the answers to its
//! requests.
//!
//! ```rust
//! use ctf_library::{Library, Pool};
//! use ctf_model::{DataModel, Fault, Piece};
//! use ctf_protocol::{Change, ListName, Question};
//! use std::alloc::Global;
//!
//! /// A library with the dictionary of this CTF section in slot 1.
//! fn opened(alloc: Global, ctf: Vec<u8>) -> Result<Library, Fault> {
//!     let mut library = Library::new(alloc);
//!     let mut pool = Pool::new(alloc);
//!     let part = Change::Part {
//!         section: ListName::Ctf,
//!         bytes: Piece::new(ctf),
//!     };
//!     library.step(&part, None, &mut pool)?;
//!     let open = Change::Open {
//!         model: DataModel::Lp64,
//!     };
//!     library.step(&open, None, &mut pool)?;
//!     Ok(library)
//! }
//! ```
//!
//! A refusal is a `Fault`, whose code and place docs/FAULTS.md lists; the library is then as
//! before. A change may be refused for memory (code 0) or because it is over the session's quota of
//! bytes, which docs/LIMITS.md has. `Library::answer` answers questions: it lends names and lists,
//! and takes memory for the words `name` and `show` alone.
#![tactic(auto)]

mod additions;
mod answering;
mod charges;
mod dictionary_answers;
mod drafting;
mod library;
mod name_keys;
mod places;
mod pool;
mod publication;
mod publication_map;
mod publications;
mod slot_answers;
mod slot_list;
mod slots;
mod stage;
mod staging;

pub use ctf_open::{DEFAULT_MODEL, Loaded};
pub use library::Library;
pub use pool::Pool;
