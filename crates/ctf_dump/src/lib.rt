//! Dictionaries as text, for people: line by line, into any writer.
//!
//! ```rust
//! use ctf_dump::{InputFile, Inputs, dump_lists};
//! use ctf_model::{Bytes, DataModel};
//! use std::alloc::Global;
//!
//! /// Writes the dump of a CTF section to `out`, or a line that says why not to `err`.
//! fn dump_section(alloc: Global, ctf: Vec<u8>, out: &mut Vec<u8>, err: &mut Vec<u8>) -> u8 {
//!     let inputs = Inputs {
//!         ctf: InputFile {
//!             name: "types.ctf",
//!             bytes: Bytes::from(ctf),
//!         },
//!         parent: None,
//!         sym: None,
//!         str: None,
//!         model: DataModel::Lp64,
//!     };
//!     dump_lists(alloc, inputs, out, err)
//! }
//! ```
//!
//! The result is an exit status: 0 if all was written, 1 if a file was refused, 3 if a write
//! failed, 4 if memory was refused. With 1 nothing was written to `out`; with 3 and 4 the text
//! breaks off. [`dump`] writes a dictionary that was checked already. Sizes in the text are in
//! bytes, offsets in bits: docs/DUMP.md has its form.
#![tactic(auto)]

mod dumping;
mod ends;
mod heads;
mod inputs;
mod line;
mod lists;
mod types;

pub use dumping::dump;
pub use ends::DumpEnd;
pub use inputs::{InputFile, Inputs};
pub use line::DumpFault;
pub use lists::dump_lists;
