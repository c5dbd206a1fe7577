//! The parts of `ctfd` that have contracts: the words of the command line, the files that they
//! name, and how the program ends. It re-exports what the program calls in the crates below.
//!
//! ```rust
//! use ctf_command::{FromReader, ToWriter, end, serve_lines, start};
//! use std::io;
//!
//! /// Publishes the files of words such as `own=types.ctf`, serves standard input, and answers the
//! /// exit status.
//! fn run(rt: &HostRuntime, words: &[&str]) -> u8 {
//!     match start(rt.alloc(), rt, words) {
//!         Ok(mut broker) => {
//!             let mut source = FromReader::new(rt.reader());
//!             let mut sink = ToWriter::new(io::writer(rt));
//!             end(
//!                 rt,
//!                 serve_lines(rt.alloc(), &mut broker, &mut source, &mut sink),
//!             )
//!         }
//!         Err(why) => why.status(),
//!     }
//! }
//! ```
//!
//! A file has at most 67,108,864 bytes. Statuses are 0 where all was done, 1 where a file was
//! refused, 2 where the words are wrong, 3 where a read or a write failed, 4 where memory was
//! refused.
#![tactic(auto)]

mod files;
mod publications;
mod publishing;
mod serving;
mod starts;
mod status;

pub use ctf_dump::{DumpEnd, InputFile, Inputs, dump_lists};
pub use ctf_model::{Bytes, DataModel};
pub use ctf_protocol::model_named;
pub use ctf_wire::{Broker, FromReader, RunFault, ToWriter};
pub use files::{FileReader, read_file};
pub use publications::{Wanted, all_wanted};
pub use publishing::start;
pub use serving::serve_lines;
pub use starts::NotStarted;
pub use status::{MISUSED, end, usage_status};
