//! Lines of text: requests are read from them, and replies are written as them.
//!
//! ```rust
//! use ctf_lines::{FromLine, Scratch};
//! use ctf_protocol::{Fault, Request};
//! use std::alloc::Global;
//!
//! /// The session of a line, whether it is granted or refused; 0 where it names none.
//! fn session_of(alloc: Global, scratch: &mut Scratch, line: &[u8]) -> u32 {
//!     match Request::read(alloc, scratch, line) {
//!         Ok((session, _request)) => session,
//!         Err((session, _fault)) => session,
//!     }
//! }
//! ```
//!
//! A line is given without its newline, and has at most [`LONGEST_LINE`] bytes. Keep one `Scratch`
//! from line to line.
#![tactic(auto)]

mod additions;
mod appending;
mod changes;
mod digits;
mod drafts;
mod escapes;
mod field_values;
mod fields;
mod info_fields;
mod items;
mod line_buffers;
mod line_traits;
mod measures;
mod models;
mod no_memory;
mod questions;
mod reading;
mod refusals;
mod room;
mod series;
mod singles;
mod spelling;
mod text_sinks;
mod texts;
mod words;
mod writing;

/// Memory that is kept from line to line.
pub use ctf_json::Scratch;
pub use line_traits::{FromLine, ToLine};
pub use no_memory::memory_line;
pub use reading::{LONGEST_LINE, read_as};
pub use writing::{SHORT_LINE, SHORT_PASS, write_change};
