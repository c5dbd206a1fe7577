//! The JSON of one line, borrowed from the line and from memory that is kept from line to line.
//!
//! ```rust
//! use ctf_json::{Line, NotRead, Scratch, as_u64, get, read_line};
//! use std::alloc::Global;
//!
//! /// The number at the key `t` of a line; none where it has no such number.
//! fn type_at(alloc: Global, scratch: &mut Scratch, text: &str) -> Result<Option<u64>, NotRead> {
//!     let mut line = Line::new();
//!     read_line(alloc, text, scratch, &mut line)?;
//!     match get(&line, "t") {
//!         Some(value) => Ok(as_u64(&value)),
//!         None => Ok(None),
//!     }
//! }
//! ```
//!
//! A line is kept at the keys of [`KEYS`] alone. What is accepted is what serde_json accepts, with
//! arrays and objects up to 127 deep; of a repeated key the last value counts. [`NotRead`] says
//! that the text is no JSON, or that memory was refused.
#![tactic(auto)]

mod keeping;
mod keys;
mod line;
mod lists;
mod looking;
mod numbers;
mod passing;
mod plain_lexer;
mod plain_reader;
mod readers;
mod reading;
mod runs;
mod scratch;
mod values;
mod wanted;
mod words;

pub use keys::KEYS;
pub use line::{Fields, Line};
pub use looking::{as_bool, as_i64, as_str, as_u64, get, take_args, take_names};
pub use numbers::number;
pub use reading::{NotRead, read_line};
pub use scratch::Scratch;
pub use values::{Field, Read, Value};
pub use wanted::Wanted;
