//! The header and the name tables of a dictionary, read from its bytes.
//!
//! ```rust
//! use ctf_model::{Fault, Section};
//! use ctf_sections::Header;
//!
//! /// The bytes of the section of types.
//! fn types_of(ctf: &[u8]) -> Result<&[u8], Fault> {
//!     let (from, to) = Header::read(ctf)?.range(Section::STypes);
//!     Ok(&ctf[from..to])
//! }
//! ```
//!
//! Places and lengths are in bytes, from the front of the dictionary. A reference to a name has 31
//! bits of offset, and bit 31 picks the table.
#![tactic(auto)]

mod alike;
pub mod bytes;
mod differences;
mod ends;
mod header;
mod matching;
mod strings;

pub use differences::{Differences, Places};
pub use ends::{end_of_names, up_to_zero};
pub use header::Header;
pub use matching::{is_text, is_text_after};
pub use strings::{Strings, short_text, text};
