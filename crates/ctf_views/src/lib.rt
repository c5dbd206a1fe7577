//! The parts of a type, borrowed from the bytes of its record.
//!
//! ```rust
//! use ctf_model::TypeNum;
//! use ctf_views::{Member, Members};
//!
//! /// The first member of a type, among the members of a struct or union.
//! fn first_of<'a>(members: Members<'a>, number: TypeNum) -> Option<Member<'a>> {
//!     for member in members {
//!         if member.tnum == number {
//!             return Some(member);
//!         }
//!     }
//!     None
//! }
//! ```
//!
//! [`variant`] gives the parts of a record that breaks no rule of the format, so no call here is
//! refused. Offsets of members are in bits. Members, enumerators, arguments and labels are counted
//! from 0: `get` answers `None` behind the last.
#![tactic(auto)]

mod args;
mod enumerators;
mod labels;
mod members;
mod parts;
mod reading;
mod row;
mod rows;
mod variants;

pub use args::{Args, arguments, is_variadic};
pub use enumerators::{Enumerator, Enumerators};
pub use labels::{Label, Labels, read_labels};
pub use members::{Member, Members};
pub use parts::{ArrayInfo, Encoding};
pub use reading::variant;
pub use row::Row;
pub use rows::RowIter;
pub use variants::Variant;
