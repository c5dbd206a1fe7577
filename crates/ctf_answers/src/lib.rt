//! The answers to a session: fields with single values and lists, borrowed from its dictionaries.
//!
//! ```rust
//! use ctf_answers::{Answer, Counts, Reply, Single};
//!
//! /// The reply that a type has so many bytes.
//! fn size_reply<'a>(session: u32, size: u64) -> Reply<'a> {
//!     Reply {
//!         session,
//!         outcome: Ok(Answer::one("size", Single::Number(size))),
//!     }
//! }
//!
//! /// What is said of a new slot with so many types.
//! fn opened<'a>(d: u32, types: u64) -> Answer<'a> {
//!     Counts::two("d", u64::from(d), "types", types).answer()
//! }
//! ```
//!
//! Keys and units are those of docs/PROTOCOL.md: sizes in bytes, offsets of members in bits. No
//! call takes memory or is refused; a refusal is the `Fault` of a [`Reply`].
#![tactic(auto)]

mod answers;
mod count;
mod counts;
mod fields;
mod fixed_words;
mod item_lists;
mod items;
mod replies;
mod singles;
mod type_fields;
mod values;

pub use answers::Answer;
pub use count::Count;
pub use counts::Counts;
pub use fields::{Field, Value};
pub use fixed_words::{class_name, tag_name};
pub use item_lists::ItemWindow;
pub use items::{Item, Items};
pub use replies::Reply;
pub use singles::{KeyedValue, Single};
pub use type_fields::{InfoAnswer, RecordAnswer};
