//! Names of a dictionary or a program, sorted, and look-ups of them by binary search.
//!
//! ```rust
//! use ctf_order::{NamedItem, Order, Texts};
//! use std::alloc::{AllocError, Global};
//!
//! /// The number of a name, where two names with numbers 0 and 1 stand at offsets of a table.
//! fn number_of(
//!     alloc: Global,
//!     table: &[u8],
//!     offsets: (u32, u32),
//!     name: &[u8],
//! ) -> Result<Option<u32>, AllocError> {
//!     let texts = Texts::Program(table);
//!     let mut items = Vec::new(alloc);
//!     items.push(NamedItem {
//!         reference: offsets.0,
//!         item: 0,
//!     })?;
//!     items.push(NamedItem {
//!         reference: offsets.1,
//!         item: 1,
//!     })?;
//!     let order = Order::build(alloc, &texts, items)?;
//!     Ok(order.find(&texts, name))
//! }
//! ```
//!
//! Give `find` the texts that the order was built over. An order takes 16 bytes for each item; a
//! look-up takes none, and answers `None` where no item has the name.
#![tactic(auto)]

mod ahead;
mod comparing;
mod entries;
mod lending;
mod order;
mod texts;

pub use comparing::hash;
pub use entries::NamedItem;
pub use order::Order;
pub use texts::Texts;
