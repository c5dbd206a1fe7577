//! Members and enumerators by their names: which one a name finds, and where each name is.

mod asking;
mod filling;
mod labels;
mod members;
mod name_search;
mod named_rows;
mod places;
mod symbols;
mod type_home;
mod visiting;

pub use asking::{with_name, with_value};
pub use filling::{enumerators_into, members_into};
pub use labels::label_row;
pub use places::{NOWHERE, NamePosition, name_position};
pub use symbols::{names_end, symbol_position};
pub use type_home::held_type;
pub use visiting::{put, stands_for, visit_inside};
