//! How C holds a value on the heap: a pointer to it, or nothing.

ghost use Rattle.std.specs.Prelude.{◌≡◌, IfOk};

mod nullable_box;
mod option_box;

pub use nullable_box::NullableBox;
pub use option_box::OptionBox;
use std::alloc::{AllocError, Global};

/// Puts a value on the heap.
pub fn to_box<T>(alloc: Global, value: T) -> Result<Box<T>, AllocError>
where
    T: Drop,
    ensures { IfOk result (λ b. b.value ≡ value) }
{
    Ok(Box::new(alloc, value)?)
}
