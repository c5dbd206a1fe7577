//! The fields of an answer.

use crate::item_lists::ItemWindow;
use crate::singles::Single;

/// The value of a field, borrowed from its answer.
#[derive(Clone, Copy)]
pub enum Value<'a, 'b> {
    One(Single<'a>),
    Many(&'b ItemWindow<'a>),
    /// A text that was made for the answer, which owns it.
    Made(&'b [u8]),
}

/// A key and its value.
#[derive(Clone, Copy)]
pub struct Field<'a, 'b> {
    pub key: &'static str,
    pub value: Value<'a, 'b>,
}
