//! Single values.

/// A single value.
#[derive(Clone, Copy)]
pub enum Single<'a> {
    Number(u64),
    Signed(i32),
    Truth(bool),
    /// A word of this service.
    Word(&'static str),
    /// Bytes that are written as text, with escapes.
    Text(&'a [u8]),
    /// Bytes that are written as hexadecimal digits.
    Bytes(&'a [u8]),
}

/// A value of an object, with its key.
#[derive(Clone, Copy)]
pub struct KeyedValue<'a> {
    pub key: &'static str,
    pub value: Single<'a>,
}
