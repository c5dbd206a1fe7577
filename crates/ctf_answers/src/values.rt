//! The values of an answer, by what it is about.

use crate::item_lists::ItemWindow;
use crate::singles::KeyedValue;
use crate::type_fields::{InfoAnswer, RecordAnswer};
use ctf_protocol::Bytes;

/// The content of an answer. A field is made when it is asked for.
#[derive(Drop)]
pub enum AnswerContent<'a> {
    Done,
    One(KeyedValue<'a>),
    Two(KeyedValue<'a>, KeyedValue<'a>),
    Three(KeyedValue<'a>, KeyedValue<'a>, KeyedValue<'a>),
    /// Some items of a list, and how many the whole list has.
    Window {
        key: &'static str,
        items: ItemWindow<'a>,
        total: u64,
    },
    /// What a function takes and returns.
    Signature {
        args: ItemWindow<'a>,
        ret: u64,
        varargs: bool,
    },
    Record(RecordAnswer<'a>),
    Info(InfoAnswer<'a>),
    /// A text that was made for the answer, which owns it.
    Made {
        key: &'static str,
        text: Bytes,
    },
}
