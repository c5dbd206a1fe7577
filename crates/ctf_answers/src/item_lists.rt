//! The items of a list that an answer has.
ghost use Rattle.std.specs.Prelude.{◌≡◌, ◌<◌, ◌≤◌, length, take, Some, slice_get};
ghost use Rattle.ctf_protocol.specs.answers.Questions.{window_of};
ghost use Rattle.ctf_answers.specs.Items.{item_of, items_of};

use crate::items::{Item, Items};
use ctf_protocol::Window;
use std::marker::Model;

/// Some items of a list, beginning at one of them, as many as the answer has.
#[derive(Drop)]
pub struct ItemWindow<'a> {
    items: Items<'a>,
    from: usize,
    count: usize,
}

impl<'a> Model for ItemWindow<'a> {
    ghost use Rattle.std.specs.Prelude.{List, ◌+◌, ◌<◌, ◌≤◌, ◌^◌, length, take, drop};
    ghost use Rattle.ctf_protocol.specs.answers.Answers.{Item as SaidItem};
    ghost use Rattle.ctf_answers.specs.Items.{items_of};

    ghost Value = { List SaidItem };

    ghost view = { λ l. take l.count (drop l.from (items_of l.items)) };

    ghost invariant = { λ l. (l.from + l.count ≤ length (items_of l.items))
        × (l.from + l.count < 2 ^ 64) };
}

impl<'a> ItemWindow<'a> {
    /// The items in a window.
    pub fn new(items: Items<'a>, window: Window) -> ItemWindow<'a>
        ensures { result ≡ window_of window (items_of items.entry) }
    {
        let len = items.len();
        let from = len.min(window.from as usize);
        let count = match window.count {
            Some(count) => (len - from).min(count as usize),
            None => len - from,
        };
        ItemWindow { items, from, count }
    }

    /// The first items.
    pub fn front(items: Items<'a>, count: usize) -> ItemWindow<'a>
        requires { count ≤ length (items_of items) }
        ensures { result ≡ take count (items_of items.entry) }
    {
        ItemWindow {
            items,
            from: 0,
            count,
        }
    }

    pub fn len(&self) -> usize
        ensures { result ≡ length self.now }
    {
        self.count
    }

    /// The item with a number, from 0.
    #[inline(always)]
    pub fn get(&self, index: usize) -> Item<'a>
        requires { index < length self.now }
        ensures { Some (item_of result) ≡ slice_get self.now index }
    {
        self.items.get(self.from + index)
    }
}
