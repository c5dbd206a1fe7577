//! The enumerators of an enum.
ghost use Rattle.std.specs.Prelude.{◌≡◌, ◌≤◌, ◌<◌, length, IsSome, Some, slice_get};
ghost use Rattle.std.specs.Option.{option_map};
ghost use Rattle.ctf_model.specs.format.Spelling.{enumerator_of};
ghost use Rattle.ctf_sections.specs.StringsView.{tables};
ghost use Rattle.ctf_views.specs.ItemsView.{enumerator};

use crate::row::Row;
use crate::rows::RowIter;
use ctf_sections::Strings;
use ctf_sections::bytes::u32_at;
use std::marker::Model;

/// An enumerator: a name for a value of an enum.
#[derive(Clone, Copy, Debug, PartialEq, Eq)]
pub struct Enumerator<'a> {
    pub name: &'a [u8],
    pub value: i32,
}

/// In contracts, an enumerator of the definitions. No value of this type is made.
pub struct SpelledEnumerator(i32);

impl Model for SpelledEnumerator {
    ghost use Rattle.std.specs.Prelude.{[]};
    ghost use Rattle.ctf_model.specs.format.Term.{Enumerator as Spelled};

    ghost Value = { Spelled };

    ghost view = { λ it. record { name = []; value = it.0 } };
}

/// How an enumerator is stored: the reference to its name, and its value.
#[derive(Clone, Copy)]
pub struct EnumeratorRow<'a> {
    pub(crate) strings: Strings<'a>,
}

impl<'a> EnumeratorRow<'a> {
    /// The value of the enumerator at the front of some bytes. No name is read.
    fn value(&self, bytes: &[u8]) -> i32
        requires inside { 8 ≤ length bytes.now }
        requires good { IsSome (enumerator_of (tables self.now.strings) bytes.now) }
        ensures { Some result
            ≡ option_map (λ e. e.value) (enumerator_of (tables self.now.strings) bytes.now) }
    {
        let _ = self;
        u32_at(bytes, 4).cast_signed()
    }
}

impl<'a> Row for EnumeratorRow<'a> {
    type Item = Enumerator<'a>;

    type Shown = SpelledEnumerator;

    ghost row_len = { λ row. 8 };

    ghost item_of = { λ row. enumerator_of (tables row.strings) };

    ghost seen = { enumerator };

    fn len(&self) -> usize {
        8
    }

    fn first(&self, bytes: &[u8]) -> Enumerator<'a> {
        Enumerator {
            name: self.strings.name(u32_at(bytes, 0)).unwrap(),
            value: u32_at(bytes, 4).cast_signed(),
        }
    }
}

/// The remaining enumerators of an enum.
pub type Enumerators<'a> = RowIter<'a, EnumeratorRow<'a>>;

impl<'a> RowIter<'a, EnumeratorRow<'a>> {
    /// The value of the enumerator with a number, from 0. No name is read.
    pub fn value(&self, index: usize) -> i32
        requires { index < length self.now }
        ensures { Some result ≡ option_map (λ e. e.value) (slice_get self.now index) }
    {
        let (row, bytes) = self.row_at(index);
        row.value(bytes)
    }
}
