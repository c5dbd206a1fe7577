//! The labels of a dictionary.
ghost use Rattle.std.specs.Prelude.{◌≡◌, ◌/◌, length, slice_get};
ghost use Rattle.std.specs.Option.{option_map};
ghost use Rattle.ctf_model.specs.format.Dictionary.{AreLabels, labels_in};
ghost use Rattle.ctf_sections.specs.StringsView.{tables};
ghost use Rattle.ctf_views.specs.ItemsView.{label};
ghost use Rattle.ctf_views.specs.LabelRows.{label_of};

use crate::row::Row;
use crate::rows::RowIter;
use ctf_sections::Strings;
use ctf_sections::bytes::u32_at;
use std::marker::Model;

/// A label: a mark on a dictionary, and the last type that it covers.
#[derive(Clone, Copy, Debug, PartialEq, Eq)]
pub struct Label<'a> {
    pub name: &'a [u8],
    pub last: u32,
}

/// In contracts, a label of the definitions. No value of this type is made.
pub struct SaidLabel(u32);

impl Model for SaidLabel {
    ghost use Rattle.std.specs.Prelude.{[]};
    ghost use Rattle.ctf_model.specs.format.Dictionary.{Label as LabelValue};

    ghost Value = { LabelValue };

    ghost view = { λ it. record { name = []; last = it.0 } };
}

/// How a label is stored: the reference to its name, and its last type.
#[derive(Clone, Copy)]
pub struct LabelRow<'a> {
    pub(crate) strings: Strings<'a>,
}

impl<'a> Row for LabelRow<'a> {
    type Item = Label<'a>;

    type Shown = SaidLabel;

    ghost row_len = { λ row. 8 };

    ghost item_of = { λ row. label_of (tables row.strings) };

    ghost seen = { label };

    fn len(&self) -> usize {
        8
    }

    fn first(&self, bytes: &[u8]) -> Label<'a> {
        Label {
            name: self.strings.name(u32_at(bytes, 0)).unwrap(),
            last: u32_at(bytes, 4),
        }
    }
}

/// The remaining labels of a dictionary.
pub type Labels<'a> = RowIter<'a, LabelRow<'a>>;

impl<'a> RowIter<'a, LabelRow<'a>> {
    /// The last type of the label with a number, from 0, if there is one. No name is read.
    #[tactic(auto, using(crate::proofs::Labelled::last_is, crate::proofs::Labelled::no_last))]
    pub fn last_at(&self, index: usize) -> Option<u32>
        ensures { result ≡ option_map (λ x. x.last) (slice_get self.now index) }
    {
        if index < self.len() {
            let (_, bytes) = self.row_at(index);
            Some(u32_at(bytes, 4))
        } else {
            None
        }
    }
}

/// The labels in some bytes, eight bytes each; fewer than eight bytes at the end are ignored.
pub fn read_labels<'a>(bytes: &'a [u8], strings: Strings<'a>) -> Labels<'a>
    requires { AreLabels (tables strings) bytes.now
        (labels_in (tables strings) (length bytes.now / 8) bytes.now) }
    ensures { result ≡ labels_in (tables strings.entry) (length bytes.now / 8) bytes.now }
{
    RowIter::new(bytes, bytes.len() / 8, LabelRow { strings })
}
