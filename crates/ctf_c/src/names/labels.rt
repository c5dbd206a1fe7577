//! Where the names of labels are.
ghost use Rattle.std.specs.Prelude.{◌≡◌, ◌<◌, ◌≤◌, ◌*◌, length, drop, slice_get, IfSome, Some};
ghost use Rattle.ctf_check.specs.CheckedView.{dictionary_of, lists_of};
ghost use Rattle.ctf_c.specs.ItemRows.{TellsLabel};

use crate::label_rows::GivenLabelRow;
use crate::names::places::name_position;
use ctf_check::Checked;
use ctf_sections::bytes::u32_at;

/// The bytes at which a label begins, counted from 0.
fn label_at(labels: &[u8], index: usize) -> &[u8]
    requires { 8 * index ≤ length labels.now }
    ensures { result.now ≡ drop (8 * index) labels.now }
{
    &labels[8 * index..]
}

/// The row of a label, counted from 0.
pub fn label_row(dictionary: &Checked<'_>, index: usize) -> GivenLabelRow
    requires { index < length (dictionary_of dictionary.now).labels }
    ensures { IfSome (slice_get (dictionary_of dictionary.now).labels index)
        (λ x. TellsLabel (Some (lists_of dictionary.now)) x result) }
{
    let bytes = label_at(dictionary.label_bytes(), index);
    let place = name_position(dictionary, u32_at(bytes, 0));
    GivenLabelRow {
        name_at: place.at,
        name_list: place.list,
        last: u32_at(bytes, 4),
    }
}
