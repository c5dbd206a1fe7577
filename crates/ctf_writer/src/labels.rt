//! The labels of a draft, as they are written.
ghost use Rattle.std.specs.Prelude.{◌≡◌, ℕ, ◌*◌, ◌+◌, ◌<◌, ◌≤◌, ◌++◌, length, slice_index_or, vec_len, vec_capacity};
ghost use Rattle.std.specs.List.{flat_map, All};
ghost use Rattle.ctf_model.specs.writing.Written.{label_bytes};
ghost use Rattle.ctf_model.specs.writing.WritingLaws.{IsKept};
ghost use Rattle.ctf_writer.specs.Tables.{names, used};
ghost use Rattle.ctf_writer.specs.DraftContentView.{no_label};

use crate::numbers::put_u32;
use crate::strings::Strings;
use ctf_draft::Labels;

/// A label: its name, and the last type that it covers.
fn label_at(labels: &Labels, i: usize) -> (&[u8], u32)
    requires { i < length labels.now }
    ensures { record { name = result.0.now; last = result.1 }
        ≡ slice_index_or labels.now i no_label }
{
    match labels.get(i) {
        Some(label) => label,
        None => (&[], 0),
    }
}

/// The name of a label.
pub(crate) fn label_name(labels: &Labels, i: usize) -> &[u8]
    requires { i < length labels.now }
    ensures { result.now ≡ (slice_index_or labels.now i no_label).name }
{
    label_at(labels, i).0
}

fn put_label(out: &mut Vec<u8>, strings: &Strings<'_>, name: &[u8], last: u32)
    requires room { vec_len out.old + 8 ≤ vec_capacity out.old }
    requires kept { IsKept (used strings.now) name.now }
    ensures items { out.new.items ≡ out.old.items
        ++ label_bytes (names strings.now) (record { name = name.now; last = last }) }
    ensures len { vec_len out.new ≡ vec_len out.old + 8 }
    ensures capacity { vec_capacity out.new ≡ vec_capacity out.old }
{
    put_u32(out, strings.reference(name));
    put_u32(out, last);
}

/// Appends labels.
pub(crate) fn put_labels(out: &mut Vec<u8>, strings: &Strings<'_>, labels: &Labels)
    requires room { vec_len out.old
        + length (flat_map (label_bytes (names strings.now)) labels.now) ≤ vec_capacity out.old }
    requires kept { All (λ l. IsKept (used strings.now) l.name) labels.now }
    ensures items { out.new.items
        ≡ out.old.items ++ flat_map (label_bytes (names strings.now)) labels.now }
    ensures len { vec_len out.new ≡ vec_len out.old
        + length (flat_map (label_bytes (names strings.now)) labels.now) }
    ensures capacity { vec_capacity out.new ≡ vec_capacity out.old }
{
    for i in 0..labels.len() {
        let (name, last) = label_at(labels, i);
        put_label(out, strings, name, last);
    }
}
