//! The export that gives many labels at once, and where their names are.
ghost use Rattle.std.specs.Prelude.{◌≡◌, Ok, Some, length};
ghost use Rattle.ctf_c.specs.Given.{ask};
ghost use Rattle.ctf_c.specs.ItemRows.{TellsLabel, own_lists_of};
ghost use Rattle.ctf_c.specs.Rowed.{GivesRows};
ghost use Rattle.ctf_c.specs.names.Filling.{Fills};
ghost use Rattle.ctf_model.specs.opened.Open.{own_in};

use crate::handle::Handle;
use crate::names::label_row;
use crate::out_pointers::dictionary_of;
use ctf_open::OpenDictionary;

/// A label: `struct ctfd_label_row`. Its name begins at an offset in one of the lists, and ends
/// with a zero byte.
#[repr(C)]
#[derive(Clone, Copy)]
pub struct GivenLabelRow {
    pub name_at: u64,
    pub name_list: u32,
    pub last: u32,
}

/// Fills rows with the labels from a number on, and returns how many there are.
fn labels_into(dictionary: &OpenDictionary, from: usize, rows: &mut [GivenLabelRow]) -> u64
    ensures count { result ≡ length (own_in dictionary.now).labels }
    ensures filled { Fills (TellsLabel (own_lists_of (Some dictionary.now)))
        (own_in dictionary.now).labels from rows.old rows.new }
{
    let own = dictionary.dictionary();
    let all = own.labels().len();
    let left = all.saturating_sub(from);
    let count = left.min(rows.len());
    for i in 0..count {
        rows[i] = label_row(&own, from + i);
    }
    all as u64
}

/// The labels from a number on, as many as there are rows, and how many there are in all.
#[unsafe(no_mangle)]
pub extern "C" fn ctfd_labels(
    handle: &mut Handle,
    from: usize,
    rows: &mut [GivenLabelRow],
    count: &mut u64,
) -> u32
    ensures same { handle.new.held.dictionary ≡ handle.old.held.dictionary }
    ensures answer { GivesRows (TellsLabel (own_lists_of handle.old.held.dictionary))
        (ask handle.old.held.dictionary (λ s. Ok (own_in s).labels)) from result
        rows.old rows.new count.old count.new }
{
    let dictionary = dictionary_of!(handle);
    *count = labels_into(dictionary, from, rows);
    0
}
