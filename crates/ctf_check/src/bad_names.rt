//! The rule of names: each reference to a name names something.
ghost use Rattle.std.specs.Prelude.{◌≡◌, ◌≤◌, ◌<◌, ◌+◌, ◌*◌, ◌^◌, length};
ghost use Rattle.ctf_model.specs.format.Header.{fields};
ghost use Rattle.ctf_model.specs.rules.Faults.{first_nameless, label_sites, item_sites, list_sites, record_sites, sites, types};
ghost use Rattle.ctf_model.specs.format.Record.{kind as kind_in};
ghost use Rattle.ctf_records.specs.RecordView.{bytes_of};
ghost use Rattle.ctf_check.specs.EndsView.{tables_in};
ghost use Rattle.ctf_check.specs.Stages.{header_sites, own_sites};

use crate::ends::NameEnds;
use ctf_model::{Kind, Section};
use ctf_records::Record;
use ctf_sections::Header;
use ctf_sections::bytes::u32_at;

/// The place in the dictionary of the first bad reference to a name in the header.
#[tactic(auto, unfolding(ctf_model::specs::rules::Faults::first_nameless))]
fn bad_in_header(header: Header, ends: NameEnds<'_>) -> Option<u64>
    ensures { result ≡ first_nameless (tables_in ends.entry) (header_sites header) }
{
    if ends.names_nothing(header.parlabel()) {
        Some(4)
    } else if ends.names_nothing(header.parname()) {
        Some(8)
    } else {
        None
    }
}

/// The place in the dictionary of the first bad reference to a name among `count` labels.
#[tactic(auto, using(crate::proofs::Sites::label_sites_next, crate::proofs::Sites::label_sites_end), unfolding(ctf_model::specs::rules::Faults::first_nameless))]
fn bad_in_labels(ctf: &[u8], start: usize, count: usize, ends: NameEnds<'_>) -> Option<u64>
    requires { start + 8 * count ≤ length ctf.now }
    ensures { result ≡ first_nameless (tables_in ends.entry) (label_sites ctf.now start count) }
{
    for i in 0..count {
        let at = start + 8 * i;
        if ends.names_nothing(u32_at(ctf, at)) {
            return Some(at as u64);
        }
    }
    None
}

/// The place in the dictionary of the first bad reference to a name among `count` items of a list
/// that begins at `start`.
#[tactic(auto, using(crate::proofs::Sites::item_sites_next, crate::proofs::Sites::item_sites_end), unfolding(ctf_model::specs::rules::Faults::first_nameless))]
#[inline(never)]
fn bad_in_items(
    list: &[u8],
    start: usize,
    len: usize,
    count: usize,
    ends: &NameEnds<'_>,
) -> Option<u64>
    requires named { 4 ≤ len × len ≤ 16 }
    requires room { len * count ≤ length list.now }
    requires near { start + length list.now < 2 ^ 64 }
    ensures { result ≡ first_nameless (tables_in ends.now) (item_sites start len count list.now) }
{
    for i in 0..count {
        let at = len * i;
        if ends.names_nothing(u32_at(list, at)) {
            return Some((start + at) as u64);
        }
    }
    None
}

/// The place in the dictionary of the first bad reference to a name in the list of a record that
/// begins at `start`.
#[tactic(auto, unfolding(ctf_model::specs::rules::Faults::first_nameless))]
fn bad_in_list(term: &Record<'_>, start: usize, ends: &NameEnds<'_>) -> Option<u64>
    requires near { start + length (bytes_of term.now) < 2 ^ 64 }
    ensures { result ≡ first_nameless (tables_in ends.now)
        (list_sites start (bytes_of term.now) (kind_in (bytes_of term.now))) }
{
    let rest = term.rest();
    let behind = start + (term.bytes().len() - rest.len());
    match term.kind() {
        Kind::KStruct | Kind::KUnion => {
            bad_in_items(rest, behind, term.member_len(), term.vlen(), ends)
        }
        Kind::KEnum => bad_in_items(rest, behind, 8, term.vlen(), ends),
        _ => None,
    }
}

/// The place in the dictionary of the first bad reference to a name in a record that begins at
/// `start`.
#[tactic(auto, unfolding(ctf_model::specs::rules::Faults::first_nameless))]
pub fn bad_in_record(term: &Record<'_>, start: usize, ends: &NameEnds<'_>) -> Option<u64>
    requires near { start + length (bytes_of term.now) < 2 ^ 64 }
    ensures { result ≡ first_nameless (tables_in ends.now) (own_sites start (bytes_of term.now)) }
{
    if ends.names_nothing(term.name_ref()) {
        return Some(start as u64);
    }
    bad_in_list(term, start, ends)
}

/// The place of the first bad reference to a name in a dictionary, given the first one in its
/// records.
pub fn bad_name(
    ctf: &[u8],
    header: Header,
    ends: NameEnds<'_>,
    in_records: Option<u64>,
) -> Option<u64>
    requires fields { header ≡ fields ctf.now }
    requires inside { 36 + header.stroff + header.strlen ≤ length ctf.now }
    requires in_records { in_records ≡ first_nameless (tables_in ends)
        (record_sites (36 + (fields ctf.now).typeoff) (types ctf.now)) }
    ensures { result ≡ first_nameless (tables_in ends.entry) (sites ctf.now) }
{
    if let Some(place) = bad_in_header(header, ends) {
        return Some(place);
    }
    let (start, end) = header.range(Section::SLabels);
    if let Some(place) = bad_in_labels(ctf, start, (end - start) / 8, ends) {
        return Some(place);
    }
    in_records
}
