//! Records whose names all exist, so that they can be viewed.
ghost use Rattle.std.specs.Prelude.{◌≡◌, ◌≤◌, ℕ, IsSome, IsTrue, None, is_none};
ghost use Rattle.ctf_model.specs.format.Name.{name};
ghost use Rattle.ctf_model.specs.format.Spelling.{term_of};
ghost use Rattle.ctf_model.specs.rules.Faults.{first_nameless, item_sites};
ghost use Rattle.ctf_records.specs.RecordView.{bytes_of};
ghost use Rattle.ctf_sections.specs.StringsView.{tables};

use ctf_model::Kind;
use ctf_records::{Record, record_at};
use ctf_sections::Strings;
use ctf_sections::bytes::u32_at;
use ctf_views::{Variant, variant};

/// Whether a reference names nothing.
fn names_nothing(strings: Strings<'_>, reference: u32) -> bool
    ensures { result ≡ is_none (name (tables strings.entry) reference) }
{
    strings.name(reference).is_none()
}

/// Whether each of so many items begins with a reference that names something.
#[tactic(auto, unfolding(ctf_model::specs::rules::Faults::first_nameless, ctf_model::specs::rules::Faults::item_sites))]
fn are_named(list: &[u8], len: usize, count: usize, strings: Strings<'_>) -> bool
    requires { 4 ≤ len }
    ensures { (place : ℕ) → IsTrue result
        → first_nameless (tables strings.entry) (item_sites place len count list.now) ≡ None }
{
    if count == 0 {
        return true;
    }
    if list.len() < len {
        return false;
    }
    if names_nothing(strings, u32_at(list, 0)) {
        return false;
    }
    let (_, rest) = list.split_at(len);
    are_named(rest, len, count - 1, strings)
}

/// Whether a record's names all exist.
#[tactic(auto, using(crate::proofs::Named::spells))]
fn is_spelled(record: &Record<'_>, strings: Strings<'_>) -> bool
    ensures { IsTrue result → IsSome (term_of (tables strings.entry) (bytes_of «record».now)) }
{
    if names_nothing(strings, record.name_ref()) {
        return false;
    }
    match record.kind() {
        Kind::KStruct | Kind::KUnion => {
            are_named(record.rest(), record.member_len(), record.vlen(), strings)
        }
        Kind::KEnum => are_named(record.rest(), 8, record.vlen(), strings),
        _ => true,
    }
}

/// The view of the one record in some bytes, if its names all exist.
pub fn variant_of<'a>(types: &'a [u8], strings: Strings<'a>) -> Option<Variant<'a>> {
    let record = record_at(types, 0, 1)?;
    if record.bytes().len() < types.len() || !is_spelled(&record, strings) {
        return None;
    }
    Some(variant(&record, strings))
}
