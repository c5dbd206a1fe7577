//! Which types of its parent a child names.
ghost use Rattle.std.specs.Prelude.{◌≡◌, max, ◌∷◌};
ghost use Rattle.ctf_model.specs.rules.Needs.{greatest_in_parent, number_in_parent};
ghost use Rattle.ctf_model.specs.format.Section.{records};
ghost use Rattle.ctf_records.specs.ListedTypes.{listed_types};
ghost use Rattle.ctf_records.specs.RecordView.{bytes_of};
ghost use Rattle.ctf_model.specs.symbols.Entries.{types_named};
ghost use Rattle.ctf_entries.specs.EntriesView.{info_in};
ghost use Rattle.ctf_entries.specs.FunctionView.{signature};
ghost use Rattle.ctf_check.specs.Needed.{entries_need as entries_need_in, record_needs as record_needs_in, records_need as records_need_in};

use ctf_entries::{Entries, Signature, SymbolInfo};
use ctf_model::{Place, TypeNum};
use ctf_records::{Record, Records};
use ctf_views::Args;

pub fn greater(a: u16, b: u16) -> u16
    ensures { result ≡ max a b }
{
    if a < b { b } else { a }
}

/// The number that a type has in the parent, if it is one of the parent's.
fn in_parent(number: TypeNum) -> u16
    ensures { result ≡ number_in_parent number.0 }
{
    match number.place(true) {
        Place::Parents(_) => number.0,
        _ => 0,
    }
}

/// The greatest number of a parent's type that a record names after its head.
#[tactic(auto, using(crate::proofs::Listed::greatest_next, crate::proofs::Listed::greatest_end))]
fn listed_needs(term: &Record<'_>) -> u16
    ensures { result ≡ greatest_in_parent (listed_types (bytes_of term.now)) }
{
    let listed = term.reference_list();
    let mut greatest = 0;
    for item in 0..listed.count() {
        greatest = greater(greatest, in_parent(listed.get(item)));
    }
    greatest
}

/// The greatest number of a parent's type that a record names.
#[tactic(auto, unfolding(crate::specs::Needed::record_needs, ctf_model::specs::rules::Needs::greatest_in_parent))]
fn record_needs(term: &Record<'_>) -> u16
    ensures { result ≡ record_needs_in (bytes_of term.now) }
{
    match term.reference() {
        Some(number) => greater(in_parent(number), listed_needs(term)),
        None => listed_needs(term),
    }
}

/// The greatest number of a parent's type that the records of a section name.
#[tactic(auto, unfolding(crate::specs::Needed::records_need))]
pub fn records_need(types: &[u8]) -> u16
    ensures { result ≡ records_need_in (records types.now) }
{
    let mut greatest = 0;
    for record in Records::new(types) {
        let Ok(record) = record else { return greatest };
        greatest = greater(greatest, record_needs(&record));
    }
    greatest
}

/// The greatest number of a parent's type among arguments.
#[tactic(auto, unfolding(ctf_model::specs::rules::Needs::greatest_in_parent))]
fn args_need(args: Args<'_>) -> u16
    ensures { result ≡ greatest_in_parent args.entry }
{
    let mut greatest = 0;
    for number in args {
        greatest = greater(greatest, in_parent(number));
    }
    greatest
}

/// The greatest number of a parent's type that a signature names.
#[tactic(auto, unfolding(ctf_model::specs::rules::Needs::greatest_in_parent))]
fn signature_needs(info: Signature<'_>) -> u16
    ensures { result ≡ greatest_in_parent
        ((signature info.entry).ret ∷ (signature info.entry).args) }
{
    greater(in_parent(info.ret), args_need(info.args))
}

/// The greatest number of a parent's type in what a dictionary says of a symbol.
#[tactic(auto, unfolding(ctf_model::specs::rules::Needs::greatest_in_parent))]
fn info_needs(info: SymbolInfo<'_>) -> u16
    ensures { result ≡ greatest_in_parent (types_named (info_in info.entry)) }
{
    match info {
        SymbolInfo::Object(Some(number)) => in_parent(number),
        SymbolInfo::Function(Some(signature)) => signature_needs(signature),
        _ => 0,
    }
}

/// The greatest number of a parent's type in what a dictionary says of symbols.
#[tactic(auto, unfolding(crate::specs::Needed::entries_need))]
pub fn entries_need(entries: Entries<'_>) -> u16
    ensures { result ≡ entries_need_in entries.entry }
{
    let mut greatest = 0;
    for entry in entries {
        greatest = greater(greatest, info_needs(entry.info));
    }
    greatest
}
