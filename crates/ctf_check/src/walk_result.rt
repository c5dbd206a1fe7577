//! What one walk through the records finds.
ghost use Rattle.std.specs.Prelude.{◌≡◌, ◌≤◌, ◌<◌, ◌+◌, ◌^◌, length, IfOk, IfErr, OnOk, Some, None};
ghost use Rattle.std.specs.Option.{option_or};
ghost use Rattle.ctf_model.specs.rules.Faults.{first_nameless, record_sites};
ghost use Rattle.ctf_model.specs.format.Section.{records};
ghost use Rattle.ctf_records.specs.RecordView.{bytes_of};
ghost use Rattle.ctf_check.specs.EndsView.{tables_in};
ghost use Rattle.ctf_check.specs.Enough.{records_enough};
ghost use Rattle.ctf_check.specs.Stages.{own_sites, records_fault};

use crate::bad_names::bad_in_record;
use crate::ends::NameEnds;
use crate::enough::{enough_for_record, more};
use ctf_model::Fault;
use ctf_records::{Record, Records};

/// What a walk finds in all records.
#[derive(Clone, Copy)]
pub struct Walked {
    /// The number of records.
    pub count: usize,
    /// The place in the dictionary of the first bad reference to a name.
    pub bad_name: Option<u64>,
    /// So many types are enough: then no record names a missing type.
    pub enough: usize,
}

/// The place that was found before; else that of the first bad reference to a name in a record.
fn or_in_record(
    found: Option<u64>,
    term: &Record<'_>,
    start: usize,
    ends: &NameEnds<'_>,
) -> Option<u64>
    requires near { start + length (bytes_of term.now) < 2 ^ 64 }
    ensures { result ≡ option_or found
        (first_nameless (tables_in ends.now) (own_sites start (bytes_of term.now))) }
{
    match found {
        Some(place) => Some(place),
        None => bad_in_record(term, start, ends),
    }
}

/// Walks through the records of a section that begins at `start`. Reads each name reference, member
/// and argument once.
#[tactic(auto, using(crate::proofs::Reading::walk_len, crate::proofs::Served::next_name, crate::proofs::Served::no_name_left), unfolding(crate::specs::Enough::records_enough))]
pub fn walk(types: &[u8], start: usize, child: bool, ends: NameEnds<'_>) -> Result<Walked, Fault>
    requires { start < 2 ^ 63 }
    ensures count { IfOk result (λ w. w.count ≡ length (records types.now)) }
    ensures few { IfOk result (λ w. w.count ≤ 32766) }
    ensures name { IfOk result (λ w. w.bad_name
        ≡ first_nameless (tables_in ends.entry) (record_sites start (records types.now))) }
    ensures enough { IfOk result (λ w. w.enough ≡ records_enough child (records types.now)) }
    ensures exact_ok { OnOk result (records_fault (records types.now) ≡ None) }
    ensures exact_err { IfErr result (λ f. records_fault (records types.now) ≡ Some f) }
{
    let mut count = 0;
    let mut bad_name = None;
    let mut enough = 0;
    for record in Records::new(types) {
        let record = record?;
        bad_name = or_in_record(bad_name, &record, start + record.place(), &ends);
        enough = more(enough, enough_for_record(child, &record));
        count += 1;
    }
    if count > 32766 {
        return Err(Fault {
            code: Fault::TOO_MANY,
            place: 32767,
        });
    }
    Ok(Walked {
        count,
        bad_name,
        enough,
    })
}
