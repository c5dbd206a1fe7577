//! The lengths of the parts of a written dictionary.
ghost use Rattle.std.specs.Prelude.{◌≡◌, ℕ, ◌*◌, ◌+◌, ◌<◌, ◌≤◌, List, length, MatchOption};
ghost use Rattle.std.specs.List.{flat_map, All};
ghost use Rattle.ctf_draft.specs.TypeView.{body_of, type_of};
ghost use Rattle.ctf_model.specs.drafts.Fitting.{Fits, FitsBody};
ghost use Rattle.ctf_model.specs.format.Record.{member_len as member_len_of};
ghost use Rattle.ctf_model.specs.writing.Written.{most_written};
ghost use Rattle.ctf_model.specs.writing.WrittenRecords.{variant_bytes};
ghost use Rattle.ctf_writer.specs.DraftContentView.{written_type};

use crate::items::FIRST_WIDE;
use crate::numbers::field_len;
use crate::records::field;
use crate::strings::LONGEST;
use ctf_draft::{Body, DraftType};

/// The length of a member, by the size of its struct or union.
fn member_len(size: u64) -> usize
    ensures exact { result ≡ member_len_of size }
    ensures short { result ≤ 16 }
{
    if size < FIRST_WIDE { 8 } else { 16 }
}

/// The length of what follows the head of a type's record; names do not matter.
fn variant_len(body: &Body) -> usize
    requires { FitsBody (body_of body.now) }
    ensures exact { (names : List (List ℕ))
        → result ≡ length (variant_bytes names (body_of body.now)) }
    ensures short { result ≤ 16368 }
{
    match body {
        Body::Unknown | Body::Reference(_, _) | Body::Forward(_) => 0,
        Body::Scalar(_, _, _) => 4,
        Body::Array(_) => 8,
        Body::Function(_, arguments) => 2 * (arguments.len() + arguments.len() % 2),
        Body::Aggregate(_, size, members) => member_len(*size) * members.len(),
        Body::Enum(_, enumerators) => 8 * enumerators.len(),
    }
}

/// The length of the record of a type; names do not matter.
fn record_len(source: &DraftType) -> usize
    requires { Fits (type_of source.now) }
    ensures exact { (names : List (List ℕ)) → result ≡ length (written_type names source.now) }
    ensures short { result ≤ 16384 }
{
    6 + field_len(field(&source.body)) + variant_len(&source.body)
}

/// The length of the records of types, if it is no more than a dictionary may have.
pub(crate) fn records_len(types: &[DraftType]) -> Option<usize>
    requires { All (λ t. Fits (type_of t)) types.now }
    ensures { (names : List (List ℕ)) → MatchOption result
        (most_written < length (flat_map (written_type names) types.now))
        (λ n. (n ≡ length (flat_map (written_type names) types.now)) × (n ≤ most_written)) }
{
    let mut len = 0;
    for t in types {
        len += record_len(t);
        if len > LONGEST {
            return None;
        }
    }
    Some(len)
}
