//! Computes sizes and alignments from others.
ghost use Rattle.std.specs.Prelude.{◌≡◌};
ghost use Rattle.ctf_layout.specs.Bases.{row_size};
ghost use Rattle.ctf_layout.specs.Extents.{amount};
ghost use Rattle.ctf_model.specs.figures.Figures.{greater as greater_of, times};

use crate::bases::Row;
use crate::extents::{Amount, Refusal};

/// The greater of two amounts, or the first refusal.
pub fn greater(a: Amount, b: Amount) -> Amount
    ensures { amount result ≡ greater_of (amount a) (amount b) }
{
    match (a, b) {
        (Amount::Known(m), Amount::Known(n)) => Amount::Known(m.max(n)),
        (Amount::Known(_), Amount::Refused(refusal)) => Amount::Refused(refusal),
        (Amount::Refused(refusal), _) => Amount::Refused(refusal),
    }
}

/// The size of so many elements of this size.
fn repeated_amount(count: u32, size: Amount) -> Amount
    ensures { amount result ≡ times count (amount size) }
{
    match size {
        Amount::Refused(refusal) => Amount::Refused(refusal),
        Amount::Known(size) => match size.checked_mul(u64::from(count)) {
            Some(size) => Amount::Known(size),
            None => Amount::Refused(Refusal::TooBig),
        },
    }
}

/// The size of a row of elements, or that of the element if there is no row.
pub fn row_amount(row: Option<Row>, element: Amount) -> Amount
    ensures { amount result ≡ row_size row (amount element) }
{
    match row {
        None => element,
        Some(row) if row.size > 0 => Amount::Known(row.size),
        Some(row) => repeated_amount(row.count, element),
    }
}
