//! What the size and the alignment of a type depend on, and which type it resolves to.
ghost use Rattle.std.specs.Prelude.{◌≡◌, Some, min, option_map, unwrap_or};
ghost use Rattle.ctf_check.specs.TypedView.{term_in};
ghost use Rattle.ctf_layout.specs.Bases.{basis as basis_word, both as both_of, of_array, of_function, of_nothing, of_other};
ghost use Rattle.ctf_model.specs.format.Shown.{array_in, shape, size_of};
ghost use Rattle.ctf_model.specs.spaces.Space.{pointer_size as pointer_size_of};
ghost use Rattle.ctf_views.specs.VariantView.{shown_of};

use crate::extents::{Amount, Refusal};
use ctf_check::Typed;
use ctf_model::{DataModel, Kind, TypeNum};
use ctf_views::Variant;

/// What the record of an array says: its size, or 0, and the number of its elements.
#[derive(Clone, Copy, Debug, PartialEq, Eq)]
pub struct Row {
    pub size: u64,
    pub count: u32,
}

/// What the size and the alignment of a type depend on. Typedefs and qualifiers resolve to another
/// type; all others resolve to themselves.
#[derive(Clone, Copy, Debug, PartialEq, Eq)]
pub enum Basis {
    /// On no other type: the size, and the alignment.
    Itself(Amount, Amount),
    /// On those of one type: the same, or for a row of elements.
    One(TypeNum, Option<Row>),
    /// The record has the size; the alignment depends on so many of its members.
    Members(u64, usize),
}

fn pointer_size(model: DataModel) -> u64
    ensures { result ≡ pointer_size_of model }
{
    match model {
        DataModel::Lp64 => 8,
        DataModel::Ilp32 => 4,
    }
}

fn both(number: u64) -> Basis
    ensures { result ≡ both_of number }
{
    Basis::Itself(Amount::Known(number), Amount::Known(number))
}

fn nothing() -> Basis
    ensures { result ≡ of_nothing }
{
    let neither = Amount::Refused(Refusal::Incomplete);
    Basis::Itself(neither, neither)
}

fn function(model: DataModel) -> Basis
    ensures { result ≡ of_function model }
{
    Basis::Itself(Amount::Known(0), Amount::Known(pointer_size(model)))
}

fn array(size: u64, behind: &Variant<'_>) -> Basis
    ensures { result ≡ of_array size (array_in (shown_of behind.now)) }
{
    match behind {
        Variant::Array(parts) => Basis::One(
            parts.contents,
            Some(Row {
                size,
                count: parts.count,
            }),
        ),
        _ => nothing(),
    }
}

fn other(reference: Option<TypeNum>) -> Basis
    ensures { result ≡ of_other (option_map (λ t. t.0) reference) }
{
    match reference {
        Some(number) => Basis::One(number, None),
        None => nothing(),
    }
}

/// The size in a type's record, or 0.
fn stated_size(term: &Typed<'_>) -> u64
    ensures { option_map (λ x. unwrap_or (size_of x.body) 0) (term_in term.now) ≡ Some result }
{
    term.size().unwrap_or(0)
}

/// What the size and the alignment of a type of a dictionary depend on.
#[inline(always)]
pub fn basis_of(term: &Typed<'_>, model: DataModel) -> Basis
    ensures { option_map (λ x. basis_word model (shape x.body)) (term_in term.now) ≡ Some result }
{
    match term.kind() {
        Kind::KInteger | Kind::KFloat => both(stated_size(term)),
        Kind::KPointer => both(pointer_size(model)),
        Kind::KArray => array(stated_size(term), &term.variant()),
        Kind::KFunction => function(model),
        Kind::KStruct => {
            let read = term.value_count().min(1);
            Basis::Members(stated_size(term), read)
        }
        Kind::KUnion => Basis::Members(stated_size(term), term.value_count()),
        Kind::KEnum => {
            let size = stated_size(term);
            both(if size > 0 { size } else { 4 })
        }
        Kind::KTypedef | Kind::KVolatile | Kind::KConst | Kind::KRestrict => {
            other(term.reference())
        }
        Kind::KForward | Kind::KUnknown => nothing(),
    }
}
