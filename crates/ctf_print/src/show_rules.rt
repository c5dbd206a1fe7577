//! The form of a type's values, by its kind: the one match over kinds.
ghost use Rattle.std.specs.Prelude.{◌≡◌};
ghost use Rattle.std.specs.Option.{option_map};
ghost use Rattle.ctf_check.specs.FactsView.{shape_view};
ghost use Rattle.ctf_print.specs.ShowRules.{of_head, of_reference, rule_in};
ghost use Rattle.ctf_print.specs.ShowRuleView.{show_rule};

use ctf_check::Shape;
use ctf_model::{Kind, TypeNum};
use ctf_views::{ArrayInfo, Encoding, Enumerators, Members, Variant};

/// How the value of a type is shown.
#[derive(Drop)]
pub enum ShowRule<'a> {
    Integer(Encoding),
    Float(Encoding),
    Pointer,
    /// With the size in bytes in its record.
    Enum(Option<u64>, Enumerators<'a>),
    /// A struct or a union.
    Members(Members<'a>),
    Array(ArrayInfo),
    /// As that of another type.
    As(TypeNum),
    /// Not at all.
    Incomplete,
}

/// A typedef or a qualifier, shown as the type that it refers to.
fn by_reference<'a>(reference: Option<TypeNum>) -> ShowRule<'a>
    ensures { show_rule result ≡ of_reference (option_map (λ t. t.0) reference) }
{
    match reference {
        Some(number) => ShowRule::As(number),
        None => ShowRule::Incomplete,
    }
}

/// A type with nothing after its head.
fn by_head<'a>(kind: Kind, reference: Option<TypeNum>) -> ShowRule<'a>
    ensures { show_rule result ≡ of_head kind (option_map (λ t. t.0) reference) }
{
    match kind {
        Kind::KPointer => ShowRule::Pointer,
        Kind::KTypedef | Kind::KVolatile | Kind::KConst | Kind::KRestrict => {
            by_reference(reference)
        }
        _ => ShowRule::Incomplete,
    }
}

/// How the values of a type with this shape are shown.
pub fn rule_by(x: Shape<'_>) -> ShowRule<'_>
    ensures { show_rule result ≡ rule_in (shape_view x.entry) }
{
    let Shape {
        kind,
        size,
        reference,
        behind,
        ..
    } = x;
    match behind {
        Variant::Members(members) => ShowRule::Members(members),
        Variant::Enumerators(enumerators) => ShowRule::Enum(size, enumerators),
        Variant::Array(info) => ShowRule::Array(info),
        Variant::Encoding(encoding) => match kind {
            Kind::KFloat => ShowRule::Float(encoding),
            _ => ShowRule::Integer(encoding),
        },
        Variant::Args(_) | Variant::Tag(_) => ShowRule::Incomplete,
        Variant::Nothing => by_head(kind, reference),
    }
}
