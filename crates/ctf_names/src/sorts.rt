//! Which keyword is in front of the name of a type.
ghost use Rattle.std.specs.Prelude.{◌≡◌};
ghost use Rattle.ctf_check.specs.FactsView.{shape_view};
ghost use Rattle.ctf_model.specs.names.Lookups.{same_tag};
ghost use Rattle.ctf_names.specs.Sorts.{tag_in, tag_shown};

use ctf_check::Shape;
use ctf_model::Kind;
use ctf_records::Tag;

/// The keywords that may be in front of a name; each has a name space of its own.
#[derive(Clone, Copy)]
pub(crate) enum Sort {
    /// No keyword.
    Plain,
    Struct,
    Union,
    Enum,
}

/// The keyword of a type. A forward has that of what it declares.
pub(crate) fn sort_of(x: &Shape<'_>) -> Sort
    ensures { tag_in result ≡ tag_shown (shape_view x.now) }
{
    match (x.kind, x.declares) {
        (Kind::KStruct, _) | (Kind::KForward, Some(Tag::Struct)) => Sort::Struct,
        (Kind::KUnion, _) | (Kind::KForward, Some(Tag::Union)) => Sort::Union,
        (Kind::KEnum, _) | (Kind::KForward, Some(Tag::Enum)) => Sort::Enum,
        _ => Sort::Plain,
    }
}

pub(crate) fn is_same(a: Sort, b: Sort) -> bool
    ensures { result ≡ same_tag (tag_in a) (tag_in b) }
{
    match (a, b) {
        (Sort::Plain, Sort::Plain)
        | (Sort::Struct, Sort::Struct)
        | (Sort::Union, Sort::Union)
        | (Sort::Enum, Sort::Enum) => true,
        _ => false,
    }
}
