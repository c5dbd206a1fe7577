//! The members or enumerators of a type, by their names.
ghost use Rattle.std.specs.Prelude.{◌≡◌, ◌<◌, length, map, slice_get, Some, None, option_map, IfSome, bytes_eq, find};
ghost use Rattle.std.specs.Ordering.{int_eq};
ghost use Rattle.ctf_check.specs.CheckedView.{tables_of};
ghost use Rattle.ctf_check.specs.TypedView.{dictionary_in, term_in};
ghost use Rattle.ctf_model.specs.format.Shown.{members_in, shown};
ghost use Rattle.ctf_views.specs.ItemsView.{enumerator as enumerator_view};
ghost use Rattle.ctf_c.specs.names.Names.{shown_names};
ghost use Rattle.ctf_c.specs.names.MembersView.{members_at, tables_behind};
ghost use Rattle.ctf_c.specs.names.NamesView.{names_in, tables_for};

use crate::names::members::MemberRows;
use crate::names::named_rows::NameRows;
use ctf_check::Typed;
use ctf_model::Kind;
use ctf_records::member_len;
use ctf_views::{Enumerator, Enumerators};

/// The rows of a type's members or enumerators, if it has any.
pub fn name_rows<'a>(found: &Typed<'a>) -> Option<NameRows<'a>>
    ensures names { option_map (λ x. shown_names (shown x.body)) (term_in found.now)
        ≡ Some (option_map names_in result) }
    ensures tables { IfSome result
        (λ r. tables_for r ≡ tables_of (dictionary_in found.now)) }
{
    let record = found.record();
    let rest = record.rest();
    let count = record.vlen();
    let strings = found.dictionary().strings();
    match record.kind() {
        Kind::KStruct | Kind::KUnion => {
            let width = member_len(record.size().unwrap());
            Some(NameRows::new(rest, width, count, strings))
        }
        Kind::KEnum => Some(NameRows::new(rest, 8, count, strings)),
        _ => None,
    }
}

/// The members of a type, if it is a struct or union.
pub fn member_rows<'a>(found: &Typed<'a>) -> Option<MemberRows<'a>>
    ensures members { option_map (λ x. members_in (shown x.body)) (term_in found.now)
        ≡ Some (option_map members_at result) }
    ensures tables { IfSome result
        (λ r. tables_behind r ≡ tables_of (dictionary_in found.now)) }
{
    let record = found.record();
    match record.kind() {
        Kind::KStruct | Kind::KUnion => {
            let size = record.size().unwrap();
            let strings = found.dictionary().strings();
            Some(MemberRows::new(record.rest(), size, record.vlen(), strings))
        }
        _ => None,
    }
}

/// The first enumerator with a name. Of each other name, only a few bytes are read.
pub fn first_named<'a>(
    rows: &NameRows<'_>,
    enumerators: &Enumerators<'a>,
    name: &[u8],
) -> Option<Enumerator<'a>>
    requires { names_in rows.now ≡ map (λ e. e.name) enumerators.now }
    ensures { option_map enumerator_view result
        ≡ find (λ e. bytes_eq name.now e.name) enumerators.now }
{
    for index in 0..enumerators.len() {
        if rows.is_name(index, name) {
            return enumerators.get(index);
        }
    }
    None
}

/// The first enumerator with a value. Only its own name is read.
pub fn first_valued<'a>(enumerators: &Enumerators<'a>, value: i32) -> Option<Enumerator<'a>>
    ensures { option_map enumerator_view result
        ≡ find (λ e. int_eq e.value value) enumerators.now }
{
    for index in 0..enumerators.len() {
        if enumerators.value(index) == value {
            return enumerators.get(index);
        }
    }
    None
}
