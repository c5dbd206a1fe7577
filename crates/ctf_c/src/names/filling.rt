//! Fills a caller's rows with the members or enumerators of a type.
ghost use Rattle.std.specs.Prelude.{◌≡◌, ◌<◌, length, map, slice_get, Some, IfSome};
ghost use Rattle.ctf_c.specs.names.Filling.{Fills, FillsFrom, TellsEnumerator, TellsMember};
ghost use Rattle.ctf_c.specs.names.MembersView.{members_at, tables_behind};
ghost use Rattle.ctf_c.specs.names.NamesView.{names_in, tables_for};
ghost use Rattle.ctf_check.specs.CheckedView.{lists_of, tables_of};
ghost use Rattle.ctf_check.specs.TypedView.{dictionary_in, term_in};
ghost use Rattle.ctf_model.specs.opened.Questions.{enumerators_answered, members_answered, on_shape, shape_of};
ghost use Rattle.ctf_model.specs.spaces.TypeNumbers.{or_no_type};

use crate::names::members::MemberRows;
use crate::names::name_search::{member_rows, name_rows};
use crate::names::named_rows::NameRows;
use crate::names::places::name_position;
use crate::rows::{GivenEnumeratorRow, GivenMemberRow};
use ctf_check::{Checked, Typed};
use ctf_model::{Fault, placeless};
use ctf_views::{Enumerators, Variant};

/// The row of an enumerator, counted from 0.
fn enumerator_row(
    dictionary: &Checked<'_>,
    names: &NameRows<'_>,
    enumerators: &Enumerators<'_>,
    index: usize,
) -> GivenEnumeratorRow
    requires inside { index < length enumerators.now }
    requires names { names_in names.now ≡ map (λ e. e.name) enumerators.now }
    requires tables { tables_for names.now ≡ tables_of dictionary.now }
    ensures { IfSome (slice_get enumerators.now index)
        (λ e. TellsEnumerator (Some (lists_of dictionary.now)) e result) }
{
    let place = name_position(dictionary, names.reference(index));
    GivenEnumeratorRow {
        name_at: place.at,
        name_list: place.list,
        value: enumerators.value(index),
    }
}

/// The row of a member, counted from 0.
pub fn member_row(
    dictionary: &Checked<'_>,
    members: &MemberRows<'_>,
    index: usize,
) -> GivenMemberRow
    requires inside { index < length (members_at members.now) }
    requires tables { tables_behind members.now ≡ tables_of dictionary.now }
    ensures { IfSome (slice_get (members_at members.now) index)
        (λ m. TellsMember (Some (lists_of dictionary.now)) m result) }
{
    let member = members.get(index);
    let place = name_position(dictionary, member.reference);
    GivenMemberRow {
        offset: member.offset,
        name_at: place.at,
        name_list: place.list,
        tnum: member.tnum.0,
    }
}

/// Fills rows with the enumerators from a number on.
fn fill_enumerators(
    dictionary: &Checked<'_>,
    names: &NameRows<'_>,
    enumerators: &Enumerators<'_>,
    from: usize,
    rows: &mut [GivenEnumeratorRow],
)
    requires names { names_in names.now ≡ map (λ e. e.name) enumerators.now }
    requires tables { tables_for names.now ≡ tables_of dictionary.now }
    ensures { Fills (TellsEnumerator (Some (lists_of dictionary.now))) enumerators.now from
        rows.old rows.new }
{
    let left = enumerators.len().saturating_sub(from);
    let count = left.min(rows.len());
    for i in 0..count {
        rows[i] = enumerator_row(dictionary, names, enumerators, from + i);
    }
}

/// Fills rows with the members from a number on.
fn fill_members(
    dictionary: &Checked<'_>,
    members: &MemberRows<'_>,
    from: usize,
    rows: &mut [GivenMemberRow],
)
    requires { tables_behind members.now ≡ tables_of dictionary.now }
    ensures { Fills (TellsMember (Some (lists_of dictionary.now))) (members_at members.now) from
        rows.old rows.new }
{
    let left = members.len().saturating_sub(from);
    let count = left.min(rows.len());
    for i in 0..count {
        rows[i] = member_row(dictionary, members, from + i);
    }
}

/// Fills rows with the enumerators of a type, and returns how many it has.
pub fn enumerators_into(
    found: &Typed<'_>,
    from: usize,
    rows: &mut [GivenEnumeratorRow],
) -> Result<u64, Fault>
    ensures { FillsFrom (TellsEnumerator (Some (lists_of (dictionary_in found.now))))
        (on_shape enumerators_answered (shape_of (or_no_type (term_in found.now)))) from result
        rows.old rows.new }
{
    let Some(names) = name_rows(found) else {
        return Err(placeless(Fault::WRONG_KIND));
    };
    match found.variant() {
        Variant::Enumerators(enumerators) => {
            fill_enumerators(&found.dictionary(), &names, &enumerators, from, rows);
            Ok(enumerators.len() as u64)
        }
        _ => Err(placeless(Fault::WRONG_KIND)),
    }
}

/// Fills rows with the members of a type, and returns how many it has.
pub fn members_into(
    found: &Typed<'_>,
    from: usize,
    rows: &mut [GivenMemberRow],
) -> Result<u64, Fault>
    ensures { FillsFrom (TellsMember (Some (lists_of (dictionary_in found.now))))
        (on_shape members_answered (shape_of (or_no_type (term_in found.now)))) from result
        rows.old rows.new }
{
    let Some(members) = member_rows(found) else {
        return Err(placeless(Fault::WRONG_KIND));
    };
    fill_members(&found.dictionary(), &members, from, rows);
    Ok(members.len() as u64)
}
