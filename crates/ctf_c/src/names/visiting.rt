//! Fills a caller's rows with a type and all that it contains.
ghost use Rattle.std.specs.Prelude.{◌≡◌, ◌<◌, ◌≤◌, ◌+◌, ◌^◌, length, map, set, slice_get, flat_map, Some, IfSome};
ghost use Rattle.ctf_check.specs.CheckedView.{lists_of, tables_of};
ghost use Rattle.ctf_model.specs.opened.Open.{space_in};
ghost use Rattle.ctf_c.specs.Rowed.{lists_with};
ghost use Rattle.ctf_c.specs.Visiting.{FillsOn, TellsIn, TellsVisited};
ghost use Rattle.ctf_c.specs.names.MembersView.{members_at, tables_behind};
ghost use Rattle.ctf_c.specs.names.Visits.{inside, visit_of, placed_with, stands_for as standing_for};

use crate::names::filling::member_row;
use crate::names::members::MemberRows;
use crate::names::name_search::member_rows;
use crate::names::type_home::held_type;
use crate::visits::GivenVisitRow;
use ctf_check::Checked;
use ctf_model::TypeNum;
use ctf_open::OpenDictionary;

/// A type of a visit that resolves to a struct or union: its row, the dictionary that has the
/// struct or union, its members, and how deep types may be nested in one of these.
#[derive(Clone, Copy)]
struct Holder<'a> {
    row: GivenVisitRow,
    dictionary: Checked<'a>,
    members: MemberRows<'a>,
    left: u32,
}

/// The number of the type that a type resolves to; 0 if that is no type.
#[inline(always)]
pub fn stands_for(dictionary: &OpenDictionary, t: TypeNum) -> TypeNum
    ensures { result.0 ≡ standing_for (space_in dictionary.now) t.0 }
{
    match dictionary.resolve(t) {
        Ok(number) => number,
        Err(_) => TypeNum(0),
    }
}

/// Writes a row, if there is room for it.
#[inline(always)]
pub fn put(rows: &mut [GivenVisitRow], at: usize, row: GivenVisitRow)
    ensures { rows.new ≡ set rows.old at row }
{
    if at < rows.len() {
        rows[at] = row;
    }
}

/// The row of a member, counted from 0.
#[inline(always)]
fn visit_row(dictionary: &OpenDictionary, holder: &Holder<'_>, index: usize) -> GivenVisitRow
    requires inside { index < length (members_at holder.now.members) }
    requires tables { tables_behind holder.now.members ≡ tables_of holder.now.dictionary }
    requires deep { holder.now.row.depth + 1 < 2 ^ 32 }
    ensures told { IfSome (slice_get (members_at holder.now.members) index)
        (λ m. TellsVisited (Some (lists_of holder.now.dictionary))
        (visit_of holder.now.row.stands_for holder.now.row.offset holder.now.row.depth m)
        result) }
    ensures stands { result.stands_for ≡ standing_for (space_in dictionary.now) result.tnum }
{
    let row = holder.row;
    let member = member_row(&holder.dictionary, &holder.members, index);
    GivenVisitRow {
        offset: row.offset.saturating_add(member.offset),
        name_at: member.name_at,
        name_list: member.name_list,
        depth: row.depth + 1,
        tnum: member.tnum,
        holder: row.stands_for,
        stands_for: stands_for(dictionary, TypeNum(member.tnum)).0,
    }
}

/// Writes a member, and all that it contains, into rows from a number on, and returns the number
/// after the last. If there are too few rows, that is one more than there are.
#[inline(always)]
#[cycle(visits)]
fn visit_member(
    dictionary: &OpenDictionary,
    row: GivenVisitRow,
    left: u32,
    rows: &mut [GivenVisitRow],
    count: usize,
) -> usize
    requires room { count ≤ length rows.old }
    requires deep { row.depth + left < 2 ^ 32 }
    requires stands { row.stands_for ≡ standing_for (space_in dictionary.now) row.tnum }
    ensures { FillsOn (TellsIn (Some dictionary.now))
        (inside left (space_in dictionary.now) row.offset row.depth row.tnum)
        (count + 1) result (set rows.old count row) rows.new }
{
    put(rows, count, row);
    visit_inside(dictionary, row, left, rows, count + 1)
}

/// The same for all members of a struct or union.
#[inline(always)]
#[cycle(visits)]
fn visit_members(
    dictionary: &OpenDictionary,
    holder: &Holder<'_>,
    rows: &mut [GivenVisitRow],
    count: usize,
) -> usize
    requires tables { tables_behind holder.now.members ≡ tables_of holder.now.dictionary }
    requires lists { lists_with (Some dictionary.now) holder.now.row.stands_for
        ≡ Some (lists_of holder.now.dictionary) }
    requires room { count ≤ length rows.old + 1 }
    requires deep { holder.now.row.depth + 1 + holder.now.left < 2 ^ 32 }
    ensures { FillsOn (TellsIn (Some dictionary.now))
        (flat_map (placed_with (inside holder.now.left (space_in dictionary.now))
        holder.now.row.stands_for holder.now.row.offset holder.now.row.depth)
        (members_at holder.now.members)) count result rows.old rows.new }
{
    let mut count = count;
    for index in 0..holder.members.len() {
        if count > rows.len() {
            return count;
        }
        let row = visit_row(dictionary, holder, index);
        count = visit_member(dictionary, row, holder.left, rows, count);
    }
    count
}

/// The same for all that the type of a row contains, nested at most `left` deep.
#[cycle(visits)]
pub fn visit_inside(
    dictionary: &OpenDictionary,
    row: GivenVisitRow,
    left: u32,
    rows: &mut [GivenVisitRow],
    count: usize,
) -> usize
    requires room { count ≤ length rows.old + 1 }
    requires deep { row.depth + left < 2 ^ 32 }
    requires stands { row.stands_for ≡ standing_for (space_in dictionary.now) row.tnum }
    ensures { FillsOn (TellsIn (Some dictionary.now))
        (inside left (space_in dictionary.now) row.offset row.depth row.tnum)
        count result rows.old rows.new }
{
    if left == 0 {
        return count;
    }
    let Ok(found) = held_type(&dictionary.space(), TypeNum(row.stands_for)) else {
        return count;
    };
    let Some(members) = member_rows(&found) else {
        return count;
    };
    let holder = Holder {
        row,
        dictionary: found.dictionary(),
        members,
        left: left - 1,
    };
    visit_members(dictionary, &holder, rows, count)
}
