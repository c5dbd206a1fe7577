//! The export that gives many types at once, and where their names are.
ghost use Rattle.std.specs.Prelude.{◌≡◌, ◌<◌, ℕ, List, Ok, Some, length};
ghost use Rattle.std.specs.Result.{result_map_both};
ghost use Rattle.ctf_c.specs.Given.{Gives, ask, flag as flag_of, number_of_kind};
ghost use Rattle.ctf_c.specs.Rowed.{GivesRows};
ghost use Rattle.ctf_c.specs.TypeRows.{IsAsked, TellsFigures, TellsType, own_numbers};
ghost use Rattle.ctf_c.specs.names.Filling.{Fills};
ghost use Rattle.ctf_c.specs.names.Places.{text_in};
ghost use Rattle.ctf_check.specs.CheckedView.{lists_of};
ghost use Rattle.ctf_check.specs.TypedView.{dictionary_in, term_in};
ghost use Rattle.ctf_model.specs.figures.Figures.{referred_by};
ghost use Rattle.ctf_layout.specs.Fitting.{Fits};
ghost use Rattle.ctf_model.specs.opened.Open.{Open, own_in};
ghost use Rattle.ctf_model.specs.opened.Questions.{answer_map, kind_answered, length_answered, on_shape, root_answered, shape_of};
ghost use Rattle.ctf_model.specs.spaces.Space.{Space as WholeSpace, space_type};
ghost use Rattle.ctf_model.specs.spaces.TypeNumbers.{or_no_type};
ghost use Rattle.ctf_model.specs.spaces.TypePlaces.{own_number as number_of_own};
ghost use Rattle.ctf_space.specs.SpaceView.{own_lists, space_of};
ghost use Rattle.ctf_space.specs.TypeView.{name_in};

use crate::handle::Handle;
use crate::names::{NamePosition, name_position};
use crate::out_pointers::{dictionary_of, flag, give, give_type};
use ctf_check::Typed;
use ctf_layout::Layout;
use ctf_model::{Fault, Kind, TypeNum, placeless};
use ctf_open::OpenDictionary;
use ctf_space::Space;
use ctf_views::Variant;

/// A type: `struct ctfd_type_row`. Sizes and alignments are in bytes. If the call for one of its
/// numbers alone would be refused, that number is 0, with the status of the refusal. Its name
/// begins at an offset in one of the lists, and ends with a zero byte.
#[repr(C)]
#[derive(Clone, Copy)]
pub struct GivenTypeRow {
    pub size: u64,
    pub align: u64,
    pub length: u64,
    pub name_at: u64,
    pub name_list: u32,
    pub kind: u32,
    pub root: u32,
    pub size_status: u32,
    pub align_status: u32,
    pub resolved_status: u32,
    pub reference_status: u32,
    pub tnum: u16,
    pub resolved: u16,
    pub reference: u16,
}

/// What the record of a type says.
#[derive(Clone, Copy)]
struct RecordNumbers {
    length: u64,
    kind: u32,
    root: u32,
    reference_status: u32,
    reference: u16,
}

/// Fills a row with the size, the alignment and the resolved type.
#[inline(always)]
fn put_figures(layout: &Layout, t: TypeNum, row: &mut GivenTypeRow)
    ensures { (s : WholeSpace) → Fits s layout.now → 0 < t.0 → TellsFigures s t.0 row.new }
{
    let mut size = 0;
    let mut align = 0;
    let mut resolved = 0;
    let extent = layout.figures(t);
    let size_status = give(extent.size.get(), &mut size);
    let align_status = give(extent.align.get(), &mut align);
    let resolved_status = give_type(extent.target.get(), &mut resolved);
    row.size = size;
    row.align = align;
    row.size_status = size_status;
    row.align_status = align_status;
    row.resolved_status = resolved_status;
    row.resolved = resolved;
}

/// The number of a kind: kinds are declared in the order of their numbers.
#[inline(always)]
fn number_of(kind: Kind) -> u32
    ensures { result ≡ number_of_kind kind }
{
    kind as u32
}

/// The type that a type points to, renames or qualifies.
#[inline(always)]
fn referred_to(found: &Typed<'_>) -> Result<TypeNum, Fault>
    ensures { result_map_both (λ t. t.0) (λ f. f) result
        ≡ referred_by (or_no_type (term_in found.now)) }
{
    match found.kind() {
        Kind::KPointer | Kind::KTypedef | Kind::KVolatile | Kind::KConst | Kind::KRestrict => {
            found.reference().ok_or(placeless(Fault::NOT_REFERENCE))
        }
        _ => Err(placeless(Fault::NOT_REFERENCE)),
    }
}

/// How many members, enumerators or arguments a type has.
#[inline(always)]
fn item_count(found: &Typed<'_>) -> u64
    ensures { on_shape length_answered (shape_of (or_no_type (term_in found.now))) ≡ Ok result }
{
    match found.kind() {
        Kind::KFunction | Kind::KStruct | Kind::KUnion | Kind::KEnum => match found.variant() {
            Variant::Members(members) => members.len() as u64,
            Variant::Enumerators(enumerators) => enumerators.len() as u64,
            Variant::Args(args) => args.len() as u64,
            _ => 0,
        },
        _ => 0,
    }
}

/// What the record of a type says.
#[inline(always)]
fn numbers_of(found: &Typed<'_>) -> RecordNumbers
    ensures kind { answer_map number_of_kind
        (on_shape kind_answered (shape_of (or_no_type (term_in found.now)))) ≡ Ok result.kind }
    ensures root { answer_map flag_of (root_answered (or_no_type (term_in found.now)))
        ≡ Ok result.root }
    ensures length { on_shape length_answered (shape_of (or_no_type (term_in found.now)))
        ≡ Ok result.length }
    ensures reference { Gives (referred_by (or_no_type (term_in found.now)))
        result.reference_status 0 result.reference }
{
    let mut reference = 0;
    let reference_status = give_type(referred_to(found), &mut reference);
    RecordNumbers {
        length: item_count(found),
        kind: number_of(found.kind()),
        root: flag(found.root()),
        reference_status,
        reference,
    }
}

/// Where the name of a type is.
#[inline(always)]
fn name_place(found: &Typed<'_>) -> NamePosition
    ensures { (name : List ℕ) × (name_in (or_no_type (term_in found.now)) ≡ Ok name)
        × (text_in (lists_of (dictionary_in found.now)) result.list result.at ≡ Some name) }
{
    name_position(&found.dictionary(), found.name_reference())
}

/// An own type, counted from 0.
#[inline(always)]
fn own_type<'a>(space: &Space<'a>, index: usize) -> Typed<'a>
    requires there { index < length (space_of space.now).own.terms }
    requires short { index < 65536 }
    ensures found { or_no_type (term_in result)
        ≡ space_type (space_of space.now) (number_of_own (space_of space.now).own.child index) }
    ensures lists { lists_of (dictionary_in result) ≡ own_lists space.now }
{
    space.dictionary().type_at(index + 1).unwrap()
}

/// The number of an own type that is counted from 0.
#[inline(always)]
fn own_number(child: bool, index: usize) -> TypeNum
    requires { index < 32767 }
    ensures { result.0 ≡ number_of_own child index }
{
    if child {
        TypeNum((index + 0x8001) as u16)
    } else {
        TypeNum((index + 1) as u16)
    }
}

/// Fills the row of an own type, counted from 0, of a child or of another dictionary.
#[inline(always)]
fn fill_row(space: &Space<'_>, layout: &Layout, child: bool, index: usize, row: &mut GivenTypeRow)
    requires there { index < length (space_of space.now).own.terms }
    requires child { child ≡ (space_of space.now).own.child }
    ensures { (d : Open) → IsAsked d space.now layout.now
        → TellsType (Some d) (number_of_own (own_in d).child index) row.new }
{
    let t = own_number(child, index);
    put_figures(layout, t, row);
    let found = own_type(space, index);
    let place = name_place(&found);
    let numbers = numbers_of(&found);
    *row = GivenTypeRow {
        size: row.size,
        align: row.align,
        length: numbers.length,
        name_at: place.at,
        name_list: place.list,
        kind: numbers.kind,
        root: numbers.root,
        size_status: row.size_status,
        align_status: row.align_status,
        resolved_status: row.resolved_status,
        reference_status: numbers.reference_status,
        tnum: t.0,
        resolved: row.resolved,
        reference: numbers.reference,
    };
}

/// Fills rows with the own types from a number on, counted from 0, and returns how many there are.
fn types_into(dictionary: &OpenDictionary, from: usize, rows: &mut [GivenTypeRow]) -> u64
    ensures count { result ≡ length (own_numbers (own_in dictionary.now)) }
    ensures filled { Fills (TellsType (Some dictionary.now)) (own_numbers (own_in dictionary.now))
        from rows.old rows.new }
{
    let space = dictionary.space();
    let tables = dictionary.tables();
    let child = space.child();
    let all = space.count();
    let left = all.saturating_sub(from);
    let count = left.min(rows.len());
    for i in 0..count {
        fill_row(&space, &tables.layout, child, from + i, &mut rows[i]);
    }
    all as u64
}

/// The dictionary's own types from a number on, counted from 0, as many as there are rows, and how
/// many it has in all.
#[unsafe(no_mangle)]
pub extern "C" fn ctfd_types(
    handle: &mut Handle,
    from: usize,
    rows: &mut [GivenTypeRow],
    count: &mut u64,
) -> u32
    ensures same { handle.new.held.dictionary ≡ handle.old.held.dictionary }
    ensures answer { GivesRows (TellsType handle.old.held.dictionary)
        (ask handle.old.held.dictionary (λ s. Ok (own_numbers (own_in s)))) from result
        rows.old rows.new count.old count.new }
{
    let dictionary = dictionary_of!(handle);
    *count = types_into(dictionary, from, rows);
    0
}
