//! Recursive formatting of values, bounded in the length of the text and in how deeply values are
//! nested.
//!
//! A struct in a struct takes one frame of the stack, that of `show_members`, and an array in an
//! array takes one of `show_array`. A frame has what was found of one type and the offset of its
//! value; `Pen` has what all frames share. What is done once for a member or an array is a call.
ghost use Rattle.std.specs.Prelude.{◌≡◌, ◌*◌, ◌<◌, length, map, slice_get, IfErr, OnOk, Ok, Some};
ghost use Rattle.ctf_model.specs.format.Term.{Member};
ghost use Rattle.ctf_model.specs.figures.Figures.{size as size_of};
ghost use Rattle.ctf_model.specs.values.Pieces.{separate};
ghost use Rattle.ctf_model.specs.spaces.Space.{pointer_size};
ghost use Rattle.ctf_model.specs.values.Values.{array_shown, elements_shown, member_shown, members_shown};
ghost use Rattle.ctf_print.specs.ImageView.{memory_of, shows, types_of};
ghost use Rattle.ctf_print.specs.Placing.{shown_how};
ghost use Rattle.ctf_print.specs.ShowRules.{text_by_rule};
ghost use Rattle.ctf_print.specs.ShowRuleView.{show_rule};
ghost use Rattle.ctf_print.specs.Written.{Refused, written};

use crate::image::Image;
use crate::pen::{Ended, Pen};
use crate::show_rules::ShowRule;
use crate::value_form::{ValueForm, no_form};
use ctf_model::{DataModel, Fault, TypeNum, placeless};
use ctf_views::{ArrayInfo, Members};

/// The number of bits of a pointer.
fn pointer_bits(model: DataModel) -> u128
    ensures { result ≡ 8 * pointer_size model }
{
    match model {
        DataModel::Lp64 => 64,
        DataModel::Ilp32 => 32,
    }
}

/// Appends the elements of an array, separated by commas.
#[inline(always)]
#[cycle(values)]
fn show_elements(
    image: &Image<'_>,
    array: ArrayInfo,
    at: u128,
    nesting: u32,
    pen: &mut Pen<'_>,
) -> Result<(), Ended>
    requires known { pen.old.known ≡ types_of image.now }
    ensures ok { OnOk result (written pen.old.out
        (elements_shown (shows image.now nesting) at array.contents.0 array.count
        (size_of (types_of image.now) array.contents.0)) ≡ Ok pen.new.out) }
    ensures err { IfErr result (λ _. Refused pen.old.out
        (elements_shown (shows image.now nesting) at array.contents.0 array.count
        (size_of (types_of image.now) array.contents.0)) pen.new.fault) }
    ensures kept { pen.new.known ≡ pen.old.known }
{
    if array.count == 0 {
        return pen.put_nothing();
    }
    let mut found = no_form();
    let size = pen.begin_elements(image, array.contents, nesting, &mut found)?;
    let mut place = at;
    for i in 0..array.count {
        pen.put_comma(i as usize)?;
        show_by_rule(image, &found, place, pen)?;
        place = place.saturating_add(u128::from(size) * 8);
    }
    pen.put_nothing()
}

#[inline(never)]
#[cycle(values)]
fn show_array(
    image: &Image<'_>,
    array: ArrayInfo,
    at: u128,
    nesting: u32,
    pen: &mut Pen<'_>,
) -> Result<(), Ended>
    requires known { pen.old.known ≡ types_of image.now }
    ensures ok { OnOk result (written pen.old.out
        (array_shown (shows image.now nesting) at array.contents.0 array.count
        (size_of (types_of image.now) array.contents.0)) ≡ Ok pen.new.out) }
    ensures err { IfErr result (λ _. Refused pen.old.out
        (array_shown (shows image.now nesting) at array.contents.0 array.count
        (size_of (types_of image.now) array.contents.0)) pen.new.fault) }
    ensures kept { pen.new.known ≡ pen.old.known }
{
    pen.put_short(b"[")?;
    show_elements(image, array, at, nesting, pen)?;
    pen.put_short(b"]")
}

/// Appends the member with a number, from 0. What is found of its type is written into `found`.
#[inline(always)]
#[cycle(values)]
fn show_member<'a>(
    image: &Image<'a>,
    members: &Members<'_>,
    i: usize,
    at: u128,
    nesting: u32,
    found: &mut ValueForm<'a>,
    pen: &mut Pen<'_>,
) -> Result<(), Ended>
    requires known { pen.old.known ≡ types_of image.now }
    requires inside { i < length members.now }
    ensures ok { (m : Member) → slice_get members.now i ≡ Some m → OnOk result
        (written pen.old.out (member_shown (shows image.now nesting) at m) ≡ Ok pen.new.out) }
    ensures err { (m : Member) → slice_get members.now i ≡ Some m → IfErr result
        (λ _. Refused pen.old.out (member_shown (shows image.now nesting) at m) pen.new.fault) }
    ensures kept { pen.new.known ≡ pen.old.known }
{
    let offset = pen.begin_member(image, members, i, nesting, found)?;
    let place = at.saturating_add(u128::from(offset));
    show_by_rule(image, found, place, pen)
}

/// Appends members, separated by commas.
#[inline(always)]
#[cycle(values)]
fn show_each_member(
    image: &Image<'_>,
    members: &Members<'_>,
    at: u128,
    nesting: u32,
    pen: &mut Pen<'_>,
) -> Result<(), Ended>
    requires known { pen.old.known ≡ types_of image.now }
    ensures ok { OnOk result (written pen.old.out
        (separate (map (member_shown (shows image.now nesting) at) members.now))
        ≡ Ok pen.new.out) }
    ensures err { IfErr result (λ _. Refused pen.old.out
        (separate (map (member_shown (shows image.now nesting) at) members.now))
        pen.new.fault) }
    ensures kept { pen.new.known ≡ pen.old.known }
{
    let mut found = no_form();
    let mut i = 0;
    // Their number is read again each time, so that no frame keeps it.
    while i < members.len() {
        pen.put_comma(i)?;
        show_member(image, members, i, at, nesting, &mut found, pen)?;
        i += 1;
    }
    pen.put_nothing()
}

#[inline(never)]
#[cycle(values)]
fn show_members(
    image: &Image<'_>,
    members: &Members<'_>,
    at: u128,
    nesting: u32,
    pen: &mut Pen<'_>,
) -> Result<(), Ended>
    requires known { pen.old.known ≡ types_of image.now }
    ensures ok { OnOk result (written pen.old.out
        (members_shown (shows image.now nesting) at members.now) ≡ Ok pen.new.out) }
    ensures err { IfErr result (λ _. Refused pen.old.out
        (members_shown (shows image.now nesting) at members.now) pen.new.fault) }
    ensures kept { pen.new.known ≡ pen.old.known }
{
    pen.put_short(b"{")?;
    show_each_member(image, members, at, nesting, pen)?;
    pen.put_short(b"}")
}

/// Appends a value that is shown in the way that was found. It ends with a call of the function
/// that does that, and has no frame then.
#[inline(never)]
#[cycle(values)]
fn show_by_rule(
    image: &Image<'_>,
    found: &ValueForm<'_>,
    at: u128,
    pen: &mut Pen<'_>,
) -> Result<(), Ended>
    requires known { pen.old.known ≡ types_of image.now }
    requires how { shown_how (types_of image.now) found.now.number.0 ≡ show_rule found.now.how }
    ensures ok { OnOk result (written pen.old.out
        (text_by_rule (types_of image.now) (memory_of image.now) (shows image.now found.now.nesting)
        at (show_rule found.now.how)) ≡ Ok pen.new.out) }
    ensures err { IfErr result (λ _. Refused pen.old.out
        (text_by_rule (types_of image.now) (memory_of image.now) (shows image.now found.now.nesting)
        at (show_rule found.now.how)) pen.new.fault) }
    ensures kept { pen.new.known ≡ pen.old.known }
{
    let nesting = found.nesting;
    match &found.how {
        ShowRule::Integer(encoding) => pen.write_integer(image.memory, at, *encoding),
        ShowRule::Float(encoding) => pen.write_float(image.memory, at, *encoding),
        ShowRule::Pointer => pen.write_raw(image.memory, at, pointer_bits(image.space.model())),
        ShowRule::Enum(said, enumerators) => {
            pen.write_enum(image.memory, at, found.number, *said, enumerators)
        }
        ShowRule::Members(members) => show_members(image, members, at, nesting, pen),
        ShowRule::Array(array) => show_array(image, *array, at, nesting, pen),
        ShowRule::As(next) => show_again(image, *next, at, nesting, pen),
        ShowRule::Incomplete => {
            pen.end(placeless(Fault::INCOMPLETE));
            Err(Ended)
        }
    }
}

/// Formats the value of type `number` that begins at a bit. Typedefs and qualifiers are followed
/// once for each type.
#[inline(always)]
#[cycle(values)]
pub fn show_value(
    image: &Image<'_>,
    number: TypeNum,
    at: u128,
    nesting: u32,
    pen: &mut Pen<'_>,
) -> Result<(), Ended>
    requires known { pen.old.known ≡ types_of image.now }
    ensures ok { OnOk result
        (written pen.old.out (shows image.now nesting number.0 at) ≡ Ok pen.new.out) }
    ensures err { IfErr result
        (λ _. Refused pen.old.out (shows image.now nesting number.0 at) pen.new.fault) }
    ensures kept { pen.new.known ≡ pen.old.known }
{
    let mut found = no_form();
    pen.look_up(image, number, nesting, &mut found)?;
    show_by_rule(image, &found, at, pen)
}

/// The same, with one more typedef or qualifier followed.
#[inline(never)]
#[cycle(values)]
fn show_again(
    image: &Image<'_>,
    number: TypeNum,
    at: u128,
    nesting: u32,
    pen: &mut Pen<'_>,
) -> Result<(), Ended>
    requires known { pen.old.known ≡ types_of image.now }
    ensures ok { OnOk result
        (written pen.old.out (shows image.now nesting number.0 at) ≡ Ok pen.new.out) }
    ensures err { IfErr result
        (λ _. Refused pen.old.out (shows image.now nesting number.0 at) pen.new.fault) }
    ensures kept { pen.new.known ≡ pen.old.known }
{
    show_value(image, number, at, nesting, pen)
}
