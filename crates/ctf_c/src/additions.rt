//! Exports that add to drafts.
ghost use Rattle.std.specs.Prelude.{◌≡◌, IfOk, map, option_map};
ghost use Rattle.ctf_c.specs.Drafting.{Adds, Steps, forward_asked, member_added_at, number_there, tag_numbered};
ghost use Rattle.ctf_model.specs.opened.Steps.{enlarge, enumerator_added, label_added, member_added, type_added};
ghost use Rattle.ctf_c.specs.Given.{ask};
ghost use Rattle.ctf_open.specs.PartView.{part_in};
ghost use Rattle.ctf_draft.specs.NewView.{new_body_of};
ghost use Rattle.ctf_draft.specs.TypeView.{number_of};
ghost use Rattle.ctf_model.specs.drafts.NewTypes as new;
ghost use Rattle.ctf_records.specs.RecordView.{tag_of as tag_shown};

use crate::handle::Handle;
use crate::handles::OptionBox;
use crate::out_pointers::{NOT_OPEN, status};
use ctf_draft::{AggregateKind, NewBody, ReferenceKind, ScalarKind};
use ctf_model::{Fault, TypeNum, placeless};
use ctf_open::{OpenDictionary, Part};
use ctf_records::Tag;
use ctf_views::{ArrayInfo, Encoding};
use std::alloc::{AllocError, Global};

/// Adds a type to the open draft, and gives its number.
fn add(
    alloc: Global,
    dictionary: &mut OptionBox<OpenDictionary>,
    name: &[u8],
    root: bool,
    body: NewBody<'_>,
    out: &mut u16,
) -> u32
    ensures { Steps (ask dictionary.old.held.value
        (type_added (record { name = name.now; root = root; body = new_body_of body.entry })))
        result out.old out.new dictionary.old.held.value dictionary.new.held.value }
{
    let Some(dictionary) = dictionary.get_mut() else {
        return NOT_OPEN;
    };
    match dictionary.add(alloc, name, root, body) {
        Ok(t) => {
            *out = t.0;
            0
        }
        Err(fault) => status(fault),
    }
}

/// Adds to the open draft, and gives the number in the answer.
fn add_part(
    alloc: Global,
    dictionary: &mut OptionBox<OpenDictionary>,
    part: Part<'_>,
    out: &mut u64,
) -> u32
    ensures { Steps (ask dictionary.old.held.value (enlarge (part_in part.entry))) result
        out.old out.new dictionary.old.held.value dictionary.new.held.value }
{
    let Some(dictionary) = dictionary.get_mut() else {
        return NOT_OPEN;
    };
    match dictionary.add_part(alloc, part) {
        Ok(answer) => {
            *out = answer;
            0
        }
        Err(fault) => status(fault),
    }
}

/// Adds an integer, and gives its number.
#[unsafe(no_mangle)]
pub extern "C" fn ctfd_add_integer(
    alloc: Global,
    handle: &mut Handle,
    name: &[u8],
    root: bool,
    encoding: u8,
    offset: u8,
    bits: u16,
    size: u64,
    out: &mut u16,
) -> u32
    ensures { Steps (ask handle.old.held.dictionary (type_added (record {
      name = name.now;
      root = root;
      body = new.integer (record {
        size = size;
        encoding = encoding;
        offset = offset;
        bits = bits;
      });
    }))) result out.old out.new handle.old.held.dictionary handle.new.held.dictionary }
{
    let encoding = Encoding {
        encoding,
        offset,
        bits,
    };
    let body = NewBody::Scalar(ScalarKind::Integer, size, encoding);
    add(alloc, handle.option_box(), name, root, body, out)
}

/// Adds a float, and gives its number.
#[unsafe(no_mangle)]
pub extern "C" fn ctfd_add_float(
    alloc: Global,
    handle: &mut Handle,
    name: &[u8],
    root: bool,
    encoding: u8,
    offset: u8,
    bits: u16,
    size: u64,
    out: &mut u16,
) -> u32
    ensures { Steps (ask handle.old.held.dictionary (type_added (record {
      name = name.now;
      root = root;
      body = new.float (record { size = size; encoding = encoding; offset = offset; bits = bits });
    }))) result out.old out.new handle.old.held.dictionary handle.new.held.dictionary }
{
    let encoding = Encoding {
        encoding,
        offset,
        bits,
    };
    let body = NewBody::Scalar(ScalarKind::Float, size, encoding);
    add(alloc, handle.option_box(), name, root, body, out)
}

/// Adds a pointer to a type, where 0 stands for `void`, and gives its number.
#[unsafe(no_mangle)]
pub extern "C" fn ctfd_add_pointer(
    alloc: Global,
    handle: &mut Handle,
    name: &[u8],
    root: bool,
    to: u16,
    out: &mut u16,
) -> u32
    ensures { Steps (ask handle.old.held.dictionary
        (type_added (record { name = name.now; root = root; body = new.pointer to })))
        result out.old out.new handle.old.held.dictionary handle.new.held.dictionary }
{
    let body = NewBody::Reference(ReferenceKind::Pointer, TypeNum(to));
    add(alloc, handle.option_box(), name, root, body, out)
}

/// Adds a typedef of a type, and gives its number.
#[unsafe(no_mangle)]
pub extern "C" fn ctfd_add_typedef(
    alloc: Global,
    handle: &mut Handle,
    name: &[u8],
    root: bool,
    to: u16,
    out: &mut u16,
) -> u32
    ensures { Steps (ask handle.old.held.dictionary
        (type_added (record { name = name.now; root = root; body = new.typedef to })))
        result out.old out.new handle.old.held.dictionary handle.new.held.dictionary }
{
    let body = NewBody::Reference(ReferenceKind::Typedef, TypeNum(to));
    add(alloc, handle.option_box(), name, root, body, out)
}

/// Adds a volatile type, and gives its number.
#[unsafe(no_mangle)]
pub extern "C" fn ctfd_add_volatile(
    alloc: Global,
    handle: &mut Handle,
    name: &[u8],
    root: bool,
    to: u16,
    out: &mut u16,
) -> u32
    ensures { Steps (ask handle.old.held.dictionary
        (type_added (record { name = name.now; root = root; body = new.volatile to })))
        result out.old out.new handle.old.held.dictionary handle.new.held.dictionary }
{
    let body = NewBody::Reference(ReferenceKind::Volatile, TypeNum(to));
    add(alloc, handle.option_box(), name, root, body, out)
}

/// Adds a const type, and gives its number.
#[unsafe(no_mangle)]
pub extern "C" fn ctfd_add_const(
    alloc: Global,
    handle: &mut Handle,
    name: &[u8],
    root: bool,
    to: u16,
    out: &mut u16,
) -> u32
    ensures { Steps (ask handle.old.held.dictionary
        (type_added (record { name = name.now; root = root; body = new.const to })))
        result out.old out.new handle.old.held.dictionary handle.new.held.dictionary }
{
    let body = NewBody::Reference(ReferenceKind::Const, TypeNum(to));
    add(alloc, handle.option_box(), name, root, body, out)
}

/// Adds a restrict type, and gives its number.
#[unsafe(no_mangle)]
pub extern "C" fn ctfd_add_restrict(
    alloc: Global,
    handle: &mut Handle,
    name: &[u8],
    root: bool,
    to: u16,
    out: &mut u16,
) -> u32
    ensures { Steps (ask handle.old.held.dictionary
        (type_added (record { name = name.now; root = root; body = new.restrict to })))
        result out.old out.new handle.old.held.dictionary handle.new.held.dictionary }
{
    let body = NewBody::Reference(ReferenceKind::Restrict, TypeNum(to));
    add(alloc, handle.option_box(), name, root, body, out)
}

/// Adds an array, and gives its number.
#[unsafe(no_mangle)]
pub extern "C" fn ctfd_add_array(
    alloc: Global,
    handle: &mut Handle,
    name: &[u8],
    root: bool,
    contents: u16,
    index: u16,
    count: u32,
    out: &mut u16,
) -> u32
    ensures { Steps (ask handle.old.held.dictionary
        (type_added (record {
          name = name.now;
          root = root;
          body = new.array (record { contents = contents; index = index; count = count });
        })))
        result out.old out.new handle.old.held.dictionary handle.new.held.dictionary }
{
    let body = NewBody::Array(ArrayInfo {
        contents: TypeNum(contents),
        index: TypeNum(index),
        count,
    });
    add(alloc, handle.option_box(), name, root, body, out)
}

/// Adds a struct without members yet, and gives its number.
#[unsafe(no_mangle)]
pub extern "C" fn ctfd_add_struct(
    alloc: Global,
    handle: &mut Handle,
    name: &[u8],
    root: bool,
    size: u64,
    out: &mut u16,
) -> u32
    ensures { Steps (ask handle.old.held.dictionary
        (type_added (record { name = name.now; root = root; body = new.struct size })))
        result out.old out.new handle.old.held.dictionary handle.new.held.dictionary }
{
    let body = NewBody::Aggregate(AggregateKind::Struct, size);
    add(alloc, handle.option_box(), name, root, body, out)
}

/// Adds a union without members yet, and gives its number.
#[unsafe(no_mangle)]
pub extern "C" fn ctfd_add_union(
    alloc: Global,
    handle: &mut Handle,
    name: &[u8],
    root: bool,
    size: u64,
    out: &mut u16,
) -> u32
    ensures { Steps (ask handle.old.held.dictionary
        (type_added (record { name = name.now; root = root; body = new.union size })))
        result out.old out.new handle.old.held.dictionary handle.new.held.dictionary }
{
    let body = NewBody::Aggregate(AggregateKind::Union, size);
    add(alloc, handle.option_box(), name, root, body, out)
}

/// Adds an enum without enumerators yet, and gives its number.
#[unsafe(no_mangle)]
pub extern "C" fn ctfd_add_enum(
    alloc: Global,
    handle: &mut Handle,
    name: &[u8],
    root: bool,
    size: u64,
    out: &mut u16,
) -> u32
    ensures { Steps (ask handle.old.held.dictionary
        (type_added (record { name = name.now; root = root; body = new.enum size })))
        result out.old out.new handle.old.held.dictionary handle.new.held.dictionary }
{
    let body = NewBody::Enum(size);
    add(alloc, handle.option_box(), name, root, body, out)
}

/// Adds a type of unknown kind, and gives its number.
#[unsafe(no_mangle)]
pub extern "C" fn ctfd_add_unknown(
    alloc: Global,
    handle: &mut Handle,
    name: &[u8],
    root: bool,
    out: &mut u16,
) -> u32
    ensures { Steps (ask handle.old.held.dictionary
        (type_added (record { name = name.now; root = root; body = new.unknown })))
        result out.old out.new handle.old.held.dictionary handle.new.held.dictionary }
{
    let body = NewBody::Unknown;
    add(alloc, handle.option_box(), name, root, body, out)
}

/// Numbers of types.
fn numbers(alloc: Global, numbers: &[u16]) -> Result<Vec<TypeNum>, AllocError>
    ensures { IfOk result (λ types. map number_of types.items ≡ numbers.now) }
{
    let mut types = Vec::with_capacity(alloc, numbers.len())?;
    for number in numbers {
        types.push_reserved(TypeNum(*number));
    }
    Ok(types)
}

/// Adds a function, with the type that it returns and those of its arguments, and gives its number.
/// A last argument 0 says that more may follow.
#[unsafe(no_mangle)]
pub extern "C" fn ctfd_add_function(
    alloc: Global,
    handle: &mut Handle,
    name: &[u8],
    root: bool,
    ret: u16,
    args: &[u16],
    out: &mut u16,
) -> u32
    ensures { Steps (ask handle.old.held.dictionary
        (type_added (record { name = name.now; root = root; body = new.function ret args.now })))
        result out.old out.new handle.old.held.dictionary handle.new.held.dictionary }
{
    match numbers(alloc, args) {
        Ok(args) => {
            let body = NewBody::Function(TypeNum(ret), args.as_slice());
            add(alloc, handle.option_box(), name, root, body, out)
        }
        Err(error) => status(Fault::from(error)),
    }
}

/// The tag with a number: 6 for a struct, 7 for a union, 8 for an enum.
fn tag_of(number: u32) -> Option<Tag>
    ensures { option_map tag_shown result ≡ tag_numbered number }
{
    match number {
        6 => Some(Tag::Struct),
        7 => Some(Tag::Union),
        8 => Some(Tag::Enum),
        _ => None,
    }
}

/// Adds a forward, and gives its number. The tag says what it declares: 6 for a struct, 7 for a
/// union, 8 for an enum.
#[unsafe(no_mangle)]
pub extern "C" fn ctfd_add_forward(
    alloc: Global,
    handle: &mut Handle,
    name: &[u8],
    root: bool,
    tag: u32,
    out: &mut u16,
) -> u32
    ensures { Steps (forward_asked name.now root (tag_numbered tag) handle.old.held.dictionary)
        result out.old out.new handle.old.held.dictionary handle.new.held.dictionary }
{
    match tag_of(tag) {
        Some(tag) => {
            let body = NewBody::Forward(tag);
            add(alloc, handle.option_box(), name, root, body, out)
        }
        None => status(placeless(Fault::WRONG_KIND)),
    }
}

/// A number, if the caller gives one.
fn number_if(there: bool, number: u64) -> Option<u64>
    ensures { result ≡ number_there there number }
{
    if there { Some(number) } else { None }
}

/// Adds a member to a struct or union that was added since the last update, and gives its offset in
/// bits. If none is stated, it follows the last member.
#[unsafe(no_mangle)]
pub extern "C" fn ctfd_add_member(
    alloc: Global,
    handle: &mut Handle,
    t: u16,
    name: &[u8],
    tnum: u16,
    has_offset: bool,
    offset: u64,
    out: &mut u64,
) -> u32
    ensures { Steps (ask handle.old.held.dictionary
        (member_added t name.now tnum (number_there has_offset offset)))
        result out.old out.new handle.old.held.dictionary handle.new.held.dictionary }
{
    let offset = number_if(has_offset, offset);
    let part = Part::Member(TypeNum(t), name, TypeNum(tnum), offset);
    add_part(alloc, handle.option_box(), part, out)
}

/// Adds a member to a struct or union that was added since the last update, at an offset in bits,
/// and sets the size of the struct or union in bytes.
#[unsafe(no_mangle)]
pub extern "C" fn ctfd_add_member_at(
    alloc: Global,
    handle: &mut Handle,
    t: u16,
    name: &[u8],
    tnum: u16,
    offset: u64,
    size: u64,
) -> u32
    ensures { Adds (ask handle.old.held.dictionary
        (member_added_at t (record { name = name.now; tnum = tnum; offset = offset }) size))
        result handle.old.held.dictionary handle.new.held.dictionary }
{
    let mut none = 0;
    let part = Part::MemberAt(TypeNum(t), name, TypeNum(tnum), offset, size);
    add_part(alloc, handle.option_box(), part, &mut none)
}

/// Adds an enumerator to an enum that was added since the last update.
#[unsafe(no_mangle)]
pub extern "C" fn ctfd_add_enumerator(
    alloc: Global,
    handle: &mut Handle,
    t: u16,
    name: &[u8],
    value: i32,
) -> u32
    ensures { Adds (ask handle.old.held.dictionary
        (enumerator_added t (record { name = name.now; value = value })))
        result handle.old.held.dictionary handle.new.held.dictionary }
{
    let mut none = 0;
    let part = Part::Enumerator(TypeNum(t), name, value);
    add_part(alloc, handle.option_box(), part, &mut none)
}

/// Adds a label, with the last type that it covers.
#[unsafe(no_mangle)]
pub extern "C" fn ctfd_add_label(alloc: Global, handle: &mut Handle, name: &[u8], last: u32) -> u32
    ensures { Adds (ask handle.old.held.dictionary
        (label_added (record { name = name.now; last = last })))
        result handle.old.held.dictionary handle.new.held.dictionary }
{
    let mut none = 0;
    let part = Part::Label(name, last);
    add_part(alloc, handle.option_box(), part, &mut none)
}
