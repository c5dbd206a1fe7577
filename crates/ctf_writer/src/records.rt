//! The records of types.
ghost use Rattle.std.specs.Prelude.{◌≡◌, ◌+◌, ◌≤◌, ◌++◌, length, vec_len, vec_capacity};
ghost use Rattle.std.specs.List.{AllByRecursion};
ghost use Rattle.ctf_draft.specs.TypeView.{body_of, scalar_of, type_of};
ghost use Rattle.ctf_model.specs.drafts.Fitting.{Fits, FitsBody};
ghost use Rattle.ctf_model.specs.format.Shown.{array_parts, kind_of};
ghost use Rattle.ctf_model.specs.writing.WritingLaws.{IsKept};
ghost use Rattle.ctf_model.specs.writing.WrittenNames.{listed_names, names_of};
ghost use Rattle.ctf_model.specs.writing.WrittenRecords.{element_bytes, field_of, info_of, list_len, number_of_kind, record_bytes, scalar_bytes, tag_number as tag_number_of, variant_bytes};
ghost use Rattle.ctf_records.specs.RecordView.{tag_of};
ghost use Rattle.ctf_writer.specs.Tables.{names, used};

use crate::items::{put_arguments, put_enumerators, put_members};
use crate::numbers::{put_field, put_u16, put_u32};
use crate::strings::Strings;
use ctf_draft::{AggregateKind, Body, DraftType, ReferenceKind, ScalarKind};
use ctf_records::Tag;
use ctf_views::{ArrayInfo, Encoding};

// ---- the head

/// The number of a type's kind.
fn kind_number(body: &Body) -> u16
    ensures exact { result ≡ number_of_kind (kind_of (body_of body.now)) }
    ensures small { result ≤ 13 }
{
    match body {
        Body::Unknown => 0,
        Body::Scalar(ScalarKind::Integer, _, _) => 1,
        Body::Scalar(ScalarKind::Float, _, _) => 2,
        Body::Reference(ReferenceKind::Pointer, _) => 3,
        Body::Array(_) => 4,
        Body::Function(_, _) => 5,
        Body::Aggregate(AggregateKind::Struct, _, _) => 6,
        Body::Aggregate(AggregateKind::Union, _, _) => 7,
        Body::Enum(_, _) => 8,
        Body::Forward(_) => 9,
        Body::Reference(ReferenceKind::Typedef, _) => 10,
        Body::Reference(ReferenceKind::Volatile, _) => 11,
        Body::Reference(ReferenceKind::Const, _) => 12,
        Body::Reference(ReferenceKind::Restrict, _) => 13,
    }
}

/// How many members, enumerators or arguments a type has.
fn list_count(body: &Body) -> usize
    ensures { result ≡ list_len (body_of body.now) }
{
    match body {
        Body::Function(_, arguments) => arguments.len(),
        Body::Aggregate(_, _, members) => members.len(),
        Body::Enum(_, enumerators) => enumerators.len(),
        _ => 0,
    }
}

/// Kind, root flag and length of the list of a type, packed.
fn info(source: &DraftType) -> u16
    requires { Fits (type_of source.now) }
    ensures { result ≡ info_of (type_of source.now) }
{
    let root = if source.root { 1024 } else { 0 };
    kind_number(&source.body) * 2048 + root + list_count(&source.body) as u16
}

/// The number of the kind that a forward declares.
fn tag_number(tag: Tag) -> u64
    ensures { result ≡ tag_number_of (tag_of tag) }
{
    match tag {
        Tag::Struct => 6,
        Tag::Union => 7,
        Tag::Enum => 8,
    }
}

/// The number in the field of a type's record.
pub(crate) fn field(body: &Body) -> u64
    ensures { result ≡ field_of (body_of body.now) }
{
    match body {
        Body::Unknown | Body::Array(_) => 0,
        Body::Scalar(_, size, _) => *size,
        Body::Reference(_, tnum) => u64::from(tnum.0),
        Body::Function(returned, _) => u64::from(returned.0),
        Body::Aggregate(_, size, _) => *size,
        Body::Enum(size, _) => *size,
        Body::Forward(tag) => tag_number(*tag),
    }
}

// ---- behind the head

fn put_scalar(out: &mut Vec<u8>, size: u64, encoding: Encoding)
    requires { vec_len out.old + 4 ≤ vec_capacity out.old }
    ensures items { out.new.items ≡ out.old.items ++ scalar_bytes (scalar_of size encoding) }
    ensures len { vec_len out.new ≡ vec_len out.old + 4 }
    ensures capacity { vec_capacity out.new ≡ vec_capacity out.old }
{
    let word = u32::from(encoding.encoding) * 0x100_0000
        + u32::from(encoding.offset) * 0x1_0000
        + u32::from(encoding.bits);
    put_u32(out, word);
}

fn put_array(out: &mut Vec<u8>, array: ArrayInfo)
    requires { vec_len out.old + 8 ≤ vec_capacity out.old }
    ensures items { out.new.items ≡ out.old.items ++ element_bytes (record {
      size = 0;
      contents = array.contents.0;
      index = array.index.0;
      count = array.count;
    }) }
    ensures len { vec_len out.new ≡ vec_len out.old + 8 }
    ensures capacity { vec_capacity out.new ≡ vec_capacity out.old }
{
    put_u16(out, array.contents.0);
    put_u16(out, array.index.0);
    put_u32(out, array.count);
}

/// Appends what follows the head of a type's record.
fn put_variant(out: &mut Vec<u8>, strings: &Strings<'_>, body: &Body)
    requires room { vec_len out.old
        + length (variant_bytes (names strings.now) (body_of body.now)) ≤ vec_capacity out.old }
    requires fits { FitsBody (body_of body.now) }
    requires kept { AllByRecursion (IsKept (used strings.now)) (listed_names (body_of body.now)) }
    ensures items { out.new.items
        ≡ out.old.items ++ variant_bytes (names strings.now) (body_of body.now) }
    ensures len { vec_len out.new
        ≡ vec_len out.old + length (variant_bytes (names strings.now) (body_of body.now)) }
    ensures capacity { vec_capacity out.new ≡ vec_capacity out.old }
{
    match body {
        Body::Unknown | Body::Reference(_, _) | Body::Forward(_) => {}
        Body::Scalar(_, size, encoding) => put_scalar(out, *size, *encoding),
        Body::Array(array) => put_array(out, *array),
        Body::Function(_, arguments) => put_arguments(out, arguments.as_slice()),
        Body::Aggregate(_, size, members) => {
            put_members(out, strings, *size, members.as_slice())
        }
        Body::Enum(_, enumerators) => put_enumerators(out, strings, enumerators.as_slice()),
    }
}

// ---- the record

/// Appends the record of a type.
pub(crate) fn put_record(out: &mut Vec<u8>, strings: &Strings<'_>, source: &DraftType)
    requires room { vec_len out.old + length (record_bytes (names strings.now) (type_of source.now))
        ≤ vec_capacity out.old }
    requires fits { Fits (type_of source.now) }
    requires kept { AllByRecursion (IsKept (used strings.now)) (names_of (type_of source.now)) }
    ensures items { out.new.items
        ≡ out.old.items ++ record_bytes (names strings.now) (type_of source.now) }
    ensures len { vec_len out.new
        ≡ vec_len out.old + length (record_bytes (names strings.now) (type_of source.now)) }
    ensures capacity { vec_capacity out.new ≡ vec_capacity out.old }
{
    put_u32(out, strings.reference(source.name.as_slice()));
    put_u16(out, info(source));
    put_field(out, field(&source.body));
    put_variant(out, strings, &source.body);
}
