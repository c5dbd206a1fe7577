//! Reads additions to a draft.
ghost use Rattle.std.specs.Prelude.{◌≡◌, ◌≢◌, IfOk, Some, codes, option_and_then, option_map};
ghost use Rattle.ctf_json.specs.Values.{line_data as view, number_data, numbers_data};
ghost use Rattle.ctf_protocol.specs.lines.LineFields.{text_in, type_under as type_asked_under};
ghost use Rattle.ctf_protocol.specs.lines.AskAdditions.{addition_asked, addition_with as addition_asked_with, declared_named, kind_with, new_array_asked, new_enumerator_asked, new_function_asked, new_label_asked, new_member_asked, new_type_asked, offset_asked, root_asked, scalar_asked, size_or as size_or_asked, type_listed as type_listed_by, types_listed as types_listed_by, value_asked_for};
ghost use Rattle.ctf_protocol.specs.words.Addables.{addable_named};
ghost use Rattle.ctf_protocol.specs.declared.addables.Addable.TheVariants as adds;
ghost use Rattle.ctf_protocol.specs.declared.additions.Addition.TheVariants as added;

use crate::drafts::name_or_empty;
use crate::field_values::{number, number_within, text, type_number};
use ctf_json::{Line, as_bool, as_i64, get, take_args};
use ctf_protocol::{
    Addable, Addition, Declared, NewArray, NewKind, NewScalar, Piece, TypeNum, TypeNums,
};
use std::alloc::{AllocError, Global};

/// The type number under a key.
#[inline(always)]
fn type_under(line: &Line<'_>, key: &str) -> Option<TypeNum>
    ensures { result ≡ type_asked_under key.now (view line.now) }
{
    let number = number(line, key, 0, u64::from(u16::MAX))?;
    Some(TypeNum(number as u16))
}

/// A size in bytes; this default if it is not stated.
fn size_or(line: &Line<'_>, size: u64) -> Option<u64>
    ensures { result ≡ size_or_asked size (view line.now) }
{
    match get(line, "size") {
        Some(size) => number_within(&size, 0, u64::MAX),
        None => Some(size),
    }
}

fn scalar(line: &Line<'_>) -> Option<NewScalar>
    ensures { result ≡ scalar_asked (view line.now) }
{
    let size = number(line, "size", 0, u64::MAX)?;
    let encoding = number(line, "encoding", 0, u64::from(u8::MAX))?;
    let offset = number(line, "offset", 0, u64::from(u8::MAX))?;
    let bits = number(line, "bits", 0, u64::from(u16::MAX))?;
    Some(NewScalar {
        size,
        encoding: encoding as u8,
        offset: offset as u8,
        bits: bits as u16,
    })
}

fn array(line: &Line<'_>) -> Option<NewArray>
    ensures { result ≡ new_array_asked (view line.now) }
{
    let contents = type_under(line, "contents")?;
    let index = type_under(line, "index")?;
    let count = number(line, "count", 0, u64::from(u32::MAX))?;
    Some(NewArray {
        contents,
        index,
        count: count as u32,
    })
}

/// A 16-bit number is that of a type.
#[inline(always)]
fn is_listed(number: TypeNum)
    ensures { Some number ≡ type_listed_by (number_data number) }
{}

/// 16-bit numbers are those of types. This compiles to nothing.
fn are_listed(numbers: &[TypeNum])
    ensures { types_listed_by (numbers_data numbers.now) ≡ Some numbers.now }
{
    for number in numbers {
        is_listed(*number);
    }
}

/// The types with these numbers.
fn types_listed(numbers: Vec<TypeNum>) -> TypeNums
    ensures { types_listed_by (numbers_data numbers.items) ≡ Some result }
{
    are_listed(numbers.as_slice());
    TypeNums::new(numbers)
}

/// A function that returns a type, with the types of its arguments, which are taken out of the
/// line.
fn function(line: &mut Line<'_>) -> Option<NewKind>
    ensures { result ≡ new_function_asked (view line.old) }
{
    let returned = type_under(line, "type")?;
    let args = take_args(line)?;
    Some(NewKind::Function(returned, types_listed(args)))
}

/// What a forward declares.
fn declared_sort(line: &Line<'_>) -> Option<Declared>
    ensures { result ≡ option_and_then declared_named (text_in (codes "tag") (view line.now)) }
{
    match text(line, "tag")? {
        "struct" => Some(Declared::Struct),
        "union" => Some(Declared::Union),
        "enum" => Some(Declared::Enum),
        _ => None,
    }
}

/// Whether look-ups find a type; true if it is not stated.
fn root(line: &Line<'_>) -> Option<bool>
    ensures { result ≡ root_asked (view line.now) }
{
    match get(line, "root") {
        Some(root) => as_bool(&root),
        None => Some(true),
    }
}

/// A new type of a kind, with its name and whether look-ups find it, if all three are valid.
fn named_type(kind: Option<NewKind>, name: Option<Piece>, root: Option<bool>) -> Option<Addition>
    ensures { result ≡ option_and_then (λ kind. option_and_then (λ name. option_map (λ root.
        added.Type name root kind) root) name) kind }
{
    let kind = kind?;
    let name = name?;
    let root = root?;
    Some(Addition::Type { name, root, kind })
}

/// A new type of a kind, if its own fields are valid.
fn new_type(
    alloc: Global,
    line: &Line<'_>,
    kind: Option<NewKind>,
) -> Result<Option<Addition>, AllocError>
    ensures { IfOk result (λ addition. addition ≡ new_type_asked kind (view line.now)) }
{
    let name = name_or_empty(alloc, line, "name")?;
    Ok(named_type(kind, name, root(line)))
}

/// A new function, whose arguments are taken out of the line.
fn new_function(alloc: Global, line: &mut Line<'_>) -> Result<Option<Addition>, AllocError>
    ensures { IfOk result (λ addition. addition
        ≡ new_type_asked (new_function_asked (view line.old)) (view line.old)) }
{
    let name = name_or_empty(alloc, line, "name")?;
    let root = root(line);
    Ok(named_type(function(line), name, root))
}

/// An offset in bits, if it is stated.
fn offset(line: &Line<'_>) -> Option<Option<u64>>
    ensures { result ≡ offset_asked (view line.now) }
{
    match get(line, "offset") {
        Some(offset) => Some(Some(number_within(&offset, 0, u64::MAX)?)),
        None => Some(None),
    }
}

fn member(alloc: Global, line: &Line<'_>) -> Result<Option<Addition>, AllocError>
    ensures { IfOk result (λ addition. addition ≡ new_member_asked (view line.now)) }
{
    let Some(t) = type_number(line) else {
        return Ok(None);
    };
    let Some(name) = name_or_empty(alloc, line, "name")? else {
        return Ok(None);
    };
    let Some(tnum) = type_under(line, "type") else {
        return Ok(None);
    };
    match offset(line) {
        Some(offset) => Ok(Some(Addition::Member {
            t,
            name,
            tnum,
            offset,
        })),
        None => Ok(None),
    }
}

/// The value of an enumerator.
fn signed_value(line: &Line<'_>) -> Option<i32>
    ensures { result ≡ value_asked_for (view line.now) }
{
    let number = as_i64(&get(line, "value")?)?;
    i32::try_from(number).ok()
}

fn enumerator(alloc: Global, line: &Line<'_>) -> Result<Option<Addition>, AllocError>
    ensures { IfOk result (λ addition. addition ≡ new_enumerator_asked (view line.now)) }
{
    let Some(t) = type_number(line) else {
        return Ok(None);
    };
    let Some(name) = name_or_empty(alloc, line, "name")? else {
        return Ok(None);
    };
    match signed_value(line) {
        Some(value) => Ok(Some(Addition::Enumerator { t, name, value })),
        None => Ok(None),
    }
}

fn label(alloc: Global, line: &Line<'_>) -> Result<Option<Addition>, AllocError>
    ensures { IfOk result (λ addition. addition ≡ new_label_asked (view line.now)) }
{
    let Some(name) = name_or_empty(alloc, line, "name")? else {
        return Ok(None);
    };
    match number(line, "last", 0, u64::from(u32::MAX)) {
        Some(last) => Ok(Some(Addition::Label {
            name,
            last: last as u32,
        })),
        None => Ok(None),
    }
}

/// The kind of a new type that isn't a function, with its fields.
fn kind(line: &Line<'_>, what: Addable) -> Option<NewKind>
    ensures { what ≢ adds.Function → result ≡ kind_with (view line.now) what }
{
    match what {
        Addable::Unknown => Some(NewKind::Unknown),
        Addable::Integer => Some(NewKind::Integer(scalar(line)?)),
        Addable::Float => Some(NewKind::Float(scalar(line)?)),
        Addable::Pointer => Some(NewKind::Pointer(type_under(line, "type")?)),
        Addable::Array => Some(NewKind::Array(array(line)?)),
        Addable::Struct => Some(NewKind::Struct(size_or(line, 0)?)),
        Addable::Union => Some(NewKind::Union(size_or(line, 0)?)),
        Addable::Enum => Some(NewKind::Enum(size_or(line, 4)?)),
        Addable::Forward => Some(NewKind::Forward(declared_sort(line)?)),
        Addable::Typedef => Some(NewKind::Typedef(type_under(line, "type")?)),
        Addable::Volatile => Some(NewKind::Volatile(type_under(line, "type")?)),
        Addable::Const => Some(NewKind::Const(type_under(line, "type")?)),
        Addable::Restrict => Some(NewKind::Restrict(type_under(line, "type")?)),
        _ => None,
    }
}

/// An addition, with its fields.
fn addition_with(
    alloc: Global,
    line: &mut Line<'_>,
    what: Addable,
) -> Result<Option<Addition>, AllocError>
    ensures { IfOk result (λ addition. addition ≡ addition_asked_with (view line.old) what) }
{
    match what {
        Addable::Member => member(alloc, line),
        Addable::Enumerator => enumerator(alloc, line),
        Addable::Label => label(alloc, line),
        Addable::Function => new_function(alloc, line),
        _ => new_type(alloc, line, kind(line, what)),
    }
}

/// What a word of a request adds, if it adds something. Members are the most frequent.
fn addable(word: &str) -> Option<Addable>
    ensures { result ≡ addable_named word.now }
{
    match word {
        "member" => Some(Addable::Member),
        _ => Addable::of_word(word),
    }
}

/// What a line adds to a draft.
pub(crate) fn addition(alloc: Global, line: &mut Line<'_>) -> Result<Option<Addition>, AllocError>
    ensures { IfOk result (λ addition. addition ≡ addition_asked (view line.old)) }
{
    let Some(word) = text(line, "what") else {
        return Ok(None);
    };
    match addable(word) {
        Some(what) => addition_with(alloc, line, what),
        None => Ok(None),
    }
}
