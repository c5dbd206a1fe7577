//! What is inside of a type's name: the next layer and the type that it goes around, or a name.
ghost use Rattle.std.specs.Prelude.{◌≡◌, ◌+◌, ◌≤◌, ◌++◌, length, min, option_map, vec_len, vec_capacity};
ghost use Rattle.ctf_check.specs.FactsView.{shape_view};
ghost use Rattle.ctf_model.specs.names.KindNames.{name_of_tag};
ghost use Rattle.ctf_model.specs.format.Shown.{array_in};
ghost use Rattle.ctf_model.specs.names.TypeNames.{or_anon as named};
ghost use Rattle.ctf_names.specs.Bases.{base_text};
ghost use Rattle.ctf_names.specs.Inside.{inside as inside_of, layer_round, of_array};
ghost use Rattle.ctf_names.specs.Layered.{inside_view};
ghost use Rattle.ctf_records.specs.RecordView.{tag_of};
ghost use Rattle.ctf_views.specs.VariantView.{shown_of};

use crate::texts::{TOO_LONG, plus, put};
use ctf_check::Shape;
use ctf_model::{Kind, Layer, Qualifier, TypeNum};
use ctf_records::Tag;
use ctf_views::Variant;

/// What a type adds to its own name.
#[derive(Clone, Copy)]
pub enum Inside {
    /// A name, after `struct`, `union` or `enum` if it has a tag.
    Name(Option<Tag>),
    /// A layer around another type.
    Layer(Layer, TypeNum),
}

/// A layer around the type that a head refers to.
fn round(layer: Layer, reference: Option<TypeNum>) -> Inside
    ensures { inside_view result ≡ layer_round layer (option_map (λ t. t.0) reference) }
{
    match reference {
        Some(number) => Inside::Layer(layer, number),
        None => Inside::Name(None),
    }
}

fn array(behind: &Variant<'_>) -> Inside
    ensures { inside_view result ≡ of_array (array_in (shown_of behind.now)) }
{
    match behind {
        Variant::Array(parts) => Inside::Layer(Layer::Array(parts.count), parts.contents),
        _ => Inside::Name(None),
    }
}

/// What a type adds to its own name, by its shape.
pub fn found_inside(x: &Shape<'_>) -> Inside
    ensures { inside_view result ≡ inside_of (shape_view x.now) }
{
    match x.kind {
        Kind::KUnknown | Kind::KInteger | Kind::KFloat | Kind::KTypedef => Inside::Name(None),
        Kind::KStruct => Inside::Name(Some(Tag::Struct)),
        Kind::KUnion => Inside::Name(Some(Tag::Union)),
        Kind::KEnum => Inside::Name(Some(Tag::Enum)),
        Kind::KForward => Inside::Name(x.declares),
        Kind::KPointer => round(Layer::Pointer, x.reference),
        Kind::KArray => array(&x.behind),
        Kind::KFunction => round(Layer::Function, x.reference),
        Kind::KVolatile => round(Layer::Qualified(Qualifier::Volatile), x.reference),
        Kind::KConst => round(Layer::Qualified(Qualifier::Const), x.reference),
        Kind::KRestrict => round(Layer::Qualified(Qualifier::Restrict), x.reference),
    }
}

/// The name inside of all layers, after `struct`, `union` or `enum` if it has a tag.
#[derive(Clone, Copy)]
pub struct Base<'a> {
    pub tag: Option<Tag>,
    pub name: &'a [u8],
}

/// A name, or the text in place of an empty one.
pub fn or_anon(name: &[u8]) -> &[u8]
    ensures { result.now ≡ named name.now }
{
    if name.is_empty() { b"(anon)" } else { name }
}

fn tag_word(tag: Tag) -> &'static str
    ensures { result.now ≡ name_of_tag (tag_of tag) }
{
    match tag {
        Tag::Struct => "struct",
        Tag::Union => "union",
        Tag::Enum => "enum",
    }
}

/// A length plus that of a base.
pub fn plus_base(len: usize, base: Base<'_>) -> usize
    ensures { result ≡ min (len + length (base_text base.entry)) TOO_LONG }
{
    match base.tag {
        Some(tag) => plus(plus(plus(len, tag_word(tag).len()), 1), base.name.len()),
        None => plus(len, base.name.len()),
    }
}

/// Appends a base, for which there is room.
pub fn put_base(out: &mut Vec<u8>, base: Base<'_>)
    requires { vec_len out.old + length (base_text base) ≤ vec_capacity out.old }
    ensures items { out.new.items ≡ out.old.items ++ base_text base.entry }
    ensures len { vec_len out.new ≡ vec_len out.old + length (base_text base.entry) }
    ensures capacity { vec_capacity out.new ≡ vec_capacity out.old }
{
    if let Some(tag) = base.tag {
        put(out, tag_word(tag).as_bytes());
        put(out, b" ");
    }
    put(out, base.name);
}
