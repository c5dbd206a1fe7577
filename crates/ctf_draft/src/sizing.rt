//! What sizes and alignments depend on.
ghost use Rattle.std.specs.Prelude.{◌≡◌, ◌<◌, ℕ, MatchOption, Result, length, map, option_map, slice_index};
ghost use Rattle.ctf_draft.specs.Sizing.{aligned_by, own_align, alias_target, size_from, width};
ghost use Rattle.ctf_draft.specs.TypeView.{body_of, member_of};
ghost use Rattle.ctf_model.specs.rules.Chains.{by_value};
ghost use Rattle.ctf_model.specs.figures.Figures.{align_body, first_of as first_in, greater as greater_of, size_body, times};
ghost use Rattle.ctf_model.specs.spaces.Space.{pointer_size as pointer_size_of};
ghost use Rattle.ctf_model.specs.declared.faults.Fault.{Fault};

use crate::types::{AggregateKind, Body, Member, ReferenceKind};
use ctf_model::{DataModel, Fault, TypeNum, placeless};

/// What the size of a type depends on.
#[derive(Clone, Copy)]
pub(crate) enum Sizing {
    /// On no other type.
    Itself(Result<u64, Fault>),
    /// On that of one type.
    One(TypeNum),
    /// On that of a type that is repeated so many times.
    Row(u32, TypeNum),
}

fn pointer_size(model: DataModel) -> u64
    ensures { result ≡ pointer_size_of model }
{
    match model {
        DataModel::Lp64 => 8,
        DataModel::Ilp32 => 4,
    }
}

/// The size of so many elements.
pub(crate) fn repeated_size(count: u32, size: Result<u64, Fault>) -> Result<u64, Fault>
    ensures { result ≡ times count size }
{
    let size = size?;
    size.checked_mul(u64::from(count))
        .ok_or(placeless(Fault::TOO_BIG))
}

/// The greater of two sizes, or the first fault.
#[inline(always)]
pub(crate) fn greater(a: Result<u64, Fault>, b: Result<u64, Fault>) -> Result<u64, Fault>
    ensures { result ≡ greater_of a b }
{
    match (a, b) {
        (Ok(m), Ok(n)) => Ok(m.max(n)),
        (Ok(_), Err(fault)) => Err(fault),
        (Err(fault), _) => Err(fault),
    }
}

/// What the alignment of a struct depends on: the type of its first member, if it has one.
fn first_of(members: &Vec<Member>) -> Sizing
    ensures { (f : ℕ → Result ℕ Fault) → first_in f (map member_of members.now.items)
        ≡ size_from f result }
{
    match members.as_slice() {
        [] => Sizing::Itself(Ok(0)),
        [first, ..] => Sizing::One(first.tnum),
    }
}

impl Body {
    /// What its size depends on.
    pub(crate) fn sizing(&self, model: DataModel) -> Sizing
        ensures { (f : ℕ → Result ℕ Fault) → size_body model f (body_of self.now)
            ≡ size_from f result }
    {
        match self {
            Body::Scalar(_, size, _) => Sizing::Itself(Ok(*size)),
            Body::Reference(ReferenceKind::Pointer, _) => Sizing::Itself(Ok(pointer_size(model))),
            Body::Reference(_, tnum) => Sizing::One(*tnum),
            Body::Array(info) => Sizing::Row(info.count, info.contents),
            Body::Function(_, _) => Sizing::Itself(Ok(0)),
            Body::Aggregate(_, size, _) => Sizing::Itself(Ok(*size)),
            Body::Enum(size, _) => Sizing::Itself(Ok(if *size > 0 { *size } else { 4 })),
            Body::Forward(_) | Body::Unknown => {
                Sizing::Itself(Err(placeless(Fault::INCOMPLETE)))
            }
        }
    }

    /// What its alignment depends on, unless that is more than one type.
    pub(crate) fn aligning(&self, model: DataModel) -> Option<Sizing>
        ensures { MatchOption result (Unit {0}) (λ s. (f : ℕ → Result ℕ Fault)
            → align_body model f (body_of self.now) ≡ size_from f s) }
    {
        match self {
            Body::Reference(ReferenceKind::Pointer, _) => {
                Some(Sizing::Itself(Ok(pointer_size(model))))
            }
            Body::Reference(_, tnum) => Some(Sizing::One(*tnum)),
            Body::Array(info) => Some(Sizing::One(info.contents)),
            Body::Aggregate(AggregateKind::Struct, _, members) => Some(first_of(members)),
            Body::Aggregate(AggregateKind::Union, _, _) => None,
            _ => Some(Sizing::Itself(self.own_align(model))),
        }
    }

    /// The type that a typedef or a qualifier refers to.
    pub(crate) fn alias_target(&self) -> Option<TypeNum>
        ensures { option_map (λ t. t.0) result ≡ alias_target (body_of self.now) }
    {
        match self {
            Body::Reference(ReferenceKind::Pointer, _) => None,
            Body::Reference(_, tnum) => Some(*tnum),
            _ => None,
        }
    }

    /// The width of an integer or a float, in bits.
    pub(crate) fn width(&self) -> Option<u16>
        ensures { result ≡ width (body_of self.now) }
    {
        match self {
            Body::Scalar(_, _, encoding) => Some(encoding.bits),
            _ => None,
        }
    }

    /// How many types it leads to by value, each counted as often as it names them.
    #[inline(always)]
    pub(crate) fn value_count(&self) -> usize
        ensures { result ≡ length (by_value (body_of self.now)) }
    {
        match self {
            Body::Reference(ReferenceKind::Pointer, _) => 0,
            Body::Reference(_, _) | Body::Array(_) => 1,
            Body::Aggregate(_, _, members) => members.len(),
            _ => 0,
        }
    }

    /// One of the types that it leads to by value.
    #[inline(always)]
    pub(crate) fn value_type(&self, k: usize) -> TypeNum
        requires { k < length (by_value (body_of self.now)) }
        ensures { result.0 ≡ slice_index (by_value (body_of self.now)) k }
    {
        match self {
            Body::Reference(_, tnum) => *tnum,
            Body::Array(info) => info.contents,
            Body::Aggregate(_, _, members) => members[k].tnum,
            _ => TypeNum(0),
        }
    }

    /// Its alignment, apart from the types that this depends on.
    pub(crate) fn own_align(&self, model: DataModel) -> Result<u64, Fault>
        ensures { result ≡ own_align model (body_of self.now) }
    {
        match self {
            Body::Scalar(_, size, _) => Ok(*size),
            Body::Reference(ReferenceKind::Pointer, _) => Ok(pointer_size(model)),
            Body::Function(_, _) => Ok(pointer_size(model)),
            Body::Enum(size, _) => Ok(if *size > 0 { *size } else { 4 }),
            Body::Forward(_) | Body::Unknown => Err(placeless(Fault::INCOMPLETE)),
            Body::Reference(_, _) | Body::Array(_) | Body::Aggregate(_, _, _) => Ok(0),
        }
    }

    /// How many of the types that it leads to by value its alignment depends on.
    pub(crate) fn aligned_by(&self) -> usize
        ensures { result ≡ aligned_by (body_of self.now) }
    {
        match self {
            Body::Aggregate(AggregateKind::Struct, _, members) => members.len().min(1),
            _ => self.value_count(),
        }
    }
}
