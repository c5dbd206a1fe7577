//! Types as they are added to a draft, without members or enumerators.
ghost use Rattle.std.specs.Prelude.{◌≡◌, [], IfOk};
ghost use Rattle.ctf_draft.specs.NewView.{new_body_of, new_of};
ghost use Rattle.ctf_draft.specs.NamesInUseView.{names_in};
ghost use Rattle.ctf_draft.specs.TypeView.{body_of, type_of};
ghost use Rattle.ctf_model.specs.drafts.Fitting.{FitsNew};
ghost use Rattle.ctf_model.specs.drafts.NewTypes.{new_body, new_term};

use crate::names::Name;
use crate::names_in_use::NamesInUse;
use crate::types::{AggregateKind, Body, DraftType, ReferenceKind, ScalarKind};
use ctf_model::TypeNum;
use ctf_records::Tag;
use ctf_views::{ArrayInfo, Encoding};
use std::alloc::{AllocError, Global};

/// The body of a new type, by its kind. Sizes are in bytes. Arguments are borrowed: they are copied
/// once the type is accepted.
#[derive(Clone, Copy, Drop)]
pub enum NewBody<'a> {
    Unknown,
    Scalar(ScalarKind, u64, Encoding),
    Reference(ReferenceKind, TypeNum),
    Array(ArrayInfo),
    /// What it returns, and its arguments.
    Function(TypeNum, &'a [TypeNum]),
    /// Its size until members make it greater.
    Aggregate(AggregateKind, u64),
    Enum(u64),
    Forward(Tag),
}

/// A new type.
#[derive(Drop)]
pub struct NewType<'a> {
    pub name: Name,
    pub root: bool,
    pub body: NewBody<'a>,
}

/// The body of a new type after it is added: its lists of members and enumerators are empty.
fn body_from(alloc: Global, new: NewBody<'_>) -> Result<Body, AllocError>
    ensures made { IfOk result (λ body. body_of body ≡ new_body (new_body_of new.entry)) }
    ensures bare { IfOk result (λ body. names_in body ≡ []) }
    ensures fits { FitsNew (new_body_of new.entry) }
{
    let body = match new {
        NewBody::Unknown => Body::Unknown,
        NewBody::Scalar(kind, size, encoding) => Body::Scalar(kind, size, encoding),
        NewBody::Reference(kind, tnum) => Body::Reference(kind, tnum),
        NewBody::Array(info) => Body::Array(info),
        NewBody::Function(returned, arguments) => {
            Body::Function(returned, Vec::from_slice(alloc, arguments)?)
        }
        NewBody::Aggregate(kind, size) => Body::Aggregate(kind, size, Vec::new(alloc)),
        NewBody::Enum(size) => Body::Enum(size, Vec::new(alloc)),
        NewBody::Forward(tag) => Body::Forward(tag),
    };
    Ok(body)
}

/// The type that a new type makes.
pub(crate) fn draft_type(alloc: Global, new: NewType<'_>) -> Result<DraftType, AllocError>
    ensures made { IfOk result (λ t. type_of t ≡ new_term (new_of new.entry)) }
    ensures fits { FitsNew (new_body_of new.entry.body) }
{
    let NewType { name, root, body } = new;
    let body = body_from(alloc, body)?;
    let taken = NamesInUse::new(alloc);
    Ok(DraftType {
        name,
        root,
        body,
        taken,
    })
}
