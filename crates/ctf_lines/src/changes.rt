//! Reads requests that change a session.
ghost use Rattle.std.specs.Prelude.{◌≡◌, IfOk};
ghost use Rattle.ctf_json.specs.Values.{line_data as view};
ghost use Rattle.ctf_protocol.specs.lines.Ask.{open_asked, list_named, close_asked, import_asked, publication_asked, publish_asked, take_asked, withdraw_asked, part_asked};

use crate::field_values::{number, slot, slot_under, text};
use crate::models::model;
use crate::spelling::piece;
use ctf_json::Line;
use ctf_protocol::{Change, DataModel, ListName, PublicationName, Request};
use std::alloc::{AllocError, Global};

pub(crate) fn open(line: &Line<'_>) -> Option<Request>
    ensures { result ≡ open_asked (view line.now) }
{
    let model = model(line)?;
    Some(Request::Changes(Change::Open {
        model: model.unwrap_or(DataModel::Lp64),
    }))
}

pub(crate) fn close(line: &Line<'_>) -> Option<Request>
    ensures { result ≡ close_asked (view line.now) }
{
    let d = slot(line)?;
    Some(Request::Changes(Change::Close { d }))
}

pub(crate) fn import(line: &Line<'_>) -> Option<Request>
    ensures { result ≡ import_asked (view line.now) }
{
    let d = slot(line)?;
    let parent = slot_under(line, "parent")?;
    Some(Request::Changes(Change::Import { d, parent }))
}

/// The name of a publication, which has no escapes.
#[inline(always)]
fn publication(alloc: Global, line: &Line<'_>) -> Result<Option<PublicationName>, AllocError>
    ensures { IfOk result (λ name. name ≡ publication_asked (view line.now)) }
{
    let Some(name) = text(line, "name") else {
        return Ok(None);
    };
    Ok(PublicationName::new(Vec::from_slice(alloc, name.as_bytes())?))
}

pub(crate) fn publish(alloc: Global, line: &Line<'_>) -> Result<Option<Request>, AllocError>
    ensures { IfOk result (λ request. request ≡ publish_asked (view line.now)) }
{
    let Some(d) = slot(line) else {
        return Ok(None);
    };
    match publication(alloc, line)? {
        Some(name) => Ok(Some(Request::Changes(Change::Publish { d, name }))),
        None => Ok(None),
    }
}

pub(crate) fn withdraw(alloc: Global, line: &Line<'_>) -> Result<Option<Request>, AllocError>
    ensures { IfOk result (λ request. request ≡ withdraw_asked (view line.now)) }
{
    match publication(alloc, line)? {
        Some(name) => Ok(Some(Request::Changes(Change::Withdraw { name }))),
        None => Ok(None),
    }
}

pub(crate) fn take(alloc: Global, line: &Line<'_>) -> Result<Option<Request>, AllocError>
    ensures { IfOk result (λ request. request ≡ take_asked (view line.now)) }
{
    let Some(owner) = number(line, "owner", 0, u64::from(u32::MAX)) else {
        return Ok(None);
    };
    match publication(alloc, line)? {
        Some(name) => Ok(Some(Request::Changes(Change::Take {
            owner: owner as u32,
            name,
        }))),
        None => Ok(None),
    }
}

fn list(name: &str) -> Option<ListName>
    ensures { result ≡ list_named name.now }
{
    match name {
        "ctf" => Some(ListName::Ctf),
        "sym" => Some(ListName::Sym),
        "str" => Some(ListName::Str),
        _ => None,
    }
}

pub(crate) fn read_part(alloc: Global, line: &Line<'_>) -> Result<Option<Request>, AllocError>
    ensures { IfOk result (λ request. request ≡ part_asked (view line.now)) }
{
    let Some(name) = text(line, "section") else {
        return Ok(None);
    };
    let Some(section) = list(name) else {
        return Ok(None);
    };
    let Some(digits) = text(line, "bytes") else {
        return Ok(None);
    };
    match piece(alloc, digits)? {
        Some(bytes) => Ok(Some(Request::Changes(Change::Part { section, bytes }))),
        None => Ok(None),
    }
}
