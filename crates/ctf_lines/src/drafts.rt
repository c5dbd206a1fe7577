//! Reads requests on drafts.
ghost use Rattle.std.specs.Prelude.{◌≡◌, IfOk};
ghost use Rattle.ctf_json.specs.Values.{line_data as view};
ghost use Rattle.ctf_protocol.specs.lines.Ask.{add_asked, create_asked, discard_asked, parent_asked, update_asked};
ghost use Rattle.ctf_protocol.specs.lines.LineFields.{name_or_empty as name_or_empty_asked};

use crate::additions::addition;
use crate::field_values::{as_slot_number, slot};
use crate::models::model;
use crate::spelling::name;
use ctf_json::{Line, get};
use ctf_protocol::{Change, Creation, DraftStep, Piece, Request, SlotNumber};
use std::alloc::{AllocError, Global};

/// A name that may be left out, and is empty then.
#[inline(always)]
pub(crate) fn name_or_empty(
    alloc: Global,
    line: &Line<'_>,
    key: &str,
) -> Result<Option<Piece>, AllocError>
    ensures { IfOk result (λ name. name ≡ name_or_empty_asked key.now (view line.now)) }
{
    match get(line, key) {
        Some(spelled) => name(alloc, &spelled),
        None => Ok(Some(Piece::new(Vec::new(alloc)))),
    }
}

/// The slot of the parent, if one is named.
fn parent(line: &Line<'_>) -> Option<Option<SlotNumber>>
    ensures { result ≡ parent_asked (view line.now) }
{
    match get(line, "parent") {
        Some(parent) => Some(Some(as_slot_number(&parent)?)),
        None => Some(None),
    }
}

pub(crate) fn create(alloc: Global, line: &Line<'_>) -> Result<Option<Request>, AllocError>
    ensures { IfOk result (λ request. request ≡ create_asked (view line.now)) }
{
    let Some(parent) = parent(line) else {
        return Ok(None);
    };
    let Some(parname) = name_or_empty(alloc, line, "parname")? else {
        return Ok(None);
    };
    let Some(parlabel) = name_or_empty(alloc, line, "parlabel")? else {
        return Ok(None);
    };
    let Some(model) = model(line) else {
        return Ok(None);
    };
    match Creation::new(parent, parname, parlabel, model) {
        Some(creation) => Ok(Some(Request::Changes(Change::Create(creation)))),
        None => Ok(None),
    }
}

pub(crate) fn add(alloc: Global, line: &mut Line<'_>) -> Result<Option<Request>, AllocError>
    ensures { IfOk result (λ request. request ≡ add_asked (view line.old)) }
{
    let Some(d) = slot(line) else {
        return Ok(None);
    };
    match addition(alloc, line)? {
        Some(addition) => Ok(Some(Request::Changes(Change::Draft {
            d,
            step: DraftStep::Add(addition),
        }))),
        None => Ok(None),
    }
}

pub(crate) fn update(line: &Line<'_>) -> Option<Request>
    ensures { result ≡ update_asked (view line.now) }
{
    let d = slot(line)?;
    Some(Request::Changes(Change::Draft {
        d,
        step: DraftStep::Update,
    }))
}

pub(crate) fn discard(line: &Line<'_>) -> Option<Request>
    ensures { result ≡ discard_asked (view line.now) }
{
    let d = slot(line)?;
    Some(Request::Changes(Change::Draft {
        d,
        step: DraftStep::Discard,
    }))
}
