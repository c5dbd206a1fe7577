//! Sessions and their libraries.
ghost use Rattle.std.specs.Prelude.{◌≡◌, ◌≢◌, ◌↔◌, ◌/◌, ◌%◌, ℕ, IfOk, IsTrue, None, OnErr, option_map, true, false};
ghost use Rattle.ctf_answers.specs.Replies.{unaddressed_reply, change_reply};
ghost use Rattle.ctf_protocol.specs.sessions.Runs.{Answered, IsGranted, Steps, found_in};
ghost use Rattle.ctf_protocol.specs.sessions.State.{empty_state};
ghost use Rattle.ctf_protocol.specs.sessions.Steps.{publishes_kept};
ghost use Rattle.ctf_protocol.specs.sessions.Quiet.{is_quiet_change};
ghost use Rattle.ctf_protocol.specs.declared.requests.Request.TheVariants.{Changes};
ghost use Rattle.ctf_broker.specs.Pages.{DiffersAt, IsVacant};
ghost use Rattle.ctf_broker.specs.Table.{kept_for, library_at, page_at};

use crate::page::{Page, page_of, place_of};
use ctf_answers::Counts;
use ctf_library::{Library, Loaded, Pool};
use ctf_protocol::{Change, Fault, PublicationName, placeless};
use std::alloc::{AllocError, Global};
use std::collections::BTreeMap;

/// The library of a session, if it has one.
pub fn library_of(libraries: &BTreeMap<u32, Page>, session: u32) -> Option<&Library>
    ensures { option_map (λ l. l.now) result ≡ kept_for libraries.now.entries session }
{
    match libraries.get(&page_of(session)) {
        Some(page) => page.library(place_of(session)),
        None => None,
    }
}

/// What a change finds: for a take, what its owner has published under the name.
pub fn found_by(
    libraries: &BTreeMap<u32, Page>,
    change: &Change,
) -> Result<Option<Loaded>, AllocError>
    ensures ok { IfOk result (λ found. found
        ≡ found_in (library_at libraries.now.entries) (Changes change.now)) }
    ensures err { OnErr result (is_quiet_change change.now ≡ false) }
{
    let Change::Take { owner, name } = change else {
        return Ok(None);
    };
    let Some(library) = library_of(libraries, *owner) else {
        return Ok(None);
    };
    match library.publication(name.as_slice()) {
        Some(loaded) => Ok(Some(loaded.share()?)),
        None => Ok(None),
    }
}

/// Frees the library of a session, and its page if no other library is in it.
pub fn forget(libraries: &mut BTreeMap<u32, Page>, session: u32)
    ensures own { kept_for libraries.new.entries session ≡ None }
    ensures others { (other : ℕ) → other ≢ session
        → kept_for libraries.new.entries other ≡ kept_for libraries.old.entries other }
{
    if drop_in_page(libraries, session) {
        libraries.remove(&page_of(session));
    }
}

/// Frees the library of a session, and says whether its page is empty then.
fn drop_in_page(libraries: &mut BTreeMap<u32, Page>, session: u32) -> bool
    ensures own { kept_for libraries.new.entries session ≡ None }
    ensures places { DiffersAt (session % 16) (page_at libraries.old.entries (session / 16))
        (page_at libraries.new.entries (session / 16)) }
    ensures pages { (other : ℕ) → other ≢ session / 16
        → page_at libraries.new.entries other ≡ page_at libraries.old.entries other }
    ensures empty { IsTrue result ↔ IsVacant (page_at libraries.new.entries (session / 16)) }
{
    let Some(page) = libraries.get_mut(&page_of(session)) else {
        return true;
    };
    page.drop_library(place_of(session));
    page.is_empty()
}

/// Frees the memory of a session's library that equals a new one, and that of a page without
/// libraries, as it stays if no memory is granted for the first.
pub fn drop_new(libraries: &mut BTreeMap<u32, Page>, session: u32)
    ensures own { library_at libraries.new.entries session
        ≡ library_at libraries.old.entries session }
    ensures others { (other : ℕ) → other ≢ session
        → kept_for libraries.new.entries other ≡ kept_for libraries.old.entries other }
    ensures spare { library_at libraries.new.entries session ≡ empty_state
        → kept_for libraries.new.entries session ≡ None }
{
    let is_new = match library_of(libraries, session) {
        Some(library) => library.is_new(),
        None => true,
    };
    if is_new {
        forget(libraries, session);
    }
}

/// Makes the step of a change in the session's own library, which is made if there is none yet.
pub fn step_in(
    alloc: Global,
    libraries: &mut BTreeMap<u32, Page>,
    pool: &mut Pool,
    session: u32,
    change: &Change,
    found: Option<Loaded>,
) -> Result<Counts, Fault>
    requires found { found
        ≡ found_in (library_at libraries.old.entries) (Changes change.now) }
    ensures step { Steps (library_at libraries.old.entries) session (Changes change.now)
        (change_reply session result) (library_at libraries.new.entries) }
    ensures others { (other : ℕ) → other ≢ session
        → kept_for libraries.new.entries other ≡ kept_for libraries.old.entries other }
    ensures quiet { is_quiet_change change.now ≡ true
        → library_at libraries.old.entries session ≢ empty_state
        → IsGranted (library_at libraries.old.entries) session (Changes change.now)
        (change_reply session result) (library_at libraries.new.entries) }
{
    let number = page_of(session);
    let place = place_of(session);
    if let Some(page) = libraries.get_mut(&number) {
        return page.step(alloc, place, change, found, pool);
    }
    let Ok(entry) = libraries.entry(number) else {
        return Err(placeless(Fault::MEMORY));
    };
    let Ok(page) = entry.or_try_insert_with(|| Page::new(alloc)) else {
        return Err(placeless(Fault::MEMORY));
    };
    page.step(alloc, place, change, found, pool)
}

/// Publishes a dictionary in the library of a session, which is made if there is none yet.
pub fn publish_in(
    alloc: Global,
    libraries: &mut BTreeMap<u32, Page>,
    session: u32,
    name: &PublicationName,
    loaded: Loaded,
) -> Result<Counts, Fault>
    ensures own { Answered (library_at libraries.old.entries session)
        (publishes_kept name.now loaded (library_at libraries.old.entries session))
        (unaddressed_reply result) (library_at libraries.new.entries session) }
    ensures others { (other : ℕ) → other ≢ session
        → kept_for libraries.new.entries other ≡ kept_for libraries.old.entries other }
{
    let Ok(entry) = libraries.entry(page_of(session)) else {
        return Err(placeless(Fault::MEMORY));
    };
    let Ok(page) = entry.or_try_insert_with(|| Page::new(alloc)) else {
        return Err(placeless(Fault::MEMORY));
    };
    page.publish_loaded(alloc, place_of(session), name, loaded)
}
