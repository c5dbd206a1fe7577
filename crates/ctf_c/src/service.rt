//! The whole service in process, for C. The header is clients/c/ctfd.h.

ghost use Rattle.std.specs.Prelude.{◌≡◌, None};
ghost use Rattle.ctf_c.specs.service.Given.{Begins, Repeats, Serves};
ghost use Rattle.ctf_c.specs.service.Operating.{Leaves, LoadsNamed, OfOpen, ServesAs};

mod handle;
mod out_pointers;
mod state;

use crate::handles::OptionBox;
use crate::out_pointers::status;
use crate::service::handle::Handle;
use crate::service::out_pointers::tell;
use crate::service::state::Service;
use ctf_protocol::{Fault, PublicationName, placeless};
use std::alloc::Global;

/// The status if no service is open.
const NOT_OPEN: u32 = 50;

/// The status if memory was refused.
const MEMORY: u32 = 1;

/// Opens a service whose sessions are all new, in place of what was open.
#[unsafe(no_mangle)]
pub extern "C" fn ctfd_begin(alloc: Global, handle: &mut Handle) -> u32
    ensures { Begins result handle.old.held.service handle.new.held.service }
{
    let Ok(service) = Service::new(alloc) else {
        return MEMORY;
    };
    match Box::new(alloc, service) {
        Ok(service) => {
            handle.option_box().hold(service);
            0
        }
        Err(_) => MEMORY,
    }
}

/// Closes the open service.
#[unsafe(no_mangle)]
pub extern "C" fn ctfd_end(alloc: Global, handle: &mut Handle)
    ensures { handle.new.held.service ≡ None }
{
    drop(handle.option_box().take(alloc));
}

/// Answers a line with the open service.
fn answer(service: &mut OptionBox<Service>, line: &[u8], text: &mut [u8], len: &mut u64) -> u32
    ensures { Serves service.old.held.value line.now result
        (record { text = text.old; len = len.old }) (record { text = text.new; len = len.new })
        service.new.held.value }
{
    let Some(service) = service.get_mut() else {
        return NOT_OPEN;
    };
    service.answer(line);
    tell(service.reply(), text, len);
    0
}

/// Answers a line, without its newline. As much of the reply is written as fits.
#[unsafe(no_mangle)]
pub extern "C" fn ctfd_line(handle: &mut Handle, line: &[u8], text: &mut [u8], len: &mut u64) -> u32
    ensures { Serves handle.old.held.service line.now result
        (record { text = text.old; len = len.old }) (record { text = text.new; len = len.new })
        handle.new.held.service }
{
    answer(handle.option_box(), line, text, len)
}

/// Answers a line of a given session with the open service.
fn answer_as(
    service: &mut OptionBox<Service>,
    session: u32,
    line: &[u8],
    text: &mut [u8],
    len: &mut u64,
) -> u32
    ensures { ServesAs session service.old.held.value line.now result
        (record { text = text.old; len = len.old }) (record { text = text.new; len = len.new })
        service.new.held.value }
{
    let Some(service) = service.get_mut() else {
        return NOT_OPEN;
    };
    if session == 0 {
        return status(placeless(Fault::BAD_REQUEST));
    }
    service.answer_as(session, line);
    tell(service.reply(), text, len);
    0
}

/// Answers a line of a given session, whatever number the line names; the reply has the number that
/// the line names. Session 0 is the operator's, which makes no requests.
#[unsafe(no_mangle)]
pub extern "C" fn ctfd_line_as(
    handle: &mut Handle,
    session: u32,
    line: &[u8],
    text: &mut [u8],
    len: &mut u64,
) -> u32
    ensures { ServesAs session handle.old.held.service line.now result
        (record { text = text.old; len = len.old }) (record { text = text.new; len = len.new })
        handle.new.held.service }
{
    answer_as(handle.option_box(), session, line, text, len)
}

/// Publishes a CTF section for the operator, under a name that the caller gives.
fn load(alloc: Global, service: &mut Service, name: &[u8], ctf: &[u8]) -> u32
    ensures { LoadsNamed name.now ctf.now result service.old service.new }
{
    let Ok(name) = Vec::from_slice(alloc, name) else {
        return MEMORY;
    };
    let Some(name) = PublicationName::new(name) else {
        return status(placeless(Fault::BAD_REQUEST));
    };
    let Ok(ctf) = Vec::from_slice(alloc, ctf) else {
        return MEMORY;
    };
    service.load(&name, ctf)
}

/// The same with the open service.
fn load_open(alloc: Global, service: &mut OptionBox<Service>, name: &[u8], ctf: &[u8]) -> u32
    ensures { OfOpen (LoadsNamed name.now ctf.now result) service.old.held.value result
        service.new.held.value }
{
    match service.get_mut() {
        Some(service) => load(alloc, service, name, ctf),
        None => NOT_OPEN,
    }
}

/// Publishes a CTF section for the operator, session 0, under a name that is not in use.
#[unsafe(no_mangle)]
pub extern "C" fn ctfd_load(alloc: Global, handle: &mut Handle, name: &[u8], ctf: &[u8]) -> u32
    ensures { OfOpen (LoadsNamed name.now ctf.now result) handle.old.held.service result
        handle.new.held.service }
{
    load_open(alloc, handle.option_box(), name, ctf)
}

/// Forgets a session of the open service.
fn leave(service: &mut OptionBox<Service>, session: u32) -> u32
    ensures { OfOpen (λ s after. (result ≡ 0) × Leaves session s after) service.old.held.value
        result service.new.held.value }
{
    match service.get_mut() {
        Some(service) => {
            service.leave(session);
            0
        }
        None => NOT_OPEN,
    }
}

/// Forgets a session: all that it has, and all that it has published. Others keep what they took
/// from it.
#[unsafe(no_mangle)]
pub extern "C" fn ctfd_leave(handle: &mut Handle, session: u32) -> u32
    ensures { OfOpen (λ s after. (result ≡ 0) × Leaves session s after) handle.old.held.service
        result handle.new.held.service }
{
    leave(handle.option_box(), session)
}

/// Writes the last reply again.
#[unsafe(no_mangle)]
pub extern "C" fn ctfd_reply(handle: &mut Handle, text: &mut [u8], len: &mut u64) -> u32
    ensures same { handle.new.held.service ≡ handle.old.held.service }
    ensures answer { Repeats handle.old.held.service result
        (record { text = text.old; len = len.old }) (record { text = text.new; len = len.new }) }
{
    let Some(service) = handle.option_box().get() else {
        return NOT_OPEN;
    };
    tell(service.reply(), text, len);
    0
}
