//! The export that follows a path of names.
ghost use Rattle.std.specs.Prelude.{◌≡◌, ◌⊎◌, Err, IfOk, IfErr, Ok, map};
ghost use Rattle.ctf_c.specs.Given.{MayGivePath, ask};
ghost use Rattle.ctf_c.specs.Naming.{names_in_bytes};
ghost use Rattle.ctf_model.specs.opened.Open.{space_in};
ghost use Rattle.ctf_layout.specs.Reached.{position_of};
ghost use Rattle.ctf_model.specs.opened.Questions.{path_answered};
ghost use Rattle.ctf_model.specs.rules.Refusals.{out_of_memory};

use crate::handle::Handle;
use crate::out_pointers::{NOT_OPEN, status};
use ctf_model::{Fault, TypeNum};
use ctf_open::OpenDictionary;
use std::alloc::{AllocError, Global};

/// The names in some bytes, each ended by a zero byte, which the last one may lack.
fn names_in(alloc: Global, bytes: &[u8]) -> Result<Vec<&[u8]>, AllocError>
    ensures { IfOk result (λ names. map (λ name. name.now) names.items ≡ names_in_bytes bytes.now) }
{
    let mut names = Vec::new(alloc);
    let mut from = 0;
    for at in 0..bytes.len() {
        if bytes[at] == 0 {
            names.push(&bytes[from..at])?;
            from = at + 1;
        }
    }
    if from < bytes.len() {
        names.push(&bytes[from..])?;
    }
    Ok(names)
}

/// The offset of the member that names lead to, from a type on, and its type.
fn path_along(
    alloc: Global,
    dictionary: &OpenDictionary,
    t: TypeNum,
    names: &[u8],
) -> Result<(u64, TypeNum), Fault>
    ensures ok { IfOk result (λ at.
        path_answered (space_in dictionary.now) (names_in_bytes names.now) t.0
        ≡ Ok (position_of at)) }
    ensures exact_err { IfErr result (λ f. (f ≡ out_of_memory)
        ⊎ (path_answered (space_in dictionary.now) (names_in_bytes names.now) t.0 ≡ Err f)) }
{
    let names = names_in(alloc, names)?;
    dictionary.path(t, names.as_slice())
}

/// The offset in bits of the member that names lead to, from a type on, and its type. Each name
/// ends with a zero byte. If it is refused, `place` is the step.
#[unsafe(no_mangle)]
pub extern "C" fn ctfd_path(
    alloc: Global,
    handle: &mut Handle,
    t: u16,
    names: &[u8],
    offset: &mut u64,
    to: &mut u16,
    place: &mut u64,
) -> u32
    ensures same { handle.new.held.dictionary ≡ handle.old.held.dictionary }
    ensures answer { MayGivePath (ask handle.old.held.dictionary (λ s.
        path_answered (space_in s) (names_in_bytes names.now) t)) result
        (record { offset = offset.old; tnum = to.old; place = place.old })
        (record { offset = offset.new; tnum = to.new; place = place.new }) }
{
    let Some(dictionary) = handle.option_box().get() else {
        *place = 0;
        return NOT_OPEN;
    };
    match path_along(alloc, dictionary, TypeNum(t), names) {
        Ok((at, found)) => {
            *offset = at;
            *to = found.0;
            0
        }
        Err(fault) => {
            *place = fault.place;
            status(fault)
        }
    }
}
