//! The export that gives a type, its members, and all that these contain.
ghost use Rattle.std.specs.Prelude.{◌≡◌, Ok, Some};
ghost use Rattle.ctf_c.specs.Given.{ask};
ghost use Rattle.ctf_c.specs.Visiting.{GivesVisit, TellsIn, Visits};
ghost use Rattle.ctf_c.specs.names.Visits.{visits_of};
ghost use Rattle.ctf_model.specs.opened.Questions.{if_there};
ghost use Rattle.ctf_model.specs.opened.Open.{space_in};
ghost use Rattle.ctf_model.specs.spaces.Space.{space_type};

use crate::handle::Handle;
use crate::names::{NOWHERE, held_type, put, stands_for, visit_inside};
use crate::out_pointers::{dictionary_of, status};
use ctf_model::{Fault, TypeNum};
use ctf_open::OpenDictionary;

/// How deep types can be nested at most.
const MOST_VALUES: u32 = 1027;

/// A type in a visit: `struct ctfd_visit_row`. The offset is in bits, from the beginning of the
/// outermost type. The holder is the struct or union that has this member; the outermost type is
/// its own holder. The name is in a list of the dictionary that has the holder. `stands_for` is the
/// type that the member's type resolves to, and 0 if that is no type.
#[repr(C)]
#[derive(Clone, Copy)]
pub struct GivenVisitRow {
    pub offset: u64,
    pub name_at: u64,
    pub name_list: u32,
    pub depth: u32,
    pub tnum: u16,
    pub holder: u16,
    pub stands_for: u16,
}

/// Fills rows with a type and all that it contains, and returns how many there are; if there are
/// too few rows, one more than there are rows.
fn visit(dictionary: &OpenDictionary, t: TypeNum, rows: &mut [GivenVisitRow]) -> Result<u64, Fault>
    ensures { Visits (TellsIn (Some dictionary.now))
        (if_there (Ok (visits_of (space_in dictionary.now) t.0))
        (space_type (space_in dictionary.now) t.0)) result rows.old rows.new }
{
    held_type(&dictionary.space(), t)?;
    let holder = stands_for(dictionary, t);
    let outermost = GivenVisitRow {
        offset: 0,
        name_at: 0,
        name_list: NOWHERE,
        depth: 0,
        tnum: t.0,
        holder: t.0,
        stands_for: holder.0,
    };
    put(rows, 0, outermost);
    Ok(visit_inside(dictionary, outermost, MOST_VALUES, rows, 1) as u64)
}

/// A type and all that it contains: the members of the struct or union that it resolves to, each
/// followed by all that it contains. As many are written as there are rows.
#[unsafe(no_mangle)]
pub extern "C" fn ctfd_visit(
    handle: &mut Handle,
    t: u16,
    rows: &mut [GivenVisitRow],
    count: &mut u64,
) -> u32
    ensures same { handle.new.held.dictionary ≡ handle.old.held.dictionary }
    ensures answer { GivesVisit (TellsIn handle.old.held.dictionary)
        (ask handle.old.held.dictionary (λ s.
        if_there (Ok (visits_of (space_in s) t)) (space_type (space_in s) t))) result
        rows.old rows.new count.old count.new }
{
    let dictionary = dictionary_of!(handle);
    match visit(dictionary, TypeNum(t), rows) {
        Ok(all) => {
            *count = all;
            0
        }
        Err(fault) => status(fault),
    }
}
