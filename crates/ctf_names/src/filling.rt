//! The tables of an index of names, filled from the last type to the first: each type is read once,
//! and the type that is put in last has the least number.
ghost use Rattle.std.specs.Prelude.{◌≡◌, OnOk, length};
ghost use Rattle.ctf_check.specs.CheckedView.{dictionary_of};
ghost use Rattle.ctf_names.specs.Chained.{Chained};
ghost use Rattle.ctf_names.specs.Pointers.{PointersFrom};

use crate::chains::enter_name;
use crate::pointers::{Pointer, enter_pointer};
use crate::types::brief_at;
use ctf_check::Checked;
use std::alloc::AllocError;

/// Enters all types of a dictionary by their names, and its pointers.
pub(crate) fn fill(
    dictionary: &Checked<'_>,
    base: u16,
    heads: &mut [u16],
    next: &mut [u16],
    firsts: &mut [u16],
    outside: &mut Vec<Pointer>,
) -> Result<(), AllocError>
    requires chained { let terms = (dictionary_of dictionary.now).terms in
        Chained terms (length terms) heads.old next.old }
    requires pointers { let terms = (dictionary_of dictionary.now).terms in
        PointersFrom terms base (length terms) firsts.old outside.old.items }
    ensures chained { OnOk result
        (Chained (dictionary_of dictionary.now).terms 0 heads.new next.new) }
    ensures pointers { OnOk result
        (PointersFrom (dictionary_of dictionary.now).terms base 0 firsts.new outside.new.items) }
{
    let strings = dictionary.strings();
    let count = dictionary.count();
    for behind in 0..count {
        let place = count - 1 - behind;
        let of = brief_at(dictionary, &strings, place);
        enter_name(heads, next, of, place);
        enter_pointer(firsts, outside, base, of, place)?;
    }
    Ok(())
}
