//! The check: which rule a dictionary breaks first.
ghost use Rattle.std.specs.Prelude.{◌≡◌, ◌≤◌, ◌<◌, ◌^◌, ◌+◌, ◌⊎◌, length, IfOk, IfErr, OnOk, Some, None, option_copied};
ghost use Rattle.ctf_chains.specs.Starts.{starts_in};
ghost use Rattle.ctf_model.specs.format.Header.{fields};
ghost use Rattle.ctf_model.specs.rules.Faults.{first_fault, types as types_of, walk_fault};
ghost use Rattle.ctf_model.specs.format.Section.{records};
ghost use Rattle.ctf_check.specs.Enough.{records_enough};
ghost use Rattle.ctf_check.specs.ListsView.{given};
ghost use Rattle.ctf_check.specs.Named.{first_that_misnames};
ghost use Rattle.ctf_check.specs.Stages.{IsTypesFault, fault_before_chains};
ghost use Rattle.ctf_model.specs.rules.Refusals.{out_of_memory};

use crate::bad_names::bad_name;
use crate::ends::NameEnds;
use crate::judging::judge_chains;
use crate::lists::LentLists;
use crate::references::{Numbers, bad_reference};
use crate::sections::bytes_in;
use crate::symbols::judge_symbols;
use crate::walk_result::walk;
use ctf_chains::Starts;
use ctf_model::{Fault, Section};
use ctf_sections::Header;
use std::alloc::Global;

/// What the check of a dictionary finds: what its header says, and where its types begin.
#[derive(Drop)]
pub struct Findings {
    pub header: Header,
    pub starts: Starts,
}

/// Checks the types of records: which types they name, and then their chains. Returns where the
/// records begin.
///
/// Takes six bytes for each record while it runs, of which the result keeps four.
fn judge_types(
    alloc: Global,
    types: &[u8],
    numbers: Numbers,
    enough: usize,
) -> Result<Starts, Fault>
    requires whole { walk_fault (records types.now) ≡ None }
    requires count { numbers.count ≡ length (records types.now) }
    requires short { length types.now < 2 ^ 32 }
    requires enough { enough ≡ records_enough numbers.child (records types.now) }
    ensures ok { OnOk result (IsTypesFault numbers.child (records types.now) None) }
    ensures starts { IfOk result (λ s. s ≡ starts_in (records types.now)) }
    ensures err { IfErr result (λ f. (f ≡ out_of_memory)
        ⊎ IsTypesFault numbers.child (records types.now) (Some f)) }
    ensures late { IfErr result (λ f.
        (first_that_misnames numbers.child numbers.count (records types.now) ≡ None)
        ⊎ IsTypesFault numbers.child (records types.now) (Some f)) }
{
    match bad_reference(types, numbers, enough) {
        Some(place) => Err(Fault {
            code: Fault::BAD_REFERENCE,
            place,
        }),
        None => judge_chains(alloc, types, numbers),
    }
}

/// Checks a dictionary: its CTF section and, if there are any, the program's symbol table and its
/// strings.
///
/// Reads each record, member, enumerator, argument and symbol a bounded number of times, and takes
/// six bytes for each record while it runs. If that memory is refused, the fault is `Memory`; all
/// rules before those of chains are kept then. No name is searched for its end.
pub fn check(
    alloc: Global,
    ctf: &[u8],
    sym: Option<&[u8]>,
    strs: Option<&[u8]>,
) -> Result<Findings, Fault>
    ensures header { IfOk result (λ x. x.header ≡ fields ctf.now) }
    ensures inside { IfOk result (λ x. 36 + x.header.stroff + x.header.strlen ≤ length ctf.now) }
    ensures starts { IfOk result (λ x. x.starts ≡ starts_in (types_of ctf.now)) }
    ensures exact_ok { OnOk result (first_fault
        (given ctf.now (option_copied sym.entry) (option_copied strs.entry)) ≡ None) }
    ensures exact_err { IfErr result (λ f. (f ≡ out_of_memory) ⊎ (first_fault
        (given ctf.now (option_copied sym.entry) (option_copied strs.entry)) ≡ Some f)) }
    ensures late { IfErr result (λ f. (fault_before_chains
        (given ctf.now (option_copied sym.entry) (option_copied strs.entry)) ≡ None) ⊎ (first_fault
        (given ctf.now (option_copied sym.entry) (option_copied strs.entry)) ≡ Some f)) }
{
    let header = Header::read(ctf)?;
    let types = bytes_in(ctf, header, Section::STypes);
    let ends = NameEnds::new(bytes_in(ctf, header, Section::SStrings), strs);
    let child = header.parname() != 0;
    let (start, _) = header.range(Section::STypes);
    let walked = walk(types, start, child, ends)?;
    if let Some(place) = bad_name(ctf, header, ends, walked.bad_name) {
        return Err(Fault {
            code: Fault::BAD_NAME,
            place,
        });
    }
    let numbers = Numbers {
        child,
        count: walked.count,
    };
    let starts = judge_types(alloc, types, numbers, walked.enough)?;
    judge_symbols(LentLists { ctf, sym, strs }, header, numbers)?;
    Ok(Findings { header, starts })
}
