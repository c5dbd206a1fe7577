//! What the check would find of a dictionary that is known to break no rule.
ghost use Rattle.std.specs.Prelude.{◌≡◌, ◌≤◌, ◌+◌, length, IfOk, IfErr, None};
ghost use Rattle.ctf_chains.specs.Starts.{starts_in};
ghost use Rattle.ctf_model.specs.format.Header.{fields};
ghost use Rattle.ctf_model.specs.rules.Faults.{header_fault, types as types_of};
ghost use Rattle.ctf_model.specs.rules.Refusals.{out_of_memory};

use crate::judge::Findings;
use crate::sections::bytes_in;
use ctf_chains::record_starts;
use ctf_model::{Fault, Section};
use ctf_sections::Header;
use std::alloc::Global;

/// What the check finds of a CTF section with so many types, if it finds no fault. Reads only the
/// header and the lengths of the records.
pub fn findings(alloc: Global, ctf: &[u8], count: usize) -> Result<Findings, Fault>
    requires header { header_fault ctf.now ≡ None }
    requires count { count ≡ length (types_of ctf.now) }
    ensures header { IfOk result (λ x. x.header ≡ fields ctf.now) }
    ensures inside { IfOk result (λ x. 36 + x.header.stroff + x.header.strlen ≤ length ctf.now) }
    ensures starts { IfOk result (λ x. x.starts ≡ starts_in (types_of ctf.now)) }
    ensures err { IfErr result (λ f. f ≡ out_of_memory) }
{
    let header = Header::read(ctf)?;
    let types = bytes_in(ctf, header, Section::STypes);
    let starts = record_starts(alloc, types, count)?;
    Ok(Findings { header, starts })
}
