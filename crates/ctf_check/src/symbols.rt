//! The rules of symbols: their entries are well formed and name types that exist, and no symbol is
//! cut off.
ghost use Rattle.std.specs.Prelude.{◌≡◌, ◌≤◌, ◌+◌, length, IfErr, OnOk, None, Some, unwrap_or, option_copied, []};
ghost use Rattle.ctf_model.specs.rules.Faults.{types};
ghost use Rattle.ctf_model.specs.format.Header.{fields, is_child};
ghost use Rattle.ctf_check.specs.ListsView.{lists_in};
ghost use Rattle.ctf_check.specs.Stages.{symbols_fault};

use crate::entries::judge_entries;
use crate::lists::LentLists;
use crate::references::Numbers;
use crate::sections::bytes_in;
use ctf_entries::{Considered, SymbolNames};
use ctf_model::{Fault, Section, placeless};
use ctf_sections::Header;

/// The bytes of a symbol table; empty if there is none.
pub fn table_of(sym: Option<&[u8]>) -> &[u8]
    ensures { result.now ≡ unwrap_or (option_copied sym.entry) [] }
{
    match sym {
        Some(bytes) => bytes,
        None => &[],
    }
}

/// Checks the symbols of a dictionary whose types were checked. Takes no memory, reads each symbol
/// and each entry once, and at most eight bytes of a name.
pub fn judge_symbols(lists: LentLists<'_>, header: Header, numbers: Numbers) -> Result<(), Fault>
    requires fields { header ≡ fields lists.ctf.now }
    requires inside { 36 + header.stroff + header.strlen ≤ length lists.ctf.now }
    requires child { numbers.child ≡ is_child (fields lists.ctf.now) }
    requires count { numbers.count ≡ length (types lists.ctf.now) }
    ensures ok { OnOk result (symbols_fault (lists_in lists.entry) ≡ None) }
    ensures err { IfErr result (λ f. symbols_fault (lists_in lists.entry) ≡ Some f) }
{
    let sym = table_of(lists.sym);
    let symbols = Considered::new(sym, SymbolNames::new(lists.strs));
    let objects = bytes_in(lists.ctf, header, Section::SObjects);
    let functions = bytes_in(lists.ctf, header, Section::SFunctions);
    judge_entries(symbols, objects, functions, numbers)?;
    if sym.len() % 24 != 0 {
        return Err(placeless(Fault::BAD_SYMTAB));
    }
    Ok(())
}
