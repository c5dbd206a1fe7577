//! Where names are in the lists of a dictionary.
ghost use Rattle.std.specs.Prelude.{◌≡◌, ◌<◌, ◌+◌, ◌^◌, ℕ, List, Some};
ghost use Rattle.ctf_model.specs.format.Header.{fields};
ghost use Rattle.ctf_model.specs.format.Name.{name as named};
ghost use Rattle.ctf_check.specs.CheckedView.{lists_of, tables_of};
ghost use Rattle.ctf_c.specs.names.Places.{text_in};

use ctf_check::Checked;
use ctf_sections::bytes::u32_at;

/// The number of the CTF section, as a list that contains names.
pub const IN_CTF: u32 = 0;

/// The number of the strings of the symbol table.
pub const IN_STRINGS: u32 = 1;

/// Stands for no list: the name is empty.
pub const NOWHERE: u32 = 2;

/// Where a name is: the number of a list, and the offset in it.
#[derive(Clone, Copy)]
pub struct NamePosition {
    pub list: u32,
    pub at: u64,
}

/// Where the strings of a dictionary begin in its CTF section.
fn strings_begin(dictionary: &Checked<'_>) -> u64
    ensures begin { result ≡ 36 + (fields (lists_of dictionary.now).ctf).stroff }
    ensures short { result < 2 ^ 33 }
{
    36 + u64::from(u32_at(dictionary.lists().ctf, 28))
}

/// Where the name of a reference is.
pub fn name_position(dictionary: &Checked<'_>, reference: u32) -> NamePosition
    ensures { (name : List ℕ) → named (tables_of dictionary.now) reference ≡ Some name
        → text_in (lists_of dictionary.now) result.list result.at ≡ Some name }
{
    let at = u64::from(reference % 0x8000_0000);
    if at == 0 {
        return NamePosition { list: NOWHERE, at };
    }
    if reference / 0x8000_0000 == 0 {
        return NamePosition {
            list: IN_CTF,
            at: strings_begin(dictionary) + at,
        };
    }
    NamePosition {
        list: IN_STRINGS,
        at,
    }
}
