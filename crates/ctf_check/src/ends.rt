//! Which references name something: decided by where names end, without reading the names.
ghost use Rattle.std.specs.Prelude.{◌≡◌, ◌≤◌, ◌^◌, Some, is_none};
ghost use Rattle.ctf_model.specs.format.Name.{name};
ghost use Rattle.ctf_sections.specs.StringsView.{tables};
ghost use Rattle.ctf_sections.specs.TableEnds.{EndsAt};

use ctf_sections::{Strings, end_of_names};

/// A reference below this is an offset in the internal table.
const INTERNAL: usize = 0x8000_0000;

/// The tables of names, with the place after the last name of each; 0 if a table is absent.
#[derive(Clone, Copy)]
pub struct NameEnds<'a> {
    strings: Strings<'a>,
    /// Each reference below this names something: one comparison decides that.
    plain_end: usize,
    internal_end: usize,
    elf_end: usize,
    ghost plain: { plain_end ≤ internal_end },
    ghost low: { plain_end ≤ 2 ^ 31 },
    ghost internal: { EndsAt (Some (tables strings).internal) internal_end },
    ghost elf: { EndsAt (tables strings).elf elf_end },
}

impl<'a> NameEnds<'a> {
    ghost use Rattle.std.specs.Prelude.{option_copied};
    ghost use Rattle.ctf_check.specs.EndsView.{tables_in};

    pub fn new(internal: &'a [u8], elf: Option<&'a [u8]>) -> NameEnds<'a>
        ensures { tables_in result
            ≡ record { internal = internal.now; elf = option_copied elf.entry } }
    {
        let elf_end = match elf {
            Some(table) => end_of_names(table),
            None => 0,
        };
        let internal_end = end_of_names(internal);
        NameEnds {
            strings: Strings::new(internal, elf),
            plain_end: internal_end.min(INTERNAL),
            internal_end,
            elf_end,
        }
    }

    /// Whether a reference names nothing.
    #[inline(always)]
    pub fn names_nothing(self, reference: u32) -> bool
        ensures { result ≡ is_none (name (tables_in self.entry) reference) }
    {
        if (reference as usize) < self.plain_end {
            return false;
        }
        self.is_past_the_end(reference)
    }

    /// The same for any reference, by its table.
    fn is_past_the_end(self, reference: u32) -> bool
        ensures { result ≡ is_none (name (tables_in self.entry) reference) }
    {
        let offset = (reference & 0x7fff_ffff) as usize;
        if offset == 0 {
            return false;
        }
        if reference >> 31 == 0 {
            offset >= self.internal_end
        } else {
            offset >= self.elf_end
        }
    }
}
