//! The two tables of names, and the names that references refer to.
ghost use Rattle.std.specs.Prelude.{◌≡◌, ◌+◌, Some, option_copied, take};
ghost use Rattle.ctf_model.specs.format.Name.{name as named, table as table_of, text_at};
ghost use Rattle.ctf_sections.specs.ShortNames.{if_short, is_named};

use crate::differences::Differences;
use crate::matching::{is_text, is_text_after};
use memchr::memchr;

/// The tables of names: the string section and, if there is one, the string table of the symbols.
#[derive(Clone, Copy)]
pub struct Strings<'a> {
    internal: &'a [u8],
    elf: Option<&'a [u8]>,
}

/// The bytes from an offset to the first zero byte, if one follows.
pub fn text(table: &[u8], offset: usize) -> Option<&[u8]>
    ensures { option_copied result ≡ text_at (Some table.now) offset }
{
    let rest = table.get(offset..)?;
    let len = memchr(0, rest)?;
    Some(&rest[..len])
}

/// The first `most` + 1 bytes, or all bytes if there are fewer.
fn front(bytes: &[u8], most: usize) -> &[u8]
    ensures { result.now ≡ take (most + 1) bytes.now }
{
    if most < bytes.len() {
        &bytes[..most + 1]
    } else {
        bytes
    }
}

/// The text at an offset, if it has at most `most` bytes. It reads at most one byte more.
pub fn short_text(table: &[u8], offset: usize, most: usize) -> Option<&[u8]>
    ensures { option_copied result ≡ if_short most (text_at (Some table.now) offset) }
{
    let rest = table.get(offset..)?;
    let front = front(rest, most);
    let len = memchr(0, front)?;
    Some(&front[..len])
}

impl<'a> Strings<'a> {
    ghost use Rattle.ctf_sections.specs.StringsView.{tables};

    pub fn new(internal: &'a [u8], elf: Option<&'a [u8]>) -> Strings<'a>
        ensures { tables result
            ≡ record { internal = internal.now; elf = option_copied elf.entry } }
    {
        Strings { internal, elf }
    }

    /// The table that bit 31 of a reference picks (ctf(5), "String Identifiers").
    fn table(&self, reference: u32) -> Option<&'a [u8]>
        ensures { option_copied result ≡ table_of (tables self.now) reference }
    {
        if reference >> 31 == 0 {
            Some(self.internal)
        } else {
            self.elf
        }
    }

    /// The name of a reference, borrowed from the table that its bit 31 picks.
    pub fn name(&self, reference: u32) -> Option<&'a [u8]>
        ensures { option_copied result ≡ named (tables self.now) reference }
    {
        let offset = (reference & 0x7fff_ffff) as usize;
        if offset == 0 {
            return Some(&[]);
        }
        let table = self.table(reference)?;
        text(table, offset)
    }

    /// The name of a reference, if it has at most `most` bytes. It reads at most one byte more,
    /// however long the name is.
    pub fn short_name(&self, reference: u32, most: usize) -> Option<&'a [u8]>
        ensures { option_copied result ≡ if_short most (named (tables self.now) reference) }
    {
        match (reference & 0x7fff_ffff) as usize {
            0 => Some(&[]),
            offset => short_text(self.table(reference)?, offset, most),
        }
    }

    /// Whether a reference refers to this name. Of overlapping names, it reads at most one in full,
    /// and a few bytes of each of the others.
    pub fn is_name(&self, reference: u32, text: &[u8]) -> bool
        ensures { result ≡ is_named text.now (named (tables self.now) reference) }
    {
        match (reference & 0x7fff_ffff) as usize {
            0 => text.is_empty(),
            offset => match self.table(reference) {
                Some(table) => is_text(table, offset, text),
                None => false,
            },
        }
    }

    /// Whether a reference refers to this name, after others were compared. A name that differs
    /// from it at a place where an earlier name differed is not searched again.
    #[inline(always)]
    pub fn is_name_after(&self, reference: u32, text: &[u8], others: &mut Differences<'_>) -> bool
        ensures { result ≡ is_named text.now (named (tables self.now) reference) }
    {
        match (reference & 0x7fff_ffff) as usize {
            0 => text.is_empty(), // no table is read
            offset => match self.table(reference) {
                Some(table) => is_text_after(table, offset, text, others),
                None => false,
            },
        }
    }
}
