//! Where names are.
ghost use Rattle.std.specs.Prelude.{◌≡◌, option_copied};
ghost use Rattle.ctf_order.specs.Naming.{naming};
ghost use Rattle.ctf_sections.specs.ShortNames.{if_short};

use ctf_sections::{Strings, short_text, text};

/// Where names are, and which numbers identify them.
#[derive(Clone, Copy)]
pub enum Texts<'a> {
    /// The tables of a dictionary: a name is identified by its reference (ctf(5), "String
    /// Identifiers").
    Dictionary(Strings<'a>),
    /// The strings of a program: a name is identified by its offset.
    Program(&'a [u8]),
}

impl<'a> Texts<'a> {
    /// The name of a reference or an offset.
    pub(crate) fn name(&self, reference: u32) -> Option<&'a [u8]>
        ensures { option_copied result ≡ naming self.now reference }
    {
        match self {
            Texts::Dictionary(strings) => strings.name(reference),
            Texts::Program(strs) => text(strs, reference as usize),
        }
    }

    /// The same, if it has at most `most` bytes. It reads at most one byte more, however long the
    /// name is.
    pub(crate) fn short_name(&self, reference: u32, most: usize) -> Option<&'a [u8]>
        ensures { option_copied result ≡ if_short most (naming self.now reference) }
    {
        match self {
            Texts::Dictionary(strings) => strings.short_name(reference, most),
            Texts::Program(strs) => short_text(strs, reference as usize, most),
        }
    }
}
