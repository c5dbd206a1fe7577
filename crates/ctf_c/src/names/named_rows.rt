//! The rows of a list whose items have names.
ghost use Rattle.std.specs.Prelude.{◌≡◌, ◌<◌, ◌≤◌, ◌*◌, length, drop, slice_get, Some, bytes_eq, option_map};
ghost use Rattle.ctf_check.specs.CheckedView.{tables_of};
ghost use Rattle.ctf_model.specs.format.Name.{name as named};
ghost use Rattle.ctf_sections.specs.StringsView.{tables};
ghost use Rattle.ctf_sections.specs.ShortNames.{is_named};
ghost use Rattle.ctf_views.specs.Lists.{AreGood, items_in};
ghost use Rattle.ctf_c.specs.names.Names.{name_at};

use ctf_sections::Strings;
use ctf_sections::bytes::u32_at;

/// The rows of a list whose items have names: each row begins with the reference to a name.
#[derive(Clone, Copy)]
pub struct NameRows<'a> {
    bytes: &'a [u8],
    width: usize,
    count: usize,
    strings: Strings<'a>,
    ghost good: { AreGood (name_at (tables strings)) width count bytes.now },
    ghost wide: { 4 ≤ width },
}

/// The bytes at which a row begins.
pub fn row_at(bytes: &[u8], width: usize, index: usize) -> &[u8]
    requires { width * index ≤ length bytes.now }
    ensures { result.now ≡ drop (width * index) bytes.now }
{
    &bytes[width * index..]
}

impl<'a> NameRows<'a> {
    ghost use Rattle.ctf_c.specs.names.NamesView.{names_in, tables_for};

    pub fn new(bytes: &'a [u8], width: usize, count: usize, strings: Strings<'a>) -> NameRows<'a>
        requires good { AreGood (name_at (tables strings)) width count bytes.now }
        requires wide { 4 ≤ width }
        ensures names { items_in (name_at (tables strings.entry)) width count bytes.now
            ≡ names_in result }
        ensures tables { tables_for result ≡ tables strings.entry }
    {
        NameRows {
            bytes,
            width,
            count,
            strings,
        }
    }

    /// The reference to the name of an item, counted from 0.
    pub fn reference(&self, index: usize) -> u32
        requires { index < length (names_in self.now) }
        ensures { named (tables_for self.now) result ≡ slice_get (names_in self.now) index }
    {
        u32_at(row_at(self.bytes, self.width, index), 0)
    }

    /// Whether an item has this name. No more of its own name is read than that takes.
    pub fn is_name(&self, index: usize, name: &[u8]) -> bool
        requires { index < length (names_in self.now) }
        ensures { result ≡ is_named name.now (slice_get (names_in self.now) index) }
    {
        self.strings.is_name(self.reference(index), name)
    }
}
