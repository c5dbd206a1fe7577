//! The bytes of a section of a dictionary.
ghost use Rattle.std.specs.Prelude.{◌≡◌, ◌+◌, ◌≤◌, ◌<◌, ◌^◌, length};
ghost use Rattle.ctf_model.specs.format.Header.{fields, section as bytes_of_section};

use ctf_model::Section;
use ctf_sections::Header;

/// The bytes of a section, borrowed from the dictionary whose header is given.
pub fn bytes_in<'a>(ctf: &'a [u8], header: Header, section: Section) -> &'a [u8]
    requires fields { header ≡ fields ctf.now }
    requires inside { 36 + header.stroff + header.strlen ≤ length ctf.now }
    ensures bytes { result.now ≡ bytes_of_section ctf.now section }
    ensures short { length result.now < 2 ^ 32 }
{
    let (start, end) = header.range(section);
    &ctf[start..end]
}
