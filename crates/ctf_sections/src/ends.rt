//! Where names end.
ghost use Rattle.std.specs.Prelude.{◌≡◌, Some};
ghost use Rattle.std.specs.List.{before_first};
ghost use Rattle.ctf_model.specs.format.Name.{is_zero};
ghost use Rattle.ctf_sections.specs.TableEnds.{EndsAt};

use memchr::{memchr, memrchr};

/// The place after the last zero byte of a table: a reference to a byte before it names something,
/// a later one does not. No name is read.
pub fn end_of_names(table: &[u8]) -> usize
    ensures { EndsAt (Some table.now) result }
{
    match memrchr(0, table) {
        Some(last) => last + 1,
        None => 0,
    }
}

/// The bytes before the first zero byte; all bytes if there is none.
pub fn up_to_zero(bytes: &[u8]) -> &[u8]
    ensures { result.now ≡ before_first is_zero bytes.now }
{
    match memchr(0, bytes) {
        Some(len) => &bytes[..len],
        None => bytes,
    }
}
