//! The names of the linker's marks.
ghost use Rattle.std.specs.Prelude.{◌≡◌, ◌<◌, length, take};
ghost use Rattle.std.specs.List.{before_first};
ghost use Rattle.std.specs.Str.{bytes_eq};
ghost use Rattle.ctf_model.specs.format.Name.{is_zero};
ghost use Rattle.ctf_model.specs.symbols.Symbols.{is_mark as mark};

use ctf_sections::up_to_zero;

/// The front of a text that is long enough to recognize a mark: as many bytes as the longest mark
/// and its zero byte have.
fn front(text: &[u8]) -> &[u8]
    ensures { result.now ≡ take 8 text.now }
{
    if text.len() < 8 { text } else { &text[..8] }
}

/// Whether some strings begin with a name of fewer than eight bytes.
#[tactic(auto, using(crate::proofs::NameFronts::same_in_front))]
fn begins(text: &[u8], name: &[u8]) -> bool
    requires short { length name.now < 8 }
    ensures { result ≡ bytes_eq (before_first is_zero text.now) name.now }
{
    up_to_zero(front(text)) == name
}

/// Whether the name at the front of some strings is one of the linker's marks. It reads at most
/// eight bytes, however long the name is, and of most names only one.
#[tactic(auto, using(crate::proofs::NameFronts::no_mark, crate::proofs::NameFronts::other_front))]
pub(crate) fn begins_mark(text: &[u8]) -> bool
    ensures { result ≡ mark (before_first is_zero text.now) }
{
    if text.is_empty() {
        return false;
    }
    if text[0] != b'_' {
        return false;
    }
    begins(text, b"_START_") || begins(text, b"_END_")
}
