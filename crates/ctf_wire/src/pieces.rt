//! Bytes cut at their first newline.
ghost use Rattle.std.specs.Prelude.{◌≡◌, ◌++◌, ◌∷◌, [], MatchOption};
ghost use Rattle.ctf_protocol.specs.lines.Lines.{whole_lines};

use memchr::memchr;

/// The bytes before the first newline, and the bytes after it.
pub fn cut(bytes: &[u8]) -> Option<(&[u8], &[u8])>
    ensures { MatchOption result (whole_lines bytes.now ≡ [])
        (λ p. (whole_lines p.0.now ≡ []) × (bytes.now ≡ p.0.now ++ 10 ∷ p.1.now)) }
{
    let Some(end) = memchr(b'\n', bytes) else {
        return None;
    };
    Some((&bytes[..end], &bytes[end + 1..]))
}
