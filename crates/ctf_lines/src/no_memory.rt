//! The line that says that memory was refused, written without taking any.
ghost use Rattle.std.specs.Prelude.{◌≡◌, ◌+◌, ◌≤◌, ◌++◌, length, take, drop};
ghost use Rattle.ctf_protocol.specs.lines.ReplyLines.{reply_line};
ghost use Rattle.ctf_protocol.specs.sessions.Runs.{no_memory};

use crate::writing::SHORT_LINE;
use itoa::Buffer;

/// Writes a text over the bytes from a place on, and answers where it ends.
fn put_at(buffer: &mut [u8], at: usize, text: &[u8]) -> usize
    requires { at + length text.now ≤ length buffer.old }
    ensures end { result ≡ at + length text.now }
    ensures front { take result buffer.new ≡ take at buffer.old ++ text.now }
    ensures rest { drop result buffer.new ≡ drop result buffer.old }
{
    let mut end = at;
    for byte in text {
        buffer[end] = *byte;
        end += 1;
    }
    end
}

/// Writes the line that says that memory was refused to a session, and answers its length with its
/// newline.
pub fn memory_line(session: u32, buffer: &mut [u8; SHORT_LINE]) -> usize
    ensures line { take result buffer.new ≡ reply_line (no_memory session) }
    ensures rest { drop result buffer.new ≡ drop result buffer.old }
    ensures inside { result ≤ 96 }
{
    let end = put_at(
        buffer,
        0,
        b"{\"fault\":{\"code\":0,\"name\":\"Memory\",\"place\":0},\"s\":",
    );
    let end = put_at(buffer, end, Buffer::new().format(session).as_bytes());
    put_at(buffer, end, b"}\n")
}
