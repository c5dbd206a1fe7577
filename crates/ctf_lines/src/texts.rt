//! Texts at the end of a line, and those of numbers.
ghost use Rattle.std.specs.Prelude.{◌≡◌, ◌+◌, ◌<◌, ◌≤◌, ◌++◌, length, vec_len, vec_capacity, decimal};
ghost use Rattle.ctf_model.specs.dumps.Texts.{signed_decimal};
ghost use Rattle.ctf_lines.specs.Appending.{HasRoom, Appended};

use crate::appending::append_bytes;
use crate::escapes::append_hex;
use crate::text_sinks::TextSink;
use itoa::Buffer;
use std::mem::replace;

/// The longest line of a reply, in bytes without its newline.
pub const LONGEST_REPLY: usize = 4_194_304;

/// The length, newline included, that stands for that of any line longer than a reply may be.
pub const TOO_LONG: usize = 4_194_306;

/// Appends bytes, for which there is room.
fn append(out: &mut Vec<u8>, bytes: &[u8])
    requires { HasRoom out.old bytes.now }
    ensures { Appended out.old out.new bytes.now }
{
    let empty = Vec::new(*out.allocator());
    *out = append_bytes(replace(out, empty), bytes);
}

/// A line, to whose end a text is appended if there is room.
impl TextSink for Vec<u8> {
    ghost use Rattle.ctf_lines.specs.Appending.{HasRoom, Appended};
    ghost use Rattle.ctf_lines.specs.Putting.{none_appended, both_appended};

    ghost Took = { λ old text new. HasRoom old text → Appended old new text };

    fn is_full(&self) -> bool {
        false
    }

    fn put(&mut self, text: &[u8]) {
        if text.len() <= self.capacity() - self.len() {
            append(self, text);
        }
    }

    fn put_one(&mut self, byte: u8) {
        if self.len() < self.capacity() {
            self.push_reserved(byte);
        }
    }

    fn put_between(&mut self, front: &[u8], text: &[u8], back: &[u8]) {
        self.put(front);
        self.put(text);
        self.put(back);
    }

    fn put_numbered(&mut self, front: &[u8], number: u64, back: &[u8]) {
        self.put(front);
        self.put(Buffer::new().format(number).as_bytes());
        self.put(back);
    }

    fn put_member(&mut self, name: &[u8], offset: u64, number: u64) {
        self.put_between(b"{\"name\":\"", name, b"\",\"offset\":");
        self.put_numbered(b"", offset, b",\"type\":");
        self.put_numbered(b"", number, b"}");
    }

    #[tactic(auto, using(crate::proofs::HexText::hex_of_twice))]
    fn put_hex(&mut self, bytes: &[u8]) {
        if bytes.len() <= (self.capacity() - self.len()) / 2 {
            append_hex(self, bytes);
        }
    }

    ghost nothing = { none_appended };

    ghost joined = { both_appended };
}

pub fn put_signed<P: TextSink>(sink: &mut P, value: i32)
    ensures { P.Took sink.old (signed_decimal value) sink.new }
{
    sink.put(Buffer::new().format(value).as_bytes())
}
