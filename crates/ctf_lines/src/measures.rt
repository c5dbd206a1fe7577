//! How long texts are.
ghost use Rattle.std.specs.Prelude.{◌≡◌, ◌+◌, ◌≤◌, min};

use crate::text_sinks::TextSink;
use crate::texts::TOO_LONG;
use itoa::Buffer;

/// The length of the texts that were written so far, up to the greatest length of a reply.
#[derive(Drop)]
pub struct Measure {
    len: usize,
    ghost inside: { len ≤ 4194306 },
}

/// A length and more bytes.
fn plus(len: usize, more: usize) -> usize
    ensures { result ≡ min (len + more) TOO_LONG }
{
    if len < TOO_LONG && more < TOO_LONG - len {
        len + more
    } else {
        TOO_LONG
    }
}

impl Measure {
    pub fn new() -> Measure
        ensures { result.len ≡ 0 }
    {
        Measure { len: 0 }
    }

    pub fn len(&self) -> usize
        ensures { result ≡ self.now.len }
    {
        self.len
    }
}

impl TextSink for Measure {
    ghost use Rattle.ctf_lines.specs.Appending.{and_text};
    ghost use Rattle.ctf_lines.specs.Putting.{none_measured, both_measured};

    ghost Took = { λ old text new. new.len ≡ and_text old.len text };

    fn is_full(&self) -> bool {
        self.len == TOO_LONG
    }

    fn put(&mut self, text: &[u8]) {
        *self = Measure {
            len: plus(self.len, text.len()),
        };
    }

    fn put_one(&mut self, _byte: u8) {
        *self = Measure {
            len: plus(self.len, 1),
        };
    }

    fn put_between(&mut self, front: &[u8], text: &[u8], back: &[u8]) {
        *self = Measure {
            len: plus(plus(self.len, front.len() + back.len()), text.len()),
        };
    }

    fn put_numbered(&mut self, front: &[u8], number: u64, back: &[u8]) {
        let digits = Buffer::new().format(number).len();
        *self = Measure {
            len: plus(self.len, front.len() + digits + back.len()),
        };
    }

    fn put_member(&mut self, name: &[u8], offset: u64, number: u64) {
        self.put_between(b"{\"name\":\"", name, b"\",\"offset\":");
        self.put_numbered(b"", offset, b",\"type\":");
        self.put_numbered(b"", number, b"}");
    }

    #[tactic(auto, using(crate::proofs::HexText::hex_of_twice))]
    fn put_hex(&mut self, bytes: &[u8]) {
        *self = Measure {
            len: plus(plus(self.len, bytes.len()), bytes.len()),
        };
    }

    ghost nothing = { λ sink. none_measured sink.len sink.inside };

    ghost joined = { λ old mid new a b. both_measured old.len mid.len new.len a b };
}
