//! Room after the lines that are in a list, into which a line is written in one pass.
ghost use Rattle.std.specs.Prelude.{◌≡◌, ◌+◌, ◌≤◌, ◌++◌, false, length, vec_len, vec_capacity, decimal};
ghost use Rattle.ctf_lines.specs.Appending.{HasRoom, Appended};
ghost use Rattle.ctf_lines.specs.Rows.{member_row};

use crate::appending::{append_bytes, append_number_here, between, with_member};
use crate::escapes::append_hex;
use crate::text_sinks::TextSink;
use core::mem::replace_with;
use std::mem::replace;

/// A list, and its greatest length. If a text found no room, nothing is known of what was written
/// after it.
#[derive(Drop)]
pub struct LineBuffer {
    out: Vec<u8>,
    end: usize,
    is_full: bool,
    ghost within: { vec_len out ≤ end },
    ghost inside: { end ≤ vec_capacity out },
}

impl LineBuffer {
    /// Room for at most so many bytes.
    pub fn new(out: Vec<u8>, most: usize) -> LineBuffer
        ensures out { result.out ≡ out }
        ensures room { (result.is_full ≡ false) × (result.end ≤ vec_len out + most) }
    {
        let end = out.len() + most.min(out.capacity() - out.len());
        LineBuffer {
            out,
            end,
            is_full: false,
        }
    }

    /// The list, and whether all texts found room.
    pub fn into_parts(self) -> (Vec<u8>, bool)
        ensures { (result.0 ≡ self.out) × (result.1 ≡ self.is_full) }
    {
        (self.out, self.is_full)
    }

    /// How many bytes may be written.
    #[inline(always)]
    fn room(&self) -> usize
        ensures { result + vec_len self.now.out ≡ self.now.end }
    {
        self.end - self.out.len()
    }
}

/// A text between two others.
#[derive(Clone, Copy)]
struct Between<'a> {
    front: &'a [u8],
    text: &'a [u8],
    back: &'a [u8],
}

/// A member whose name needs no escapes.
#[derive(Clone, Copy)]
struct MemberRow<'a> {
    name: &'a [u8],
    offset: u64,
    number: u64,
}

#[inline(always)]
fn and_text(out: Vec<u8>, text: &[u8]) -> (Vec<u8>, ())
    requires { HasRoom out text.now }
    ensures { Appended out result.0 text.now }
{
    (append_bytes(out, text), ())
}

#[inline(always)]
fn and_between(out: Vec<u8>, row: Between<'_>) -> (Vec<u8>, ())
    requires { HasRoom out (row.front.now ++ (row.text.now ++ row.back.now)) }
    ensures { Appended out result.0
        (row.entry.front.now ++ (row.entry.text.now ++ row.entry.back.now)) }
{
    (between(out, row.front, row.text, row.back), ())
}

#[inline(always)]
fn and_member(out: Vec<u8>, row: MemberRow<'_>) -> (Vec<u8>, ())
    requires { HasRoom out (member_row row.name.now row.offset row.number) }
    ensures { Appended out result.0
        (member_row row.entry.name.now row.entry.offset row.entry.number) }
{
    (with_member(out, row.name, row.offset, row.number), ())
}

impl TextSink for LineBuffer {
    ghost use Rattle.ctf_lines.specs.LineBuffers.{TakesIn, none_taken, both_taken};

    ghost Took = { TakesIn };

    fn is_full(&self) -> bool {
        self.is_full
    }

    #[inline(always)]
    fn put(&mut self, text: &[u8]) {
        if text.len() <= self.room() {
            replace_with(&mut self.out, text, and_text);
        } else {
            self.is_full = true;
        }
    }

    #[inline(always)]
    fn put_one(&mut self, byte: u8) {
        if self.room() > 0 {
            self.out.push_reserved(byte);
        } else {
            self.is_full = true;
        }
    }

    #[inline(always)]
    fn put_between(&mut self, front: &[u8], text: &[u8], back: &[u8]) {
        let ends = front.len() + back.len();
        let room = self.room();
        if ends <= room && text.len() <= room - ends {
            replace_with(&mut self.out, Between { front, text, back }, and_between);
        } else {
            self.is_full = true;
        }
    }

    #[inline(always)]
    #[tactic(auto, using(crate::proofs::MemberTexts::numbered_short))]
    fn put_numbered(&mut self, front: &[u8], number: u64, back: &[u8]) {
        if front.len() + back.len() + 20 <= self.room() {
            let empty = Vec::new(*self.out.allocator());
            self.out = append_number_here(replace(&mut self.out, empty), front, number, back);
        } else {
            self.is_full = true;
        }
    }

    #[inline(always)]
    #[tactic(auto, using(crate::proofs::MemberTexts::member_short))]
    fn put_member(&mut self, name: &[u8], offset: u64, number: u64) {
        let room = self.room();
        if name.len() <= room && 69 <= room - name.len() {
            replace_with(
                &mut self.out,
                MemberRow {
                    name,
                    offset,
                    number,
                },
                and_member,
            );
        } else {
            self.is_full = true;
        }
    }

    #[tactic(auto, using(crate::proofs::HexText::hex_of_twice))]
    fn put_hex(&mut self, bytes: &[u8]) {
        if bytes.len() <= self.room() / 2 {
            append_hex(&mut self.out, bytes);
        } else {
            self.is_full = true;
        }
    }

    ghost nothing = { none_taken };

    ghost joined = { both_taken };
}
