//! The line of the answer to a change, written in one step if there is room for the longest.
ghost use Rattle.std.specs.Prelude.{◌+◌, ◌≤◌, vec_len, vec_capacity};
ghost use Rattle.ctf_answers.specs.Counts.{counts_view};
ghost use Rattle.ctf_protocol.specs.lines.ReplyLines.{answer_line};
ghost use Rattle.ctf_lines.specs.Appending.{Appended, HasRoom};
ghost use Rattle.ctf_lines.specs.Rows.{count_row, counts_row, done_row, one_row, two_row};

use crate::appending::{append_bytes, append_number, between, with_number};
use ctf_answers::{Count, Counts};
use std::mem::replace;

/// Appends a number with its key.
#[inline(always)]
fn with_count(out: Vec<u8>, key: &[u8], number: u64) -> Vec<u8>
    requires { HasRoom out (count_row key.now number) }
    ensures { Appended out result (count_row key.now number) }
{
    let out = between(out, b"\"", key, b"\":");
    with_number(out, number)
}

/// Appends the line of an answer that has no fields.
#[inline(always)]
fn with_done(out: Vec<u8>, session: u64) -> Vec<u8>
    requires { HasRoom out (done_row session) }
    ensures { Appended out result (done_row session) }
{
    append_number(out, b"{\"ok\":{},\"s\":", session, b"}\n")
}

/// Appends the line of an answer with one number.
#[inline(always)]
fn with_one(out: Vec<u8>, session: u64, a: Count) -> Vec<u8>
    requires { HasRoom out (one_row session a.key.now a.number) }
    ensures { Appended out result (one_row session a.key.now a.number) }
{
    let out = append_bytes(out, b"{\"ok\":{");
    let out = with_count(out, a.key.as_bytes(), a.number);
    append_number(out, b"},\"s\":", session, b"}\n")
}

/// Appends the line of an answer with two numbers.
#[inline(always)]
fn with_two(out: Vec<u8>, session: u64, a: Count, b: Count) -> Vec<u8>
    requires { HasRoom out (two_row session a.key.now a.number b.key.now b.number) }
    ensures { Appended out result (two_row session a.key.now a.number b.key.now b.number) }
{
    let out = append_bytes(out, b"{\"ok\":{");
    let out = with_count(out, a.key.as_bytes(), a.number);
    let out = append_bytes(out, b",");
    let out = with_count(out, b.key.as_bytes(), b.number);
    append_number(out, b"},\"s\":", session, b"}\n")
}

/// Appends the line of an answer with up to two numbers.
#[inline(always)]
fn with_counts(out: Vec<u8>, session: u64, counts: Counts) -> Vec<u8>
    requires { HasRoom out (counts_row session counts.first counts.second) }
    ensures { Appended out result (counts_row session counts.first counts.second) }
{
    match (counts.first, counts.second) {
        (None, None) => with_done(out, session),
        (Some(a), None) => with_one(out, session, a),
        (None, Some(a)) => with_one(out, session, a),
        (Some(a), Some(b)) => with_two(out, session, a, b),
    }
}

/// Appends the line of the answer to a change, if there is room for the longest.
#[inline(always)]
pub fn put_counts(out: &mut Vec<u8>, session: u32, counts: Counts)
    requires { vec_len out.old + 96 ≤ vec_capacity out.old }
    ensures { Appended out.old out.new (answer_line session (counts_view counts)) }
{
    let empty = Vec::new(*out.allocator());
    *out = with_counts(replace(out, empty), u64::from(session), counts);
}
