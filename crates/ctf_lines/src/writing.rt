//! Writes the line of a reply.
ghost use Rattle.std.specs.Prelude.{◌≡◌, ◌≤◌, length, MatchBool};
ghost use Rattle.ctf_protocol.specs.lines.ReplyLines.{answer_line, fault_fields, fault_line, fitting_answer, object_line, reply_line};
ghost use Rattle.ctf_answers.specs.Counts.{counts_view};
ghost use Rattle.ctf_answers.specs.Replies.{reply_of, change_reply};
ghost use Rattle.ctf_lines.specs.Appending.{Appended, IsAsBefore, Writes, and_text};

use crate::fields::put_fields;
use crate::line_buffers::LineBuffer;
use crate::line_traits::ToLine;
use crate::measures::Measure;
use crate::refusals::put_fault;
use crate::room::put_counts;
use crate::text_sinks::TextSink;
use crate::texts::LONGEST_REPLY;
use ctf_answers::{Answer, Counts, Reply, Single};
use ctf_protocol::{Fault, fault_name, placeless};
use std::alloc::AllocError;
use std::mem::replace;

/// The greatest length of the line of a refusal, or of a reply to a change.
pub const SHORT_LINE: usize = 96;

/// The longest line that is written in one pass, in bytes with its newline. The text of `show` or
/// `name` fits if few of its bytes are escaped.
pub const SHORT_PASS: usize = 131_072;

/// Writes the line of an object.
fn put_line<P: TextSink>(sink: &mut P, under: &str, session: u32, fields: &Answer<'_>)
    ensures { P.Took sink.old (object_line under.now session fields.now) sink.new }
{
    sink.put_between(b"{\"", under.as_bytes(), b"\":{");
    put_fields(sink, fields);
    sink.put_numbered(b"},\"s\":", u64::from(session), b"}\n");
}

/// The length of the line of an object, newline included; `TOO_LONG` for any line longer than a
/// reply may be.
fn object_len(under: &str, session: u32, fields: &Answer<'_>) -> usize
    ensures { result ≡ and_text 0 (object_line under.now session fields.now) }
{
    let mut measure = Measure::new();
    put_line(&mut measure, under, session, fields);
    measure.len()
}

/// Appends the line of an object that has a length, or nothing where memory is refused.
fn write_object(
    out: &mut Vec<u8>,
    len: usize,
    under: &str,
    session: u32,
    fields: &Answer<'_>,
) -> Result<(), AllocError>
    requires { len ≡ length (object_line under.now session fields.now) }
    ensures { Writes out.old (object_line under.now session fields.now) result out.new }
{
    out.reserve_exact(len)?;
    put_line(out, under, session, fields);
    Ok(())
}

/// Appends the line of an object in one pass, or nothing if it is long or finds no room.
fn write_short(out: &mut Vec<u8>, session: u32, fields: &Answer<'_>) -> bool
    ensures { MatchBool result
        (Appended out.old out.new (answer_line session fields.now)
        × (length (answer_line session fields.now) ≤ 131072))
        (IsAsBefore out.old out.new) }
{
    let len = out.len();
    let empty = Vec::new(*out.allocator());
    let mut buffer = LineBuffer::new(replace(out, empty), SHORT_PASS);
    put_line(&mut buffer, "ok", session, fields);
    let (lines, is_full) = buffer.into_parts();
    *out = lines;
    if is_full {
        out.truncate(len);
    }
    !is_full
}

/// The fields of a refusal.
fn fault_answer<'a>(fault: Fault) -> Answer<'a>
    ensures { result ≡ fault_fields fault }
{
    Answer::three(
        "code",
        Single::Number(u64::from(fault.code)),
        "name",
        Single::Word(fault_name(fault.code)),
        "place",
        Single::Number(fault.place),
    )
}

/// Appends a refusal. It is measured only if there may be no room for it.
#[tactic(auto, using(crate::proofs::Short::fault_short))]
fn write_fault(out: &mut Vec<u8>, session: u32, fault: Fault) -> Result<(), AllocError>
    ensures written { Writes out.old (fault_line session fault) result out.new }
    ensures short { length (fault_line session fault) ≤ 96 }
{
    if SHORT_LINE <= out.capacity() - out.len() {
        put_fault(out, session, fault);
        return Ok(());
    }
    let fields = fault_answer(fault);
    let len = object_len("fault", session, &fields);
    write_object(out, len, "fault", session, &fields)
}

/// Appends an answer that is measured first, or the refusal of one that is too long.
#[tactic(auto, using(crate::proofs::Short::fitting_fits, crate::proofs::Short::fitting_long))]
fn write_measured(out: &mut Vec<u8>, session: u32, answer: &Answer<'_>) -> Result<(), AllocError>
    ensures { Writes out.old (fitting_answer session answer.now) result out.new }
{
    let len = object_len("ok", session, answer);
    if len <= LONGEST_REPLY + 1 {
        write_object(out, len, "ok", session, answer)
    } else {
        write_fault(out, session, placeless(Fault::LONG_REPLY))
    }
}

/// Appends an answer, or the refusal of one that is too long.
fn write_answer(out: &mut Vec<u8>, session: u32, answer: &Answer<'_>) -> Result<(), AllocError>
    ensures { Writes out.old (fitting_answer session answer.now) result out.new }
{
    if write_short(out, session, answer) {
        return Ok(());
    }
    write_measured(out, session, answer)
}

#[inline(always)]
#[tactic(auto, using(crate::proofs::Short::counts_short))]
fn write_counts(out: &mut Vec<u8>, session: u32, counts: Counts) -> Result<(), AllocError>
    ensures written { Writes out.old (fitting_answer session (counts_view counts)) result out.new }
    ensures short { length (fitting_answer session (counts_view counts)) ≤ 96 }
{
    if SHORT_LINE <= out.capacity() - out.len() {
        put_counts(out, session, counts);
        return Ok(());
    }
    write_answer(out, session, &counts.answer())
}

/// Appends the line of a reply to a change. If there is room for a short line, no memory is taken.
#[inline(always)]
pub fn write_change(
    out: &mut Vec<u8>,
    session: u32,
    outcome: Result<Counts, Fault>,
) -> Result<(), AllocError>
    ensures written { Writes out.old (reply_line (change_reply session outcome)) result out.new }
    ensures short { length (reply_line (change_reply session outcome)) ≤ 96 }
{
    match outcome {
        Ok(counts) => write_counts(out, session, counts),
        Err(fault) => write_fault(out, session, fault),
    }
}

/// Appends the line of a reply, directly from what it borrows. If there is room, no memory is
/// taken.
pub fn write_reply(out: &mut Vec<u8>, reply: &Reply<'_>) -> Result<(), AllocError>
    ensures { Writes out.old (reply_line (reply_of reply.now)) result out.new }
{
    match &reply.outcome {
        Ok(answer) => write_answer(out, reply.session, answer),
        Err(fault) => write_fault(out, reply.session, *fault),
    }
}

impl<'a> ToLine for Reply<'a> {
    ghost line = { λ reply. reply_line (reply_of reply) };

    fn write(&self, out: &mut Vec<u8>) -> Result<(), AllocError> {
        write_reply(out, self)
    }
}
