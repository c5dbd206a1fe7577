//! Serves the lines of all sessions.
ghost use Rattle.std.specs.Prelude.{◌≡◌, ◌≢◌, ◌⊎◌, ◌<◌, ◌^◌, ℕ, List, length, Err};
ghost use Rattle.ctf_protocol.specs.lines.ReplyLines.{reply_line};
ghost use Rattle.ctf_protocol.specs.sessions.Runs.{no_memory};
ghost use Rattle.ctf_protocol.specs.declared.requests.Request.TheVariants.{Asks, Changes};
ghost use Rattle.ctf_answers.specs.Replies.{reply_of, change_reply};
ghost use Rattle.ctf_wire.specs.Endings.{IsReady, PullsAtMost};
ghost use Rattle.ctf_wire.specs.Room.{HasReplyRoom, Replies};
ghost use Rattle.ctf_wire.specs.Serving.{BrokerStep, ServesAlone, ServesTo};
ghost use Rattle.ctf_wire.specs.ServingAs.{AnswersAs, LineStepsAs};
ghost use Rattle.ctf_broker.specs.Table.{library_at};

use crate::engine::answer_bounded;
use crate::machines::Machine;
use crate::run_faults::RunFault;
use crate::sinks::Sink;
use crate::sources::Source;
use crate::turns::Run;
use ctf_answers::{Counts, Reply};
use ctf_broker::Broker;
use ctf_lines::{FromLine, SHORT_LINE, Scratch, ToLine, memory_line, read_as, write_change};
use ctf_protocol::{Change, Fault, Question, Request, SlotNumber, placeless};
use std::alloc::Global;

/// Appends the line of a short reply.
#[inline(always)]
fn append_short(out: &mut Vec<u8>, session: u32, outcome: Result<Counts, Fault>)
    requires { HasReplyRoom out.old }
    ensures { Replies out.old (reply_line (change_reply session outcome)) out.new }
{
    let _ = write_change(out, session, outcome);
}

/// Appends the line that says that memory was refused.
fn append_memory(out: &mut Vec<u8>, session: u32)
    requires { HasReplyRoom out.old }
    ensures { Replies out.old (reply_line (no_memory session)) out.new }
{
    let mut line = [0; SHORT_LINE];
    let len = memory_line(session, &mut line);
    let _ = out.extend_from_slice(&line[..len]);
}

/// Appends the line of the answer to a question. If there is no room for the line, appends that
/// memory was refused.
fn append_answer(out: &mut Vec<u8>, reply: &Reply<'_>)
    requires { HasReplyRoom out.old }
    ensures { Replies out.old (reply_line (reply_of reply.now)) out.new
        ⊎ (Replies out.old (reply_line (no_memory reply.now.session)) out.new
        × (131072 < length (reply_line (reply_of reply.now)))) }
{
    match reply.write(out) {
        Ok(()) => {}
        Err(_) => append_memory(out, reply.session),
    }
}

impl Machine for Broker {
    ghost Step = { BrokerStep };

    fn step(&mut self, scratch: &mut Scratch, line: &[u8], out: &mut Vec<u8>) {
        match Request::read(self.allocator(), scratch, line) {
            Ok((session, request)) => answer_request(self, session, session, &request, out),
            Err((session, fault)) => append_short(out, session, Err(fault)),
        }
    }

    fn step_too_long(&mut self, out: &mut Vec<u8>) {
        append_short(out, 0, Err(placeless(Fault::LONG_LINE)));
    }
}

/// Answers a line of a given session. The reply has the number that the line names, or else that of
/// the session.
pub fn step_as(
    broker: &mut Broker,
    scratch: &mut Scratch,
    session: u32,
    line: &[u8],
    out: &mut Vec<u8>,
)
    requires session { session ≢ 0 }
    requires room { HasReplyRoom out.old }
    ensures { (written : List ℕ) × LineStepsAs broker.old session line.now written broker.new
        × Replies out.old written out.new }
{
    match read_as(broker.allocator(), scratch, session, line) {
        Ok((own, request)) => answer_request(broker, session, own, &request, out),
        Err((own, fault)) => append_short(out, own, Err(fault)),
    }
}

/// Answers a question of a session. The reply has a number of its own.
#[inline(never)]
fn answer_question(
    broker: &Broker,
    session: u32,
    own: u32,
    d: SlotNumber,
    question: &Question,
    out: &mut Vec<u8>,
)
    requires { HasReplyRoom out.old }
    ensures { (written : List ℕ)
        × AnswersAs (library_at broker.now) session own (Asks d question.now) written
        (library_at broker.now)
        × Replies out.old written out.new }
{
    let outcome = broker.answer(session, d, question);
    let reply = Reply {
        session: own,
        outcome,
    };
    append_answer(out, &reply);
}

/// Makes a change of a session. The reply has a number of its own.
#[inline(never)]
fn make_change(broker: &mut Broker, session: u32, own: u32, change: &Change, out: &mut Vec<u8>)
    requires session { session ≢ 0 }
    requires room { HasReplyRoom out.old }
    ensures { (written : List ℕ)
        × AnswersAs (library_at broker.old) session own (Changes change.now) written
        (library_at broker.new)
        × Replies out.old written out.new }
{
    let outcome = broker.step(session, change);
    append_short(out, own, outcome);
}

/// Answers a request of a session. The reply has the number `own`.
#[inline(always)]
fn answer_request(broker: &mut Broker, session: u32, own: u32, request: &Request, out: &mut Vec<u8>)
    requires session { session ≢ 0 }
    requires room { HasReplyRoom out.old }
    ensures { (written : List ℕ)
        × AnswersAs (library_at broker.old) session own request.now written
        (library_at broker.new)
        × Replies out.old written out.new }
{
    match request {
        Request::Asks { d, question } => {
            answer_question(broker, session, own, *d, question, out);
        }
        Request::Changes(change) => make_change(broker, session, own, change, out),
    }
}

/// The replies of a broker to lines are those of each session's own run.
pub fn serves_each_session_alone()
    ensures { ServesAlone }
{}

/// Reads lines from the source and writes their replies to the sink, to the source's end or for
/// `reads` reads. Before each read all replies are pushed and flushed.
pub fn serve_bounded<S: Source, K: Sink>(
    alloc: Global,
    broker: &mut Broker,
    source: &mut S,
    sink: &mut K,
    reads: u64,
) -> Result<(), RunFault>
    requires { IsReady (S.pulled source.old) (K.pushed sink.old) reads }
    ensures serves { ServesTo reads broker.old broker.new (S.pulled source.old)
        (S.pulled source.new) (K.pushed sink.old) (K.pushed sink.new) result }
    ensures memory { result ≡ Err RunFault.Memory →
        (source.new ≡ source.old) × (sink.new ≡ sink.old) × (broker.new ≡ broker.old) }
    ensures pulls { PullsAtMost reads (S.pulled source.old) (S.pulled source.new) }
{
    let Ok(mut run) = Run::new(alloc) else {
        return Err(RunFault::Memory);
    };
    answer_bounded(&mut run, broker, source, sink, reads)
}

/// The greatest number of reads that `serve` makes.
pub const MOST_READS: u64 = 1 << 40;

/// Reads lines from the source and writes their replies to the sink, to the source's end or for
/// `MOST_READS` reads. Before each read all replies are pushed and flushed.
pub fn serve<S: Source, K: Sink>(
    alloc: Global,
    broker: &mut Broker,
    source: &mut S,
    sink: &mut K,
) -> Result<(), RunFault>
    requires { IsReady (S.pulled source.old) (K.pushed sink.old) (2 ^ 40) }
    ensures serves { ServesTo (2 ^ 40) broker.old broker.new (S.pulled source.old)
        (S.pulled source.new) (K.pushed sink.old) (K.pushed sink.new) result }
    ensures memory { result ≡ Err RunFault.Memory →
        (source.new ≡ source.old) × (sink.new ≡ sink.old) × (broker.new ≡ broker.old) }
    ensures pulls { PullsAtMost (2 ^ 40) (S.pulled source.old) (S.pulled source.new) }
{
    serve_bounded(alloc, broker, source, sink, MOST_READS)
}
