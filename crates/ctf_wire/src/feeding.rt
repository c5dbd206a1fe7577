//! Passes what one read took: lines to a machine, replies into a batch, and the batch to a sink.
ghost use Rattle.std.specs.Prelude.{◌≡◌, ℕ, ◌≤◌, ◌+◌, ◌++◌, ◌∷◌, [], IsTrue, List, Some, length, true, false, vec_capacity};
ghost use Rattle.ctf_protocol.specs.lines.Lines.{longest_line, whole_lines};
ghost use Rattle.ctf_wire.specs.Room.{HasReplyRoom, Replies};
ghost use Rattle.ctf_wire.specs.Gathering.{Feeds};
ghost use Rattle.ctf_wire.specs.Standing.{Finishes, TakesIn};

use crate::batch::Batch;
use crate::machines::Machine;
use crate::pending::Pending;
use crate::pieces::cut;
use crate::sending::{flush_batch, make_room};
use crate::sinks::Sink;
use ctf_lines::{LONGEST_LINE, Scratch};

/// Answers the pending line. The reply waits in the batch.
fn answer<M: Machine>(machine: &mut M, scratch: &mut Scratch, pending: &Pending, batch: &mut Batch)
    requires { HasReplyRoom batch.old.bytes }
    ensures answers { (reply : List ℕ) × M.Step machine.old pending.now reply machine.new
        × Replies batch.old.bytes reply batch.new.bytes }
    ensures waits { batch.new.waits ≡ true }
{
    if pending.is_too_long() {
        machine.step_too_long(&mut batch.bytes);
    } else {
        machine.step(scratch, pending.bytes(), &mut batch.bytes);
    }
    batch.waits = true;
}

/// Answers a line that came whole. The reply waits in the batch.
fn answer_whole<M: Machine>(machine: &mut M, scratch: &mut Scratch, line: &[u8], batch: &mut Batch)
    requires { HasReplyRoom batch.old.bytes }
    ensures answers { (reply : List ℕ) × M.Step machine.old (Some line.now) reply machine.new
        × Replies batch.old.bytes reply batch.new.bytes }
    ensures waits { batch.new.waits ≡ true }
{
    machine.step(scratch, line, &mut batch.bytes);
    batch.waits = true;
}

/// Whether a piece is a whole line, with nothing pending before it, that is not too long.
fn is_whole(pending: &Pending, piece: &[u8]) -> bool
    ensures { IsTrue result → (pending.now ≡ Some []) × (length piece.now ≤ longest_line) }
{
    pending.is_empty() && piece.len() <= LONGEST_LINE
}

/// What is kept from one line to the next: the part of a line that has come so far, the replies
/// that wait, and the memory for reading a line.
#[derive(Drop)]
pub struct Intake {
    pub pending: Pending,
    pub batch: Batch,
    pub scratch: Scratch,
}

impl Intake {
    /// Answers the line that this piece ends. A line that came whole is read in place.
    fn end_line<M: Machine, K: Sink>(&mut self, machine: &mut M, sink: &mut K, piece: &[u8]) -> bool
        requires room { 65536 + 131072 ≤ vec_capacity self.old.batch.bytes }
        requires piece { whole_lines piece.now ≡ [] }
        ensures feeds { Feeds M.Step machine.old self.old.pending self.old.batch
            (K.pushed sink.old) (piece.now ++ 10 ∷ []) result machine.new self.new.pending
            self.new.batch (K.pushed sink.new) }
        ensures empty { result ≡ false → self.new.batch.bytes.items ≡ [] }
        ensures none { result ≡ false → self.new.batch.waits ≡ false }
        ensures grows { vec_capacity self.old.batch.bytes ≤ vec_capacity self.new.batch.bytes }
    {
        if !make_room(sink, &mut self.batch) {
            return false;
        }
        if is_whole(&self.pending, piece) {
            answer_whole(machine, &mut self.scratch, piece, &mut self.batch);
            return true;
        }
        self.pending.append(piece);
        answer(machine, &mut self.scratch, &self.pending, &mut self.batch);
        self.pending.clear();
        true
    }

    /// Takes bytes in: answers each line that they end.
    fn feed<M: Machine, K: Sink>(&mut self, machine: &mut M, sink: &mut K, bytes: &[u8]) -> bool
        requires { 65536 + 131072 ≤ vec_capacity self.old.batch.bytes }
        ensures feeds { Feeds M.Step machine.old self.old.pending self.old.batch
            (K.pushed sink.old) bytes.now result machine.new self.new.pending
            self.new.batch (K.pushed sink.new) }
        ensures empty { result ≡ false → self.new.batch.bytes.items ≡ [] }
        ensures none { result ≡ false → self.new.batch.waits ≡ false }
        ensures grows { vec_capacity self.old.batch.bytes ≤ vec_capacity self.new.batch.bytes }
    {
        let mut rest = bytes;
        while let Some((piece, after)) = cut(rest) {
            if !self.end_line(machine, sink, piece) {
                return false;
            }
            rest = after;
        }
        self.pending.append(rest);
        true
    }

    /// Takes in what one read took: answers each line that it ends, and sends all replies.
    pub fn take_in<M: Machine, K: Sink>(
        &mut self,
        machine: &mut M,
        sink: &mut K,
        bytes: &[u8],
    ) -> bool
        requires room { 65536 + 131072 ≤ vec_capacity self.old.batch.bytes }
        requires empty { self.old.batch.bytes.items ≡ [] }
        requires none { self.old.batch.waits ≡ false }
        ensures takes { TakesIn M.Step machine.old self.old.pending (K.pushed sink.old)
            bytes.now result machine.new self.new.pending (K.pushed sink.new) }
        ensures empty { self.new.batch.bytes.items ≡ [] }
        ensures none { self.new.batch.waits ≡ false }
        ensures grows { vec_capacity self.old.batch.bytes ≤ vec_capacity self.new.batch.bytes }
    {
        if !self.feed(machine, sink, bytes) {
            return false;
        }
        flush_batch(sink, &mut self.batch)
    }

    /// Answers the last line, if it has no newline and is not empty, and sends the reply.
    pub fn finish<M: Machine, K: Sink>(&mut self, machine: &mut M, sink: &mut K) -> bool
        requires room { 65536 + 131072 ≤ vec_capacity self.old.batch.bytes }
        requires empty { self.old.batch.bytes.items ≡ [] }
        requires none { self.old.batch.waits ≡ false }
        ensures finishes { Finishes M.Step machine.old self.old.pending (K.pushed sink.old)
            result machine.new (K.pushed sink.new) }
        ensures empty { self.new.batch.bytes.items ≡ [] }
        ensures none { self.new.batch.waits ≡ false }
        ensures grows { vec_capacity self.old.batch.bytes ≤ vec_capacity self.new.batch.bytes }
    {
        if self.pending.is_empty() {
            return true;
        }
        answer(machine, &mut self.scratch, &self.pending, &mut self.batch);
        flush_batch(sink, &mut self.batch)
    }
}
