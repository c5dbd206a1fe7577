//! Writes and flushes the pending batch of replies.
ghost use Rattle.std.specs.Prelude.{◌≡◌, ◌≤◌, ◌+◌, ◌<◌, [], true, false, vec_capacity, vec_len};
ghost use Rattle.ctf_wire.specs.Served.{Sends};
ghost use Rattle.ctf_wire.specs.Gathering.{MakesRoom, FlushesBatch};
ghost use Rattle.ctf_wire.specs.Waiting.{Takes};

use crate::batch::{BATCH, Batch};
use crate::sinks::Sink;

/// Pushes all bytes, or says that the sink failed.
fn push_all<K: Sink>(sink: &mut K, bytes: &[u8]) -> bool
    ensures { Takes (K.pushed sink.old) bytes.now result (K.pushed sink.new) }
{
    let mut at = 0;
    while at < bytes.len() {
        match sink.push(&bytes[at..]) {
            Some(n) => at += n,
            None => return false,
        }
    }
    true
}

/// Pushes bytes and flushes, or says that the sink failed.
fn send<K: Sink>(sink: &mut K, bytes: &[u8]) -> bool
    ensures { Sends (K.pushed sink.old) bytes.now result (K.pushed sink.new) }
{
    if !push_all(sink, bytes) {
        return false;
    }
    if !sink.flush() {
        return false;
    }
    true
}

/// Sends the waiting replies, and empties the batch.
fn send_batch<K: Sink>(sink: &mut K, batch: &mut Batch) -> bool
    ensures sends { Sends (K.pushed sink.old) batch.old.bytes.items result (K.pushed sink.new) }
    ensures empty { batch.new.bytes.items ≡ [] }
    ensures none { batch.new.waits ≡ false }
    ensures room { vec_capacity batch.new.bytes ≡ vec_capacity batch.old.bytes }
{
    let sent = send(sink, &batch.bytes);
    batch.clear();
    sent
}

/// Sends the waiting replies if they are long, so that there is room for a short reply.
pub fn make_room<K: Sink>(sink: &mut K, batch: &mut Batch) -> bool
    requires { 65536 + 131072 ≤ vec_capacity batch.old.bytes }
    ensures makes { MakesRoom batch.old (K.pushed sink.old) result batch.new (K.pushed sink.new) }
    ensures room { vec_len batch.new.bytes < 65536 }
    ensures empty { result ≡ false → batch.new.bytes.items ≡ [] }
    ensures none { result ≡ false → batch.new.waits ≡ false }
    ensures keeps { vec_capacity batch.new.bytes ≡ vec_capacity batch.old.bytes }
{
    if batch.bytes.len() < BATCH {
        return true;
    }
    send_batch(sink, batch)
}

/// Sends the waiting replies, if there are any. Afterwards none waits.
pub fn flush_batch<K: Sink>(sink: &mut K, batch: &mut Batch) -> bool
    ensures flushes { FlushesBatch batch.old (K.pushed sink.old) result (K.pushed sink.new) }
    ensures empty { batch.new.bytes.items ≡ [] }
    ensures none { batch.new.waits ≡ false }
    ensures keeps { vec_capacity batch.new.bytes ≡ vec_capacity batch.old.bytes }
{
    if !batch.waits {
        batch.clear();
        return true;
    }
    send_batch(sink, batch)
}
