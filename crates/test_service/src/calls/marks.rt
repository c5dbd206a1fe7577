//! What a source and a sink say after a run, names of its faults, and numbers of slots.

use crate::calls::runs::put_end;
use crate::collected::AnswerWords;
use crate::transcripts::outcomes::Exchange;
use ctf_protocol::SlotNumber;
use ctf_wire::{Broker, FromReader, RunFault, Sink, Source, ToWriter, serve_bounded};

/// How a run of two reads ends, how many it made, and which marks it left.
pub fn marks(said: &mut AnswerWords, told: &Exchange) {
    let alloc = said.alloc();
    let mut source = FromReader::new(told.input.as_slice());
    let mut sink = ToWriter::new(Vec::new(alloc));
    let mut broker = Broker::new(alloc);
    let end = serve_bounded(alloc, &mut broker, &mut source, &mut sink, 2);
    put_end(said, end);
    said.number(source.pulls());
    if source.ended() {
        said.word("ended");
    }
    if source.failed() || sink.failed() {
        said.word("failed");
    }
}

/// The names of all faults that end a run.
pub fn faults(said: &mut AnswerWords) {
    put_end(said, Err(RunFault::Read));
    put_end(said, Err(RunFault::Write));
    put_end(said, Err(RunFault::ReadBound));
    put_end(said, Err(RunFault::Memory));
}

/// The slot with a number.
pub fn slot(said: &mut AnswerWords, words: &str) {
    match SlotNumber::new(words.parse::<u32>().unwrap_or(0)) {
        Some(slot) => said.number(u64::from(slot.get())),
        None => said.word("none"),
    }
}
