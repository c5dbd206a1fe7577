//! Runs of the service over a reader and a writer in memory.

pub mod cases;
mod streams;

use crate::serving::cases::Case;
use crate::serving::streams::{Notes, Pieces};
use ctf_wire::{Broker, FromReader, RunFault, ToWriter, serve, serve_bounded};
use std::alloc::Global;

/// How a run ends, and what it writes.
pub type Ran = (Result<(), RunFault>, Vec<u8>);

/// A run over all lines in which no call fails.
pub fn serve_all(alloc: Global, input: &[u8]) -> Ran {
    let case = Case::of(4096);
    let mut source = FromReader::new(Pieces::new(input, case));
    let mut notes = Notes::new(alloc, false, case);
    let mut sink = ToWriter::new(&mut notes);
    let end = serve(alloc, &mut Broker::new(alloc), &mut source, &mut sink);
    (end, notes.bytes)
}

/// A broker's run in a case. A bar is noted for each flush.
pub fn served_in(alloc: Global, broker: &mut Broker, input: &[u8], case: Case) -> Ran {
    let mut source = FromReader::new(Pieces::new(input, case));
    let mut notes = Notes::new(alloc, true, case);
    let mut sink = ToWriter::new(&mut notes);
    let reads = u64::from(case.reads);
    let end = serve_bounded(alloc, broker, &mut source, &mut sink, reads);
    (end, notes.bytes)
}
