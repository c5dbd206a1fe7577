//! The sessions that requests belong to, and the run over a reader and a writer.
//!
//! Use this crate to embed the service. A [`Broker`] has the libraries of all sessions. [`serve`]
//! reads lines of JSON from a [`Source`], and writes one reply for each to a [`Sink`], until the
//! source ends. [`FromReader`] and [`ToWriter`] make these of any `Read` and `Write`:
//!
//! ```rust
//! use ctf_wire::{Broker, FromReader, RunFault, ToWriter, serve};
//! use std::io;
//!
//! fn run(rt: &HostRuntime) -> Result<(), RunFault> {
//!     let mut broker = Broker::new(rt.alloc());
//!     let mut source = FromReader::new(rt.reader());
//!     let mut sink = ToWriter::new(io::writer(rt));
//!     serve(rt.alloc(), &mut broker, &mut source, &mut sink)
//! }
//! ```
//!
//! A line has at most 1,048,576 bytes and a reply at most 4,194,304, each without its newline. A
//! request that is refused gets a reply that says so, and the run goes on. A [`RunFault`] says that
//! the reader or the writer failed, that `MOST_READS` reads were not enough, or that there was no
//! memory to begin with; nothing was read then.
//!
//! [`step_as`] answers one line of a session that you name, where lines come by other ways than a
//! reader. Before the run, [`Broker::load_section`] publishes dictionaries that sessions may take.
#![tactic(auto)]

mod batch;
mod counting_reader;
mod engine;
mod feeding;
mod history;
mod machines;
mod pending;
mod pieces;
mod readers;
mod run_faults;
mod sending;
mod serving;
mod sinks;
mod sources;
mod turns;
mod writers;

pub use ctf_answers::{Answer, Counts, Reply, Single};
pub use ctf_broker::{Broker, Library, Loaded, Pool};
pub use ctf_lines::{FromLine, ToLine, memory_line};
pub use machines::Machine;
pub use readers::FromReader;
pub use run_faults::RunFault;
pub use serving::{MOST_READS, serve, serve_bounded, serves_each_session_alone, step_as};
pub use sinks::Sink;
pub use sources::Source;
pub use turns::Run;
pub use writers::ToWriter;
