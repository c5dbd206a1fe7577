//! The service over a reader and a writer.
ghost use Rattle.std.specs.Prelude.{◌≡◌, ◌^◌, Err};
ghost use Rattle.ctf_wire.specs.Endings.{IsReady, PullsAtMost};
ghost use Rattle.ctf_wire.specs.Serving.{ServesTo};

use ctf_wire::{Broker, FromReader, RunFault, Sink, Source, ToWriter, serve};
use std::alloc::Global;
use std::io::{Read, Write};

/// Serves the lines of a reader, and writes their replies to a writer. It borrows both, so its
/// contract says what was read, written and flushed.
pub fn serve_lines<R: Read + Drop, W: Write + Drop>(
    alloc: Global,
    broker: &mut Broker,
    source: &mut FromReader<R>,
    sink: &mut ToWriter<W>,
) -> Result<(), RunFault>
    requires { IsReady (⟦<FromReader<R> as Source>⟧.pulled source.old)
        (⟦<ToWriter<W> as Sink>⟧.pushed sink.old) (2 ^ 40) }
    ensures serves { ServesTo (2 ^ 40) broker.old broker.new
        (⟦<FromReader<R> as Source>⟧.pulled source.old)
        (⟦<FromReader<R> as Source>⟧.pulled source.new)
        (⟦<ToWriter<W> as Sink>⟧.pushed sink.old)
        (⟦<ToWriter<W> as Sink>⟧.pushed sink.new) result }
    ensures memory { result ≡ Err RunFault.Memory →
        (source.new ≡ source.old) × (sink.new ≡ sink.old) × (broker.new ≡ broker.old) }
    ensures pulls { PullsAtMost (2 ^ 40) (⟦<FromReader<R> as Source>⟧.pulled source.old)
        (⟦<FromReader<R> as Source>⟧.pulled source.new) }
{
    serve(alloc, broker, source, sink)
}
