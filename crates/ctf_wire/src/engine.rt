//! The loop: turn after turn, to the end of the source.
ghost use Rattle.std.specs.Prelude.{◌≡◌, ◌≢◌, ℕ, [], Some, Err};
ghost use Rattle.ctf_wire.specs.Endings.{EndsBy, IsReady, PullsAtMost};
ghost use Rattle.ctf_wire.specs.Served.{BrokenOff, Serves};

use crate::machines::Machine;
use crate::run_faults::RunFault;
use crate::sinks::Sink;
use crate::sources::Source;
use crate::turns::Run;

/// Answers the lines of the source, to its end or for `reads` reads, in a run that has read nothing
/// yet. The run has allocated all memory that it needs, so no refused allocation ends it.
pub fn answer_bounded<M: Machine, S: Source, K: Sink>(
    run: &mut Run,
    machine: &mut M,
    source: &mut S,
    sink: &mut K,
    reads: u64,
) -> Result<(), RunFault>
    requires ready { IsReady (S.pulled source.old) (K.pushed sink.old) reads }
    requires fresh { run.old ≡ Some [] }
    ensures ends { let before = K.pushed sink.old in let after = K.pushed sink.new in EndsBy
        (λ lines. Serves M.Step machine.old lines machine.new before after)
        (λ sure lines. BrokenOff M.Step machine.old sure lines machine.new before after)
        reads (S.pulled source.old) (S.pulled source.new) after result }
    ensures granted { result ≢ Err RunFault.Memory }
    ensures pulls { PullsAtMost reads (S.pulled source.old) (S.pulled source.new) }
{
    for turn in 0..reads {
        if !run.turn(machine, source, sink)? {
            return Ok(());
        }
    }
    Err(RunFault::ReadBound)
}
