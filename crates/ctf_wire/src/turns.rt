//! One read, and the replies to all lines that it ended.
ghost use Rattle.std.specs.Prelude.{◌≡◌, ◌+◌, ◌-◌, ◌^◌, ◌<◌, [], Some, IfOk};
ghost use Rattle.ctf_wire.specs.Turning.{Turns};

use crate::batch::Batch;
use crate::feeding::Intake;
use crate::machines::Machine;
use crate::pending::Pending;
use crate::run_faults::RunFault;
use crate::sinks::Sink;
use crate::sources::Source;
use ctf_lines::Scratch;
use std::alloc::{AllocError, Global};
use std::marker::Model;

/// How many bytes one read asks for.
const CHUNK: usize = 65_536;

/// What a run keeps from one turn to the next: the part of a line that has come so far, and memory.
/// No reply is kept: each turn sends all that it makes.
#[derive(Drop)]
pub struct Run {
    intake: Intake,
    chunk: Vec<u8>,
}

impl Model for Run {
    ghost use Rattle.std.specs.Prelude.{◌≡◌, ◌≤◌, ◌+◌, ℕ, List, Option, [], false, vec_len, vec_capacity};

    ghost Value = { Option (List ℕ) };

    ghost view = { λ r. r.intake.pending };

    ghost invariant = { λ r. (65536 + 131072 ≤ vec_capacity r.intake.batch.bytes)
        × (r.intake.batch.bytes.items ≡ []) × (r.intake.batch.waits ≡ false)
        × (vec_len r.chunk ≡ 65536) };
}

impl Run {
    /// A run that has read nothing yet.
    pub fn new(alloc: Global) -> Result<Self, AllocError>
        ensures { IfOk result (λ r. r ≡ Some []) }
    {
        Ok(Run {
            intake: Intake {
                pending: Pending::new(alloc)?,
                batch: Batch::new(alloc)?,
                scratch: Scratch::new(alloc),
            },
            chunk: Vec::from_elem(alloc, 0, CHUNK)?,
        })
    }

    /// Reads once, answers each line that is whole by then, and sends all replies, so none waits
    /// when the next turn reads. Returns whether the source goes on.
    pub fn turn<M: Machine, S: Source, K: Sink>(
        &mut self,
        machine: &mut M,
        source: &mut S,
        sink: &mut K,
    ) -> Result<bool, RunFault>
        requires { (S.pulled source.old).pulls < 2 ^ 64 - 1 }
        ensures turns { Turns M.Step machine.old self.old (S.pulled source.old) (K.pushed sink.old)
            result machine.new self.new (S.pulled source.new) (K.pushed sink.new) }
        ensures once { (S.pulled source.new).pulls ≡ (S.pulled source.old).pulls + 1 }
    {
        let Some(count) = source.pull(&mut self.chunk) else {
            return Err(RunFault::Read);
        };
        if count == 0 {
            if !self.intake.finish(machine, sink) {
                return Err(RunFault::Write);
            }
            return Ok(false);
        }
        if !self.intake.take_in(machine, sink, &self.chunk[..count]) {
            return Err(RunFault::Write);
        }
        Ok(true)
    }
}
