//! What can be read from a line, and what can be written as one.
ghost use Rattle.std.specs.Prelude.{◌≡◌, ◌≢◌, ◌<◌, length, ℕ, List, Bool, true, Result, Ok, Err, IfOk, IfErr};
ghost use Rattle.ctf_lines.specs.Appending.{Writes};

use ctf_json::Scratch;
use ctf_protocol::Fault;
use std::alloc::{AllocError, Global};

/// What a line may ask for.
pub trait FromLine: Sized {
    ghost use Rattle.ctf_model.specs.declared.faults.Fault.{Fault};
    ghost use Rattle.ctf_model.specs.declared.faults.TheConstants.Fault.{MEMORY};
    ghost use Rattle.ctf_model.specs.rules.Refusals.{placeless};
    ghost use Rattle.ctf_protocol.specs.lines.Lines.{longest_line};

    /// The session of a line and its request, or the session (0 if there is none) and the refusal.
    ghost asked: { List ℕ → Result (ℕ × Self) (ℕ × Fault) };

    /// Whether memory may be taken to read a line.
    ghost takes_memory: { List ℕ → Bool };

    /// Reads a line, given without its newline.
    fn read(alloc: Global, scratch: &mut Scratch, line: &[u8]) -> Result<(u32, Self), (u32, Fault)>
        ensures ok { IfOk result (λ said. asked line.now ≡ Ok said) }
        ensures session { IfOk result (λ said. said.0 ≢ 0) }
        ensures refused { IfErr result (λ refusal. refusal.1.code ≢ MEMORY
            → asked line.now ≡ Err refusal) }
        // If memory was refused, no session is given.
        ensures memory { IfErr result (λ refusal. refusal.1.code ≡ MEMORY
            → refusal ≡ (0, placeless MEMORY)) }
        ensures needed { IfErr result (λ refusal. refusal.1.code ≡ MEMORY
            → takes_memory line.now ≡ true) }
        // A line that is too long takes no memory.
        ensures long { longest_line < length line.now → asked line.now ≡ result };
}

/// What can be written as a line.
pub trait ToLine {
    /// The line, with its newline.
    ghost line: { Self → List ℕ };

    /// Appends the line.
    fn write(&self, out: &mut Vec<u8>) -> Result<(), AllocError>
        ensures { Writes out.old (line self.now) result out.new };
}
