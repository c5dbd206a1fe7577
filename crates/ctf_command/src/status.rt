//! How the program ends: exit statuses, and the text of a fault.
ghost use Rattle.std.specs.Prelude.{◌≡◌, IfErr, OnOk};
ghost use Rattle.ctf_command.specs.Status.{status_after, status_beside};

use clap::error::ErrorKind;
use ctf_wire::RunFault;

/// All was done.
pub const DONE: u8 = 0;

/// The words of the command line were wrong.
pub const MISUSED: u8 = 2;

/// A read or a write failed, or the bound on reads was reached.
pub const FAILED: u8 = 3;

/// Memory was refused.
pub const NO_MEMORY: u8 = 4;

/// The status of a run that ended before its input did.
pub fn status_of(fault: RunFault) -> u8
    ensures { result ≡ status_after fault }
{
    match fault {
        RunFault::Read | RunFault::Write | RunFault::ReadBound => FAILED,
        RunFault::Memory => NO_MEMORY,
    }
}

/// The status after help or the version was printed, or a message on wrong words.
pub fn usage_status(kind: ErrorKind) -> u8
    ensures { result ≡ status_beside kind }
{
    match kind {
        ErrorKind::DisplayHelp | ErrorKind::DisplayVersion => DONE,
        ErrorKind::OutOfMemory => NO_MEMORY,
        _ => MISUSED,
    }
}

/// Writes the fault that ended a run to standard error, if there is one, and returns the exit
/// status.
pub fn end(rt: &HostRuntime, outcome: Result<(), RunFault>) -> u8
    ensures done { OnOk outcome (result ≡ 0) }
    ensures fault { IfErr outcome (λ f. result ≡ status_after f) }
{
    let Err(fault) = outcome else {
        return DONE;
    };
    let _ = eprintln!(rt; "ctfd: {fault}");
    status_of(fault)
}
