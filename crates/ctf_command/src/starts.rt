//! Why the service did not start.
ghost use Rattle.std.specs.Prelude.{◌≡◌, ◌≢◌};
ghost use Rattle.ctf_model.specs.declared.faults.TheConstants.Fault.{MEMORY};
ghost use Rattle.ctf_command.specs.Starts.{status_unstarted};

use crate::status::MISUSED;
use ctf_dump::DumpEnd;
use ctf_protocol::Fault;
use std::fmt;
use std::fmt::{Display, Formatter};

/// Why the service did not start. Nothing was served then.
#[derive(Clone, Copy)]
pub enum NotStarted<'a> {
    /// A word is not NAME=FILE.
    Misused,
    /// A file was refused or could not be read, or memory was refused.
    File(DumpEnd<'a>),
}

impl<'a> NotStarted<'a> {
    /// The end of a run in which a file was not published, and the reason.
    pub fn by(file: &'a str, fault: Fault) -> NotStarted<'a>
        ensures memory { fault.code ≡ MEMORY → result ≡ NotStarted.File DumpEnd.Memory }
        ensures refused { fault.code ≢ MEMORY
            → result ≡ NotStarted.File (DumpEnd.Refused file.entry fault) }
    {
        if fault.code == Fault::MEMORY {
            NotStarted::File(DumpEnd::Memory)
        } else {
            NotStarted::File(DumpEnd::Refused(file, fault))
        }
    }

    /// The exit status.
    pub fn status(&self) -> u8
        ensures { result ≡ status_unstarted self.now }
    {
        match self {
            NotStarted::Misused => MISUSED,
            NotStarted::File(end) => end.status(),
        }
    }
}

impl Display for NotStarted<'_> {
    fn fmt<W: fmt::Write>(&self, f: &mut Formatter<W>) -> fmt::Result {
        match self {
            NotStarted::Misused => write!(f, "usage: NAME=FILE"),
            NotStarted::File(end) => write!(f, "{end}"),
        }
    }
}
