//! How a dump ends: exit statuses, and the messages of a dump that ended early.
ghost use Rattle.std.specs.Prelude.{◌≡◌};
ghost use Rattle.ctf_dump.specs.Refused.{status_after};

use crate::line::DumpFault;
use ctf_model::{Fault, fault_name};
use std::alloc::AllocError;
use std::fmt;
use std::fmt::{Display, Formatter};

/// All was written.
pub const DONE: u8 = 0;

/// A file was refused.
pub const REFUSED: u8 = 1;

/// A read or a write failed.
pub const FAILED: u8 = 3;

/// Memory was refused.
pub const NO_MEMORY: u8 = 4;

/// Why a dump ended early. Files go by their names.
#[derive(Clone, Copy)]
pub enum DumpEnd<'a> {
    /// A file could not be read.
    Unread(&'a str),
    /// A file was refused.
    Refused(&'a str, Fault),
    /// Memory was refused.
    Memory,
    /// A write failed.
    Write,
}

impl DumpEnd<'_> {
    /// The exit status.
    pub fn status(&self) -> u8
        ensures { result ≡ status_after self.now }
    {
        match self {
            DumpEnd::Refused(..) => REFUSED,
            DumpEnd::Unread(_) | DumpEnd::Write => FAILED,
            DumpEnd::Memory => NO_MEMORY,
        }
    }
}

impl Display for DumpEnd<'_> {
    ghost use Rattle.std.specs.Prelude.{Some};
    ghost use Rattle.ctf_dump.specs.Refused.{end_text};

    ghost output = { λ e. Some (end_text e) };

    fn fmt<W: fmt::Write>(&self, f: &mut Formatter<W>) -> fmt::Result {
        match self {
            DumpEnd::Unread(file) => write!(f, "{file}: Read"),
            DumpEnd::Refused(file, fault) => {
                let name = fault_name(fault.code);
                let place = fault.place;
                write!(f, "{file}: {name} at {place}")
            }
            DumpEnd::Memory => write!(f, "Memory"),
            DumpEnd::Write => write!(f, "Write"),
        }
    }
}

impl<'a> From<AllocError> for DumpEnd<'a> {
    ghost use Rattle.std.specs.Prelude.{◌≡◌};
    ghost use Rattle.ctf_dump.specs.declared.ends.DumpEnd as ends;

    ghost from_gives = { λ _ e. e ≡ ends.DumpEnd.Memory };

    fn from(_: AllocError) -> DumpEnd<'a> {
        DumpEnd::Memory
    }
}

impl<'a> From<DumpFault> for DumpEnd<'a> {
    ghost use Rattle.std.specs.Prelude.{◌≡◌};
    ghost use Rattle.ctf_dump.specs.Refused.{end_after};

    ghost from_gives = { λ fault e. e ≡ end_after fault };

    fn from(fault: DumpFault) -> DumpEnd<'a> {
        match fault {
            DumpFault::Memory => DumpEnd::Memory,
            DumpFault::Write => DumpEnd::Write,
        }
    }
}
