//! Files that are read whole.
ghost use Rattle.std.specs.Prelude.{◌≡◌, ◌≢◌, ◌<◌, ◌≤◌, IfOk, IfErr, IfSome, IsOk, Err, length, vec_len, ⊤};
ghost use Rattle.ctf_command.specs.Files.{IsUnread, Readings, bytes_given, longest_file};
ghost use Rattle.std.specs.IoError.{error_kind};

use ctf_dump::DumpEnd;
use ctf_protocol::{Fault, placeless};
use std::alloc::Global;
use std::fs::File;
use std::io;
use std::io::{ErrorKind, Read};

/// The greatest length of a file, in bytes.
const LONGEST_FILE: u32 = 67_108_864;

/// All bytes that a reader has left, unless they are more than a file may have. An error calls the
/// file `name`.
pub fn read_whole<R: Read + Drop>(
    alloc: Global,
    name: &str,
    reader: R,
    longest: u32,
) -> Result<Vec<u8>, DumpEnd<'_>>
    ensures whole { IfOk result (λ v. IfSome (R.remaining reader) (λ bytes. v.items ≡ bytes)) }
    ensures short { IfOk result (λ v. vec_len v ≤ longest) }
    ensures refused { IfErr result (λ e. IsUnread name.entry
        (IfSome (R.remaining reader) (λ bytes. longest < length bytes)) e) }
{
    let mut bytes = Vec::new(alloc);
    let mut front = reader.take(u64::from(longest) + 1);
    match front.read_to_end(&mut bytes) {
        Ok(_) if bytes.len() > longest as usize => {
            Err(DumpEnd::Refused(name, placeless(Fault::STAGE_FULL)))
        }
        Ok(_) => Ok(bytes),
        Err(error) if error.kind() == ErrorKind::OutOfMemory => Err(DumpEnd::Memory),
        Err(_) => Err(DumpEnd::Unread(name)),
    }
}

/// The bytes of a file, if it could be opened.
pub fn read_opened<R: Read + Drop>(
    alloc: Global,
    name: &str,
    opened: io::Result<R>,
) -> Result<Vec<u8>, DumpEnd<'_>>
    ensures whole { IfOk result (λ v. IfOk opened (λ reader.
        IfSome (R.remaining reader) (λ bytes. v.items ≡ bytes))) }
    ensures opened { IfOk result (λ v. IsOk opened) }
    ensures short { IfOk result (λ v. vec_len v ≤ longest_file) }
    ensures refused { IfErr result (λ e. IsUnread name.entry (IfOk opened (λ reader.
        IfSome (R.remaining reader) (λ bytes. longest_file < length bytes))) e) }
    ensures unopened { IfErr opened (λ error. error_kind error ≢ ErrorKind.OutOfMemory
        → result ≡ Err (DumpEnd.Unread name.entry)) }
    ensures memory { IfErr opened (λ error. error_kind error ≡ ErrorKind.OutOfMemory
        → result ≡ Err DumpEnd.Memory) }
{
    match opened {
        Ok(reader) => read_whole(alloc, name, reader, LONGEST_FILE),
        Err(error) if error.kind() == ErrorKind::OutOfMemory => Err(DumpEnd::Memory),
        Err(_) => Err(DumpEnd::Unread(name)),
    }
}

/// Reads whole files. What a file contains is not known to contracts: only this call says that
/// these are its bytes, or that it has none for this reason.
pub trait FileReader {
    /// Which file gave which bytes, or why it gave none.
    ghost gave: { Self → Readings };

    /// The bytes of the file with a name.
    fn read<'a>(&self, name: &'a str) -> Result<Vec<u8>, DumpEnd<'a>>
        ensures given { gave self.now name.now (bytes_given result) }
        ensures short { IfOk result (λ v. vec_len v ≤ longest_file) }
        ensures refused { IfErr result (λ e. IsUnread name.entry ⊤ e) };
}

impl FileReader for HostRuntime {
    ghost gave = { λ files name outcome. ⊤ };

    fn read<'a>(&self, name: &'a str) -> Result<Vec<u8>, DumpEnd<'a>> {
        read_file(self, name)
    }
}

/// The bytes of the file with a name.
pub fn read_file<'a>(rt: &HostRuntime, name: &'a str) -> Result<Vec<u8>, DumpEnd<'a>>
    ensures short { IfOk result (λ v. vec_len v ≤ longest_file) }
    ensures refused { IfErr result (λ e. IsUnread name.entry ⊤ e) }
{
    read_opened(rt.alloc(), name, File::open(rt, name))
}
