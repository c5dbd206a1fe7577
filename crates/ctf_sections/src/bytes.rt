//! Little-endian numbers in bytes.
ghost use Rattle.std.specs.Prelude.{◌≡◌, ◌+◌, ◌≤◌, length};
ghost use Rattle.ctf_model.specs.format.Bytes.{u16_at as number16_at, u32_at as number32_at, u64_at as number64_at};

use byteorder::{ByteOrder, LittleEndian};

/// The number in the two bytes at an offset.
pub fn u16_at(bytes: &[u8], at: usize) -> u16
    requires { at + 2 ≤ length bytes.now }
    ensures { result ≡ number16_at bytes.now at }
{
    LittleEndian::read_u16(&bytes[at..])
}

/// The number in the four bytes at an offset.
pub fn u32_at(bytes: &[u8], at: usize) -> u32
    requires { at + 4 ≤ length bytes.now }
    ensures { result ≡ number32_at bytes.now at }
{
    LittleEndian::read_u32(&bytes[at..])
}

/// The number in the eight bytes at an offset.
pub fn u64_at(bytes: &[u8], at: usize) -> u64
    requires { at + 8 ≤ length bytes.now }
    ensures { result ≡ number64_at bytes.now at }
{
    LittleEndian::read_u64(&bytes[at..])
}
