//! Joins two lists of bytes.
ghost use Rattle.std.specs.Prelude.{◌≡◌, ◌++◌, IfOk};

use ctf_model::Bytes;
use std::alloc::{AllocError, Global};

/// A list of bytes: `front`, and `back` after it.
pub fn join_bytes(alloc: Global, front: &[u8], back: &[u8]) -> Result<Bytes, AllocError>
    ensures { IfOk result (λ bytes. bytes ≡ front.now ++ back.now) }
{
    let mut bytes = Bytes::from_slice(alloc, front)?;
    bytes.append(back)?;
    Ok(bytes)
}
