//! Replies that wait to be sent.
ghost use Rattle.std.specs.Prelude.{◌≡◌, ◌+◌, ◌≤◌, [], true, false, IfOk, vec_capacity};

use ctf_lines::SHORT_PASS;
use std::alloc::{AllocError, Global};

/// Once so many bytes wait, they are sent before another line is answered.
pub const BATCH: usize = 65_536;

/// The replies that were gathered and not sent yet, one after the other.
#[derive(Drop)]
pub struct Batch {
    pub bytes: Vec<u8>,
    pub waits: bool,
}

impl Batch {
    /// An empty batch. After the longest batch there is still room for a reply that is written in
    /// one pass.
    pub fn new(alloc: Global) -> Result<Self, AllocError>
        ensures empty { IfOk result (λ b. b.bytes.items ≡ []) }
        ensures none { IfOk result (λ b. b.waits ≡ false) }
        ensures room { IfOk result (λ b. 65536 + 131072 ≤ vec_capacity b.bytes) }
    {
        Ok(Batch {
            bytes: Vec::with_capacity(alloc, BATCH + SHORT_PASS)?,
            waits: false,
        })
    }

    /// Empties the batch.
    pub fn clear(&mut self)
        ensures empty { self.new.bytes.items ≡ [] }
        ensures none { self.new.waits ≡ false }
        ensures room { vec_capacity self.new.bytes ≡ vec_capacity self.old.bytes }
    {
        self.bytes.clear();
        self.waits = false;
    }
}
