//! A text of bounded length, to which pieces are appended.
ghost use Rattle.std.specs.Prelude.{◌≡◌, ◌+◌, ◌≤◌, ◌++◌, [], length, vec_capacity, vec_len, IfErr, IsFalse, IsOk, IsTrue, OnOk, Err, Ok};
ghost use Rattle.ctf_model.specs.values.Pieces.{ends, no_pieces, piece};
ghost use Rattle.ctf_model.specs.values.Values.{label};
ghost use Rattle.ctf_print.specs.Written.{Refused, written};

use ctf_model::{Fault, placeless};
use std::alloc::Global;
use std::marker::Model;

/// The greatest length of a text that is answered, in bytes.
const LONGEST_TEXT: usize = 65_536;

/// A text of at most that length.
#[derive(Drop)]
pub struct Text {
    bytes: Vec<u8>,
}

impl Model for Text {
    ghost use Rattle.std.specs.Prelude.{ℕ, List, ◌≤◌, length};

    ghost Value = { List ℕ };

    ghost view = { λ t. t.bytes.items };

    ghost invariant = { λ t. length t.bytes.items ≤ 65536 };
}

/// Whether so many more bytes fit into a text, and into the memory that it has.
#[inline(always)]
fn has_room(bytes: &Vec<u8>, more: usize) -> bool
    ensures { IsTrue result → (vec_len bytes.now + more ≤ vec_capacity bytes.now)
        × (vec_len bytes.now + more ≤ 65536) }
{
    if more > bytes.capacity() - bytes.len() {
        return false;
    }
    bytes.len() + more <= LONGEST_TEXT
}

/// Appends bytes one by one, for which there is room.
#[inline(always)]
fn append(out: &mut Vec<u8>, bytes: &[u8])
    requires { vec_len out.old + length bytes.now ≤ vec_capacity out.old }
    ensures { out.new.items ≡ out.old.items ++ bytes.now }
{
    for byte in bytes {
        out.push_reserved(*byte);
    }
}

impl Text {
    pub fn new(alloc: Global) -> Text
        ensures { result ≡ [] }
    {
        Text {
            bytes: Vec::new(alloc),
        }
    }

    pub fn as_slice(&self) -> &[u8]
        ensures { result.now ≡ self.now }
    {
        &self.bytes
    }

    /// Appends a piece, unless the text gets too long.
    #[tactic(auto, unfolding(crate::specs::Written::written))]
    pub fn put(&mut self, bytes: &[u8]) -> Result<(), Fault>
        ensures ok { OnOk result (written self.old (piece bytes.now) ≡ Ok self.new) }
        ensures err { IfErr result (Refused self.old (piece bytes.now)) }
    {
        if LONGEST_TEXT - self.bytes.len() < bytes.len() {
            return Err(placeless(Fault::TOO_LONG));
        }
        self.bytes.extend_from_slice(bytes)?;
        Ok(())
    }

    /// Appends a piece of a few bytes if there is room and memory for it, as there mostly is.
    #[inline(always)]
    #[tactic(auto, unfolding(crate::specs::Written::written))]
    pub fn put_at_once(&mut self, bytes: &[u8]) -> bool
        ensures put { IsTrue result → written self.old (piece bytes.now) ≡ Ok self.new }
        ensures kept { IsFalse result → self.new ≡ self.old }
    {
        if !has_room(&self.bytes, bytes.len()) {
            return false;
        }
        append(&mut self.bytes, bytes);
        true
    }

    /// Appends a piece of a few bytes.
    #[inline(always)]
    pub fn put_short(&mut self, bytes: &[u8]) -> Result<(), Fault>
        ensures ok { OnOk result (written self.old (piece bytes.now) ≡ Ok self.new) }
        ensures err { IfErr result (Refused self.old (piece bytes.now)) }
    {
        if self.put_at_once(bytes) {
            return Ok(());
        }
        self.put(bytes)
    }

    /// Appends nothing: the text so far is not too long.
    #[inline(always)]
    #[tactic(auto, unfolding(crate::specs::Written::written), using(crate::proofs::Writes::nothing_written))]
    pub fn put_nothing(&mut self) -> Result<(), Fault>
        ensures done { IsOk result }
        ensures ok { OnOk result (written self.old no_pieces ≡ Ok self.new) }
        ensures err { IfErr result (Refused self.old no_pieces) }
    {
        let _ = &self.bytes;
        Ok(())
    }

    /// Ends the text with a fault.
    #[inline(always)]
    #[tactic(auto, unfolding(crate::specs::Written::written))]
    pub fn end(&mut self, fault: Fault) -> Result<(), Fault>
        ensures fault { result ≡ Err fault }
        ensures ok { OnOk result (written self.old (ends fault) ≡ Ok self.new) }
        ensures err { IfErr result (Refused self.old (ends fault)) }
        ensures kept { self.new ≡ self.old }
    {
        let _ = &self.bytes;
        Err(fault)
    }

    /// Appends the name of a member and what follows the name, if the member has one.
    #[inline(never)]
    pub fn put_name(&mut self, name: &[u8]) -> Result<(), Fault>
        ensures ok { OnOk result (written self.old (label name.now) ≡ Ok self.new) }
        ensures err { IfErr result (Refused self.old (label name.now)) }
    {
        if name.is_empty() {
            return self.put_nothing();
        }
        self.put(name)?;
        self.put_short(b" = ")
    }
}
