//! The line that has come so far.
ghost use Rattle.std.specs.Prelude.{◌≡◌, ◌↔◌, ℕ, ◌++◌, [], List, IfOk, IsTrue, IsSome, Some, is_none};
ghost use Rattle.ctf_protocol.specs.lines.Lines.{stored_line};

use ctf_lines::LONGEST_LINE;
use std::alloc::{AllocError, Global};
use std::marker::Model;

/// The part of a line that has come so far, unless it is too long to be stored.
#[derive(Drop)]
pub struct Pending {
    bytes: Vec<u8>,
    too_long: bool,
}

impl Model for Pending {
    ghost use Rattle.std.specs.Prelude.{ℕ, ◌≤◌, List, Option, vec_capacity, vec_len, Some, None, if◌then◌else◌};
    ghost use Rattle.ctf_protocol.specs.lines.Lines.{longest_line};

    ghost Value = { Option (List ℕ) };

    ghost view = { λ p. if p.too_long then None else Some p.bytes.items };

    ghost invariant = { λ p. (longest_line ≤ vec_capacity p.bytes)
        × (vec_len p.bytes ≤ longest_line) };
}

impl Pending {
    /// An empty line, with room for the longest one.
    pub fn new(alloc: Global) -> Result<Self, AllocError>
        ensures { IfOk result (λ p. p ≡ Some []) }
    {
        Ok(Pending {
            bytes: Vec::with_capacity(alloc, LONGEST_LINE)?,
            too_long: false,
        })
    }

    /// Begins a new line.
    pub fn clear(&mut self)
        ensures { self.new ≡ Some [] }
    {
        self.bytes.clear();
        self.too_long = false;
    }

    /// Appends one more piece of the line.
    pub fn append(&mut self, piece: &[u8])
        ensures { (held : List ℕ) → self.old ≡ stored_line held
            → self.new ≡ stored_line (held ++ piece.now) }
    {
        if piece.len() <= LONGEST_LINE - self.bytes.len() {
            let _ = self.bytes.extend_from_slice(piece);
        } else {
            self.too_long = true;
        }
    }

    /// Whether the line is too long to be stored.
    pub fn is_too_long(&self) -> bool
        ensures { result ≡ is_none self.now }
    {
        self.too_long
    }

    /// The line, if it could be stored.
    pub fn bytes(&self) -> &[u8]
        requires { IsSome self.now }
        ensures { self.now ≡ Some result.now }
    {
        &self.bytes
    }

    /// Whether nothing has come.
    pub fn is_empty(&self) -> bool
        ensures { IsTrue result ↔ (self.now ≡ Some []) }
    {
        self.bytes.is_empty() && !self.too_long
    }
}
