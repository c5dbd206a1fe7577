//! A sink that keeps each flushed piece: a sink that knows its flushes.
ghost use Rattle.std.specs.Prelude.{◌≡◌, Some, None, map};
ghost use Rattle.ctf_wire.specs.Flushes.{Flushes};
ghost use Rattle.ctf_wire.specs.Streams.{Pushed};

use crate::collected::AnswerWords;
use crate::transcripts::outcomes::Exchange;
use ctf_wire::{Broker, FromReader, Sink, serve};
use std::alloc::{AllocError, Global};

/// Keeps each flushed piece.
#[derive(Drop)]
struct Shelf {
    alloc: Global,
    pieces: Vec<Vec<u8>>,
    waiting: Vec<u8>,
    failed: bool,
}

impl Sink for Shelf {
    ghost pushed = { λ s. record {
      contents = None;
      flushes = Some (record {
        pieces = map (λ piece. piece.items) s.pieces.items;
        waiting = s.waiting.items;
      });
      failed = s.failed;
    } };

    fn push(&mut self, bytes: &[u8]) -> Option<usize> {
        if self.waiting.extend_from_slice(bytes).is_err() {
            self.failed = true;
            return None;
        }
        Some(bytes.len())
    }

    fn flush(&mut self) -> bool {
        let Ok(piece) = Vec::from_slice(self.alloc, &self.waiting) else {
            self.failed = true;
            return false;
        };
        if self.pieces.push(piece).is_err() {
            self.failed = true;
            return false;
        }
        self.waiting.clear();
        true
    }

    fn failed(&self) -> bool {
        self.failed
    }
}

/// What is on the shelf after a run, if some bytes wait there before it: each flushed piece with a
/// bar after it, and the bytes that wait.
fn on_shelf(alloc: Global, before: &[u8], input: &[u8]) -> Result<Vec<u8>, AllocError> {
    let mut source = FromReader::new(input);
    let mut shelf = Shelf {
        alloc,
        pieces: Vec::new(alloc),
        waiting: Vec::from_slice(alloc, before)?,
        failed: false,
    };
    let _ = serve(alloc, &mut Broker::new(alloc), &mut source, &mut shelf);
    let mut out = Vec::new(alloc);
    for piece in &shelf.pieces {
        out.extend_from_slice(piece)?;
        out.push(b'|')?;
    }
    out.extend_from_slice(&shelf.waiting)?;
    Ok(out)
}

/// What is on the shelf after a run, after a text that waited there.
pub fn put_shelf(said: &mut AnswerWords, told: &Exchange, before: &str) {
    let Ok(shelf) = on_shelf(said.alloc(), before.as_bytes(), &told.input) else {
        return said.word("no memory");
    };
    match shelf.strip_prefix(before.as_bytes()) {
        Some(written) => said.front(&told.want, written),
        None => said.word("other"),
    }
}
