//! A reader and a writer in memory, whose calls fail as a case says.

use crate::serving::cases::Case;
use std::alloc::Global;
use std::io;
use std::io::{ErrorKind, Read, Write};

/// Gives its bytes in pieces.
#[derive(Drop)]
pub struct Pieces<'a> {
    rest: &'a [u8],
    reads: u32,
    case: Case,
}

impl<'a> Pieces<'a> {
    pub fn new(bytes: &'a [u8], case: Case) -> Pieces<'a> {
        Pieces {
            rest: bytes,
            reads: 0,
            case,
        }
    }
}

impl Read for Pieces<'_> {
    fn read(&mut self, buf: &mut [u8]) -> io::Result<usize> {
        self.reads = self.reads.wrapping_add(1);
        if self.reads == self.case.read {
            return Err(io::Error::from(ErrorKind::Other));
        }
        let n = self.case.size.min(self.rest.len()).min(buf.len());
        let (front, rest) = self.rest.split_at(n);
        buf[..n].copy_from_slice(front);
        self.rest = rest;
        Ok(n)
    }
}

/// Takes 5 bytes in each call, and may note each flush that succeeded by a bar.
#[derive(Drop)]
pub struct Notes {
    pub bytes: Vec<u8>,
    bars: bool,
    writes: u32,
    flushes: u32,
    case: Case,
}

impl Notes {
    pub fn new(alloc: Global, bars: bool, case: Case) -> Notes {
        Notes {
            bytes: Vec::new(alloc),
            bars,
            writes: 0,
            flushes: 0,
            case,
        }
    }
}

impl Write for Notes {
    fn write(&mut self, buf: &[u8]) -> io::Result<usize> {
        self.writes = self.writes.wrapping_add(1);
        if self.writes == self.case.write {
            return Err(io::Error::from(ErrorKind::Interrupted));
        }
        if self.writes == self.case.empty_write {
            return Ok(0);
        }
        let n = buf.len().min(5);
        match self.bytes.extend_from_slice(&buf[..n]) {
            Ok(()) => Ok(n),
            Err(_) => Err(io::Error::from(ErrorKind::OutOfMemory)),
        }
    }

    fn flush(&mut self) -> io::Result<()> {
        self.flushes = self.flushes.wrapping_add(1);
        if self.flushes == self.case.flush {
            return Err(io::Error::from(ErrorKind::Interrupted));
        }
        if !self.bars {
            return Ok(());
        }
        match self.bytes.push(b'|') {
            Ok(()) => Ok(()),
            Err(_) => Err(io::Error::from(ErrorKind::OutOfMemory)),
        }
    }
}
