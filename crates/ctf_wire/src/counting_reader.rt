//! A reader whose reads are counted.
ghost use Rattle.std.specs.Prelude.{◌≡◌, ◌+◌, ◌-◌, ◌^◌, ◌<◌};
ghost use Rattle.std.specs.Io.{ReadsAtMost};
ghost use Rattle.std.specs.Io.KnownBytes.{ReadConsumes};

use std::io;
use std::io::Read;

/// A reader, and how many reads of it were made. Only `read` reads from it.
#[derive(Drop)]
pub struct CountedReader<R> {
    reader: R,
    reads: u64,
}

impl<R> CountedReader<R> {
    /// Nothing is read yet.
    pub fn new(reader: R) -> Self
        ensures reader { result.reader ≡ reader }
        ensures reads { result.reads ≡ 0 }
    {
        CountedReader { reader, reads: 0 }
    }

    /// How many reads were made.
    pub fn reads(&self) -> u64
        ensures { result ≡ self.now.reads }
    {
        self.reads
    }
}

impl<R: Read> CountedReader<R> {
    /// Reads once.
    pub fn read(&mut self, buffer: &mut [u8]) -> io::Result<usize>
        requires count { self.old.reads < 2 ^ 64 - 1 }
        ensures counted { self.new.reads ≡ self.old.reads + 1 }
        ensures bound { ReadsAtMost result buffer.new }
        ensures bytes { ReadConsumes (R.remaining self.old.reader) (R.remaining self.new.reader)
            result buffer.new }
    {
        self.reads += 1;
        self.reader.read(buffer)
    }
}
