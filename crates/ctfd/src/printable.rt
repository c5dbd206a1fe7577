//! Text for a terminal: control characters in names of files and in words are replaced.

use std::fmt::Display;
use std::io;
use std::io::Write;

/// What replaces a control character.
const SHOWN: &[u8] = b"?";

/// Whether a byte may control a terminal. A newline and a tab may not.
fn is_control(byte: u8) -> bool {
    byte < b' ' && byte != b'\n' && byte != b'\t' || byte == 0x7f
}

/// A writer that passes its bytes on to another, with a question mark for each control character.
#[derive(Drop)]
pub struct Printable<W> {
    pub writer: W,
}

impl<W: Write> Write for Printable<W> {
    fn write(&mut self, buf: &[u8]) -> io::Result<usize> {
        let plain = buf
            .iter()
            .position(|byte| is_control(*byte))
            .unwrap_or(buf.len());
        if plain == 0 && !buf.is_empty() {
            return self.writer.write(SHOWN);
        }
        self.writer.write(&buf[..plain])
    }

    fn flush(&mut self) -> io::Result<()> {
        self.writer.flush()
    }
}

/// Writes a text to standard error.
pub fn complain<D: Display + Drop>(rt: &HostRuntime, text: D) -> io::Result<()> {
    let mut errors = Printable {
        writer: rt.stderr(),
    };
    write!(errors, "{text}")
}
