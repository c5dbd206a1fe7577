//! A line as it is built, and then written.

ghost use Rattle.std.specs.Prelude.{◌≡◌, ◌<◌, ◌++◌, [], codes, decimal, IfErr, IsTrue, OnOk};
ghost use Rattle.std.specs.List.{flat_map};
ghost use Rattle.std.specs.Io.KnownBytes.{Appends, Keeps};
ghost use Rattle.ctf_model.specs.dumps.Dump.{escape, in_quotes};
ghost use Rattle.ctf_model.specs.dumps.Texts.{signed_decimal};
ghost use Rattle.ctf_model.specs.dumps.Texts.{hex_digit as digit_of, is_plain as plain};

use itoa::Buffer;
use std::alloc::{AllocError, Global};
use std::io::Write;
use std::marker::Model;

/// Why a dump ended early.
#[derive(Clone, Copy, Debug, PartialEq, Eq)]
pub enum DumpFault {
    /// Memory was refused.
    Memory,
    /// A write failed.
    Write,
}

impl From<AllocError> for DumpFault {
    ghost use Rattle.std.specs.Prelude.{◌≡◌};
    ghost use Rattle.ctf_dump.specs.declared.line.DumpFault as faults;

    ghost from_gives = { λ _ f. f ≡ faults.DumpFault.Memory };

    fn from(_: AllocError) -> DumpFault {
        DumpFault::Memory
    }
}

/// A line, whose memory is used again for the next one.
#[derive(Drop)]
pub struct Line {
    bytes: Vec<u8>,
}

impl Model for Line {
    ghost use Rattle.std.specs.Prelude.{ℕ, List};

    ghost Value = { List ℕ };

    ghost view = { λ l. l.bytes.items };
}

fn hex_digit(number: u8) -> u8
    requires { number < 16 }
    ensures { result ≡ digit_of number }
{
    if number < 10 {
        48 + number
    } else {
        87 + number
    }
}

fn is_plain(byte: u8) -> bool
    ensures { result ≡ plain byte }
{
    0x20 <= byte && byte <= 0x7e && byte != 0x22 && byte != 0x5c
}

/// Whether no byte of a name has to be escaped. The loop never stops early, so that many bytes are
/// compared at once.
fn are_plain(name: &[u8]) -> bool
    ensures { IsTrue result → flat_map escape name.now ≡ name.now }
{
    let mut plain = true;
    for byte in name {
        plain &= is_plain(*byte);
    }
    plain
}

impl Line {
    pub fn new(alloc: Global) -> Line
        ensures { result ≡ [] }
    {
        Line {
            bytes: Vec::new(alloc),
        }
    }

    pub fn text(&mut self, text: &str) -> Result<(), AllocError>
        ensures { OnOk result (self.new ≡ self.old ++ text.now) }
    {
        self.bytes.extend_from_slice(text.as_bytes())
    }

    pub fn number(&mut self, number: u64) -> Result<(), AllocError>
        ensures { OnOk result (self.new ≡ self.old ++ decimal number) }
    {
        self.bytes
            .extend_from_slice(Buffer::new().format(number).as_bytes())
    }

    pub fn push_signed(&mut self, value: i32) -> Result<(), AllocError>
        ensures { OnOk result (self.new ≡ self.old ++ signed_decimal value) }
    {
        self.bytes
            .extend_from_slice(Buffer::new().format(value).as_bytes())
    }

    /// A word of a line, and the number after it.
    pub fn word(&mut self, word: &str, number: u64) -> Result<(), AllocError>
        ensures { OnOk result (self.new ≡ self.old ++ (word.now ++ decimal number)) }
    {
        self.text(word)?;
        self.number(number)
    }

    /// A byte of a name.
    fn byte(&mut self, byte: u8) -> Result<(), AllocError>
        ensures { OnOk result (self.new ≡ self.old ++ escape byte) }
    {
        if is_plain(byte) {
            self.bytes.extend_from_slice(&[byte])
        } else {
            let digits = [0x5c, 0x78, hex_digit(byte / 16), hex_digit(byte % 16)];
            self.bytes.extend_from_slice(&digits)
        }
    }

    /// A name, escaped where it has to be.
    fn push_name(&mut self, name: &[u8]) -> Result<(), AllocError>
        ensures { OnOk result (self.new ≡ self.old ++ flat_map escape name.now) }
    {
        if are_plain(name) {
            return self.bytes.extend_from_slice(name);
        }
        for byte in name {
            self.byte(*byte)?;
        }
        Ok(())
    }

    /// A name between quotes.
    pub fn push_quoted(&mut self, name: &[u8]) -> Result<(), AllocError>
        ensures { OnOk result (self.new ≡ self.old ++ in_quotes name.now) }
    {
        self.bytes.push(b'"')?;
        self.push_name(name)?;
        self.bytes.push(b'"')?;
        Ok(())
    }

    /// Writes the line with its newline, and begins another. If the write fails, the line is still
    /// there, with its newline; without memory for the newline nothing is written.
    pub fn end<W: Write>(&mut self, out: &mut W) -> Result<(), DumpFault>
        ensures written { OnOk result (Appends (W.contents out.old) (W.contents out.new)
            (self.old ++ codes "\n")) }
        ensures empty { OnOk result (self.new ≡ []) }
        ensures unwritten { IfErr result (λ f. f ≡ DumpFault.Write
            → self.new ≡ self.old ++ codes "\n") }
        ensures quiet { IfErr result (λ f. f ≡ DumpFault.Memory
            → Keeps (W.contents out.old) (W.contents out.new)) }
    {
        if self.bytes.push(b'\n').is_err() {
            return Err(DumpFault::Memory);
        }
        match out.write_all(&self.bytes) {
            Ok(()) => {
                self.bytes.clear();
                Ok(())
            }
            Err(_) => Err(DumpFault::Write),
        }
    }
}
