//! Names in a line: bytes that are not plain are escaped.
ghost use Rattle.std.specs.Prelude.{IsTrue, ◌≡◌, ◌<◌, ◌+◌, ◌≤◌, ◌++◌, length, vec_len, vec_capacity};
ghost use Rattle.ctf_lines.specs.Appending.{HasRoom, Appended};
ghost use Rattle.ctf_model.specs.dumps.Texts.{is_plain as is_plain_byte, hex_digit as digit_of, hex_of_byte};
ghost use Rattle.ctf_protocol.specs.lines.Text.{text_of_byte, text_of, hex_of};

use crate::text_sinks::TextSink;

/// Whether a byte needs no escape.
pub fn is_plain(byte: u8) -> bool
    ensures { result ≡ is_plain_byte byte }
{
    0x20 <= byte && byte <= 0x7e && byte != b'"' && byte != b'\\'
}

fn hex_digit(number: u8) -> u8
    requires { number < 16 }
    ensures { result ≡ digit_of number }
{
    if number < 10 {
        48 + number
    } else {
        87 + number
    }
}

fn put_byte<P: TextSink>(sink: &mut P, byte: u8)
    ensures { P.Took sink.old (text_of_byte byte) sink.new }
{
    if is_plain(byte) {
        sink.put_one(byte);
    } else {
        let high = hex_digit(byte / 16);
        let low = hex_digit(byte % 16);
        sink.put(&[b'\\', b'\\', b'x', high, low]);
    }
}

/// Whether no byte of a text needs an escape. False for a text that is longer than most names,
/// which is not read.
pub fn are_plain(text: &[u8]) -> bool
    ensures { IsTrue result → text_of text.now ≡ text.now }
{
    if text.len() > 4096 {
        return false;
    }
    for byte in text {
        if !is_plain(*byte) {
            return false;
        }
    }
    true
}

/// How many bytes of a name are checked before any is written.
const PIECE: usize = 64;

/// Whether no byte of a piece needs an escape. The loop never stops early, so that many bytes are
/// compared at once.
fn is_plain_piece(piece: &[u8]) -> bool
    ensures { IsTrue result → text_of piece.now ≡ piece.now }
{
    let mut plain = true;
    for byte in piece {
        plain &= is_plain(*byte);
    }
    plain
}

/// Writes bytes to the sink, one by one.
fn put_bytes<P: TextSink>(sink: &mut P, bytes: &[u8])
    ensures { P.Took sink.old (text_of bytes.now) sink.new }
{
    for byte in bytes {
        put_byte(sink, *byte);
    }
}

/// Writes a part of a name to the sink.
fn put_piece<P: TextSink>(sink: &mut P, piece: &[u8])
    ensures { P.Took sink.old (text_of piece.now) sink.new }
{
    if is_plain_piece(piece) {
        sink.put(piece);
    } else {
        put_bytes(sink, piece);
    }
}

/// Writes a name to the sink. Bytes after the sink's limit are not read.
pub fn put_name<P: TextSink>(sink: &mut P, name: &[u8])
    ensures { P.Took sink.old (text_of name.now) sink.new }
{
    let mut at = 0;
    while at < name.len() {
        if sink.is_full() {
            return;
        }
        let end = name.len().min(at + PIECE);
        put_piece(sink, &name[at..end]);
        at = end;
    }
}

/// Appends the digits of bytes, for which there is room.
pub fn append_hex(out: &mut Vec<u8>, bytes: &[u8])
    requires { HasRoom out.old (hex_of bytes.now) }
    ensures { Appended out.old out.new (hex_of bytes.now) }
{
    for byte in bytes {
        append_digits(out, *byte);
    }
}

/// Appends the two digits of a byte, for which there is room.
fn append_digits(out: &mut Vec<u8>, byte: u8)
    requires { HasRoom out.old (hex_of_byte byte) }
    ensures { Appended out.old out.new (hex_of_byte byte) }
{
    out.push_reserved(hex_digit(byte / 16));
    out.push_reserved(hex_digit(byte % 16));
}
