//! Single values and the parts of objects in a line.
ghost use Rattle.std.specs.Prelude.{◌≡◌, ◌++◌};
ghost use Rattle.ctf_protocol.specs.lines.ReplyLines.{single_text, key_text, quote, truth as truth_text};
ghost use Rattle.ctf_protocol.specs.lines.Text.{text_of, hex_of};
ghost use Rattle.ctf_answers.specs.Singles.{single_of};

use crate::escapes::{are_plain, put_name};
use crate::text_sinks::TextSink;
use crate::texts::put_signed;
use ctf_answers::Single;

fn truth(value: bool) -> &'static str
    ensures { result.now ≡ truth_text value }
{
    if value { "true" } else { "false" }
}

/// Writes a value.
#[inline(always)]
pub fn put_single<P: TextSink>(sink: &mut P, value: &Single<'_>)
    ensures { P.Took sink.old (single_text (single_of value.now)) sink.new }
{
    match value {
        Single::Number(number) => sink.put_numbered(b"", *number, b""),
        Single::Signed(number) => put_signed(sink, *number),
        Single::Truth(value) => sink.put(truth(*value).as_bytes()),
        Single::Word(word) => put_word(sink, *word),
        Single::Text(text) => put_quoted(sink, *text),
        Single::Bytes(bytes) => put_quoted_hex(sink, *bytes),
    }
}

fn put_word<P: TextSink>(sink: &mut P, word: &str)
    ensures { P.Took sink.old (quote word.now) sink.new }
{
    sink.put_between(b"\"", word.as_bytes(), b"\"");
}

/// Writes a text, with its quotes.
pub fn put_quoted<P: TextSink>(sink: &mut P, text: &[u8])
    ensures { P.Took sink.old (quote (text_of text.now)) sink.new }
{
    if are_plain(text) {
        sink.put_between(b"\"", text, b"\"");
    } else {
        put_escaped(sink, text);
    }
}

fn put_escaped<P: TextSink>(sink: &mut P, text: &[u8])
    ensures { P.Took sink.old (quote (text_of text.now)) sink.new }
{
    sink.put_one(b'"');
    put_name(sink, text);
    sink.put_one(b'"');
}

fn put_quoted_hex<P: TextSink>(sink: &mut P, bytes: &[u8])
    ensures { P.Took sink.old (quote (hex_of bytes.now)) sink.new }
{
    sink.put_one(b'"');
    sink.put_hex(bytes);
    sink.put_one(b'"');
}

/// Writes a key and its colon.
pub fn put_key<P: TextSink>(sink: &mut P, key: &str)
    ensures { P.Took sink.old (key_text key.now) sink.new }
{
    sink.put_between(b"\"", key.as_bytes(), b"\":");
}
