//! Texts with commas between them.
ghost use Rattle.std.specs.Prelude.{◌≡◌, ◌<◌, ℕ, List, [], length, get_or};
ghost use Rattle.ctf_model.specs.dumps.Texts.{with_commas};
ghost use Rattle.ctf_lines.specs.Commas.{comma_before};

use crate::text_sinks::TextSink;

/// Something that is written as texts with commas between them.
pub trait Series {
    ghost texts: { Self → List (List ℕ) };

    /// How many there are.
    fn count(&self) -> usize
        ensures { result ≡ length (texts self.now) };

    /// Writes one of them.
    fn put_text<P: TextSink>(&self, sink: &mut P, index: usize)
        requires { index < length (texts self.now) }
        ensures { P.Took sink.old (get_or (texts self.now) index []) sink.new };
}

/// Writes the comma before the text with a number, if it has one.
fn put_comma<P: TextSink>(sink: &mut P, index: usize)
    ensures { P.Took sink.old (comma_before index) sink.new }
{
    if index > 0 {
        sink.put_one(b',');
    }
}

/// Writes all texts. Texts after the sink's limit are not read.
pub fn put_series<P: TextSink, S: Series>(sink: &mut P, series: &S)
    ensures { P.Took sink.old (with_commas (S.texts series.now)) sink.new }
{
    for index in 0..series.count() {
        if sink.is_full() {
            return;
        }
        put_comma(sink, index);
        series.put_text(sink, index);
    }
}
