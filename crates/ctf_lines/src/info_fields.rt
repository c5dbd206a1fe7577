//! The fields of the answer of `info`, written with their constant keys.
ghost use Rattle.std.specs.Prelude.{◌∷◌, codes, map};
ghost use Rattle.ctf_answers.specs.TypeFields.{info_view};
ghost use Rattle.ctf_model.specs.dumps.Texts.{with_commas};
ghost use Rattle.ctf_protocol.specs.answers.Answers.{says, truth};
ghost use Rattle.ctf_protocol.specs.lines.ReplyLines.{field_text};

use crate::singles::put_quoted;
use crate::text_sinks::TextSink;
use ctf_answers::InfoAnswer;

/// Writes whether the dictionary is a child.
fn put_child<P: TextSink>(sink: &mut P, child: bool)
    ensures { P.Took sink.old (field_text (says (codes "child") (truth child))) sink.new }
{
    if child {
        sink.put(b"\"child\":true");
    } else {
        sink.put(b"\"child\":false");
    }
}

/// Writes a comma, and whether the slot has a draft.
fn put_draft<P: TextSink>(sink: &mut P, draft: bool)
    ensures { P.Took sink.old (44 ∷ field_text (says (codes "draft") (truth draft))) sink.new }
{
    if draft {
        sink.put(b",\"draft\":true");
    } else {
        sink.put(b",\"draft\":false");
    }
}

/// Writes a comma, and whether it has a parent.
fn put_imported<P: TextSink>(sink: &mut P, imported: bool)
    ensures { P.Took sink.old
        (44 ∷ field_text (says (codes "imported") (truth imported))) sink.new }
{
    if imported {
        sink.put(b",\"imported\":true");
    } else {
        sink.put(b",\"imported\":false");
    }
}

/// Writes all fields.
pub fn put_info<P: TextSink>(sink: &mut P, told: &InfoAnswer<'_>)
    ensures { P.Took sink.old (with_commas (map field_text (info_view told.now))) sink.new }
{
    put_child(sink, told.child);
    put_draft(sink, told.draft);
    put_imported(sink, told.imported);
    sink.put_numbered(b",\"labels\":", told.labels, b",\"parlabel\":");
    put_quoted(sink, told.parlabel);
    sink.put(b",\"parname\":");
    put_quoted(sink, told.parname);
    sink.put_numbered(b",\"pending\":", told.pending, b",\"types\":");
    sink.put_numbered(b"", told.types, b"");
}
