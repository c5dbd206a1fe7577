//! Items of lists, written with their constant keys.
ghost use Rattle.std.specs.Prelude.{◌≡◌};
ghost use Rattle.ctf_protocol.specs.answers.Questions.{enumerator_item, member_item};
ghost use Rattle.ctf_protocol.specs.answers.SlotAnswers.{label_item};
ghost use Rattle.ctf_protocol.specs.lines.ReplyLines.{item_text};
ghost use Rattle.ctf_protocol.specs.lines.Text.{text_of};
ghost use Rattle.ctf_views.specs.ItemsView.{enumerator as enumerator_view, label as label_view, member as member_view};
ghost use Rattle.ctf_answers.specs.Items.{item_of};

use crate::escapes::are_plain;
use crate::series::Series;
use crate::singles::put_quoted;
use crate::text_sinks::TextSink;
use crate::texts::put_signed;
use ctf_answers::{Item, ItemWindow};
use ctf_views::{Enumerator, Label, Member};

/// Writes a member whose name needs no escapes.
fn put_plain_member<P: TextSink>(sink: &mut P, member: Member<'_>)
    requires { text_of member.name.now ≡ member.name.now }
    ensures { P.Took sink.old (item_text (member_item (member_view member.entry))) sink.new }
{
    sink.put_member(member.name, member.offset, u64::from(member.tnum.0));
}

/// Writes a member part by part. Not inlined, since few names need escapes.
#[inline(never)]
fn put_parts_of_member<P: TextSink>(sink: &mut P, member: Member<'_>)
    ensures { P.Took sink.old (item_text (member_item (member_view member.entry))) sink.new }
{
    sink.put(b"{\"name\":");
    put_quoted(sink, member.name);
    sink.put_numbered(b",\"offset\":", member.offset, b",\"type\":");
    sink.put_numbered(b"", u64::from(member.tnum.0), b"}");
}

/// Writes a member, in one step if its name needs no escapes.
fn put_member<P: TextSink>(sink: &mut P, member: Member<'_>)
    ensures { P.Took sink.old (item_text (member_item (member_view member.entry))) sink.new }
{
    if are_plain(member.name) {
        put_plain_member(sink, member);
    } else {
        put_parts_of_member(sink, member);
    }
}

fn put_enumerator<P: TextSink>(sink: &mut P, enumerator: Enumerator<'_>)
    ensures { P.Took sink.old (item_text (enumerator_item (enumerator_view enumerator.entry)))
        sink.new }
{
    sink.put(b"{\"name\":");
    put_quoted(sink, enumerator.name);
    sink.put(b",\"value\":");
    put_signed(sink, enumerator.value);
    sink.put_one(b'}');
}

fn put_label<P: TextSink>(sink: &mut P, label: Label<'_>)
    ensures { P.Took sink.old (item_text (label_item (label_view label.entry))) sink.new }
{
    sink.put_numbered(b"{\"last\":", u64::from(label.last), b",\"name\":");
    put_quoted(sink, label.name);
    sink.put_one(b'}');
}

/// Writes an item that is no member. Not inlined, so that the code for members stays as it is.
#[inline(never)]
fn put_other_item<P: TextSink>(sink: &mut P, item: Item<'_>)
    ensures { P.Took sink.old (item_text (item_of item.entry)) sink.new }
{
    match item {
        Item::Member(member) => put_parts_of_member(sink, member),
        Item::Enumerator(enumerator) => put_enumerator(sink, enumerator),
        Item::Argument(number) => sink.put_numbered(b"", u64::from(number.0), b""),
        Item::Label(label) => put_label(sink, label),
    }
}

/// Writes an item.
#[inline(always)]
fn put_item<P: TextSink>(sink: &mut P, item: Item<'_>)
    ensures { P.Took sink.old (item_text (item_of item.entry)) sink.new }
{
    match item {
        Item::Member(member) => put_member(sink, member),
        Item::Argument(number) => sink.put_numbered(b"", u64::from(number.0), b""),
        _ => put_other_item(sink, item),
    }
}

impl<'a> Series for ItemWindow<'a> {
    ghost use Rattle.std.specs.Prelude.{map};
    ghost use Rattle.ctf_protocol.specs.lines.ReplyLines.{item_text};

    ghost texts = { λ items. map item_text items };

    fn count(&self) -> usize {
        self.len()
    }

    fn put_text<P: TextSink>(&self, sink: &mut P, index: usize) {
        put_item(sink, self.get(index));
    }
}
