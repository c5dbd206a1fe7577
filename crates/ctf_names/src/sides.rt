//! The three parts that marks add to a text, measured and appended.
ghost use Rattle.std.specs.Prelude.{◌≡◌, ◌+◌, ◌≤◌, ◌++◌, length, min, reverse, vec_len, vec_capacity};
ghost use Rattle.std.specs.List.{flat_map};
ghost use Rattle.ctf_model.specs.names.TypeNames.{word_of_qualifier};
ghost use Rattle.ctf_names.specs.Marks.{front as front_text, text_before as left_text, right as right_text};
ghost use Rattle.ctf_names.specs.declared.marks.Mark.TheVariants.{Front};

use crate::marks::Mark;
use crate::texts::{TOO_LONG, number_len, plus, put, put_number};
use ctf_model::Qualifier;

fn word(qualifier: Qualifier) -> &'static str
    ensures { result.now ≡ word_of_qualifier qualifier }
{
    match qualifier {
        Qualifier::Volatile => "volatile",
        Qualifier::Const => "const",
        Qualifier::Restrict => "restrict",
    }
}

fn word_and_blank(qualifier: Qualifier) -> &'static str
    ensures { result.now ≡ front_text (Front qualifier) }
{
    match qualifier {
        Qualifier::Volatile => "volatile ",
        Qualifier::Const => "const ",
        Qualifier::Restrict => "restrict ",
    }
}

/// What a mark puts in front of the name.
fn front(mark: Mark) -> &'static str
    ensures { result.now ≡ front_text mark }
{
    match mark {
        Mark::Front(qualifier) => word_and_blank(qualifier),
        _ => "",
    }
}

/// What a mark puts before the declarator.
fn text_before(mark: Mark) -> &'static str
    ensures { result.now ≡ left_text mark }
{
    match mark {
        Mark::Alone(qualifier) => word(qualifier),
        Mark::Before(qualifier) => word_and_blank(qualifier),
        Mark::Star => "*",
        Mark::Grouped => "(*",
        _ => "",
    }
}

fn plus_right(len: usize, mark: Mark) -> usize
    ensures { result ≡ min (len + length (right_text mark)) TOO_LONG }
{
    match mark {
        Mark::Grouped => plus(len, 1),
        Mark::Count(count) => plus(len, number_len(count) + 2),
        Mark::Call => plus(len, 2),
        _ => plus(len, 0),
    }
}

fn put_right(out: &mut Vec<u8>, mark: Mark)
    requires { vec_len out.old + length (right_text mark) ≤ vec_capacity out.old }
    ensures items { out.new.items ≡ out.old.items ++ right_text mark }
    ensures len { vec_len out.new ≡ vec_len out.old + length (right_text mark) }
    ensures capacity { vec_capacity out.new ≡ vec_capacity out.old }
{
    match mark {
        Mark::Grouped => put(out, b")"),
        Mark::Count(count) => {
            put(out, b"[");
            put_number(out, count);
            put(out, b"]");
        }
        Mark::Call => put(out, b"()"),
        _ => {}
    }
}

/// A length plus what a mark puts in front of the name.
pub fn plus_front(len: usize, mark: Mark) -> usize
    ensures { result ≡ min (len + length (front_text mark)) TOO_LONG }
{
    plus(len, front(mark).len())
}

/// A length plus what a mark puts on both sides of the declarator.
pub fn plus_sides(len: usize, mark: Mark) -> usize
    ensures { result ≡ min (len + (length (left_text mark) + length (right_text mark))) TOO_LONG }
{
    plus_right(plus(len, text_before(mark).len()), mark)
}

pub fn plus_fronts(start: usize, marks: &[Mark]) -> usize
    requires { start ≤ TOO_LONG }
    ensures { result ≡ min (start + length (flat_map front_text marks.now)) TOO_LONG }
{
    let mut len = start;
    for mark in marks {
        len = plus(len, front(*mark).len());
    }
    len
}

pub fn plus_lefts(start: usize, marks: &[Mark]) -> usize
    requires { start ≤ TOO_LONG }
    ensures { result ≡ min (start + length (flat_map left_text marks.now)) TOO_LONG }
{
    let mut len = start;
    for mark in marks {
        len = plus(len, text_before(*mark).len());
    }
    len
}

pub fn plus_rights(start: usize, marks: &[Mark]) -> usize
    requires { start ≤ TOO_LONG }
    ensures { result ≡ min (start + length (flat_map right_text marks.now)) TOO_LONG }
{
    let mut len = start;
    for mark in marks {
        len = plus_right(len, *mark);
    }
    len
}

pub fn put_fronts(out: &mut Vec<u8>, marks: &[Mark])
    requires { vec_len out.old + length (flat_map front_text marks.now) ≤ vec_capacity out.old }
    ensures items { out.new.items ≡ out.old.items ++ flat_map front_text marks.now }
    ensures len { vec_len out.new ≡ vec_len out.old + length (flat_map front_text marks.now) }
    ensures capacity { vec_capacity out.new ≡ vec_capacity out.old }
{
    for mark in marks {
        put(out, front(*mark).as_bytes());
    }
}

/// Appends what marks put before the declarator, the innermost first.
pub fn put_lefts(out: &mut Vec<u8>, marks: &[Mark])
    requires { vec_len out.old + length (flat_map left_text (reverse marks.now))
        ≤ vec_capacity out.old }
    ensures items { out.new.items ≡ out.old.items ++ flat_map left_text (reverse marks.now) }
    ensures len { vec_len out.new
        ≡ vec_len out.old + length (flat_map left_text (reverse marks.now)) }
    ensures capacity { vec_capacity out.new ≡ vec_capacity out.old }
{
    for k in 0..marks.len() {
        put(out, text_before(marks[marks.len() - 1 - k]).as_bytes());
    }
}

pub fn put_rights(out: &mut Vec<u8>, marks: &[Mark])
    requires { vec_len out.old + length (flat_map right_text marks.now) ≤ vec_capacity out.old }
    ensures items { out.new.items ≡ out.old.items ++ flat_map right_text marks.now }
    ensures len { vec_len out.new ≡ vec_len out.old + length (flat_map right_text marks.now) }
    ensures capacity { vec_capacity out.new ≡ vec_capacity out.old }
{
    for mark in marks {
        put_right(out, *mark);
    }
}
