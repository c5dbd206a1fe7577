//! The fields of a type and of a dictionary; each is made when it is asked for.
ghost use Rattle.std.specs.Prelude.{◌≡◌, ◌<◌, length, Some, slice_get};
ghost use Rattle.ctf_protocol.specs.answers.Answers.{says};
ghost use Rattle.ctf_answers.specs.TypeFields.{record_view, size_on, tag_on, type_on, info_view};
ghost use Rattle.ctf_answers.specs.Singles.{single_of};
ghost use Rattle.ctf_answers.specs.Fields.{field_of};

use crate::fields::{Field, Value};
use crate::fixed_words::tag_name;
use crate::singles::Single;
use ctf_protocol::{Kind, TypeNum, kind_name};
use ctf_records::Tag;

/// A type without its list.
#[derive(Clone, Copy)]
pub struct RecordAnswer<'a> {
    pub kind: Kind,
    pub name: &'a [u8],
    pub root: bool,
    pub size: Option<u64>,
    pub tag: Option<Tag>,
    pub reference: Option<TypeNum>,
    pub vlen: u64,
}

/// The answer of `info`: what a dictionary has in all, and how many additions to its draft are
/// pending.
#[derive(Clone, Copy)]
pub struct InfoAnswer<'a> {
    pub child: bool,
    pub draft: bool,
    pub imported: bool,
    pub labels: u64,
    pub parlabel: &'a [u8],
    pub parname: &'a [u8],
    pub pending: u64,
    pub types: u64,
}

/// A field of a single value.
pub fn field<'a, 'b>(key: &'static str, value: Single<'a>) -> Field<'a, 'b>
    ensures { field_of result ≡ says key.now (single_of value.entry) }
{
    Field {
        key,
        value: Value::One(value),
    }
}

impl<'a> RecordAnswer<'a> {
    /// How many fields it has.
    pub fn len(self) -> usize
        ensures { result ≡ length (record_view self.entry) }
    {
        let size = if self.size.is_some() { 5 } else { 4 };
        let tag = if self.tag.is_some() { size + 1 } else { size };
        if self.reference.is_some() {
            tag + 1
        } else {
            tag
        }
    }

    /// The field with a number, from 0.
    pub fn get<'b>(self, index: usize) -> Field<'a, 'b>
        requires { index < length (record_view self) }
        ensures { Some (field_of result) ≡ slice_get (record_view self.entry) index }
    {
        match index {
            0 => field("kind", Single::Word(kind_name(self.kind))),
            1 => field("name", Single::Text(self.name)),
            2 => field("root", Single::Truth(self.root)),
            _ => self.from_size(index - 3),
        }
    }

    fn from_size<'b>(self, index: usize) -> Field<'a, 'b>
        requires { index < length (size_on self) }
        ensures { Some (field_of result) ≡ slice_get (size_on self.entry) index }
    {
        match self.size {
            None => self.from_tag(index),
            Some(size) => {
                if index == 0 {
                    field("size", Single::Number(size))
                } else {
                    self.from_tag(index - 1)
                }
            }
        }
    }

    fn from_tag<'b>(self, index: usize) -> Field<'a, 'b>
        requires { index < length (tag_on self) }
        ensures { Some (field_of result) ≡ slice_get (tag_on self.entry) index }
    {
        match self.tag {
            None => self.from_type(index),
            Some(tag) => {
                if index == 0 {
                    field("tag", Single::Word(tag_name(tag)))
                } else {
                    self.from_type(index - 1)
                }
            }
        }
    }

    fn from_type<'b>(self, index: usize) -> Field<'a, 'b>
        requires { index < length (type_on self) }
        ensures { Some (field_of result) ≡ slice_get (type_on self.entry) index }
    {
        match self.reference {
            None => field("vlen", Single::Number(self.vlen)),
            Some(t) => {
                if index == 0 {
                    field("type", Single::Number(u64::from(t.0)))
                } else {
                    field("vlen", Single::Number(self.vlen))
                }
            }
        }
    }
}

impl<'a> InfoAnswer<'a> {
    /// The field with a number, from 0.
    pub fn get<'b>(self, index: usize) -> Field<'a, 'b>
        requires { index < 8 }
        ensures { Some (field_of result) ≡ slice_get (info_view self.entry) index }
    {
        match index {
            0 => field("child", Single::Truth(self.child)),
            1 => field("draft", Single::Truth(self.draft)),
            2 => field("imported", Single::Truth(self.imported)),
            3 => field("labels", Single::Number(self.labels)),
            4 => field("parlabel", Single::Text(self.parlabel)),
            5 => field("parname", Single::Text(self.parname)),
            6 => field("pending", Single::Number(self.pending)),
            _ => field("types", Single::Number(self.types)),
        }
    }
}
