//! The words for tags and classes of symbols.
ghost use Rattle.std.specs.Prelude.{◌≡◌};
ghost use Rattle.ctf_model.specs.names.KindNames.{name_of_class, name_of_tag};
ghost use Rattle.ctf_records.specs.RecordView.{tag_of};

use ctf_protocol::SymbolClass;
use ctf_records::Tag;

pub fn tag_name(tag: Tag) -> &'static str
    ensures { result.now ≡ name_of_tag (tag_of tag) }
{
    match tag {
        Tag::Struct => "struct",
        Tag::Union => "union",
        Tag::Enum => "enum",
    }
}

pub fn class_name(class: SymbolClass) -> &'static str
    ensures { result.now ≡ name_of_class class }
{
    match class {
        SymbolClass::Object => "object",
        SymbolClass::Function => "function",
    }
}
