//! What follows the head of a record, by its kind.
ghost use Rattle.std.specs.Prelude.{◌≡◌, IsSome, Some};
ghost use Rattle.std.specs.Option.{option_map};
ghost use Rattle.ctf_model.specs.format.Spelling.{term_of};
ghost use Rattle.ctf_sections.specs.StringsView.{tables};
ghost use Rattle.ctf_records.specs.RecordView.{bytes_of};
ghost use Rattle.ctf_model.specs.format.Shown.{shown};
ghost use Rattle.ctf_views.specs.VariantView.{shown_of};

use crate::args::arguments;
use crate::enumerators::EnumeratorRow;
use crate::members::MemberRow;
use crate::parts::{ArrayInfo, Encoding};
use crate::rows::RowIter;
use crate::variants::Variant;
use ctf_model::Kind;
use ctf_records::Record;
use ctf_sections::Strings;

/// The parts of the type that a record spells, apart from its head.
pub fn variant<'a>(record: &Record<'a>, strings: Strings<'a>) -> Variant<'a>
    requires { IsSome (term_of (tables strings) (bytes_of «record».now)) }
    ensures { option_map (λ x. shown x.body)
        (term_of (tables strings.entry) (bytes_of «record».now)) ≡ Some (shown_of result) }
{
    let rest = record.rest();
    let count = record.vlen();
    match record.kind() {
        Kind::KStruct | Kind::KUnion => {
            let size = record.size().unwrap();
            Variant::Members(RowIter::new(rest, count, MemberRow { size, strings }))
        }
        Kind::KEnum => Variant::Enumerators(RowIter::new(rest, count, EnumeratorRow { strings })),
        Kind::KFunction => Variant::Args(arguments(rest, count)),
        Kind::KArray => Variant::Array(ArrayInfo::read(rest)),
        Kind::KInteger | Kind::KFloat => Variant::Encoding(Encoding::read(rest)),
        Kind::KForward => Variant::Tag(record.tag().unwrap()),
        _ => Variant::Nothing,
    }
}
