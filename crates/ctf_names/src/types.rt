//! The own types of a dictionary, as an index of names takes them.
ghost use Rattle.std.specs.Prelude.{◌≡◌, ◌+◌, ◌<◌, ◌^◌, ℕ, length, IfSome, MatchOption, slice_get, option_and_then, option_map};
ghost use Rattle.ctf_check.specs.CheckedView.{dictionary_of, tables_of};
ghost use Rattle.ctf_check.specs.TypedView.{dictionary_in, term_in};
ghost use Rattle.ctf_model.specs.names.Lookups.{is_pointer_to};
ghost use Rattle.ctf_names.specs.Briefs.{is_target, target_by, IsBrief, IsBriefAt};
ghost use Rattle.ctf_names.specs.Buckets.{is_in};
ghost use Rattle.ctf_sections.specs.StringsView.{tables};

use crate::buckets::{LONGEST_HASHED, bucket_among};
use ctf_check::{Checked, Typed};
use ctf_model::{Kind, TypeNum};
use ctf_sections::Strings;

/// What an index needs of a type. The type is read once for it.
#[derive(Clone, Copy)]
pub(crate) struct Brief {
    /// The bucket of its name, if it is visible to look-ups by name.
    pub(crate) bucket: Option<usize>,
    /// What it points to, if it is a pointer.
    pub(crate) target: Option<TypeNum>,
}

/// The own type of a dictionary with a number from 0.
#[inline(always)]
pub(crate) fn own_type<'a>(dictionary: &Checked<'a>, place: usize) -> Option<Typed<'a>>
    ensures found { option_and_then term_in result
        ≡ slice_get (dictionary_of dictionary.now).terms place }
    ensures of { IfSome result (λ x. dictionary_in x ≡ dictionary.now) }
    ensures inside { IfSome result (λ x. place < length (dictionary_of dictionary.now).terms) }
{
    if place < dictionary.count() {
        dictionary.type_at(place + 1)
    } else {
        None
    }
}

/// What a type of a kind points to, if it is a pointer.
#[inline(always)]
fn target_of(kind: Kind, reference: Option<TypeNum>) -> Option<TypeNum>
    ensures { option_map (λ t. t.0) result
        ≡ target_by kind (option_map (λ t. t.0) reference) }
{
    match kind {
        Kind::KPointer => reference,
        _ => None,
    }
}

/// The bucket of a type's name, if the type is visible. Of a long name no more is read than is
/// hashed.
#[inline(always)]
fn bucket_of(found: &Typed<'_>, strings: &Strings<'_>, types: usize) -> Option<usize>
    requires few { types < 2 ^ 16 }
    requires tables { tables strings.now ≡ tables_of (dictionary_in found.now) }
    ensures is { MatchOption (term_in found.now) ⊥
        (λ x. (n : ℕ) → is_in types n x ≡ is_target n result) }
    ensures inside { IfSome result (λ n. n < types + 2) }
{
    if !found.root() {
        return None;
    }
    let name = strings.short_name(found.name_reference(), LONGEST_HASHED);
    Some(bucket_among(types, name))
}

/// What an index needs of a type, in a dictionary of so many types.
#[inline(always)]
fn brief_of(found: &Typed<'_>, strings: &Strings<'_>, types: usize) -> Brief
    requires few { types < 2 ^ 16 }
    requires tables { tables strings.now ≡ tables_of (dictionary_in found.now) }
    ensures is { MatchOption (term_in found.now) ⊥ (λ x. IsBrief types x result) }
    ensures inside { IfSome result.bucket (λ n. n < types + 2) }
{
    Brief {
        bucket: bucket_of(found, strings, types),
        target: target_of(found.kind(), found.reference()),
    }
}

/// The parts of an own type that the index of names stores; `place` is its index, from 0.
#[inline(always)]
pub(crate) fn brief_at(dictionary: &Checked<'_>, strings: &Strings<'_>, place: usize) -> Brief
    requires there { place < length (dictionary_of dictionary.now).terms }
    requires tables { tables strings.now ≡ tables_of dictionary.now }
    ensures is { IsBriefAt (dictionary_of dictionary.now).terms place result }
    ensures inside { IfSome result.bucket
        (λ n. n < length (dictionary_of dictionary.now).terms + 2) }
{
    match own_type(dictionary, place) {
        Some(found) => brief_of(&found, strings, dictionary.count()),
        None => unreachable!(),
    }
}
