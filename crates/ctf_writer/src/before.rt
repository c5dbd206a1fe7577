//! What was written of a draft before.
ghost use Rattle.std.specs.Prelude.{◌≡◌, ◌≤◌, [], ◌∷◌, length, drop};
ghost use Rattle.ctf_check.specs.CheckedView.{dictionary_of, lists_of};
ghost use Rattle.ctf_model.specs.format.Header.{section as section_of};
ghost use Rattle.ctf_model.specs.declared.sections.Section.TheVariants.{SStrings, STypes};

use ctf_check::Checked;
use ctf_draft::DraftType;
use ctf_model::Section;

/// The records of a draft's first types, and the strings for them: what its last update wrote.
#[derive(Clone, Copy)]
pub(crate) struct Before<'a> {
    pub(crate) records: &'a [u8],
    pub(crate) strings: &'a [u8],
    /// How many types these are.
    pub(crate) count: usize,
}

impl<'a> Before<'a> {
    /// Of no types: a string section without names.
    pub(crate) fn nothing() -> Before<'a>
        ensures records { result.records.now ≡ [] }
        ensures strings { result.strings.now ≡ 0 ∷ [] }
        ensures count { result.count ≡ 0 }
    {
        Before {
            records: &[],
            strings: &[0],
            count: 0,
        }
    }

    /// Of all types of a dictionary.
    pub(crate) fn all(dictionary: Checked<'a>) -> Before<'a>
        ensures records { result.records.now ≡ section_of (lists_of dictionary.entry).ctf STypes }
        ensures strings { result.strings.now ≡ section_of (lists_of dictionary.entry).ctf SStrings }
        ensures count { result.count ≡ length (dictionary_of dictionary.entry).terms }
    {
        Before {
            records: dictionary.section(Section::STypes),
            strings: dictionary.section(Section::SStrings),
            count: dictionary.count(),
        }
    }

    /// The types behind these.
    pub(crate) fn others<'b>(&self, types: &'b [DraftType]) -> &'b [DraftType]
        requires { self.now.count ≤ length types.now }
        ensures { result.now ≡ drop self.now.count types.now }
    {
        &types[self.count..]
    }
}
