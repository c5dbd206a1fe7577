//! A dictionary that breaks no rule, and what it answers.
ghost use Rattle.std.specs.Prelude.{◌≡◌, ◌<◌, ◌^◌, ◌↔◌, length, IsSome, IfSome, Some, None};
ghost use Rattle.std.specs.Option.{option_map};
ghost use Rattle.ctf_model.specs.format.Dictionary.{denoted, text_or_empty};
ghost use Rattle.ctf_chains.specs.Starts.{starts_in};
ghost use Rattle.ctf_model.specs.rules.Faults.{first_fault, walk_fault};
ghost use Rattle.ctf_model.specs.format.Header.{section as section_of};
ghost use Rattle.ctf_model.specs.rules.Needs.{greatest_needed};
ghost use Rattle.ctf_model.specs.format.Spelling.{term_of};
ghost use Rattle.ctf_sections.specs.StringsView.{tables};
ghost use Rattle.ctf_check.specs.ListsView.{lists_in};
ghost use Rattle.ctf_model.specs.format.Section.{records};
ghost use Rattle.ctf_records.specs.Pieces.{piece_numbered};
ghost use Rattle.ctf_records.specs.RecordView.{piece};

use crate::judged::Judged;
use crate::lists::LentLists;
use crate::needs::{entries_need, greater, records_need};
use ctf_chains::record_started;
use ctf_model::Section;
use ctf_records::Record;
use ctf_sections::Strings;

/// A dictionary that breaks no rule, borrowed. Each call answers from the lists that were handed
/// in.
#[derive(Clone, Copy)]
pub struct Checked<'a> {
    judged: &'a Judged<'a>,
    pub ghost faultless: { first_fault judged.now.kept.lists ≡ None },
}

/// The record with a number of a section, by the places at which all records begin.
fn find<'a>(types: &'a [u8], starts: &[u32], index: usize) -> Option<Record<'a>>
    requires whole { walk_fault (records types.now) ≡ None }
    requires begin { starts.now ≡ starts_in (records types.now) }
    ensures { option_map piece result ≡ piece_numbered (records types.now) index }
{
    if index == 0 {
        return None;
    }
    if index > starts.len() {
        return None;
    }
    Some(record_started(types, starts, index - 1))
}

impl<'a> Checked<'a> {
    ghost use Rattle.ctf_check.specs.CheckedView.{lists_of, dictionary_of, tables_of, type_at, IsOwn};
    ghost use Rattle.ctf_records.specs.RecordView.{index_of, bytes_of};

    /// The checked dictionary of a `Judged`, borrowed.
    pub(crate) fn of(judged: &'a Judged<'a>) -> Checked<'a>
        requires { first_fault judged.now.kept.lists ≡ None }
        ensures { lists_of result ≡ judged.now.kept.lists }
    {
        Checked { judged }
    }

    /// The bytes of a section.
    pub fn section(&self, section: Section) -> &'a [u8]
        ensures bytes { result.now ≡ section_of (lists_of self.now).ctf section }
        ensures short { length result.now < 2 ^ 32 }
    {
        self.judged.section(section)
    }

    /// Its tables of names.
    pub fn strings(&self) -> Strings<'a>
        ensures { tables result ≡ tables_of self.now }
    {
        Strings::new(self.section(Section::SStrings), self.judged.lists().strs)
    }

    /// The name of a reference of the dictionary.
    pub(crate) fn name_at(&self, reference: u32) -> &'a [u8]
        ensures { result.now ≡ text_or_empty (tables_of self.now) reference }
    {
        match self.strings().name(reference) {
            Some(name) => name,
            None => &[],
        }
    }

    /// The number of its own types.
    pub fn count(&self) -> usize
        ensures { result ≡ length (dictionary_of self.now).terms }
    {
        self.judged.starts().len()
    }

    /// Whether its low type numbers are those of a parent.
    #[tactic(auto, unfolding(ctf_model::specs::format::Dictionary::said_by))]
    pub fn child(&self) -> bool
        ensures { result ≡ (dictionary_of self.now).child }
    {
        self.judged.header().parname() != 0
    }

    /// The name of its parent.
    #[tactic(auto, unfolding(ctf_model::specs::format::Dictionary::said_by))]
    pub fn parname(&self) -> &'a [u8]
        ensures { result.now ≡ (dictionary_of self.now).parname }
    {
        self.name_at(self.judged.header().parname())
    }

    /// The label up to which it uses its parent.
    #[tactic(auto, unfolding(ctf_model::specs::format::Dictionary::said_by))]
    pub fn parlabel(&self) -> &'a [u8]
        ensures { result.now ≡ (dictionary_of self.now).parlabel }
    {
        self.name_at(self.judged.header().parlabel())
    }

    /// The record of an own type; types are counted from 1. Takes constant time.
    #[inline(always)]
    pub(crate) fn term(&self, index: usize) -> Option<Record<'a>>
        ensures exact { IsSome result ↔ IsSome (type_at (dictionary_of self.now) index) }
        ensures spells { IfSome result (λ r. term_of (tables_of self.now) (bytes_of r)
            ≡ type_at (dictionary_of self.now) index) }
        ensures index { IfSome result (λ r. index_of r ≡ index) }
        ensures own { IfSome result (λ r. IsOwn self.now r) }
    {
        find(self.section(Section::STypes), self.judged.starts(), index)
    }

    /// How many types a child needs in its parent: the greatest number below 0x8000 that its types
    /// or the entries of its symbols name. 0 if there is none, or if the dictionary is no child.
    ///
    /// Reads each member, argument and symbol once.
    pub fn needs(&self) -> u16
        ensures { result ≡ greatest_needed (dictionary_of self.now) }
    {
        if self.child() {
            greater(
                records_need(self.section(Section::STypes)),
                entries_need(self.entries()),
            )
        } else {
            0
        }
    }

    /// The lists that were handed in.
    pub fn lists(&self) -> LentLists<'a>
        ensures same { lists_in result ≡ lists_of self.now }
        ensures denotes { denoted (lists_of self.now) ≡ Some (dictionary_of self.now) }
    {
        self.judged.lists()
    }
}
