//! A dictionary that breaks no rule.
ghost use Rattle.std.specs.Prelude.{◌≡◌, ◌⊎◌, ◌<◌, ◌^◌, IfOk, IfErr, OnOk, None, Some, length, option_map};
ghost use Rattle.ctf_chains.specs.Starts.{starts_in};
ghost use Rattle.ctf_check.specs.CheckedView.{lists_of};
ghost use Rattle.ctf_check.specs.Holdings.{lent_holding as lent_for, lists_owned_by, owning};
ghost use Rattle.ctf_check.specs.ListsView.{lists_in};
ghost use Rattle.ctf_check.specs.Stages.{fault_before_chains};
ghost use Rattle.ctf_model.specs.format.Dictionary.{said_by};
ghost use Rattle.ctf_model.specs.format.Header.{fields, section as section_of};
ghost use Rattle.ctf_model.specs.format.OwnedLists.{lists_owned};
ghost use Rattle.ctf_model.specs.rules.Faults.{first_fault, types as types_of};
ghost use Rattle.ctf_model.specs.rules.Refusals.{out_of_memory};

use crate::checked::Checked;
use crate::faultless::findings;
use crate::holding::DictionaryLists;
use crate::judge::{Findings, check};
use crate::lists::{LentLists, lent_lists};
use crate::sections::bytes_in;
use ctf_chains::Starts;
use ctf_model::{DataModel, Fault, Parts, Section};
use ctf_sections::Header;
use std::alloc::Global;
use std::marker::Model;

/// A dictionary that breaks no rule, with the data model of its program. It owns its lists or
/// borrows them; borrowed lists are not copied.
///
/// The header is read once, and a type is found in constant time. The places at which types begin
/// take four bytes a type. A contract sees the lists, whether they are owned, and the data model.
#[derive(Drop)]
pub struct Judged<'a> {
    held: DictionaryLists<'a>,
    header: Header,
    starts: Starts,
    model: DataModel,
}

impl<'a> Model for Judged<'a> {
    ghost use Rattle.std.specs.Prelude.{◌≡◌, ◌≤◌, ◌+◌, length, None};
    ghost use Rattle.ctf_chains.specs.Starts.{starts_in};
    ghost use Rattle.ctf_check.specs.DictionaryListsView.{is_owned, lists_held};
    ghost use Rattle.ctf_check.specs.Holdings.{Holding};
    ghost use Rattle.ctf_model.specs.format.Header.{fields};
    ghost use Rattle.ctf_model.specs.rules.Faults.{first_fault, types as types_of};

    ghost Value = { Holding };

    ghost view = { λ j. record {
      kept = record { lists = lists_held j.held; model = j.model };
      owned = is_owned j.held;
    } };

    ghost invariant = { λ j. (first_fault (lists_held j.held) ≡ None)
        × (j.header ≡ fields (lists_held j.held).ctf)
        × (36 + j.header.stroff + j.header.strlen ≤ length (lists_held j.held).ctf)
        × (j.starts ≡ starts_in (types_of (lists_held j.held).ctf)) };
}

impl<'a> Judged<'a> {
    /// Checks the lists and keeps them, or hands them back with the first fault. If memory is
    /// refused, all rules before those of chains are kept.
    pub fn build(
        alloc: Global,
        parts: Parts,
        model: DataModel,
    ) -> Result<Judged<'a>, (Fault, Parts)>
        ensures ok { IfOk result (λ j. j ≡ owning (lists_owned parts) model) }
        ensures exact_ok { OnOk result (first_fault (lists_owned parts) ≡ None) }
        ensures exact_err { IfErr result (λ e. (e.0 ≡ out_of_memory)
            ⊎ (first_fault (lists_owned parts) ≡ Some e.0)) }
        ensures late { IfErr result (λ e. (fault_before_chains (lists_owned parts) ≡ None)
            ⊎ (first_fault (lists_owned parts) ≡ Some e.0)) }
        ensures back { IfErr result (λ e. lists_owned e.1 ≡ lists_owned parts) }
    {
        let lists = lent_lists(&parts);
        match check(alloc, lists.ctf, lists.sym, lists.strs) {
            Ok(Findings { header, starts }) => Ok(Judged {
                held: DictionaryLists::Owned(parts),
                header,
                starts,
                model,
            }),
            Err(fault) => Err((fault, parts)),
        }
    }

    /// Keeps lists that are known to break no rule, as those that were just written. They have so
    /// many types. They are not checked again: only the header and the lengths of the records are
    /// read.
    pub fn of_faultless(
        alloc: Global,
        parts: Parts,
        model: DataModel,
        count: usize,
    ) -> Result<Judged<'a>, Fault>
        requires faultless { first_fault (lists_owned parts) ≡ None }
        requires count { count ≡ length (said_by (lists_owned parts)).terms }
        ensures ok { IfOk result (λ j. j ≡ owning (lists_owned parts) model) }
        ensures err { IfErr result (λ f. f ≡ out_of_memory) }
    {
        let Findings { header, starts } = findings(alloc, parts.ctf.as_slice(), count)?;
        Ok(Judged {
            held: DictionaryLists::Owned(parts),
            header,
            starts,
            model,
        })
    }

    /// Checks borrowed lists and keeps them borrowed, or gives the first fault. If memory is
    /// refused, all rules before those of chains are kept.
    pub fn judge(alloc: Global, lists: LentLists<'a>, model: DataModel) -> Result<Judged<'a>, Fault>
        ensures ok { IfOk result (λ j. j ≡ lent_for (lists_in lists.entry) model) }
        ensures exact_ok { OnOk result (first_fault (lists_in lists.entry) ≡ None) }
        ensures exact_err { IfErr result (λ f. (f ≡ out_of_memory)
            ⊎ (first_fault (lists_in lists.entry) ≡ Some f)) }
        ensures late { IfErr result (λ f. (fault_before_chains (lists_in lists.entry) ≡ None)
            ⊎ (first_fault (lists_in lists.entry) ≡ Some f)) }
    {
        let Findings { header, starts } = check(alloc, lists.ctf, lists.sym, lists.strs)?;
        Ok(Judged {
            held: DictionaryLists::Lent(lists),
            header,
            starts,
            model,
        })
    }

    /// The dictionary, borrowed.
    pub fn view(&self) -> Checked<'_>
        ensures { lists_of result ≡ self.now.kept.lists }
    {
        // Reading a field gives the proof the invariant.
        let _ = &self.held;
        Checked::of(self)
    }

    /// That it breaks no rule, for proofs.
    pub fn keeps_rules(&self)
        ensures { first_fault self.now.kept.lists ≡ None }
    {
        // Reading a field gives the proof the invariant.
        let _ = &self.held;
    }

    /// Takes the lists out; `None` if they are only lent.
    pub fn into_parts(self) -> Option<Parts>
        ensures { option_map lists_owned result ≡ lists_owned_by self.entry }
    {
        let Judged { held, .. } = self;
        match held {
            DictionaryLists::Owned(parts) => Some(parts),
            DictionaryLists::Lent(_) => None,
        }
    }

    /// The data model of its program.
    pub fn model(&self) -> DataModel
        ensures { result ≡ self.now.kept.model }
    {
        self.model
    }

    pub(crate) fn lists(&self) -> LentLists<'_>
        ensures { lists_in result ≡ self.now.kept.lists }
    {
        self.held.lists()
    }

    pub(crate) fn header(&self) -> Header
        ensures { result ≡ fields self.now.kept.lists.ctf }
    {
        self.header
    }

    /// The bytes of a section.
    pub(crate) fn section(&self, section: Section) -> &[u8]
        ensures bytes { result.now ≡ section_of self.now.kept.lists.ctf section }
        ensures short { length result.now < 2 ^ 32 }
    {
        bytes_in(self.held.ctf(), self.header, section)
    }

    /// The places at which its types begin.
    pub(crate) fn starts(&self) -> &[u32]
        ensures { result.now ≡ starts_in (types_of self.now.kept.lists.ctf) }
    {
        self.starts.as_slice()
    }
}
