//! Additions to the draft of a session.
ghost use Rattle.std.specs.Prelude.{◌≡◌, ◌⊎◌, IfErr, IfOk, OnErr, Ok, Err};
ghost use Rattle.ctf_model.specs.opened.Steps.{enlarge, silent, type_added};
ghost use Rattle.ctf_open.specs.PartView.{part_in};
ghost use Rattle.ctf_draft.specs.NewView.{new_body_of};
ghost use Rattle.ctf_draft.specs.Stating.{add_member_at as add_member_at_to};
ghost use Rattle.ctf_model.specs.drafts.Adders.{add_enumerator as add_enumerator_to, add_label as add_label_to, add_member as add_member_to};
ghost use Rattle.ctf_model.specs.rules.Refusals.{out_of_memory};

use crate::open_dictionary::OpenDictionary;
use ctf_draft::{Draft, Member, Name, NewBody, NewType};
use ctf_model::{Bytes, Fault, TypeNum, placeless};
use std::alloc::Global;

/// An addition to a type or to the dictionary, other than a type.
#[derive(Clone, Copy)]
pub enum Part<'a> {
    /// The struct or union, the member's name and type, and its offset in bits if that is stated.
    Member(TypeNum, &'a [u8], TypeNum, Option<u64>),
    /// The struct or union, the member's name and type, its offset in bits, and the new size of the
    /// struct or union.
    MemberAt(TypeNum, &'a [u8], TypeNum, u64, u64),
    /// The enum, the enumerator's name and value.
    Enumerator(TypeNum, &'a [u8], i32),
    /// The label's name, and the last type that it covers.
    Label(&'a [u8], u32),
}

fn add_member(
    alloc: Global,
    draft: &mut Draft,
    t: TypeNum,
    name: &[u8],
    tnum: TypeNum,
    offset: Option<u64>,
) -> Result<u64, Fault>
    ensures ok { IfOk result (λ at. add_member_to draft.old.draft t.0 name.now tnum.0 offset
        ≡ Ok (record { draft = draft.new.draft; answer = at })) }
    ensures exact_err { IfErr result (λ f. (f ≡ out_of_memory)
        ⊎ (add_member_to draft.old.draft t.0 name.now tnum.0 offset ≡ Err f)) }
    ensures as_before { OnErr result (draft.new ≡ draft.old) }
{
    let name = Name::from_slice(alloc, name)?;
    draft.member(t, name, tnum, offset)
}

fn add_member_at(
    alloc: Global,
    draft: &mut Draft,
    t: TypeNum,
    name: &[u8],
    tnum: TypeNum,
    offset: u64,
    size: u64,
) -> Result<u64, Fault>
    ensures ok { IfOk result (λ n. silent (add_member_at_to draft.old.draft t.0
        (record { name = name.now; tnum = tnum.0; offset = offset }) size)
        ≡ Ok (record { draft = draft.new.draft; answer = n })) }
    ensures exact_err { IfErr result (λ f. (f ≡ out_of_memory)
        ⊎ (silent (add_member_at_to draft.old.draft t.0
        (record { name = name.now; tnum = tnum.0; offset = offset }) size) ≡ Err f)) }
    ensures as_before { OnErr result (draft.new ≡ draft.old) }
{
    let name = Name::from_slice(alloc, name)?;
    draft.member_at(t, Member { name, tnum, offset }, size)?;
    Ok(0)
}

fn add_enumerator(
    alloc: Global,
    draft: &mut Draft,
    t: TypeNum,
    name: &[u8],
    value: i32,
) -> Result<u64, Fault>
    ensures ok { IfOk result (λ n. silent (add_enumerator_to draft.old.draft t.0
        (record { name = name.now; value = value }))
        ≡ Ok (record { draft = draft.new.draft; answer = n })) }
    ensures exact_err { IfErr result (λ f. (f ≡ out_of_memory)
        ⊎ (silent (add_enumerator_to draft.old.draft t.0
        (record { name = name.now; value = value })) ≡ Err f)) }
    ensures as_before { OnErr result (draft.new ≡ draft.old) }
{
    let name = Name::from_slice(alloc, name)?;
    draft.enumerator(t, name, value)?;
    Ok(0)
}

fn add_label(alloc: Global, draft: &mut Draft, name: &[u8], last: u32) -> Result<u64, Fault>
    ensures ok { IfOk result (λ n. silent (add_label_to draft.old.draft
        (record { name = name.now; last = last }))
        ≡ Ok (record { draft = draft.new.draft; answer = n })) }
    ensures exact_err { IfErr result (λ f. (f ≡ out_of_memory)
        ⊎ (silent (add_label_to draft.old.draft (record { name = name.now; last = last }))
        ≡ Err f)) }
    ensures as_before { OnErr result (draft.new ≡ draft.old) }
{
    let name = Bytes::from_slice(alloc, name)?;
    draft.label(name, last)?;
    Ok(0)
}

/// Adds to a draft, and returns the offset of a member, else 0.
fn add_to(alloc: Global, draft: &mut Draft, part: Part<'_>) -> Result<u64, Fault>
    ensures ok { IfOk result (λ n. part_in part.entry draft.old.draft
        ≡ Ok (record { draft = draft.new.draft; answer = n })) }
    ensures exact_err { IfErr result (λ f. (f ≡ out_of_memory)
        ⊎ (part_in part.entry draft.old.draft ≡ Err f)) }
    ensures as_before { OnErr result (draft.new ≡ draft.old) }
{
    match part {
        Part::Member(t, name, tnum, offset) => add_member(alloc, draft, t, name, tnum, offset),
        Part::MemberAt(t, name, tnum, offset, size) => {
            add_member_at(alloc, draft, t, name, tnum, offset, size)
        }
        Part::Enumerator(t, name, value) => add_enumerator(alloc, draft, t, name, value),
        Part::Label(name, last) => add_label(alloc, draft, name, last),
    }
}

impl OpenDictionary {
    /// Adds a type to its draft, and returns the type's number. A refusal changes nothing.
    pub fn add(
        &mut self,
        alloc: Global,
        name: &[u8],
        root: bool,
        body: NewBody<'_>,
    ) -> Result<TypeNum, Fault>
        ensures ok { IfOk result (λ t.
            type_added (record { name = name.now; root = root; body = new_body_of body.entry })
            self.old
            ≡ Ok (record { served = self.new; answer = t.0 })) }
        ensures exact_err { IfErr result (λ f. (f ≡ out_of_memory)
            ⊎ (type_added (record { name = name.now; root = root; body = new_body_of body.entry })
            self.old ≡ Err f)) }
        ensures as_before { OnErr result (self.new ≡ self.old) }
        ensures own { self.new.own ≡ self.old.own }
        ensures parent { self.new.parent ≡ self.old.parent }
    {
        let Some(draft) = &mut self.draft else {
            return Err(placeless(Fault::READ_ONLY));
        };
        let name = Name::from_slice(alloc, name)?;
        draft.add(NewType { name, root, body })
    }

    /// Adds a member, an enumerator or a label to its draft, and returns the offset of a member,
    /// else 0. A refusal changes nothing.
    pub fn add_part(&mut self, alloc: Global, part: Part<'_>) -> Result<u64, Fault>
        ensures ok { IfOk result (λ n. enlarge (part_in part.entry) self.old
            ≡ Ok (record { served = self.new; answer = n })) }
        ensures exact_err { IfErr result (λ f. (f ≡ out_of_memory)
            ⊎ (enlarge (part_in part.entry) self.old ≡ Err f)) }
        ensures as_before { OnErr result (self.new ≡ self.old) }
        ensures own { self.new.own ≡ self.old.own }
        ensures parent { self.new.parent ≡ self.old.parent }
    {
        let Some(draft) = &mut self.draft else {
            return Err(placeless(Fault::READ_ONLY));
        };
        add_to(alloc, draft, part)
    }
}
