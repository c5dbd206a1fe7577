//! Additions to a pending type.
ghost use Rattle.std.specs.Prelude.{◌≡◌, ◌⊎◌, MatchOption, None, Some, true, Ok, Err, IfOk, IfErr, OnOk, OnErr};
ghost use Rattle.ctf_draft.specs.Pending.{StandsPending};
ghost use Rattle.ctf_draft.specs.Planning.{against_name};
ghost use Rattle.ctf_draft.specs.TypeView.{body_of, enumerator_of, member_of};
ghost use Rattle.ctf_model.specs.drafts.Adders.{add_enumerator, add_member, against_enumerator as against_enumerator_in, body_at, replace_body, with_enumerator, with_member};
ghost use Rattle.ctf_model.specs.drafts.DraftLaws.{IsSound};
ghost use Rattle.ctf_model.specs.drafts.Drafts.{is_settled};
ghost use Rattle.ctf_model.specs.rules.Judgements.{first_met};
ghost use Rattle.ctf_model.specs.rules.Refusals.{out_of_memory};

use crate::adding::MOST_ITEMS;
use crate::draft::Draft;
use crate::names::Name;
use crate::naming::has_zero;
use crate::pushing::{push_enumerator, push_member};
use crate::types::{Body, DraftType, Enumerator, Member};
use ctf_model::{Fault, Place, TypeNum, placeless};

impl Draft {
    /// The index of a pending type among all types, if the number is one's.
    pub(crate) fn pending_index(&self, n: TypeNum) -> Option<usize>
        ensures { MatchOption result (is_settled self.now.draft n.0 ≡ true)
            (λ i. StandsPending self.now.draft n.0 i) }
    {
        match n.place(self.parent.is_some()) {
            Place::Own(i) if i < self.types.len() => {
                if i < self.updated { None } else { Some(i) }
            }
            _ => None,
        }
    }

    /// A pending type.
    fn pending_type(&self, n: TypeNum, i: usize) -> &DraftType
        requires { StandsPending self.now.draft n.0 i }
        ensures body { body_of result.now.body ≡ body_at self.now.draft n.0 }
        ensures sound { IsSound self.now.draft }
    {
        &self.types[i]
    }

    /// The body of a pending type.
    pub(crate) fn pending_body(&self, n: TypeNum, i: usize) -> &Body
        requires { StandsPending self.now.draft n.0 i }
        ensures body { body_of result.now ≡ body_at self.now.draft n.0 }
        ensures sound { IsSound self.now.draft }
    {
        &self.pending_type(n, i).body
    }

    /// The index of the enum for an enumerator, or the fault.
    fn enum_for(&self, n: TypeNum, name: &[u8]) -> Result<usize, Fault>
        ensures place { IfOk result (λ i. StandsPending self.now.draft n.0 i) }
        ensures ok { OnOk result
            (first_met (against_enumerator_in self.now.draft n.0 name.now) ≡ None) }
        ensures err { IfErr result (λ f.
            first_met (against_enumerator_in self.now.draft n.0 name.now) ≡ Some f) }
    {
        if has_zero(name) {
            return Err(placeless(Fault::NAME_HAS_ZERO));
        }
        if self.is_unknown(n) {
            return Err(placeless(Fault::NO_TYPE));
        }
        let Some(i) = self.pending_index(n) else {
            return Err(placeless(Fault::SETTLED));
        };
        let to = self.pending_type(n, i);
        let Some(enumerators) = to.body.enumerators() else {
            return Err(placeless(Fault::WRONG_KIND));
        };
        if enumerators.len() >= MOST_ITEMS {
            return Err(placeless(Fault::VLEN_FULL));
        }
        if to.has_enumerator(name) {
            return Err(placeless(Fault::DUPLICATE));
        }
        Ok(i)
    }

    /// The index of the struct or union for a member, or a fault that does not depend on sizes.
    #[inline(always)]
    pub(crate) fn aggregate_for(
        &self,
        n: TypeNum,
        name: &[u8],
        tnum: TypeNum,
    ) -> Result<usize, Fault>
        ensures place { IfOk result (λ i. StandsPending self.now.draft n.0 i) }
        ensures ok { OnOk result (against_name self.now.draft n.0 name.now tnum.0 ≡ None) }
        ensures err { IfErr result (λ f. against_name self.now.draft n.0 name.now tnum.0
            ≡ Some f) }
    {
        if has_zero(name) {
            return Err(placeless(Fault::NAME_HAS_ZERO));
        }
        if self.is_unknown(n) {
            return Err(placeless(Fault::NO_TYPE));
        }
        let Some(i) = self.pending_index(n) else {
            return Err(placeless(Fault::SETTLED));
        };
        let to = self.pending_type(n, i);
        let Some(members) = to.body.members() else {
            return Err(placeless(Fault::WRONG_KIND));
        };
        if members.len() >= MOST_ITEMS {
            return Err(placeless(Fault::VLEN_FULL));
        }
        if to.has_member(name) {
            return Err(placeless(Fault::DUPLICATE));
        }
        if self.is_absent(tnum) {
            return Err(placeless(Fault::BAD_REF));
        }
        Ok(i)
    }

    /// Adds a member to the struct or union at an index, and sets its size.
    #[inline(always)]
    pub(crate) fn put_member(
        &mut self,
        n: TypeNum,
        i: usize,
        member: Member,
        size: u64,
    ) -> Result<(), Fault>
        requires pending { StandsPending self.old.draft n.0 i }
        requires sound { IsSound self.old.draft → IsSound (replace_body self.old.draft n.0
            (with_member (member_of member) size (body_at self.old.draft n.0))) }
        ensures ok { OnOk result (self.new.draft ≡ replace_body self.old.draft n.0
            (with_member (member_of member) size (body_at self.old.draft n.0))) }
        ensures err { IfErr result (λ f. f ≡ out_of_memory) }
        ensures as_before { OnErr result (self.new ≡ self.old) }
        ensures dictionary { self.new.dictionary ≡ self.old.dictionary }
    {
        let held = self.own_index(member.tnum);
        let stays = self.stays_known(&self.marks, i, member.tnum);
        self.depths.make_ready(self.alloc, self.updated, i, held)?;
        self.marks.leave_unless(stays, i);
        push_member(&mut self.types[i], member, size)
    }

    /// Adds a member to a pending struct or union, and returns its offset in bits. Without a stated
    /// offset, a union's member is at 0, and a struct's comes after the last member, at the next
    /// offset that its type's alignment allows.
    pub fn member(
        &mut self,
        n: TypeNum,
        name: Name,
        tnum: TypeNum,
        offset: Option<u64>,
    ) -> Result<u64, Fault>
        ensures ok { IfOk result (λ at. add_member self.old.draft n.0 name tnum.0 offset
            ≡ Ok (record { draft = self.new.draft; answer = at })) }
        ensures exact_err { IfErr result (λ f. (f ≡ out_of_memory)
            ⊎ (add_member self.old.draft n.0 name tnum.0 offset ≡ Err f)) }
        ensures as_before { OnErr result (self.new ≡ self.old) }
        ensures dictionary { self.new.dictionary ≡ self.old.dictionary }
    {
        let i = self.aggregate_for(n, name.as_slice(), tnum)?;
        let plan = self.plan(n, i, tnum, offset)?;
        let offset = plan.offset;
        self.put_member(n, i, Member { name, tnum, offset }, plan.size)?;
        Ok(offset)
    }

    /// Adds an enumerator to the enum at an index.
    fn put_enumerator(&mut self, n: TypeNum, i: usize, enumerator: Enumerator) -> Result<(), Fault>
        requires pending { StandsPending self.old.draft n.0 i }
        requires sound { IsSound self.old.draft → IsSound (replace_body self.old.draft n.0
            (with_enumerator (enumerator_of enumerator) (body_at self.old.draft n.0))) }
        ensures ok { OnOk result (self.new.draft ≡ replace_body self.old.draft n.0
            (with_enumerator (enumerator_of enumerator) (body_at self.old.draft n.0))) }
        ensures err { IfErr result (λ f. f ≡ out_of_memory) }
        ensures as_before { OnErr result (self.new ≡ self.old) }
        ensures dictionary { self.new.dictionary ≡ self.old.dictionary }
    {
        self.marks.leave(i);
        push_enumerator(&mut self.types[i], enumerator)
    }

    /// Adds an enumerator to a pending enum.
    #[tactic(auto, unfolding(ctf_model::specs::drafts::Adders::add_enumerator))]
    pub fn enumerator(&mut self, n: TypeNum, name: Name, value: i32) -> Result<(), Fault>
        ensures ok { OnOk result (add_enumerator self.old.draft n.0
            (record { name = name; value = value }) ≡ Ok self.new.draft) }
        ensures exact_err { IfErr result (λ f. (f ≡ out_of_memory)
            ⊎ (add_enumerator self.old.draft n.0 (record { name = name; value = value })
            ≡ Err f)) }
        ensures as_before { OnErr result (self.new ≡ self.old) }
        ensures dictionary { self.new.dictionary ≡ self.old.dictionary }
    {
        let i = self.enum_for(n, name.as_slice())?;
        self.put_enumerator(n, i, Enumerator { name, value })
    }
}
