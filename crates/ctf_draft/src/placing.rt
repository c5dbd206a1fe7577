//! The offset of a member.
ghost use Rattle.std.specs.Prelude.{◌≡◌, ◌+◌, ◌<◌, ◌^◌, ◌⊎◌, ℕ, IfOk, IfErr, MatchOption, Option, Some, is_some, option_map, true, false, unwrap_or, Ok, Err};
ghost use Rattle.ctf_draft.specs.Pending.{StandsPending};
ghost use Rattle.ctf_draft.specs.Reaching.{Knows};
ghost use Rattle.ctf_draft.specs.Planning.{planned, planned_shallow, planned_with, last_of_struct};
ghost use Rattle.ctf_draft.specs.TypeView.{body_of, member_of};
ghost use Rattle.ctf_model.specs.drafts.Adders.{body_at, is_deep};
ghost use Rattle.ctf_model.specs.drafts.Drafts.{count_of, space_of};
ghost use Rattle.ctf_model.specs.rules.Chains.{own_index as own_index_of};
ghost use Rattle.ctf_model.specs.figures.Figures.{align as align_in};
ghost use Rattle.ctf_model.specs.drafts.Placement.{aligned_from as aligned_from_in, bytes_holding as bytes_holding_in, grown_size as grown_in, member_place as member_place_in, own_place as own_place_in};
ghost use Rattle.ctf_model.specs.rules.Refusals.{out_of_memory};
ghost use Rattle.ctf_model.specs.format.Shown.{size_of};

use crate::draft::Draft;
use crate::figures::MOST_NUMBERS;
use crate::marks::Marks;
use crate::plan::Plan;
use crate::types::{AggregateKind, Body, Member};
use ctf_chains::LONGEST_CHAIN;
use ctf_model::{Fault, TypeNum, placeless};
use std::alloc::AllocError;

/// The number of whole bytes for so many bits.
fn bytes_holding(bits: u128) -> u128
    ensures { result ≡ bytes_holding_in bits }
{
    bits.div_ceil(8)
}

/// The first offset, in whole bytes, at or after a bit, that an alignment allows.
fn aligned_from(bit: u128, align: u64) -> u128
    requires { bit < 2 ^ 70 }
    ensures place { result ≡ aligned_from_in bit align }
    ensures small { result < 2 ^ 71 }
{
    8 * bytes_holding(bit).next_multiple_of(u128::from(align.max(1)))
}

/// A size that also has room for so many bits at an offset.
fn grown_size(size: u64, offset: u128, bits: u128) -> u128
    requires offset { offset < 2 ^ 71 }
    requires bits { bits < 2 ^ 70 }
    ensures { result ≡ grown_in size offset bits }
{
    u128::from(size).max(bytes_holding(offset + bits))
}

/// An offset and a size, if they fit into 64 bits.
fn checked_plan(offset: u128, size: u128) -> Result<Plan, Fault>
    ensures { result ≡ planned_with offset size }
{
    match (u64::try_from(offset), u64::try_from(size)) {
        (Ok(offset), Ok(size)) => Ok(Plan { offset, size }),
        _ => Err(placeless(Fault::BAD_OFFSET)),
    }
}

impl Body {
    /// The last member of a struct, after which a new one comes.
    fn last_of_struct(&self) -> Option<&Member>
        ensures { option_map (λ m. member_of m.now) result ≡ last_of_struct (body_of self.now) }
    {
        match self {
            Body::Aggregate(AggregateKind::Struct, _, members) => members.as_slice().last(),
            _ => None,
        }
    }

    /// The size that is stored, or 0.
    pub(crate) fn stated_size(&self) -> u64
        ensures { result ≡ unwrap_or (size_of (body_of self.now)) 0 }
    {
        match self {
            Body::Scalar(_, size, _) => *size,
            Body::Aggregate(_, size, _) => *size,
            Body::Enum(size, _) => *size,
            _ => 0,
        }
    }
}

impl Draft {
    /// The alignment of an own type, if its bound shows that it is not too deep, and no union has
    /// to be searched.
    fn shallow_align(&self, tnum: TypeNum, i: usize) -> Option<Result<u64, Fault>>
        requires own { own_index_of (is_some self.now.draft.parent) (count_of self.now.draft) tnum.0
            ≡ Some i }
        ensures { MatchOption result (Unit {0}) (λ align. (is_deep self.now.draft tnum.0 ≡ false)
            × (align ≡ align_in (space_of self.now.draft) tnum.0)) }
    {
        if !self.depths.is_shallow(i) {
            return None;
        }
        self.align_within(tnum, MOST_NUMBERS)
    }

    /// The alignment of a type, if no more than 512 steps by value begin at it.
    #[inline(always)]
    pub(crate) fn alignment(
        &self,
        marks: &mut Marks,
        tnum: TypeNum,
    ) -> Result<Option<Result<u64, Fault>>, AllocError>
        requires { Knows self.now.draft marks.old }
        ensures found { IfOk result (λ found. MatchOption found
            (is_deep self.now.draft tnum.0 ≡ true)
            (λ align. (is_deep self.now.draft tnum.0 ≡ false)
            × (align ≡ align_in (space_of self.now.draft) tnum.0))) }
        ensures knows { Knows self.now.draft marks.new }
    {
        let Some(i) = self.own_index(tnum) else {
            return Ok(Some(self.align_elsewhere(tnum)));
        };
        if let Some(align) = self.shallow_align(tnum, i) {
            return Ok(Some(align));
        }
        let Ok(()) = marks.make_room(self.types.len()) else {
            return Err(AllocError);
        };
        match self.reach(marks, i, LONGEST_CHAIN) {
            Some(reach) => Ok(Some(reach.align)),
            None => Ok(None),
        }
    }

    /// The offset of a member of a pending type that states none, if its type has an alignment.
    fn own_place(&self, n: TypeNum, i: usize, align: Result<u64, Fault>) -> Result<u128, Fault>
        requires { StandsPending self.now.draft n.0 i }
        ensures place { (tnum : ℕ) → align ≡ align_in (space_of self.now.draft) tnum
            → result ≡ own_place_in (space_of self.now.draft) (body_at self.now.draft n.0) tnum }
        ensures small { IfOk result (λ place. place < 2 ^ 71) }
    {
        let Some(last) = self.pending_body(n, i).last_of_struct() else {
            return Ok(0);
        };
        let bits = self.bits_filled(last.tnum)?;
        let align = align?;
        Ok(aligned_from(u128::from(last.offset) + bits, align))
    }

    /// The offset of a member of a pending type: the stated one, or the computed one.
    fn member_place(
        &self,
        n: TypeNum,
        i: usize,
        align: Result<u64, Fault>,
        offset: Option<u64>,
    ) -> Result<u128, Fault>
        requires { StandsPending self.now.draft n.0 i }
        ensures place { (tnum : ℕ) → align ≡ align_in (space_of self.now.draft) tnum
            → result ≡ member_place_in (space_of self.now.draft) (body_at self.now.draft n.0)
            tnum offset }
        ensures small { IfOk result (λ place. place < 2 ^ 71) }
    {
        match offset {
            Some(offset) => Ok(u128::from(offset)),
            None => self.own_place(n, i, align),
        }
    }

    /// The offset of a member of a pending type if it depends on no alignment: it is stated, or
    /// there is no member before it.
    fn free_place(&self, n: TypeNum, i: usize, offset: Option<u64>) -> Option<u64>
        requires { StandsPending self.now.draft n.0 i }
        ensures { MatchOption result (Unit {0}) (λ place. (tnum : ℕ)
            → member_place_in (space_of self.now.draft) (body_at self.now.draft n.0) tnum offset
            ≡ Ok place) }
    {
        if offset.is_some() {
            return offset;
        }
        match self.pending_body(n, i).last_of_struct() {
            Some(_) => None,
            None => Some(0),
        }
    }

    /// Whether the bound of a type shows that no more than 512 steps by value begin at it.
    pub(crate) fn is_shallow(&self, tnum: TypeNum) -> bool
        ensures { result ≡ true → is_deep self.now.draft tnum.0 ≡ false }
    {
        match self.own_index(tnum) {
            Some(i) => self.depths.is_shallow(i),
            None => true,
        }
    }

    /// The plan for a member with an offset: the offset, and the new size.
    fn plan_shallow(
        &self,
        n: TypeNum,
        i: usize,
        tnum: TypeNum,
        place: Result<u128, Fault>,
    ) -> Result<Plan, Fault>
        requires pending { StandsPending self.now.draft n.0 i }
        requires small { IfOk place (λ place. place < 2 ^ 71) }
        ensures { (offset : Option ℕ) → place ≡ member_place_in (space_of self.now.draft)
            (body_at self.now.draft n.0) tnum.0 offset
            → result ≡ planned_shallow self.now.draft n.0 tnum.0 offset }
    {
        let bits = self.bits_filled(tnum)?;
        let place = place?;
        let said = self.pending_body(n, i).stated_size();
        checked_plan(place, grown_size(said, place, bits))
    }

    /// The same, with a table of search results. Alignments are computed only if an offset depends
    /// on one.
    fn plan_by(
        &self,
        marks: &mut Marks,
        n: TypeNum,
        i: usize,
        tnum: TypeNum,
        offset: Option<u64>,
    ) -> Result<Plan, Fault>
        requires pending { StandsPending self.now.draft n.0 i }
        requires knows { Knows self.now.draft marks.old }
        ensures ok { IfOk result (λ p. planned self.now.draft n.0 tnum.0 offset ≡ Ok p) }
        ensures err { IfErr result (λ f. (f ≡ out_of_memory)
            ⊎ (planned self.now.draft n.0 tnum.0 offset ≡ Err f)) }
        ensures knows { Knows self.now.draft marks.new }
    {
        if let Some(place) = self.free_place(n, i, offset) {
            if self.is_shallow(tnum) {
                return self.plan_shallow(n, i, tnum, Ok(u128::from(place)));
            }
        }
        let found = self.alignment(marks, tnum)?;
        match found {
            Some(align) => {
                let place = self.member_place(n, i, align, offset);
                self.plan_shallow(n, i, tnum, place)
            }
            None => Err(placeless(Fault::DEEP_MEMBER)),
        }
    }

    /// The plan for a member of a pending type: its offset, and the new size. The draft stays as it
    /// is.
    pub(crate) fn plan(
        &mut self,
        n: TypeNum,
        i: usize,
        tnum: TypeNum,
        offset: Option<u64>,
    ) -> Result<Plan, Fault>
        requires { StandsPending self.old.draft n.0 i }
        ensures ok { IfOk result (λ p. planned self.old.draft n.0 tnum.0 offset ≡ Ok p) }
        ensures err { IfErr result (λ f. (f ≡ out_of_memory)
            ⊎ (planned self.old.draft n.0 tnum.0 offset ≡ Err f)) }
        ensures same { self.new ≡ self.old }
    {
        let mut marks = std::mem::replace(&mut self.marks, Marks::new(self.alloc));
        let plan = self.plan_by(&mut marks, n, i, tnum, offset);
        self.marks = marks;
        plan
    }
}
