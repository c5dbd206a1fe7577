//! A member at a stated offset, in a struct or union of a stated size.
ghost use Rattle.std.specs.Prelude.{◌≡◌, ◌⊎◌, ◌*◌, ◌<◌, ◌^◌, [], nat_lt, map, unwrap_or, Ok, Err, IfErr, IfOk, OnErr, OnOk};
ghost use Rattle.std.specs.List.{list_any};
ghost use Rattle.ctf_draft.specs.Pending.{StandsPending};
ghost use Rattle.ctf_draft.specs.Stating.{add_member_at, begins_behind};
ghost use Rattle.ctf_draft.specs.TypeView.{body_of, member_of};
ghost use Rattle.ctf_model.specs.drafts.Adders.{is_deep as is_deep_in, present_members};
ghost use Rattle.ctf_model.specs.format.Shown.{members_in, shown};
ghost use Rattle.ctf_model.specs.rules.Refusals.{out_of_memory};

use crate::draft::Draft;
use crate::marks::Marks;
use crate::types::{Body, Member};
use ctf_model::{Fault, TypeNum, placeless};
use std::alloc::AllocError;

/// Whether an offset, in bits, is after the end of a size in bytes.
fn is_behind(offset: u64, size: u64) -> bool
    ensures behind { result ≡ nat_lt (8 * size) offset }
    ensures place_fits { offset < 2 ^ 64 }
    ensures size_fits { size < 2 ^ 64 }
{
    u128::from(offset) > 8 * u128::from(size)
}

/// Whether one of some members begins after a size.
fn any_behind(members: &[Member], size: u64) -> bool
    ensures { result ≡ list_any (begins_behind size) (map member_of members.now) }
{
    for member in members {
        if is_behind(member.offset, size) {
            return true;
        }
    }
    false
}

impl Body {
    /// Whether one of its members begins after a size.
    fn has_behind(&self, size: u64) -> bool
        ensures { result ≡ list_any (begins_behind size)
            (unwrap_or (members_in (shown (body_of self.now))) []) }
    {
        match self {
            Body::Aggregate(_, _, members) => any_behind(members.as_slice(), size),
            _ => false,
        }
    }
}

impl Draft {
    /// Whether a member of a pending type begins after a size. None does if the type's present size
    /// is no greater.
    fn leaves_behind(&self, n: TypeNum, i: usize, size: u64) -> bool
        requires { StandsPending self.now.draft n.0 i }
        ensures { result
            ≡ list_any (begins_behind size) (present_members self.now.draft n.0) }
    {
        let body = self.pending_body(n, i);
        if body.stated_size() <= size {
            return false;
        }
        body.has_behind(size)
    }

    /// Whether more than 512 steps by value begin at a type. The draft stays as it is.
    fn is_deep(&mut self, tnum: TypeNum) -> Result<bool, AllocError>
        ensures deep { IfOk result (λ deep. deep ≡ is_deep_in self.old.draft tnum.0) }
        ensures same { self.new ≡ self.old }
    {
        if self.is_shallow(tnum) {
            return Ok(false);
        }
        let mut marks = std::mem::replace(&mut self.marks, Marks::new(self.alloc));
        let found = self.alignment(&mut marks, tnum);
        self.marks = marks;
        Ok(found?.is_none())
    }

    /// Adds a member to a pending struct or union, at the stated offset, and sets the size of the
    /// struct or union. Neither depends on the size of any type; only, no member may begin after
    /// the stated size.
    pub fn member_at(&mut self, n: TypeNum, member: Member, size: u64) -> Result<(), Fault>
        ensures ok { OnOk result (add_member_at self.old.draft n.0 (member_of member) size
            ≡ Ok self.new.draft) }
        ensures exact_err { IfErr result (λ f. (f ≡ out_of_memory)
            ⊎ (add_member_at self.old.draft n.0 (member_of member) size ≡ Err f)) }
        ensures as_before { OnErr result (self.new ≡ self.old) }
        ensures dictionary { self.new.dictionary ≡ self.old.dictionary }
    {
        let i = self.aggregate_for(n, member.name.as_slice(), member.tnum)?;
        if self.is_deep(member.tnum)? {
            return Err(placeless(Fault::DEEP_MEMBER));
        }
        if is_behind(member.offset, size) {
            return Err(placeless(Fault::BAD_OFFSET));
        }
        if self.leaves_behind(n, i, size) {
            return Err(placeless(Fault::BAD_OFFSET));
        }
        self.put_member(n, i, member, size)
    }
}
