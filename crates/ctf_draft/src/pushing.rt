//! Adds types, members and enumerators at the end of lists.
ghost use Rattle.std.specs.Prelude.{◌≡◌, ◌<◌, ◌+◌, ◌++◌, ◌∷◌, [], map, vec_capacity, vec_len, IfErr, OnErr, OnOk};
ghost use Rattle.ctf_draft.specs.NewView.{new_body_of, new_of};
ghost use Rattle.ctf_draft.specs.TypeView.{enumerator_of, member_of, type_of};
ghost use Rattle.ctf_model.specs.drafts.Adders.{with_body, with_enumerator, with_member};
ghost use Rattle.ctf_model.specs.drafts.Fitting.{FitsNew};
ghost use Rattle.ctf_model.specs.drafts.NewTypes.{new_term};
ghost use Rattle.ctf_model.specs.rules.Refusals.{out_of_memory};

use crate::new_types::{NewType, draft_type};
use crate::types::{Body, DraftType, Enumerator, Member};
use ctf_model::Fault;
use std::alloc::{AllocError, Global};

/// Makes room for one more item. A list without room gets room for a sixteenth more, and not for
/// twice as many: a draft has many lists, and most stop growing soon.
fn make_room<T>(items: &mut Vec<T>) -> Result<(), AllocError>
    ensures items { items.new.items ≡ items.old.items }
    ensures len { vec_len items.new ≡ vec_len items.old }
    ensures room { OnOk result (vec_len items.new < vec_capacity items.new) }
{
    if items.len() < items.capacity() {
        return Ok(());
    }
    items.reserve_exact(items.len() / 16 + 1)
}

/// Adds a type.
pub(crate) fn push_type(
    alloc: Global,
    types: &mut Vec<DraftType>,
    new: NewType<'_>,
) -> Result<(), AllocError>
    ensures types { OnOk result (map type_of types.new.items
        ≡ map type_of types.old.items ++ new_term (new_of new.entry) ∷ []) }
    ensures len { OnOk result (vec_len types.new ≡ vec_len types.old + 1) }
    ensures same { OnErr result (types.new.items ≡ types.old.items) }
    ensures same_len { OnErr result (vec_len types.new ≡ vec_len types.old) }
    ensures fits { FitsNew (new_body_of new.entry.body) }
{
    types.push(draft_type(alloc, new)?)?;
    Ok(())
}

/// Adds a member to a struct or union, and sets its size.
pub(crate) fn push_member(to: &mut DraftType, member: Member, size: u64) -> Result<(), Fault>
    ensures ok { OnOk result (type_of to.new
        ≡ with_body (with_member (member_of member) size (type_of to.old).body) (type_of to.old)) }
    ensures err { IfErr result (λ f. f ≡ out_of_memory) }
    ensures as_before { OnErr result (type_of to.new ≡ type_of to.old) }
{
    match &mut to.body {
        Body::Aggregate(_, old, members) => {
            make_room(members)?;
            to.taken.add(member.name.as_slice(), members.len())?;
            members.push_reserved(member);
            *old = size;
            Ok(())
        }
        _ => Ok(()),
    }
}

/// Adds an enumerator to an enum.
pub(crate) fn push_enumerator(to: &mut DraftType, enumerator: Enumerator) -> Result<(), Fault>
    ensures ok { OnOk result (type_of to.new ≡ with_body
        (with_enumerator (enumerator_of enumerator) (type_of to.old).body) (type_of to.old)) }
    ensures err { IfErr result (λ f. f ≡ out_of_memory) }
    ensures as_before { OnErr result (type_of to.new ≡ type_of to.old) }
{
    match &mut to.body {
        Body::Enum(_, enumerators) => {
            make_room(enumerators)?;
            to.taken.add(enumerator.name.as_slice(), enumerators.len())?;
            enumerators.push_reserved(enumerator);
            Ok(())
        }
        _ => Ok(()),
    }
}
