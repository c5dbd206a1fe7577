//! The parts of a type, by its kind.
ghost use Rattle.std.specs.Prelude.{◌≡◌, [], map, option_map, unwrap_or};
ghost use Rattle.std.specs.List.{list_any};
ghost use Rattle.std.specs.Str.{bytes_eq};
ghost use Rattle.ctf_draft.specs.TypeView.{body_of, enumerator_of, member_of};
ghost use Rattle.ctf_model.specs.drafts.Adders.{is_taken};
ghost use Rattle.ctf_model.specs.format.Shown.{enumerators_in, members_in, shown};

use crate::types::{Body, DraftType, Enumerator, Member};

impl Body {
    /// The members of a struct or union.
    pub(crate) fn members(&self) -> Option<&[Member]>
        ensures { option_map (λ ms. map member_of ms.now) result
            ≡ members_in (shown (body_of self.now)) }
    {
        match self {
            Body::Aggregate(_, _, members) => Some(members.as_slice()),
            _ => None,
        }
    }

    /// The enumerators of an enum.
    pub(crate) fn enumerators(&self) -> Option<&[Enumerator]>
        ensures { option_map (λ es. map enumerator_of es.now) result
            ≡ enumerators_in (shown (body_of self.now)) }
    {
        match self {
            Body::Enum(_, enumerators) => Some(enumerators.as_slice()),
            _ => None,
        }
    }
}

impl DraftType {
    /// Whether a member has the name, unless the name is empty.
    pub(crate) fn has_member(&self, name: &[u8]) -> bool
        ensures { result ≡ is_taken name.now (map (λ m. m.name)
            (unwrap_or (members_in (shown (body_of self.now.body))) [])) }
    {
        match &self.body {
            Body::Aggregate(_, _, members) => match self.taken.place_of(name) {
                Some(place) => any_member_has(members.as_slice(), place, name),
                None => false,
            },
            _ => false,
        }
    }

    /// Whether an enumerator has the name, unless the name is empty.
    pub(crate) fn has_enumerator(&self, name: &[u8]) -> bool
        ensures { result ≡ is_taken name.now (map (λ e. e.name)
            (unwrap_or (enumerators_in (shown (body_of self.now.body))) [])) }
    {
        match &self.body {
            Body::Enum(_, enumerators) => match self.taken.place_of(name) {
                Some(place) => any_enumerator_has(enumerators.as_slice(), place, name),
                None => false,
            },
            _ => false,
        }
    }
}

/// Whether one of the members has the name. The one at the place is compared first.
fn any_member_has(members: &[Member], place: usize, name: &[u8]) -> bool
    ensures { result ≡ list_any (bytes_eq name.now) (map (λ m. m.name) members.now) }
{
    if place < members.len() && name == members[place].name.as_slice() {
        return true;
    }
    for member in members {
        if name == member.name.as_slice() {
            return true;
        }
    }
    false
}

/// Whether one of the enumerators has the name. The one at the place is compared first.
fn any_enumerator_has(enumerators: &[Enumerator], place: usize, name: &[u8]) -> bool
    ensures { result ≡ list_any (bytes_eq name.now) (map (λ e. e.name) enumerators.now) }
{
    if place < enumerators.len() && name == enumerators[place].name.as_slice() {
        return true;
    }
    for enumerator in enumerators {
        if name == enumerator.name.as_slice() {
            return true;
        }
    }
    false
}
