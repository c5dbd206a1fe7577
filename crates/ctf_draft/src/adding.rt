//! What is added to a draft.
ghost use Rattle.std.specs.Prelude.{◌≡◌, ◌<◌, ◌⊎◌, is_some, MatchOption, length, map, Ok, Err, IfOk, IfErr, OnOk, OnErr};
ghost use Rattle.std.specs.List.{AllByRecursion, list_any};
ghost use Rattle.ctf_draft.specs.NewView.{new_body_of, new_of};
ghost use Rattle.ctf_draft.specs.TypeView.{number_of};
ghost use Rattle.ctf_model.specs.drafts.Adders.{against_type, add_label, add_type};
ghost use Rattle.ctf_model.specs.drafts.Drafts.{count_of, is_absent as is_absent_in, is_unknown as is_unknown_in, next_number as next_number_in};
ghost use Rattle.ctf_model.specs.rules.Judgements.{first_met};
ghost use Rattle.ctf_model.specs.drafts.NewTypes.{new_body, new_term};
ghost use Rattle.ctf_model.specs.rules.Chains.{by_value, own_index as own_index_of};
ghost use Rattle.ctf_model.specs.rules.References.{references};
ghost use Rattle.ctf_model.specs.rules.Refusals.{out_of_memory};
ghost use Rattle.ctf_model.specs.format.Shown.{list_length, shown};

use crate::draft::Draft;
use crate::naming::has_zero;
use crate::new_types::{NewBody, NewType};
use crate::pushing::push_type;
use crate::types::ReferenceKind;
use ctf_model::{Bytes, Fault, Place, TypeNum, placeless};

/// The greatest number of types of a dictionary.
const MOST_TYPES: usize = 32_766;

/// The greatest number of members, enumerators or arguments of a type.
pub(crate) const MOST_ITEMS: usize = 1023;

impl Draft {
    /// Whether no type has the number, of the draft or of its parent.
    pub(crate) fn is_unknown(&self, n: TypeNum) -> bool
        ensures { result ≡ is_unknown_in self.now.draft n.0 }
    {
        match n.place(self.parent.is_some()) {
            Place::Nowhere => true,
            Place::Own(i) => i >= self.types.len(),
            Place::Parents(i) => match &self.parent {
                Some(parent) => i >= parent.judged.view().count(),
                None => true,
            },
        }
    }

    /// The same, if 0 may stand for no type.
    pub(crate) fn is_absent(&self, n: TypeNum) -> bool
        ensures { result ≡ is_absent_in self.now.draft n.0 }
    {
        n.0 != 0 && self.is_unknown(n)
    }

    /// Whether one of the numbers is that of no type.
    fn any_absent(&self, numbers: &[TypeNum]) -> bool
        ensures { result ≡ list_any (is_absent_in self.now.draft) (map number_of numbers.now) }
    {
        for number in numbers {
            if self.is_absent(*number) {
                return true;
            }
        }
        false
    }

    /// Whether a new type names a missing one.
    fn names_absent(&self, new: &NewBody<'_>) -> bool
        ensures { result ≡ list_any (is_absent_in self.now.draft)
            (references (new_body (new_body_of new.now))) }
    {
        match new {
            NewBody::Reference(_, tnum) => self.is_absent(*tnum),
            NewBody::Array(info) => self.is_absent(info.contents) || self.is_absent(info.index),
            NewBody::Function(returned, arguments) => {
                self.is_absent(*returned) || self.any_absent(arguments)
            }
            _ => false,
        }
    }

    /// The fault for which a type is not added, if there is one.
    fn against_type(&self, new: &NewType<'_>) -> Option<Fault>
        ensures { result ≡ first_met (against_type self.now.draft (new_term (new_of new.now))) }
    {
        if has_zero(new.name.as_slice()) {
            return Some(placeless(Fault::NAME_HAS_ZERO));
        }
        if arguments_in(&new.body) > MOST_ITEMS {
            return Some(placeless(Fault::VLEN_FULL));
        }
        if self.names_absent(&new.body) {
            return Some(placeless(Fault::BAD_REF));
        }
        if self.types.len() >= MOST_TYPES {
            return Some(placeless(Fault::FULL));
        }
        None
    }

    /// The number that the next type gets.
    fn next_number(&self) -> TypeNum
        ensures { result.0 ≡ next_number_in self.now.draft }
    {
        let first = if self.parent.is_some() { 0x8001 } else { 1 };
        TypeNum(self.types.len() as u16 + first)
    }

    /// The type of a draft that a new type contains by value, if there is one.
    fn held_by(&self, new: &NewBody<'_>) -> Option<usize>
        ensures held { AllByRecursion (λ n. own_index_of (is_some self.now.draft.parent)
            (count_of self.now.draft) n ≡ result) (by_value (new_body (new_body_of new.now))) }
        ensures inside { MatchOption result (Unit {0}) (λ j. j < count_of self.now.draft) }
    {
        match new {
            NewBody::Reference(ReferenceKind::Pointer, _) => None,
            NewBody::Reference(_, tnum) => self.own_index(*tnum),
            NewBody::Array(info) => self.own_index(info.contents),
            _ => None,
        }
    }

    /// Adds a type, and returns its number.
    #[tactic(auto, unfolding(ctf_model::specs::drafts::Adders::add_type))]
    pub fn add(&mut self, new: NewType<'_>) -> Result<TypeNum, Fault>
        ensures ok { IfOk result (λ n. add_type self.old.draft (new_of new.entry)
            ≡ Ok (record { draft = self.new.draft; answer = n.0 })) }
        ensures exact_err { IfErr result (λ f. (f ≡ out_of_memory)
            ⊎ (add_type self.old.draft (new_of new.entry) ≡ Err f)) }
        ensures as_before { OnErr result (self.new ≡ self.old) }
        ensures dictionary { self.new.dictionary ≡ self.old.dictionary }
    {
        if let Some(fault) = self.against_type(&new) {
            return Err(fault);
        }
        let number = self.next_number();
        let held = self.held_by(&new.body);
        self.depths
            .make_next(self.alloc, self.updated, self.types.len(), held)?;
        push_type(self.alloc, &mut self.types, new)?;
        Ok(number)
    }

    /// Adds a label.
    #[tactic(auto, unfolding(ctf_model::specs::drafts::Adders::add_label))]
    pub fn label(&mut self, name: Bytes, last: u32) -> Result<(), Fault>
        ensures ok { OnOk result (add_label self.old.draft (record { name = name; last = last })
            ≡ Ok self.new.draft) }
        ensures exact_err { IfErr result (λ f. (f ≡ out_of_memory)
            ⊎ (add_label self.old.draft (record { name = name; last = last }) ≡ Err f)) }
        ensures as_before { OnErr result (self.new ≡ self.old) }
        ensures dictionary { self.new.dictionary ≡ self.old.dictionary }
    {
        if has_zero(name.as_slice()) {
            return Err(placeless(Fault::NAME_HAS_ZERO));
        }
        if self.labels.has(name.as_slice()) {
            return Err(placeless(Fault::DUPLICATE));
        }
        Ok(self.labels.push(name.into_vec(), last)?)
    }
}

/// How many arguments a new type has.
fn arguments_in(new: &NewBody<'_>) -> usize
    ensures { result ≡ list_length (shown (new_body (new_body_of new.now))) }
{
    match new {
        NewBody::Function(_, arguments) => arguments.len(),
        _ => 0,
    }
}
