//! A dictionary with its imported parent.
ghost use Rattle.std.specs.Prelude.{◌≡◌, ◌<◌, IfOk, IfErr, OnOk, None, Some, false, length, slice_get};
ghost use Rattle.std.specs.Result.{result_map_both};
ghost use Rattle.std.specs.Option.{ForSome, option_map};
ghost use Rattle.ctf_model.specs.spaces.Imports.{import_fault, of_one_model};
ghost use Rattle.ctf_model.specs.spaces.Space.{space_type};
ghost use Rattle.ctf_model.specs.spaces.TypeNumbers.{or_no_type};
ghost use Rattle.ctf_model.specs.spaces.TypePlaces.{own_number as own_number_of};
ghost use Rattle.ctf_check.specs.CheckedView.{dictionary_of, lists_of};
ghost use Rattle.ctf_space.specs.TypeView.{type_found};

use ctf_check::{Checked, Typed};
use ctf_model::{DataModel, Fault, Place, TypeNum, placeless};
use ctf_views::Variant;

/// A dictionary, with its parent if one was imported, and the data model of its program.
#[derive(Clone, Copy)]
pub struct Space<'a> {
    own: Checked<'a>,
    parent: Option<Checked<'a>>,
    model: DataModel,
    ghost imported: { ForSome parent (λ p.
        import_fault (of_one_model model (dictionary_of own) (dictionary_of p)) ≡ None) },
}

/// The own type of a dictionary with a number from 0.
#[inline(always)]
fn own_type<'a>(dictionary: Checked<'a>, i: usize) -> Result<Typed<'a>, Fault>
    requires { i < 65536 }
    ensures { type_found result ≡ or_no_type (slice_get (dictionary_of dictionary.entry).terms i) }
{
    match dictionary.type_at(i + 1) {
        Some(found) => Ok(found),
        None => Err(placeless(Fault::NO_TYPE)),
    }
}

/// The number of an own type that is counted from 0 here.
#[inline(always)]
fn number_of(child: bool, place: usize) -> TypeNum
    requires { place < 32767 }
    ensures { result.0 ≡ own_number_of child place }
{
    if child {
        TypeNum((place + 0x8001) as u16)
    } else {
        TypeNum((place + 1) as u16)
    }
}

impl<'a> Space<'a> {
    ghost use Rattle.ctf_space.specs.SpaceView.{space_alone, over_parent, own_lists, parent_lists, space_of};
    ghost use Rattle.ctf_space.specs.TypeView.{fault_of_import, name_in, shown_found, shown_in};

    /// A dictionary without a parent.
    pub fn own(own: Checked<'a>, model: DataModel) -> Space<'a>
        ensures space { space_of result ≡ space_alone (dictionary_of own.entry) model }
        ensures lists { own_lists result ≡ lists_of own.entry }
        ensures parent { parent_lists result ≡ None }
    {
        Space {
            own,
            parent: None,
            model,
        }
    }

    /// A child over its parent. Each has a data model, and these have to be the same. The place of
    /// the fault `PARENT_SHORT` is the greatest number of a parent's type that the child names.
    pub fn over(
        child: Checked<'a>,
        child_model: DataModel,
        parent: Checked<'a>,
        parent_model: DataModel,
    ) -> Result<Space<'a>, Fault>
        ensures ok { IfOk result (λ s. space_of s
            ≡ over_parent (dictionary_of child.entry) (dictionary_of parent.entry) child_model) }
        ensures lists { IfOk result (λ s. own_lists s ≡ lists_of child.entry) }
        ensures parent { IfOk result (λ s. parent_lists s ≡ Some (lists_of parent.entry)) }
        ensures exact_ok { OnOk result
            (fault_of_import child.entry child_model parent.entry parent_model ≡ None) }
        ensures exact_err { IfErr result
            (λ f. fault_of_import child.entry child_model parent.entry parent_model ≡ Some f) }
    {
        if !child.child() {
            return Err(placeless(Fault::NOT_CHILD));
        }
        if parent.child() {
            return Err(placeless(Fault::PARENT_IS_CHILD));
        }
        if child_model != parent_model {
            return Err(placeless(Fault::MODEL_DIFFERS));
        }
        let needs = child.needs();
        if needs as usize > parent.count() {
            return Err(Fault {
                code: Fault::PARENT_SHORT,
                place: u64::from(needs),
            });
        }
        Ok(Space::again(child, parent, child_model))
    }

    /// A child over a parent that was imported before, without checking the import again.
    pub fn again(child: Checked<'a>, parent: Checked<'a>, model: DataModel) -> Space<'a>
        requires { fault_of_import child model parent model ≡ None }
        ensures space { space_of result
            ≡ over_parent (dictionary_of child.entry) (dictionary_of parent.entry) model }
        ensures lists { own_lists result ≡ lists_of child.entry }
        ensures parent { parent_lists result ≡ Some (lists_of parent.entry) }
    {
        Space {
            own: child,
            parent: Some(parent),
            model,
        }
    }

    /// The type of a number, with the dictionary that has it.
    #[inline(always)]
    pub fn term(&self, number: TypeNum) -> Result<Typed<'a>, Fault>
        ensures { type_found result ≡ space_type (space_of self.now) number.0 }
    {
        match number.place(self.own.child()) {
            Place::Own(i) => own_type(self.own, i),
            Place::Parents(i) => match self.parent {
                Some(parent) => own_type(parent, i),
                None => Err(placeless(Fault::NO_PARENT)),
            },
            Place::Nowhere => Err(placeless(Fault::NO_TYPE)),
        }
    }

    /// The name of the type of a number, borrowed from the dictionary that has it.
    pub fn name(&self, number: TypeNum) -> Result<&'a [u8], Fault>
        ensures { result_map_both (λ n. n.now) (λ f. f) result
            ≡ name_in (space_type (space_of self.now) number.0) }
    {
        Ok(self.term(number)?.name())
    }

    /// What follows the head of the type of a number.
    pub fn variant(&self, number: TypeNum) -> Result<Variant<'a>, Fault>
        ensures { shown_found result ≡ shown_in (space_type (space_of self.now) number.0) }
    {
        Ok(self.term(number)?.variant())
    }

    /// The dictionary itself.
    pub fn dictionary(&self) -> Checked<'a>
        ensures own { dictionary_of result ≡ (space_of self.now).own }
        ensures lists { lists_of result ≡ own_lists self.now }
    {
        self.own
    }

    /// Its parent as a space of its own, which is no child.
    pub fn parent(&self) -> Option<Space<'a>>
        ensures parent { option_map space_of result
            ≡ option_map (λ p. space_alone p (space_of self.now).model) (space_of self.now).parent }
        ensures plain { ForSome (space_of self.now).parent (λ p. p.child ≡ false) }
        ensures lists { option_map own_lists result ≡ parent_lists self.now }
    {
        match self.parent {
            Some(parent) => Some(Space::own(parent, self.model)),
            None => None,
        }
    }

    /// The data model of its program.
    pub fn model(&self) -> DataModel
        ensures { result ≡ (space_of self.now).model }
    {
        self.model
    }

    /// The number of its own types.
    pub fn count(&self) -> usize
        ensures { result ≡ length (space_of self.now).own.terms }
    {
        self.own.count()
    }

    /// Whether its low type numbers are those of a parent.
    pub fn child(&self) -> bool
        ensures { result ≡ (space_of self.now).own.child }
    {
        self.own.child()
    }

    /// The number of an own type that is counted from 0 here.
    #[inline(always)]
    pub fn own_number(&self, place: usize) -> TypeNum
        requires { place < length (space_of self.now).own.terms }
        ensures { result.0 ≡ own_number_of (space_of self.now).own.child place }
    {
        number_of(self.child(), place)
    }

    /// The number of its parent's types.
    pub fn parent_count(&self) -> Option<usize>
        ensures { result ≡ option_map (λ p. length p.terms) (space_of self.now).parent }
    {
        match self.parent {
            Some(parent) => Some(parent.count()),
            None => None,
        }
    }
}
