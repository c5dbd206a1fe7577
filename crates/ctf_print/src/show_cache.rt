//! A cache of what was found of types while a value is shown.
ghost use Rattle.std.specs.Prelude.{◌≡◌, ◌≤◌, ℕ, List, IfSome, Some};
ghost use Rattle.ctf_model.specs.values.Values.{shown_within};
ghost use Rattle.ctf_space.specs.SpaceView.{space_of};
ghost use Rattle.ctf_model.specs.format.Term.{Enumerator};
ghost use Rattle.ctf_print.specs.Placing.{AreFirstByValue, IsFirstOf, enumerators_of, first_with, shown_how};
ghost use Rattle.ctf_print.specs.Standing.{StandsFor};
ghost use Rattle.ctf_print.specs.declared.places.FirstByValue.{FirstByValue};

use crate::places::{FirstByValue, first_of};
use crate::show_rules::{ShowRule, rule_by};
use ctf_model::TypeNum;
use ctf_space::Space;
use ctf_views::Enumerators;
use std::alloc::Global;
use std::collections::BTreeMap;
use std::marker::Model;

/// The type after so many typedefs and qualifiers.
#[derive(Clone, Copy)]
pub struct Behind {
    pub number: TypeNum,
    pub steps: u32,
}

/// The type of a value after typedefs and qualifiers, and how deep values may still be nested in
/// it.
#[derive(Clone, Copy)]
pub struct Reached {
    pub number: TypeNum,
    pub nesting: u32,
}

/// The enumerator of a value, for the enum with this number.
#[derive(Clone, Copy)]
pub struct Sought {
    pub number: TypeNum,
    pub value: i64,
    pub place: Option<usize>,
}

/// For the types that were met, the types that typedefs and qualifiers lead to; for the enums that
/// were used more than once, the first enumerator of each value; and the last value that was looked
/// for.
#[derive(Drop)]
pub struct ShowCache<'a> {
    space: Space<'a>,
    alloc: Global,
    behind: BTreeMap<u16, Behind>,
    places: BTreeMap<u16, Option<FirstByValue>>,
    last: Option<Sought>,
}

impl<'a> Model for ShowCache<'a> {
    ghost use Rattle.ctf_model.specs.spaces.Space.{Space as Types};
    ghost use Rattle.ctf_space.specs.SpaceView.{space_of};
    ghost use Rattle.ctf_print.specs.ShowCacheView.{IsRight};

    ghost Value = { Types };

    ghost view = { λ k. space_of k.space };

    ghost invariant = { λ k. IsRight (space_of k.space) k.behind k.places k.last };
}

/// A type itself, after no steps.
fn itself(number: TypeNum) -> Behind
    ensures { result ≡ record { number = number; steps = 0 } }
{
    Behind { number, steps: 0 }
}

impl<'a> ShowCache<'a> {
    /// An empty cache.
    pub fn new(alloc: Global, space: Space<'a>) -> ShowCache<'a>
        ensures { result ≡ space_of space.entry }
    {
        ShowCache {
            space,
            alloc,
            behind: BTreeMap::new(alloc),
            places: BTreeMap::new(alloc),
            last: None,
        }
    }

    /// The type that a typedef or a qualifier is shown as, one step on.
    fn next(&self, number: TypeNum) -> Option<TypeNum>
        ensures { IfSome result (λ t. StandsFor self.now number.0 1 t.0) }
    {
        if number.0 == 0 {
            return None;
        }
        match self.space.term(number) {
            Ok(found) => match rule_by(found.shape()) {
                ShowRule::As(next) => Some(next),
                _ => None,
            },
            Err(_) => None,
        }
    }

    /// Caches the type that a type leads to. Without memory for that, nothing is cached.
    fn keep(&mut self, number: TypeNum, behind: Behind) -> Behind
        requires { StandsFor self.old number.0 behind.steps behind.number.0 }
        ensures same { result ≡ behind }
        ensures kept { self.new ≡ self.old }
    {
        let _ = self.behind.insert(number.0, behind);
        behind
    }

    /// The type that a type leads to. The record of each type is read once.
    fn find(&mut self, number: TypeNum, most: u32) -> Behind
        ensures stands { StandsFor self.old number.0 result.steps result.number.0 }
        ensures kept { self.new ≡ self.old }
    {
        if let Some(known) = self.behind.get(&number.0) {
            return *known;
        }
        if most == 0 {
            return itself(number);
        }
        let Some(next) = self.next(number) else {
            return self.keep(number, itself(number));
        };
        let found = self.find(next, most - 1);
        if found.steps == u32::MAX {
            return itself(number);
        }
        let behind = Behind {
            number: found.number,
            steps: found.steps + 1,
        };
        self.keep(number, behind)
    }

    /// The type of a value after typedefs and qualifiers.
    pub fn reach(&mut self, number: TypeNum, nesting: u32) -> Reached
        ensures same { (memory : List ℕ) (p : ℕ) → shown_within self.old memory nesting number.0 p
            ≡ shown_within self.old memory result.nesting result.number.0 p }
        ensures fewer { result.nesting ≤ nesting }
        ensures kept { self.new ≡ self.old }
    {
        let behind = self.find(number, nesting);
        Reached {
            number: behind.number,
            nesting: nesting.saturating_sub(behind.steps),
        }
    }

    /// Caches the enumerators of an enum by value, or that a value was looked for. Without memory
    /// for that, nothing is cached.
    fn place(&mut self, number: TypeNum, places: Option<FirstByValue>)
        requires { (p : FirstByValue) → places ≡ Some p → (es : List Enumerator)
            → enumerators_of (shown_how self.old number.0) ≡ Some es → AreFirstByValue es p }
        ensures { self.new ≡ self.old }
    {
        let _ = self.places.insert(number.0, places);
    }

    /// The number of the first enumerator with a value. If an enum is asked for again, each of its
    /// enumerators is read once.
    #[inline(never)]
    fn look_for(
        &mut self,
        number: TypeNum,
        enumerators: &Enumerators<'_>,
        value: i64,
    ) -> Option<usize>
        requires { enumerators_of (shown_how self.old number.0) ≡ Some enumerators.now }
        ensures first { result ≡ first_with value 0 enumerators.now }
        ensures kept { self.new ≡ self.old }
    {
        match self.places.get(&number.0) {
            Some(Some(places)) => return places.first(value),
            Some(None) => {}
            None => {
                self.place(number, None);
                return first_of(enumerators, value);
            }
        }
        let found = first_of(enumerators, value);
        let places = FirstByValue::of(self.alloc, enumerators);
        self.place(number, places);
        found
    }

    /// The enumerator of a value, if it was looked for last.
    fn last_place(&self, number: TypeNum, value: i64) -> Option<Option<usize>>
        ensures { IfSome result (IsFirstOf self.now number.0 value) }
    {
        let last = self.last?;
        if last.number.0 == number.0 && last.value == value {
            Some(last.place)
        } else {
            None
        }
    }

    fn keep_last(&mut self, number: TypeNum, value: i64, place: Option<usize>)
        requires { IsFirstOf self.old number.0 value place }
        ensures { self.new ≡ self.old }
    {
        self.last = Some(Sought {
            number,
            value,
            place,
        });
    }

    /// The number of the first enumerator with a value. The last result is kept.
    #[inline(always)]
    pub fn first_place(
        &mut self,
        number: TypeNum,
        enumerators: &Enumerators<'_>,
        value: i64,
    ) -> Option<usize>
        requires { enumerators_of (shown_how self.old number.0) ≡ Some enumerators.now }
        ensures first { result ≡ first_with value 0 enumerators.now }
        ensures kept { self.new ≡ self.old }
    {
        if let Some(place) = self.last_place(number, value) {
            return place;
        }
        let place = self.look_for(number, enumerators, value);
        self.keep_last(number, value, place);
        place
    }
}
