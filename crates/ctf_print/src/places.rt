//! The enumerators of an enum, by their values.
ghost use Rattle.std.specs.Prelude.{◌≡◌, ◌<◌, length, slice_get, List, IfSome, Some};
ghost use Rattle.std.specs.Option.{option_map};
ghost use Rattle.std.specs.Ordering.{int_eq};
ghost use Rattle.ctf_model.specs.format.Term.{Enumerator};
ghost use Rattle.ctf_print.specs.Placing.{AreFirstByValue, first_with};

use ctf_views::Enumerators;
use std::alloc::Global;
use std::collections::BTreeMap;

/// The number of the first enumerator of each value.
#[derive(Drop)]
pub struct FirstByValue {
    first: BTreeMap<i64, usize>,
}

impl FirstByValue {
    /// For the enumerators of an enum, each of which is read once; `None` if memory is refused.
    pub fn of(alloc: Global, enumerators: &Enumerators<'_>) -> Option<FirstByValue>
        ensures { IfSome result (λ p. AreFirstByValue enumerators.now p) }
    {
        let mut first = BTreeMap::new(alloc);
        let mut left = enumerators.len();
        while left > 0 {
            left -= 1;
            if first
                .insert(i64::from(enumerators.value(left)), left)
                .is_err()
            {
                return None;
            }
        }
        Some(FirstByValue { first })
    }

    /// The number of the first enumerator with a value, from 0.
    pub fn first(&self, value: i64) -> Option<usize>
        ensures { (es : List Enumerator) → AreFirstByValue es self.now
            → result ≡ first_with value 0 es }
    {
        self.first.get(&value).copied()
    }
}

/// Whether the enumerator with a number, from 0, has a value. No name is read for it.
fn has_value(enumerators: &Enumerators<'_>, i: usize, value: i64) -> bool
    requires { i < length enumerators.now }
    ensures { Some result
        ≡ option_map (λ e. int_eq e.value value) (slice_get enumerators.now i) }
{
    i64::from(enumerators.value(i)) == value
}

/// The same, by looking at each in turn.
pub fn first_of(enumerators: &Enumerators<'_>, value: i64) -> Option<usize>
    ensures { result ≡ first_with value 0 enumerators.now }
{
    for i in 0..enumerators.len() {
        if has_value(enumerators, i, value) {
            return Some(i);
        }
    }
    None
}
