//! The rule of references: each type that a record names exists.
ghost use Rattle.std.specs.Prelude.{◌≡◌, ◌≤◌};
ghost use Rattle.std.specs.List.{list_any};
ghost use Rattle.ctf_model.specs.rules.References.{has_long_tag as long_tag_in, is_missing as missing};
ghost use Rattle.ctf_model.specs.format.Section.{records};
ghost use Rattle.ctf_records.specs.ListedTypes.{listed_types};
ghost use Rattle.ctf_records.specs.RecordView.{bytes_of};
ghost use Rattle.ctf_check.specs.Enough.{records_enough};
ghost use Rattle.ctf_check.specs.Named.{first_that_misnames, misnames as misnames_in};

use ctf_model::{Kind, Place, TypeNum};
use ctf_records::{Record, Records};

/// Which numbers are those of types: whether the dictionary is a child, and how many types it has.
#[derive(Clone, Copy)]
pub struct Numbers {
    pub child: bool,
    pub count: usize,
    ghost few: { count ≤ 32766 },
}

/// Whether a forward has the mark of the long form in place of its tag.
pub fn has_long_tag(term: &Record<'_>) -> bool
    ensures { result ≡ long_tag_in (bytes_of term.now) }
{
    match term.kind() {
        Kind::KForward => term.is_long(),
        _ => false,
    }
}

impl Numbers {
    /// Whether the type of a number is missing.
    pub fn is_missing(self, number: TypeNum) -> bool
        ensures { result ≡ missing self.child self.count number.0 }
    {
        match number.place(self.child) {
            Place::Nowhere => number.0 != 0,
            Place::Own(i) => i >= self.count,
            Place::Parents(_) => false,
        }
    }

    /// Whether a type that a record names after its head is missing.
    #[tactic(auto, using(crate::proofs::Listed::any_next, crate::proofs::Listed::any_end))]
    fn misses_listed(self, term: &Record<'_>) -> bool
        ensures { result
            ≡ list_any (missing self.child self.count) (listed_types (bytes_of term.now)) }
    {
        let listed = term.reference_list();
        for item in 0..listed.count() {
            if self.is_missing(listed.get(item)) {
                return true;
            }
        }
        false
    }

    /// Whether a record names a missing type.
    #[tactic(auto, unfolding(crate::specs::Named::misnames))]
    fn misnames(self, term: &Record<'_>) -> bool
        ensures { result ≡ misnames_in self.child self.count (bytes_of term.now) }
    {
        if has_long_tag(term) {
            return true;
        }
        match term.reference() {
            Some(number) if self.is_missing(number) => true,
            _ => self.misses_listed(term),
        }
    }
}

/// The number of the first record that names a missing type.
#[tactic(auto, unfolding(crate::specs::Named::first_that_misnames))]
fn search_records(types: &[u8], numbers: Numbers) -> Option<u64>
    ensures { result ≡ first_that_misnames numbers.child numbers.count (records types.now) }
{
    for record in Records::new(types) {
        let Ok(record) = record else { return None };
        if numbers.misnames(&record) {
            return Some(record.index());
        }
    }
    None
}

/// The same, given a bound on the type numbers that the records refer to. The records are read, to
/// find the first one, only if there are fewer types.
#[tactic(auto, using(crate::proofs::Served::none_misnames))]
pub fn bad_reference(types: &[u8], numbers: Numbers, enough: usize) -> Option<u64>
    requires enough { enough ≡ records_enough numbers.child (records types.now) }
    ensures { result ≡ first_that_misnames numbers.child numbers.count (records types.now) }
{
    if enough <= numbers.count {
        return None;
    }
    search_records(types, numbers)
}
