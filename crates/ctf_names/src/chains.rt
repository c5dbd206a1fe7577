//! The visible types of a dictionary, chained by the buckets of their names.
ghost use Rattle.std.specs.Prelude.{◌≡◌, ◌+◌, ◌<◌, ◌^◌, true, length, MatchOption, List};
ghost use Rattle.std.specs.Option.{ForSome};
ghost use Rattle.ctf_check.specs.CheckedView.{dictionary_of, tables_of};
ghost use Rattle.ctf_check.specs.TypedView.{dictionary_in, term_in};
ghost use Rattle.ctf_model.specs.names.Lookups.{first_place, is_called as is_called_so};
ghost use Rattle.ctf_model.specs.format.Term.{Term};
ghost use Rattle.ctf_names.specs.Briefs.{IsBriefAt};
ghost use Rattle.ctf_names.specs.Chained.{Chained};
ghost use Rattle.ctf_names.specs.Sorts.{tag_in};
ghost use Rattle.ctf_sections.specs.StringsView.{tables};

use crate::buckets::{LONGEST_HASHED, bucket_among, hashable};
use crate::sorts::{Sort, is_same, sort_of};
use crate::types::{Brief, own_type};
use ctf_check::{Checked, Typed};
use ctf_sections::{Differences, Places, Strings};

/// Types by the buckets of their names, as plain numbers from 0: the first type of each bucket, and
/// for each type the next one in its bucket. Numbers rise along a chain, so the first type with a
/// name is the least. 65,535 stands for none.
#[derive(Drop)]
pub(crate) struct Chains {
    pub(crate) heads: Vec<u16>,
    pub(crate) next: Vec<u16>,
}

/// Puts a type in front of the chain of its bucket, if it is visible.
pub(crate) fn enter_name(heads: &mut [u16], next: &mut [u16], of: Brief, place: usize)
    requires few { place < 2 ^ 16 }
    requires in_heads { ForSome of.bucket (λ n. n < length heads.old) }
    requires in_next { place < length next.old }
    ensures { (terms : List Term) → IsBriefAt terms place of
        → Chained terms (place + 1) heads.old next.old
        → Chained terms place heads.new next.new }
{
    let Some(bucket) = of.bucket else {
        return;
    };
    next[place] = heads[bucket];
    heads[bucket] = place as u16;
}

/// Whether a visible type has this keyword and this name.
#[inline(always)]
fn is_called(
    found: &Typed<'_>,
    strings: &Strings<'_>,
    sort: Sort,
    name: &[u8],
    others: &mut Differences<'_>,
) -> bool
    requires { tables strings.now ≡ tables_of (dictionary_in found.now) }
    ensures { MatchOption (term_in found.now) ⊥ (λ x. x.root ≡ true
        → result ≡ is_called_so (record { tag = tag_in sort; name = name.now }) x) }
{
    if !is_same(sort_of(&found.shape()), sort) {
        return false;
    }
    strings.is_name_after(found.name_reference(), name, others)
}

impl Chains {
    /// The first type with a name, after others may have been compared with it.
    #[inline(always)]
    fn search(
        &self,
        dictionary: &Checked<'_>,
        sort: Sort,
        name: &[u8],
        others: &mut Differences<'_>,
    ) -> Option<u32>
        requires { Chained (dictionary_of dictionary.now).terms 0
            self.now.heads.items self.now.next.items }
        ensures { result ≡ first_place (is_called_so (record { tag = tag_in sort; name = name.now }))
            (dictionary_of dictionary.now).terms }
    {
        let strings = dictionary.strings();
        let count = dictionary.count();
        let mut at = self.heads[bucket_among(count, hashable(name))];
        for _step in 0..count {
            let Some(found) = own_type(dictionary, usize::from(at)) else {
                return None;
            };
            if is_called(&found, &strings, sort, name, others) {
                return Some(u32::from(at));
            }
            at = self.next[usize::from(at)];
        }
        None
    }

    /// The same for a name that is too long to be hashed, and shares its bucket with all such
    /// names: the next names are compared first where earlier ones differed.
    #[inline(never)]
    fn search_long(&self, dictionary: &Checked<'_>, sort: Sort, name: &[u8]) -> Option<u32>
        requires { Chained (dictionary_of dictionary.now).terms 0
            self.now.heads.items self.now.next.items }
        ensures { result ≡ first_place (is_called_so (record { tag = tag_in sort; name = name.now }))
            (dictionary_of dictionary.now).terms }
    {
        let mut places = Places::new();
        self.search(
            dictionary,
            sort,
            name,
            &mut Differences::kept_in(&mut places),
        )
    }

    /// The first type with a name, found without memory. Names in one bucket are compared at their
    /// ends first, so of overlapping names only one is read in full.
    #[inline(always)]
    pub(crate) fn first_called(
        &self,
        dictionary: &Checked<'_>,
        sort: Sort,
        name: &[u8],
    ) -> Option<u32>
        requires { Chained (dictionary_of dictionary.now).terms 0
            self.now.heads.items self.now.next.items }
        ensures { result ≡ first_place (is_called_so (record { tag = tag_in sort; name = name.now }))
            (dictionary_of dictionary.now).terms }
    {
        if name.len() > LONGEST_HASHED {
            return self.search_long(dictionary, sort, name);
        }
        self.search(dictionary, sort, name, &mut Differences::none())
    }
}
