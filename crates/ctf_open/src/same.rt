//! Compares dictionaries.
ghost use Rattle.std.specs.Prelude.{◌≡◌, None, true};
ghost use Rattle.ctf_check.specs.ListsView.{lists_in};
ghost use Rattle.ctf_model.specs.rules.Faults.{first_fault};

use crate::loading::Loaded;
use ctf_check::LentLists;
use ctf_model::DataModel;

/// Whether these are the same lists, byte for byte.
fn are_same(a: LentLists<'_>, b: LentLists<'_>) -> bool
    ensures same { result ≡ true → lists_in a.entry ≡ lists_in b.entry }
    ensures found { lists_in a.entry ≡ lists_in b.entry → result ≡ true }
{
    a.ctf == b.ctf && a.sym == b.sym && a.strs == b.strs
}

impl Loaded {
    /// Whether it is the dictionary of these lists, for programs of this data model.
    pub fn is_of(&self, lists: LentLists<'_>, model: DataModel) -> bool
        ensures same { result ≡ true
            → self.now ≡ record { lists = lists_in lists.entry; model = model } }
        ensures found { self.now ≡ record { lists = lists_in lists.entry; model = model }
            → result ≡ true }
        ensures faultless { result ≡ true → first_fault (lists_in lists.entry) ≡ None }
    {
        self.model() == model && are_same(self.view().lists(), lists)
    }

    /// Whether the two are the same dictionary, whoever opened them.
    pub fn is_same(&self, other: &Loaded) -> bool
        ensures same { result ≡ true → self.now ≡ other.now }
        ensures found { self.now ≡ other.now → result ≡ true }
    {
        self.is_of(other.view().lists(), other.model())
    }
}
