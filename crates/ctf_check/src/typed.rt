//! A type that was found in a dictionary.
ghost use Rattle.std.specs.Prelude.{◌≡◌, ◌<◌, ◌↔◌, length, slice_index, IsSome, IfSome, Some};
ghost use Rattle.std.specs.Option.{option_map};
ghost use Rattle.ctf_model.specs.rules.Chains.{by_value};
ghost use Rattle.ctf_model.specs.format.Shown.{facts, kind_of, reference_of, shape, shown, size_of};
ghost use Rattle.ctf_records.specs.RecordView.{index_of};
ghost use Rattle.ctf_views.specs.VariantView.{shown_of};
ghost use Rattle.ctf_check.specs.CheckedView.{dictionary_of, tables_of, type_at, IsOwn};
ghost use Rattle.ctf_model.specs.format.Name.{name as named_by};
ghost use Rattle.ctf_check.specs.FactsView.{facts_view, shape_view};

use crate::checked::Checked;
use crate::facts::{Facts, Shape};
use ctf_chains::{Chain, place_count, place_number};
use ctf_model::{Kind, TypeNum};
use ctf_records::Record;
use ctf_views::{Variant, variant};

/// A type of a dictionary: its record, with the dictionary. A record alone does not say which
/// tables have its name.
#[derive(Clone, Copy)]
pub struct Typed<'a> {
    dictionary: Checked<'a>,
    source: Record<'a>,
    ghost own: { IsOwn dictionary source },
}

impl<'a> Checked<'a> {
    ghost use Rattle.ctf_check.specs.TypedView.{dictionary_in, record_in, term_in};

    /// An own type; types are counted from 1.
    #[inline(always)]
    pub fn type_at(&self, index: usize) -> Option<Typed<'a>>
        ensures exact { IsSome result ↔ IsSome (type_at (dictionary_of self.now) index) }
        ensures spells { IfSome result (λ x. term_in x ≡ type_at (dictionary_of self.now) index) }
        ensures index { IfSome result (λ x. index_of (record_in x) ≡ index) }
        ensures of { IfSome result (λ x. dictionary_in x ≡ self.now) }
    {
        let source = self.term(index)?;
        Some(Typed {
            dictionary: *self,
            source,
        })
    }
}

impl<'a> Typed<'a> {
    ghost use Rattle.ctf_check.specs.TypedView.{dictionary_in, record_in, term_in};

    /// The dictionary that has it.
    pub fn dictionary(&self) -> Checked<'a>
        ensures { result ≡ dictionary_in self.now }
    {
        self.dictionary
    }

    /// Its record, which says its kind, its size and what it refers to.
    pub fn record(&self) -> Record<'a>
        ensures { result ≡ record_in self.now }
    {
        self.source
    }

    #[inline(always)]
    pub fn name(&self) -> &'a [u8]
        ensures { option_map (λ x. x.name) (term_in self.now) ≡ Some result.now }
    {
        self.dictionary.name_at(self.source.name_ref())
    }

    /// The reference to its name. No name is read.
    pub fn name_reference(&self) -> u32
        ensures { option_map (λ x. Some x.name) (term_in self.now)
            ≡ Some (named_by (tables_of (dictionary_in self.now)) result) }
    {
        self.source.name_ref()
    }

    /// Whether it is visible to look-ups by name.
    pub fn root(&self) -> bool
        ensures { option_map (λ x. x.root) (term_in self.now) ≡ Some result }
    {
        self.source.root()
    }

    /// What follows its head: members, enumerators, arguments and the like.
    #[inline(always)]
    pub fn variant(&self) -> Variant<'a>
        ensures { option_map (λ x. shown x.body) (term_in self.now) ≡ Some (shown_of result) }
    {
        variant(&self.source, self.dictionary.strings())
    }

    pub fn kind(&self) -> Kind
        ensures { option_map (λ x. kind_of x.body) (term_in self.now) ≡ Some result }
    {
        self.source.kind()
    }

    /// Its size in bytes, if its head has one.
    pub fn size(&self) -> Option<u64>
        ensures { option_map (λ x. size_of x.body) (term_in self.now) ≡ Some result }
    {
        self.source.size()
    }

    /// What it points to, returns, renames or qualifies.
    pub fn reference(&self) -> Option<TypeNum>
        ensures { option_map (λ x. reference_of x.body) (term_in self.now)
            ≡ Some (option_map (λ t. t.0) result) }
    {
        self.source.reference()
    }

    /// What it is, apart from its name. Takes constant time.
    #[inline(always)]
    pub fn shape(&self) -> Shape<'a>
        ensures { option_map (λ x. shape x.body) (term_in self.now) ≡ Some (shape_view result) }
    {
        Shape {
            kind: self.source.kind(),
            size: self.source.size(),
            reference: self.source.reference(),
            declares: self.source.tag(),
            behind: self.variant(),
        }
    }

    /// How many types the values of this type are or contain, each counted as often as this type
    /// names it: for a struct or a union, the number of its members.
    pub fn value_count(&self) -> usize
        ensures { option_map (λ x. length (by_value x.body)) (term_in self.now) ≡ Some result }
    {
        place_count(&self.source, Chain::ByValue)
    }

    /// One of these types, counted from 0: the type of a typedef or a qualifier, of an array's
    /// elements, or of a member. Takes constant time and reads no name.
    pub fn value_type(&self, item: usize) -> TypeNum
        requires { IfSome (term_in self.now) (λ x. item < length (by_value x.body)) }
        ensures { option_map (λ x. slice_index (by_value x.body) item) (term_in self.now)
            ≡ Some result.0 }
    {
        place_number(&self.source, Chain::ByValue, item)
    }

    /// All that its record says.
    pub fn facts(&self) -> Facts<'a>
        ensures { option_map facts (term_in self.now) ≡ Some (facts_view result) }
    {
        Facts {
            name: self.name(),
            root: self.source.root(),
            shape: self.shape(),
        }
    }
}
