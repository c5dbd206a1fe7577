//! Answers about an open dictionary.
ghost use Rattle.std.specs.Prelude.{◌≡◌, ◌⊎◌, [], ◌∷◌, Ok, Err, IfOk, IfErr, length, map};
ghost use Rattle.std.specs.Result.{result_map_both};
ghost use Rattle.ctf_model.specs.opened.Questions.{align_answered, argument_answered, array_answered, encoding_answered, enumerator_answered, kind_answered, length_answered, member_answered, name_answered, parent_types, path_answered, pointer_answered, resolved_answered, return_answered, root_answered, on_shape, signature_answered, shape_of, size_answered, tag_answered, value_answered};
ghost use Rattle.ctf_model.specs.opened.Open.{own_in, space_in};
ghost use Rattle.ctf_check.specs.FactsView.{shape_view};
ghost use Rattle.ctf_entries.specs.FunctionView.{signature};
ghost use Rattle.ctf_layout.specs.Reached.{position_of};
ghost use Rattle.ctf_model.specs.figures.Figures.{reference as reference_of};
ghost use Rattle.ctf_model.specs.names.Lookups.{lookup};
ghost use Rattle.ctf_model.specs.rules.Refusals.{out_of_memory};
ghost use Rattle.ctf_model.specs.spaces.Space.{space_type};
ghost use Rattle.ctf_model.specs.symbols.SymbolQuestions.{by_name, label_of, object_of};
ghost use Rattle.ctf_records.specs.RecordView.{tag_of as tag_shown};
ghost use Rattle.ctf_space.specs.TypeView.{name_in};
ghost use Rattle.ctf_views.specs.ItemsView.{enumerator as enumerator_view, member as member_view};
ghost use Rattle.ctf_views.specs.PartsView.{array_info, encoding_info};

use crate::open_dictionary::OpenDictionary;
use ctf_check::Shape;
use ctf_entries::Signature;
use ctf_layout::{path, reference};
use ctf_model::{Bytes, Fault, Kind, TypeNum, placeless};
use ctf_names::{find, pointer_resolved, pointer_to, spell};
use ctf_print::show;
use ctf_records::Tag;
use ctf_views::{ArrayInfo, Encoding, Enumerator, Member, Variant};
use std::alloc::Global;

/// What a type declares, if it is a forward.
fn tag_of(x: Shape<'_>) -> Result<Tag, Fault>
    ensures { result_map_both tag_shown (λ f. f) result ≡ tag_answered (shape_view x.entry) }
{
    match x.declares {
        Some(tag) => Ok(tag),
        None => Err(placeless(Fault::WRONG_KIND)),
    }
}

/// How many members, enumerators or arguments there are.
#[inline(always)]
fn length_of(x: Shape<'_>) -> Result<u64, Fault>
    ensures { result ≡ length_answered (shape_view x.entry) }
{
    Ok(match x.behind {
        Variant::Members(members) => members.len() as u64,
        Variant::Enumerators(enumerators) => enumerators.len() as u64,
        Variant::Args(args) => args.len() as u64,
        _ => 0,
    })
}

#[inline(always)]
pub fn encoding_of(x: Shape<'_>) -> Result<Encoding, Fault>
    ensures { result_map_both encoding_info (λ f. f) result
        ≡ encoding_answered (shape_view x.entry) }
{
    match x.behind {
        Variant::Encoding(info) => Ok(info),
        _ => Err(placeless(Fault::WRONG_KIND)),
    }
}

#[inline(always)]
pub fn array_of(x: Shape<'_>) -> Result<ArrayInfo, Fault>
    ensures { result_map_both array_info (λ f. f) result ≡ array_answered (shape_view x.entry) }
{
    match x.behind {
        Variant::Array(info) => Ok(info),
        _ => Err(placeless(Fault::WRONG_KIND)),
    }
}

/// What a function returns and takes.
#[inline(always)]
pub fn signature_of(x: Shape<'_>) -> Result<Signature<'_>, Fault>
    ensures { result_map_both signature (λ f. f) result ≡ signature_answered (shape_view x.entry) }
{
    match (x.behind, x.reference) {
        (Variant::Args(args), Some(ret)) => Ok(Signature { ret, args }),
        _ => Err(placeless(Fault::WRONG_KIND)),
    }
}

fn return_of(x: Shape<'_>) -> Result<TypeNum, Fault>
    ensures { result_map_both (λ t. t.0) (λ f. f) result ≡ return_answered (shape_view x.entry) }
{
    Ok(signature_of(x)?.ret)
}

#[inline(always)]
fn member_of(x: Shape<'_>, index: usize) -> Result<Member<'_>, Fault>
    ensures { result_map_both member_view (λ f. f) result
        ≡ member_answered index (shape_view x.entry) }
{
    match x.behind {
        Variant::Members(members) => match members.get(index) {
            Some(member) => Ok(member),
            None => Err(placeless(Fault::NO_MEMBER)),
        },
        _ => Err(placeless(Fault::WRONG_KIND)),
    }
}

#[inline(always)]
fn enumerator_of(x: Shape<'_>, index: usize) -> Result<Enumerator<'_>, Fault>
    ensures { result_map_both enumerator_view (λ f. f) result
        ≡ enumerator_answered index (shape_view x.entry) }
{
    match x.behind {
        Variant::Enumerators(enumerators) => match enumerators.get(index) {
            Some(enumerator) => Ok(enumerator),
            None => Err(placeless(Fault::NO_MEMBER)),
        },
        _ => Err(placeless(Fault::WRONG_KIND)),
    }
}

#[inline(always)]
fn argument_of(x: Shape<'_>, index: usize) -> Result<TypeNum, Fault>
    ensures { result_map_both (λ t. t.0) (λ f. f) result
        ≡ argument_answered index (shape_view x.entry) }
{
    match x.behind {
        Variant::Args(args) => match args.get(index) {
            Some(argument) => Ok(argument),
            None => Err(placeless(Fault::NO_MEMBER)),
        },
        _ => Err(placeless(Fault::WRONG_KIND)),
    }
}

impl OpenDictionary {
    /// The number of the dictionary's own types.
    pub fn count(&self) -> u64
        ensures { result ≡ length (own_in self.now).terms }
    {
        self.dictionary().count() as u64
    }

    /// Whether its low type numbers are those of a parent.
    pub fn child(&self) -> bool
        ensures { result ≡ (own_in self.now).child }
    {
        self.dictionary().child()
    }

    /// How many types its parent has.
    pub fn parent_count(&self) -> Result<u64, Fault>
        ensures { result ≡ parent_types self.now }
    {
        match self.space().parent_count() {
            Some(count) => Ok(count as u64),
            None => Err(placeless(Fault::NO_PARENT)),
        }
    }

    /// What a type is, apart from its name.
    #[inline(always)]
    fn shape(&self, t: TypeNum) -> Result<Shape<'_>, Fault>
        ensures { result_map_both shape_view (λ f. f) result
            ≡ shape_of (space_type (space_in self.now) t.0) }
    {
        let found = self.space().term(t)?;
        Ok(found.shape())
    }

    /// The kind of a type.
    #[inline(always)]
    pub fn kind(&self, t: TypeNum) -> Result<Kind, Fault>
        ensures { result
            ≡ on_shape kind_answered (shape_of (space_type (space_in self.now) t.0)) }
    {
        let found = self.space().term(t)?;
        Ok(found.kind())
    }

    /// Whether look-ups by name find a type.
    pub fn root(&self, t: TypeNum) -> Result<bool, Fault>
        ensures { result ≡ root_answered (space_type (space_in self.now) t.0) }
    {
        Ok(self.space().term(t)?.root())
    }

    /// What a forward declares.
    pub fn tag(&self, t: TypeNum) -> Result<Tag, Fault>
        ensures { result_map_both tag_shown (λ f. f) result
            ≡ on_shape tag_answered (shape_of (space_type (space_in self.now) t.0)) }
    {
        tag_of(self.shape(t)?)
    }

    /// How many members, enumerators or arguments a type has.
    pub fn length(&self, t: TypeNum) -> Result<u64, Fault>
        ensures { result
            ≡ on_shape length_answered (shape_of (space_type (space_in self.now) t.0)) }
    {
        length_of(self.shape(t)?)
    }

    /// How an integer or a float is encoded.
    pub fn encoding(&self, t: TypeNum) -> Result<Encoding, Fault>
        ensures { result_map_both encoding_info (λ f. f) result
            ≡ on_shape encoding_answered (shape_of (space_type (space_in self.now) t.0)) }
    {
        encoding_of(self.shape(t)?)
    }

    /// The element type, the index type and the number of elements of an array.
    pub fn array(&self, t: TypeNum) -> Result<ArrayInfo, Fault>
        ensures { result_map_both array_info (λ f. f) result
            ≡ on_shape array_answered (shape_of (space_type (space_in self.now) t.0)) }
    {
        array_of(self.shape(t)?)
    }

    /// What a function type returns.
    pub fn return_type(&self, t: TypeNum) -> Result<TypeNum, Fault>
        ensures { result_map_both (λ t. t.0) (λ f. f) result
            ≡ on_shape return_answered (shape_of (space_type (space_in self.now) t.0)) }
    {
        return_of(self.shape(t)?)
    }

    /// A member of a struct or union, counted from 0. Its name is borrowed.
    #[inline(always)]
    pub fn member(&self, t: TypeNum, index: usize) -> Result<Member<'_>, Fault>
        ensures { result_map_both member_view (λ f. f) result
            ≡ on_shape (member_answered index) (shape_of (space_type (space_in self.now) t.0)) }
    {
        member_of(self.shape(t)?, index)
    }

    /// An enumerator of an enum, counted from 0. Its name is borrowed.
    pub fn enumerator(&self, t: TypeNum, index: usize) -> Result<Enumerator<'_>, Fault>
        ensures { result_map_both enumerator_view (λ f. f) result
            ≡ on_shape (enumerator_answered index) (shape_of (space_type (space_in self.now) t.0)) }
    {
        enumerator_of(self.shape(t)?, index)
    }

    /// An argument of a function type, counted from 0, as stored.
    pub fn argument(&self, t: TypeNum, index: usize) -> Result<TypeNum, Fault>
        ensures { result_map_both (λ t. t.0) (λ f. f) result
            ≡ on_shape (argument_answered index) (shape_of (space_type (space_in self.now) t.0)) }
    {
        argument_of(self.shape(t)?, index)
    }

    /// The name in a type's record.
    pub fn declared_name(&self, t: TypeNum) -> Result<&[u8], Fault>
        ensures { result_map_both (λ n. n.now) (λ f. f) result
            ≡ name_in (space_type (space_in self.now) t.0) }
    {
        self.space().name(t)
    }

    #[inline(always)]
    pub fn size(&self, t: TypeNum) -> Result<u64, Fault>
        ensures { result ≡ size_answered (space_in self.now) t.0 }
    {
        if t.0 == 0 {
            return Err(placeless(Fault::NO_TYPE));
        }
        self.tables().layout.size(t)
    }

    #[inline(always)]
    pub fn align(&self, t: TypeNum) -> Result<u64, Fault>
        ensures { result ≡ align_answered (space_in self.now) t.0 }
    {
        if t.0 == 0 {
            return Err(placeless(Fault::NO_TYPE));
        }
        self.tables().layout.align(t)
    }

    /// The type that a type resolves to, through typedefs and qualifiers.
    #[inline(always)]
    pub fn resolve(&self, t: TypeNum) -> Result<TypeNum, Fault>
        ensures { result_map_both (λ t. t.0) (λ f. f) result
            ≡ resolved_answered (space_in self.now) t.0 }
    {
        if t.0 == 0 {
            return Err(placeless(Fault::NO_TYPE));
        }
        self.tables().layout.resolve(t)
    }

    /// The type that a type points to, renames or qualifies.
    #[inline(always)]
    pub fn reference(&self, t: TypeNum) -> Result<TypeNum, Fault>
        ensures { result_map_both (λ t. t.0) (λ f. f) result
            ≡ reference_of (space_in self.now) t.0 }
    {
        reference(&self.space(), t)
    }

    /// The least pointer to a type; if there is none, to the type that it resolves to.
    pub fn pointer(&self, t: TypeNum) -> Result<TypeNum, Fault>
        ensures { result_map_both (λ t. t.0) (λ f. f) result
            ≡ pointer_answered (space_in self.now) t.0 }
    {
        match self.resolve(t) {
            Ok(resolved) => { pointer_resolved(&self.space(), &self.tables().index, t, resolved) }
            Err(_) => self.pointer_unresolved(t),
        }
    }

    /// The same for a number that is no type's, or that resolves to no type.
    fn pointer_unresolved(&self, t: TypeNum) -> Result<TypeNum, Fault>
        ensures { result_map_both (λ t. t.0) (λ f. f) result
            ≡ pointer_answered (space_in self.now) t.0 }
    {
        self.shape(t)?;
        pointer_to(&self.space(), &self.tables().index, t)
    }

    /// The type that a written name finds.
    pub fn find(&self, text: &[u8]) -> Result<TypeNum, Fault>
        ensures { result_map_both (λ t. t.0) (λ f. f) result ≡ lookup (space_in self.now) text.now }
    {
        find(&self.space(), &self.tables().index, text)
    }

    /// The offset of the first member with a name, and its type.
    pub fn field(&self, t: TypeNum, name: &[u8]) -> Result<(u64, TypeNum), Fault>
        ensures { result_map_both position_of (λ f. f) result
            ≡ path_answered (space_in self.now) (name.now ∷ []) t.0 }
    {
        self.shape(t)?;
        path(&self.space(), t, &[name].as_slice())
    }

    /// The type of an object of the program, by the number of its symbol.
    pub fn object(&self, number: u32) -> Result<TypeNum, Fault>
        ensures { result_map_both (λ t. t.0) (λ f. f) result ≡ object_of (own_in self.now) number }
    {
        self.symbols().object(&self.dictionary(), number)
    }

    /// The number of the first symbol with a name.
    pub fn symbol(&self, name: &[u8]) -> Result<u32, Fault>
        ensures { result ≡ by_name (own_in self.now) name.now }
    {
        self.symbols().by_name(&self.dictionary(), name)
    }

    /// The last type of the first label with a name.
    pub fn label(&self, name: &[u8]) -> Result<u32, Fault>
        ensures { result ≡ label_of (own_in self.now) name.now }
    {
        self.symbols().label(&self.dictionary(), name)
    }

    /// The name of a type, as C spells it.
    pub fn name(&self, alloc: Global, t: TypeNum) -> Result<Bytes, Fault>
        ensures ok { IfOk result (λ text. name_answered (space_in self.now) t.0 ≡ Ok text) }
        ensures exact_err { IfErr result (λ f. (f ≡ out_of_memory)
            ⊎ (name_answered (space_in self.now) t.0 ≡ Err f)) }
    {
        self.shape(t)?;
        let mut text = Vec::new(alloc);
        spell(alloc, &self.space(), t, &mut text)?;
        Ok(Bytes::from(text))
    }

    /// The text of the value of a type that begins at a bit of some memory.
    pub fn show(
        &self,
        alloc: Global,
        t: TypeNum,
        memory: &[u8],
        offset: u64,
    ) -> Result<Bytes, Fault>
        ensures ok { IfOk result (λ text.
            value_answered (space_in self.now) memory.now offset t.0 ≡ Ok text) }
        ensures exact_err { IfErr result (λ f. (f ≡ out_of_memory)
            ⊎ (value_answered (space_in self.now) memory.now offset t.0 ≡ Err f)) }
    {
        self.shape(t)?;
        let mut text = Vec::new(alloc);
        let layout = &self.tables().layout;
        show(alloc, &self.space(), layout, t, memory, offset, &mut text)?;
        Ok(Bytes::from(text))
    }

    /// The offset of the member that names lead to, and its type. A name may be borrowed from the
    /// caller.
    pub fn path(&self, t: TypeNum, names: &[&[u8]]) -> Result<(u64, TypeNum), Fault>
        ensures { result_map_both position_of (λ f. f) result
            ≡ path_answered (space_in self.now) (map (λ name. name.now) names.now) t.0 }
    {
        self.shape(t)?;
        path(&self.space(), t, &names)
    }
}
