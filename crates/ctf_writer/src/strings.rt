//! The string section of a dictionary, and where the names in use are in it.
ghost use Rattle.std.specs.Prelude.{vec_len, vec_capacity, None, ◌≡◌, ◌<◌, ◌≤◌, ◌+◌, ◌++◌, [], ◌∷◌, ℕ, List, true, length, map, is_some, unwrap_or, IfErr, IfOk, OnOk, ◌⊎◌, if◌then◌else◌};
ghost use Rattle.std.specs.List.{AllByRecursion};
ghost use Rattle.ctf_model.specs.rules.Refusals.{placeless as refusal, out_of_memory};
ghost use Rattle.ctf_model.specs.declared.faults.TheConstants.Fault.{DICT_TOO_BIG};
ghost use Rattle.ctf_model.specs.writing.WritingLaws.{IsKept};
ghost use Rattle.ctf_model.specs.writing.WrittenNames.{closed_name, string_bytes, name_reference};
ghost use Rattle.ctf_writer.specs.Endings.{is_marked};
ghost use Rattle.ctf_writer.specs.TableNames.{all_names, joined, names_within};
ghost use Rattle.ctf_writer.specs.UsedView.{used_names};
ghost use Rattle.ctf_writer.specs.Uses.{IsRefused};

use crate::endings::Endings;
use crate::numbers::{copy, put};
use crate::offsets::{offset_of, offsets_in};
use crate::used::UsedNames;
use ctf_model::{Fault, placeless};
use std::alloc::{AllocError, Global};

/// The greatest length of a written dictionary, in bytes.
pub const LONGEST: usize = 67_108_864;

/// The endings of the names in use.
fn endings_of(alloc: Global, used: &UsedNames<'_>) -> Result<Endings, AllocError>
    ensures { IfOk result (λ endings.
        AllByRecursion (λ name. is_marked endings name ≡ true) (used_names used.now)) }
{
    let mut endings = Endings::new(alloc)?;
    let names = used.as_slice();
    for name in names {
        endings.add(name);
    }
    Ok(endings)
}

/// Appends an item to a list.
fn push<T: Drop>(list: &mut Vec<T>, item: T) -> Result<(), AllocError>
    ensures { OnOk result (list.new.items ≡ list.old.items ++ item ∷ []) }
{
    let Ok(_) = list.push(item) else {
        return Err(AllocError);
    };
    Ok(())
}

/// The references to names, the names that are added behind a string section, and the length of the
/// whole.
#[derive(Drop)]
struct Placed<'a> {
    references: Vec<u32>,
    added: Vec<&'a [u8]>,
    len: usize,
}

impl<'a> Placed<'a> {
    /// No names, behind a section of so many bytes.
    fn behind(alloc: Global, len: usize) -> Placed<'a>
        ensures references { result.references.items ≡ [] }
        ensures added { result.added.items ≡ [] }
        ensures len { result.len ≡ len }
    {
        Placed {
            references: Vec::new(alloc),
            added: Vec::new(alloc),
            len,
        }
    }

    /// Adds a name at the end.
    fn append(&mut self, name: &'a [u8]) -> Result<(), Fault>
        requires { self.old.len ≤ 67108864 }
        ensures references { OnOk result (self.new.references.items
            ≡ self.old.references.items ++ self.old.len ∷ []) }
        ensures added { OnOk result (self.new.added.items
            ≡ self.old.added.items ++ name.entry ∷ []) }
        ensures len { OnOk result (self.new.len ≡ self.old.len + length name.now + 1) }
        ensures short { OnOk result (self.new.len ≤ 67108864) }
        ensures err { IfErr result (λ f. (f ≡ out_of_memory)
            ⊎ ((f ≡ refusal DICT_TOO_BIG) × (67108864 < self.old.len + length name.now + 1))) }
    {
        if LONGEST - self.len <= name.len() {
            return Err(placeless(Fault::DICT_TOO_BIG));
        }
        push(&mut self.references, self.len as u32)?;
        push(&mut self.added, name)?;
        self.len += name.len() + 1;
        Ok(())
    }

    /// Adds a name: by its reference, if the section has it, else at the end.
    fn add(&mut self, name: &'a [u8], reference: Option<u32>) -> Result<(), Fault>
        requires { self.old.len ≤ 67108864 }
        ensures references { OnOk result (self.new.references.items
            ≡ self.old.references.items ++ unwrap_or reference self.old.len ∷ []) }
        ensures added { OnOk result (self.new.added.items
            ≡ self.old.added.items ++ (if is_some reference then [] else name.entry ∷ [])) }
        ensures len { OnOk result (self.new.len
            ≡ (if is_some reference then self.old.len else self.old.len + length name.now + 1)) }
        ensures short { OnOk result (self.new.len ≤ 67108864) }
        ensures err { IfErr result (λ f. (f ≡ out_of_memory) ⊎ ((f ≡ refusal DICT_TOO_BIG)
            × (reference ≡ None) × (67108864 < self.old.len + length name.now + 1))) }
    {
        let Some(reference) = reference else {
            return self.append(name);
        };
        Ok(push(&mut self.references, reference)?)
    }
}

/// Places names in use: those of a string section where they are, the others behind it.
fn place<'a>(alloc: Global, before: &'a [u8], used: &UsedNames<'a>) -> Result<Placed<'a>, Fault>
    requires whole { before.now ≡ string_bytes (names_within before.now) }
    requires short { length before.now ≤ 67108864 }
    ensures names { IfOk result (λ p. all_names before.now p.added.items
        ≡ joined (names_within before.now) (used_names used.now)) }
    ensures references { IfOk result (λ p. p.references.items
        ≡ map (name_reference (joined (names_within before.now) (used_names used.now)))
        (used_names used.now)) }
    ensures len { IfOk result (λ p. p.len
        ≡ length (string_bytes (joined (names_within before.now) (used_names used.now)))) }
    ensures short { IfOk result (λ p. p.len ≤ 67108864) }
    ensures refused { IfErr result
        (IsRefused (joined (names_within before.now) (used_names used.now))) }
{
    let endings = endings_of(alloc, used)?;
    let offsets = offsets_in(alloc, before, &endings)?;
    let mut placed = Placed::behind(alloc, before.len());
    let names = used.as_slice();
    for name in names {
        placed.add(name, offset_of(&offsets, name))?;
    }
    Ok(placed)
}

/// A string section: that of before, and the names that are added behind it. To the names in use it
/// has the references.
#[derive(Drop)]
pub struct Strings<'a> {
    before: &'a [u8],
    used: UsedNames<'a>,
    references: Vec<u32>,
    added: Vec<&'a [u8]>,
    len: usize,
    ghost placed: { references.items
        ≡ map (name_reference (all_names before.now added.items)) (used_names used) },
    ghost whole: { before.now ≡ string_bytes (names_within before.now) },
    ghost ends: { len ≡ length (string_bytes (all_names before.now added.items)) },
    ghost within: { len ≤ 67108864 },
}

impl<'a> Strings<'a> {
    ghost use Rattle.ctf_writer.specs.Tables.{names, used as used_in};

    /// The section of before, and behind it the names in use that it lacks.
    pub(crate) fn over(
        alloc: Global,
        before: &'a [u8],
        used: UsedNames<'a>,
    ) -> Result<Strings<'a>, Fault>
        requires whole { before.now ≡ string_bytes (names_within before.now) }
        requires short { length before.now ≤ 67108864 }
        ensures names { IfOk result (λ s. names s
            ≡ joined (names_within before.now) (used_names used.entry)) }
        ensures used { IfOk result (λ s. used_in s ≡ used_names used.entry) }
        ensures refused { IfErr result
            (IsRefused (joined (names_within before.now) (used_names used.entry))) }
    {
        let Placed {
            references,
            added,
            len,
        } = place(alloc, before, &used)?;
        Ok(Strings {
            before,
            used,
            references,
            added,
            len,
        })
    }

    /// The length of the string section.
    pub fn len(&self) -> usize
        ensures exact { result ≡ length (string_bytes (names self.now)) }
        ensures short { result ≤ 67108864 }
    {
        self.len
    }

    /// The reference to a name in use.
    pub fn reference(&self, name: &[u8]) -> u32
        requires { IsKept (used_in self.now) name.now }
        ensures { result ≡ name_reference (names self.now) name.now }
    {
        if name.is_empty() {
            return 0;
        }
        match self.used.index(name) {
            Some(i) => self.references[i],
            None => 0,
        }
    }

    /// Appends the string section.
    pub fn put(&self, out: &mut Vec<u8>)
        requires { vec_len out.old + length (string_bytes (names self.now)) ≤ vec_capacity out.old }
        ensures items { out.new.items ≡ out.old.items ++ string_bytes (names self.now) }
        ensures len { vec_len out.new ≡ vec_len out.old + length (string_bytes (names self.now)) }
    {
        copy(out, self.before);
        let added = self.added.as_slice();
        for name in added {
            put_closed(out, name);
        }
    }
}

/// Appends a name and the zero byte that ends it.
fn put_closed(out: &mut Vec<u8>, name: &[u8])
    requires { vec_len out.old + length (closed_name name.now) ≤ vec_capacity out.old }
    ensures items { out.new.items ≡ out.old.items ++ closed_name name.now }
    ensures len { vec_len out.new ≡ vec_len out.old + length (closed_name name.now) }
    ensures capacity { vec_capacity out.new ≡ vec_capacity out.old }
{
    put(out, name);
    put(out, &[0]);
}
