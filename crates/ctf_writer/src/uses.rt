//! Adds the names in a draft, in the order of their uses.
ghost use Rattle.std.specs.Prelude.{◌≡◌, [], ◌∷◌, ◌++◌, map, IfErr, IfOk, OnOk};
ghost use Rattle.std.specs.List.{flat_map};
ghost use Rattle.ctf_draft.specs.TypeView.{body_of, type_of};
ghost use Rattle.ctf_model.specs.writing.WrittenNames.{listed_names, names_of, strings_of as strings_in};
ghost use Rattle.ctf_writer.specs.DraftContentView.{dictionary_of, uses};
ghost use Rattle.ctf_writer.specs.Before.{IsBefore, later_uses};
ghost use Rattle.ctf_writer.specs.Tables.{names, used as used_of};
ghost use Rattle.ctf_writer.specs.UsedView.{used_names};
ghost use Rattle.ctf_writer.specs.Uses.{with_names, IsRefused};

use crate::before::Before;
use crate::draft_view::DraftContent;
use crate::labels::label_name;
use crate::strings::Strings;
use crate::used::UsedNames;
use ctf_draft::{Body, DraftType, Enumerator, Labels, Member};
use ctf_model::Fault;
use std::alloc::{AllocError, Global};

fn add_members<'a>(used: &mut UsedNames<'a>, members: &'a [Member]) -> Result<(), AllocError>
    ensures { OnOk result (used_names used.new
        ≡ with_names (used_names used.old) (map (λ m. m.name) members.now)) }
{
    for member in members {
        used.add(member.name.as_slice())?;
    }
    Ok(())
}

fn add_enumerators<'a>(
    used: &mut UsedNames<'a>,
    enumerators: &'a [Enumerator],
) -> Result<(), AllocError>
    ensures { OnOk result (used_names used.new
        ≡ with_names (used_names used.old) (map (λ e. e.name) enumerators.now)) }
{
    for enumerator in enumerators {
        used.add(enumerator.name.as_slice())?;
    }
    Ok(())
}

fn add_listed<'a>(used: &mut UsedNames<'a>, body: &'a Body) -> Result<(), AllocError>
    ensures { OnOk result (used_names used.new
        ≡ with_names (used_names used.old) (listed_names (body_of body.now))) }
{
    match body {
        Body::Aggregate(_, _, members) => add_members(used, members.as_slice()),
        Body::Enum(_, enumerators) => add_enumerators(used, enumerators.as_slice()),
        _ => Ok(()),
    }
}

/// Adds the names of a type, its own first.
fn add_type<'a>(used: &mut UsedNames<'a>, source: &'a DraftType) -> Result<(), AllocError>
    ensures { OnOk result (used_names used.new
        ≡ with_names (used_names used.old) (names_of (type_of source.now))) }
{
    used.add(source.name.as_slice())?;
    add_listed(used, &source.body)
}

fn add_types<'a>(used: &mut UsedNames<'a>, types: &'a [DraftType]) -> Result<(), AllocError>
    ensures { OnOk result (used_names used.new
        ≡ with_names (used_names used.old) (flat_map uses types.now)) }
{
    for t in types {
        add_type(used, t)?;
    }
    Ok(())
}

fn add_labels<'a>(used: &mut UsedNames<'a>, labels: &'a Labels) -> Result<(), AllocError>
    ensures { OnOk result (used_names used.new
        ≡ with_names (used_names used.old) (map (λ l. l.name) labels.now)) }
{
    for i in 0..labels.len() {
        used.add(label_name(labels, i))?;
    }
    Ok(())
}

/// The names that are used by the parent's label and name, the labels, and the types behind those of
/// before.
fn used_in<'a>(
    alloc: Global,
    held: DraftContent<'a>,
    types: &'a [DraftType],
) -> Result<UsedNames<'a>, AllocError>
    ensures { IfOk result (λ u. used_names u
        ≡ with_names [] (held.entry.parlabel.now ∷ held.entry.parname.now
        ∷ (map (λ l. l.name) held.entry.labels.now ++ flat_map uses types.now))) }
{
    let mut used = UsedNames::new(alloc, types.len())?;
    used.add(held.parlabel)?;
    used.add(held.parname)?;
    add_labels(&mut used, held.labels)?;
    add_types(&mut used, types)?;
    Ok(used)
}

/// The strings of all that a draft holds.
pub(crate) fn strings_of<'a>(
    alloc: Global,
    held: DraftContent<'a>,
    before: Before<'a>,
) -> Result<Strings<'a>, Fault>
    requires { IsBefore (dictionary_of held) before }
    ensures names { IfOk result (λ s. names s ≡ strings_in (dictionary_of held.entry)) }
    ensures used { IfOk result (λ s. used_of s
        ≡ with_names [] (later_uses (dictionary_of held.entry) before.entry.count)) }
    ensures refused { IfErr result (IsRefused (strings_in (dictionary_of held.entry))) }
{
    let used = used_in(alloc, held, before.others(held.types))?;
    let strings = Strings::over(alloc, before.strings, used)?;
    Ok(strings)
}
