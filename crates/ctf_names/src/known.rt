//! A cache of the lengths of type names, so that no name that is too long is spelled again.
ghost use Rattle.std.specs.Prelude.{◌≡◌, ◌⊎◌, IfErr, IfSome, OnErr, OnOk, Err, Ok};
ghost use Rattle.ctf_model.specs.names.TypeNames.{spelled_name};
ghost use Rattle.ctf_model.specs.rules.Refusals.{out_of_memory};
ghost use Rattle.ctf_names.specs.Adding.{append_text};
ghost use Rattle.ctf_names.specs.Measuring.{IsMeasured, IsStep};
ghost use Rattle.ctf_space.specs.SpaceView.{space_of};

use crate::inside::{Base, Inside, found_inside, or_anon};
use crate::measures::{Measured, Step};
use crate::name_lengths::{around, of_base, refused};
use crate::spelling::spell;
use crate::unrolling::void;
use ctf_model::{Fault, Layer, TypeNum};
use ctf_space::Space;
use std::alloc::Global;
use std::collections::BTreeMap;
use std::marker::Model;

/// As many layers as the longest chains of a dictionary and of its parent have.
const MOST_LAYERS: u32 = 1026;

/// The names of the types of a space. The length of a name inside of others is computed once for
/// each type, so a name that is too long is refused without being spelled.
#[derive(Drop)]
pub struct KnownNames<'a> {
    space: Space<'a>,
    alloc: Global,
    known: BTreeMap<u16, Measured>,
}

impl<'a> Model for KnownNames<'a> {
    ghost use Rattle.ctf_model.specs.spaces.Space.{Space as Types};
    ghost use Rattle.ctf_space.specs.SpaceView.{space_of};
    ghost use Rattle.ctf_names.specs.KnownView.{AreRight};

    ghost Value = { Types };

    ghost view = { λ k. space_of k.space };

    ghost invariant = { λ k. AreRight (space_of k.space) k.known };
}

impl<'a> KnownNames<'a> {
    /// Nothing is known yet.
    pub fn new(alloc: Global, space: Space<'a>) -> KnownNames<'a>
        ensures { result ≡ space_of space.entry }
    {
        KnownNames {
            space,
            alloc,
            known: BTreeMap::new(alloc),
        }
    }

    /// What a type adds to its own name: the innermost name, or one more layer.
    fn step(&self, number: TypeNum) -> Step
        ensures { IsStep self.now number.0 result }
    {
        if number.0 == 0 {
            return Step::End(Ok(of_base(void())));
        }
        match self.space.term(number) {
            Err(fault) => Step::End(Err(fault)),
            Ok(found) => match found_inside(&found.shape()) {
                Inside::Layer(layer, next) => Step::Round(layer, next),
                Inside::Name(tag) => {
                    let name = or_anon(found.name());
                    Step::End(Ok(of_base(Base { tag, name })))
                }
            },
        }
    }

    /// Caches the lengths of a type's name. Without memory for that, nothing is cached.
    fn keep(&mut self, number: TypeNum, measured: Measured)
        requires { IsMeasured self.old number.0 measured }
        ensures { self.new ≡ self.old }
    {
        let _ = self.known.insert(number.0, measured);
    }

    /// The lengths of a type's name, if it has at most so many layers. Each type is looked at once.
    #[cycle(find)]
    fn find(&mut self, number: TypeNum, most: u32) -> Option<Measured>
        ensures right { IfSome result (λ m. IsMeasured self.old number.0 m) }
        ensures kept { self.new ≡ self.old }
    {
        if let Some(known) = self.known.get(&number.0) {
            return Some(*known);
        }
        if most == 0 {
            return None;
        }
        match self.step(number) {
            Step::End(lengths) => {
                let end = Measured { layers: 0, lengths };
                self.keep(number, end);
                Some(end)
            }
            Step::Round(layer, next) => self.find_round(number, layer, next, most - 1),
        }
    }

    /// The same for a type that is a layer around the next one.
    #[cycle(find)]
    fn find_round(
        &mut self,
        number: TypeNum,
        layer: Layer,
        next: TypeNum,
        most: u32,
    ) -> Option<Measured>
        requires { IsStep self.old number.0 (Step.Round layer next) }
        ensures right { IfSome result (λ m. IsMeasured self.old number.0 m) }
        ensures kept { self.new ≡ self.old }
    {
        let Some(inside) = self.find(next, most) else {
            return None;
        };
        if inside.layers == u32::MAX {
            return None;
        }
        let found = Measured {
            layers: inside.layers + 1,
            lengths: around(layer, inside.lengths),
        };
        self.keep(number, found);
        Some(found)
    }

    /// Why a type has no name, as far as the names inside of it are known.
    fn refusal(&mut self, number: TypeNum) -> Option<Fault>
        ensures right { IfSome result (λ f. spelled_name self.old number.0 ≡ Err f) }
        ensures kept { self.new ≡ self.old }
    {
        let Step::Round(layer, next) = self.step(number) else {
            return None;
        };
        let Some(inside) = self.find(next, MOST_LAYERS) else {
            return None;
        };
        if inside.layers > MOST_LAYERS {
            return None;
        }
        refused(layer, inside.lengths)
    }

    /// Appends the name of the type with a number, as C spells it. A refusal appends nothing.
    pub fn spell(&mut self, number: TypeNum, out: &mut Vec<u8>) -> Result<(), Fault>
        ensures exact_ok { OnOk result
            (append_text out.old.items (spelled_name self.old number.0) ≡ Ok out.new.items) }
        ensures exact_err { IfErr result (λ f. (f ≡ out_of_memory)
            ⊎ (spelled_name self.old number.0 ≡ Err f)) }
        ensures kept { OnErr result (out.new.items ≡ out.old.items) }
        ensures same { self.new ≡ self.old }
    {
        match self.refusal(number) {
            Some(fault) => Err(fault),
            None => spell(self.alloc, &self.space, number, out),
        }
    }
}
