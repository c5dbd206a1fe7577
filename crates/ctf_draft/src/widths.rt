//! How many bits a value of a type takes.
ghost use Rattle.std.specs.Prelude.{◌≡◌, ◌<◌, ◌^◌, IfOk, MatchOption, Ok, Some, option_map, slice_get};
ghost use Rattle.ctf_check.specs.CheckedView.{dictionary_of};
ghost use Rattle.ctf_check.specs.TypedView.{term_in};
ghost use Rattle.ctf_draft.specs.Sizing.{filled_bits as filled_of, width, width_found};
ghost use Rattle.ctf_model.specs.drafts.Drafts.{space_of};
ghost use Rattle.ctf_model.specs.drafts.Placement.{bits_filled as bits_filled_in};
ghost use Rattle.ctf_model.specs.spaces.Space.{space_type};
ghost use Rattle.ctf_model.specs.spaces.TypeNumbers.{or_no_type};

use crate::draft::Draft;
use ctf_check::{Checked, Typed};
use ctf_model::{Fault, Place, TypeNum, placeless};
use ctf_views::Variant;

/// The width of an integer or a float of a dictionary, in bits.
fn lent_width(x: &Typed<'_>) -> Option<u16>
    ensures { option_map (λ y. width y.body) (term_in x.now) ≡ Some result }
{
    match x.variant() {
        Variant::Encoding(parts) => Some(parts.bits),
        _ => None,
    }
}

/// The same for the type with a number from 0.
fn parents_width(parent: Checked<'_>, i: usize) -> Result<Option<u16>, Fault>
    requires { i < 65536 }
    ensures { result ≡ width_found (or_no_type (slice_get (dictionary_of parent.entry).terms i)) }
{
    match parent.type_at(i + 1) {
        Some(x) => Ok(lent_width(&x)),
        None => Err(placeless(Fault::NO_TYPE)),
    }
}

/// How many bits a value of a size takes: the width of an integer or a float, else all bits.
fn filled_bits(size: u64, width: Option<u16>) -> u128
    ensures bits { result ≡ filled_of size width }
    ensures small { result < 2 ^ 67 }
{
    match width {
        Some(width) => u128::from(width),
        None => 8 * u128::from(size),
    }
}

impl Draft {
    /// The width of the type that a number names, if that is an integer or a float.
    fn width_at(&self, n: TypeNum) -> Result<Option<u16>, Fault>
        ensures { result ≡ width_found (space_type (space_of self.now.draft) n.0) }
    {
        match n.place(self.parent.is_some()) {
            Place::Nowhere => Err(placeless(Fault::NO_TYPE)),
            Place::Own(i) => {
                if i < self.types.len() {
                    Ok(self.types[i].body.width())
                } else {
                    Err(placeless(Fault::NO_TYPE))
                }
            }
            Place::Parents(i) => match &self.parent {
                Some(parent) => parents_width(parent.judged.view(), i),
                None => Err(placeless(Fault::NO_PARENT)),
            },
        }
    }

    /// The width of an own integer or float. It depends on no other type.
    #[inline(always)]
    fn own_width(&self, n: TypeNum) -> Option<u16>
        ensures { MatchOption result (Unit {0}) (λ bits.
            bits_filled_in (space_of self.now.draft) n.0 ≡ Ok bits) }
    {
        let i = self.own_index(n)?;
        self.own_body(i).width()
    }

    /// How many bits a value of a type takes.
    #[inline(always)]
    pub(crate) fn bits_filled(&self, n: TypeNum) -> Result<u128, Fault>
        ensures bits { result ≡ bits_filled_in (space_of self.now.draft) n.0 }
        ensures small { IfOk result (λ bits. bits < 2 ^ 67) }
    {
        if let Some(width) = self.own_width(n) {
            return Ok(u128::from(width));
        }
        let size = self.size(n)?;
        let at = self.resolve_type(n)?;
        let width = self.width_at(at)?;
        Ok(filled_bits(size, width))
    }
}
