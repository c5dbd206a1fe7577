//! How the values of a type are shown, with typedefs and qualifiers followed: computed once for all
//! of its values.
ghost use Rattle.std.specs.Prelude.{◌≡◌, ℕ, IfErr, IfOk};
ghost use Rattle.ctf_model.specs.values.Pieces.{ends};
ghost use Rattle.ctf_print.specs.Finding.{IsValueForm};
ghost use Rattle.ctf_print.specs.ImageView.{shows, types_of};

use crate::image::Image;
use crate::show_cache::ShowCache;
use crate::show_rules::{ShowRule, rule_by};
use ctf_model::{Fault, TypeNum, placeless};

/// How the values of a type are shown.
#[derive(Drop)]
pub struct ValueForm<'a> {
    /// The type whose record decides this.
    pub number: TypeNum,
    /// How deep values may still be nested inside one of them.
    pub nesting: u32,
    pub how: ShowRule<'a>,
}

/// How the values of the type with a number are shown by its record, or the fault if they are not.
#[inline(always)]
fn by_record<'a>(image: &Image<'a>, number: TypeNum, nesting: u32) -> Result<ValueForm<'a>, Fault>
    ensures found { IfOk result (IsValueForm image.now nesting number.0) }
    ensures fault { IfErr result (λ f. (p : ℕ) → shows image.now nesting number.0 p ≡ ends f) }
{
    if nesting == 0 || number.0 == 0 {
        return Err(placeless(Fault::INCOMPLETE));
    }
    let term = image.space.term(number)?;
    Ok(ValueForm {
        number,
        nesting: nesting - 1,
        how: rule_by(term.shape()),
    })
}

/// How the values of the type with a number are shown, or the fault if they are not. Typedefs and
/// qualifiers are followed once for each type.
#[inline(always)]
fn form_behind<'a>(
    image: &Image<'a>,
    number: TypeNum,
    nesting: u32,
    known: &mut ShowCache<'_>,
) -> Result<ValueForm<'a>, Fault>
    requires known { known.old ≡ types_of image.now }
    ensures found { IfOk result (IsValueForm image.now nesting number.0) }
    ensures fault { IfErr result (λ f. (p : ℕ) → shows image.now nesting number.0 p ≡ ends f) }
    ensures kept { known.new ≡ known.old }
{
    match by_record(image, number, nesting) {
        Ok(
            ValueForm {
                nesting,
                how: ShowRule::As(next),
                ..
            },
        ) => {
            let reached = known.reach(next, nesting);
            by_record(image, reached.number, reached.nesting)
        }
        other => other,
    }
}

/// The same, written into `found`: so nested values take one such result each on the stack, and
/// none for a result that is moved.
#[inline(always)]
pub fn find_how<'a>(
    image: &Image<'a>,
    number: TypeNum,
    nesting: u32,
    known: &mut ShowCache<'_>,
    found: &mut ValueForm<'a>,
) -> Result<(), Fault>
    requires known { known.old ≡ types_of image.now }
    ensures found { IfOk result (λ _. IsValueForm image.now nesting number.0 found.new) }
    ensures fault { IfErr result (λ f. (p : ℕ) → shows image.now nesting number.0 p ≡ ends f) }
    ensures kept { known.new ≡ known.old }
{
    *found = form_behind(image, number, nesting, known)?;
    Ok(())
}

/// The empty value, before anything is found.
#[inline(always)]
pub fn no_form<'a>() -> ValueForm<'a> {
    ValueForm {
        number: TypeNum(0),
        nesting: 0,
        how: ShowRule::Incomplete,
    }
}
