//! Look-ups of an enumerator by its value or its name.
ghost use Rattle.std.specs.Prelude.{◌≡◌, Some, option_map};
ghost use Rattle.std.specs.Result.{result_map_both};
ghost use Rattle.ctf_check.specs.TypedView.{term_in};
ghost use Rattle.ctf_model.specs.declared.faults.TheConstants.Fault.{NO_MEMBER};
ghost use Rattle.ctf_model.specs.format.Shown.{shape};
ghost use Rattle.ctf_model.specs.symbols.SymbolQuestions.{or_refused};
ghost use Rattle.ctf_views.specs.ItemsView.{enumerator as enumerator_view};
ghost use Rattle.ctf_c.specs.names.Firsts.{named_answered, valued_answered};

use crate::names::name_search::{first_named, first_valued, name_rows};
use ctf_check::Typed;
use ctf_model::{Fault, placeless};
use ctf_views::{Enumerator, Variant};

/// The enumerator that was found; if there is none, the fault.
fn or_no_member(found: Option<Enumerator<'_>>) -> Result<Enumerator<'_>, Fault>
    ensures { result_map_both enumerator_view (λ f. f) result
        ≡ or_refused NO_MEMBER (option_map enumerator_view found.entry) }
{
    match found {
        Some(enumerator) => Ok(enumerator),
        None => Err(placeless(Fault::NO_MEMBER)),
    }
}

/// The first enumerator with a value.
pub fn with_value<'a>(found: &Typed<'a>, value: i32) -> Result<Enumerator<'a>, Fault>
    ensures { option_map (λ x. valued_answered value (shape x.body)) (term_in found.now)
        ≡ Some (result_map_both enumerator_view (λ f. f) result) }
{
    match found.variant() {
        Variant::Enumerators(enumerators) => or_no_member(first_valued(&enumerators, value)),
        _ => Err(placeless(Fault::WRONG_KIND)),
    }
}

/// The first enumerator with a name.
pub fn with_name<'a>(found: &Typed<'a>, name: &[u8]) -> Result<Enumerator<'a>, Fault>
    ensures { option_map (λ x. named_answered name.now (shape x.body)) (term_in found.now)
        ≡ Some (result_map_both enumerator_view (λ f. f) result) }
{
    let Some(rows) = name_rows(found) else {
        return Err(placeless(Fault::WRONG_KIND));
    };
    match found.variant() {
        Variant::Enumerators(enumerators) => or_no_member(first_named(&rows, &enumerators, name)),
        _ => Err(placeless(Fault::WRONG_KIND)),
    }
}
