//! The answers to questions on the types, symbols and labels of a slot.
ghost use Rattle.std.specs.Prelude.{◌≡◌, ℕ, List};
ghost use Rattle.std.specs.Option.{option_map};
ghost use Rattle.ctf_open.specs.Fitting.{Serve};
ghost use Rattle.ctf_model.specs.symbols.Entries.{owner_of};
ghost use Rattle.ctf_protocol.specs.answers.Questions.{as_fields};
ghost use Rattle.ctf_protocol.specs.answers.SlotAnswers.{last_fields, symbol_fields, whole_answered};
ghost use Rattle.ctf_model.specs.symbols.SymbolQuestions.{or_refused};
ghost use Rattle.ctf_model.specs.declared.faults.TheConstants.Fault.{NO_SYMBOL};
ghost use Rattle.ctf_space.specs.SpaceView.{own_lists, space_of};
ghost use Rattle.ctf_symbols.specs.Fitting.{Fits};
ghost use Rattle.ctf_symbols.specs.NamedView.{owner_named};

use crate::answering::{list_answer, signature_answer, type_answer};
use ctf_answers::{Answer, Items, Single, class_name};
use ctf_names::find;
use ctf_open::Tables;
use ctf_protocol::{Fault, SlotQuestion, placeless};
use ctf_space::Space;
use ctf_symbols::{NamedSymbol, SymbolMap};

fn symbol_answer<'a>(found: Option<NamedSymbol>) -> Result<Answer<'a>, Fault>
    ensures { (name : List ℕ) → result ≡ as_fields symbol_fields
        (or_refused NO_SYMBOL (option_map (owner_named name) found)) }
{
    match found {
        Some(symbol) => Ok(Answer::two(
            "class",
            Single::Word(class_name(symbol.class)),
            "sym",
            Single::Number(u64::from(symbol.number)),
        )),
        None => Err(placeless(Fault::NO_SYMBOL)),
    }
}

fn last_answer<'a>(last: Result<u32, Fault>) -> Result<Answer<'a>, Fault>
    ensures { result ≡ as_fields last_fields last }
{
    let last = last?;
    Ok(Answer::one("last", Single::Number(u64::from(last))))
}

/// The answer to such a question, which takes no memory.
pub(crate) fn whole_answer<'a>(
    space: &Space<'a>,
    tables: &Tables,
    symbols: &SymbolMap,
    question: &SlotQuestion,
) -> Result<Answer<'a>, Fault>
    requires serve { Serve space.now tables.now }
    requires mapped { Fits (own_lists space.now) symbols.now }
    ensures { result ≡ whole_answered question.now (space_of space.now) }
{
    let own = space.dictionary();
    match question {
        SlotQuestion::Find(text) => type_answer(find(space, &tables.index, text.as_slice())),
        SlotQuestion::Symbol(name) => symbol_answer(symbols.symbol_named(&own, name.as_slice())),
        SlotQuestion::Object(number) => type_answer(symbols.object(&own, *number)),
        SlotQuestion::Function(number) => signature_answer(symbols.function(&own, *number)),
        SlotQuestion::Labels(window) => Ok(list_answer(
            "labels",
            Items::Labels(own.labels()),
            *window,
        )),
        SlotQuestion::Label(name) => last_answer(symbols.label(&own, name.as_slice())),
    }
}
