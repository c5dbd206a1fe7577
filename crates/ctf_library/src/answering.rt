//! The answers to questions to a slot, and on types.
ghost use Rattle.std.specs.Prelude.{◌≡◌, ◌≤◌, [], ◌∷◌, codes, length, map, take, true, false, None, Some, Ok, Err, IfOk, IfSome, IfNone, IsNone, option_map, option_and_then};
ghost use Rattle.ctf_protocol.specs.answers.Answers.{number, says, word};
ghost use Rattle.ctf_model.specs.names.KindNames.{name_of_kind, name_of_tag};
ghost use Rattle.ctf_protocol.specs.answers.Questions.{list_fields, answer_of, type_answered, record_fields, member_fields, enumerator_fields, argument_fields, signature_fields, array_fields, encoding_fields, as_fields, type_fields, name_fields, position_fields, value_fields, number_item};
ghost use Rattle.ctf_model.specs.format.Shown.{kind_of, members_in, enumerators_in, list_length, named_arguments};
ghost use Rattle.ctf_protocol.specs.sessions.SlotQuestions.{slot_answered};
ghost use Rattle.ctf_protocol.specs.sessions.Quiet.{is_quiet, is_quiet_on, MayAnswer};
ghost use Rattle.ctf_model.specs.names.TypeNames.{spelled_name};
ghost use Rattle.ctf_model.specs.values.Values.{value_text};
ghost use Rattle.ctf_library.specs.Telling.{IsTypeAnswer, makes_text, makes_text_on};
ghost use Rattle.std.specs.Result.{result_map_both};
ghost use Rattle.ctf_open.specs.Fitting.{Serve};
ghost use Rattle.ctf_layout.specs.Reached.{position_of};
ghost use Rattle.ctf_answers.specs.Items.{items_of};
ghost use Rattle.ctf_answers.specs.Singles.{single_of};
ghost use Rattle.ctf_check.specs.FactsView.{facts_view};
ghost use Rattle.ctf_entries.specs.FunctionView.{signature};
ghost use Rattle.ctf_model.specs.symbols.SymbolQuestions.{or_refused};
ghost use Rattle.ctf_model.specs.declared.faults.TheConstants.Fault.{WRONG_KIND};
ghost use Rattle.ctf_views.specs.PartsView.{array_info, encoding_info};
ghost use Rattle.ctf_check.specs.TypedView.{term_in};
ghost use Rattle.ctf_records.specs.RecordView.{tag_of};
ghost use Rattle.ctf_views.specs.VariantView.{shown_of};
ghost use Rattle.ctf_space.specs.SpaceView.{space_of};
ghost use Rattle.ctf_protocol.specs.declared.questions.PlainQuestion.TheVariants as plain;
ghost use Rattle.ctf_protocol.specs.declared.questions.TypeQuestion.TheVariants as about;
ghost use Rattle.ctf_model.specs.spaces.TypeNumbers.{or_no_type};

use crate::dictionary_answers::whole_answer;
use crate::slots::Slot;
use ctf_answers::{Answer, ItemWindow, Items, RecordAnswer, Single};
use ctf_check::{Facts, Typed};
use ctf_entries::Signature;
use ctf_layout::{path, referred};
use ctf_names::{pointer_to, spell};
use ctf_open::{Tables, array_of, encoding_of, signature_of};
use ctf_print::show;
use ctf_protocol::{
    Bytes, Fault, Kind, PlainQuestion, Question, TypeNum, TypeQuestion, Window, kind_name,
    placeless,
};
use ctf_space::Space;
use ctf_views::{Args, ArrayInfo, Encoding, Variant, is_variadic};
use std::alloc::Global;

/// The answer of a list, if the type has one.
pub(crate) fn list_answer<'a>(key: &'static str, items: Items<'a>, window: Window) -> Answer<'a>
    ensures { result ≡ list_fields key.now window (items_of items.entry) }
{
    let total = items.len() as u64;
    Answer::window(key, ItemWindow::new(items, window), total)
}

fn members<'a>(behind: Variant<'a>, window: Window) -> Result<Answer<'a>, Fault>
    ensures { result
        ≡ as_fields (member_fields window)
        (or_refused WRONG_KIND (members_in (shown_of behind.entry))) }
{
    match behind {
        Variant::Members(members) => Ok(list_answer("members", Items::Members(members), window)),
        _ => Err(placeless(Fault::WRONG_KIND)),
    }
}

fn enumerators<'a>(behind: Variant<'a>, window: Window) -> Result<Answer<'a>, Fault>
    ensures { result ≡ as_fields (enumerator_fields window)
        (or_refused WRONG_KIND (enumerators_in (shown_of behind.entry))) }
{
    match behind {
        Variant::Enumerators(enumerators) => {
            Ok(list_answer("enumerators", Items::Enumerators(enumerators), window))
        }
        _ => Err(placeless(Fault::WRONG_KIND)),
    }
}

/// How many arguments are named: all but a last 0.
#[tactic(auto, using(crate::proofs::SaidOfFacts::take_numbers))]
fn named_count(args: &Args<'_>) -> usize
    ensures named { take result (map number_item args.now)
        ≡ map number_item (named_arguments args.now) }
    ensures inside { result ≤ length args.now }
{
    if is_variadic(args) {
        args.len() - 1
    } else {
        args.len()
    }
}

/// The answer of what a function returns and takes. Its arguments are as stored.
pub(crate) fn call_answer<'a>(args: Args<'a>, ret: TypeNum) -> Answer<'a>
    ensures { result ≡ argument_fields ret.0 args.entry }
{
    let varargs = is_variadic(&args);
    let count = named_count(&args);
    Answer::signature(
        ItemWindow::front(Items::Arguments(args), count),
        u64::from(ret.0),
        varargs,
    )
}

/// The answer of a signature, or its refusal.
pub(crate) fn signature_answer<'a>(found: Result<Signature<'a>, Fault>) -> Result<Answer<'a>, Fault>
    ensures { result ≡ as_fields signature_fields (result_map_both signature (λ f. f) found.entry) }
{
    let signature = found?;
    Ok(call_answer(signature.args, signature.ret))
}

/// The answer of a type number, or its refusal.
pub(crate) fn type_answer<'a>(number: Result<TypeNum, Fault>) -> Result<Answer<'a>, Fault>
    ensures { result ≡ as_fields type_fields (result_map_both (λ t. t.0) (λ f. f) number) }
{
    let t = number?;
    Ok(Answer::one("t", Single::Number(u64::from(t.0))))
}

/// The answer of a number under a key, or its refusal.
fn number_answer<'a>(key: &'static str, n: Result<u64, Fault>) -> Result<Answer<'a>, Fault>
    ensures { result ≡ as_fields (λ n. says key.now (number n) ∷ []) n }
{
    let n = n?;
    Ok(Answer::one(key, Single::Number(n)))
}

fn position_answer<'a>(at: Result<(u64, TypeNum), Fault>) -> Result<Answer<'a>, Fault>
    ensures { result ≡ as_fields position_fields (result_map_both position_of (λ f. f) at) }
{
    let (offset, t) = at?;
    Ok(Answer::two(
        "offset",
        Single::Number(offset),
        "t",
        Single::Number(u64::from(t.0)),
    ))
}

/// The length of a type's list.
fn list_len(behind: &Variant<'_>) -> usize
    ensures { result ≡ list_length (shown_of behind.now) }
{
    match behind {
        Variant::Members(members) => members.len(),
        Variant::Enumerators(enumerators) => enumerators.len(),
        Variant::Args(args) => args.len(),
        _ => 0,
    }
}

fn array_answer<'a>(found: Result<ArrayInfo, Fault>) -> Result<Answer<'a>, Fault>
    ensures { result ≡ as_fields array_fields (result_map_both array_info (λ f. f) found) }
{
    let info = found?;
    Ok(Answer::three(
        "contents",
        Single::Number(u64::from(info.contents.0)),
        "count",
        Single::Number(u64::from(info.count)),
        "index",
        Single::Number(u64::from(info.index.0)),
    ))
}

fn encoding_answer<'a>(found: Result<Encoding, Fault>) -> Result<Answer<'a>, Fault>
    ensures { result ≡ as_fields encoding_fields (result_map_both encoding_info (λ f. f) found) }
{
    let info = found?;
    Ok(Answer::three(
        "bits",
        Single::Number(u64::from(info.bits)),
        "encoding",
        Single::Number(u64::from(info.encoding)),
        "offset",
        Single::Number(u64::from(info.offset)),
    ))
}

/// A type without its list.
fn record_of<'a>(x: Facts<'a>) -> Answer<'a>
    ensures { result ≡ record_fields (facts_view x.entry) }
{
    Answer::record_of(RecordAnswer {
        kind: x.shape.kind,
        name: x.name,
        root: x.root,
        size: x.shape.size,
        tag: x.shape.declares,
        reference: x.shape.reference,
        vlen: list_len(&x.shape.behind) as u64,
    })
}

fn kind_answer<'a>(kind: Kind) -> Answer<'a>
    ensures { result ≡ says (codes "kind") (word (name_of_kind kind)) ∷ [] }
{
    Answer::one("kind", Single::Word(kind_name(kind)))
}

/// The name of a type, as C spells it.
fn name<'a>(alloc: Global, space: &Space<'_>, t: TypeNum) -> Result<Answer<'a>, Fault>
    ensures { MayAnswer (as_fields name_fields (spelled_name (space_of space.now) t.0)) result }
{
    let mut text = Vec::new(alloc);
    spell(alloc, space, t, &mut text)?;
    Ok(Answer::with_text("name", Bytes::from(text)))
}

/// The type that a question is on: its number, the type itself, its kind, and the space and the
/// tables that give the rest.
#[derive(Clone, Copy)]
struct AskedType<'a, 't> {
    t: TypeNum,
    found: Typed<'a>,
    kind: Kind,
    space: Space<'a>,
    tables: &'t Tables,
}

/// The text of the value of a type that begins at a bit of some memory.
fn value<'a>(
    alloc: Global,
    asked: &AskedType<'_, '_>,
    memory: &[u8],
    offset: u64,
) -> Result<Answer<'a>, Fault>
    requires { Serve asked.now.space asked.now.tables.now }
    ensures { MayAnswer (as_fields value_fields
        (value_text (space_of asked.now.space) memory.now asked.now.t.0 offset)) result }
{
    let layout = &asked.tables.layout;
    let mut text = Vec::new(alloc);
    show(
        alloc,
        &asked.space,
        layout,
        asked.t,
        memory,
        offset,
        &mut text,
    )?;
    Ok(Answer::with_text("text", Bytes::from(text)))
}

/// The answer to a question on a type: one that borrows and takes no memory, or which text has to
/// be made.
pub(crate) enum TypeAnswer<'a, 'q> {
    Lent(Result<Answer<'a>, Fault>),
    Name,
    Value { memory: &'q [u8], offset: u64 },
}

/// The answer to a question without further fields; `None` if a text of the type's name has to be
/// made. It reads no more of the type than the answer has.
fn plain_answer<'a>(
    asked: &AskedType<'a, '_>,
    question: PlainQuestion,
) -> Option<Result<Answer<'a>, Fault>>
    requires kind { option_map (λ x. kind_of x.body) (term_in asked.now.found)
        ≡ Some asked.now.kind }
    requires tables { Serve asked.now.space asked.now.tables.now }
    ensures some { IfSome result (λ answer. answer ≡ answer_of (about.Plain question)
        (space_of asked.now.space) asked.now.t.0 (or_no_type (term_in asked.now.found))) }
    ensures none { IfNone result (question ≡ plain.Name) }
{
    match question {
        PlainQuestion::Kind => Some(Ok(kind_answer(asked.kind))),
        PlainQuestion::Record => Some(Ok(record_of(asked.found.facts()))),
        PlainQuestion::Args => Some(signature_answer(signature_of(asked.found.shape()))),
        PlainQuestion::Array => Some(array_answer(array_of(asked.found.shape()))),
        PlainQuestion::Encoding => Some(encoding_answer(encoding_of(asked.found.shape()))),
        PlainQuestion::Reference => Some(type_answer(referred(asked.found.shape()))),
        PlainQuestion::Resolve => Some(type_answer(asked.tables.layout.resolve(asked.t))),
        PlainQuestion::Size => Some(number_answer("size", asked.tables.layout.size(asked.t))),
        PlainQuestion::Align => Some(number_answer("align", asked.tables.layout.align(asked.t))),
        PlainQuestion::Pointer => Some(type_answer(pointer_to(
            &asked.space,
            &asked.tables.index,
            asked.t,
        ))),
        PlainQuestion::Name => None,
    }
}

/// The answer to a question on a type, or which text has to be made.
fn tell<'a, 'q>(asked: &AskedType<'a, '_>, question: &'q TypeQuestion) -> TypeAnswer<'a, 'q>
    requires kind { option_map (λ x. kind_of x.body) (term_in asked.now.found)
        ≡ Some asked.now.kind }
    requires tables { Serve asked.now.space asked.now.tables.now }
    ensures { IsTypeAnswer question.now (space_of asked.now.space) asked.now.t.0
        (or_no_type (term_in asked.now.found)) result }
{
    match question {
        TypeQuestion::Plain(question) => match plain_answer(asked, *question) {
            Some(answer) => TypeAnswer::Lent(answer),
            None => TypeAnswer::Name,
        },
        TypeQuestion::Members(window) => {
            TypeAnswer::Lent(members(asked.found.variant(), *window))
        }
        TypeQuestion::Enumerators(window) => {
            TypeAnswer::Lent(enumerators(asked.found.variant(), *window))
        }
        TypeQuestion::Path(names) => TypeAnswer::Lent(position_answer(path(
            &asked.space,
            asked.t,
            names.as_joined(),
        ))),
        TypeQuestion::Show { memory, offset } => TypeAnswer::Value {
            memory: memory.as_slice(),
            offset: *offset,
        },
    }
}

/// The answer to a question on a type of a space.
fn answer_on<'a>(
    alloc: Global,
    space: &Space<'a>,
    tables: &Tables,
    t: TypeNum,
    question: &TypeQuestion,
) -> Result<Answer<'a>, Fault>
    requires { Serve space.now tables.now }
    ensures answer { MayAnswer (type_answered question.now (space_of space.now) t.0) result }
    ensures quiet { is_quiet_on question.now ≡ true
        → result ≡ type_answered question.now (space_of space.now) t.0 }
    // Only a text takes memory.
    ensures lent { makes_text_on question.now ≡ false
        → result ≡ type_answered question.now (space_of space.now) t.0 }
{
    let found = space.term(t)?;
    let asked = AskedType {
        t,
        found,
        kind: found.kind(),
        space: *space,
        tables,
    };
    match tell(&asked, question) {
        TypeAnswer::Lent(answer) => answer,
        TypeAnswer::Name => name(alloc, space, t),
        TypeAnswer::Value { memory, offset } => value(alloc, &asked, memory, offset),
    }
}

impl Slot {
    ghost use Rattle.ctf_library.specs.SlotView.{slot_of};

    /// The answer to a question.
    pub(crate) fn answer<'a>(
        &'a self,
        alloc: Global,
        question: &Question,
    ) -> Result<Answer<'a>, Fault>
        ensures answer { MayAnswer (slot_answered question.now (slot_of self.now)) result }
        ensures quiet { is_quiet question.now ≡ true
            → result ≡ slot_answered question.now (slot_of self.now) }
        ensures lent { makes_text question.now ≡ false
            → result ≡ slot_answered question.now (slot_of self.now) }
    {
        let space = self.dictionary.space();
        match question {
            Question::OfType { t, question } => {
                answer_on(alloc, &space, self.dictionary.tables(), *t, question)
            }
            Question::OfSlot(question) => {
                whole_answer(
                    &space,
                    self.dictionary.tables(),
                    self.dictionary.symbols(),
                    question,
                )
            }
            Question::OfHeld(question) => Ok(self.answer_held(*question)),
        }
    }
}
