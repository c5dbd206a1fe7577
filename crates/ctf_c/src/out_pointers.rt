//! Statuses, and results that are written through the pointers of a caller.
ghost use Rattle.std.specs.Prelude.{◌≡◌, ◌+◌, ◌++◌, ◌<◌, Ok, Err, drop, length, min, option_copied, take};
ghost use Rattle.std.specs.Result.{result_map_both};
ghost use Rattle.ctf_c.specs.Given.{Gives, GivesText, flag as flag_of, list_if as list_there, model_if, model_number as number_of_model, number_of_kind, number_of_tag, status_of};
ghost use Rattle.ctf_model.specs.opened.Questions.{answer_map};
ghost use Rattle.ctf_records.specs.RecordView.{tag_of as tag_shown};

use ctf_model::{DataModel, Fault, Kind, TypeNum};
use ctf_records::Tag;

/// The status if nothing is open: that of `Fault::NO_SLOT`.
pub const NOT_OPEN: u32 = 50;

/// The dictionary that is open in a handle. If none is, the export returns with that status.
macro_rules! dictionary_of {
    ($handle:ident) => {
        match $handle.option_box().get() {
            Some(dictionary) => dictionary,
            None => return $crate::out_pointers::NOT_OPEN,
        }
    };
}

pub(crate) use dictionary_of;

/// The status of a refusal: 1 + the number of its fault.
#[inline(always)]
pub fn status(fault: Fault) -> u32
    ensures { result ≡ status_of fault }
{
    u32::from(fault.code) + 1
}

/// Writes a number, or returns the status of a refusal.
#[inline(always)]
pub fn give(answer: Result<u64, Fault>, out: &mut u64) -> u32
    ensures { Gives answer result out.old out.new }
{
    match answer {
        Ok(n) => {
            *out = n;
            0
        }
        Err(fault) => status(fault),
    }
}

/// The same for a number of 32 bits.
#[inline(always)]
pub fn give_short(answer: Result<u32, Fault>, out: &mut u32) -> u32
    ensures { Gives answer result out.old out.new }
{
    match answer {
        Ok(n) => {
            *out = n;
            0
        }
        Err(fault) => status(fault),
    }
}

/// The same for the number of a type.
#[inline(always)]
pub fn give_type(answer: Result<TypeNum, Fault>, out: &mut u16) -> u32
    ensures { Gives (result_map_both (λ t. t.0) (λ f. f) answer) result out.old out.new }
{
    match answer {
        Ok(t) => {
            *out = t.0;
            0
        }
        Err(fault) => status(fault),
    }
}

/// Writes the front of `from` over the front of `to`, as much as fits.
#[inline(always)]
pub fn write_front(from: &[u8], to: &mut [u8])
    ensures { to.new ≡ take (length to.old) from.now ++ drop (length from.now) to.old }
{
    if from.len() < to.len() {
        to[..from.len()].copy_from_slice(from);
    } else {
        to.copy_from_slice(&from[..to.len()]);
    }
}

/// Writes as much of a text as fits, and its length, or returns the status of a refusal.
#[inline(always)]
pub fn give_text(answer: Result<&[u8], Fault>, text: &mut [u8], len: &mut u64) -> u32
    ensures { GivesText (result_map_both (λ t. t.now) (λ f. f) answer.entry) result
        (record { text = text.old; len = len.old }) (record { text = text.new; len = len.new }) }
{
    match answer {
        Ok(said) => {
            write_front(said, text);
            *len = said.len() as u64;
            0
        }
        Err(fault) => status(fault),
    }
}

/// The number of a kind in sys/ctf.h.
#[inline(always)]
pub fn kind_number(kind: Kind) -> u32
    ensures { result ≡ number_of_kind kind }
{
    match kind {
        Kind::KUnknown => 0,
        Kind::KInteger => 1,
        Kind::KFloat => 2,
        Kind::KPointer => 3,
        Kind::KArray => 4,
        Kind::KFunction => 5,
        Kind::KStruct => 6,
        Kind::KUnion => 7,
        Kind::KEnum => 8,
        Kind::KForward => 9,
        Kind::KTypedef => 10,
        Kind::KVolatile => 11,
        Kind::KConst => 12,
        Kind::KRestrict => 13,
    }
}

/// The same, if there is a type.
#[inline(always)]
pub fn kind_result(kind: Result<Kind, Fault>) -> Result<u32, Fault>
    ensures { result ≡ answer_map number_of_kind kind }
{
    Ok(kind_number(kind?))
}

/// The number of what a forward declares, if it is a forward.
pub fn tag_result(tag: Result<Tag, Fault>) -> Result<u32, Fault>
    ensures { result ≡ answer_map number_of_tag (result_map_both tag_shown (λ f. f) tag) }
{
    Ok(match tag? {
        Tag::Struct => 6,
        Tag::Union => 7,
        Tag::Enum => 8,
    })
}

/// 1 for true, else 0, if there is a type.
pub fn flag_result(holds: Result<bool, Fault>) -> Result<u32, Fault>
    ensures { result ≡ answer_map flag_of holds }
{
    Ok(flag(holds?))
}

/// 1 if a program's pointers have 4 bytes, else 0.
pub fn model_number(model: DataModel) -> u32
    ensures { result ≡ number_of_model model }
{
    match model {
        DataModel::Lp64 => 0,
        DataModel::Ilp32 => 1,
    }
}

/// 1 for true, else 0.
#[inline(always)]
pub fn flag(holds: bool) -> u32
    ensures { result ≡ flag_of holds }
{
    u32::from(holds)
}

/// A list, if the caller gives one.
pub fn list_if(there: bool, list: &[u8]) -> Option<&[u8]>
    ensures { option_copied result ≡ list_there there list.now }
{
    if there { Some(list) } else { None }
}

/// The data model of a program, by whether its pointers have 4 bytes.
pub fn model_of(ilp32: bool) -> DataModel
    ensures { result ≡ model_if ilp32 }
{
    if ilp32 {
        DataModel::Ilp32
    } else {
        DataModel::Lp64
    }
}
