//! The answers to questions on what a slot has.
ghost use Rattle.std.specs.Prelude.{◌≡◌, take, drop};
ghost use Rattle.ctf_check.specs.CheckedView.{dictionary_of};
ghost use Rattle.ctf_library.specs.SlotView.{slot_of};
ghost use Rattle.ctf_protocol.specs.sessions.Opened.{open_of};
ghost use Rattle.ctf_protocol.specs.answers.HeldAnswers.{bytes_fields, held_answered, info_fields};

use crate::slots::Slot;
use ctf_answers::{Answer, InfoAnswer, Single};
use ctf_check::Checked;
use ctf_protocol::{HeldQuestion, model_name};

/// What a dictionary has in all, and how many additions to its draft are pending.
fn info<'a>(dictionary: &Checked<'a>, draft: bool, imported: bool, pending: usize) -> Answer<'a>
    ensures { result ≡ info_fields (dictionary_of dictionary.now) draft imported pending }
{
    Answer::info(InfoAnswer {
        child: dictionary.child(),
        draft,
        imported,
        labels: dictionary.labels().len() as u64,
        parlabel: dictionary.parlabel(),
        parname: dictionary.parname(),
        pending: pending as u64,
        types: dictionary.count() as u64,
    })
}

/// At most `count` bytes, beginning at `from`.
fn window(bytes: &[u8], from: u32, count: u32) -> &[u8]
    ensures { result.now ≡ take count (drop from bytes.now) }
{
    let behind = bytes.get(from as usize..).unwrap_or(&[]);
    behind.get(..count as usize).unwrap_or(behind)
}

/// Some bytes of a dictionary, and how many it has.
fn bytes<'a>(ctf: &'a [u8], from: u32, count: u32) -> Answer<'a>
    ensures { result ≡ bytes_fields from count ctf.now }
{
    Answer::two(
        "bytes",
        Single::Bytes(window(ctf, from, count)),
        "length",
        Single::Number(ctf.len() as u64),
    )
}

impl Slot {
    /// The answer to a question on what the slot has, without memory.
    pub(crate) fn answer_held<'a>(&'a self, question: HeldQuestion) -> Answer<'a>
        ensures { result ≡ held_answered question (open_of (slot_of self.now)) }
    {
        let own = self.dictionary.dictionary();
        match question {
            HeldQuestion::Info => info(
                &own,
                self.dictionary.is_drafted(),
                self.dictionary.is_imported(),
                self.dictionary.pending(),
            ),
            HeldQuestion::Model => {
                Answer::one("model", Single::Word(model_name(self.dictionary.model())))
            }
            HeldQuestion::Bytes { from, count } => bytes(self.dictionary.ctf(), from, count),
        }
    }
}
