//! The words of requests, found by their spelling.
ghost use Rattle.std.specs.Prelude.{◌≡◌};
ghost use Rattle.ctf_protocol.specs.words.Words.{word_named, words};

use ctf_protocol::{HeldQuestion, PlainQuestion, Word};

/// The word with this spelling. The most frequent words are compared first.
#[inline(always)]
#[tactic(auto, unfolding(ctf_protocol::specs::words::Words::words))]
pub(crate) fn word_of(text: &str) -> Option<Word>
    ensures { result ≡ word_named text.now words }
{
    match text.as_bytes() {
        b"kind" => Some(Word::Plain(PlainQuestion::Kind)),
        b"size" => Some(Word::Plain(PlainQuestion::Size)),
        b"find" => Some(Word::Find),
        _ => word_by_length(text),
    }
}

/// The word with this spelling, among those of its length.
#[inline(never)]
fn word_by_length(text: &str) -> Option<Word>
    ensures { result ≡ word_named text.now words }
{
    match text.len() {
        4 => word_of_four(text),
        5 => word_of_five(text),
        6 => word_of_six(text),
        7 => word_of_seven(text),
        _ => word_of_other(text),
    }
}

/// The word of four letters with this spelling; else any word.
#[tactic(auto, unfolding(ctf_protocol::specs::words::Words::words))]
fn word_of_four(text: &str) -> Option<Word>
    ensures { result ≡ word_named text.now words }
{
    match text {
        "part" => Some(Word::Part),
        "open" => Some(Word::Open),
        "take" => Some(Word::Take),
        "info" => Some(Word::Held(HeldQuestion::Info)),
        "name" => Some(Word::Plain(PlainQuestion::Name)),
        "path" => Some(Word::Path),
        "show" => Some(Word::Show),
        "args" => Some(Word::Plain(PlainQuestion::Args)),
        _ => Word::of_text(text),
    }
}

/// The word of five letters with this spelling; else any word.
#[tactic(auto, unfolding(ctf_protocol::specs::words::Words::words))]
fn word_of_five(text: &str) -> Option<Word>
    ensures { result ≡ word_named text.now words }
{
    match text {
        "reset" => Some(Word::Reset),
        "close" => Some(Word::Close),
        "check" => Some(Word::Check),
        "clear" => Some(Word::Clear),
        "label" => Some(Word::Label),
        "bytes" => Some(Word::Bytes),
        "model" => Some(Word::Held(HeldQuestion::Model)),
        "array" => Some(Word::Plain(PlainQuestion::Array)),
        "align" => Some(Word::Plain(PlainQuestion::Align)),
        _ => Word::of_text(text),
    }
}

/// The word of six letters with this spelling; else any word.
#[tactic(auto, unfolding(ctf_protocol::specs::words::Words::words))]
fn word_of_six(text: &str) -> Option<Word>
    ensures { result ≡ word_named text.now words }
{
    match text {
        "record" => Some(Word::Plain(PlainQuestion::Record)),
        "symbol" => Some(Word::Symbol),
        "create" => Some(Word::Create),
        "update" => Some(Word::Update),
        "import" => Some(Word::Import),
        "labels" => Some(Word::Labels),
        "object" => Some(Word::Object),
        _ => Word::of_text(text),
    }
}

/// The word of seven letters with this spelling; else any word.
#[tactic(auto, unfolding(ctf_protocol::specs::words::Words::words))]
fn word_of_seven(text: &str) -> Option<Word>
    ensures { result ≡ word_named text.now words }
{
    match text {
        "members" => Some(Word::Members),
        "publish" => Some(Word::Publish),
        "discard" => Some(Word::Discard),
        "resolve" => Some(Word::Plain(PlainQuestion::Resolve)),
        "pointer" => Some(Word::Plain(PlainQuestion::Pointer)),
        _ => Word::of_text(text),
    }
}

/// The word of any other length with this spelling; else any word.
#[tactic(auto, unfolding(ctf_protocol::specs::words::Words::words))]
fn word_of_other(text: &str) -> Option<Word>
    ensures { result ≡ word_named text.now words }
{
    match text {
        "add" => Some(Word::Add),
        "function" => Some(Word::Function),
        "encoding" => Some(Word::Plain(PlainQuestion::Encoding)),
        "reference" => Some(Word::Plain(PlainQuestion::Reference)),
        "enumerators" => Some(Word::Enumerators),
        "withdraw" => Some(Word::Withdraw),
        _ => Word::of_text(text),
    }
}
