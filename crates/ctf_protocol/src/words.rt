//! The words of requests.
ghost use Rattle.std.specs.Prelude.{◌≡◌, map};
ghost use Rattle.ctf_protocol.specs.words.Words.{words as all_words, word_named};

use crate::questions::{HeldQuestion, PlainQuestion};

/// The meaning of a word, before the other fields are read.
#[derive(Clone, Copy, Debug, PartialEq, Eq)]
pub enum Word {
    Part,
    Check,
    Open,
    Clear,
    Reset,
    Close,
    Import,
    Publish,
    Withdraw,
    Take,
    Create,
    Add,
    Update,
    Discard,
    /// A question on a type, without fields of its own.
    Plain(PlainQuestion),
    Members,
    Enumerators,
    Find,
    Path,
    Show,
    Symbol,
    Object,
    Function,
    Labels,
    Label,
    /// A question on what a slot holds, without fields of its own.
    Held(HeldQuestion),
    Bytes,
}

/// Every word, as lines spell it. The definition reads this table too.
pub const WORDS: [(&str, Word); 38] = [
    ("part", Word::Part),
    ("check", Word::Check),
    ("open", Word::Open),
    ("clear", Word::Clear),
    ("reset", Word::Reset),
    ("close", Word::Close),
    ("import", Word::Import),
    ("publish", Word::Publish),
    ("withdraw", Word::Withdraw),
    ("take", Word::Take),
    ("create", Word::Create),
    ("add", Word::Add),
    ("update", Word::Update),
    ("discard", Word::Discard),
    ("kind", Word::Plain(PlainQuestion::Kind)),
    ("record", Word::Plain(PlainQuestion::Record)),
    ("members", Word::Members),
    ("enumerators", Word::Enumerators),
    ("args", Word::Plain(PlainQuestion::Args)),
    ("array", Word::Plain(PlainQuestion::Array)),
    ("encoding", Word::Plain(PlainQuestion::Encoding)),
    ("reference", Word::Plain(PlainQuestion::Reference)),
    ("resolve", Word::Plain(PlainQuestion::Resolve)),
    ("size", Word::Plain(PlainQuestion::Size)),
    ("align", Word::Plain(PlainQuestion::Align)),
    ("name", Word::Plain(PlainQuestion::Name)),
    ("pointer", Word::Plain(PlainQuestion::Pointer)),
    ("find", Word::Find),
    ("path", Word::Path),
    ("show", Word::Show),
    ("symbol", Word::Symbol),
    ("object", Word::Object),
    ("function", Word::Function),
    ("labels", Word::Labels),
    ("label", Word::Label),
    ("info", Word::Held(HeldQuestion::Info)),
    ("model", Word::Held(HeldQuestion::Model)),
    ("bytes", Word::Bytes),
];

/// The word with this spelling, in a table.
fn find(table: &[(&str, Word)], text: &str) -> Option<Word>
    ensures { result ≡ word_named text.now (map (λ row. (row.1, row.0.now)) table.now) }
{
    for row in table {
        if text == row.0 {
            return Some(row.1);
        }
    }
    None
}

impl Word {
    /// The word with this spelling.
    #[tactic(auto, unfolding(crate::specs::words::Words::words))]
    pub fn of_text(text: &str) -> Option<Word>
        ensures { result ≡ word_named text.now all_words }
    {
        find(&WORDS, text)
    }
}
