//! What may be added to a draft, by the words of requests.
ghost use Rattle.std.specs.Prelude.{◌≡◌};
ghost use Rattle.ctf_protocol.specs.words.Addables.{addable_named};

/// What may be added to a draft: a type of one of the kinds, or a part of a type or of the
/// dictionary.
#[derive(Clone, Copy, Debug, PartialEq, Eq)]
pub enum Addable {
    Unknown,
    Integer,
    Float,
    Pointer,
    Array,
    Function,
    Struct,
    Union,
    Enum,
    Forward,
    Typedef,
    Volatile,
    Const,
    Restrict,
    Member,
    Enumerator,
    Label,
}

impl Addable {
    /// What a word of a request adds, if it adds something.
    pub fn of_word(word: &str) -> Option<Addable>
        ensures { result ≡ addable_named word.now }
    {
        match word {
            "unknown" => Some(Addable::Unknown),
            "integer" => Some(Addable::Integer),
            "float" => Some(Addable::Float),
            "pointer" => Some(Addable::Pointer),
            "array" => Some(Addable::Array),
            "function" => Some(Addable::Function),
            "struct" => Some(Addable::Struct),
            "union" => Some(Addable::Union),
            "enum" => Some(Addable::Enum),
            "forward" => Some(Addable::Forward),
            "typedef" => Some(Addable::Typedef),
            "volatile" => Some(Addable::Volatile),
            "const" => Some(Addable::Const),
            "restrict" => Some(Addable::Restrict),
            "member" => Some(Addable::Member),
            "enumerator" => Some(Addable::Enumerator),
            "label" => Some(Addable::Label),
            _ => None,
        }
    }
}
