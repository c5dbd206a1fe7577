//! The kinds of types, and their words.
ghost use Rattle.std.specs.Prelude.{◌≡◌};
ghost use Rattle.ctf_model.specs.names.KindNames.{name_of_kind};

/// The kind of a type, in the order of their numbers 0 to 13 in sys/ctf.h.
#[derive(Clone, Copy, Debug, PartialEq, Eq)]
pub enum Kind {
    KUnknown,
    KInteger,
    KFloat,
    KPointer,
    KArray,
    KFunction,
    KStruct,
    KUnion,
    KEnum,
    KForward,
    KTypedef,
    KVolatile,
    KConst,
    KRestrict,
}

/// The word for a kind: its name in sys/ctf.h without the `CTF_K_`, in lower case.
pub fn kind_name(kind: Kind) -> &'static str
    ensures { result.now ≡ name_of_kind kind }
{
    match kind {
        Kind::KUnknown => "unknown",
        Kind::KInteger => "integer",
        Kind::KFloat => "float",
        Kind::KPointer => "pointer",
        Kind::KArray => "array",
        Kind::KFunction => "function",
        Kind::KStruct => "struct",
        Kind::KUnion => "union",
        Kind::KEnum => "enum",
        Kind::KForward => "forward",
        Kind::KTypedef => "typedef",
        Kind::KVolatile => "volatile",
        Kind::KConst => "const",
        Kind::KRestrict => "restrict",
    }
}
