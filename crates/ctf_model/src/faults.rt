//! Faults: what was refused, and where.
ghost use Rattle.std.specs.Prelude.{◌≡◌};
ghost use Rattle.ctf_model.specs.rules.FaultNames.{name_of_fault};

use std::alloc::AllocError;

/// A refusal: its code, and its place (0 if it has none).
///
/// What the place counts depends on the code; docs/FAULTS.md has the table.
#[derive(Clone, Copy, Debug, PartialEq, Eq)]
pub struct Fault {
    pub code: u16,
    pub place: u64,
}

impl Fault {
    pub const MEMORY: u16 = 0;

    pub const TOO_SHORT: u16 = 1;

    pub const BAD_MAGIC: u16 = 2;

    pub const BAD_VERSION: u16 = 3;

    pub const COMPRESSED: u16 = 4;

    pub const SHORT_HEADER: u16 = 5;

    pub const BAD_ORDER: u16 = 6;

    pub const BAD_ALIGN: u16 = 7;

    pub const PAST_END: u16 = 8;

    pub const BAD_STRINGS: u16 = 9;

    pub const TRUNCATED: u16 = 10;

    pub const BAD_KIND: u16 = 11;

    pub const TOO_MANY: u16 = 12;

    pub const BAD_NAME: u16 = 13;

    pub const BAD_REFERENCE: u16 = 14;

    pub const VALUE_DEEP: u16 = 15;

    pub const DECL_DEEP: u16 = 16;

    pub const BAD_FUNCS: u16 = 17;

    pub const BAD_SYMBOL_TYPE: u16 = 18;

    pub const BAD_SYMTAB: u16 = 19;

    pub const NOT_CHILD: u16 = 20;

    pub const PARENT_IS_CHILD: u16 = 21;

    pub const PARENT_SHORT: u16 = 22;

    pub const NO_PARENT: u16 = 23;

    pub const NO_TYPE: u16 = 24;

    pub const NOT_REFERENCE: u16 = 25;

    pub const INCOMPLETE: u16 = 26;

    pub const TOO_BIG: u16 = 27;

    pub const NO_MEMBER: u16 = 28;

    pub const NOT_AGGREGATE: u16 = 29;

    pub const WRONG_KIND: u16 = 30;

    pub const TOO_LONG: u16 = 31;

    pub const NOT_FOUND: u16 = 32;

    pub const BAD_SYNTAX: u16 = 33;

    pub const NO_SYMBOL: u16 = 34;

    pub const NOT_DATA: u16 = 35;

    pub const NOT_FUNCTION: u16 = 36;

    pub const NO_INFO: u16 = 37;

    pub const NO_LABEL: u16 = 38;

    pub const BAD_REF: u16 = 39;

    pub const FULL: u16 = 40;

    pub const DUPLICATE: u16 = 41;

    pub const SETTLED: u16 = 42;

    pub const VLEN_FULL: u16 = 43;

    pub const DEEP_MEMBER: u16 = 44;

    pub const BAD_OFFSET: u16 = 45;

    pub const NAME_HAS_ZERO: u16 = 46;

    pub const DICT_TOO_BIG: u16 = 47;

    pub const SHORT_MEMORY: u16 = 48;

    pub const NO_SLOT: u16 = 49;

    pub const SLOTS_FULL: u16 = 50;

    pub const STAGE_FULL: u16 = 51;

    pub const READ_ONLY: u16 = 52;

    pub const NAME_TAKEN: u16 = 53;

    pub const NOT_PUBLISHED: u16 = 54;

    pub const NOT_UPDATED: u16 = 55;

    pub const LONG_REPLY: u16 = 56;

    pub const NOT_JSON: u16 = 57;

    pub const BAD_REQUEST: u16 = 58;

    pub const LONG_LINE: u16 = 59;

    pub const MODEL_DIFFERS: u16 = 60;

    pub const QUOTA_FULL: u16 = 61;

    pub const FIXED_PARENT: u16 = 62;
}

/// The name of a code, as replies and messages show it; empty for a code without a name.
#[tactic(auto, unfolding(crate::specs::rules::FaultNames::name_of_fault))]
pub fn fault_name(code: u16) -> &'static str
    ensures { result.now ≡ name_of_fault code }
{
    match code {
        Fault::MEMORY => "Memory",
        Fault::TOO_SHORT => "TooShort",
        Fault::BAD_MAGIC => "BadMagic",
        Fault::BAD_VERSION => "BadVersion",
        Fault::COMPRESSED => "Compressed",
        Fault::SHORT_HEADER => "ShortHeader",
        Fault::BAD_ORDER => "BadOrder",
        Fault::BAD_ALIGN => "BadAlign",
        Fault::PAST_END => "PastEnd",
        Fault::BAD_STRINGS => "BadStrings",
        Fault::TRUNCATED => "Truncated",
        Fault::BAD_KIND => "BadKind",
        Fault::TOO_MANY => "TooMany",
        Fault::BAD_NAME => "BadName",
        Fault::BAD_REFERENCE => "BadReference",
        Fault::VALUE_DEEP => "ValueDeep",
        Fault::DECL_DEEP => "DeclDeep",
        Fault::BAD_FUNCS => "BadFuncs",
        Fault::BAD_SYMBOL_TYPE => "BadSymbolType",
        Fault::BAD_SYMTAB => "BadSymtab",
        Fault::NOT_CHILD => "NotChild",
        Fault::PARENT_IS_CHILD => "ParentIsChild",
        Fault::PARENT_SHORT => "ParentShort",
        Fault::NO_PARENT => "NoParent",
        Fault::NO_TYPE => "NoType",
        Fault::NOT_REFERENCE => "NotReference",
        Fault::INCOMPLETE => "Incomplete",
        Fault::TOO_BIG => "TooBig",
        Fault::NO_MEMBER => "NoMember",
        Fault::NOT_AGGREGATE => "NotAggregate",
        Fault::WRONG_KIND => "WrongKind",
        Fault::TOO_LONG => "TooLong",
        Fault::NOT_FOUND => "NotFound",
        Fault::BAD_SYNTAX => "BadSyntax",
        Fault::NO_SYMBOL => "NoSymbol",
        Fault::NOT_DATA => "NotData",
        Fault::NOT_FUNCTION => "NotFunction",
        Fault::NO_INFO => "NoInfo",
        Fault::NO_LABEL => "NoLabel",
        Fault::BAD_REF => "BadRef",
        Fault::FULL => "Full",
        Fault::DUPLICATE => "Duplicate",
        Fault::SETTLED => "Settled",
        Fault::VLEN_FULL => "VlenFull",
        Fault::DEEP_MEMBER => "DeepMember",
        Fault::BAD_OFFSET => "BadOffset",
        Fault::NAME_HAS_ZERO => "NameHasZero",
        Fault::DICT_TOO_BIG => "DictTooBig",
        Fault::SHORT_MEMORY => "ShortMemory",
        Fault::NO_SLOT => "NoSlot",
        Fault::SLOTS_FULL => "SlotsFull",
        Fault::STAGE_FULL => "StageFull",
        Fault::READ_ONLY => "ReadOnly",
        Fault::NAME_TAKEN => "NameTaken",
        Fault::NOT_PUBLISHED => "NotPublished",
        Fault::NOT_UPDATED => "NotUpdated",
        Fault::LONG_REPLY => "LongReply",
        Fault::NOT_JSON => "NotJson",
        Fault::BAD_REQUEST => "BadRequest",
        Fault::LONG_LINE => "LongLine",
        Fault::MODEL_DIFFERS => "ModelDiffers",
        Fault::QUOTA_FULL => "QuotaFull",
        Fault::FIXED_PARENT => "FixedParent",
        _ => "",
    }
}

/// A fault without a place (0).
pub fn placeless(code: u16) -> Fault
    ensures { result ≡ record { code = code; place = 0 } }
{
    Fault { code, place: 0 }
}

/// Memory was refused.
impl From<AllocError> for Fault {
    ghost use Rattle.std.specs.Prelude.{◌≡◌};
    ghost use Rattle.ctf_model.specs.rules.Refusals.{out_of_memory};

    ghost from_gives = { λ _ f. f ≡ out_of_memory };

    fn from(_: AllocError) -> Fault {
        placeless(Fault::MEMORY)
    }
}
