//! Sizes, alignments and resolved types, together.
ghost use Rattle.std.specs.Prelude.{◌≡◌};
ghost use Rattle.std.specs.Result.{result_map_both};
ghost use Rattle.ctf_layout.specs.Extents.{amount as amount_of, code_of, of_no_type as no_type_extent, refusal_extent as refused_extent, target as target_of};

use ctf_model::{Fault, TypeNum, placeless};

/// Why a type has no size, or no alignment.
#[derive(Clone, Copy, Debug, PartialEq, Eq)]
pub enum Refusal {
    Incomplete,
    TooBig,
    NoType,
    NoParent,
}

/// A size or an alignment, or why there is none.
#[derive(Clone, Copy, Debug, PartialEq, Eq)]
pub enum Amount {
    Known(u64),
    Refused(Refusal),
}

/// The type that a type resolves to, or why there is none.
#[derive(Clone, Copy, Debug, PartialEq, Eq)]
pub enum Target {
    Known(TypeNum),
    Refused(Refusal),
}

/// The size and the alignment of a type, in bytes, and the type that it resolves to.
#[derive(Clone, Copy, Debug, PartialEq, Eq)]
pub struct Extent {
    pub size: Amount,
    pub align: Amount,
    pub target: Target,
}

impl Refusal {
    #[inline(always)]
    fn code(self) -> u16
        ensures { result ≡ code_of self }
    {
        match self {
            Refusal::Incomplete => Fault::INCOMPLETE,
            Refusal::TooBig => Fault::TOO_BIG,
            Refusal::NoType => Fault::NO_TYPE,
            Refusal::NoParent => Fault::NO_PARENT,
        }
    }
}

impl Amount {
    /// The number, or the fault.
    #[inline(always)]
    pub fn get(self) -> Result<u64, Fault>
        ensures { result ≡ amount_of self }
    {
        match self {
            Amount::Known(number) => Ok(number),
            Amount::Refused(refusal) => Err(placeless(refusal.code())),
        }
    }
}

impl Target {
    /// The type, or the fault.
    #[inline(always)]
    pub fn get(self) -> Result<TypeNum, Fault>
        ensures { result_map_both (λ t. t.0) (λ f. f) result ≡ target_of self }
    {
        match self {
            Target::Known(number) => Ok(number),
            Target::Refused(refusal) => Err(placeless(refusal.code())),
        }
    }
}

/// No size, no alignment and no resolved type, for this reason.
#[inline(always)]
pub fn refused(refusal: Refusal) -> Extent
    ensures { result ≡ refused_extent refusal }
{
    Extent {
        size: Amount::Refused(refusal),
        align: Amount::Refused(refusal),
        target: Target::Refused(refusal),
    }
}

/// The extent of the number 0, which is no type and resolves to itself.
#[inline(always)]
pub fn of_no_type() -> Extent
    ensures { result ≡ no_type_extent }
{
    Extent {
        size: Amount::Refused(Refusal::Incomplete),
        align: Amount::Refused(Refusal::Incomplete),
        target: Target::Known(TypeNum(0)),
    }
}
