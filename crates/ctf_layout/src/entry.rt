//! Extents as they are found, and the wide ones as they are kept, each in 24 bytes.
ghost use Rattle.std.specs.Prelude.{◌≡◌, ℕ, List, None, Some};
ghost use Rattle.std.specs.Option.{ForSome};
ghost use Rattle.ctf_layout.specs.Kept.{amount_kept, extent_kept, extent_of_kept, target_kept, unless_open};
ghost use Rattle.ctf_layout.specs.SmallExtents.{extent_of_small};
ghost use Rattle.ctf_layout.specs.declared.entry.KeptExtent.{KeptExtent as WideExtent};
ghost use Rattle.ctf_layout.specs.declared.extents.Extent.{Extent as WholeExtent};
ghost use Rattle.ctf_layout.specs.declared.extents.Amount.TheVariants.{Known};
ghost use Rattle.ctf_layout.specs.declared.extents.Target.TheVariants as stands_for;

use crate::extents::{Amount, Extent, Refusal, Target};
use crate::small_extent::SmallExtent;
use ctf_model::TypeNum;
use std::mem::size_of;

/// Whether there is a number, or why there is none; or that the entry is still open.
#[derive(Clone, Copy, Debug, PartialEq, Eq)]
pub enum Standing {
    Open,
    Known,
    Incomplete,
    TooBig,
    NoType,
    NoParent,
}

/// The size, the alignment and the resolved type of a type, once they were computed.
#[derive(Clone, Copy, Debug, PartialEq, Eq)]
pub struct KeptExtent {
    size: u64,
    align: u64,
    target: TypeNum,
    sized: Standing,
    aligned: Standing,
    resolved: Standing,
}

/// How many bytes a type takes while a layout is built, and a wide one in it.
const ENTRY_LEN: usize = size_of::<KeptExtent>();

const _: [(); 24] = [(); ENTRY_LEN];

impl Standing {
    fn of(amount: Amount) -> (Standing, u64)
        ensures amount { amount_kept result.0 result.1 ≡ amount }
        ensures found { (e : WholeExtent) → unless_open result.0 e ≡ Some e }
    {
        match amount {
            Amount::Known(number) => (Standing::Known, number),
            Amount::Refused(Refusal::Incomplete) => (Standing::Incomplete, 0),
            Amount::Refused(Refusal::TooBig) => (Standing::TooBig, 0),
            Amount::Refused(Refusal::NoType) => (Standing::NoType, 0),
            Amount::Refused(Refusal::NoParent) => (Standing::NoParent, 0),
        }
    }

    fn of_target(target: Target) -> (Standing, TypeNum)
        ensures { target_kept result.0 result.1 ≡ target }
    {
        match target {
            Target::Known(number) => (Standing::Known, number),
            Target::Refused(Refusal::Incomplete) => (Standing::Incomplete, TypeNum(0)),
            Target::Refused(Refusal::TooBig) => (Standing::TooBig, TypeNum(0)),
            Target::Refused(Refusal::NoType) => (Standing::NoType, TypeNum(0)),
            Target::Refused(Refusal::NoParent) => (Standing::NoParent, TypeNum(0)),
        }
    }

    #[inline(always)]
    fn amount(self, number: u64) -> Amount
        ensures { result ≡ amount_kept self number }
    {
        match self {
            Standing::Open => Amount::Refused(Refusal::NoType),
            Standing::Known => Amount::Known(number),
            Standing::Incomplete => Amount::Refused(Refusal::Incomplete),
            Standing::TooBig => Amount::Refused(Refusal::TooBig),
            Standing::NoType => Amount::Refused(Refusal::NoType),
            Standing::NoParent => Amount::Refused(Refusal::NoParent),
        }
    }

    #[inline(always)]
    fn target(self, number: TypeNum) -> Target
        ensures { result ≡ target_kept self number }
    {
        match self {
            Standing::Open => Target::Refused(Refusal::NoType),
            Standing::Known => Target::Known(number),
            Standing::Incomplete => Target::Refused(Refusal::Incomplete),
            Standing::TooBig => Target::Refused(Refusal::TooBig),
            Standing::NoType => Target::Refused(Refusal::NoType),
            Standing::NoParent => Target::Refused(Refusal::NoParent),
        }
    }

    /// The extent, unless the entry is open.
    #[inline(always)]
    fn extent_unless_open(self, extent: Extent) -> Option<Extent>
        ensures { result ≡ unless_open self extent }
    {
        match self {
            Standing::Open => None,
            Standing::Known => Some(extent),
            Standing::Incomplete => Some(extent),
            Standing::TooBig => Some(extent),
            Standing::NoType => Some(extent),
            Standing::NoParent => Some(extent),
        }
    }
}

/// A size and an alignment in 8 bytes, if they fit.
#[inline(always)]
fn small_known(size: u64, align: u64, target: TypeNum) -> Option<SmallExtent>
    ensures { ForSome result (λ x. (wide : List WideExtent) → extent_of_small wide x
        ≡ record { size = Known size; align = Known align; target = stands_for.Known target }) }
{
    if size > 0xffff_ffff {
        return None;
    }
    if align > 0xff {
        return None;
    }
    Some(SmallExtent::Known {
        align: align as u8,
        target,
        size: size as u32,
    })
}

/// The same for an extent of which something is refused. It is out of line, so that the loop over
/// all types is short for most of them.
#[inline(never)]
fn small_refused(
    sized: Standing,
    aligned: Standing,
    resolved: Standing,
    target: TypeNum,
) -> Option<SmallExtent>
    ensures { ForSome result (λ x. (wide : List WideExtent) (size align : ℕ)
        → extent_of_small wide x ≡ record {
          size = amount_kept sized size;
          align = amount_kept aligned align;
          target = target_kept resolved target;
        }) }
{
    match (sized, aligned, resolved) {
        (Standing::Incomplete, Standing::Incomplete, Standing::Known) => {
            Some(SmallExtent::Incomplete(target))
        }
        (Standing::NoType, Standing::NoType, Standing::NoType) => Some(SmallExtent::NoType),
        (Standing::NoParent, Standing::NoParent, Standing::NoParent) => {
            Some(SmallExtent::NoParent)
        }
        _ => None,
    }
}

impl KeptExtent {
    /// An entry that is still to be computed.
    pub fn open() -> KeptExtent
        ensures { extent_kept result ≡ None }
    {
        KeptExtent {
            size: 0,
            align: 0,
            target: TypeNum(0),
            sized: Standing::Open,
            aligned: Standing::Open,
            resolved: Standing::Open,
        }
    }

    #[tactic(auto, using(crate::proofs::Entries::kept_whole))]
    pub fn new(extent: Extent) -> KeptExtent
        ensures { extent_kept result ≡ Some extent }
    {
        let (sized, size) = Standing::of(extent.size);
        let (aligned, align) = Standing::of(extent.align);
        let (resolved, target) = Standing::of_target(extent.target);
        KeptExtent {
            size,
            align,
            target,
            sized,
            aligned,
            resolved,
        }
    }

    /// The extent, if it was computed.
    #[inline(always)]
    pub fn extent(self) -> Option<Extent>
        ensures { result ≡ extent_kept self }
    {
        self.sized.extent_unless_open(self.extent_or_missing())
    }

    /// The extent; for an open entry, that of a missing type.
    #[inline(always)]
    pub fn extent_or_missing(self) -> Extent
        ensures { result ≡ extent_of_kept self }
    {
        Extent {
            size: self.sized.amount(self.size),
            align: self.aligned.amount(self.align),
            target: self.resolved.target(self.target),
        }
    }

    /// The same in 8 bytes, if it fits.
    #[inline(always)]
    pub fn to_small(self) -> Option<SmallExtent>
        ensures { ForSome result (λ x. (wide : List WideExtent) → extent_of_small wide x
            ≡ extent_of_kept self) }
    {
        match (self.sized, self.aligned, self.resolved) {
            (Standing::Known, Standing::Known, Standing::Known) => {
                small_known(self.size, self.align, self.target)
            }
            _ => small_refused(self.sized, self.aligned, self.resolved, self.target),
        }
    }

    /// The alignment that was computed.
    #[inline(always)]
    pub fn alignment(self) -> Amount
        ensures { (e : WholeExtent) → extent_kept self ≡ Some e → result ≡ e.align }
    {
        self.aligned.amount(self.align)
    }
}
