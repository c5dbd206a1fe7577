//! Extents in 8 bytes each, as most types have them.
ghost use Rattle.std.specs.Prelude.{◌≡◌};
ghost use Rattle.ctf_layout.specs.SmallExtents.{extent_of_small, wide_extent_at};

use crate::entry::KeptExtent;
use crate::extents::{Amount, Extent, Refusal, Target, refused};
use ctf_model::TypeNum;
use std::mem::size_of;

/// An extent in 8 bytes, or its place in the list of the wide ones.
#[derive(Clone, Copy, Debug, PartialEq, Eq)]
pub enum SmallExtent {
    /// A size and an alignment that fit.
    Known {
        align: u8,
        target: TypeNum,
        size: u32,
    },
    /// No size and no alignment, since the type is incomplete; and the type that it resolves to.
    Incomplete(TypeNum),
    /// Nothing, since there is no such type.
    NoType,
    /// Nothing, since there is no parent.
    NoParent,
    /// Any other, at this place in the list of the wide ones.
    Wide(u32),
}

/// How many bytes most types take in a layout.
const SMALL_LEN: usize = size_of::<SmallExtent>();

const _: [(); 8] = [(); SMALL_LEN];

impl SmallExtent {
    /// The extent that it is, beside the wide ones.
    #[inline(always)]
    pub fn extent(self, wide: &[KeptExtent]) -> Extent
        ensures { result ≡ extent_of_small wide.now self }
    {
        match self {
            SmallExtent::Known {
                align,
                target,
                size,
            } => Extent {
                size: Amount::Known(u64::from(size)),
                align: Amount::Known(u64::from(align)),
                target: Target::Known(target),
            },
            SmallExtent::Incomplete(target) => Extent {
                size: Amount::Refused(Refusal::Incomplete),
                align: Amount::Refused(Refusal::Incomplete),
                target: Target::Known(target),
            },
            SmallExtent::NoType => refused(Refusal::NoType),
            SmallExtent::NoParent => refused(Refusal::NoParent),
            SmallExtent::Wide(place) => wide_extent(wide, place as usize),
        }
    }
}

/// The extent at a place among the wide ones.
#[inline(always)]
pub fn wide_extent(wide: &[KeptExtent], place: usize) -> Extent
    ensures { result ≡ wide_extent_at wide.now place }
{
    match wide.get(place) {
        Some(entry) => entry.extent_or_missing(),
        None => refused(Refusal::NoType),
    }
}
