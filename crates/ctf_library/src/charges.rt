//! The bytes of a session's dictionaries, and their limit.
//!
//! The sums are of `u128`: the lengths of three lists, each of which memory has room for, may not
//! fit in 64 bits.
ghost use Rattle.std.specs.Prelude.{◌≡◌, ◌+◌, ◌<◌, ◌^◌, nat_lt, not};
ghost use Rattle.ctf_library.specs.SlotView.{slot_of};
ghost use Rattle.ctf_protocol.specs.sessions.Charges.{slot_bytes};
ghost use Rattle.ctf_model.specs.opened.Sizes.{parent_bytes};
ghost use Rattle.ctf_protocol.specs.sessions.Outcomes.{quota};

use crate::slots::Slot;

/// The greatest charge that a library may have after a request.
pub(crate) const QUOTA: u128 = 268_435_456;

/// Whether a charge may grow by so much.
pub(crate) fn fits(charge: u128, by: u128) -> bool
    ensures { result ≡ not (nat_lt quota (charge + by)) }
{
    by <= QUOTA && charge <= QUOTA - by
}

impl Slot {
    /// How many bytes its parent has, if it has one.
    pub(crate) fn parent_bytes(&self) -> u128
        ensures count { result ≡ parent_bytes (slot_of self.now).parent }
        ensures small { result < 2 ^ 66 }
    {
        self.dictionary.parent_bytes()
    }

    /// The bytes of its dictionary and its parent.
    #[inline(always)]
    pub(crate) fn bytes(&self) -> u128
        ensures { result ≡ slot_bytes (slot_of self.now) }
    {
        self.dictionary.bytes()
    }
}
