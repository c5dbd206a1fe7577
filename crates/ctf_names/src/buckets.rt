//! The bucket of a name.
ghost use Rattle.std.specs.Prelude.{◌≡◌, ◌+◌, ◌*◌, ◌/◌, ◌^◌, ◌<◌, ◌≤◌, option_copied, Some};
ghost use Rattle.ctf_names.specs.Buckets.{bucket, bucket_of_short, longest_hashed};
ghost use Rattle.ctf_sections.specs.ShortNames.{if_short};

use ctf_order::hash;

/// The longest name that is hashed. At most so many bytes of each name are read to find its end and
/// to hash it, however names overlap.
pub(crate) const LONGEST_HASHED: usize = 2048;

/// The number of buckets for so many types: a bucket for each, one for the empty name, and one for
/// all names that are too long to be hashed.
pub(crate) fn bucket_count(types: usize) -> usize
    requires { types < 2 ^ 16 }
    ensures { result ≡ types + 2 }
{
    types + 2
}

/// A name, if it is short enough to be hashed.
pub(crate) fn hashable(name: &[u8]) -> Option<&[u8]>
    ensures { option_copied result ≡ if_short longest_hashed (Some name.now) }
{
    if name.len() <= LONGEST_HASHED {
        Some(name)
    } else {
        None
    }
}

/// The share of `count` that `number` is of 2^32.
#[tactic(auto, using(crate::proofs::Shares::share_fits, crate::proofs::Shares::share_inside))]
fn share(count: usize, number: u64) -> usize
    requires few { count < 2 ^ 16 }
    requires below { number < 2 ^ 32 }
    ensures is { result ≡ number * count / 2 ^ 32 }
    ensures inside { result ≤ count }
{
    ((number * count as u64) >> 32) as usize
}

/// The bucket of a name, for a dictionary of so many types. `None` is a name that is too long to be
/// hashed.
pub(crate) fn bucket_among(types: usize, name: Option<&[u8]>) -> usize
    requires few { types < 2 ^ 16 }
    ensures is { result ≡ bucket_of_short types (option_copied name.entry) }
    ensures inside { result < types + 2 }
{
    match name {
        Some(name) => {
            if name.is_empty() {
                types
            } else {
                share(types, hash(name))
            }
        }
        None => types + 1,
    }
}
