//! What names may be.
ghost use Rattle.std.specs.Prelude.{◌≡◌};
ghost use Rattle.ctf_model.specs.drafts.Drafts.{has_zero as has_zero_in};

/// Whether a zero byte stands in a name.
pub(crate) fn has_zero(name: &[u8]) -> bool
    ensures { result ≡ has_zero_in name.now }
{
    name.contains(&0)
}
