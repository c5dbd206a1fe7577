//! Symbols and labels, one after the other.
ghost use Rattle.std.specs.Prelude.{◌≡◌, ◌≤◌, length, drop};

/// The symbols after the first one.
pub(crate) fn behind_symbol(sym: &[u8]) -> &[u8]
    requires { 24 ≤ length sym.now }
    ensures { result.now ≡ drop 24 sym.now }
{
    let (_, behind) = sym.split_at(24);
    behind
}

/// The labels after the first one.
pub(crate) fn behind_label(labels: &[u8]) -> &[u8]
    requires { 8 ≤ length labels.now }
    ensures { result.now ≡ drop 8 labels.now }
{
    let (_, behind) = labels.split_at(8);
    behind
}
