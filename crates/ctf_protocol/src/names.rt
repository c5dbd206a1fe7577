//! Lists of names in requests.
use ctf_joined::Joined;
use std::marker::Model;

/// A list of names, at most `LONGEST_PIECE` of them, each of at most as many bytes.
#[derive(Drop)]
pub struct Names {
    names: Joined,
}

impl Model for Names {
    ghost use Rattle.std.specs.Prelude.{ℕ, List};
    ghost use Rattle.ctf_joined.specs.Joined.{texts};
    ghost use Rattle.ctf_protocol.specs.words.Short.{AreShort};

    ghost Value = { List (List ℕ) };

    ghost view = { λ n. texts n.names };

    ghost invariant = { λ n. AreShort (texts n.names) };
}

impl Names {
    ghost use Rattle.std.specs.Prelude.{◌≡◌};
    ghost use Rattle.ctf_joined.specs.Joined.{texts};
    ghost use Rattle.ctf_protocol.specs.words.Short.{AreShort};

    pub fn new(names: Joined) -> Names
        requires { AreShort (texts names) }
        ensures { result ≡ texts names }
    {
        Names { names }
    }

    pub fn as_joined(&self) -> &Joined
        ensures { texts result.now ≡ self.now }
    {
        &self.names
    }
}
