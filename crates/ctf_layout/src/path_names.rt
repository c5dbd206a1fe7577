//! The names of a path, in any form.
ghost use Rattle.std.specs.Prelude.{◌≡◌, ◌<◌, ℕ, List, [], get_or, length, map};
ghost use Rattle.ctf_joined.specs.Joined.{texts};

use ctf_joined::Joined;

/// Names, as lists of bytes.
pub trait PathNames {
    ghost names_of: { Self → List (List ℕ) };

    /// How many names there are.
    fn count(&self) -> usize
        ensures { result ≡ length (names_of self.now) };

    /// The name at an index.
    fn name(&self, place: usize) -> &[u8]
        requires { place < length (names_of self.now) }
        ensures { result.now ≡ get_or (names_of self.now) place [] };
}

impl<'n, 'a> PathNames for &'n [&'a [u8]] {
    ghost names_of = { λ names. map (λ name. name.now) names.now };

    fn count(&self) -> usize {
        self.len()
    }

    fn name(&self, place: usize) -> &[u8] {
        self[place]
    }
}

impl PathNames for Joined {
    ghost names_of = { texts };

    fn count(&self) -> usize {
        self.len()
    }

    fn name(&self, place: usize) -> &[u8] {
        self.text(place)
    }
}
