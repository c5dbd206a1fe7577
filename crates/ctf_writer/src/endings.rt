//! The last two bytes of names, by which most other names are told apart without a search.
ghost use Rattle.std.specs.Prelude.{◌≡◌, ◌<◌, ℕ, List, true, vec_len, IfOk};
ghost use Rattle.ctf_writer.specs.Endings.{is_marked, place_of};

use std::alloc::{AllocError, Global};
use std::marker::Model;

/// How many endings are told apart.
const ENDINGS: usize = 4_096;

/// The place of a name's ending; that of a shorter name is 0.
#[tactic(auto, unfolding(crate::specs::Endings::place_of))]
fn place(name: &[u8]) -> usize
    ensures exact { result ≡ place_of name.now }
    ensures inside { result < 4096 }
{
    let len = name.len();
    if len < 2 {
        return 0;
    }
    usize::from(name[len - 1]) % 64 * 64 + usize::from(name[len - 2]) % 64
}

/// So many marks, none of which is set.
fn no_marks(alloc: Global, count: usize) -> Result<Vec<bool>, AllocError>
    ensures { IfOk result (λ marks. vec_len marks ≡ count) }
{
    let mut marks = Vec::new(alloc);
    marks.resize(count, false)?;
    Ok(marks)
}

/// The endings of some names.
#[derive(Drop)]
pub(crate) struct Endings {
    marks: Vec<bool>,
}

impl Model for Endings {
    ghost use Rattle.std.specs.Prelude.{◌≡◌, Bool, List, vec_len};

    ghost Value = { List Bool };

    ghost view = { λ e. e.marks.items };

    ghost invariant = { λ e. vec_len e.marks ≡ 4096 };
}

impl Endings {
    /// A table without endings.
    pub(crate) fn new(alloc: Global) -> Result<Endings, AllocError> {
        let marks = no_marks(alloc, ENDINGS)?;
        Ok(Endings { marks })
    }

    /// Adds the ending of a name.
    pub(crate) fn add(&mut self, name: &[u8])
        ensures added { is_marked self.new name.now ≡ true }
        ensures kept { (other : List ℕ) → is_marked self.old other ≡ true
            → is_marked self.new other ≡ true }
    {
        let place = place(name);
        self.marks[place] = true;
    }

    /// Whether a name has one of the endings.
    pub(crate) fn has(&self, name: &[u8]) -> bool
        ensures { result ≡ is_marked self.now name.now }
    {
        self.marks[place(name)]
    }
}
