//! The names that a dictionary uses, each once.
ghost use Rattle.std.specs.Prelude.{◌≡◌, ℕ, [], List, map, length, false, true, position, IfOk, OnOk};
ghost use Rattle.std.specs.List.{list_any, IsDistinct};
ghost use Rattle.std.specs.Str.{bytes_eq};
ghost use Rattle.ctf_model.specs.writing.WrittenNames.{is_empty};
ghost use Rattle.ctf_writer.specs.Offsets.{with_name};

use indexmap::IndexSet;
use std::alloc::{AllocError, Global};

/// Names in the order of their first use. None is empty.
#[derive(Drop)]
pub(crate) struct UsedNames<'a> {
    names: IndexSet<&'a [u8]>,
    ghost filled: { list_any (λ name. is_empty name.now) names.keys ≡ false },
}

impl<'a> UsedNames<'a> {
    ghost use Rattle.ctf_writer.specs.UsedView.{used_names};

    /// No names, with room for so many.
    pub(crate) fn new(alloc: Global, count: usize) -> Result<UsedNames<'a>, AllocError>
        ensures { IfOk result (λ u. used_names u ≡ []) }
    {
        let names = IndexSet::with_capacity(alloc, count)?;
        Ok(UsedNames { names })
    }

    /// Adds a name, unless it is empty or was added before.
    pub(crate) fn add(&mut self, name: &'a [u8]) -> Result<(), AllocError>
        ensures { OnOk result (used_names self.new ≡ with_name (used_names self.old) name.now) }
    {
        if name.is_empty() {
            return Ok(());
        }
        self.push(name)
    }

    /// Adds a name that is not empty, unless it was added before.
    fn push(&mut self, name: &'a [u8]) -> Result<(), AllocError>
        requires { is_empty name.now ≡ false }
        ensures { OnOk result (used_names self.new ≡ with_name (used_names self.old) name.now) }
    {
        let Ok(_) = self.names.insert(name) else {
            return Err(AllocError);
        };
        Ok(())
    }

    /// The number of a name, counted from 0.
    pub(crate) fn index(&self, name: &[u8]) -> Option<usize>
        ensures { result ≡ position (bytes_eq name.now) (used_names self.now) }
    {
        self.names.get_index_of(name)
    }

    /// The names themselves.
    pub(crate) fn as_slice(&self) -> &[&'a [u8]]
        ensures names { map (λ name. name.now) result.now ≡ used_names self.now }
        ensures once { IsDistinct (λ a b. bytes_eq a.now b.now) result.now }
        ensures filled { list_any (λ name. is_empty name.now) result.now ≡ false }
    {
        self.names.as_slice()
    }
}
