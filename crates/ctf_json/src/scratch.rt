//! The memory that reading a text takes, if it takes any.

use std::alloc::{AllocError, Global};

/// The memory that reading a text takes. It is allocated when a text first needs it, so texts that
/// are read in place cost nothing.
#[derive(Drop)]
pub struct Scratch {
    alloc: Global,
    kept: Option<Box<json::Scratch>>,
}

impl Scratch {
    /// No memory yet.
    pub fn new(alloc: Global) -> Scratch {
        Scratch { alloc, kept: None }
    }

    /// What its memory is taken from.
    pub(crate) fn allocator(&self) -> Global {
        self.alloc
    }

    /// The memory, for a reader to borrow.
    pub(crate) fn lend(&mut self) -> Result<&mut json::Scratch, AllocError> {
        match &mut self.kept {
            Some(scratch) => Ok(&mut **scratch),
            None => {
                let made = Box::new(self.alloc, json::Scratch::new(self.alloc))?;
                Ok(&mut **self.kept.insert(made))
            }
        }
    }
}
