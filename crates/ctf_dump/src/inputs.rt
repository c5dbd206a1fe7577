//! The input of a dump: files that were read.
use ctf_model::{Bytes, DataModel};

/// A file that was read: its name and its bytes.
#[derive(Drop)]
pub struct InputFile<'a> {
    pub name: &'a str,
    pub bytes: Bytes,
}

/// The files of a dump: a dictionary, and optionally its parent, and the symbol table of its
/// program with that table's strings. The data model holds for the dictionary and the parent.
#[derive(Drop)]
pub struct Inputs<'a> {
    pub ctf: InputFile<'a>,
    pub parent: Option<InputFile<'a>>,
    pub sym: Option<InputFile<'a>>,
    pub str: Option<InputFile<'a>>,
    pub model: DataModel,
}
