//! The lengths of a type's name.
use crate::name_lengths::NameLengths;
use ctf_model::{Fault, Layer, TypeNum};

/// The lengths of a name: of its parts, or why it has none; and the number of layers around the
/// innermost name.
#[derive(Clone, Copy)]
pub struct Measured {
    pub layers: u32,
    pub lengths: Result<NameLengths, Fault>,
}

/// What a type adds to its own name.
#[derive(Clone, Copy)]
pub enum Step {
    /// The innermost name, or the fault at the end.
    End(Result<NameLengths, Fault>),
    /// A layer around another type.
    Round(Layer, TypeNum),
}
