//! Which lists are stored.

/// What a list at a key has to contain; any other list is not stored.
#[derive(Clone, Copy, Drop)]
pub enum Wanted {
    Texts,
    Numbers,
    Nothing,
}
