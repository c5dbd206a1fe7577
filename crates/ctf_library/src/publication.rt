//! A dictionary that a session published.

use ctf_open::Loaded;

/// A published dictionary. `turn` is the number of dictionaries that the session had published
/// before.
#[derive(Drop)]
pub struct Publication {
    pub(crate) turn: u64,
    pub(crate) loaded: Loaded,
}
