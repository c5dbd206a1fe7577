//! What the entry of a function says.

use ctf_model::TypeNum;
use ctf_views::Args;

/// What a function returns, and its arguments as stored, with a last 0.
#[derive(Drop)]
pub struct Signature<'a> {
    pub ret: TypeNum,
    pub args: Args<'a>,
}
