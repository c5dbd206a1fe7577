//! The reply to one request.

use crate::answers::Answer;
use ctf_protocol::Fault;

/// The reply to one request: the session that it goes to, and the answer or the refusal.
#[derive(Drop)]
pub struct Reply<'a> {
    pub session: u32,
    pub outcome: Result<Answer<'a>, Fault>,
}
