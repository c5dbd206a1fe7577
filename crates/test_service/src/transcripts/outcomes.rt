//! Input lines, and the replies that are expected.

use crate::serving::serve_all;
use std::alloc::{AllocError, Global};

/// Input lines, and the replies that are expected.
#[derive(Drop)]
pub struct Exchange {
    pub input: Vec<u8>,
    pub want: Vec<u8>,
}

impl Exchange {
    pub fn new(alloc: Global) -> Exchange {
        Exchange {
            input: Vec::new(alloc),
            want: Vec::new(alloc),
        }
    }

    /// Appends requests and their replies.
    pub fn append(&mut self, more: &Exchange) -> Result<(), AllocError> {
        self.input.extend_from_slice(&more.input)?;
        self.want.extend_from_slice(&more.want)
    }

    /// Whether a run over the lines writes exactly the replies.
    pub fn are_answered(&self, alloc: Global) -> bool {
        let (end, written) = serve_all(alloc, &self.input);
        end.is_ok() && written.as_slice() == self.want.as_slice()
    }
}
