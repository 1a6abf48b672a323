use std::alloc::Global;
use transcript::{Replies, ReplyFault};

/// The replies of a short file.
pub(crate) fn short_replies(alloc: Global, file: &str) -> Result<Replies, ReplyFault> {
    if file.len() > 1000 {
        return Err(ReplyFault::Memory);
    }
    Replies::read(alloc, file.as_bytes())
}
