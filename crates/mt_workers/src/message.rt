//! What a worker tells of one of its lines.

use mt_event::{Refusal, Reply};

/// What a worker tells of one of its lines: the last answer that it got to it.
#[derive(Debug, Drop, Eq, PartialEq)]
pub struct Message {
    /// The worker, from 0.
    pub worker: u16,
    /// Its line, from 0.
    pub line: u64,
    /// The answer.
    pub reply: Result<Reply, Refusal>,
}
