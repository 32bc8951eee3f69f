//! An entry of the journal.

use arrayvec::ArrayVec;
use mt_names::{MAX_SHARDS, Position, WorkflowName};

/// What stands in the journal of one switch or reversal of writes. (Vitess: a row of `resharding_journal`, with the
/// positions at which the streams were stopped)
#[derive(Debug, Drop, Eq, PartialEq)]
pub struct JournalEntry {
    /// The number of the switch or reversal, by which it is told from all others.
    pub id: u64,
    /// The workflow whose writes it switches.
    pub workflow: WorkflowName,
    /// Whether it is a reversal.
    pub back: bool,
    /// The position of the source's primary.
    pub source_position: Position,
    /// The positions of the target's primaries, in the order of its shards.
    pub target_positions: ArrayVec<Position, MAX_SHARDS>,
}
