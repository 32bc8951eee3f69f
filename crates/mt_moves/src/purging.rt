//! Logs are purged below what the streams that read them have still to read.
ghost use Rattle.std.specs.Prelude.{◌≡◌, ◌<◌, if◌then◌else◌, length, map, option_copied};
ghost use Rattle.mt_stands.specs.Purges.{first_needed, has_whole_segments, least_at, least_of, least_with, purged_from, without_unneeded};
ghost use Rattle.mt_moves.specs.Places.{with_purge_at};

use crate::{Primaries, Workflows};
use mt_names::{KeyspaceName, Position};
use mt_primary::Primary;
use mt_stream::{Stream, StreamState};
use mt_workflow::{Slot, Workflow};

/// The entries of a log that go at once.
const SEGMENT: u64 = 256;

/// A position, or that of a stream that reads the log of some side's shard, if it is less, and that is the log of a shard of a
/// keyspace, and the stream is in use.
fn least_with(
    keyspace: &KeyspaceName,
    shard: usize,
    side: &KeyspaceName,
    read: u8,
    stream: Option<&Stream>,
    least: Position,
) -> Position
    ensures { result ≡ least_with keyspace.now shard side.now read (option_copied stream.entry) least }
{
    match stream {
        Some(stream)
            if keyspace == side
                && usize::from(read) == shard
                && stream.state() != StreamState::Frozen => { least.min(stream.position()) }
        _ => least,
    }
}

/// A position, or that of a stream of a lane of a workflow, if it is less, and the stream reads the log of a keyspace's shard and is
/// in use: the one reads the source's log, which is one for all lanes, the other that of the lane's shard.
fn least_at(
    keyspace: &KeyspaceName,
    shard: usize,
    workflow: &Workflow,
    least: Position,
    lane: u8,
) -> Position
    ensures { result ≡ least_at keyspace.now shard workflow.now least lane }
{
    let forward = workflow.slot(lane, Slot::Forward);
    let back = workflow.slot(lane, Slot::Back);
    let least = least_with(keyspace, shard, workflow.source(), 0, forward, least);
    least_with(keyspace, shard, workflow.target(), lane, back, least)
}

/// A position, or that of a stream of a workflow, if it is less, and the stream reads the log of a keyspace's shard and is in use.
fn least_of(keyspace: &KeyspaceName, shard: usize, start: Position, workflow: &Workflow) -> Position
    ensures { result ≡ least_of keyspace.now shard start workflow.now }
{
    let mut least = start;
    for lane in 0..workflow.shards() {
        least = least_at(keyspace, shard, workflow, least, lane);
    }
    least
}

/// The first entry of the log of a keyspace's shard that is needed: the least position of the streams that read it and are in use,
/// and the log's end if there is none.
fn first_needed(
    workflows: &Workflows,
    keyspace: &KeyspaceName,
    shard: usize,
    end: Position,
) -> Position
    ensures { result ≡ first_needed workflows.now.entries keyspace.now shard end }
{
    let mut least = end;
    for (_, workflow) in workflows.iter() {
        least = least_of(keyspace, shard, least, workflow);
    }
    least
}

/// Drops the whole segments of the log of a keyspace's shard that no stream will read any more. It takes no memory. (Vitess: a
/// primary's binary logs are purged file by file)
pub fn purge_log(
    workflows: &Workflows,
    keyspace: &KeyspaceName,
    shard: usize,
    primary: &mut Primary,
)
    ensures { primary.new ≡ without_unneeded workflows.now.entries keyspace.now shard primary.old }
{
    let end = primary.position();
    if end - primary.first_kept() < SEGMENT {
        return;
    }
    let needed = first_needed(workflows, keyspace, shard, end);
    primary.purge_below(needed);
}

/// Does so if the entries that the log keeps make whole segments, as they do behind every 256th write.
#[inline(always)]
pub fn purge_whole(
    workflows: &Workflows,
    keyspace: &KeyspaceName,
    shard: usize,
    primary: &mut Primary,
)
    ensures { primary.new ≡ (if has_whole_segments primary.old then without_unneeded workflows.now.entries keyspace.now shard primary.old else primary.old) }
{
    if (primary.position() - primary.first_kept()) % SEGMENT == 0 {
        purge_log(workflows, keyspace, shard, primary);
    }
}

/// Does so, whatever they keep, with the logs of all primaries of a keyspace.
fn purge_each(workflows: &Workflows, keyspace: &KeyspaceName, primaries: &mut [Primary])
    ensures { primaries.new ≡ purged_from workflows.now.entries keyspace.now 0 primaries.old }
{
    for shard in 0..primaries.len() {
        purge_log(workflows, keyspace, shard, &mut primaries[shard]);
    }
}

/// Does so with those of the keyspace at a place.
fn purge_at(workflows: &Workflows, primaries: &mut Primaries, place: usize)
    requires { place < length primaries.old }
    ensures { primaries.new ≡ with_purge_at workflows.now.entries place primaries.old }
{
    primaries.facts();
    let keyspace = primaries.name(place).copied();
    purge_each(workflows, &keyspace, primaries.all_mut(place));
}

/// Drops the whole segments of all logs that no stream will read any more. It takes no memory, and looks for streams only where a log
/// keeps a whole segment. (Vitess: a primary's binary logs are purged file by file)
pub fn purge(workflows: &Workflows, primaries: &mut Primaries)
    ensures { primaries.new ≡ map (λ entry. (entry.0, record { cuts = entry.1.cuts; each = purged_from workflows.now.entries entry.0 0 entry.1.each })) primaries.old }
{
    for place in 0..primaries.len() {
        purge_at(workflows, primaries, place);
    }
}
