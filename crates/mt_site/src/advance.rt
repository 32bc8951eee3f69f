//! The streams of a workflow, advanced between the primaries of its sides.
ghost use Rattle.std.specs.Prelude.{◌≡◌, nat_lt, true, Some, is_some, length};
ghost use Rattle.mt_model.specs.Topology.{TopologyState};
ghost use Rattle.mt_stands.specs.Workflows.{AdvancesWorkflow};
ghost use Rattle.mt_stream.specs.Streams.{StreamValue};
ghost use Rattle.mt_workflow.specs.Workflows.{slot_of, stream_name};
ghost use Rattle.mt_site.specs.Advance.{AdvancesBetween, AdvancesLane, AdvancesOne, CanAdvance, IsBetween, advanced_from, answer_by_slot};

use crate::{Primaries, Workflows};
use mt_event::Reason;
use mt_names::{Position, WorkflowName};
use mt_primary::sides_of;
use mt_stream::{Advanced, StreamFault};
use mt_workflow::{Slot, Workflow};

/// What is asked of a stream.
#[derive(Clone, Copy)]
pub(crate) struct Asked {
    /// The shard of the target that it is for, by its place.
    pub shard: u8,
    /// Which of the shard's streams it is.
    pub slot: Slot,
    /// The position at which it is expected.
    pub at: Position,
    /// How many rows or entries at most.
    pub max: u16,
}

/// What is told of an advance of a stream, if there is one.
fn told(done: Option<Result<Advanced, StreamFault>>) -> Result<Advanced, Reason>
    ensures { advanced_from result ≡ answer_by_slot done }
{
    match done {
        None => Err(Reason::StreamStopped),
        Some(told) => Ok(told?),
    }
}

/// Advances a stream that a workflow has for a shard of its target between the primaries of the workflow's sides, wherever they stand.
fn advance_between(
    primaries: &mut Primaries,
    workflow: &mut Workflow,
    asked: Asked,
) -> Option<Result<Advanced, StreamFault>>
    requires there { is_some (slot_of workflow.old asked.shard (stream_name asked.slot)) ≡ true }
    requires between { (s : StreamValue) → slot_of workflow.old asked.shard (stream_name asked.slot) ≡ Some s → IsBetween primaries.old workflow.old (stream_name asked.slot) asked.shard s }
    ensures { AdvancesBetween primaries.old workflow.old (stream_name asked.slot) asked.shard asked.at asked.max result workflow.new primaries.new }
{
    let Asked {
        shard,
        slot,
        at,
        max,
    } = asked;
    let (places, source, target) = primaries.sides_mut(workflow.source(), workflow.target());
    let (one, all) = sides_of(places, source, target);
    let there = usize::from(shard);
    match slot {
        Slot::Forward => workflow.advance(shard, slot, one, &mut all[there], at, max),
        Slot::Back => workflow.advance(shard, slot, &all[there], one, at, max),
    }
}

/// Advances a stream of a workflow between the primaries of its sides.
fn advance_stream(
    primaries: &mut Primaries,
    workflow: &mut Workflow,
    asked: Asked,
) -> Result<Advanced, Reason>
    requires { (s : StreamValue) → slot_of workflow.old asked.shard (stream_name asked.slot) ≡ Some s → IsBetween primaries.old workflow.old (stream_name asked.slot) asked.shard s }
    ensures { AdvancesOne (slot_of workflow.old asked.shard (stream_name asked.slot)) primaries.old workflow.old (stream_name asked.slot) asked.shard asked.at asked.max (advanced_from result) workflow.new primaries.new }
{
    if workflow.slot(asked.shard, asked.slot).is_none() {
        return Err(Reason::StreamStopped);
    }
    told(advance_between(primaries, workflow, asked))
}

/// Whether a workflow's target has a shard.
fn has_shard(workflow: &Workflow, shard: u8) -> bool
    ensures { result ≡ nat_lt shard (length workflow.now.lanes) }
{
    shard < workflow.shards()
}

/// Advances a stream of a workflow, if its target has the shard.
fn advance_lane(
    primaries: &mut Primaries,
    workflow: &mut Workflow,
    asked: Asked,
) -> Result<Advanced, Reason>
    requires { (s : StreamValue) → slot_of workflow.old asked.shard (stream_name asked.slot) ≡ Some s → IsBetween primaries.old workflow.old (stream_name asked.slot) asked.shard s }
    ensures { AdvancesLane (nat_lt asked.shard (length workflow.old.lanes)) primaries.old workflow.old (stream_name asked.slot) asked.shard asked.at asked.max (advanced_from result) workflow.new primaries.new }
{
    if has_shard(workflow, asked.shard) {
        return advance_stream(primaries, workflow, asked);
    }
    Err(Reason::NoShard)
}

/// Advances a stream of a live workflow: `F7 NoWorkflow`, `F32 NoShard`, `F26 Stopped`, `F25 Stale`, `F27 Full`, `F0 Memory`.
pub(crate) fn advance(
    primaries: &mut Primaries,
    workflows: &mut Workflows,
    name: &WorkflowName,
    asked: Asked,
) -> Result<Advanced, Reason>
    requires { CanAdvance primaries.old workflows.old.entries name.now (stream_name asked.slot) asked.shard }
    ensures { (topology : TopologyState) → AdvancesWorkflow (record { topology = topology; primaries = primaries.old; workflows = workflows.old.entries }) name.now (stream_name asked.slot) asked.shard asked.at asked.max (advanced_from result)
        (record { topology = topology; primaries = primaries.new; workflows = workflows.new.entries }) }
{
    match workflows.get_mut(name) {
        None => Err(Reason::NoWorkflow),
        Some(workflow) => advance_lane(primaries, workflow, asked),
    }
}
