//! What is told of a workflow.
ghost use Rattle.std.specs.Prelude.{◌≡◌, ◌<◌, map, true, is_some, length, option_map, Some, ℕ, option_copied, slice_get};
ghost use Rattle.mt_event.specs.Events.{lane_from, lanes_from, lent_shown, shown_stream_from};
ghost use Rattle.mt_plain.specs.Events.{forward};
ghost use Rattle.mt_workflow.specs.Workflows.{WorkflowState, slot_of};
ghost use Rattle.mt_stands.specs.Base.{workflow_at};
ghost use Rattle.mt_stands.specs.Workflows.{lane_by, shown_by, slot_from};

use crate::Workflows;
use arrayvec::ArrayVec;
use mt_event::{ShownLane, ShownOf, ShownStream, Tables};
use mt_names::{MAX_SHARDS, WorkflowName};
use mt_stream::Stream;
use mt_workflow::{Slot, Workflow};

/// What is told of a stream.
fn shown_stream(stream: &Stream) -> ShownStream
    ensures { shown_stream_from result ≡ slot_from stream.now }
{
    ShownStream {
        state: stream.state(),
        position: stream.position(),
    }
}

/// What is told of the back stream of a shard, if it has one.
fn shown_back(stream: Option<&Stream>) -> Option<ShownStream>
    ensures { option_map shown_stream_from result ≡ option_map slot_from (option_copied stream.entry) }
{
    match stream {
        None => None,
        Some(stream) => Some(shown_stream(stream)),
    }
}

/// What is told of the lane of a shard, which has a forward stream.
fn shown_lane(workflow: &Workflow, shard: u8) -> ShownLane
    requires shard { shard < length workflow.now.lanes }
    requires there { is_some (slot_of workflow.now shard forward) ≡ true }
    ensures { Some (lane_from result) ≡ option_map lane_by (slice_get workflow.now.lanes shard) }
{
    let forward = workflow.slot(shard, Slot::Forward).unwrap();
    ShownLane {
        range: workflow.range(shard).copied(),
        forward: shown_stream(forward),
        copied: forward.copied(),
        back: shown_back(workflow.slot(shard, Slot::Back)),
    }
}

/// What is told of all lanes.
fn shown_lanes(workflow: &Workflow) -> ArrayVec<ShownLane, MAX_SHARDS>
    requires there { (shard : ℕ) → shard < length workflow.now.lanes → is_some (slot_of workflow.now shard forward) ≡ true }
    ensures { lanes_from result.items ≡ map lane_by workflow.now.lanes }
{
    workflow.facts();
    let mut lanes = ArrayVec::new_in(());
    for shard in 0..workflow.shards() {
        lanes.push(shown_lane(workflow, shard));
    }
    lanes
}

/// What is told of a workflow.
fn shown(workflow: &Workflow) -> ShownOf<'_>
    requires { (shard : ℕ) → shard < length workflow.now.lanes → is_some (slot_of workflow.now shard forward) ≡ true }
    ensures { lent_shown result ≡ shown_by workflow.now }
{
    workflow.facts();
    ShownOf {
        workflow: workflow.name(),
        source: workflow.source(),
        target: workflow.target(),
        tables: Tables::new(workflow.tables()),
        switched: workflow.switched(),
        way: workflow.way(),
        lanes: shown_lanes(workflow),
    }
}

/// What is told of a live workflow, if there is one of that name. It takes no memory.
pub(crate) fn show<'a>(workflows: &'a Workflows, name: &WorkflowName) -> Option<ShownOf<'a>>
    requires { (w : WorkflowState) → workflow_at workflows.now.entries name.now ≡ Some w
        → (shard : ℕ) → shard < length w.lanes → is_some (slot_of w shard forward) ≡ true }
    ensures { option_map lent_shown result ≡ option_map shown_by (workflow_at workflows.now.entries name.now) }
{
    workflows.get(name).map(shown)
}
