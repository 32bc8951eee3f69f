//! Laws on the streams of a base's workflows.
ghost use Rattle.std.specs.Prelude.{◌≡◌, ◌≢◌, ℕ, ◌<◌, ◌≤◌, true, List, Some, is_some, length};
ghost use Rattle.mt_plain.specs.Events.{StreamName, forward, frozen};
ghost use Rattle.mt_plain.specs.Slots.{read_side};
ghost use Rattle.mt_primary.specs.Primary.{end_of};
ghost use Rattle.mt_primary.specs.Primaries.{primary_of};
ghost use Rattle.mt_stands.specs.Base.{BaseState, workflow_at};
ghost use Rattle.mt_stands.specs.Stands.{IsBase};
ghost use Rattle.mt_stands.specs.Workflows.{shard_read};
ghost use Rattle.mt_stream.specs.Streams.{StreamValue};
ghost use Rattle.mt_workflow.specs.Workflows.{WorkflowState, live_of, slot_of};

use mt_laws::positions_never_fall;

/// A workflow of a base has a forward stream for each shard of its target. Each of its streams has the workflow's tables, and a
/// position within the log of the primary that it reads, which keeps the entries from there on, unless the stream is frozen.
pub fn streams_of_a_base_lie_in_their_logs()
    ensures forward { (base : BaseState) → IsBase base → (name : List ℕ) (w : WorkflowState) (shard : ℕ)
        → workflow_at base.workflows name ≡ Some w → shard < length w.lanes → is_some (slot_of w shard forward) ≡ true }
    ensures tables { (base : BaseState) → IsBase base → (name : List ℕ) (w : WorkflowState) (shard : ℕ) (stream : StreamName) (s : StreamValue)
        → workflow_at base.workflows name ≡ Some w → slot_of w shard stream ≡ Some s → s.tables ≡ w.tables }
    ensures position { (base : BaseState) → IsBase base → (name : List ℕ) (w : WorkflowState) (shard : ℕ) (stream : StreamName) (s : StreamValue)
        → workflow_at base.workflows name ≡ Some w → slot_of w shard stream ≡ Some s
        → s.position ≤ end_of (primary_of base.primaries (read_side (live_of w) stream) (shard_read stream shard)) }
    ensures kept { (base : BaseState) → IsBase base → (name : List ℕ) (w : WorkflowState) (shard : ℕ) (stream : StreamName) (s : StreamValue)
        → workflow_at base.workflows name ≡ Some w → slot_of w shard stream ≡ Some s → s.state ≢ frozen
        → (primary_of base.primaries (read_side (live_of w) stream) (shard_read stream shard)).log.purged ≤ s.position }
{
    positions_never_fall();
}
