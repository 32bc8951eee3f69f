//! Laws on logs that are purged.
ghost use Rattle.std.specs.Prelude.{◌≡◌, ◌≢◌, ℕ, List, Some};
ghost use Rattle.mt_laws.specs.WayBack.{IsReached};
ghost use Rattle.mt_plain.specs.Events.{StreamName, Slot, frozen};
ghost use Rattle.mt_plain.specs.Plain.{Lane, Live, Plain, lane_at, live_at, owner};
ghost use Rattle.mt_plain.specs.Slots.{read_shard, read_side, slot_of};
ghost use Rattle.mt_stands.specs.RowPurges.{ArePurged, AreUnfed, IsRead};
ghost use Rattle.mt_stands.specs.Rows.{Primaries, RowsStand};

use mt_laws::{live_workflows_stand_in_place, ways_keep_their_course, what_is_pending_was_not_fed};

/// In each state that a run reaches, each lane of a live workflow has a stream that reads the owner's log and isn't frozen.
pub fn each_live_workflow_is_read()
    ensures { (p : Plain) → IsReached p → (name : List ℕ) (w : Live) → live_at p name ≡ Some w
        → (shard : ℕ) (lane : Lane) → lane_at w shard ≡ Some lane → IsRead w lane }
{
    ways_keep_their_course();
}

/// In each state that a run reaches, a stream that reads the owner's log isn't frozen.
pub fn a_stream_that_reads_the_owner_is_in_use()
    ensures { (p : Plain) → IsReached p → (name : List ℕ) (w : Live) → live_at p name ≡ Some w
        → (shard : ℕ) (lane : Lane) → lane_at w shard ≡ Some lane → (stream : StreamName) (slot : Slot) → slot_of w lane stream ≡ Some slot
        → read_side w stream ≡ owner w → slot.state ≢ frozen }
{
    live_workflows_stand_in_place();
    each_live_workflow_is_read();
}

/// Primaries whose logs are purged below the positions of the streams that read them, but for frozen ones, stand for the rows and logs of
/// the same state.
pub fn a_purge_keeps_rows_and_logs()
    ensures { (p : Plain) → IsReached p → (old new : Primaries) → RowsStand p old → ArePurged p old new → RowsStand p new }
{
    each_live_workflow_is_read();
    live_workflows_stand_in_place();
    what_is_pending_was_not_fed();
}

/// What a stream of a lane that reads the owner's log has still to read of its workflow's tables and its shard's keys is the
/// acknowledged writes to them that were not fed to the other side, one for one and in order, each with the row that stood before it and
/// the row that it left.
pub fn what_is_still_to_be_read_was_not_fed()
    ensures { (p : Plain) → IsReached p → (at : Primaries) → RowsStand p at → (name : List ℕ) (w : Live) → live_at p name ≡ Some w
        → (shard : ℕ) (lane : Lane) → lane_at w shard ≡ Some lane → (stream : StreamName) (slot : Slot) → slot_of w lane stream ≡ Some slot
        → read_side w stream ≡ owner w → AreUnfed p w lane slot.position (at (owner w) (read_shard lane stream)).log }
{
    live_workflows_stand_in_place();
    what_is_pending_was_not_fed();
    a_stream_that_reads_the_owner_is_in_use();
}
