//! Laws on the steps of a switch or a reversal.
ghost use Rattle.std.specs.Prelude.{◌≡◌, ℕ, not, List, Some};
ghost use Rattle.mt_laws.specs.WayBack.{IsReached};
ghost use Rattle.mt_plain.specs.Answers.{Answers};
ghost use Rattle.mt_plain.specs.Events.{StreamName, Slot, step, done};
ghost use Rattle.mt_plain.specs.Next.{next};
ghost use Rattle.mt_plain.specs.Plain.{Lane, Live, Plain, lane_at, live_at, owner};
ghost use Rattle.mt_plain.specs.Refuse.{lane_is_behind};
ghost use Rattle.mt_plain.specs.Slots.{read_shard, read_side, slot_of};
ghost use Rattle.mt_stands.specs.Rows.{HoldsItsKeys, Primaries, RowsStand, stream_of};
ghost use Rattle.mt_stream.specs.Streams.{is_level};

use crate::purges::a_stream_that_reads_the_owner_is_in_use;
use mt_laws::{
    a_live_workflow_is_found_by_its_part, a_live_workflow_knows_its_shards,
    all_writes_are_fed_at_the_journal, each_next_state_is_reached,
    each_table_has_a_number_of_its_own, live_workflows_stand_in_place,
    only_named_events_change_a_workflow, only_named_events_change_the_state,
    the_owner_alone_serves_the_primary, ways_keep_their_course, what_is_in_use_goes_on,
    what_is_pending_was_not_fed, what_was_fed_stays_fed,
};

/// A step of a switch or a reversal leaves primaries that stand for the rows and logs of the next state, with no change of
/// theirs: the owner of the tables changes with the journal alone, where all was fed.
pub fn a_step_keeps_rows_and_logs()
    ensures { (p : Plain) → IsReached p → (at : Primaries) → RowsStand p at → (name : List ℕ) (number : ℕ)
        → Answers p (step name number) done → RowsStand (next p (step name number) done) at }
{
    a_live_workflow_is_found_by_its_part();
    a_live_workflow_knows_its_shards();
    live_workflows_stand_in_place();
    what_was_fed_stays_fed();
    what_is_in_use_goes_on();
    each_table_has_a_number_of_its_own();
    the_owner_alone_serves_the_primary();
    each_next_state_is_reached();
    only_named_events_change_the_state();
    only_named_events_change_a_workflow();
    ways_keep_their_course();
    all_writes_are_fed_at_the_journal();
}

/// A stream of a lane that reads the owner's log is level with its source just where no write of the lane is left to be fed.
pub fn a_stream_is_level_where_all_is_fed()
    ensures { (p : Plain) → IsReached p → (at : Primaries) → RowsStand p at → (name : List ℕ) (w : Live) → live_at p name ≡ Some w
        → (shard : ℕ) (lane : Lane) → lane_at w shard ≡ Some lane → HoldsItsKeys w lane
        → (stream : StreamName) (slot : Slot) → slot_of w lane stream ≡ Some slot → read_side w stream ≡ owner w
        → is_level (stream_of w lane slot) (at (read_side w stream) (read_shard lane stream)) ≡ not (lane_is_behind p w lane) }
{
    what_is_pending_was_not_fed();
    a_stream_that_reads_the_owner_is_in_use();
}
