//! Laws on an advance of a stream.
ghost use Rattle.std.specs.Prelude.{◌≡◌, ℕ, ◌≤◌, true, List, Some, Result};
ghost use Rattle.mt_laws.specs.WayBack.{IsReached};
ghost use Rattle.mt_names.specs.Shards.{AreCuts};
ghost use Rattle.mt_plain.specs.Answers.{Answers};
ghost use Rattle.mt_plain.specs.Events.{StreamName, Slot, advance};
ghost use Rattle.mt_plain.specs.Next.{next};
ghost use Rattle.mt_plain.specs.Plain.{Lane, Live, Plain, lane_at, live_at, moves};
ghost use Rattle.mt_plain.specs.Slots.{read_shard, read_side, slot_of, written_shard, written_side};
ghost use Rattle.mt_primary.specs.Primary.{IsPrimary, PrimaryState, has_table};
ghost use Rattle.mt_stands.specs.Answers.{answer_by_stream};
ghost use Rattle.mt_stands.specs.Rows.{HoldsItsKeys, IsStreamOf, OthersStay, Primaries, RowsStand, stream_of};
ghost use Rattle.mt_stream.specs.Advance.{Advances};
ghost use Rattle.mt_stream.specs.Streams.{StreamValue};

use mt_laws::{
    a_live_workflow_is_found_by_its_part, a_live_workflow_knows_its_shards,
    a_stream_that_runs_reads_the_owner, an_advance_writes_one_log, each_next_state_is_reached,
    each_table_has_a_number_of_its_own, live_workflows_stand_in_place,
    the_owner_alone_serves_the_primary, what_is_in_use_goes_on, what_is_pending_was_not_fed,
    what_was_fed_stays_fed, what_was_not_fed_makes_the_rows_of_the_owner,
};
use mt_stream::{
    Advanced, StreamFault, the_copied_range_follows_the_source, the_rows_left_are_the_uncopied_rows,
};

/// What an advance of a live workflow's stream answers, between primaries that stand for the rows and logs of the state, is
/// one of the answers that the definitions allow.
pub fn an_advance_answers_as_the_definitions_allow()
    ensures { (p : Plain) → IsReached p → (at : Primaries) → RowsStand p at → (name : List ℕ) (w : Live) → live_at p name ≡ Some w
        → (shard : ℕ) (lane : Lane) → lane_at w shard ≡ Some lane → HoldsItsKeys w lane → (stream : StreamName) (slot : Slot) → slot_of w lane stream ≡ Some slot
        → IsPrimary (at (read_side w stream) (read_shard lane stream)) → (at (read_side w stream) (read_shard lane stream)).log.purged ≤ slot.position
        → (position at_most : ℕ) (result : Result Advanced StreamFault) (new : StreamValue) (sink : PrimaryState)
        → Advances (stream_of w lane slot) (at (read_side w stream) (read_shard lane stream)) (at (written_side w stream) (written_shard lane stream)) position at_most result new sink
        → Answers p (advance name stream shard position at_most) (answer_by_stream result) }
{
    a_live_workflow_is_found_by_its_part();
    a_live_workflow_knows_its_shards();
    live_workflows_stand_in_place();
    what_was_fed_stays_fed();
    what_is_in_use_goes_on();
    each_table_has_a_number_of_its_own();
    the_owner_alone_serves_the_primary();
    a_stream_that_runs_reads_the_owner();
    the_rows_left_are_the_uncopied_rows();
}

/// Behind an advance of a live workflow's stream, done or refused, the primaries stand for the rows and logs of the next
/// state, and the stream is that of the workflow there, if the primary that it reads has the workflow's tables.
pub fn an_advance_keeps_rows_and_logs()
    ensures { (p : Plain) → IsReached p → (old new : Primaries) → RowsStand p old → (name : List ℕ) (w : Live) → live_at p name ≡ Some w
        → (shard : ℕ) (lane : Lane) → lane_at w shard ≡ Some lane → HoldsItsKeys w lane → (stream : StreamName) (slot : Slot) → slot_of w lane stream ≡ Some slot
        → IsPrimary (old (read_side w stream) (read_shard lane stream)) → (old (read_side w stream) (read_shard lane stream)).log.purged ≤ slot.position
        → ((table : List ℕ) → moves w table ≡ true → has_table (old (read_side w stream) (read_shard lane stream)) table ≡ true)
        → OthersStay (written_side w stream) (written_shard lane stream) old new
        → (position at_most : ℕ) (result : Result Advanced StreamFault) (value : StreamValue)
        → Advances (stream_of w lane slot) (old (read_side w stream) (read_shard lane stream)) (old (written_side w stream) (written_shard lane stream)) position at_most result value
        (new (written_side w stream) (written_shard lane stream))
        → RowsStand (next p (advance name stream shard position at_most) (answer_by_stream result)) new
        × IsStreamOf (next p (advance name stream shard position at_most) (answer_by_stream result)) name shard stream value }
{
    a_live_workflow_is_found_by_its_part();
    a_live_workflow_knows_its_shards();
    live_workflows_stand_in_place();
    what_was_fed_stays_fed();
    what_is_in_use_goes_on();
    each_table_has_a_number_of_its_own();
    the_owner_alone_serves_the_primary();
    a_stream_that_runs_reads_the_owner();
    what_is_pending_was_not_fed();
    what_was_not_fed_makes_the_rows_of_the_owner();
    each_next_state_is_reached();
    an_advance_writes_one_log();
    the_rows_left_are_the_uncopied_rows();
    the_copied_range_follows_the_source();
}

/// The key range of each lane of a live workflow has just the keys of its shard, if the bounds of its shards are written as they should
/// and ascend, as those do that are read.
pub fn a_lane_holds_its_keys()
    ensures { (p : Plain) → IsReached p → (name : List ℕ) (w : Live) → live_at p name ≡ Some w → AreCuts w.cuts
        → (shard : ℕ) (lane : Lane) → lane_at w shard ≡ Some lane → HoldsItsKeys w lane }
{
    a_live_workflow_knows_its_shards();
}
