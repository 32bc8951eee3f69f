//! The law on rows and logs behind Complete.
ghost use Rattle.std.specs.Prelude.{◌≡◌, ℕ, List, Some};
ghost use Rattle.mt_laws.specs.WayBack.{IsReached};
ghost use Rattle.mt_plain.specs.Answers.{Answers};
ghost use Rattle.mt_plain.specs.Events.{complete, done};
ghost use Rattle.mt_plain.specs.Next.{next};
ghost use Rattle.mt_plain.specs.Plain.{Live, Plain, live_at};
ghost use Rattle.mt_stands.specs.Rows.{OtherKeyspacesStay, OtherTablesStay, Primaries, RowsStand};

use mt_laws::{
    a_live_workflow_is_found_by_its_part, a_live_workflow_knows_its_shards,
    a_moved_table_keeps_its_number, each_next_state_is_reached, each_table_has_a_number_of_its_own,
    live_workflows_stand_in_place, only_named_events_change_a_workflow,
    only_what_stands_has_a_place, the_owner_alone_serves_the_primary, what_is_in_use_goes_on,
    what_was_fed_stays_fed,
};

/// Behind a Complete the primaries stand for the rows and logs of the next state, whatever became of the workflow's tables at
/// the source's primaries, if their logs and their other tables' rows stay, and the other primaries: the target's tables have the
/// numbers of the source's, and the rows that they had.
pub fn a_complete_keeps_rows_and_logs()
    ensures { (p : Plain) → IsReached p → (old new : Primaries) → RowsStand p old → (name : List ℕ) (w : Live) → live_at p name ≡ Some w
        → Answers p (complete name) done → OtherKeyspacesStay w.source old new → ((n : ℕ) → OtherTablesStay w.tables (old w.source n) (new w.source n))
        → RowsStand (next p (complete name) done) new }
{
    a_live_workflow_is_found_by_its_part();
    a_live_workflow_knows_its_shards();
    live_workflows_stand_in_place();
    what_was_fed_stays_fed();
    what_is_in_use_goes_on();
    each_table_has_a_number_of_its_own();
    the_owner_alone_serves_the_primary();
    each_next_state_is_reached();
    only_named_events_change_a_workflow();
    only_what_stands_has_a_place();
    a_moved_table_keeps_its_number();
}
