//! Laws on Create and Cancel.
ghost use Rattle.std.specs.Prelude.{◌≡◌, ℕ, true, List, None, Some};
ghost use Rattle.mt_laws.specs.WayBack.{IsReached};
ghost use Rattle.mt_plain.specs.Answers.{Answers};
ghost use Rattle.mt_plain.specs.Events.{create, cancel, done};
ghost use Rattle.mt_plain.specs.Next.{next};
ghost use Rattle.mt_plain.specs.Plain.{Live, Plain, among, each_once, live_at};
ghost use Rattle.mt_primary.specs.Primary.{row_at};
ghost use Rattle.mt_stands.specs.Rows.{OtherTablesStay, OtherKeyspacesStay, Primaries, RowsStand};

use mt_laws::{
    a_live_workflow_is_found_by_its_part, a_live_workflow_knows_its_shards,
    each_next_state_is_reached, each_table_has_a_number_of_its_own, live_workflows_stand_in_place,
    only_named_events_change_a_workflow, the_owner_alone_serves_the_primary,
    what_is_in_use_goes_on, what_was_fed_stays_fed,
};

/// Behind a Cancel the primaries stand for the rows and logs of the next state, whatever became of the workflow's tables at
/// the target's primaries, if their logs and their other tables' rows stay, and the other primaries.
pub fn a_cancel_keeps_rows_and_logs()
    ensures { (p : Plain) → IsReached p → (old new : Primaries) → RowsStand p old → (name : List ℕ) (w : Live) → live_at p name ≡ Some w
        → Answers p (cancel name) done → OtherKeyspacesStay w.target old new → ((n : ℕ) → OtherTablesStay w.tables (old w.target n) (new w.target n))
        → RowsStand (next p (cancel name) done) new }
{
    a_live_workflow_is_found_by_its_part();
    a_live_workflow_knows_its_shards();
    live_workflows_stand_in_place();
    what_was_fed_stays_fed();
    what_is_in_use_goes_on();
    each_table_has_a_number_of_its_own();
    the_owner_alone_serves_the_primary();
    each_next_state_is_reached();
    only_named_events_change_a_workflow();
}

/// Behind a Create the primaries stand for the rows and logs of the next state, if the target's have the workflow's tables
/// without rows, their logs and their other tables' rows stay, and the other primaries.
pub fn a_create_keeps_rows_and_logs()
    ensures { (p : Plain) → IsReached p → (old new : Primaries) → RowsStand p old → (name source target : List ℕ) (tables : List (List ℕ))
        → Answers p (create name source target tables) done → OtherKeyspacesStay target old new → ((n : ℕ) → OtherTablesStay (each_once tables) (old target n) (new target n))
        → ((table : List ℕ) → among (each_once tables) table ≡ true → (n key : ℕ) → row_at (new target n) table key ≡ None)
        → RowsStand (next p (create name source target tables) done) new }
{
    a_live_workflow_is_found_by_its_part();
    a_live_workflow_knows_its_shards();
    live_workflows_stand_in_place();
    what_was_fed_stays_fed();
    what_is_in_use_goes_on();
    each_table_has_a_number_of_its_own();
    the_owner_alone_serves_the_primary();
    each_next_state_is_reached();
    only_named_events_change_a_workflow();
}
