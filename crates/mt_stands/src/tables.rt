//! Laws on a new table.
ghost use Rattle.std.specs.Prelude.{◌≡◌, ℕ, List, [], ◌∷◌, None};
ghost use Rattle.mt_laws.specs.WayBack.{IsReached};
ghost use Rattle.mt_plain.specs.Answers.{Answers};
ghost use Rattle.mt_plain.specs.Events.{add_table, done};
ghost use Rattle.mt_plain.specs.Next.{next};
ghost use Rattle.mt_plain.specs.Plain.{Plain};
ghost use Rattle.mt_primary.specs.Primary.{row_at};
ghost use Rattle.mt_stands.specs.Rows.{OtherTablesStay, OtherKeyspacesStay, Primaries, RowsStand};

use mt_laws::{
    a_live_workflow_is_found_by_its_part, a_live_workflow_knows_its_shards,
    each_table_has_a_number_of_its_own, live_workflows_stand_in_place,
    the_owner_alone_serves_the_primary, what_is_in_use_goes_on, what_was_fed_stays_fed,
};
use mt_model::what_is_made_by_hand;

/// Behind a new table the primaries stand for the rows and logs of the next state, if its keyspace's primaries have it without
/// rows, and their logs, their other tables' rows and the other primaries stay.
pub fn a_new_table_keeps_rows_and_logs()
    ensures { (p : Plain) → IsReached p → (old new : Primaries) → RowsStand p old → (keyspace table : List ℕ)
        → Answers p (add_table keyspace table) done → OtherKeyspacesStay keyspace old new
        → ((n : ℕ) → OtherTablesStay (table ∷ []) (old keyspace n) (new keyspace n))
        → ((n key : ℕ) → row_at (new keyspace n) table key ≡ None)
        → RowsStand (next p (add_table keyspace table) done) new }
{
    a_live_workflow_is_found_by_its_part();
    a_live_workflow_knows_its_shards();
    live_workflows_stand_in_place();
    what_was_fed_stays_fed();
    what_is_in_use_goes_on();
    each_table_has_a_number_of_its_own();
    the_owner_alone_serves_the_primary();
    what_is_made_by_hand();
}
