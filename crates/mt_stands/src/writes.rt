//! Laws on a client's write.
ghost use Rattle.std.specs.Prelude.{◌≡◌, ℕ, true, List, Result};
ghost use Rattle.mt_laws.specs.WayBack.{IsReached};
ghost use Rattle.mt_model.specs.declared.faults.PrimaryFault.{PrimaryFault};
ghost use Rattle.mt_model.specs.declared.rows.Op.{Op};
ghost use Rattle.mt_plain.specs.Answers.{Answers};
ghost use Rattle.mt_plain.specs.Events.{Event, write};
ghost use Rattle.mt_plain.specs.Next.{next};
ghost use Rattle.mt_plain.specs.Plain.{Plain, has_keyspace, shard_at};
ghost use Rattle.mt_model.specs.Rows.{op_key};
ghost use Rattle.mt_plain.specs.Serve.{refuses};
ghost use Rattle.mt_plain.specs.Serve as plain;
ghost use Rattle.mt_primary.specs.Primary.{has_table, is_denied_at};
ghost use Rattle.mt_primary.specs.Writes.{Writes};
ghost use Rattle.mt_stands.specs.Answers.{answer_by};
ghost use Rattle.mt_stands.specs.Rows.{OthersStay, Primaries, RowsStand};

use mt_laws::{
    a_live_workflow_is_found_by_its_part, a_live_workflow_knows_its_shards,
    each_table_has_a_number_of_its_own, live_workflows_stand_in_place,
    the_owner_alone_serves_the_primary, what_is_in_use_goes_on, what_was_fed_stays_fed,
};

/// A write at the primary of the shard that holds its key, whose table and own list are those of the state: its answer is one that
/// the definitions allow, and behind it the primaries stand for the next state.
pub fn a_write_keeps_rows_and_logs()
    ensures { (p : Plain) → IsReached p → (old new : Primaries) → RowsStand p old → (keyspace table : List ℕ) (op : Op)
        → has_keyspace p keyspace ≡ true → has_table (old keyspace (shard_at p keyspace (op_key op))) table ≡ plain.has_table p keyspace table
        → is_denied_at (old keyspace (shard_at p keyspace (op_key op))) table ≡ refuses p keyspace (shard_at p keyspace (op_key op)) table
        → OthersStay keyspace (shard_at p keyspace (op_key op)) old new
        → (result : Result ℕ PrimaryFault) → Writes (old keyspace (shard_at p keyspace (op_key op))) table op result (new keyspace (shard_at p keyspace (op_key op)))
        → Answers p (write keyspace table op) (answer_by result) × RowsStand (next p (write keyspace table op) (answer_by result)) new }
{
    a_live_workflow_is_found_by_its_part();
    a_live_workflow_knows_its_shards();
    live_workflows_stand_in_place();
    what_was_fed_stays_fed();
    what_is_in_use_goes_on();
    each_table_has_a_number_of_its_own();
    the_owner_alone_serves_the_primary();
}
