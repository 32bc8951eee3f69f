//! Laws on clients' rows.
ghost use Rattle.std.specs.Prelude.{ℕ, List};
ghost use Rattle.mt_model.specs.declared.entries.Scope.{Scope};
ghost use Rattle.mt_model.specs.declared.rows.Op.{Op};
ghost use Rattle.mt_names.specs.declared.types.TabletType.{TabletType};
ghost use Rattle.mt_plain.specs.Events.{Answer, read, write};
ghost use Rattle.mt_stands.specs.ByHand.{ReadsRow, WritesRow};
ghost use Rattle.mt_stands.specs.Base.{BaseState};
ghost use Rattle.mt_stands.specs.Stands.{Steps};

use mt_laws::{each_next_state_is_reached, only_named_events_change_the_state};
use mt_stands::{
    a_write_keeps_rows_and_logs, what_changes_no_entry_leaves_the_topology,
    what_is_kept_stays_what_stood,
};

/// A write at the primary of the shard that its key stands in leads from each state that a base stands for to the next one.
pub fn a_write_steps()
    ensures { (scopes : List Scope) (old new : BaseState) (keyspace table : List ℕ) (op : Op) (answer : Answer)
        → WritesRow old keyspace table op answer new → Steps scopes old (write keyspace table op) answer new }
{
    each_next_state_is_reached();
    only_named_events_change_the_state();
    what_is_kept_stays_what_stood();
    what_changes_no_entry_leaves_the_topology();
    a_write_keeps_rows_and_logs();
}

/// So does a read, which changes nothing.
pub fn a_read_steps()
    ensures { (scopes : List Scope) (old new : BaseState) (keyspace table : List ℕ) (key : ℕ) (tablet_type : TabletType) (answer : Answer)
        → ReadsRow old keyspace table key tablet_type answer new → Steps scopes old (read keyspace table key tablet_type) answer new }
{}
