//! The law on Cancel.
ghost use Rattle.std.specs.Prelude.{ℕ, List};
ghost use Rattle.mt_model.specs.declared.entries.Scope.{Scope};
ghost use Rattle.mt_plain.specs.Events.{Answer, cancel};
ghost use Rattle.mt_primary.specs.Primary.{IsPrimary};
ghost use Rattle.mt_primary.specs.Primaries.{primary_of};
ghost use Rattle.mt_stands.specs.Base.{BaseState};
ghost use Rattle.mt_stands.specs.Stands.{Steps};
ghost use Rattle.mt_stands.specs.Workflows.{Cancels};

use mt_laws::{
    a_live_workflow_is_found_by_its_part, each_next_state_is_reached,
    live_workflows_stand_in_place, only_named_events_change_a_workflow,
};
use mt_stands::{
    a_cancel_keeps_rows_and_logs, cancel_writes_what_was_kept,
    tables_made_and_dropped_leave_the_others,
};

/// Cancel, done or refused, answers as the definitions allow; behind it the workflow is gone, the topology says in its part
/// what it said before Create, and the target's primaries have lost the tables, and no other primary anything.
pub fn a_cancel_steps()
    ensures { (scopes : List Scope) (old new : BaseState) (workflow : List ℕ) (answer : Answer)
        → Cancels old workflow answer new → ((keyspace : List ℕ) (n : ℕ) → IsPrimary (primary_of old.primaries keyspace n))
        → Steps scopes old (cancel workflow) answer new }
{
    a_live_workflow_is_found_by_its_part();
    each_next_state_is_reached();
    live_workflows_stand_in_place();
    only_named_events_change_a_workflow();
    a_cancel_keeps_rows_and_logs();
    tables_made_and_dropped_leave_the_others();
    cancel_writes_what_was_kept();
}
