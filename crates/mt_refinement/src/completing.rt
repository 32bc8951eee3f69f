//! The law on Complete.
ghost use Rattle.std.specs.Prelude.{◌≡◌, ℕ, List};
ghost use Rattle.mt_model.specs.declared.entries.Scope.{Scope};
ghost use Rattle.mt_plain.specs.Answers.{Answers};
ghost use Rattle.mt_plain.specs.Events.{complete, done};
ghost use Rattle.mt_plain.specs.Next.{next};
ghost use Rattle.mt_plain.specs.Plain.{Plain};
ghost use Rattle.mt_primary.specs.Primary.{IsPrimary};
ghost use Rattle.mt_primary.specs.Primaries.{primary_of};
ghost use Rattle.mt_stands.specs.Base.{workflow_at};
ghost use Rattle.mt_stands.specs.Switching.{completed};
ghost use Rattle.mt_stands.specs.Ways.{CoreState, CoreStands};
ghost use Rattle.mt_workflow.specs.Workflows.{WorkflowState};

use crate::a_complete_keeps_rows_and_logs;
use mt_laws::{
    a_live_workflow_is_found_by_its_part, each_next_state_is_reached,
    live_workflows_stand_in_place, only_named_events_change_a_workflow,
    only_what_stands_has_a_place,
};
use mt_stands::{
    complete_writes_the_end, tables_made_and_dropped_leave_the_others,
    what_is_kept_stays_what_stood,
};

/// What Complete makes of the controller stands for the next state: the workflow is gone, the topology has neither rules nor denials of
/// its tables, and these at the target alone, whose rows are those of the clients.
pub fn what_complete_makes_stands_for_the_next_state()
    ensures { (p : Plain) (scopes : List Scope) (s : CoreState) → CoreStands p scopes s
        → (name : List ℕ) (w : WorkflowState) → workflow_at s.base.workflows name ≡ Some w
        → ((keyspace : List ℕ) (n : ℕ) → IsPrimary (primary_of s.base.primaries keyspace n))
        → Answers p (complete name) done
        → CoreStands (next p (complete name) done) scopes (record s { base = completed s.base w }) }
{
    a_live_workflow_is_found_by_its_part();
    each_next_state_is_reached();
    live_workflows_stand_in_place();
    only_named_events_change_a_workflow();
    only_what_stands_has_a_place();
    a_complete_keeps_rows_and_logs();
    tables_made_and_dropped_leave_the_others();
    complete_writes_the_end();
    what_is_kept_stays_what_stood();
}
