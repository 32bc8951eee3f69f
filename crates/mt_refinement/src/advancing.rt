//! The law on an advance.
ghost use Rattle.std.specs.Prelude.{ℕ, List};
ghost use Rattle.mt_model.specs.declared.entries.Scope.{Scope};
ghost use Rattle.mt_plain.specs.Events.{Answer, StreamName, advance};
ghost use Rattle.mt_primary.specs.Primary.{IsPrimary};
ghost use Rattle.mt_primary.specs.Primaries.{primary_of};
ghost use Rattle.mt_stands.specs.Base.{BaseState};
ghost use Rattle.mt_stands.specs.Stands.{Steps};
ghost use Rattle.mt_stands.specs.Workflows.{AdvancesWorkflow};

use mt_laws::{
    a_live_workflow_is_found_by_its_part, an_advance_writes_one_log, each_next_state_is_reached,
    only_named_events_change_a_workflow, only_named_events_change_the_state,
};
use mt_stands::{
    a_lane_holds_its_keys, an_advance_answers_as_the_definitions_allow,
    an_advance_keeps_rows_and_logs, what_changes_no_entry_leaves_the_topology,
    what_is_kept_stays_what_stood,
};

/// An advance of a stream of a shard between the primaries of its workflow's sides, done or refused, answers as the definitions allow and
/// leaves the workflow with the streams, and the primaries with the rows, logs, tables and own lists, of the next state.
pub fn an_advance_steps()
    ensures { (scopes : List Scope) (old new : BaseState) (workflow : List ℕ) (name : StreamName) (shard at at_most : ℕ) (answer : Answer)
        → AdvancesWorkflow old workflow name shard at at_most answer new
        → ((keyspace : List ℕ) (n : ℕ) → IsPrimary (primary_of old.primaries keyspace n))
        → Steps scopes old (advance workflow name shard at at_most) answer new }
{
    a_live_workflow_is_found_by_its_part();
    an_advance_writes_one_log();
    each_next_state_is_reached();
    only_named_events_change_a_workflow();
    only_named_events_change_the_state();
    a_lane_holds_its_keys();
    an_advance_answers_as_the_definitions_allow();
    an_advance_keeps_rows_and_logs();
    what_changes_no_entry_leaves_the_topology();
    what_is_kept_stays_what_stood();
}
