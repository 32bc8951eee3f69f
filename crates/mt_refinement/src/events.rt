//! Laws on the events that are of no way, for the whole controller.
ghost use Rattle.std.specs.Prelude.{◌≡◌, ℕ, List, Option};
ghost use Rattle.mt_model.specs.declared.entries.Scope.{Scope};
ghost use Rattle.mt_model.specs.declared.rows.Op.{Op};
ghost use Rattle.mt_names.specs.declared.keys.RuleKey.{RuleKey};
ghost use Rattle.mt_names.specs.declared.keys.RuleTarget.{RuleTarget};
ghost use Rattle.mt_names.specs.declared.types.TabletType.{TabletType};
ghost use Rattle.mt_names.specs.Shards.{AreCuts, Cuts};
ghost use Rattle.mt_plain.specs.Events.{Answer, StreamName, add_keyspace, add_table, advance, cancel, create, edit_rule, read, show, write};
ghost use Rattle.mt_primary.specs.Primary.{IsPrimary};
ghost use Rattle.mt_stands.specs.ByHand.{AddsKeyspace, AddsTable, EditsRule, ReadsRow, WritesRow};
ghost use Rattle.mt_primary.specs.Primaries.{primary_of};
ghost use Rattle.mt_stands.specs.Base.{BaseState};
ghost use Rattle.mt_stands.specs.Ways.{CoreState, CoreSteps};
ghost use Rattle.mt_stands.specs.Workflows.{AdvancesWorkflow, Cancels, Creates, ShowsWorkflow};

use crate::{
    a_cancel_steps, a_create_steps, a_keyspace_steps, a_read_steps, a_rule_steps, a_show_steps,
    a_table_steps, a_write_steps, an_advance_steps,
};
use mt_laws::{
    a_live_workflow_is_found_by_its_part, only_named_events_change_a_workflow,
    only_named_events_change_the_state, ways_keep_their_course,
};
use mt_watch::Asks;

/// A keyspace, a table, a rule by hand, a write and a read step, and leave what is kept of the ways as it is.
pub fn events_by_hand_step_and_leave_the_ways()
    ensures keyspace { (scopes : List Scope) (old : CoreState) (new : BaseState) (name : List ℕ) (cuts : Cuts) (answer : Answer) → AreCuts cuts
        → AddsKeyspace old.base name cuts answer new → CoreSteps scopes old (add_keyspace name cuts) answer (record old { base = new }) }
    ensures table { (scopes : List Scope) (old : CoreState) (new : BaseState) (keyspace table : List ℕ) (answer : Answer)
        → AddsTable old.base keyspace table answer new → CoreSteps scopes old (add_table keyspace table) answer (record old { base = new }) }
    ensures rule { (scopes : List Scope) (old : CoreState) (new : BaseState) (key : RuleKey) (target : Option RuleTarget) (answer : Answer)
        → EditsRule old.base key target answer new → CoreSteps scopes old (edit_rule key target) answer (record old { base = new }) }
    ensures write { (scopes : List Scope) (old : CoreState) (new : BaseState) (keyspace table : List ℕ) (op : Op) (answer : Answer)
        → WritesRow old.base keyspace table op answer new → CoreSteps scopes old (write keyspace table op) answer (record old { base = new }) }
    ensures read { (scopes : List Scope) (old : CoreState) (new : BaseState) (keyspace table : List ℕ) (key : ℕ) (tablet_type : TabletType) (answer : Answer)
        → ReadsRow old.base keyspace table key tablet_type answer new → CoreSteps scopes old (read keyspace table key tablet_type) answer (record old { base = new }) }
{
    only_named_events_change_a_workflow();
    only_named_events_change_the_state();
    a_keyspace_steps();
    a_table_steps();
    a_rule_steps();
    a_write_steps();
    a_read_steps();
}

/// A Create steps, and leaves what is kept of the ways as it is.
pub fn a_create_steps_and_leaves_the_ways<W: Asks>(watchers: &W)
    ensures { (old : CoreState) (new : BaseState) (workflow source target : List ℕ) (tables : List (List ℕ)) (answer : Answer)
        → Creates old.base (W.scopes watchers.now) (W.may_answer watchers.now) workflow source target tables answer new
        → CoreSteps (W.scopes watchers.now) old (create workflow source target tables) answer (record old { base = new }) }
{
    only_named_events_change_a_workflow();
    only_named_events_change_the_state();
    a_create_steps(watchers);
}

/// An advance, Cancel and Show step, and leave what is kept of the ways as it is.
pub fn events_on_workflows_step_and_leave_the_ways()
    ensures advance { (scopes : List Scope) (old : CoreState) (new : BaseState) (workflow : List ℕ) (name : StreamName) (shard at at_most : ℕ) (answer : Answer)
        → AdvancesWorkflow old.base workflow name shard at at_most answer new
        → ((keyspace : List ℕ) (n : ℕ) → IsPrimary (primary_of old.base.primaries keyspace n))
        → CoreSteps scopes old (advance workflow name shard at at_most) answer (record old { base = new }) }
    ensures cancel { (scopes : List Scope) (old : CoreState) (new : BaseState) (workflow : List ℕ) (answer : Answer)
        → Cancels old.base workflow answer new → ((keyspace : List ℕ) (n : ℕ) → IsPrimary (primary_of old.base.primaries keyspace n))
        → CoreSteps scopes old (cancel workflow) answer (record old { base = new }) }
    ensures show { (scopes : List Scope) (old : CoreState) (new : BaseState) (workflow : List ℕ) (answer : Answer)
        → ShowsWorkflow old.base workflow answer new → CoreSteps scopes old (show workflow) answer (record old { base = new }) }
{
    a_live_workflow_is_found_by_its_part();
    only_named_events_change_a_workflow();
    only_named_events_change_the_state();
    ways_keep_their_course();
    an_advance_steps();
    a_cancel_steps();
    a_show_steps();
}
