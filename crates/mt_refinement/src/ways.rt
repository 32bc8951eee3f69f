//! Laws on the events of a way, and on Complete.
ghost use Rattle.std.specs.Prelude.{◌≡◌, ℕ, List};
ghost use Rattle.mt_laws.specs.Texts.{BringsNames};
ghost use Rattle.mt_model.specs.declared.entries.Scope.{Scope};
ghost use Rattle.mt_names.specs.declared.types.TypeSet.{TypeSet};
ghost use Rattle.mt_plain.specs.Events.{Answer, begin_reverse, begin_switch, complete, step, undo};
ghost use Rattle.mt_primary.specs.Primary.{IsPrimary};
ghost use Rattle.mt_primary.specs.Primaries.{primary_of};
ghost use Rattle.mt_stands.specs.Switching.{BeginsReverse, BeginsSwitch, Completes, StepsWorkflow, UndoesWorkflow};
ghost use Rattle.mt_stands.specs.Ways.{IsCore, CoreState, CoreSteps};

use crate::{
    a_begin_answers_as_the_definitions_allow, a_begin_leaves_the_primaries,
    a_begin_leaves_the_workflows, a_complete_answers_as_the_definitions_allow, a_core_stays_one,
    a_log_ends_where_the_definitions_say, a_step_answers_as_the_definitions_allow,
    a_step_leaves_the_primaries, a_step_leaves_the_workflows,
    an_undo_answers_as_the_definitions_allow, an_undo_leaves_the_primaries,
    an_undo_leaves_the_workflows, steps_and_undos_leave_the_topology,
    what_complete_makes_stands_for_the_next_state, what_is_kept_of_the_ways_stays,
};
use mt_laws::{
    a_live_workflow_is_found_by_its_part, each_next_state_is_reached,
    only_named_events_change_a_workflow, ways_keep_their_course,
};
use mt_stands::a_way_that_begins_leaves_the_topology;
use mt_watch::Asks;

/// A begin of a way, forward or back, leads from each state that the controller stands for to the next one.
pub fn a_begin_steps()
    ensures switch { (scopes : List Scope) (old new : CoreState) (workflow : List ℕ) (types : TypeSet) (answer : Answer)
        → BeginsSwitch old workflow types answer new → CoreSteps scopes old (begin_switch workflow types) answer new }
    ensures reverse { (scopes : List Scope) (old new : CoreState) (workflow : List ℕ) (types : TypeSet) (answer : Answer)
        → BeginsReverse old workflow types answer new → CoreSteps scopes old (begin_reverse workflow types) answer new }
{
    a_live_workflow_is_found_by_its_part();
    each_next_state_is_reached();
    only_named_events_change_a_workflow();
    a_begin_answers_as_the_definitions_allow();
    a_begin_leaves_the_primaries();
    a_begin_leaves_the_workflows();
    a_way_that_begins_leaves_the_topology();
}

/// A step of a way leads from each state that the controller stands for to the next one, whatever its number and its direction, and
/// whatever it answers: done, refused by a test or by a watcher, or if no memory is left. It leaves a core.
pub fn a_step_steps<W: Asks>(watchers: &W)
    ensures steps { (old new : CoreState) (workflow : List ℕ) (at : ℕ) (answer : Answer)
        → StepsWorkflow old (W.scopes watchers.now) (W.may_answer watchers.now) workflow at answer new
        → CoreSteps (W.scopes watchers.now) old (step workflow at) answer new }
    ensures leaves { (old new : CoreState) (workflow : List ℕ) (at : ℕ) (answer : Answer) → BringsNames (step workflow at)
        → StepsWorkflow old (W.scopes watchers.now) (W.may_answer watchers.now) workflow at answer new → IsCore old → IsCore new }
{
    a_live_workflow_is_found_by_its_part();
    each_next_state_is_reached();
    a_step_answers_as_the_definitions_allow(watchers);
    a_log_ends_where_the_definitions_say();
    a_step_leaves_the_primaries(watchers);
    a_step_leaves_the_workflows();
    steps_and_undos_leave_the_topology();
    what_is_kept_of_the_ways_stays(watchers);
    a_core_stays_one();
}

/// An undo leads from each state that the controller stands for to the next one.
pub fn an_undo_steps<W: Asks>(watchers: &W)
    ensures { (scopes : List Scope) (old new : CoreState) (workflow : List ℕ) (at : ℕ) (answer : Answer)
        → UndoesWorkflow old workflow at answer new → CoreSteps scopes old (undo workflow at) answer new }
{
    a_live_workflow_is_found_by_its_part();
    each_next_state_is_reached();
    ways_keep_their_course();
    an_undo_answers_as_the_definitions_allow();
    an_undo_leaves_the_primaries();
    an_undo_leaves_the_workflows();
    steps_and_undos_leave_the_topology();
    what_is_kept_of_the_ways_stays(watchers);
}

/// Complete leads from each state that the controller stands for to the next one.
pub fn a_complete_steps()
    ensures { (scopes : List Scope) (old new : CoreState) (workflow : List ℕ) (answer : Answer)
        → Completes old workflow answer new → ((keyspace : List ℕ) (n : ℕ) → IsPrimary (primary_of old.base.primaries keyspace n))
        → CoreSteps scopes old (complete workflow) answer new }
{
    a_complete_answers_as_the_definitions_allow();
    what_complete_makes_stands_for_the_next_state();
}
