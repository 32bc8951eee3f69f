//! A law on what an event does to the controller.
ghost use Rattle.std.specs.Prelude.{List, ℕ};
ghost use Rattle.mt_plain.specs.Events.{Answer, Event};
ghost use Rattle.mt_primary.specs.Primary.{IsPrimary};
ghost use Rattle.mt_primary.specs.Primaries.{primary_of};
ghost use Rattle.mt_stands.specs.Ways.{CoreState, CoreSteps};
ghost use Rattle.mt_site.specs.Applies.{Applies, BringsBounds};

use mt_refinement::{
    a_begin_steps, a_complete_steps, a_create_steps_and_leaves_the_ways, a_step_steps,
    an_undo_steps, events_by_hand_step_and_leave_the_ways,
    events_on_workflows_step_and_leave_the_ways,
};
use mt_watch::Asks;

/// What an event does that brings bounds written as they should leads from each state that the controller stands for to the next one.
pub(crate) fn an_applied_event_steps<W: Asks>(watchers: &W)
    ensures { (old new : CoreState) (event : Event) (answer : Answer)
        → Applies (W.scopes watchers.now) (W.may_answer watchers.now) old event answer new
        → BringsBounds event → ((keyspace : List ℕ) (shard : ℕ) → IsPrimary (primary_of old.base.primaries keyspace shard))
        → CoreSteps (W.scopes watchers.now) old event answer new }
{
    events_by_hand_step_and_leave_the_ways();
    a_create_steps_and_leaves_the_ways(watchers);
    events_on_workflows_step_and_leave_the_ways();
    a_begin_steps();
    a_step_steps(watchers);
    an_undo_steps(watchers);
    a_complete_steps();
}
