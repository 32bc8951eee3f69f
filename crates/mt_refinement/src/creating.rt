//! Laws on what a Create makes.
ghost use Rattle.std.specs.Prelude.{◌≡◌, ◌≢◌, ℕ, true, false, List, None};
ghost use Rattle.mt_model.specs.declared.entries.Scope.{Scope};
ghost use Rattle.mt_model.specs.declared.entries.Scope.TheVariants as scope;
ghost use Rattle.mt_plain.specs.Events.{Answer, create, done};
ghost use Rattle.mt_plain.specs.Next.{next};
ghost use Rattle.mt_plain.specs.Plain.{Plain, among, each_once};
ghost use Rattle.mt_plain.specs.Refuse.{refusal_of};
ghost use Rattle.mt_primary.specs.Primary.{PrimaryState, has_table};
ghost use Rattle.mt_refinement.specs.Made.{AreMadeDenied};
ghost use Rattle.mt_stands.specs.Base.{BaseState};
ghost use Rattle.mt_stands.specs.Stands.{StandsWith, Steps};
ghost use Rattle.mt_stands.specs.Workflows.{Creates, change_of, new_of, target_made, with_created};
ghost use Rattle.mt_watch.specs.Notices.{notice_of};
ghost use Rattle.mt_workflow.specs.Workflows.{WorkflowState};

use crate::create_refusals::a_create_is_refused_as_the_definitions_refuse_it;
use mt_laws::{
    each_next_state_is_reached, live_workflows_stand_in_place, only_named_events_change_a_workflow,
};
use mt_primary::{
    a_notice_tells_what_its_change_tells, a_refresh_concerns_named_tables,
    denials_change_nothing_else,
};
use mt_stands::{
    a_create_keeps_rows_and_logs, create_writes_the_part, entries_follow_from_sides_types_and_way,
    tables_made_and_dropped_leave_the_others,
};
use mt_watch::Asks;

/// What a new workflow makes of a primary of its target, if that has none of its tables and takes over the notice of the change
/// that Create makes: it has them then, empty and denied, and all else is as it was.
pub fn the_target_has_the_tables_denied()
    ensures { (w : WorkflowState) (old : PrimaryState) → w.source ≢ w.target
        → ((table : List ℕ) → among w.tables table ≡ true → has_table old table ≡ false)
        → AreMadeDenied w.tables old (target_made w (notice_of (scope.Primary w.target) (change_of w)) old) }
{
    a_notice_tells_what_its_change_tells();
    a_refresh_concerns_named_tables();
    denials_change_nothing_else();
    tables_made_and_dropped_leave_the_others();
}

/// What a Create makes of a base that stands for a state which doesn't refuse it stands for the next state.
pub fn what_a_create_makes_stands_for_the_next_state()
    ensures { (p : Plain) (scopes : List Scope) (base : BaseState) → StandsWith p scopes base
        → (workflow source target : List ℕ) (tables : List (List ℕ)) → refusal_of p (create workflow source target tables) ≡ None
        → StandsWith (next p (create workflow source target tables) done) scopes
        (with_created base (new_of base workflow source target (each_once tables))
        (notice_of (scope.Primary target) (change_of (new_of base workflow source target (each_once tables))))) }
{
    each_next_state_is_reached();
    live_workflows_stand_in_place();
    only_named_events_change_a_workflow();
    create_writes_the_part();
    entries_follow_from_sides_types_and_way();
    a_create_keeps_rows_and_logs();
    the_target_has_the_tables_denied();
}

/// A Create of a base leads from each state that the base stands for to the next one, whatever it answers: done, refused by a
/// test or by a watcher, or if no memory is left.
pub fn a_create_steps<W: Asks>(watchers: &W)
    ensures { (old new : BaseState) (workflow source target : List ℕ) (tables : List (List ℕ)) (answer : Answer)
        → Creates old (W.scopes watchers.now) (W.may_answer watchers.now) workflow source target tables answer new
        → Steps (W.scopes watchers.now) old (create workflow source target tables) answer new }
{
    a_create_is_refused_as_the_definitions_refuse_it();
    what_a_create_makes_stands_for_the_next_state();
}
