//! Laws on what the events of a way do to the primaries of a base: a step, an undo, and a begin.
ghost use Rattle.std.specs.Prelude.{◌≡◌, ℕ, ◌==◌, true, false, map, List, Option, Some, Ok};
ghost use Rattle.mt_model.specs.declared.entries.Scope.{Scope};
ghost use Rattle.mt_model.specs.Topology.{Marks};
ghost use Rattle.mt_names.specs.declared.types.TypeSet.{TypeSet};
ghost use Rattle.mt_plain.specs.Answers.{Answers};
ghost use Rattle.mt_plain.specs.Events.{Way, begin_reverse, begin_switch, done, step, undo};
ghost use Rattle.mt_plain.specs.Next.{next};
ghost use Rattle.mt_plain.specs.Plain.{Live, Plain, last_step, live_at, next_step, refresh_source};
ghost use Rattle.mt_primary.specs.Primary.{PrimaryState};
ghost use Rattle.mt_stands.specs.Rows.{RowsStand};
ghost use Rattle.mt_primary.specs.Primaries.{primary_of, shards_of};
ghost use Rattle.mt_stands.specs.Base.{BaseState, workflow_at};
ghost use Rattle.mt_stands.specs.Stands.{ArePrimaries, StandsWith};
ghost use Rattle.mt_stands.specs.Switching.{with_primaries};
ghost use Rattle.mt_steps.specs.Plans.{step_at};
ghost use Rattle.mt_steps.specs.Refreshes.{Sites};
ghost use Rattle.mt_steps.specs.Steps.{Attempts, IsGivenBack, given_listed};
ghost use Rattle.mt_steps.specs.Shards.{last_shard};
ghost use Rattle.mt_steps.specs.Streams.{log_ends};
ghost use Rattle.mt_workflow.specs.Workflows.{WorkflowState};
ghost use Rattle.mt_refinement.specs.Ends.{ends_of};

use mt_laws::{
    a_live_workflow_is_found_by_its_part, a_workflow_that_changes_changes_its_own_part,
    live_workflows_stand_in_place, steps_and_undos_change_the_state_by_their_numbers,
    ways_keep_their_course,
};
use mt_primary::{
    a_notice_tells_what_its_change_tells, a_refresh_concerns_named_tables, a_refresh_is_taken_back,
    denials_change_nothing_else,
};
use mt_stands::{a_step_keeps_rows_and_logs, events_that_change_no_row_keep_rows_and_logs};
use mt_watch::Asks;

/// What may be refused of a step, where it is done, leaves primaries that have the tables, rows and logs of the next state, and
/// whose own lists refuse what is refused there.
pub fn a_step_leaves_the_primaries<W: Asks>(watchers: &W)
    ensures { (p : Plain) (scopes : List Scope) (base : BaseState) → StandsWith p scopes base
        → (name : List ℕ) (live : Live) (w : WorkflowState) (way : Way) (at id : ℕ) (old new : Sites) → live_at p name ≡ Some live
        → workflow_at base.workflows name ≡ Some w → w.way ≡ Some way → Answers p (step name at) done
        → old.source ≡ primary_of base.primaries w.source 0 → old.targets ≡ (shards_of base.primaries w.target).each
        → Attempts (W.scopes watchers.now) (W.may_answer watchers.now) id base.topology w way (step_at (next_step way)) old (Ok tt) new
        → ArePrimaries (next p (step name at) done) (with_primaries base.primaries w new.source new.targets)
        × RowsStand (next p (step name at) done) (primary_of (with_primaries base.primaries w new.source new.targets)) }
{
    a_live_workflow_is_found_by_its_part();
    live_workflows_stand_in_place();
    ways_keep_their_course();
    steps_and_undos_change_the_state_by_their_numbers();
    a_notice_tells_what_its_change_tells();
    a_refresh_concerns_named_tables();
    a_refresh_is_taken_back();
    denials_change_nothing_else();
    a_step_keeps_rows_and_logs();
}

/// A refresh of a primary of the old owner records that its own list had none of the tables.
pub fn a_refresh_records_an_empty_list<W: Asks>(watchers: &W)
    ensures { (p : Plain) (scopes : List Scope) (base : BaseState) → StandsWith p scopes base
        → (name : List ℕ) (live : Live) (w : WorkflowState) (way : Way) (at id : ℕ) (old new : Sites) → live_at p name ≡ Some live
        → workflow_at base.workflows name ≡ Some w → w.way ≡ Some way → Answers p (step name at) done
        → old.source ≡ primary_of base.primaries w.source 0 → old.targets ≡ (shards_of base.primaries w.target).each
        → next_step way ≡ refresh_source
        → Attempts (W.scopes watchers.now) (W.may_answer watchers.now) id base.topology w way (step_at (next_step way)) old (Ok tt) new
        → new.listed ≡ Some (map (λ table. (table, false)) w.tables) }
{
    a_live_workflow_is_found_by_its_part();
    live_workflows_stand_in_place();
    ways_keep_their_course();
}

/// What an undo gives back to a primary of the old owner leaves primaries that have the tables, rows and logs of the next state, and
/// whose own lists refuse what is refused there, if an undone refresh gives back a list without the tables.
pub fn an_undo_leaves_the_primaries()
    ensures last { (p : Plain) (scopes : List Scope) (base : BaseState) → StandsWith p scopes base
        → (name : List ℕ) (live : Live) (w : WorkflowState) (way : Way) (at : ℕ) (listed : Option Marks) (source : PrimaryState) (targets : List PrimaryState)
        → live_at p name ≡ Some live → workflow_at base.workflows name ≡ Some w → w.way ≡ Some way → Answers p (undo name at) done
        → (way.done == 0) ≡ false
        → (last_step way ≡ refresh_source → listed ≡ Some (map (λ table. (table, false)) w.tables))
        → IsGivenBack way.before.primary (last_shard way) (given_listed (step_at (last_step way)) listed) (primary_of base.primaries w.source 0) (shards_of base.primaries w.target).each source targets
        → ArePrimaries (next p (undo name at) done) (with_primaries base.primaries w source targets)
        × RowsStand (next p (undo name at) done) (primary_of (with_primaries base.primaries w source targets)) }
    ensures none { (p : Plain) (scopes : List Scope) (base : BaseState) → StandsWith p scopes base
        → (name : List ℕ) (live : Live) (w : WorkflowState) (way : Way) (at : ℕ) → live_at p name ≡ Some live
        → workflow_at base.workflows name ≡ Some w → w.way ≡ Some way → Answers p (undo name at) done → (way.done == 0) ≡ true
        → ArePrimaries (next p (undo name at) done) base.primaries × RowsStand (next p (undo name at) done) (primary_of base.primaries) }
{
    a_live_workflow_is_found_by_its_part();
    live_workflows_stand_in_place();
    ways_keep_their_course();
    steps_and_undos_change_the_state_by_their_numbers();
    a_notice_tells_what_its_change_tells();
    a_refresh_concerns_named_tables();
    a_refresh_is_taken_back();
    denials_change_nothing_else();
    events_that_change_no_row_keep_rows_and_logs();
}

/// A way that begins, forward or back, leaves the primaries as they are, and they have the tables, rows and logs of the next state, and
/// their own lists refuse what is refused there.
pub fn a_begin_leaves_the_primaries()
    ensures switch { (p : Plain) (scopes : List Scope) (base : BaseState) → StandsWith p scopes base
        → (name : List ℕ) (types : TypeSet) → Answers p (begin_switch name types) done
        → ArePrimaries (next p (begin_switch name types) done) base.primaries
        × RowsStand (next p (begin_switch name types) done) (primary_of base.primaries) }
    ensures reverse { (p : Plain) (scopes : List Scope) (base : BaseState) → StandsWith p scopes base
        → (name : List ℕ) (types : TypeSet) → Answers p (begin_reverse name types) done
        → ArePrimaries (next p (begin_reverse name types) done) base.primaries
        × RowsStand (next p (begin_reverse name types) done) (primary_of base.primaries) }
{
    a_live_workflow_is_found_by_its_part();
    a_workflow_that_changes_changes_its_own_part();
    events_that_change_no_row_keep_rows_and_logs();
}

/// The logs that the streams of a way's making will read are as long as the definitions say.
pub fn a_log_ends_where_the_definitions_say()
    ensures { (p : Plain) (scopes : List Scope) (base : BaseState) → StandsWith p scopes base
        → (name : List ℕ) (live : Live) (w : WorkflowState) (way : Way) → live_at p name ≡ Some live
        → workflow_at base.workflows name ≡ Some w → w.way ≡ Some way
        → log_ends way (primary_of base.primaries w.source 0) (shards_of base.primaries w.target).each ≡ ends_of p live }
{
    live_workflows_stand_in_place();
}
