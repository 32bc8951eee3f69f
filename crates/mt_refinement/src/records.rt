//! Laws on what steps and undos write in the topology, and on what is kept for the undo of a way.
ghost use Rattle.std.specs.Prelude.{◌≡◌, ◌==◌, ⊤, ℕ, true, false, List, Ok};
ghost use Rattle.std.specs.Map.{set_value};
ghost use Rattle.mt_model.specs.declared.entries.Scope.{Scope};
ghost use Rattle.mt_model.specs.Part.{with_entries};
ghost use Rattle.mt_names.specs.Names.{same_text};
ghost use Rattle.mt_names.specs.declared.types.TypeSet.{TypeSet};
ghost use Rattle.mt_plain.specs.Answers.{Answers};
ghost use Rattle.mt_plain.specs.Events.{Way, begin_reverse, begin_switch, done, step, undo};
ghost use Rattle.mt_plain.specs.Next.{next, types_and, types_without};
ghost use Rattle.mt_plain.specs.Plain.{Live, Plain, last_step, live_at, next_step};
ghost use Rattle.mt_stands.specs.Base.{workflow_at};
ghost use Rattle.mt_stands.specs.Stands.{StandsWith};
ghost use Rattle.mt_stands.specs.Switching.{sides_of, way_to, with_sides, with_way};
ghost use Rattle.mt_stands.specs.Ways.{GivesBack, CoreState, CoreStands, WaysStand, open_at};
ghost use Rattle.mt_stands.specs.Topologies.{TopologyStands};
ghost use Rattle.mt_steps.specs.declared.log.OpenWay.{OpenWay};
ghost use Rattle.mt_steps.specs.Entries.{recorded_of, step_entries};
ghost use Rattle.mt_steps.specs.Plans.{number, step_at};
ghost use Rattle.mt_steps.specs.Steps.{IsStepped, IsUndone, SidesState};
ghost use Rattle.mt_steps.specs.Undo.{UndoState};
ghost use Rattle.mt_workflow.specs.Workflows.{WorkflowState};

use mt_laws::{
    a_live_workflow_is_found_by_its_part, each_next_state_is_reached,
    live_workflows_stand_in_place, only_named_events_change_a_workflow,
    only_named_events_change_the_state, steps_and_undos_change_the_state_by_their_numbers,
    ways_keep_their_course,
};
use mt_stands::steps_and_undos_write_what_is_theirs;
use mt_watch::Asks;

/// What a step writes leads from a topology that stands for a state to one that stands for the next, and so does what an undo
/// writes back, if that is what stood before the way.
pub fn steps_and_undos_leave_the_topology()
    ensures step { (p : Plain) (scopes : List Scope) (s : CoreState) → StandsWith p scopes s.base
        → (name : List ℕ) (w : WorkflowState) (way : Way) (at : ℕ) → workflow_at s.base.workflows name ≡ Some w → w.way ≡ Some way
        → Answers p (step name at) done
        → TopologyStands (next p (step name at) done) (with_entries s.base.topology (step_entries w way.after (number (step_at (next_step way))))) }
    ensures undo { (p : Plain) (scopes : List Scope) (s : CoreState) → StandsWith p scopes s.base
        → (name : List ℕ) (live : Live) (w : WorkflowState) (way : Way) (at : ℕ) (log : UndoState) → live_at p name ≡ Some live
        → workflow_at s.base.workflows name ≡ Some w → w.way ≡ Some way
        → Answers p (undo name at) done → (way.done == 0) ≡ false → GivesBack live w way log
        → TopologyStands (next p (undo name at) done) (with_entries s.base.topology (recorded_of w (number (step_at (last_step way))) log.entries)) }
    ensures closed { (p : Plain) (scopes : List Scope) (s : CoreState) → StandsWith p scopes s.base
        → (name : List ℕ) (w : WorkflowState) (way : Way) (at : ℕ) → workflow_at s.base.workflows name ≡ Some w → w.way ≡ Some way
        → Answers p (undo name at) done → (way.done == 0) ≡ true → TopologyStands (next p (undo name at) done) s.base.topology }
{
    a_live_workflow_is_found_by_its_part();
    each_next_state_is_reached();
    only_named_events_change_a_workflow();
    only_named_events_change_the_state();
    steps_and_undos_change_the_state_by_their_numbers();
    ways_keep_their_course();
    steps_and_undos_write_what_is_theirs();
}

/// What is kept of the ways stands for the next state behind a begin, a step and an undo.
pub fn what_is_kept_of_the_ways_stays<W: Asks>(watchers: &W)
    ensures switch { (p : Plain) (scopes : List Scope) (s : CoreState) → CoreStands p scopes s
        → (name : List ℕ) (w : WorkflowState) (types : TypeSet) → workflow_at s.base.workflows name ≡ Some w
        → Answers p (begin_switch name types) done
        → WaysStand (next p (begin_switch name types) done) (with_way s w (way_to w false (types_and w.switched types))).base
        (with_way s w (way_to w false (types_and w.switched types))).ways }
    ensures reverse { (p : Plain) (scopes : List Scope) (s : CoreState) → CoreStands p scopes s
        → (name : List ℕ) (w : WorkflowState) (types : TypeSet) → workflow_at s.base.workflows name ≡ Some w
        → Answers p (begin_reverse name types) done
        → WaysStand (next p (begin_reverse name types) done) (with_way s w (way_to w true (types_without w.switched types))).base
        (with_way s w (way_to w true (types_without w.switched types))).ways }
    ensures step { (p : Plain) (scopes : List Scope) (s : CoreState) → CoreStands p scopes s
        → (name : List ℕ) (w : WorkflowState) (way : Way) (o : OpenWay) (at : ℕ) (sides : SidesState) (log : UndoState)
        → workflow_at s.base.workflows name ≡ Some w → w.way ≡ Some way → open_at s.ways.opened name ≡ Some o
        → Answers p (step name at) done
        → IsStepped (W.scopes watchers.now) (W.may_answer watchers.now) o.number way (step_at (next_step way)) (sides_of s w) o.log sides log
        → WaysStand (next p (step name at) done) (with_sides s w sides (record { number = o.number; log = log })).base
        (with_sides s w sides (record { number = o.number; log = log })).ways }
    ensures undo { (p : Plain) (scopes : List Scope) (s : CoreState) → CoreStands p scopes s
        → (name : List ℕ) (w : WorkflowState) (way : Way) (o : OpenWay) (at : ℕ) (sides : SidesState) (log : UndoState)
        → workflow_at s.base.workflows name ≡ Some w → w.way ≡ Some way → open_at s.ways.opened name ≡ Some o
        → Answers p (undo name at) done → (way.done == 0) ≡ false
        → IsUndone way (step_at (last_step way)) (sides_of s w) o.log sides log
        → WaysStand (next p (undo name at) done) (with_sides s w sides (record { number = o.number; log = log })).base
        (with_sides s w sides (record { number = o.number; log = log })).ways }
    ensures closed { (p : Plain) (scopes : List Scope) (s : CoreState) → CoreStands p scopes s
        → (name : List ℕ) (w : WorkflowState) (way : Way) (o : OpenWay) (at : ℕ)
        → workflow_at s.base.workflows name ≡ Some w → w.way ≡ Some way → open_at s.ways.opened name ≡ Some o
        → Answers p (undo name at) done → (way.done == 0) ≡ true
        → WaysStand (next p (undo name at) done)
        (with_sides s w (record (sides_of s w) { workflow = record w { way = None } }) o).base
        (with_sides s w (record (sides_of s w) { workflow = record w { way = None } }) o).ways }
{
    a_live_workflow_is_found_by_its_part();
    live_workflows_stand_in_place();
    only_named_events_change_a_workflow();
    ways_keep_their_course();
}
