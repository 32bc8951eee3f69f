//! Laws on what begins, steps and undos do to the workflows of a base.
ghost use Rattle.std.specs.Prelude.{◌≡◌, ◌==◌, ℕ, true, false, List, Option, None, Some, map, option_map};
ghost use Rattle.std.specs.Map.{set_value};
ghost use Rattle.mt_laws.specs.WayBack.{IsReached};
ghost use Rattle.mt_names.specs.Names.{same_text};
ghost use Rattle.mt_names.specs.declared.types.TypeSet.{TypeSet};
ghost use Rattle.mt_plain.specs.Answers.{Answers};
ghost use Rattle.mt_plain.specs.Events.{Way, begin_reverse, begin_switch, done, step, undo};
ghost use Rattle.mt_plain.specs.Next.{next, types_and, types_without};
ghost use Rattle.mt_plain.specs.Plain.{Live, Plain, create_back, last_step, live_at, next_step, stands_done};
ghost use Rattle.mt_plain.specs.Slots.{slot_before_way};
ghost use Rattle.mt_stands.specs.Rows.{stream_of};
ghost use Rattle.mt_stands.specs.Base.{Workflows, workflow_at};
ghost use Rattle.mt_stands.specs.Stands.{AreWorkflows};
ghost use Rattle.mt_stands.specs.Switching.{way_to};
ghost use Rattle.mt_steps.specs.Plans.{step_at};
ghost use Rattle.mt_steps.specs.Streams.{other_name, workflow_stepped, workflow_undone};
ghost use Rattle.mt_stream.specs.Streams.{StreamValue};
ghost use Rattle.mt_workflow.specs.Workflows.{WorkflowState};
ghost use Rattle.mt_refinement.specs.Ends.{ends_of};

use mt_laws::{
    a_step_changes_what_changes_with_its_number, an_undo_changes_what_changed_with_the_last_step,
    only_named_events_change_a_workflow, ways_keep_their_course,
};

/// A way that begins on a workflow, forward or back, leaves workflows that are those of the next state.
pub fn a_begin_leaves_the_workflows()
    ensures switch { (p : Plain) → IsReached p → (workflows : Workflows) → AreWorkflows p workflows
        → (name : List ℕ) (w : WorkflowState) (types : TypeSet) → workflow_at workflows name ≡ Some w
        → Answers p (begin_switch name types) done
        → AreWorkflows (next p (begin_switch name types) done)
        (set_value (same_text w.name) workflows (record w { way = Some (way_to w false (types_and w.switched types)) })) }
    ensures reverse { (p : Plain) → IsReached p → (workflows : Workflows) → AreWorkflows p workflows
        → (name : List ℕ) (w : WorkflowState) (types : TypeSet) → workflow_at workflows name ≡ Some w
        → Answers p (begin_reverse name types) done
        → AreWorkflows (next p (begin_reverse name types) done)
        (set_value (same_text w.name) workflows (record w { way = Some (way_to w true (types_without w.switched types)) })) }
{
    only_named_events_change_a_workflow();
}

/// A step of a workflow's way, whatever its number, leaves workflows that are those of the next state, if the stream of each
/// lane the other way is made at the end of the log of the new owner that it will read.
pub fn a_step_leaves_the_workflows()
    ensures { (p : Plain) → IsReached p → (workflows : Workflows) → AreWorkflows p workflows
        → (name : List ℕ) (live : Live) (w : WorkflowState) (way : Way) (at : ℕ) → live_at p name ≡ Some live
        → workflow_at workflows name ≡ Some w → w.way ≡ Some way → Answers p (step name at) done
        → AreWorkflows (next p (step name at) done)
        (set_value (same_text w.name) workflows (workflow_stepped w way (step_at (next_step way)) (ends_of p live))) }
{
    a_step_changes_what_changes_with_its_number();
    only_named_events_change_a_workflow();
    ways_keep_their_course();
}

/// An undo of the last step of a workflow's way leaves workflows that are those of the next state, if the stream that each
/// lane is given back is the one that stood there before the way; and so does one that closes a way of which no step stands done.
pub fn an_undo_leaves_the_workflows()
    ensures last { (p : Plain) → IsReached p → (workflows : Workflows) → AreWorkflows p workflows
        → (name : List ℕ) (live : Live) (w : WorkflowState) (way : Way) (at : ℕ) (kept : List (Option StreamValue)) → live_at p name ≡ Some live
        → workflow_at workflows name ≡ Some w → w.way ≡ Some way → Answers p (undo name at) done → (way.done == 0) ≡ false
        → (stands_done way create_back ≡ true
        → kept ≡ map (λ lane. option_map (stream_of live lane) (slot_before_way live lane (other_name way))) live.lanes)
        → AreWorkflows (next p (undo name at) done)
        (set_value (same_text w.name) workflows (workflow_undone w way (step_at (last_step way)) kept)) }
    ensures none { (p : Plain) → IsReached p → (workflows : Workflows) → AreWorkflows p workflows
        → (name : List ℕ) (w : WorkflowState) (way : Way) (at : ℕ)
        → workflow_at workflows name ≡ Some w → w.way ≡ Some way → Answers p (undo name at) done → (way.done == 0) ≡ true
        → AreWorkflows (next p (undo name at) done) (set_value (same_text w.name) workflows (record w { way = None })) }
{
    an_undo_changes_what_changed_with_the_last_step();
    only_named_events_change_a_workflow();
    ways_keep_their_course();
}
