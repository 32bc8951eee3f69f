//! Laws on Complete.
ghost use Rattle.std.specs.Prelude.{◌≡◌, ℕ, List, Some};
ghost use Rattle.mt_laws.specs.WayBack.{IsReached};
ghost use Rattle.mt_model.specs.Part.{with_entries, without_places};
ghost use Rattle.mt_model.specs.Topology.{TopologyState};
ghost use Rattle.mt_plain.specs.Answers.{Answers};
ghost use Rattle.mt_plain.specs.Events.{complete, done};
ghost use Rattle.mt_plain.specs.Next.{next};
ghost use Rattle.mt_plain.specs.Plain.{Live, Plain, live_at};
ghost use Rattle.mt_stands.specs.Keys.{end_entries, end_keys};
ghost use Rattle.mt_stands.specs.Topologies.{TopologyStands};

use mt_laws::{
    a_live_workflow_is_found_by_its_part, each_next_state_is_reached,
    live_workflows_stand_in_place, only_named_events_change_a_workflow,
    only_what_stands_has_a_place,
};

/// Complete leaves a topology that stands for the next state where the end is written over the keys of the part and the
/// tables at the source, no rule, no denial, and the tables at the target alone, and those of their places that then hold
/// nothing are dropped; whatever other workflows are live.
pub fn complete_writes_the_end()
    ensures { (p : Plain) (t : TopologyState) (name : List ℕ) (w : Live) → IsReached p → live_at p name ≡ Some w
        → Answers p (complete name) done → TopologyStands p t
        → TopologyStands (next p (complete name) done) (without_places (with_entries t (end_entries w)) (end_keys w)) }
{
    a_live_workflow_is_found_by_its_part();
    each_next_state_is_reached();
    live_workflows_stand_in_place();
    only_named_events_change_a_workflow();
    only_what_stands_has_a_place();
}
