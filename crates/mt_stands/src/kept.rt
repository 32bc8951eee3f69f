//! Laws on what is kept of the rules from before Create, and on the opening.
ghost use Rattle.std.specs.Prelude.{◌≡◌, ℕ, List, Some};
ghost use Rattle.mt_laws.specs.WayBack.{IsReached};
ghost use Rattle.mt_model.specs.declared.entries.Scope.{Scope};
ghost use Rattle.mt_model.specs.Topology.{Rules, empty_topology};
ghost use Rattle.mt_plain.specs.Answers.{Answers};
ghost use Rattle.mt_plain.specs.Events.{Answer, Event};
ghost use Rattle.mt_plain.specs.Next.{next};
ghost use Rattle.mt_plain.specs.Plain.{Live, Plain, live_at, opening};
ghost use Rattle.mt_stands.specs.Keys.{IsKept};
ghost use Rattle.mt_stands.specs.Topologies.{TopologyStands};

use mt_laws::{
    a_live_workflow_is_found_by_its_part, each_next_state_is_reached,
    live_workflows_stand_in_place, only_named_events_change_a_workflow,
    only_named_events_change_the_state, only_what_stands_has_a_place,
};
use mt_model::places_stay_distinct;

/// A topology without keyspaces and rules stands for the opening.
pub fn the_empty_topology_stands_for_the_opening()
    ensures { (scopes : List Scope) → TopologyStands (opening scopes) empty_topology }
{
    places_stay_distinct();
}

/// What is kept of the rules for a workflow goes on saying in its part what the topology says as if no workflow were live,
/// whatever event comes with whatever answer, as long as the workflow stays live.
pub fn what_is_kept_stays_what_stood()
    ensures { (p : Plain) (event : Event) (answer : Answer) (name : List ℕ) (w v : Live) (kept : Rules) → IsReached p
        → Answers p event answer → live_at p name ≡ Some w → live_at (next p event answer) name ≡ Some v
        → IsKept p.topology w kept → IsKept (next p event answer).topology v kept }
{
    a_live_workflow_is_found_by_its_part();
    each_next_state_is_reached();
    live_workflows_stand_in_place();
    only_named_events_change_a_workflow();
    only_named_events_change_the_state();
    only_what_stands_has_a_place();
}
