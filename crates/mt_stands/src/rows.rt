//! Laws on the events that change no entry.
ghost use Rattle.mt_laws.specs.Changes.{IsOfRows};
ghost use Rattle.mt_laws.specs.WayBack.{IsReached};
ghost use Rattle.mt_model.specs.Topology.{TopologyState};
ghost use Rattle.mt_plain.specs.Answers.{Answers};
ghost use Rattle.mt_plain.specs.Events.{Answer, Event, Refusal, refused};
ghost use Rattle.mt_plain.specs.Next.{next};
ghost use Rattle.mt_plain.specs.Plain.{Plain};
ghost use Rattle.mt_stands.specs.Topologies.{TopologyStands};

use mt_laws::{
    a_live_workflow_is_found_by_its_part, each_next_state_is_reached,
    only_named_events_change_a_workflow, only_named_events_change_the_state,
    rows_and_streams_change_no_entry,
};

/// A write, a read, an advance and Show leave a topology that stands for a state as it is, and it stands for the next state;
/// so does a refused event.
pub fn what_changes_no_entry_leaves_the_topology()
    ensures rows { (p : Plain) (t : TopologyState) (event : Event) (answer : Answer) → IsReached p → IsOfRows event
        → Answers p event answer → TopologyStands p t → TopologyStands (next p event answer) t }
    ensures refused { (p : Plain) (t : TopologyState) (event : Event) (refusal : Refusal) → TopologyStands p t
        → TopologyStands (next p event (refused refusal)) t }
{
    a_live_workflow_is_found_by_its_part();
    each_next_state_is_reached();
    only_named_events_change_a_workflow();
    only_named_events_change_the_state();
    rows_and_streams_change_no_entry();
}
