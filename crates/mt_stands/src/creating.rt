//! Laws on Create and Cancel.
ghost use Rattle.std.specs.Prelude.{◌≡◌, ℕ, List, None, Some};
ghost use Rattle.mt_laws.specs.WayBack.{IsReached};
ghost use Rattle.mt_model.specs.Part.{part_keys, with_entries, with_places, without_places};
ghost use Rattle.mt_model.specs.Topology.{Rules, TopologyState};
ghost use Rattle.mt_names.specs.Types.{no_types};
ghost use Rattle.mt_plain.specs.Answers.{Answers};
ghost use Rattle.mt_plain.specs.Events.{cancel, create, done};
ghost use Rattle.mt_plain.specs.Next.{next};
ghost use Rattle.mt_plain.specs.Plain.{Live, Plain, each_once, live_at};
ghost use Rattle.mt_plain.specs.Refuse.{refusal_of};
ghost use Rattle.mt_stands.specs.Keys.{IsKept, created_live, kept_entries, kept_of, keys_of_part, part_entries};
ghost use Rattle.mt_stands.specs.Topologies.{TopologyStands};

use mt_laws::{
    a_live_workflow_is_found_by_its_part, each_next_state_is_reached,
    live_workflows_stand_in_place, names_as_a_set_have_each_name_once,
    only_named_events_change_a_workflow, only_what_stands_has_a_place,
};

/// Create leaves a topology that stands for the next state where places are made for the keys of the new part, and its
/// entries are written with nothing switched, over the rules that stood at its keys. These rules are what is kept: in the
/// part they say what the topology says as if no workflow were live.
pub fn create_writes_the_part()
    ensures live { (p : Plain) (name source target : List ℕ) (tables : List (List ℕ)) → Answers p (create name source target tables) done
        → live_at (next p (create name source target tables) done) name ≡ Some (created_live p name source target (each_once tables)) }
    ensures stands { (p : Plain) (t : TopologyState) (name source target : List ℕ) (tables : List (List ℕ)) (w : Live) → IsReached p
        → Answers p (create name source target tables) done → live_at (next p (create name source target tables) done) name ≡ Some w
        → TopologyStands p t → TopologyStands (next p (create name source target tables) done)
        (with_entries (with_places t (keys_of_part w)) (part_entries (kept_of t.rules w) w no_types)) }
    ensures kept { (p : Plain) (t : TopologyState) (name source target : List ℕ) (tables : List (List ℕ)) (w : Live) → IsReached p
        → Answers p (create name source target tables) done → live_at (next p (create name source target tables) done) name ≡ Some w
        → TopologyStands p t → IsKept p.topology w (kept_of t.rules w) }
{
    a_live_workflow_is_found_by_its_part();
    each_next_state_is_reached();
    live_workflows_stand_in_place();
}

/// Places that are made for the keys of a part that Create would make are dropped again without a trace, where the state
/// refuses no such Create: each of these keys that had a place holds something, and no key stands twice among them.
pub fn a_create_taken_back_leaves_the_topology()
    ensures { (p : Plain) (t : TopologyState) (name source target : List ℕ) (tables : List (List ℕ)) → IsReached p
        → refusal_of p (create name source target tables) ≡ None → TopologyStands p t
        → without_places (with_places t (part_keys source target (each_once tables))) (part_keys source target (each_once tables)) ≡ t }
{
    a_live_workflow_is_found_by_its_part();
    each_next_state_is_reached();
    live_workflows_stand_in_place();
    names_as_a_set_have_each_name_once();
    only_what_stands_has_a_place();
}

/// Cancel leaves a topology that stands for the next state where what was kept is written back over the keys of the part,
/// and those of their places that then hold nothing are dropped.
pub fn cancel_writes_what_was_kept()
    ensures { (p : Plain) (t : TopologyState) (name : List ℕ) (w : Live) (kept : Rules) → IsReached p → live_at p name ≡ Some w
        → IsKept p.topology w kept → Answers p (cancel name) done → TopologyStands p t
        → TopologyStands (next p (cancel name) done) (without_places (with_entries t (kept_entries kept w)) (keys_of_part w)) }
{
    a_live_workflow_is_found_by_its_part();
    each_next_state_is_reached();
    live_workflows_stand_in_place();
    only_named_events_change_a_workflow();
    only_what_stands_has_a_place();
}
