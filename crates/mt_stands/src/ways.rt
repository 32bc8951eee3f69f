//! Laws on the traffic commands.
ghost use Rattle.std.specs.Prelude.{◌≡◌, ℕ, List, Some};
ghost use Rattle.mt_laws.specs.WayBack.{IsReached};
ghost use Rattle.mt_model.specs.Part.{with_entries};
ghost use Rattle.mt_model.specs.Topology.{Rules, TopologyState};
ghost use Rattle.mt_names.specs.declared.types.TypeSet.{TypeSet};
ghost use Rattle.mt_plain.specs.Answers.{Answers};
ghost use Rattle.mt_plain.specs.Events.{Way, begin_reverse, begin_switch, done, step, undo};
ghost use Rattle.mt_plain.specs.Next.{next};
ghost use Rattle.mt_plain.specs.Plain.{Live, Plain, last_step, live_at, next_step};
ghost use Rattle.mt_stands.specs.Keys.{IsKept, part_entries, step_entries};
ghost use Rattle.mt_stands.specs.Topologies.{TopologyStands};

use mt_laws::{
    a_live_workflow_is_found_by_its_part, a_workflow_that_changes_changes_its_own_part,
    each_next_state_is_reached, only_named_events_change_a_workflow,
    only_named_events_change_the_state, steps_and_undos_change_the_state_by_their_numbers,
};

/// A way that begins, forward or back, leaves a topology that stands for a state as it is, and it stands for the next state.
pub fn a_way_that_begins_leaves_the_topology()
    ensures switch { (p : Plain) (t : TopologyState) (name : List ℕ) (types : TypeSet) → IsReached p
        → Answers p (begin_switch name types) done → TopologyStands p t
        → TopologyStands (next p (begin_switch name types) done) t }
    ensures reverse { (p : Plain) (t : TopologyState) (name : List ℕ) (types : TypeSet) → IsReached p
        → Answers p (begin_reverse name types) done → TopologyStands p t
        → TopologyStands (next p (begin_reverse name types) done) t }
{
    a_live_workflow_is_found_by_its_part();
    each_next_state_is_reached();
    only_named_events_change_a_workflow();
    only_named_events_change_the_state();
    a_workflow_that_changes_changes_its_own_part();
}

/// A step, whatever its number, leaves a topology that stands for the next state where the entries are written that change
/// with its number, with their values of the types after the way; and so does an undo, with those of the last step and of
/// the types before the way. Most steps change no entry. What the workflow keeps of the rules before Create is all that is
/// read of them.
pub fn steps_and_undos_write_what_is_theirs()
    ensures step { (p : Plain) (t : TopologyState) (name : List ℕ) (w : Live) (way : Way) (kept : Rules) (at : ℕ) → IsReached p
        → live_at p name ≡ Some w → w.way ≡ Some way → IsKept p.topology w kept → Answers p (step name at) done
        → TopologyStands p t
        → TopologyStands (next p (step name at) done) (with_entries t (step_entries kept w way.after (next_step way))) }
    ensures undo { (p : Plain) (t : TopologyState) (name : List ℕ) (w : Live) (way : Way) (kept : Rules) (at : ℕ) → IsReached p
        → live_at p name ≡ Some w → w.way ≡ Some way → IsKept p.topology w kept → Answers p (undo name at) done
        → TopologyStands p t
        → TopologyStands (next p (undo name at) done) (with_entries t (step_entries kept w way.before (last_step way))) }
{
    a_live_workflow_is_found_by_its_part();
    each_next_state_is_reached();
    only_named_events_change_a_workflow();
    only_named_events_change_the_state();
    steps_and_undos_change_the_state_by_their_numbers();
}

/// The entries of a workflow follow from its sides and tables, and those of a step from its switched types and open way
/// besides: what else a workflow has, as its name and how far its copy has come, is not read.
pub fn entries_follow_from_sides_types_and_way()
    ensures part { (v w : Live) (kept : Rules) (types : TypeSet) → v.source ≡ w.source → v.target ≡ w.target
        → v.tables ≡ w.tables → part_entries kept v types ≡ part_entries kept w types }
    ensures step { (v w : Live) (kept : Rules) (types : TypeSet) (n : ℕ) → v.source ≡ w.source → v.target ≡ w.target
        → v.tables ≡ w.tables → v.switched ≡ w.switched → v.way ≡ w.way → step_entries kept v types n ≡ step_entries kept w types n }
{}
