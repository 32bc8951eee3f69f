//! Laws on how many places there are.
ghost use Rattle.std.specs.Prelude.{◌≡◌, ℕ, List, Some, length};
ghost use Rattle.mt_laws.specs.WayBack.{IsReached};
ghost use Rattle.mt_model.specs.Topology.{KeyspaceState, TopologyState, keyspace_at};
ghost use Rattle.mt_plain.specs.Plain.{Plain};
ghost use Rattle.mt_plain.specs.Refuse.{rule_count, table_count};
ghost use Rattle.mt_stands.specs.Topologies.{TopologyStands};

use mt_laws::{
    a_live_workflow_is_found_by_its_part, live_workflows_stand_in_place,
    only_what_stands_has_a_place, parts_are_apart,
};

/// A topology that stands for a state has as many rule places as the definitions count rule entries, those of live parts
/// among them, and as many keyspaces as the state.
pub fn places_are_as_many_as_the_definitions_count()
    ensures rules { (p : Plain) (t : TopologyState) → IsReached p → TopologyStands p t → length t.rules ≡ rule_count p }
    ensures keyspaces { (p : Plain) (t : TopologyState) → IsReached p → TopologyStands p t
        → length t.keyspaces ≡ length p.topology.keyspaces }
{
    a_live_workflow_is_found_by_its_part();
    live_workflows_stand_in_place();
    only_what_stands_has_a_place();
    parts_are_apart();
}

/// And each of its keyspaces has as many table places as the definitions count tables there, those that are moved there
/// among them.
pub fn tables_are_as_many_as_the_definitions_count()
    ensures { (p : Plain) (t : TopologyState) (keyspace : List ℕ) (state : KeyspaceState) → IsReached p → TopologyStands p t
        → keyspace_at t.keyspaces keyspace ≡ Some state → length state.tables ≡ table_count p keyspace }
{
    a_live_workflow_is_found_by_its_part();
    live_workflows_stand_in_place();
    only_what_stands_has_a_place();
    parts_are_apart();
}
