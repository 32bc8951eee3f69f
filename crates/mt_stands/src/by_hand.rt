//! Laws on what is made by hand.
ghost use Rattle.std.specs.Prelude.{ℕ, List, Option};
ghost use Rattle.mt_laws.specs.WayBack.{IsReached};
ghost use Rattle.mt_model.specs.Topology.{TopologyState, with_keyspace, with_rule, with_table};
ghost use Rattle.mt_names.specs.declared.keys.RuleKey.{RuleKey};
ghost use Rattle.mt_names.specs.declared.keys.RuleTarget.{RuleTarget};
ghost use Rattle.mt_names.specs.Shards.{Cuts};
ghost use Rattle.mt_plain.specs.Answers.{Answers};
ghost use Rattle.mt_plain.specs.Events.{add_keyspace, add_table, done, edit_rule};
ghost use Rattle.mt_plain.specs.Next.{next};
ghost use Rattle.mt_plain.specs.Plain.{Plain};
ghost use Rattle.mt_stands.specs.Topologies.{TopologyStands};

use mt_laws::only_what_stands_has_a_place;

/// A keyspace, a table and a rule that are made by hand leave a topology that stands for the next state where the same is
/// made of it, whatever workflows are live.
pub fn edits_by_hand_are_made_in_the_topology()
    ensures keyspace { (p : Plain) (t : TopologyState) (name : List ℕ) (cuts : Cuts) → Answers p (add_keyspace name cuts) done → TopologyStands p t
        → TopologyStands (next p (add_keyspace name cuts) done) (with_keyspace t name cuts) }
    ensures table { (p : Plain) (t : TopologyState) (keyspace table : List ℕ) → Answers p (add_table keyspace table) done
        → TopologyStands p t → TopologyStands (next p (add_table keyspace table) done) (with_table t keyspace table) }
    ensures rule { (p : Plain) (t : TopologyState) (key : RuleKey) (target : Option RuleTarget) → IsReached p
        → Answers p (edit_rule key target) done → TopologyStands p t
        → TopologyStands (next p (edit_rule key target) done) (record t { rules = with_rule t.rules key target }) }
{
    only_what_stands_has_a_place();
}
