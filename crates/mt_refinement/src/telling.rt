//! Laws on what a base tells, and on the opening.
ghost use Rattle.std.specs.Prelude.{◌≡◌, List};
ghost use Rattle.mt_model.specs.declared.entries.Scope.{Scope};
ghost use Rattle.mt_model.specs.Documents.{dump_text, rules_text};
ghost use Rattle.mt_model.specs.Topology.{resolution};
ghost use Rattle.mt_names.specs.declared.keys.RuleKey.{RuleKey};
ghost use Rattle.mt_names.specs.declared.types.TabletType.{TabletType};
ghost use Rattle.mt_plain.specs.Plain.{Plain, opening};
ghost use Rattle.mt_plain.specs.Serve.{served};
ghost use Rattle.mt_stands.specs.Base.{BaseState, empty_base};
ghost use Rattle.mt_stands.specs.Stands.{IsBase, Stands, StandsWith};

use mt_laws::{
    each_next_state_is_reached, same_topologies_have_the_same_look_ups_and_documents,
    served_rules_have_named_keys, what_is_served_is_a_topology,
};
use mt_stands::{the_empty_topology_stands_for_the_opening, the_opening_has_no_rows};

/// A base without keyspaces stands for the opening, whatever its watchers' scopes.
pub fn an_empty_base_stands_for_the_opening()
    ensures { (scopes : List Scope) → StandsWith (opening scopes) scopes empty_base }
{
    each_next_state_is_reached();
    the_empty_topology_stands_for_the_opening();
    the_opening_has_no_rows();
}

/// A base looks names up as the state does that it stands for, and its documents are those of the state, whatever workflows are
/// live, whatever the order of its places and however many of them hold nothing.
pub fn a_base_tells_what_its_state_serves()
    ensures look_up { (p : Plain) (base : BaseState) → Stands p base → (key : RuleKey) (type : TabletType)
        → resolution base.topology key type ≡ resolution (served p) key type }
    ensures rules { (p : Plain) (base : BaseState) → IsBase base → Stands p base
        → rules_text base.topology.rules ≡ rules_text (served p).rules }
    ensures dump { (p : Plain) (base : BaseState) → IsBase base → Stands p base
        → dump_text base.topology ≡ dump_text (served p) }
{
    same_topologies_have_the_same_look_ups_and_documents();
    served_rules_have_named_keys();
    what_is_served_is_a_topology();
}
