//! Whether the places of a part find room.
ghost use Rattle.std.specs.Prelude.{◌≡◌};
ghost use Rattle.std.specs.List.{flat_map};
ghost use Rattle.mt_model.specs.Part.{table_rule_keys};
ghost use Rattle.mt_topology.specs.Part.{has_rule_room, lacking_rules, reserve_refusal};

use mt_keyspace::Keyspaces;
use mt_model::{MAX_RULES, TopologyFault, table_rule_keys};
use mt_names::{KeyspaceName, RuleKey, TableName};
use mt_rules::RoutingRules;

/// How many rule keys each table adds to a part.
const RULES_OF_TABLE: usize = 12;

/// Why a part can't be reserved, if it can't.
pub fn refusal(
    rules: &RoutingRules,
    keyspaces: &Keyspaces,
    source: &KeyspaceName,
    target: &KeyspaceName,
    tables: &[TableName],
) -> Option<TopologyFault>
    ensures { result ≡ reserve_refusal (record { rules = rules.now; keyspaces = keyspaces.now }) source.now target.now tables.now }
{
    let Some(at_source) = keyspaces.get(source) else {
        return Some(TopologyFault::NoKeyspace);
    };
    let Some(at_target) = keyspaces.get(target) else {
        return Some(TopologyFault::NoKeyspace);
    };
    let has_room = has_room_for_rules(rules, source, target, tables)
        && at_source.has_room_for_denials(tables)
        && at_target.has_room_for_denials(tables)
        && at_target.has_room_for_tables(tables);
    if has_room {
        None
    } else {
        Some(TopologyFault::Full)
    }
}

/// Whether there is room for the rule keys that a part lacks.
fn has_room_for_rules(
    rules: &RoutingRules,
    source: &KeyspaceName,
    target: &KeyspaceName,
    tables: &[TableName],
) -> bool
    ensures { result ≡ has_rule_room rules.now (flat_map (table_rule_keys source.now target.now) tables.now) }
{
    let mut room = MAX_RULES - rules.places();
    if tables.len() <= room / RULES_OF_TABLE {
        return true;
    }
    for table in tables {
        let lacking = lacking_rules(rules, &table_rule_keys(source, target, table));
        if lacking > room {
            return false;
        }
        room -= lacking;
    }
    true
}

/// How many of some rule keys lack a place.
fn lacking_rules(rules: &RoutingRules, keys: &[RuleKey]) -> usize
    ensures { result ≡ lacking_rules rules.now keys.now }
{
    keys.iter().filter(|key| !rules.has_place(key)).count()
}
