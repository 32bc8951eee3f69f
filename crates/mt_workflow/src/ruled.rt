//! Whether a table's names have rules.
ghost use Rattle.std.specs.Prelude.{◌≡◌, ◌↔◌, false, None, option_copied};
ghost use Rattle.std.specs.List.{AllByRecursion};
ghost use Rattle.mt_model.specs.Part.{keys_of_name, table_rule_keys};
ghost use Rattle.mt_model.specs.Topology.{rule_at};

use mt_names::{KeyspaceName, TableName};
use mt_rules::RoutingRules;

/// Whether one of a table's twelve rule keys has a rule. It takes no memory, and looks three names up: no key is made.
pub(crate) fn has_rule(
    rules: &RoutingRules,
    source: &KeyspaceName,
    target: &KeyspaceName,
    table: &TableName,
) -> bool
    ensures { (result ≡ false) ↔ AllByRecursion (λ key. rule_at rules.now key ≡ None) (table_rule_keys source.now target.now table.now) }
{
    has_rule_at(rules, None, table)
        || has_rule_at(rules, Some(source), table)
        || has_rule_at(rules, Some(target), table)
}

/// Whether one of a name's four rule keys has a rule.
fn has_rule_at(rules: &RoutingRules, keyspace: Option<&KeyspaceName>, table: &TableName) -> bool
    ensures { (result ≡ false) ↔ AllByRecursion (λ key. rule_at rules.now key ≡ None) (keys_of_name (option_copied keyspace.entry) table.now) }
{
    match rules.name(keyspace, table) {
        Some(places) => places.has_rule(),
        None => false,
    }
}
