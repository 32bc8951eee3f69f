//! The routes: the rules that stand, and the tables that are there.
ghost use Rattle.std.specs.Prelude.{◌≡◌, ◌++◌, flat_map, length, slice_get};
ghost use Rattle.mt_model.specs.Part.{rule_routes, table_routes};

use mt_keyspace::Keyspaces;
use mt_model::Entry;
use mt_rules::RoutingRules;

/// How many routes there are.
pub fn count(rules: &RoutingRules, keyspaces: &Keyspaces) -> usize
    ensures { result ≡ length (rule_routes rules.now ++ flat_map table_routes keyspaces.now) }
{
    rules.rule_count() + keyspaces.route_len()
}

/// A route by its index.
pub fn at(rules: &RoutingRules, keyspaces: &Keyspaces, index: usize) -> Option<Entry>
    ensures { result ≡ slice_get (rule_routes rules.now ++ flat_map table_routes keyspaces.now) index }
{
    let rule_count = rules.rule_count();
    if index < rule_count {
        return rules.rule_entry(index);
    }
    keyspaces.route_entry(index - rule_count)
}
