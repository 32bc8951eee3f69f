//! What is looked up and edited at the rules.
ghost use Rattle.std.specs.Prelude.{◌≡◌, true, Some, None, fold, option_copied, reverse};
ghost use Rattle.std.specs.List.{list_any};
ghost use Rattle.mt_model.specs.Part.{keys_of_name};
ghost use Rattle.mt_model.specs.Topology.{rule_for, with_rule, with_rule_place, without_rule_place};
ghost use Rattle.mt_keyspace.specs.Edits.{Edits};
ghost use Rattle.mt_topology.specs.Edits.{edit_rule_grows, edit_rule_refusal, lacks_rule_place, rule_place_refusal};

use mt_model::{TopologyFault, key_of_name};
use mt_names::{KeyspaceName, RuleKey, RuleTarget, TableName, TabletType};
use mt_rules::{RoutingRules, RulesFault};

/// The rule that applies to a name: that for the type, else that for all types.
pub fn rule_for<'a>(
    rules: &'a RoutingRules,
    key: &RuleKey,
    tablet_type: TabletType,
) -> Option<&'a RuleTarget>
    ensures { option_copied result ≡ rule_for rules.now key.now tablet_type }
{
    if rules.is_empty() {
        return None;
    }
    rules.rule_for(key, tablet_type)
}

/// Sets the rule of a key, and makes its place where it has none.
pub fn put_rule(
    rules: &mut RoutingRules,
    key: &RuleKey,
    target: RuleTarget,
) -> Result<(), TopologyFault>
    ensures { Edits rules.old (edit_rule_refusal rules.old key.now (Some target)) (edit_rule_grows rules.old key.now (Some target))
        (with_rule rules.old key.now (Some target)) result rules.new }
{
    match rules.reserve_key(key) {
        Ok(()) => {
            rules.put(key, Some((&target.keyspace, &target.table)));
            Ok(())
        }
        Err(RulesFault::Full) => Err(TopologyFault::Full),
        Err(_) => Err(TopologyFault::Memory),
    }
}

/// Takes the rule of a key away, with its place. It takes no memory.
pub fn take_rule(rules: &mut RoutingRules, key: &RuleKey)
    ensures { rules.new ≡ with_rule rules.old key.now None }
{
    if rules.has_place(key) {
        rules.put(key, None);
    }
    rules.release_key(key);
}

/// Makes a place for a rule key that has none, where there is room, without a rule. `T0 Memory`.
pub fn add_rule(rules: &mut RoutingRules, key: &RuleKey) -> Result<(), TopologyFault>
    requires lacks { lacks_rule_place rules.old key.now ≡ true }
    requires room { rule_place_refusal rules.old key.now ≡ None }
    ensures { Edits rules.old (rule_place_refusal rules.old key.now) (lacks_rule_place rules.old key.now) (with_rule_place rules.old key.now) result rules.new }
{
    rules.facts();
    let added = rules.add_key(key);
    match added {
        Ok(()) => Ok(()),
        Err(_) => Err(TopologyFault::Memory),
    }
}

/// Whether one of a name's four keys lacks a place. One key is made, whose type then changes.
pub fn lacks_name(rules: &RoutingRules, keyspace: Option<&KeyspaceName>, table: &TableName) -> bool
    ensures { result ≡ list_any (lacks_rule_place rules.now) (keys_of_name (option_copied keyspace.entry) table.now) }
{
    let mut key = key_of_name(keyspace, table, None);
    if !rules.has_place(&key) {
        return true;
    }
    key.tablet_type = Some(TabletType::Primary);
    if !rules.has_place(&key) {
        return true;
    }
    key.tablet_type = Some(TabletType::Replica);
    if !rules.has_place(&key) {
        return true;
    }
    key.tablet_type = Some(TabletType::Rdonly);
    !rules.has_place(&key)
}

/// Drops the places of a name's four keys that hold no rule, the last first. The name is looked up three times at most.
pub fn release_name(rules: &mut RoutingRules, keyspace: Option<&KeyspaceName>, table: &TableName)
    ensures { rules.new ≡ fold without_rule_place rules.old (reverse (keys_of_name (option_copied keyspace.entry) table.now)) }
{
    rules.release_name(&key_of_name(keyspace, table, None));
}
