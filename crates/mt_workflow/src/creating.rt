//! When a workflow isn't created.
ghost use Rattle.std.specs.Prelude.{◌≡◌, ◌||◌, ℕ, List, find, option_copied};
ghost use Rattle.mt_model.specs.Part.{table_rule_keys};
ghost use Rattle.mt_workflow.specs.Creates.{answer_of, conflict_of, create_refusal, is_denied_by_hand, is_sharded, leads_elsewhere, table_refusal, tables_refusal};

use crate::fault::WorkflowFault;
use crate::ruled::has_rule;
use mt_model::table_rule_keys;
use mt_names::{KeyspaceName, RuleKey, TableName};
use mt_rules::RoutingRules;
use mt_topology::Topology;

/// Whether a workflow of some tables may be created, as far as the topology and its arguments tell. The first of these that
/// holds is answered: `W2 NoTables`, `W1 SameKeyspace`, `W7 ShardedSource`; then of each table, in the order named, `W6 NoTable` if the
/// source lacks it, `W4 TargetHasTable`, `W3 RuleConflict` with the first of its twelve rule keys whose rule leads elsewhere than to
/// the table at the source, and `W5 DeniedByHand` if the topology denies it at the source or at the target. It takes no
/// memory, and changes nothing. (Vitess: Create of MoveTables)
pub fn may_create(
    topology: &Topology,
    source: &KeyspaceName,
    target: &KeyspaceName,
    tables: &[TableName],
) -> Result<(), WorkflowFault>
    ensures { result ≡ answer_of (create_refusal topology.now source.now target.now tables.now) }
{
    match refusal(topology, source, target, tables) {
        Some(fault) => Err(fault),
        None => Ok(()),
    }
}

/// What refuses it, if anything does.
fn refusal(
    topology: &Topology,
    source: &KeyspaceName,
    target: &KeyspaceName,
    tables: &[TableName],
) -> Option<WorkflowFault>
    ensures { result ≡ create_refusal topology.now source.now target.now tables.now }
{
    if tables.is_empty() {
        return Some(WorkflowFault::NoTables);
    }
    if source == target {
        return Some(WorkflowFault::SameKeyspace);
    }
    if is_sharded(topology, source) {
        return Some(WorkflowFault::ShardedSource);
    }
    tables_refusal(topology, source, target, tables)
}

/// Whether a keyspace has several shards.
fn is_sharded(topology: &Topology, keyspace: &KeyspaceName) -> bool
    ensures { result ≡ is_sharded topology.now.keyspaces keyspace.now }
{
    match topology.shards(keyspace) {
        Some(shards) => shards.as_slice().len() > 1,
        None => false,
    }
}

/// What refuses some tables, if anything does.
fn tables_refusal(
    topology: &Topology,
    source: &KeyspaceName,
    target: &KeyspaceName,
    tables: &[TableName],
) -> Option<WorkflowFault>
    ensures { result ≡ tables_refusal topology.now source.now target.now tables.now }
{
    for table in tables {
        if let Some(fault) = table_refusal(topology, source, target, table) {
            return Some(fault);
        }
    }
    None
}

/// What refuses one table, if anything does.
fn table_refusal(
    topology: &Topology,
    source: &KeyspaceName,
    target: &KeyspaceName,
    table: &TableName,
) -> Option<WorkflowFault>
    ensures { result ≡ table_refusal topology.now source.now target.now table.now }
{
    if !topology.is_present(source, table) {
        return Some(WorkflowFault::NoTable(table.copied()));
    }
    if topology.is_present(target, table) {
        return Some(WorkflowFault::TargetHasTable(table.copied()));
    }
    if let Some(key) = table_conflict(topology.rules(), source, target, table) {
        return Some(WorkflowFault::RuleConflict(key));
    }
    if is_denied_by_hand(topology, source, target, table) {
        return Some(WorkflowFault::DeniedByHand(table.copied()));
    }
    None
}

/// Whether a table is denied at one of the sides.
fn is_denied_by_hand(
    topology: &Topology,
    source: &KeyspaceName,
    target: &KeyspaceName,
    table: &TableName,
) -> bool
    ensures { result ≡ is_denied_by_hand topology.now source.now target.now table.now }
{
    topology.is_denied(source, table) || topology.is_denied(target, table)
}

/// The first of a table's rule keys whose rule leads elsewhere than to the table at the source. They aren't made where none
/// has a rule.
fn table_conflict(
    rules: &RoutingRules,
    source: &KeyspaceName,
    target: &KeyspaceName,
    table: &TableName,
) -> Option<RuleKey>
    ensures { result ≡ find (leads_elsewhere rules.now source.now table.now) (table_rule_keys source.now target.now table.now) }
{
    if !has_rule(rules, source, target, table) {
        return None;
    }
    conflict_of_keys(rules, source, target, table)
}

/// The first of a table's rule keys, which are made for it, whose rule leads elsewhere than to the table at the source.
fn conflict_of_keys(
    rules: &RoutingRules,
    source: &KeyspaceName,
    target: &KeyspaceName,
    table: &TableName,
) -> Option<RuleKey>
    ensures { result ≡ find (leads_elsewhere rules.now source.now table.now) (table_rule_keys source.now target.now table.now) }
{
    let keys = table_rule_keys(source, target, table);
    conflict(rules, source, table, &keys)
}

/// The first of some rule keys whose rule leads elsewhere than to the table at the source.
fn conflict(
    rules: &RoutingRules,
    source: &KeyspaceName,
    table: &TableName,
    keys: &[RuleKey],
) -> Option<RuleKey>
    ensures { result ≡ find (leads_elsewhere rules.now source.now table.now) keys.now }
{
    for key in keys {
        if leads_elsewhere(rules, source, table, key) {
            return Some(key.copied());
        }
    }
    None
}

/// Whether the rule of a key leads elsewhere than to the table at the source.
fn leads_elsewhere(
    rules: &RoutingRules,
    source: &KeyspaceName,
    table: &TableName,
    key: &RuleKey,
) -> bool
    ensures { result ≡ leads_elsewhere rules.now source.now table.now key.now }
{
    match rules.get(key) {
        Some(to) => &to.keyspace != source || &to.table != table,
        None => false,
    }
}
