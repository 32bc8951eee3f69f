//! What a new workflow keeps.
ghost use Rattle.std.specs.Prelude.{◌≡◌, ◌≢◌, ◌≤◌, AllPairs, IfOk, IfErr, OnOk, length, option_copied};
ghost use Rattle.indexmap.specs.IndexMap.{insert_entry};
ghost use Rattle.mt_names.specs.Same.{same_key};
ghost use Rattle.mt_names.specs.Tables.{most_tables};
ghost use Rattle.mt_plain.specs.Plain.{each_once};
ghost use Rattle.mt_model.specs.Part.{table_rule_keys};
ghost use Rattle.mt_model.specs.Topology.{Rules};
ghost use Rattle.mt_workflow.specs.Builds.{Agrees, with_kept};
ghost use Rattle.mt_workflow.specs.Workflows.{kept_of};

use crate::fault::WorkflowFault;
use crate::ruled::has_rule;
use arrayvec::ArrayVec;
use indexmap::{IndexMap, IndexSet};
use mt_model::{part_keys_are_distinct, table_rule_keys};
use mt_names::{KeyspaceName, MAX_TABLES, RuleKey, RuleTarget, TableName};
use mt_rules::RoutingRules;
use std::alloc::Global;

/// Tables as a set, in the order in which they are first named. `W0 Memory`.
pub(crate) fn each_once(
    alloc: Global,
    tables: &[TableName],
) -> Result<IndexSet<TableName>, WorkflowFault>
    ensures value { IfOk result (λ set. set.keys ≡ each_once tables.now) }
    ensures memory { IfErr result (λ fault. fault ≡ WorkflowFault.Memory) }
{
    let Ok(mut set) = IndexSet::with_capacity(alloc, tables.len()) else {
        return Err(WorkflowFault::Memory);
    };
    for table in tables {
        if set.insert(table.copied()).is_err() {
            return Err(WorkflowFault::Memory);
        }
    }
    Ok(set)
}

/// Tables as a list of their own. It takes no memory.
pub(crate) fn table_list(tables: &[TableName]) -> ArrayVec<TableName, MAX_TABLES>
    requires { length tables.now ≤ most_tables }
    ensures { result.items ≡ tables.now }
{
    let mut list = ArrayVec::new_in(());
    for table in tables {
        list.push(table.copied());
    }
    list
}

/// Rules that say of each key what stands at the rule keys of some tables, and nothing of the others. Up to the first key that has
/// a rule none is put there. `W0 Memory`.
pub(crate) fn kept_rules(
    alloc: Global,
    source: &KeyspaceName,
    target: &KeyspaceName,
    tables: &[TableName],
    rules: &RoutingRules,
) -> Result<IndexMap<RuleKey, Option<RuleTarget>>, WorkflowFault>
    requires distinct { AllPairs ◌≢◌ tables.now }
    requires apart { source.now ≢ target.now }
    ensures value { IfOk result (λ kept. Agrees kept.entries (kept_of rules.now source.now target.now tables.now)) }
    ensures memory { IfErr result (λ fault. fault ≡ WorkflowFault.Memory) }
{
    part_keys_are_distinct();
    let mut kept = IndexMap::new(alloc);
    for table in tables {
        keep_table(&mut kept, source, target, table, rules)?;
    }
    Ok(kept)
}

/// Keeps the rule that stands at each of a table's rule keys, or none. They aren't made where nothing is kept yet, and none has
/// a rule. `W0 Memory`.
fn keep_table(
    kept: &mut IndexMap<RuleKey, Option<RuleTarget>>,
    source: &KeyspaceName,
    target: &KeyspaceName,
    table: &TableName,
    rules: &RoutingRules,
) -> Result<(), WorkflowFault>
    ensures value { OnOk result ((stood : Rules) → Agrees kept.old.entries stood
        → Agrees kept.new.entries (with_kept rules.now stood (table_rule_keys source.now target.now table.now))) }
    ensures memory { IfErr result (λ fault. fault ≡ WorkflowFault.Memory) }
{
    if kept.is_empty() && !has_rule(rules, source, target, table) {
        return Ok(());
    }
    keep_keys(kept, source, target, table, rules)
}

/// Keeps the rules that stand at a table's rule keys, which are made for it.
fn keep_keys(
    kept: &mut IndexMap<RuleKey, Option<RuleTarget>>,
    source: &KeyspaceName,
    target: &KeyspaceName,
    table: &TableName,
    rules: &RoutingRules,
) -> Result<(), WorkflowFault>
    ensures value { OnOk result ((stood : Rules) → Agrees kept.old.entries stood
        → Agrees kept.new.entries (with_kept rules.now stood (table_rule_keys source.now target.now table.now))) }
    ensures memory { IfErr result (λ fault. fault ≡ WorkflowFault.Memory) }
{
    keep(kept, &table_rule_keys(source, target, table), rules)
}

/// Keeps the rule that stands at each of some keys, or none. `W0 Memory`.
fn keep(
    kept: &mut IndexMap<RuleKey, Option<RuleTarget>>,
    keys: &[RuleKey],
    rules: &RoutingRules,
) -> Result<(), WorkflowFault>
    ensures value { OnOk result ((stood : Rules) → Agrees kept.old.entries stood → Agrees kept.new.entries (with_kept rules.now stood keys.now)) }
    ensures memory { IfErr result (λ fault. fault ≡ WorkflowFault.Memory) }
{
    for key in keys {
        let rule = rules.get(key);
        keep_rule(kept, key, rule)?;
    }
    Ok(())
}

/// Keeps the rule of a key, or that it has none, which is already so as long as nothing is kept. `W0 Memory`.
fn keep_rule(
    kept: &mut IndexMap<RuleKey, Option<RuleTarget>>,
    key: &RuleKey,
    rule: Option<&RuleTarget>,
) -> Result<(), WorkflowFault>
    ensures value { OnOk result ((stood : Rules) → Agrees kept.old.entries stood → Agrees kept.new.entries (insert_entry same_key stood key.now (option_copied rule.entry))) }
    ensures memory { IfErr result (λ fault. fault ≡ WorkflowFault.Memory) }
{
    if rule.is_none() && kept.is_empty() {
        return Ok(());
    }
    match kept.insert(key.copied(), rule.map(RuleTarget::copied)) {
        Ok(_) => Ok(()),
        Err(_) => Err(WorkflowFault::Memory),
    }
}
