//! What Create asks the watchers of its target's primary with.
ghost use Rattle.std.specs.Prelude.{◌≡◌, map, ◌++◌, IfOk, IfErr, OnOk, option_copied};
ghost use Rattle.mt_names.specs.Types.{no_types};
ghost use Rattle.mt_model.specs.declared.entries.EntryKey.{EntryKey};
ghost use Rattle.mt_model.specs.Part.{keys_of_name};
ghost use Rattle.mt_plain.specs.Asks.{keys_created};
ghost use Rattle.mt_plain.specs.Plain.{in_keyspace};
ghost use Rattle.mt_workflow.specs.Workflows.{live_of, wanted};
ghost use Rattle.mt_stands.specs.Workflows.{change_of};

use mt_event::Reason;
use mt_model::{Entry, key_of_name};
use mt_names::{KeyspaceName, RuleTarget, TableName, TabletType, TypeSet};
use mt_watch::{Change, WatchersFault};
use mt_workflow::Workflow;
use std::alloc::Global;

/// A table at the source of a workflow, as a rule leads to it.
#[inline(always)]
fn at_source(workflow: &Workflow, table: &TableName) -> RuleTarget
    ensures { result ≡ in_keyspace workflow.now.source table.now }
{
    RuleTarget {
        keyspace: workflow.source().copied(),
        table: table.copied(),
    }
}

/// Adds to a change the rules that a name's four keys have with nothing switched. `H0 Memory`.
#[inline(always)]
fn push_name(
    change: &mut Change,
    workflow: &Workflow,
    keyspace: Option<&KeyspaceName>,
    table: &TableName,
) -> Result<(), WatchersFault>
    ensures { OnOk result (change.new ≡ change.old ++ map (wanted workflow.now no_types) (map EntryKey.Rule (keys_of_name (option_copied keyspace.entry) table.now))) }
{
    let plain = key_of_name(keyspace, table, None);
    let rule = workflow.wanted_rule(&plain, TypeSet::NONE);
    change.push(Entry::Rule(plain, rule))?;
    let primary = key_of_name(keyspace, table, Some(TabletType::Primary));
    change.push(Entry::Rule(primary, None))?;
    let replica = key_of_name(keyspace, table, Some(TabletType::Replica));
    change.push(Entry::Rule(replica, Some(at_source(workflow, table))))?;
    let rdonly = key_of_name(keyspace, table, Some(TabletType::Rdonly));
    change.push(Entry::Rule(rdonly, Some(at_source(workflow, table))))
}

/// Adds to a change what Create makes of a table: its rules, its denial and its presence at the target. `H0 Memory`.
fn push_table(
    change: &mut Change,
    workflow: &Workflow,
    table: &TableName,
) -> Result<(), WatchersFault>
    ensures { OnOk result (change.new ≡ change.old ++ map (wanted workflow.now no_types) (keys_created (live_of workflow.now) table.now)) }
{
    let source = workflow.source();
    let target = workflow.target();
    push_name(change, workflow, None, table)?;
    push_name(change, workflow, Some(source), table)?;
    push_name(change, workflow, Some(target), table)?;
    let is_denied = workflow.is_denied_at(target, TypeSet::NONE);
    change.push(Entry::Denied(target.copied(), table.copied(), is_denied))?;
    change.push(Entry::Present(target.copied(), table.copied(), true))
}

/// What Create of a workflow makes, table by table: the change with which the watchers of its target's primary are asked.
/// `F0 Memory`.
pub(crate) fn change_of(alloc: Global, workflow: &Workflow) -> Result<Change, Reason>
    ensures value { IfOk result (λ change. change ≡ change_of workflow.now) }
    ensures memory { IfErr result (λ reason. reason ≡ Reason.Memory) }
{
    workflow.facts();
    let Ok(mut change) = Change::with_room(alloc, workflow.part_len()) else {
        return Err(Reason::Memory);
    };
    for table in workflow.tables() {
        if push_table(&mut change, workflow, table).is_err() {
            return Err(Reason::Memory);
        }
    }
    Ok(change)
}
