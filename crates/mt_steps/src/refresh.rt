//! A refresh of a primary's own list.
ghost use Rattle.std.specs.Prelude.{◌≡◌, ◌<◌, ◌≤◌, List, IfOk, IfErr, length};
ghost use Rattle.mt_names.specs.Tables.{most_tables};
ghost use Rattle.mt_journal.specs.declared.entry.JournalEntry.{JournalEntry};
ghost use Rattle.mt_steps.specs.Refreshes.{Refreshes, RefreshesSide, denials_at};

use crate::fault::StepFault;
use mt_model::{Entry, Scope};
use mt_names::{KeyspaceName, TableName};
use mt_primary::{Before, Primary};
use mt_topology::Topology;
use mt_watch::{Asks, Change, WatchersFault};
use mt_workflow::Workflow;
use std::alloc::Global;

/// The denials of some tables at a side, as the topology has them.
fn denials(
    alloc: Global,
    topology: &Topology,
    side: &KeyspaceName,
    tables: &[TableName],
) -> Result<Change, StepFault>
    ensures value { IfOk result (λ change. change ≡ denials_at topology.now side.now tables.now) }
    ensures memory { IfErr result (λ fault. fault ≡ StepFault.Memory) }
{
    let Ok(mut change) = Change::with_room(alloc, tables.len()) else {
        return Err(StepFault::Memory);
    };
    for table in tables {
        let is_denied = topology.is_denied(side, table);
        let denial = Entry::Denied(side.copied(), table.copied(), is_denied);
        if change.push(denial).is_err() {
            return Err(StepFault::Memory);
        }
    }
    Ok(change)
}

/// Asks the watchers of a side's primary, which takes over their notice for these tables alone; `listed` becomes what stood there
/// for them. `F24 NoWatcher`, then `F0 Memory`, then `F23 WatcherRefused`.
#[inline(always)]
fn refresh<W: Asks>(
    alloc: Global,
    topology: &Topology,
    side: &KeyspaceName,
    tables: &[TableName],
    primary: &mut Primary,
    watchers: &W,
    listed: &mut Option<Before>,
) -> Result<(), StepFault>
    requires { length tables.now ≤ most_tables }
    ensures { Refreshes (W.scopes watchers.now) (W.may_answer watchers.now) topology.now side.now tables.now primary.old listed.old result primary.new listed.new }
{
    let scope = Scope::Primary(side.copied());
    if !watchers.has(&scope) {
        return Err(StepFault::NoWatcher);
    }
    let change = denials(alloc, topology, side, tables)?;
    match watchers.ask(&scope, &change) {
        Ok(notice) => {
            *listed = Some(primary.take_denied(side, &notice, tables));
            Ok(())
        }
        Err(WatchersFault::NoWatcher) => Err(StepFault::NoWatcher),
        Err(WatchersFault::Refused(index)) => Err(StepFault::WatcherRefused(index)),
        Err(_) => Err(StepFault::Memory),
    }
}

/// Refreshes the list of the primary at one of the sides of a workflow, at the target that of a shard alone, as `refresh` does.
pub(crate) fn refresh_side<W: Asks>(
    alloc: Global,
    topology: &Topology,
    workflow: &Workflow,
    at_target: bool,
    shard: u8,
    source: &mut Primary,
    targets: &mut [Primary],
    watchers: &W,
    listed: &mut Option<Before>,
) -> Result<(), StepFault>
    requires { shard < length targets.old }
    ensures { (journal : List JournalEntry) → RefreshesSide (W.scopes watchers.now) (W.may_answer watchers.now) topology.now workflow.now at_target shard
        (record { source = source.old; targets = targets.old; journal = journal; listed = listed.old }) result
        (record { source = source.new; targets = targets.new; journal = journal; listed = listed.new }) }
{
    workflow.facts();
    let tables = workflow.tables();
    if at_target {
        return refresh(
            alloc,
            topology,
            workflow.target(),
            tables,
            &mut targets[usize::from(shard)],
            watchers,
            listed,
        );
    }
    refresh(
        alloc,
        topology,
        workflow.source(),
        tables,
        source,
        watchers,
        listed,
    )
}
