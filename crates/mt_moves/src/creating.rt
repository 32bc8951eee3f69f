//! Create: tables become a workflow's, which moves them.
ghost use Rattle.std.specs.Prelude.{◌≡◌, ◌≢◌, ◌<◌, ◌≤◌, ℕ, List, true, false, All, IsTrue, None, OnOk, is_some, length, nat_lt, option_map};
ghost use Rattle.indexmap.specs.IndexMap.{spare};
ghost use Rattle.indexmap.specs.IndexSet.{insert_key};
ghost use Rattle.mt_event.specs.Events.{done_from, refusal_from};
ghost use Rattle.mt_event.specs.Reasons.{done_by};
ghost use Rattle.mt_model.specs.Part.{part_keys};
ghost use Rattle.mt_model.specs.Topology.{cuts_at, has_place};
ghost use Rattle.std.specs.List.{AllByRecursion};
ghost use Rattle.mt_names.specs.Names.{IsKeyspaceName, IsTableName, same_text};
ghost use Rattle.mt_names.specs.Shards.{shard_count};
ghost use Rattle.mt_names.specs.Tables.{most_tables};
ghost use Rattle.mt_plain.specs.Events.{full};
ghost use Rattle.mt_plain.specs.Plain.{among, each_once};
ghost use Rattle.mt_plain.specs.Refuse.{or_else, refuse_if};
ghost use Rattle.mt_primary.specs.Primary.{end_of, has_table};
ghost use Rattle.mt_primary.specs.Primaries.{count_of, has_primaries, primary_of, shards_of};
ghost use Rattle.mt_primary.specs.Primaries as primaries;
ghost use Rattle.mt_stands.specs.Base.{workflow_at};
ghost use Rattle.mt_stands.specs.Workflows.{Creates, CreatesSet, create_refusal, is_full, is_moved, refusal_by_table, table_refusal, tables_refusal};
ghost use Rattle.mt_workflow.specs.Creates.{is_sharded};
ghost use Rattle.mt_workflow.specs.Workflows.{new_workflow};
ghost use Rattle.mt_moves.specs.Create.{CanCreate, IsReady, Makes, MakesAtTarget, Prepares};

use crate::asking::change_of;
use crate::parts::write_part;
use crate::places::{has_primaries, place_of};
use crate::target::make_target;
use crate::{Primaries, Workflows};
use arrayvec::ArrayVec;
use mt_event::{Reason, Refusal};
use mt_model::{Scope, TopologyFault};
use mt_names::{KeyspaceName, MAX_TABLES, Position, TableName, WorkflowName};
use mt_topology::Topology;
use mt_watch::{Asks, Change};
use mt_workflow::{Workflow, WorkflowFault, may_create};
use std::alloc::Global;
use std::slice;

/// How many workflows may be live.
const MAX_WORKFLOWS: usize = 16;

/// What a Create asks for: a workflow that moves some tables from a source to a target.
#[derive(Clone, Copy)]
pub struct Move<'a> {
    /// The workflow's name.
    pub name: &'a WorkflowName,
    /// Where the tables are.
    pub source: &'a KeyspaceName,
    /// Where they move to.
    pub target: &'a KeyspaceName,
    /// The tables.
    pub tables: &'a [TableName],
}

/// Whether no table is named twice, so that the tables are a set as they stand. It takes no memory.
fn is_set(tables: &[TableName]) -> bool
    ensures { IsTrue result → each_once tables.now ≡ tables.now }
{
    for index in 0..tables.len() {
        if tables[..index].contains(&tables[index]) {
            return false;
        }
    }
    true
}

/// Tables as a set, in the order in which they are first named. It takes no memory.
fn each_once(tables: &[TableName]) -> ArrayVec<TableName, MAX_TABLES>
    requires { length tables.now ≤ most_tables }
    ensures { result.items ≡ each_once tables.now }
{
    let mut set = ArrayVec::new_in(());
    for table in tables {
        push_new(&mut set, table);
    }
    set
}

/// Adds a table to a set, unless it is there.
fn push_new(set: &mut ArrayVec<TableName, MAX_TABLES>, table: &TableName)
    requires { length set.old.items < most_tables }
    ensures { set.new.items ≡ insert_key same_text set.old.items table.now }
{
    if set.as_slice().contains(table) {
        return;
    }
    set.push(table.copied());
}

/// Whether a live workflow moves a table of that name.
fn is_moved(workflows: &Workflows, table: &TableName) -> bool
    ensures { result ≡ is_moved workflows.now.entries table.now }
{
    for workflow in workflows.values() {
        if moves(workflow, table) {
            return true;
        }
    }
    false
}

/// Whether a workflow moves a table of that name.
fn moves(workflow: &Workflow, table: &TableName) -> bool
    ensures { result ≡ among workflow.now.tables table.now }
{
    workflow.tables().contains(table)
}

/// The controller's refusal of a table, by what it meets in the topology and whether a live workflow moves it.
fn refusal_by_table(is_moved: bool, fault: Option<WorkflowFault>) -> Option<Refusal>
    ensures { option_map refusal_from result ≡ refusal_by_table is_moved fault }
{
    match fault {
        Some(WorkflowFault::NoTable(_)) => Some(Refusal::Other(Reason::NoTable)),
        _ if is_moved => Some(Refusal::Other(Reason::TableInWorkflow)),
        Some(WorkflowFault::TargetHasTable(table)) => Some(Refusal::TargetHasTable(table)),
        Some(WorkflowFault::RuleConflict(key)) => Some(Refusal::RuleConflict(key)),
        _ => None,
    }
}

/// What refuses one table, if anything does.
fn table_refusal(
    topology: &Topology,
    workflows: &Workflows,
    source: &KeyspaceName,
    target: &KeyspaceName,
    table: &TableName,
) -> Option<Refusal>
    requires apart { source.now ≢ target.now }
    requires unsharded { is_sharded topology.now.keyspaces source.now ≡ false }
    ensures { (primaries : primaries.Primaries) → option_map refusal_from result
        ≡ table_refusal (record { topology = topology.now; primaries = primaries; workflows = workflows.now.entries }) source.now target.now table.now }
{
    let is_moved = is_moved(workflows, table);
    match may_create(topology, source, target, slice::from_ref(table)) {
        Ok(()) => refusal_by_table(is_moved, None),
        Err(fault) => refusal_by_table(is_moved, Some(fault)),
    }
}

/// What refuses some tables, if anything does: the first refusal, in the order named.
fn tables_refusal(
    topology: &Topology,
    workflows: &Workflows,
    source: &KeyspaceName,
    target: &KeyspaceName,
    tables: &[TableName],
) -> Option<Refusal>
    requires apart { source.now ≢ target.now }
    requires unsharded { is_sharded topology.now.keyspaces source.now ≡ false }
    ensures { (primaries : primaries.Primaries) → option_map refusal_from result
        ≡ tables_refusal (record { topology = topology.now; primaries = primaries; workflows = workflows.now.entries }) source.now target.now tables.now }
{
    for table in tables {
        if let Some(refusal) = table_refusal(topology, workflows, source, target, table) {
            return Some(refusal);
        }
    }
    None
}

/// Whether a keyspace has several shards. It takes no memory.
fn is_sharded(primaries: &Primaries, keyspace: &KeyspaceName) -> bool
    requires { has_primaries primaries.now keyspace.now ≡ true }
    ensures { result ≡ nat_lt 1 (shard_count (shards_of primaries.now keyspace.now).cuts) }
{
    let place = place_of(primaries, keyspace);
    primaries.all(place).len() > 1
}

/// What refuses a set of tables, if anything does before the limits: the name, the tables, the sides, whether
/// the source is sharded, each table, the watcher.
fn refusal_before<W: Asks>(
    topology: &Topology,
    primaries: &Primaries,
    workflows: &Workflows,
    watchers: &W,
    asked: Move<'_>,
) -> Option<Refusal>
    requires { (shards_of primaries.now asked.source.now).cuts ≡ cuts_at topology.now.keyspaces asked.source.now }
    ensures { create_refusal (record { topology = topology.now; primaries = primaries.now; workflows = workflows.now.entries }) (W.scopes watchers.now) asked.entry.name.now asked.entry.source.now asked.entry.target.now asked.entry.tables.now
        ≡ or_else (option_map refusal_from result)
        (refuse_if (is_full (record { topology = topology.now; primaries = primaries.now; workflows = workflows.now.entries }) asked.entry.source.now asked.entry.target.now asked.entry.tables.now) full) }
{
    if workflows.contains_key(asked.name) {
        return Some(Refusal::Other(Reason::WorkflowExists));
    }
    if asked.tables.is_empty() {
        return Some(Refusal::Other(Reason::NoTables));
    }
    if asked.source == asked.target {
        return Some(Refusal::Other(Reason::SameKeyspace));
    }
    if !has_primaries(primaries, asked.source) {
        return Some(Refusal::Other(Reason::NoKeyspace));
    }
    if !has_primaries(primaries, asked.target) {
        return Some(Refusal::Other(Reason::NoKeyspace));
    }
    if is_sharded(primaries, asked.source) {
        return Some(Refusal::Other(Reason::ShardedSource));
    }
    if let Some(refusal) = tables_refusal(
        topology,
        workflows,
        asked.source,
        asked.target,
        asked.tables,
    ) {
        return Some(refusal);
    }
    if !watchers.has(&Scope::Primary(asked.target.copied())) {
        return Some(Refusal::Other(Reason::NoWatcher));
    }
    None
}

/// How long the log of a keyspace's first shard is.
fn position_of(primaries: &Primaries, keyspace: &KeyspaceName) -> Position
    requires { has_primaries primaries.now keyspace.now ≡ true }
    ensures { result ≡ end_of (primary_of primaries.now keyspace.now 0) }
{
    let place = place_of(primaries, keyspace);
    primaries.all(place)[0].position()
}

/// Makes the tables of a new workflow at the primaries of its target, as their watchers are asked.
fn make_at_target<W: Asks>(
    primaries: &mut Primaries,
    watchers: &W,
    workflow: &Workflow,
    change: &Change,
) -> Result<(), Reason>
    requires there { has_primaries primaries.old workflow.now.target ≡ true }
    requires absent { (shard : ℕ) → shard < count_of primaries.old workflow.now.target → (table : List ℕ) → among workflow.now.tables table ≡ true → has_table (primary_of primaries.old workflow.now.target shard) table ≡ false }
    ensures { MakesAtTarget (W.scopes watchers.now) (W.may_answer watchers.now) workflow.now change.now primaries.old result primaries.new }
{
    let place = place_of(primaries, workflow.target());
    make_target(primaries.all_mut(place), watchers, workflow, change)
}

/// Makes room for a new workflow, and its tables at the primaries of its target. `F0 Memory`, then `F23 WatcherRefused`.
fn prepare<W: Asks>(
    alloc: Global,
    primaries: &mut Primaries,
    workflows: &mut Workflows,
    watchers: &W,
    workflow: &Workflow,
) -> Result<(), Reason>
    requires { IsReady (W.scopes watchers.now) primaries.old workflow.now.source workflow.now.target workflow.now.tables }
    ensures made { Prepares (W.scopes watchers.now) (W.may_answer watchers.now) workflow.now primaries.old result primaries.new }
    ensures room { OnOk result (1 ≤ spare workflows.new) }
    ensures workflows { workflows.new.entries ≡ workflows.old.entries }
{
    let change = change_of(alloc, workflow)?;
    if workflows.reserve(1).is_err() {
        return Err(Reason::Memory);
    }
    make_at_target(primaries, watchers, workflow, &change)?;
    Ok(())
}

/// Makes a workflow whose part has its places, writes that, and puts it behind the live ones. Where it isn't made, the
/// places that hold nothing are dropped.
fn make<W: Asks>(
    alloc: Global,
    topology: &mut Topology,
    primaries: &mut Primaries,
    workflows: &mut Workflows,
    watchers: &W,
    asked: Move<'_>,
) -> Result<(), Reason>
    requires few { length asked.tables.now ≤ most_tables }
    requires ready { IsReady (W.scopes watchers.now) primaries.old asked.source.now asked.target.now asked.tables.now }
    requires new { is_some (workflow_at workflows.old.entries asked.name.now) ≡ false }
    requires places { All (λ key. has_place topology.old key ≡ true) (part_keys asked.source.now asked.target.now asked.tables.now) }
    ensures { Makes (W.scopes watchers.now) (W.may_answer watchers.now) (new_workflow topology.old asked.entry.name.now asked.entry.source.now asked.entry.target.now asked.entry.tables.now (end_of (primary_of primaries.old asked.entry.source.now 0)))
        (record { topology = topology.old; primaries = primaries.old; workflows = workflows.old.entries }) result
        (record { topology = topology.new; primaries = primaries.new; workflows = workflows.new.entries }) }
{
    let Move {
        name,
        source,
        target,
        tables,
    } = asked;
    let position = position_of(primaries, source);
    let Ok(workflow) = Workflow::new(alloc, name, source, target, tables, topology, position) else {
        topology.release_part(source, target, tables);
        return Err(Reason::Memory);
    };
    match prepare(alloc, primaries, workflows, watchers, &workflow) {
        Ok(()) => {
            write_part(topology, &workflow);
            match workflows.insert(name.copied(), workflow) {
                Ok(_) => Ok(()),
                Err(_) => unreachable!(),
            }
        }
        Err(reason) => {
            topology.release_part(source, target, tables);
            Err(reason)
        }
    }
}

/// What the controller answers to a Create that passed its tests.
fn answer_by_reason(made: Result<(), Reason>) -> Result<(), Refusal>
    ensures { done_from result ≡ done_by made }
{
    match made {
        Ok(()) => Ok(()),
        Err(reason) => Err(Refusal::Other(reason)),
    }
}

/// Creates a workflow of a set of tables.
#[inline(never)]
fn create_set<W: Asks>(
    alloc: Global,
    topology: &mut Topology,
    primaries: &mut Primaries,
    workflows: &mut Workflows,
    watchers: &W,
    asked: Move<'_>,
) -> Result<(), Refusal>
    requires few { length asked.tables.now ≤ most_tables }
    requires once { each_once asked.tables.now ≡ asked.tables.now }
    requires can { CanCreate (record { topology = topology.old; primaries = primaries.old; workflows = workflows.old.entries }) (W.scopes watchers.now) asked.name.now asked.source.now asked.target.now asked.tables.now }
    ensures { CreatesSet (record { topology = topology.old; primaries = primaries.old; workflows = workflows.old.entries }) (W.scopes watchers.now) (W.may_answer watchers.now) asked.entry.name.now asked.entry.source.now asked.entry.target.now asked.entry.tables.now (done_from result)
        (record { topology = topology.new; primaries = primaries.new; workflows = workflows.new.entries }) }
{
    if let Some(refusal) = refusal_before(topology, primaries, workflows, watchers, asked) {
        return Err(refusal);
    }
    if workflows.len() >= MAX_WORKFLOWS {
        return Err(Refusal::Other(Reason::Full));
    }
    match topology.reserve_part(asked.source, asked.target, asked.tables) {
        Ok(()) => answer_by_reason(make(alloc, topology, primaries, workflows, watchers, asked)),
        Err(TopologyFault::Memory) => Err(Refusal::Other(Reason::Memory)),
        Err(_) => Err(Refusal::Other(Reason::Full)),
    }
}

/// Creates a workflow that moves some tables from a source to a target; a table that is named twice counts once. The first
/// of these that holds is answered, and then nothing changed: `F6 WorkflowExists`, `F12 NoTables`, `F11 SameKeyspace`,
/// `F1 NoKeyspace`, `F33 ShardedSource`, of each table in the order named `F2 NoTable`, `F8 TableInWorkflow`, `F10 TargetHasTable` or
/// `F9 RuleConflict`, `F24 NoWatcher`, `F27 Full`, `F0 Memory` and `F23 WatcherRefused`. (Vitess: Create of MoveTables)
pub fn create<W: Asks>(
    alloc: Global,
    topology: &mut Topology,
    primaries: &mut Primaries,
    workflows: &mut Workflows,
    watchers: &W,
    asked: Move<'_>,
) -> Result<(), Refusal>
    requires few { length asked.tables.now ≤ most_tables }
    requires can { CanCreate (record { topology = topology.old; primaries = primaries.old; workflows = workflows.old.entries }) (W.scopes watchers.now) asked.name.now asked.source.now asked.target.now (each_once asked.tables.now) }
    ensures { Creates (record { topology = topology.old; primaries = primaries.old; workflows = workflows.old.entries }) (W.scopes watchers.now) (W.may_answer watchers.now) asked.entry.name.now asked.entry.source.now asked.entry.target.now asked.entry.tables.now (done_from result)
        (record { topology = topology.new; primaries = primaries.new; workflows = workflows.new.entries }) }
{
    if is_set(asked.tables) {
        return create_set(alloc, topology, primaries, workflows, watchers, asked);
    }
    let set = each_once(asked.tables);
    let once = Move {
        tables: set.as_slice(),
        ..asked
    };
    create_set(alloc, topology, primaries, workflows, watchers, once)
}

/// The names that a Create brings are names, for a caller's proof. It does nothing.
pub fn names_are_names(source: &KeyspaceName, target: &KeyspaceName, tables: &[TableName])
    ensures source { IsKeyspaceName source.now }
    ensures target { IsKeyspaceName target.now }
    ensures tables { AllByRecursion IsTableName tables.now }
{
    source.as_str();
    target.as_str();
    for table in tables {
        table.as_str();
    }
}
