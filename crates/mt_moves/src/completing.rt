//! Complete: a workflow is finished.
ghost use Rattle.std.specs.Prelude.{◌≡◌, ◌≢◌, true, false, All, map, option_map, fold};
ghost use Rattle.mt_event.specs.Reasons.{done_by, reason_from};
ghost use Rattle.mt_model.specs.declared.entries.EntryKey.{EntryKey};
ghost use Rattle.mt_model.specs.Part.{with_entries, without_place, without_places};
ghost use Rattle.mt_model.specs.declared.entries.Entry.TheVariants as entry;
ghost use Rattle.mt_model.specs.declared.entries.EntryKey.TheVariants as about;
ghost use Rattle.mt_model.specs.Topology.{has_place, with_entry};
ghost use Rattle.mt_plain.specs.Refuse.{complete_refusal};
ghost use Rattle.mt_primary.specs.Writes.{without_table};
ghost use Rattle.mt_primary.specs.Primaries.{has_primaries, with_all};
ghost use Rattle.mt_stands.specs.Switching.{Completes};
ghost use Rattle.mt_stands.specs.Ways.{WaysState};
ghost use Rattle.mt_moves.specs.Ways.{CanComplete};
ghost use Rattle.mt_stands.specs.Keys.{end_entries, end_entry, end_keys, keys_of_part};
ghost use Rattle.mt_workflow.specs.Workflows.{live_of};

use crate::target::drop_at;
use crate::{Primaries, Workflows};
use mt_event::Reason;
use mt_model::{Entry, EntryKey};
use mt_names::{KeyspaceName, TableName, WorkflowName};
use mt_topology::Topology;
use mt_workflow::Workflow;

/// What refuses Complete of a workflow: `F13 UnderWay`, `F21 NotAllSwitched`.
fn complete_refusal(workflow: &Workflow) -> Option<Reason>
    ensures { option_map reason_from result ≡ complete_refusal (live_of workflow.now) }
{
    if workflow.way().is_some() {
        return Some(Reason::UnderWay);
    }
    let switched = workflow.switched();
    if !(switched.primary && switched.replica && switched.rdonly) {
        return Some(Reason::NotAllSwitched);
    }
    None
}

/// The entry of a key as Complete leaves it: no rule, no denial, and the table at the target alone.
fn end_entry(target: &KeyspaceName, key: &EntryKey) -> Entry
    ensures { result ≡ end_entry target.now key.now }
{
    match key {
        EntryKey::Rule(key) => Entry::Rule(key.copied(), None),
        EntryKey::Denied(keyspace, table) => {
            Entry::Denied(keyspace.copied(), table.copied(), false)
        }
        EntryKey::Present(keyspace, table) => {
            Entry::Present(keyspace.copied(), table.copied(), target == keyspace)
        }
    }
}

/// Writes the end over the part of a workflow. It takes no memory.
fn write_end_of_part(topology: &mut Topology, workflow: &Workflow)
    requires { All (λ key. has_place topology.old key ≡ true) (keys_of_part (live_of workflow.now)) }
    ensures written { topology.new ≡ with_entries topology.old (map (end_entry workflow.now.target) (keys_of_part (live_of workflow.now))) }
    ensures places { (k : EntryKey) → has_place topology.new k ≡ has_place topology.old k }
{
    for index in 0..workflow.part_len() {
        let key = workflow.part_key(index);
        topology.write(end_entry(workflow.target(), &key));
    }
}

/// Writes that a table isn't at a keyspace. It takes no memory.
fn write_absent(topology: &mut Topology, keyspace: &KeyspaceName, table: &TableName)
    requires { has_place topology.old (about.Present keyspace.now table.now) ≡ true }
    ensures written { topology.new ≡ with_entry topology.old (entry.Present keyspace.now table.now false) }
    ensures places { (k : EntryKey) → has_place topology.new k ≡ has_place topology.old k }
{
    topology.write(Entry::Present(keyspace.copied(), table.copied(), false));
}

/// Writes that some tables aren't at a keyspace. It takes no memory.
fn write_all_absent(topology: &mut Topology, keyspace: &KeyspaceName, tables: &[TableName])
    requires { All (λ table. has_place topology.old (about.Present keyspace.now table) ≡ true) tables.now }
    ensures written { topology.new ≡ fold (λ t table. with_entry t (entry.Present keyspace.now table false)) topology.old tables.now }
{
    for table in tables {
        write_absent(topology, keyspace, table);
    }
}

/// Drops the places of some tables at a keyspace, if they hold nothing. It takes no memory.
fn release_tables(topology: &mut Topology, keyspace: &KeyspaceName, tables: &[TableName])
    ensures { topology.new ≡ fold (λ t table. without_place t (about.Present keyspace.now table)) topology.old tables.now }
{
    for table in tables {
        topology.release_table(keyspace, table);
    }
}

/// Writes the end of a workflow over its part and its source's tables, and drops those of their places that then hold nothing. It
/// takes no memory.
fn write_end(topology: &mut Topology, workflow: &Workflow)
    requires apart { workflow.now.source ≢ workflow.now.target }
    requires places { All (λ key. has_place topology.old key ≡ true) (end_keys (live_of workflow.now)) }
    ensures { topology.new ≡ without_places (with_entries topology.old (end_entries (live_of workflow.now))) (end_keys (live_of workflow.now)) }
{
    write_end_of_part(topology, workflow);
    write_all_absent(topology, workflow.source(), workflow.tables());
    topology.release_part(workflow.source(), workflow.target(), workflow.tables());
    release_tables(topology, workflow.source(), workflow.tables());
}

/// Completes a live workflow: `F7 NoWorkflow`, `F13 UnderWay`, `F21 NotAllSwitched`. It takes no memory, and asks nobody.
/// (Vitess: Complete of MoveTables)
pub fn complete(
    topology: &mut Topology,
    primaries: &mut Primaries,
    workflows: &mut Workflows,
    name: &WorkflowName,
) -> Result<(), Reason>
    requires { CanComplete topology.old primaries.old workflows.old.entries name.now }
    ensures { (ways : WaysState) → Completes (record { base = record { topology = topology.old; primaries = primaries.old; workflows = workflows.old.entries }; ways = ways }) name.now (done_by result)
        (record { base = record { topology = topology.new; primaries = primaries.new; workflows = workflows.new.entries }; ways = ways }) }
{
    let Some(workflow) = workflows.get(name) else {
        return Err(Reason::NoWorkflow);
    };
    if let Some(refusal) = complete_refusal(workflow) {
        return Err(refusal);
    }
    write_end(topology, workflow);
    drop_at(primaries, workflow.source(), workflow.tables());
    workflows.shift_remove(name);
    Ok(())
}
