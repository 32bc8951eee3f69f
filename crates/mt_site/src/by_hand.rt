//! What is done by hand: keyspaces, tables and rules.
ghost use Rattle.std.specs.Prelude.{◌≡◌, ◌≤◌, ◌<◌, ℕ, true, false, OnErr, OnOk, length, map, slice_index_or};
ghost use Rattle.mt_model.specs.declared.entries.EntryKey.{EntryKey};
ghost use Rattle.mt_model.specs.Topology.{has_place};
ghost use Rattle.mt_names.specs.Keys.{IsRuleKey};
ghost use Rattle.mt_plain.specs.Plain.{has_part};
ghost use Rattle.mt_primary.specs.Primary.{empty_primary, has_table};
ghost use Rattle.mt_primary.specs.Writes.{with_new_table};
ghost use Rattle.mt_primary.specs.Writes as writes;
ghost use Rattle.mt_workflow.specs.Workflows.{live_of};
ghost use Rattle.mt_event.specs.Reasons.{done_by};
ghost use Rattle.mt_primary.specs.Primaries.{count_of, has_primaries, primary_of};
ghost use Rattle.mt_primary.specs.Primaries as by_shard;
ghost use Rattle.mt_stands.specs.ByHand.{AddsKeyspace, AddsTable, EditsRule, is_owned};
ghost use Rattle.mt_stands.specs.Base as base;
ghost use Rattle.mt_moves.specs.Target.{changed_to};
ghost use Rattle.mt_site.specs.ByHand.{AreTables, CreatesTable, without_table};

use crate::{Primaries, Workflows};
use mt_event::Reason;
use mt_model::{Entry, EntryKey, MAX_KEYSPACES, PrimaryFault};
use mt_names::{KeyspaceName, RuleKey, RuleTarget, ShardList, TableName};
use mt_primary::Primary;
use mt_topology::Topology;
use mt_workflow::Workflow;

/// Adds a keyspace with an empty primary for each of its shards. All memory is taken before anything is added.
pub(crate) fn add_keyspace(
    topology: &mut Topology,
    primaries: &mut Primaries,
    name: &KeyspaceName,
    shards: &ShardList,
) -> Result<(), Reason>
    requires { AreTables topology.old primaries.old }
    ensures { (workflows : base.Workflows) → AddsKeyspace (record { topology = topology.old; primaries = primaries.old; workflows = workflows }) name.now shards.now (done_by result)
        (record { topology = topology.new; primaries = primaries.new; workflows = workflows }) }
{
    if primaries.place(name).is_some() {
        return Err(Reason::Exists);
    }
    if primaries.len() == MAX_KEYSPACES {
        return Err(Reason::Full);
    }
    if primaries.add(name.copied(), shards.copied()).is_err() {
        return Err(Reason::Memory);
    }
    if let Err(fault) = topology.add_keyspace(name, shards.copied()) {
        primaries.pop();
        return Err(Reason::from(fault));
    }
    Ok(())
}

/// Drops a table at the first ones of some primaries. It takes no memory.
fn drop_table(primaries: &mut [Primary], count: usize, table: &TableName)
    requires { count ≤ length primaries.old }
    ensures { primaries.new ≡ changed_to (λ primary. writes.without_table primary table.now) count primaries.old }
{
    for index in 0..count {
        primaries[index].drop_table(table);
    }
}

/// Makes a table at some primaries, none of which has it, or at none of them: `F0 Memory`.
fn create_table(primaries: &mut [Primary], table: &TableName) -> Result<(), PrimaryFault>
    requires { (shard : ℕ) → shard < length primaries.old → has_table (slice_index_or primaries.old shard empty_primary) table.now ≡ false }
    ensures made { OnOk result (primaries.new ≡ map (λ primary. with_new_table primary table.now) primaries.old) }
    ensures unchanged { OnErr result (primaries.new ≡ primaries.old) }
{
    for index in 0..primaries.len() {
        if let Err(fault) = primaries[index].create_table(table) {
            drop_table(primaries, index, table);
            return Err(fault);
        }
    }
    Ok(())
}

/// Makes a table at each primary of its keyspace, or at none.
fn create_table_at(
    primaries: &mut Primaries,
    keyspace: &KeyspaceName,
    table: &TableName,
) -> Result<(), PrimaryFault>
    requires there { has_primaries primaries.old keyspace.now ≡ true }
    requires absent { (shard : ℕ) → shard < count_of primaries.old keyspace.now → has_table (primary_of primaries.old keyspace.now shard) table.now ≡ false }
    ensures { CreatesTable primaries.old keyspace.now table.now result primaries.new }
{
    match primaries.place(keyspace) {
        None => unreachable!(),
        Some(place) => create_table(primaries.all_mut(place), table),
    }
}

/// Takes a table away from the topology, with its place.
fn take_table(topology: &mut Topology, keyspace: &KeyspaceName, table: &TableName)
    requires { has_place topology.old (EntryKey.Present keyspace.now table.now) ≡ true }
    ensures { topology.new ≡ without_table topology.old keyspace.now table.now }
{
    let absent = Entry::Present(keyspace.copied(), table.copied(), false);
    topology.write(absent);
    topology.release_table(keyspace, table);
}

/// Adds a table, which has no rows at the primaries of its keyspace. Where one of these has no memory for it, the topology and the others
/// lose it again.
pub(crate) fn add_table(
    topology: &mut Topology,
    primaries: &mut Primaries,
    keyspace: &KeyspaceName,
    table: &TableName,
) -> Result<(), Reason>
    requires { AreTables topology.old primaries.old }
    ensures { (workflows : base.Workflows) → AddsTable (record { topology = topology.old; primaries = primaries.old; workflows = workflows }) keyspace.now table.now (done_by result)
        (record { topology = topology.new; primaries = primaries.new; workflows = workflows }) }
{
    topology.add_table(keyspace, table)?;
    if create_table_at(primaries, keyspace, table).is_err() {
        take_table(topology, keyspace, table);
        return Err(Reason::Memory);
    }
    Ok(())
}

/// A key is made of names. It does nothing but to show that.
fn key_is_named(key: &RuleKey)
    ensures { IsRuleKey key.now }
{
    key.table.as_str();
    if let Some(keyspace) = &key.keyspace {
        keyspace.as_str();
    }
}

/// Whether a rule lies in the part of a live workflow.
fn is_owned(workflows: &Workflows, key: &RuleKey) -> bool
    ensures { result ≡ is_owned workflows.now.entries (EntryKey.Rule key.now) }
{
    for (_, workflow) in workflows.iter() {
        if owns(workflow, key) {
            return true;
        }
    }
    false
}

/// Whether a rule lies in the part of a workflow.
fn owns(workflow: &Workflow, key: &RuleKey) -> bool
    ensures { result ≡ has_part (live_of workflow.now) (EntryKey.Rule key.now) }
{
    if !workflow.tables().contains(&key.table) {
        return false;
    }
    match &key.keyspace {
        None => true,
        Some(keyspace) => workflow.source() == keyspace || workflow.target() == keyspace,
    }
}

/// Sets the rule of a key, or takes it away.
pub(crate) fn edit_rule(
    topology: &mut Topology,
    workflows: &Workflows,
    key: &RuleKey,
    target: Option<RuleTarget>,
) -> Result<(), Reason>
    ensures edits { (primaries : by_shard.Primaries) → EditsRule (record { topology = topology.old; primaries = primaries; workflows = workflows.now.entries }) key.now target (done_by result)
        (record { topology = topology.new; primaries = primaries; workflows = workflows.now.entries }) }
    ensures named { IsRuleKey key.now }
{
    key_is_named(key);
    if is_owned(workflows, key) {
        return Err(Reason::RuleOwned);
    }
    Ok(topology.edit_rule(key, target)?)
}
