//! Topologies that are read from dumps, and workflows over them.

use mt_names::{KeyspaceName, MAX_TABLES, NameFault, TableName, WorkflowName, table_list};
use mt_topology::Topology;
use mt_workflow::{Workflow, WorkflowFault};
use std::alloc::Global;
use std::test::Fail;

/// Three keyspaces. At `a` each table but `n` stands, and `t` and `u` are denied; `x` stands at `b` too. A rule of `u` leads to `b`,
/// one of `v` for replica and two of `w` to `c`, one of `x` to `c`, and two of `y` to the table at `a`.
pub const DUMP: &str =
    "{\"version\":1,\"keyspaces\":[{\"name\":\"a\",\"tables\":[\"t\",\"u\",\"v\",\"w\",\"x\",\"y\"]},{\"name\":\"b\",\"tables\":[\"x\"]},{\"name\":\"c\"}],\"denied\":[\"a.t\",\"a.u\"],\"rules\":[{\"from_table\":\"b.w\",\"to_tables\":[\"c.w\"]},{\"from_table\":\"w@rdonly\",\"to_tables\":[\"c.w\"]},{\"from_table\":\"u\",\"to_tables\":[\"b.u\"]},{\"from_table\":\"a.v@replica\",\"to_tables\":[\"c.v\"]},{\"from_table\":\"x\",\"to_tables\":[\"c.x\"]},{\"from_table\":\"y\",\"to_tables\":[\"a.y\"]},{\"from_table\":\"a.y\",\"to_tables\":[\"a.y\"]}]}";

/// Keyspaces of one, two, three and eight shards, named by these numbers, and `a`, which has tables and one shard; `two` has a table too.
pub const SHARDED: &str =
    "{\"version\":2,\"keyspaces\":[{\"name\":\"a\",\"tables\":[\"t\",\"u\"]},{\"name\":\"one\",\"shards\":[\"-\"]},{\"name\":\"two\",\"shards\":[\"-80\",\"80-\"],\"tables\":[\"t\"]},{\"name\":\"three\",\"shards\":[\"-40\",\"40-80\",\"80-\"]},{\"name\":\"eight\",\"shards\":[\"-20\",\"20-40\",\"40-60\",\"60-80\",\"80-a0\",\"a0-c0\",\"c0-e0\",\"e0-\"]}]}";

/// What `new` answers for a workflow `m` that moves some tables from `a` to `b`, and whose stream begins at position 7; nothing if
/// there are too many tables.
pub fn new_of(
    alloc: Global,
    topology: &Topology,
    tables: &[TableName],
) -> Result<Option<Result<Workflow, WorkflowFault>>, NameFault> {
    new_to(alloc, topology, "b", tables)
}

/// The same of one that moves them to this keyspace.
pub fn new_to(
    alloc: Global,
    topology: &Topology,
    target: &str,
    tables: &[TableName],
) -> Result<Option<Result<Workflow, WorkflowFault>>, NameFault> {
    let (source, target) = (KeyspaceName::parse("a")?, KeyspaceName::parse(target)?);
    let name = WorkflowName::parse("m")?;
    if source == target || tables.len() > MAX_TABLES {
        return Ok(None);
    }
    Ok(Some(Workflow::new(alloc, &name, &source, &target, tables, topology, 7)))
}

/// Such a workflow of these tables.
fn workflow_with(
    alloc: Global,
    topology: &Topology,
    tables: &[TableName],
) -> Result<Workflow, Fail> {
    match new_of(alloc, topology, tables)? {
        Some(answer) => Ok(answer?),
        None => Err(Fail::from("too many tables")),
    }
}

/// Such a workflow of these tables, over the topology of the dump.
pub fn workflow_naming(alloc: Global, tables: &[TableName]) -> Result<Workflow, Fail> {
    let topology = Topology::load(alloc, DUMP.as_bytes())?;
    let made = workflow_with(alloc, &topology, tables);
    drop(topology);
    made
}

/// One of the tables that a text lists.
pub fn workflow_of(alloc: Global, listed: &str) -> Result<Workflow, Fail> {
    let tables = table_list(listed)?;
    workflow_naming(alloc, &tables)
}

/// One that moves the table `t` to this keyspace, over the topology of keyspaces with shards.
pub fn workflow_to(alloc: Global, target: &str) -> Result<Workflow, Fail> {
    let tables = table_list("t")?;
    let topology = Topology::load(alloc, SHARDED.as_bytes())?;
    let made = new_to(alloc, &topology, target, &tables);
    drop(topology);
    match made? {
        Some(answer) => Ok(answer?),
        None => Err(Fail::from("the source is the target")),
    }
}
