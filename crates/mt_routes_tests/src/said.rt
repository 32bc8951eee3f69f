//! Topologies by the texts of their routes.

use mt_model::TopologyFault;
use mt_names::{KeyspaceName, RuleKey, RuleTarget, ShardList, TableName};
use mt_topology::Topology;
use std::alloc::Global;

/// A route by its texts.
#[derive(Clone, Copy)]
pub enum Said<'a> {
    /// A key leads to a target.
    Rule(&'a str, &'a str),
    /// A keyspace has a table.
    Table(&'a str, &'a str),
}

/// Adds a rule by its texts, if they are names and there is memory.
fn add_rule(topology: &mut Topology, key: &str, target: &str) -> Option<()> {
    let key = RuleKey::parse(key).ok()?;
    let target = RuleTarget::parse(target).ok()?;
    topology.edit_rule(&key, Some(target)).ok()
}

/// Adds a table, and its keyspace where that isn't there.
pub fn add_table(
    topology: &mut Topology,
    keyspace: &KeyspaceName,
    table: &TableName,
) -> Option<()> {
    match topology.add_keyspace(keyspace, ShardList::unsharded()) {
        Ok(()) | Err(TopologyFault::Exists) => topology.add_table(keyspace, table).ok(),
        Err(_) => None,
    }
}

/// Adds a table by its texts, if they are names and there is memory.
fn add_named(topology: &mut Topology, keyspace: &str, table: &str) -> Option<()> {
    let keyspace = KeyspaceName::parse(keyspace).ok()?;
    let table = TableName::parse(table).ok()?;
    add_table(topology, &keyspace, &table)
}

/// Adds the route of these texts.
fn add(topology: &mut Topology, said: Said<'_>) -> Option<()> {
    match said {
        Said::Rule(key, target) => add_rule(topology, key, target),
        Said::Table(keyspace, table) => add_named(topology, keyspace, table),
    }
}

/// A topology with these routes and no others, if their texts are names and there is memory.
pub fn topology_of(alloc: Global, said: &[Said<'_>]) -> Option<Topology> {
    let mut topology = Topology::new(alloc);
    for one in said {
        add(&mut topology, *one)?;
    }
    Some(topology)
}
