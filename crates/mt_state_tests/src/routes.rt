//! Several entries written at once and taken back, and the routes of a topology.

use mt_names::{KeyspaceName, NameFault, RuleKey, RuleTarget, TableName};
use mt_topology::{Entry, Topology};
use std::alloc::Global;

/// Two keyspaces with three tables, of which one is denied, and two rules.
const DUMP: &str =
    "{\"denied\":[\"b.t\"],\"keyspaces\":[{\"name\":\"a\",\"shards\":[\"-\"],\"tables\":[\"s\"]},{\"name\":\"b\",\"shards\":[\"-\"],\"tables\":[\"t\",\"u\"]}],\"rules\":[{\"from_table\":\"x\",\"to_tables\":[\"b.t\"]},{\"from_table\":\"y@replica\",\"to_tables\":[\"a.s\"]}],\"version\":2}";

/// The dump behind the changes.
const WRITTEN: &str =
    "{\"denied\":[],\"keyspaces\":[{\"name\":\"a\",\"shards\":[\"-\"],\"tables\":[\"s\"]},{\"name\":\"b\",\"shards\":[\"-\"],\"tables\":[\"u\"]}],\"rules\":[{\"from_table\":\"x\",\"to_tables\":[\"a.s\"]},{\"from_table\":\"y@replica\",\"to_tables\":[\"a.s\"]}],\"version\":2}";

fn rule(key: &str, target: &str) -> Result<Entry, NameFault> {
    Ok(Entry::Rule(RuleKey::parse(key)?, Some(RuleTarget::parse(target)?)))
}

fn no_rule(key: &str) -> Result<Entry, NameFault> {
    Ok(Entry::Rule(RuleKey::parse(key)?, None))
}

fn table(keyspace: &str, table: &str, is_there: bool) -> Result<Entry, NameFault> {
    Ok(Entry::Present(
        KeyspaceName::parse(keyspace)?,
        TableName::parse(table)?,
        is_there,
    ))
}

fn denial(keyspace: &str, table: &str, is_denied: bool) -> Result<Entry, NameFault> {
    Ok(Entry::Denied(
        KeyspaceName::parse(keyspace)?,
        TableName::parse(table)?,
        is_denied,
    ))
}

/// Whether the dump is this.
fn dumps(alloc: Global, topology: &Topology, want: &str) -> bool {
    topology.dump(alloc).is_ok_and(|text| text.as_str() == want)
}

/// Whether the route of an index is this entry.
fn is_route(topology: &Topology, index: usize, want: &Entry) -> bool {
    if index < topology.route_len() {
        return topology.route_entry(index) == *want;
    }
    false
}

/// Whether these are the routes that are listed, in this order.
fn are_listed(alloc: Global, topology: &Topology, want: &[Entry]) -> bool {
    topology.routes(alloc).is_ok_and(|list| *list == *want)
}

/// Whether these are the routes, in this order, listed and by their index.
fn are_routes(alloc: Global, topology: &Topology, want: &[Entry]) -> bool {
    if topology.route_len() != want.len() || !are_listed(alloc, topology, want) {
        return false;
    }
    for (index, entry) in want.iter().enumerate() {
        if !is_route(topology, index, entry) {
            return false;
        }
    }
    true
}

/// Writes an entry that has a place, which becomes what stood before.
fn exchange(topology: &mut Topology, entry: &mut Entry) -> bool {
    let has_place = topology.has_place(&entry.key());
    if has_place {
        *entry = topology.write(entry.copied());
    }
    has_place
}

/// Writes entries as long as each has a place, which become what stood before.
fn write_all(topology: &mut Topology, entries: &mut [Entry]) -> bool {
    for entry in entries.iter_mut() {
        if !exchange(topology, entry) {
            return false;
        }
    }
    true
}

/// Entries to be written, one key twice.
fn changes() -> Result<[Entry; 4], NameFault> {
    Ok([
        no_rule("x")?,
        denial("b", "t", false)?,
        table("b", "t", false)?,
        rule("x", "a.s")?,
    ])
}

/// What stands before each of them.
fn befores() -> Result<[Entry; 4], NameFault> {
    Ok([
        rule("x", "b.t")?,
        denial("b", "t", true)?,
        table("b", "t", true)?,
        no_rule("x")?,
    ])
}

/// Whether entries are written, so that they become what stood before, this dump stands then, and the first one stands again
/// behind the way back.
fn go_and_return(
    alloc: Global,
    topology: &mut Topology,
    entries: &mut [Entry],
    before: &[Entry],
) -> bool {
    if !write_all(topology, entries) || *entries != *before || !dumps(alloc, topology, WRITTEN) {
        return false;
    }
    entries.reverse();
    write_all(topology, entries) && dumps(alloc, topology, DUMP)
}

/// Whether the changes are written and taken back.
fn are_taken_back(alloc: Global, topology: &mut Topology) -> Result<bool, NameFault> {
    let before = befores()?;
    let mut entries = changes()?;
    Ok(go_and_return(alloc, topology, &mut entries, &before))
}

/// Whether that goes so at the topology that the dump is read as.
fn loaded_takes_back(alloc: Global) -> bool {
    match Topology::load(alloc, DUMP.as_bytes()) {
        Ok(mut topology) => are_taken_back(alloc, &mut topology).unwrap_or(false),
        Err(_) => false,
    }
}

#[test]
fn entries_are_written_and_taken_back(rt: HostRuntime) {
    assert!(rt; loaded_takes_back(rt.alloc()));
}

/// The routes of the dump, as it is read.
fn routes() -> Result<[Entry; 5], NameFault> {
    Ok([
        rule("x", "b.t")?,
        rule("y@replica", "a.s")?,
        table("a", "s", true)?,
        table("b", "t", true)?,
        table("b", "u", true)?,
    ])
}

/// Those that are left where it is written over, and `x` has no rule.
fn fewer_routes() -> Result<[Entry; 3], NameFault> {
    Ok([
        rule("y@replica", "a.s")?,
        table("a", "s", true)?,
        table("b", "u", true)?,
    ])
}

/// Whether the routes are those of the dump.
fn has_routes(alloc: Global, topology: &Topology) -> Result<bool, NameFault> {
    Ok(are_routes(alloc, topology, &routes()?))
}

/// Whether they are those that are left.
fn has_fewer_routes(alloc: Global, topology: &Topology) -> Result<bool, NameFault> {
    Ok(are_routes(alloc, topology, &fewer_routes()?))
}

/// Takes away the rule of `x` and the table of `b`, where each has a place.
fn take_away(topology: &mut Topology) -> Result<bool, NameFault> {
    let rule = no_rule("x")?;
    Ok(write_all(topology, &mut [rule, table("b", "t", false)?]))
}

/// Whether the routes are what stands, before and behind that.
fn are_what_stands(alloc: Global, topology: &mut Topology) -> Result<bool, NameFault> {
    Ok(has_routes(alloc, topology)? && take_away(topology)? && has_fewer_routes(alloc, topology)?)
}

/// Whether they are at the topology that the dump is read as.
fn loaded_are_what_stands(alloc: Global) -> bool {
    match Topology::load(alloc, DUMP.as_bytes()) {
        Ok(mut topology) => are_what_stands(alloc, &mut topology).unwrap_or(false),
        Err(_) => false,
    }
}

#[test]
fn routes_are_what_stands(rt: HostRuntime) {
    assert!(rt; loaded_are_what_stands(rt.alloc()));
}
