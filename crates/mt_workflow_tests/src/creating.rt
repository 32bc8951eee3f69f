//! When a workflow isn't created.

use crate::made::{DUMP, SHARDED, workflow_of};
use mt_names::{KeyspaceName, NameFault, table_list};
use mt_topology::Topology;
use mt_workflow::{WorkflowFault, may_create};
use std::test::Fail;

/// A source, a target, tables, and the refusal with the key or the table that it names, or `ok`.
type Case = (
    &'static str,
    &'static str,
    &'static str,
    &'static str,
    &'static str,
);

/// Each refusal, and which of two comes first.
static CASES: [Case; 16] = [
    ("a", "a", "-", "W2 NoTables", ""),
    ("a", "b", "-", "W2 NoTables", ""),
    ("a", "a", "n", "W1 SameKeyspace", ""),
    ("a", "b", "n", "W6 NoTable", "n"),
    ("k", "b", "t", "W6 NoTable", "t"),
    ("b", "a", "t", "W6 NoTable", "t"),
    ("a", "b", "x", "W4 TargetHasTable", "x"),
    ("b", "a", "x", "W4 TargetHasTable", "x"),
    ("a", "b", "u", "W3 RuleConflict", "u"),
    ("a", "b", "v", "W3 RuleConflict", "a.v@replica"),
    ("a", "b", "w", "W3 RuleConflict", "w@rdonly"),
    ("a", "b", "t", "W5 DeniedByHand", "t"),
    ("a", "b", "y,t,n", "W5 DeniedByHand", "t"),
    ("a", "b", "y,n,t", "W6 NoTable", "n"),
    ("a", "b", "y", "ok", ""),
    ("a", "k", "y", "ok", ""),
];

/// The same over keyspaces of several shards.
static SHARDED_CASES: [Case; 9] = [
    ("two", "two", "-", "W2 NoTables", ""),
    ("two", "two", "t", "W1 SameKeyspace", ""),
    ("two", "a", "t", "W7 ShardedSource", ""),
    ("eight", "a", "n", "W7 ShardedSource", ""),
    ("three", "k", "n", "W7 ShardedSource", ""),
    ("one", "two", "t", "W6 NoTable", "t"),
    ("a", "two", "t", "W4 TargetHasTable", "t"),
    ("a", "two", "u", "ok", ""),
    ("a", "eight", "t,u", "ok", ""),
];

/// Whether a refusal names this key or this table.
fn is_about(fault: &WorkflowFault, about: &str) -> bool {
    match fault {
        WorkflowFault::RuleConflict(key) => key.text().as_str() == about,
        WorkflowFault::TargetHasTable(table) => table.as_str() == about,
        WorkflowFault::DeniedByHand(table) => table.as_str() == about,
        WorkflowFault::NoTable(table) => table.as_str() == about,
        WorkflowFault::Memory
        | WorkflowFault::SameKeyspace
        | WorkflowFault::NoTables
        | WorkflowFault::ShardedSource => about.is_empty(),
    }
}

/// Whether a case is answered so.
fn is_answered(topology: &Topology, case: Case) -> Result<bool, NameFault> {
    let (source, target, listed, want, about) = case;
    let (source, target) = (KeyspaceName::parse(source)?, KeyspaceName::parse(target)?);
    Ok(
        match may_create(topology, &source, &target, &table_list(listed)?) {
            Ok(()) => want == "ok",
            Err(fault) => fault.as_str() == want && is_about(&fault, about),
        },
    )
}

/// The first case that is answered otherwise.
fn first_other(topology: &Topology, cases: &[Case]) -> Result<Option<usize>, NameFault> {
    for (at, case) in cases.iter().enumerate() {
        if !is_answered(topology, *case)? {
            return Ok(Some(at));
        }
    }
    Ok(None)
}

#[test]
fn the_first_refusal_is_answered(rt: HostRuntime) -> Result<(), Fail> {
    let topology = Topology::load(rt.alloc(), DUMP.as_bytes())?;
    let answer = first_other(&topology, &CASES);
    drop(topology);
    assert_eq!(rt; answer, Ok(None));
    Ok(())
}

#[test]
fn a_source_of_several_shards_is_refused(rt: HostRuntime) -> Result<(), Fail> {
    let topology = Topology::load(rt.alloc(), SHARDED.as_bytes())?;
    let answer = first_other(&topology, &SHARDED_CASES);
    drop(topology);
    assert_eq!(rt; answer, Ok(None));
    Ok(())
}

#[test]
fn a_table_that_is_denied_by_hand_is_no_matter_of_new(rt: HostRuntime) -> Result<(), Fail> {
    let workflow = workflow_of(rt.alloc(), "t")?;
    let count = workflow.tables().len();
    drop(workflow);
    assert!(rt; count == 1);
    Ok(())
}
