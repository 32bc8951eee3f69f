//! Where an allocation fails, `new` answers `Memory`, and the next try makes the same workflow.

use crate::lanes::{CASES, Case, has_lanes};
use crate::made::{DUMP, SHARDED, new_of, new_to};
use mt_names::{NameFault, TableName, table_list};
use mt_topology::{Topology, TopologyFault};
use mt_workflow::WorkflowFault;
use std::alloc::Global;
use std::test::Fail;

/// Sixteen tables, of which `y` has rules.
const LISTED: &str = "y,a,b,c,d,e,f,g,h,i,j,k,l,m,n,o";

/// The topology of a dump, at once or at a second try.
fn topology_of(alloc: Global, dump: &str) -> Result<Topology, TopologyFault> {
    match Topology::load(alloc, dump.as_bytes()) {
        Err(TopologyFault::Memory) => Topology::load(alloc, dump.as_bytes()),
        answer => answer,
    }
}

/// What a try makes: whether a workflow of these tables has them, and how long its part is; or whether it is refused as there
/// is no memory.
fn made_once(
    alloc: Global,
    topology: &Topology,
    tables: &[TableName],
) -> Result<Result<(bool, usize), bool>, NameFault> {
    let answer = new_of(alloc, topology, tables)?;
    let made = match &answer {
        Some(Ok(workflow)) => Ok((workflow.tables() == tables, workflow.part_len())),
        Some(Err(fault)) => Err(*fault == WorkflowFault::Memory),
        None => Err(false),
    };
    drop(answer);
    Ok(made)
}

/// What a workflow of the sixteen tables has, at once or at a second try.
fn made(alloc: Global, topology: &Topology) -> Result<Result<(bool, usize), bool>, NameFault> {
    let tables = table_list(LISTED)?;
    match made_once(alloc, topology, &tables) {
        Ok(Err(true)) => made_once(alloc, topology, &tables),
        answer => answer,
    }
}

#[test]
fn want_of_memory_is_no_other_answer(rt: HostRuntime) -> Result<(), Fail> {
    let topology = topology_of(rt.alloc(), DUMP)?;
    let answer = made(rt.alloc(), &topology);
    drop(topology);
    assert!(rt; matches!(answer, Ok(Ok((true, 240)))));
    Ok(())
}

/// Whether a new workflow that moves a table to the keyspace of a case has a lane for each of its shards; or whether it is refused as there is
/// no memory.
fn laned_once(
    alloc: Global,
    topology: &Topology,
    (target, ranges): Case,
) -> Result<Result<bool, bool>, NameFault> {
    let tables = table_list("t")?;
    let answer = new_to(alloc, topology, target, &tables)?;
    let made = match &answer {
        Some(Ok(workflow)) => Ok(has_lanes(workflow, ranges)),
        Some(Err(fault)) => Err(*fault == WorkflowFault::Memory),
        None => Err(false),
    };
    drop(answer);
    Ok(made)
}

/// The same at once or at a second try.
fn laned(alloc: Global, topology: &Topology, case: Case) -> Result<Result<bool, bool>, NameFault> {
    match laned_once(alloc, topology, case) {
        Ok(Err(true)) => laned_once(alloc, topology, case),
        answer => answer,
    }
}

/// The first keyspace to which a workflow isn't made with its lanes.
fn first_other(alloc: Global, topology: &Topology) -> Option<&'static str> {
    for case in CASES {
        if !matches!(laned(alloc, topology, case), Ok(Ok(true))) {
            return Some(case.0);
        }
    }
    None
}

#[test]
fn want_of_memory_is_no_other_answer_of_shards(rt: HostRuntime) -> Result<(), Fail> {
    let topology = topology_of(rt.alloc(), SHARDED)?;
    let other = first_other(rt.alloc(), &topology);
    drop(topology);
    assert_eq!(rt; other, None);
    Ok(())
}
