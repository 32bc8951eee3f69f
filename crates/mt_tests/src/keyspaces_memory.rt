//! Where an allocation fails, no place is made, and the next try makes it.

use mt_denied::DeniedFault;
use mt_keyspace::Keyspaces;
use mt_model::TopologyFault;
use mt_names::{KeyspaceName, ShardList, TableName};
use std::alloc::Global;

/// Whether a keyspace is added, at once or at a second try.
fn is_added(keyspaces: &mut Keyspaces, alloc: Global, keyspace: &KeyspaceName) -> bool {
    match keyspaces.add_keyspace(alloc, keyspace, ShardList::unsharded()) {
        Err(TopologyFault::Memory) => keyspaces
            .add_keyspace(alloc, keyspace, ShardList::unsharded())
            .is_ok(),
        answer => answer.is_ok(),
    }
}

/// Whether a table gets a place, at once or at a second try after a refusal that made none.
fn is_reserved(keyspaces: &mut Keyspaces, keyspace: &KeyspaceName, table: &TableName) -> bool {
    if keyspaces.get(keyspace).is_none() {
        return false;
    }
    match keyspaces.make_place(keyspace, table) {
        Err(DeniedFault::Memory) => {
            !keyspaces.has_place(keyspace, table) && keyspaces.make_place(keyspace, table).is_ok()
        }
        answer => answer.is_ok(),
    }
}

/// Whether its denial gets a place, at once or at a second try after a refusal that made none.
fn denial_is_reserved(
    keyspaces: &mut Keyspaces,
    keyspace: &KeyspaceName,
    table: &TableName,
) -> bool {
    if keyspaces.get(keyspace).is_none() {
        return false;
    }
    match keyspaces.make_denied_place(keyspace, table) {
        Err(DeniedFault::Memory) => {
            !keyspaces.has_denied_place(keyspace, table)
                && keyspaces.make_denied_place(keyspace, table).is_ok()
        }
        answer => answer.is_ok(),
    }
}

/// Whether a keyspace is added, and a table of it gets a place, and a place for its denial.
fn places_are_made(keyspaces: &mut Keyspaces, alloc: Global) -> bool {
    let (Ok(keyspace), Ok(table)) = (KeyspaceName::parse("k"), TableName::parse("t")) else {
        return false;
    };
    is_added(keyspaces, alloc, &keyspace)
        && is_reserved(keyspaces, &keyspace, &table)
        && denial_is_reserved(keyspaces, &keyspace, &table)
        && keyspaces.has_place(&keyspace, &table)
        && keyspaces.has_denied_place(&keyspace, &table)
}

#[test]
fn want_of_memory_is_no_other_answer(rt: HostRuntime) {
    let mut keyspaces = Keyspaces::new(rt.alloc());
    assert!(rt; places_are_made(&mut keyspaces, rt.alloc()));
}
