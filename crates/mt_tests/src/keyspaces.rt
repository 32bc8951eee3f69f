//! Places for tables and denials at keyspaces by direct calls.

use mt_denied::DeniedFault;
use mt_keyspace::Keyspaces;
use mt_names::{KeyspaceName, NameFault, ShardList, TableName};
use std::alloc::Global;

/// A place that is made.
#[derive(Clone, Copy)]
enum Call {
    /// For a table.
    Table,
    /// For its denial.
    Denial,
}

/// How an answer is printed.
fn printed(answer: Result<bool, DeniedFault>) -> &'static str {
    match answer {
        Ok(_) => "ok",
        Err(fault) => fault.as_str(),
    }
}

fn answer(
    keyspaces: &mut Keyspaces,
    call: Call,
    keyspace: &str,
    table: &str,
) -> Result<&'static str, NameFault> {
    let (keyspace, table) = (KeyspaceName::parse(keyspace)?, TableName::parse(table)?);
    if keyspaces.get(&keyspace).is_none() {
        return Ok("no keyspace");
    }
    Ok(match call {
        Call::Table => printed(keyspaces.make_place(&keyspace, &table)),
        Call::Denial => printed(keyspaces.make_denied_place(&keyspace, &table)),
    })
}

/// Makes so many places for tables in the keyspace `k`, and as many for denials: whether all are made.
fn is_filled(alloc: Global, keyspaces: &mut Keyspaces, count: u32) -> bool {
    for number in 0..count {
        let Ok(name) = format!(in alloc; "t{number}") else {
            return false;
        };
        if answer(keyspaces, Call::Table, "k", name.as_str()) != Ok("ok")
            || answer(keyspaces, Call::Denial, "k", name.as_str()) != Ok("ok")
        {
            return false;
        }
    }
    true
}

/// Places that are asked for where a keyspace has 256 of each kind, with their answers.
static REFUSED: [(&str, &str, &str); 3] = [
    ("k", "t256", "L1 Full"),
    ("k", "t7", "ok"),
    ("j", "t7", "no keyspace"),
];

/// The first that is answered otherwise.
fn first_wrong(keyspaces: &mut Keyspaces, call: Call) -> Option<&'static str> {
    for (keyspace, table, want) in &REFUSED {
        if answer(keyspaces, call, keyspace, table) != Ok(*want) {
            return Some(want);
        }
    }
    None
}

/// The first of either kind that is answered otherwise, in a keyspace that is filled.
fn first_of_both(alloc: Global, keyspaces: &mut Keyspaces) -> Option<&'static str> {
    let Ok(name) = KeyspaceName::parse("k") else {
        return Some("the name");
    };
    let shards = ShardList::unsharded();
    if keyspaces.add_keyspace(alloc, &name, shards).is_err() || !is_filled(alloc, keyspaces, 256) {
        return Some("the keyspace");
    }
    match first_wrong(keyspaces, Call::Table) {
        Some(text) => Some(text),
        None => first_wrong(keyspaces, Call::Denial),
    }
}

#[test]
fn places_are_refused_by_their_faults(rt: HostRuntime) {
    let mut keyspaces = Keyspaces::new(rt.alloc());
    assert_eq!(rt; first_of_both(rt.alloc(), &mut keyspaces), None);
}
