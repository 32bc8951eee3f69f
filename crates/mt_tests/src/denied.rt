//! Denied lists.

use mt_denied::{DeniedFault, DeniedTables};
use mt_names::{NameFault, TableName};
use std::alloc::Global;
use std::test::Fail;

/// A call that concerns a table.
#[derive(Clone, Copy)]
enum Call {
    Reserve,
    Release,
    /// It is denied or allowed, where it has a place. Answered is what was so before.
    Deny(bool),
    IsDenied,
}

fn said(is_denied: bool) -> &'static str {
    if is_denied { "denied" } else { "allowed" }
}

/// How a call is answered.
fn answer(denied: &mut DeniedTables, table: &TableName, call: Call) -> &'static str {
    match call {
        Call::Reserve => match denied.reserve(table) {
            Ok(()) => "ok",
            Err(fault) => fault.as_str(),
        },
        Call::Release => {
            denied.release(table);
            "ok"
        }
        Call::Deny(is_denied) if denied.has_place(table) => said(denied.set(table, is_denied)),
        Call::Deny(_) => "no place",
        Call::IsDenied => said(denied.contains(table)),
    }
}

/// Whether calls that concern one table are answered so.
fn answers(
    denied: &mut DeniedTables,
    name: &str,
    calls: &[(Call, &str)],
) -> Result<bool, NameFault> {
    let table = TableName::parse(name)?;
    Ok(
        calls
            .iter()
            .all(|(call, want)| answer(denied, &table, *call) == *want),
    )
}

/// A place is kept while its table is denied.
static ONE_TABLE: [(Call, &str); 11] = [
    (Call::Deny(true), "no place"),
    (Call::Reserve, "ok"),
    (Call::Deny(true), "allowed"),
    (Call::Deny(true), "denied"),
    (Call::Release, "ok"),
    (Call::IsDenied, "denied"),
    (Call::Deny(false), "denied"),
    (Call::Reserve, "ok"),
    (Call::IsDenied, "allowed"),
    (Call::Release, "ok"),
    (Call::Deny(true), "no place"),
];

#[test]
fn a_table_is_denied_and_allowed(rt: HostRuntime) -> Result<(), Fail> {
    let mut denied = DeniedTables::new(rt.alloc());
    assert!(rt; answers(&mut denied, "t", &ONE_TABLE)?);
    assert_eq!(rt; denied.len(), 0);
    Ok(())
}

/// The names of the denied tables, each behind a blank.
fn listed(alloc: Global, denied: &DeniedTables) -> Result<String, Fail> {
    let mut text = String::new(alloc);
    for name in denied.sorted(alloc)?.iter() {
        text.push_str(" ")?;
        text.push_str(name.as_str())?;
    }
    Ok(text)
}

/// Whether places are made for these tables, of which some are denied.
fn has_places(denied: &mut DeniedTables, places: &[(&str, bool)]) -> Result<bool, NameFault> {
    for (name, is_denied) in places {
        let calls = [(Call::Reserve, "ok"), (Call::Deny(*is_denied), "allowed")];
        if !answers(denied, name, &calls)? {
            return Ok(false);
        }
    }
    Ok(true)
}

/// Tables in no order, of which one is allowed.
static PLACES: [(&str, bool); 5] = [
    ("b", true),
    ("a", true),
    ("ab", true),
    ("B", true),
    ("c", false),
];

/// Whether the denied tables are listed so.
fn is_listed(alloc: Global, denied: &DeniedTables, want: &str) -> Result<bool, Fail> {
    Ok(listed(alloc, denied)?.as_str() == want)
}

#[test]
fn members_are_listed_in_the_order_of_their_bytes(rt: HostRuntime) -> Result<(), Fail> {
    let mut denied = DeniedTables::new(rt.alloc());
    assert!(rt; has_places(&mut denied, &PLACES) == Ok(true));
    assert!(rt; is_listed(rt.alloc(), &denied, " B a ab b")?);
    Ok(())
}

/// Whether so many tables get a place.
fn is_filled(alloc: Global, denied: &mut DeniedTables, count: u32) -> Result<bool, Fail> {
    for number in 0..count {
        let name = format!(in alloc; "t{number}")?;
        if !answers(denied, name.as_str(), &[(Call::Reserve, "ok")])? {
            return Ok(false);
        }
    }
    Ok(true)
}

/// Whether a list of 256 takes no place more, and has each that it had.
fn is_full(denied: &mut DeniedTables) -> Result<bool, NameFault> {
    Ok(
        answers(denied, "t256", &[(Call::Reserve, "L1 Full")])?
            && answers(denied, "t7", &[(Call::Reserve, "ok")])?
            && denied.len() == 256,
    )
}

#[test]
fn places_are_limited(rt: HostRuntime) -> Result<(), Fail> {
    let mut denied = DeniedTables::new(rt.alloc());
    assert!(rt; is_filled(rt.alloc(), &mut denied, 256)?);
    assert!(rt; is_full(&mut denied) == Ok(true));
    Ok(())
}

/// Whether a refusal is printed so.
fn is_printed(alloc: Global, fault: DeniedFault, text: &str) -> bool {
    format!(in alloc; "{fault}").is_ok_and(|printed| printed.as_str() == text)
}

#[test]
fn refusals_are_printed(rt: HostRuntime) {
    assert!(rt;
        is_printed(rt.alloc(), DeniedFault::Memory, "L0 Memory")
            && is_printed(rt.alloc(), DeniedFault::Full, "L1 Full")
    );
}
