//! Where an allocation fails, the answer is `Memory` or the one that there is without, and a refusal changes nothing.

use mt_denied::{DeniedFault, DeniedTables};
use mt_names::TableName;

/// Whether a place is made at once, or at a second try after a refusal that changed nothing.
fn reserves(denied: &mut DeniedTables, table: &TableName) -> bool {
    let before = denied.len();
    if denied.reserve(table) == Err(DeniedFault::Memory) {
        let is_kept = denied.len() == before && !denied.has_place(table);
        return is_kept && denied.reserve(table) == Ok(()) && denied.len() == before + 1;
    }
    denied.has_place(table) && denied.len() == before + 1
}

/// Whether so many denied tables are listed at once, or at a second try.
fn lists(rt: &HostRuntime, denied: &DeniedTables, count: usize) -> bool {
    let Err(fault) = denied.sorted(rt.alloc()) else {
        return denied
            .sorted(rt.alloc())
            .map_or(true, |names| names.len() == count);
    };
    fault == DeniedFault::Memory
        && denied
            .sorted(rt.alloc())
            .is_ok_and(|names| names.len() == count)
}

/// Whether a table gets a place, and is then denied.
fn denies(denied: &mut DeniedTables, name: &str) -> bool {
    let Ok(table) = TableName::parse(name) else {
        return false;
    };
    if !reserves(denied, &table) || !denied.has_place(&table) {
        return false;
    }
    !denied.set(&table, true)
}

/// Whether each of five tables is.
fn are_denied(denied: &mut DeniedTables) -> bool {
    for name in ["b", "a", "d", "c", "e"] {
        if !denies(denied, name) {
            return false;
        }
    }
    true
}

#[test]
fn want_of_memory_is_no_other_answer(rt: HostRuntime) {
    let mut denied = DeniedTables::new(rt.alloc());
    assert!(rt; are_denied(&mut denied) && lists(&rt, &denied, 5));
}
