//! Where an allocation fails, the answer is `Memory` or the one that there is without, and a refusal changes nothing.

use crate::primary::value;
use mt_names::{TableName, TabletType};
use mt_primary::{Op, Primary, PrimaryFault, RowChange, SharedName, SharedValue};
use std::alloc::{AllocError, Global};

/// The longest value that stands in place.
const IN_PLACE: [u8; 22] = [b'a'; 22];

/// The shortest value that takes memory of its own.
const BESIDE: [u8; 23] = [b'b'; 23];

/// The longest value.
const LONGEST: [u8; 64] = [b'c'; 64];

/// Whether a table is made at once, or at a second try after a refusal that changed nothing.
fn creates(primary: &mut Primary, table: &TableName) -> bool {
    if primary.has_table(table) {
        return false;
    }
    if let Err(fault) = primary.create_table(table) {
        if fault != PrimaryFault::Memory || primary.has_table(table) {
            return false;
        }
        return primary.create_table(table).is_ok();
    }
    primary.has_table(table)
}

/// Whether a row is written at once, or at a second try after a refusal that changed neither the row nor the log.
fn writes(primary: &mut Primary, table: &TableName, op: &Op) -> bool {
    let position = primary.position();
    let row = primary.read(table, op.key(), TabletType::Primary);
    if let Err(fault) = primary.write(table, op.copied()) {
        let is_kept = primary.position() == position
            && primary.read(table, op.key(), TabletType::Primary) == row;
        return fault == PrimaryFault::Memory
            && is_kept
            && primary.write(table, op.copied()).is_ok();
    }
    primary.position() > position
}

/// Whether a stream's change is applied at once, or at a second try after a refusal that changed neither the row nor
/// the log.
fn applies(primary: &mut Primary, change: &RowChange) -> bool {
    let (table, key) = (change.table.name(), change.key);
    if !primary.has_table(table) {
        return false;
    }
    let position = primary.position();
    let row = primary.read(table, key, TabletType::Primary);
    if let Err(fault) = primary.apply_change(change) {
        let is_kept = primary.position() == position
            && primary.read(table, key, TabletType::Primary) == row;
        return fault == PrimaryFault::Memory && is_kept && primary.apply_change(change).is_ok();
    }
    matches!(primary.entry(position), Ok(Some(_)))
}

/// A value to be shared, or none.
fn shared(alloc: Global, bytes: Option<&[u8]>) -> Result<Option<SharedValue>, AllocError> {
    Ok(match bytes {
        Some(bytes) => Some(SharedValue::new(alloc, value(bytes))?),
        None => None,
    })
}

/// A stream's change of a row.
fn change_of(
    alloc: Global,
    table: &TableName,
    key: u64,
    after: Option<&[u8]>,
) -> Result<RowChange, AllocError> {
    Ok(RowChange {
        table: SharedName::new(alloc, table.copied())?,
        key,
        before: None,
        after: shared(alloc, after)?,
    })
}

/// Whether a stream's change is made, at once or at a second try, and applied.
fn is_put(
    primary: &mut Primary,
    alloc: Global,
    table: &TableName,
    key: u64,
    after: Option<&[u8]>,
) -> bool {
    let change = match change_of(alloc, table, key, after) {
        Err(_) => change_of(alloc, table, key, after),
        made => made,
    };
    match &change {
        Ok(change) => applies(primary, change),
        Err(_) => false,
    }
}

/// A change of one row.
#[derive(Clone, Copy)]
enum Change<'a> {
    Insert(u64, &'a [u8]),
    Update(u64, &'a [u8]),
    Append(u64, &'a [u8]),
    Delete(u64),
    /// A stream sets the row, or takes it away.
    Put(u64, Option<&'a [u8]>),
}

/// The key of the row that is changed.
fn key_of(change: Change<'_>) -> u64 {
    match change {
        Change::Insert(key, _)
        | Change::Update(key, _)
        | Change::Append(key, _)
        | Change::Delete(key)
        | Change::Put(key, _) => key,
    }
}

/// Whether a change is done, at once or at a second try.
fn is_done(primary: &mut Primary, alloc: Global, table: &TableName, change: Change<'_>) -> bool {
    let op = match change {
        Change::Insert(key, bytes) => Op::Insert(key, value(bytes)),
        Change::Update(key, bytes) => Op::Update(key, value(bytes)),
        Change::Append(key, bytes) => Op::Append(key, value(bytes)),
        Change::Delete(key) => Op::Delete(key),
        Change::Put(key, after) => return is_put(primary, alloc, table, key, after),
    };
    writes(primary, table, &op)
}

/// Whether the log ends with an entry at this position, of this row, with this before it and after it.
fn ends_with(
    primary: &Primary,
    position: u64,
    row: (&TableName, u64),
    before: Option<&[u8]>,
    after: Option<&[u8]>,
) -> bool {
    let (table, key) = row;
    match primary.entry(position) {
        Ok(Some(change)) => {
            change.table.name() == table
                && change.key == key
                && change.before.as_ref().map(|row| row.as_slice()) == before
                && change.after.as_ref().map(|row| row.as_slice()) == after
                && primary.position() > position
                && primary.position() - position == 1
        }
        _ => false,
    }
}

/// Whether a change is done, leaves this row, and is logged with the row that stood there before it.
fn changes(
    primary: &mut Primary,
    alloc: Global,
    table: &TableName,
    change: Change<'_>,
    after: Option<&[u8]>,
) -> bool {
    let (position, key) = (primary.position(), key_of(change));
    let Ok(before) = primary.read(table, key, TabletType::Primary) else {
        return false;
    };
    is_done(primary, alloc, table, change)
        && primary.read(table, key, TabletType::Primary) == Ok(after.map(|bytes| value(bytes)))
        && ends_with(
            primary,
            position,
            (table, key),
            before.as_ref().map(|row| row.as_slice()),
            after,
        )
}

/// What a row of this key is filled with.
fn bytes_of(key: u64) -> &'static [u8] {
    match key % 3 {
        0 => &IN_PLACE,
        1 => &BESIDE,
        _ => &LONGEST,
    }
}

/// Whether rows of these keys are inserted.
fn are_inserted(primary: &mut Primary, alloc: Global, table: &TableName, keys: u64) -> bool {
    for key in 0..keys {
        let bytes = bytes_of(key);
        if !changes(
            primary,
            alloc,
            table,
            Change::Insert(key, bytes),
            Some(bytes),
        ) {
            return false;
        }
    }
    true
}

/// Whether rows behind a key, so many, are applied as a stream's.
fn are_applied(
    primary: &mut Primary,
    alloc: Global,
    table: &TableName,
    first: u64,
    rows: u64,
) -> bool {
    for number in 0..rows {
        let key = first.saturating_add(number);
        let row = Some(bytes_of(key));
        if !changes(primary, alloc, table, Change::Put(key, row), row) {
            return false;
        }
    }
    true
}

/// What is done to rows that are there, and the row that each leaves.
const CHANGES: [(Change<'static>, Option<&'static [u8]>); 13] = [
    (Change::Update(3, &LONGEST), Some(&LONGEST)),
    (Change::Update(4, b"x"), Some(b"x")),
    (Change::Update(5, &BESIDE), Some(&BESIDE)),
    (Change::Append(6, b""), Some(&IN_PLACE)),
    (Change::Append(9, b"a"), Some(&[b'a'; 23])),
    (Change::Append(7, b"b"), Some(&[b'b'; 24])),
    (Change::Delete(0), None),
    (Change::Delete(1), None),
    (Change::Put(12, Some(&BESIDE)), Some(&BESIDE)),
    (Change::Put(13, Some(&IN_PLACE)), Some(&IN_PLACE)),
    (Change::Put(14, None), None),
    (Change::Put(15, None), None),
    (Change::Put(14, None), None),
];

/// Whether these are done.
fn are_changed(primary: &mut Primary, alloc: Global, table: &TableName) -> bool {
    for (change, after) in &CHANGES {
        if !changes(primary, alloc, table, *change, *after) {
            return false;
        }
    }
    true
}

/// Whether a table is made, and all that may be done to its rows is done.
fn is_filled(primary: &mut Primary, alloc: Global, name: &str) -> bool {
    let Ok(table) = TableName::parse(name) else {
        return false;
    };
    creates(primary, &table)
        && are_inserted(primary, alloc, &table, 12)
        && are_applied(primary, alloc, &table, 12, 12)
        && are_changed(primary, alloc, &table)
}

/// Whether five tables are.
fn are_filled(primary: &mut Primary, alloc: Global) -> bool {
    for name in ["a", "b", "c", "d", "e"] {
        if !is_filled(primary, alloc, name) {
            return false;
        }
    }
    true
}

#[test]
fn want_of_memory_is_no_other_answer(rt: HostRuntime) {
    let mut primary = Primary::new(rt.alloc());
    assert!(rt; are_filled(&mut primary, rt.alloc()) && primary.position() == 185);
}
