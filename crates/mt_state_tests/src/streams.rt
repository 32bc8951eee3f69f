//! What a stream reads and writes at a primary, and tables made and dropped, by direct calls.

use crate::phases::{Phase, first_wrong};
use crate::primary::{Answer, Call, LONGEST, value};
use crate::refreshes::{BOTH, DENIED, ROW};
use mt_names::{NameFault, TableName, TabletType};
use mt_primary::{Primary, PrimaryFault, RowChange, SharedName, SharedValue};
use std::alloc::{AllocError, Global};

/// A row of a table and a key, or none.
pub type Row<'a> = (&'a str, u64, Option<&'a [u8]>);

/// An entry of a log: a row after the change, and what stood there before.
pub type Entry<'a> = (Row<'a>, Option<&'a [u8]>);

/// A table, a key or none, and the row that follows.
pub type Next<'a> = (&'a str, Option<u64>, Option<(u64, &'a [u8])>);

/// A value to be shared, or none.
fn shared(alloc: Global, bytes: Option<&[u8]>) -> Result<Option<SharedValue>, AllocError> {
    Ok(match bytes {
        Some(bytes) => Some(SharedValue::new(alloc, value(bytes))?),
        None => None,
    })
}

/// The change of a row, with this row before it.
fn change_of(
    alloc: Global,
    table: &TableName,
    key: u64,
    before: Option<&[u8]>,
    after: Option<&[u8]>,
) -> Result<RowChange, AllocError> {
    Ok(RowChange {
        table: SharedName::new(alloc, table.copied())?,
        key,
        before: shared(alloc, before)?,
        after: shared(alloc, after)?,
    })
}

/// Whether a row is put, at the next position. The row before that the change tells of counts for nothing.
fn is_put(primary: &mut Primary, alloc: Global, row: Row<'_>) -> Result<bool, NameFault> {
    let (table, key, after) = row;
    let table = TableName::parse(table)?;
    let Ok(change) = change_of(alloc, &table, key, Some(&LONGEST), after) else {
        return Ok(false);
    };
    let position = primary.position();
    if !primary.has_table(change.table.name()) || primary.apply_change(&change).is_err() {
        return Ok(false);
    }
    Ok(primary.position() > position && primary.position() - position == 1)
}

/// Whether rows are put, one after the other.
pub fn all_put(primary: &mut Primary, alloc: Global, rows: &[Row<'_>]) -> bool {
    for row in rows {
        if !is_put(primary, alloc, *row).unwrap_or(false) {
            return false;
        }
    }
    true
}

/// Whether a row is of these bytes, or there is none.
fn is_row(row: &Option<SharedValue>, want: Option<&[u8]>) -> bool {
    row.as_ref().map(|row| row.as_slice()) == want
}

/// Whether the log has this entry at a position.
fn has_entry(primary: &Primary, position: u64, entry: Entry<'_>) -> Result<bool, NameFault> {
    let ((table, key, after), before) = entry;
    let table = TableName::parse(table)?;
    Ok(match primary.entry(position) {
        Ok(Some(change)) => {
            change.table.name() == &table
                && change.key == key
                && is_row(&change.before, before)
                && is_row(&change.after, after)
        }
        _ => false,
    })
}

/// Whether the log has these entries, and no others.
pub fn has_log(primary: &Primary, entries: &[Entry<'_>]) -> bool {
    for (position, entry) in entries.iter().enumerate() {
        if !has_entry(primary, position as u64, *entry).unwrap_or(false) {
            return false;
        }
    }
    let end = entries.len() as u64;
    matches!(primary.entry(end), Ok(None)) && primary.position() == end
}

/// Whether this is the first row of a table, or the first above a key.
fn is_next(
    primary: &Primary,
    table: &str,
    last: Option<u64>,
    want: Option<(u64, &[u8])>,
) -> Result<bool, NameFault> {
    let next = primary.row_after(&TableName::parse(table)?, last);
    Ok(next == want.map(|(key, bytes)| (key, value(bytes))))
}

/// Whether these are the rows that follow.
pub fn all_next(primary: &Primary, wants: &[Next<'_>]) -> bool {
    for (table, last, want) in wants {
        if !is_next(primary, table, *last, *want).unwrap_or(false) {
            return false;
        }
    }
    true
}

/// Drops a table.
pub fn drop_table(primary: &mut Primary, name: &str) -> Result<(), NameFault> {
    primary.drop_table(&TableName::parse(name)?);
    Ok(())
}

/// A client's row.
const A_WRITE: [(Call<'static>, Answer<'static>); 1] = [(
    Call::Insert("t", 1, b"a"),
    Answer::At(1),
)];

/// The row as a stream left it.
const A_READ: [(Call<'static>, Answer<'static>); 1] = [(
    Call::Read("t", 1, TabletType::Primary),
    Answer::Row(b"b"),
)];

/// A client writes a row, and a stream writes over it.
static BEHIND_A_CLIENT: [Phase; 6] = [
    Phase::Made(&["t"]),
    Phase::Answered(&A_WRITE),
    Phase::At(1),
    Phase::Put(&[("t", 1, Some(b"b"))]),
    Phase::At(2),
    Phase::Answered(&A_READ),
];

#[test]
fn a_stream_writes_behind_a_client(rt: HostRuntime) {
    assert_eq!(rt; first_wrong(rt.alloc(), &BEHIND_A_CLIENT), None);
}

/// The shortest value that takes memory of its own.
const LONGER: [u8; 23] = [b'y'; 23];

/// Rows set, overwritten and taken away, one of them where none stands.
const PUTS: [Row<'static>; 8] = [
    ("t", 5, Some(b"a")),
    ("t", 5, Some(b"b")),
    ("t", 5, None),
    ("t", 5, None),
    ("u", 5, Some(&LONGEST)),
    ("u", 6, Some(&LONGER)),
    ("u", 6, Some(&LONGEST)),
    ("u", 6, None),
];

/// The log of these, each with the row that stood here before it.
const LOG: [Entry<'static>; 8] = [
    (("t", 5, Some(b"a")), None),
    (("t", 5, Some(b"b")), Some(b"a")),
    (("t", 5, None), Some(b"b")),
    (("t", 5, None), None),
    (("u", 5, Some(&LONGEST)), None),
    (("u", 6, Some(&LONGER)), None),
    (("u", 6, Some(&LONGEST)), Some(&LONGER)),
    (("u", 6, None), Some(&LONGEST)),
];

/// The rows that are left.
const LEFT: [(Call<'static>, Answer<'static>); 3] = [
    (Call::Read("t", 5, TabletType::Primary), Answer::NoRow),
    (
        Call::Read("u", 5, TabletType::Primary),
        Answer::Row(&LONGEST),
    ),
    (Call::Read("u", 6, TabletType::Primary), Answer::NoRow),
];

/// The rows are put at two tables whose log is empty.
static LOGGED: [Phase; 5] = [
    Phase::Made(&["t", "u"]),
    Phase::Log(&[]),
    Phase::Put(&PUTS),
    Phase::Log(&LOG),
    Phase::Answered(&LEFT),
];

#[test]
fn rows_are_put_and_logged(rt: HostRuntime) {
    assert_eq!(rt; first_wrong(rt.alloc(), &LOGGED), None);
}

/// Rows in another order than that of their keys.
const ROWS: [Row<'static>; 5] = [
    ("t", 9, Some(b"i")),
    ("t", u64::MAX, Some(b"z")),
    ("t", 2, Some(b"b")),
    ("u", 3, Some(b"u")),
    ("t", 0, Some(b"0")),
];

/// What follows: the first row of each table, and the first above a key.
const FOLLOWING: [Next<'static>; 12] = [
    ("t", None, Some((0, b"0"))),
    ("t", Some(0), Some((2, b"b"))),
    ("t", Some(1), Some((2, b"b"))),
    ("t", Some(2), Some((9, b"i"))),
    ("t", Some(9), Some((u64::MAX, b"z"))),
    ("t", Some(u64::MAX), None),
    ("u", None, Some((3, b"u"))),
    ("u", Some(2), Some((3, b"u"))),
    ("u", Some(3), None),
    ("v", None, None),
    ("w", None, None),
    ("w", Some(0), None),
];

/// The rows are put at two of three tables.
static FOLLOWED: [Phase; 3] = [
    Phase::Made(&["t", "u", "v"]),
    Phase::Put(&ROWS),
    Phase::Follow(&FOLLOWING),
];

#[test]
fn rows_follow_one_another_by_their_keys(rt: HostRuntime) {
    assert_eq!(rt; first_wrong(rt.alloc(), &FOLLOWED), None);
}

/// What a client is answered of tables that are denied, behind a stream's write to one.
const DENIED_TO_CLIENTS: [(Call<'static>, Answer<'static>); 3] = [
    (Call::Insert("u", 3, b"c"), DENIED),
    (Call::Read("u", 2, TabletType::Primary), DENIED),
    (Call::Read("u", 2, TabletType::Replica), Answer::Row(b"b")),
];

/// What is answered where the denied table `u` was dropped.
const U_IS_GONE: [(Call<'static>, Answer<'static>); 3] = [
    (
        Call::Insert("u", 3, b"c"),
        Answer::Refused(PrimaryFault::NoTable),
    ),
    (
        Call::Read("u", 2, TabletType::Replica),
        Answer::Refused(PrimaryFault::NoTable),
    ),
    (Call::Insert("t", 3, b"c"), DENIED),
];

/// What is answered where it was made again: it has no rows, and is not denied.
const U_IS_MADE_AGAIN: [(Call<'static>, Answer<'static>); 3] = [
    (Call::Read("u", 2, TabletType::Primary), Answer::NoRow),
    (Call::Insert("u", 2, b"d"), Answer::At(3)),
    (Call::Insert("t", 3, b"c"), DENIED),
];

/// Two denied tables; `u` is put to, dropped and made again, and one that isn't there is dropped.
static DROPPED: [Phase; 12] = [
    Phase::Made(&["t", "u"]),
    Phase::Answered(&ROW),
    Phase::Noticed("k", &BOTH),
    Phase::Put(&[("u", 2, Some(b"b"))]),
    Phase::Answered(&DENIED_TO_CLIENTS),
    Phase::Dropped("u"),
    Phase::Answered(&U_IS_GONE),
    Phase::Follow(&[("u", None, None), ("t", None, Some((7, &LONGEST)))]),
    Phase::Made(&["u"]),
    Phase::Answered(&U_IS_MADE_AGAIN),
    Phase::Dropped("w"),
    Phase::At(3),
];

#[test]
fn a_denied_table_is_put_to_and_dropped(rt: HostRuntime) {
    assert_eq!(rt; first_wrong(rt.alloc(), &DROPPED), None);
}
