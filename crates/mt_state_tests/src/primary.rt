//! A primary by direct calls.

use crate::phases::{Phase, first_wrong};
use mt_names::{NameFault, TableName, TabletType, Value};
use mt_primary::{Op, Primary, PrimaryFault};

/// A client's call of a primary.
#[derive(Clone, Copy)]
pub enum Call<'a> {
    Insert(&'a str, u64, &'a [u8]),
    Update(&'a str, u64, &'a [u8]),
    Append(&'a str, u64, &'a [u8]),
    Delete(&'a str, u64),
    Read(&'a str, u64, TabletType),
}

/// How it is answered.
#[derive(Clone, Copy)]
pub enum Answer<'a> {
    /// The write's position.
    At(u64),
    /// The row's value.
    Row(&'a [u8]),
    /// There is no row.
    NoRow,
    Refused(PrimaryFault),
}

/// A value of 64 bytes, the longest.
pub const LONGEST: [u8; 64] = [b'x'; 64];

/// A value of these bytes, at most 64.
pub fn value(bytes: &[u8]) -> Value {
    let mut value = Value::new();
    let _fits = value.try_extend_from_slice(bytes);
    value
}

/// Whether a write is answered so.
fn writes(primary: &mut Primary, table: &str, op: Op, want: Answer<'_>) -> Result<bool, NameFault> {
    let answer = primary.write(&TableName::parse(table)?, op);
    Ok(match want {
        Answer::At(position) => answer == Ok(position),
        Answer::Refused(fault) => answer == Err(fault),
        Answer::Row(_) | Answer::NoRow => false,
    })
}

/// Whether a read is answered so.
fn reads(
    primary: &Primary,
    table: &str,
    key: u64,
    tablet_type: TabletType,
    want: Answer<'_>,
) -> Result<bool, NameFault> {
    let answer = primary.read(&TableName::parse(table)?, key, tablet_type);
    Ok(match want {
        Answer::Row(bytes) => answer == Ok(Some(value(bytes))),
        Answer::NoRow => answer == Ok(None),
        Answer::Refused(fault) => answer == Err(fault),
        Answer::At(_) => false,
    })
}

/// Whether a call is answered so.
fn is_answered(primary: &mut Primary, call: Call<'_>, want: Answer<'_>) -> Result<bool, NameFault> {
    let (table, op) = match call {
        Call::Insert(table, key, bytes) => (table, Op::Insert(key, value(bytes))),
        Call::Update(table, key, bytes) => (table, Op::Update(key, value(bytes))),
        Call::Append(table, key, bytes) => (table, Op::Append(key, value(bytes))),
        Call::Delete(table, key) => (table, Op::Delete(key)),
        Call::Read(table, key, tablet_type) => return reads(primary, table, key, tablet_type, want),
    };
    writes(primary, table, op, want)
}

/// Whether calls are answered so.
pub fn all_answered(primary: &mut Primary, calls: &[(Call<'_>, Answer<'_>)]) -> bool {
    for (call, want) in calls {
        if !is_answered(primary, *call, *want).unwrap_or(false) {
            return false;
        }
    }
    true
}

/// Whether a table that isn't there is made, and is there then.
fn is_made(primary: &mut Primary, name: &str) -> Result<bool, NameFault> {
    let table = TableName::parse(name)?;
    if primary.has_table(&table) {
        return Ok(false);
    }
    Ok(primary.create_table(&table).is_ok() && primary.has_table(&table))
}

/// Whether tables that aren't there are made, one after the other.
pub fn all_made(primary: &mut Primary, tables: &[&str]) -> bool {
    for name in tables {
        if !is_made(primary, name).unwrap_or(false) {
            return false;
        }
    }
    true
}

/// Writes and reads of a table, of which each type reads the acknowledged writes.
const WRITES_AND_READS: [(Call<'static>, Answer<'static>); 11] = [
    (
        Call::Read("customer", 1, TabletType::Primary),
        Answer::NoRow,
    ),
    (Call::Insert("customer", 1, b"a"), Answer::At(1)),
    (
        Call::Read("customer", 1, TabletType::Primary),
        Answer::Row(b"a"),
    ),
    (
        Call::Read("customer", 1, TabletType::Replica),
        Answer::Row(b"a"),
    ),
    (
        Call::Read("customer", 1, TabletType::Rdonly),
        Answer::Row(b"a"),
    ),
    (
        Call::Read("customer", 2, TabletType::Primary),
        Answer::NoRow,
    ),
    (
        Call::Read("customer", 2, TabletType::Replica),
        Answer::NoRow,
    ),
    (Call::Update("customer", 1, b""), Answer::At(2)),
    (
        Call::Read("customer", 1, TabletType::Primary),
        Answer::Row(b""),
    ),
    (Call::Delete("customer", 1), Answer::At(3)),
    (
        Call::Read("customer", 1, TabletType::Primary),
        Answer::NoRow,
    ),
];

/// A table is made at a primary of none, and a row of it is written and read.
static A_ROW: [Phase; 4] = [
    Phase::At(0),
    Phase::Made(&["customer"]),
    Phase::Answered(&WRITES_AND_READS),
    Phase::At(3),
];

#[test]
fn a_row_is_written_and_read(rt: HostRuntime) {
    assert_eq!(rt; first_wrong(rt.alloc(), &A_ROW), None);
}

/// Refusals, of which each leaves what the primary holds.
const REFUSALS: [(Call<'static>, Answer<'static>); 18] = [
    (Call::Insert("customer", 7, &LONGEST), Answer::At(1)),
    (
        Call::Insert("customer", 7, b"b"),
        Answer::Refused(PrimaryFault::RowExists),
    ),
    (
        Call::Update("customer", 8, b"b"),
        Answer::Refused(PrimaryFault::NoRow),
    ),
    (
        Call::Append("customer", 8, &LONGEST),
        Answer::Refused(PrimaryFault::NoRow),
    ),
    (
        Call::Delete("customer", 8),
        Answer::Refused(PrimaryFault::NoRow),
    ),
    (
        Call::Append("customer", 7, b"b"),
        Answer::Refused(PrimaryFault::TooLong),
    ),
    (
        Call::Insert("orders", 7, b"b"),
        Answer::Refused(PrimaryFault::NoTable),
    ),
    (
        Call::Update("orders", 8, b"b"),
        Answer::Refused(PrimaryFault::NoTable),
    ),
    (
        Call::Append("orders", 8, &LONGEST),
        Answer::Refused(PrimaryFault::NoTable),
    ),
    (
        Call::Delete("orders", 8),
        Answer::Refused(PrimaryFault::NoTable),
    ),
    (
        Call::Append("orders", 7, b"b"),
        Answer::Refused(PrimaryFault::NoTable),
    ),
    (
        Call::Read("orders", 7, TabletType::Primary),
        Answer::Refused(PrimaryFault::NoTable),
    ),
    (
        Call::Read("orders", 7, TabletType::Replica),
        Answer::Refused(PrimaryFault::NoTable),
    ),
    (
        Call::Read("orders", 7, TabletType::Rdonly),
        Answer::Refused(PrimaryFault::NoTable),
    ),
    (
        Call::Read("customer", 7, TabletType::Primary),
        Answer::Row(&LONGEST),
    ),
    (
        Call::Read("customer", 7, TabletType::Replica),
        Answer::Row(&LONGEST),
    ),
    (
        Call::Read("customer", 7, TabletType::Rdonly),
        Answer::Row(&LONGEST),
    ),
    (
        Call::Read("customer", 8, TabletType::Primary),
        Answer::NoRow,
    ),
];

/// A table, and what is refused.
static REFUSED: [Phase; 3] = [
    Phase::Made(&["customer"]),
    Phase::Answered(&REFUSALS),
    Phase::At(1),
];

#[test]
fn each_refusal_leaves_the_primary(rt: HostRuntime) {
    assert_eq!(rt; first_wrong(rt.alloc(), &REFUSED), None);
}

/// Two tables with rows of the same key.
const TWO_TABLES: [(Call<'static>, Answer<'static>); 9] = [
    (Call::Insert("customer", 1, b"a"), Answer::At(1)),
    (Call::Read("orders", 1, TabletType::Primary), Answer::NoRow),
    (Call::Insert("orders", 1, b"b"), Answer::At(2)),
    (Call::Append("customer", 1, b"c"), Answer::At(3)),
    (
        Call::Read("customer", 1, TabletType::Primary),
        Answer::Row(b"ac"),
    ),
    (Call::Delete("customer", 1), Answer::At(4)),
    (
        Call::Read("customer", 1, TabletType::Primary),
        Answer::NoRow,
    ),
    (Call::Update("orders", 1, b""), Answer::At(5)),
    (
        Call::Read("orders", 1, TabletType::Primary),
        Answer::Row(b""),
    ),
];

/// The two tables, one beside the other.
static BESIDE: [Phase; 2] = [
    Phase::Made(&["customer", "orders"]),
    Phase::Answered(&TWO_TABLES),
];

#[test]
fn tables_have_rows_of_their_own(rt: HostRuntime) {
    assert_eq!(rt; first_wrong(rt.alloc(), &BESIDE), None);
}
