//! A stream between two primaries by direct calls.

use crate::pair::{Pair, Step, primary_with};
use mt_names::{KeyRange, Position};
use mt_stream::{StreamFault, StreamState};
use std::alloc::Global;
use std::test::Fail;

/// A stream of the tables that a text lists and of a range of keys, from this position on, between two primaries that
/// have four tables.
fn pair_of(
    alloc: Global,
    listed: &str,
    range: &str,
    at: Position,
    copies: bool,
) -> Result<Pair, Fail> {
    let tables = ["a", "b", "c", "d"];
    let source = primary_with(alloc, &tables)?;
    let sink = primary_with(alloc, &tables)?;
    let range = KeyRange::parse(range)?;
    Ok(Pair::new(source, sink, listed, range, at, copies)?)
}

/// Whether lists of steps, one behind the other, answer what they are to at such a stream of all keys.
fn all_so(
    alloc: Global,
    listed: &str,
    at: Position,
    copies: bool,
    lists: &[&[Step<'_>]],
) -> Result<bool, Fail> {
    all_so_in(alloc, listed, "-", at, copies, lists)
}

/// Whether lists of steps, one behind the other, answer what they are to at such a stream.
fn all_so_in(
    alloc: Global,
    listed: &str,
    range: &str,
    at: Position,
    copies: bool,
    lists: &[&[Step<'_>]],
) -> Result<bool, Fail> {
    let mut pair = pair_of(alloc, listed, range, at, copies)?;
    for steps in lists {
        if !pair.all_so(steps) {
            return Ok(false);
        }
    }
    Ok(true)
}

/// Two rows are copied one at a time, and the second is updated between. The entry of that is passed over, since its row
/// isn't copied yet.
static UPDATED_BETWEEN: [Step<'static>; 18] = [
    Step::Insert("a", 1, b"x"),
    Step::Insert("a", 2, b"y"),
    Step::Stands(2, false, true),
    Step::Advances(2, 1, 0, 1),
    Step::Row("a", 1, Some(b"x")),
    Step::Row("a", 2, None),
    Step::Update("a", 2, b"z"),
    Step::Stands(2, false, false),
    Step::Advances(2, 1, 1, 0),
    Step::Row("a", 2, None),
    Step::Refused(2, 1, StreamFault::Stale(3)),
    Step::Stands(3, false, true),
    Step::Advances(3, 1, 0, 1),
    Step::Row("a", 2, Some(b"z")),
    Step::Stands(3, false, true),
    Step::Advances(3, 1, 0, 0),
    Step::Stands(3, true, true),
    Step::SinkAt(2),
];

#[test]
fn a_row_changes_before_it_is_copied(rt: HostRuntime) -> Result<(), Fail> {
    assert!(rt; all_so(rt.alloc(), "a", 2, true, &[&UPDATED_BETWEEN])?);
    Ok(())
}

/// Tables are copied in the order in which they are named, and rows in the order of their keys. A table without rows stands
/// between, and one that isn't named has a row.
static IN_ORDER: [Step<'static>; 22] = [
    Step::Insert("c", 1, b"c"),
    Step::Insert("a", 3, b"l"),
    Step::Insert("b", u64::MAX, b"k"),
    Step::Insert("b", 0, b"i"),
    Step::Insert("b", 5, b"j"),
    Step::Insert("a", 0, b""),
    Step::Advances(6, 1, 0, 1),
    Step::Row("b", 0, Some(b"i")),
    Step::Row("b", 5, None),
    Step::Advances(6, 3, 0, 3),
    Step::Row("a", 0, Some(b"")),
    Step::Row("a", 3, None),
    Step::Stands(6, false, true),
    Step::Advances(6, 2, 0, 1),
    Step::Stands(6, true, true),
    Step::Logged(0, "b", 0),
    Step::Logged(1, "b", 5),
    Step::Logged(2, "b", u64::MAX),
    Step::Logged(3, "a", 0),
    Step::Logged(4, "a", 3),
    Step::SinkAt(5),
    Step::Row("c", 1, None),
];

#[test]
fn tables_and_rows_are_copied_in_order(rt: HostRuntime) -> Result<(), Fail> {
    assert!(rt; all_so(rt.alloc(), "b,d,a", 6, true, &[&IN_ORDER])?);
    Ok(())
}

/// No entry is read and no row is copied, as often as it is asked for.
static NOTHING_ASKED: [Step<'static>; 13] = [
    Step::Insert("a", 1, b"x"),
    Step::Advances(1, 0, 0, 0),
    Step::Advances(1, 0, 0, 0),
    Step::Stands(1, false, true),
    Step::Advances(1, 2, 0, 1),
    Step::Update("a", 1, b"y"),
    Step::Advances(1, 0, 0, 0),
    Step::Stands(1, true, false),
    Step::Row("a", 1, Some(b"x")),
    Step::Refused(2, 0, StreamFault::Stale(1)),
    Step::SinkAt(1),
    Step::Advances(1, 1, 1, 0),
    Step::Advances(2, 0, 0, 0),
];

/// The copy of no rows isn't ended by an advance of none.
static NOTHING_THERE: [Step<'static>; 4] = [
    Step::Advances(0, 0, 0, 0),
    Step::Stands(0, false, true),
    Step::Advances(0, 1, 0, 0),
    Step::Stands(0, true, true),
];

#[test]
fn an_advance_by_none_changes_nothing(rt: HostRuntime) -> Result<(), Fail> {
    assert!(rt; all_so(rt.alloc(), "a", 1, true, &[&NOTHING_ASKED])?);
    assert!(rt; all_so(rt.alloc(), "a", 0, true, &[&NOTHING_THERE])?);
    Ok(())
}

/// What refuses an advance, in the order in which it is answered. Each leaves the stream and the sink.
static REFUSALS: [Step<'static>; 17] = [
    Step::Insert("a", 1, b"x"),
    Step::Refused(0, 1, StreamFault::Stale(1)),
    Step::Refused(2, 1, StreamFault::Stale(1)),
    Step::Becomes(StreamState::Stopped),
    Step::Refused(1, 1, StreamFault::Stopped),
    Step::Refused(0, 1, StreamFault::Stopped),
    Step::Becomes(StreamState::Frozen),
    Step::Refused(1, 1, StreamFault::Frozen),
    Step::Refused(2, 0, StreamFault::Frozen),
    Step::Stands(1, false, true),
    Step::Row("a", 1, None),
    Step::SinkAt(0),
    Step::Becomes(StreamState::Running),
    Step::Refused(2, 1, StreamFault::Stale(1)),
    Step::Advances(1, 2, 0, 1),
    Step::Becomes(StreamState::Stopped),
    Step::Stands(1, true, true),
];

#[test]
fn refusals_come_in_their_order(rt: HostRuntime) -> Result<(), Fail> {
    assert!(rt; all_so(rt.alloc(), "a", 1, true, &[&REFUSALS])?);
    Ok(())
}

/// Entries about other tables don't count, and those about rows that aren't copied yet do.
static LEVELS: [Step<'static>; 8] = [
    Step::Stands(0, false, true),
    Step::Insert("c", 1, b"x"),
    Step::Stands(0, false, true),
    Step::Insert("b", 1, b"x"),
    Step::Stands(0, false, false),
    Step::Advances(0, 1, 1, 0),
    Step::Stands(1, false, false),
    Step::Advances(1, 9, 1, 0),
];

/// Both were passed over, and the row is copied.
static LEVEL: [Step<'static>; 5] = [
    Step::SinkAt(0),
    Step::Stands(2, false, true),
    Step::Advances(2, 9, 0, 1),
    Step::Stands(2, true, true),
    Step::Row("c", 1, None),
];

#[test]
fn a_stream_is_level_by_its_own_tables(rt: HostRuntime) -> Result<(), Fail> {
    assert!(rt; all_so(rt.alloc(), "a,b", 0, true, &[&LEVELS, &LEVEL])?);
    Ok(())
}

/// A stream that counts as copied leaves the rows that stand at its start, and follows. Of a row that the sink hasn't, the
/// entry of its end is written too.
static RUNNING: [Step<'static>; 13] = [
    Step::Insert("a", 1, b"x"),
    Step::Stands(1, true, true),
    Step::Advances(1, 9, 0, 0),
    Step::Row("a", 1, None),
    Step::Insert("a", 2, b"y"),
    Step::Stands(1, true, false),
    Step::Advances(1, 9, 1, 0),
    Step::Row("a", 2, Some(b"y")),
    Step::Delete("a", 1),
    Step::Advances(2, 9, 1, 0),
    Step::Row("a", 1, None),
    Step::Logged(1, "a", 1),
    Step::SinkAt(2),
];

#[test]
fn a_stream_that_runs_from_its_start_follows(rt: HostRuntime) -> Result<(), Fail> {
    assert!(rt; all_so(rt.alloc(), "a", 1, false, &[&RUNNING])?);
    Ok(())
}

/// Behind the copy the log is followed: deletes, inserts and updates, as many at a time as are asked for.
static FOLLOWED: [Step<'static>; 20] = [
    Step::Insert("a", 1, b"x"),
    Step::Insert("a", 2, b"y"),
    Step::Advances(2, 9, 0, 2),
    Step::Delete("a", 1),
    Step::Insert("a", 3, b"z"),
    Step::Insert("c", 3, b"c"),
    Step::Update("a", 2, b"w"),
    Step::Insert("a", 1, b"v"),
    Step::Advances(2, 2, 2, 0),
    Step::Row("a", 1, None),
    Step::Row("a", 3, Some(b"z")),
    Step::Row("a", 2, Some(b"y")),
    Step::Refused(2, 9, StreamFault::Stale(4)),
    Step::Advances(4, 9, 3, 0),
    Step::Row("a", 2, Some(b"w")),
    Step::Row("a", 1, Some(b"v")),
    Step::Row("c", 3, None),
    Step::SinkAt(6),
    Step::Advances(7, 9, 0, 0),
    Step::Stands(7, true, true),
];

#[test]
fn deletes_and_inserts_are_followed(rt: HostRuntime) -> Result<(), Fail> {
    assert!(rt; all_so(rt.alloc(), "a", 2, true, &[&FOLLOWED])?);
    Ok(())
}

/// While a table is copied up to a key, the entries about rows up to there are written, and those about later keys and
/// tables are passed over.
static BETWEEN: [Step<'static>; 12] = [
    Step::Insert("b", 5, b"x"),
    Step::Advances(1, 1, 0, 1),
    Step::Insert("b", 3, b"y"),
    Step::Insert("b", 7, b"z"),
    Step::Insert("a", 0, b"w"),
    Step::Advances(1, 9, 3, 0),
    Step::Row("b", 3, Some(b"y")),
    Step::Row("b", 7, None),
    Step::Row("a", 0, None),
    Step::SinkAt(2),
    Step::Advances(4, 1, 0, 1),
    Step::Row("b", 7, Some(b"z")),
];

/// The rest is copied, and what was copied is followed.
static TO_THE_END: [Step<'static>; 10] = [
    Step::Row("a", 0, None),
    Step::Delete("b", 5),
    Step::Insert("b", 0, b"v"),
    Step::Advances(4, 9, 2, 0),
    Step::Row("b", 5, None),
    Step::Row("b", 0, Some(b"v")),
    Step::Advances(6, 9, 0, 1),
    Step::Row("a", 0, Some(b"w")),
    Step::Stands(6, true, true),
    Step::SinkAt(6),
];

#[test]
fn entries_of_the_copied_range_are_written(rt: HostRuntime) -> Result<(), Fail> {
    assert!(rt; all_so(rt.alloc(), "b,a", 1, true, &[&BETWEEN, &TO_THE_END])?);
    Ok(())
}

/// The first key of the upper half of all keys.
const HALF: u64 = 9_223_372_036_854_775_808;

/// Of the lower half the last row is copied, and the first one of the upper half isn't. An entry of that is passed over, and
/// doesn't count for whether the stream is level.
static LOWER_HALF: [Step<'static>; 17] = [
    Step::Insert("a", 1, b"x"),
    Step::Insert("a", HALF, b"z"),
    Step::Insert("a", HALF - 1, b"y"),
    Step::Advances(3, 9, 0, 2),
    Step::Stands(3, true, true),
    Step::Row("a", 1, Some(b"x")),
    Step::Row("a", HALF - 1, Some(b"y")),
    Step::Row("a", HALF, None),
    Step::SinkAt(2),
    Step::Update("a", HALF, b"w"),
    Step::Stands(3, true, true),
    Step::Update("a", HALF - 1, b"v"),
    Step::Stands(3, true, false),
    Step::Advances(3, 9, 2, 0),
    Step::Row("a", HALF, None),
    Step::Row("a", HALF - 1, Some(b"v")),
    Step::SinkAt(3),
];

/// Of the upper half the first row is copied, in each table, and the last one of the lower half isn't.
static UPPER_HALF: [Step<'static>; 16] = [
    Step::Insert("b", u64::MAX, b"z"),
    Step::Insert("b", HALF, b"y"),
    Step::Insert("b", HALF - 1, b"x"),
    Step::Insert("a", 0, b"t"),
    Step::Insert("a", HALF, b"u"),
    Step::Advances(5, 1, 0, 1),
    Step::Row("b", HALF, Some(b"y")),
    Step::Advances(5, 9, 0, 2),
    Step::Row("b", u64::MAX, Some(b"z")),
    Step::Row("b", HALF - 1, None),
    Step::Row("a", HALF, Some(b"u")),
    Step::Row("a", 0, None),
    Step::Stands(5, true, true),
    Step::Delete("b", HALF - 1),
    Step::Stands(5, true, true),
    Step::SinkAt(3),
];

#[test]
fn a_stream_has_the_keys_of_its_range_alone(rt: HostRuntime) -> Result<(), Fail> {
    assert!(rt; all_so_in(rt.alloc(), "a", "-80", 3, true, &[&LOWER_HALF])?);
    assert!(rt; all_so_in(rt.alloc(), "b,a", "80-", 5, true, &[&UPPER_HALF])?);
    Ok(())
}
