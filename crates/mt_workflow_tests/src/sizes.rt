//! Streams of many rows: `bench/streams.py` says how many, and measures how long they take.

use crate::pair::{Pair, Step, primary_with};
use mt_names::KeyRange;
use std::alloc::Global;
use std::env;
use std::env::VarError;
use std::test::Fail;

/// How many rows or entries one advance takes at most.
const AT_MOST: u16 = 1000;

/// A stream of one table, which reads its rows and then the log from a position on.
fn pair_of(alloc: Global, at: u64) -> Result<Pair, Fail> {
    let (source, sink) = (primary_with(alloc, &["a"])?, primary_with(alloc, &["a"])?);
    Ok(Pair::new(source, sink, "a", KeyRange::whole(), at, true)?)
}

/// Whether so many rows are inserted.
fn are_inserted(pair: &mut Pair, rows: u64) -> bool {
    for key in 0..rows {
        if !pair.all_so(&[Step::Insert("a", key, b"0123456789abcdef")]) {
            return false;
        }
    }
    true
}

/// Whether each of them is updated.
fn are_updated(pair: &mut Pair, rows: u64) -> bool {
    for key in 0..rows {
        if !pair.all_so(&[Step::Update("a", key, b"fedcba9876543210")]) {
            return false;
        }
    }
    true
}

/// Whether advances go on until so many rows or entries, and one advance more, are taken.
fn all_go_on(pair: &mut Pair, many: u64) -> bool {
    for _ in 0..many / u64::from(AT_MOST) + 1 {
        if !pair.goes_on(AT_MOST) {
            return false;
        }
    }
    true
}

/// Whether so many rows are inserted and each updated, without a stream's advance.
fn is_written(alloc: Global, rows: u64) -> Result<bool, Fail> {
    let mut pair = pair_of(alloc, 0)?;
    Ok(
        are_inserted(&mut pair, rows)
            && are_updated(&mut pair, rows)
            && pair.all_so(&[Step::Stands(0, false, false), Step::SinkAt(0)]),
    )
}

/// Whether so many rows are inserted and each updated, where the rows are copied before the updates, and the entries of these are followed.
fn is_streamed(alloc: Global, rows: u64) -> Result<bool, Fail> {
    let mut pair = pair_of(alloc, rows)?;
    let copied = are_inserted(&mut pair, rows)
        && all_go_on(&mut pair, rows)
        && pair.all_so(&[Step::Stands(rows, true, true), Step::SinkAt(rows)]);
    let both = rows.saturating_add(rows);
    Ok(
        copied
            && are_updated(&mut pair, rows)
            && all_go_on(&mut pair, rows)
            && pair.all_so(&[Step::Stands(both, true, true), Step::SinkAt(both)]),
    )
}

/// How many rows there are: the number in the variable `MT_ROWS`, or 2,500 if it isn't set.
fn row_count(rt: &HostRuntime) -> Result<u64, Fail> {
    match env::var(rt, "MT_ROWS") {
        Ok(text) => Ok(text.as_str().parse::<u64>()?),
        Err(VarError::NotPresent) => Ok(2500),
        Err(_) => Err(Fail::from("no number of rows")),
    }
}

#[test]
fn many_rows_are_written(rt: HostRuntime) -> Result<(), Fail> {
    assert!(rt; is_written(rt.alloc(), row_count(&rt)?)?);
    Ok(())
}

#[test]
fn many_rows_are_streamed(rt: HostRuntime) -> Result<(), Fail> {
    assert!(rt; is_streamed(rt.alloc(), row_count(&rt)?)?);
    Ok(())
}
