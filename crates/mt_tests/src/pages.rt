//! Rows in pages: where an allocation fails the row is refused, and all rows stay, though a page may have been cut for it.

use mt_model::SharedValue;
use mt_names::Value;
use mt_store::Pages;
use std::alloc::{AllocError, Global};

/// How many rows are put. It is a prime, so that a row of each key comes once in `Order::Mixed`.
const ROWS: u64 = 199;

/// In which order rows are put.
#[derive(Clone, Copy)]
enum Order {
    Rising,
    Falling,
    Mixed,
}

/// The key of the row with this number, of `ROWS`.
fn key_at(order: Order, number: u64) -> u64 {
    match order {
        Order::Rising => number,
        Order::Falling => ROWS.saturating_sub(number),
        Order::Mixed => number.saturating_mul(60) % ROWS,
    }
}

/// The value of the row of a key, which tells the key. It takes no memory.
fn value(alloc: Global, key: u64) -> Result<SharedValue, AllocError> {
    let mut value = Value::new();
    let _fits = value.try_extend_from_slice(&key.to_le_bytes());
    SharedValue::new(alloc, value)
}

/// Whether a key has its row.
fn has_row(pages: &Pages, key: u64) -> bool {
    match pages.get(key) {
        Some(row) => row.as_slice() == key.to_le_bytes().as_slice(),
        None => false,
    }
}

/// Whether there are so many rows, one after the other.
fn has_as_many(pages: &Pages, rows: u64) -> bool {
    let mut last = None;
    for number in 0..ROWS {
        match pages.row_after(last) {
            Some(row) => last = Some(row.0),
            None => return number == rows,
        }
    }
    rows == ROWS && pages.row_after(last).is_none()
}

/// Whether the rows with the first numbers are there, and no others.
fn are_there(pages: &Pages, order: Order, rows: u64) -> bool {
    for number in 0..rows {
        if !has_row(pages, key_at(order, number)) {
            return false;
        }
    }
    has_as_many(pages, rows)
}

/// Puts a row of a key that has none where it fits, and answers whether the key had none.
fn insert(pages: &mut Pages, alloc: Global, key: u64) -> Result<bool, AllocError> {
    match pages.seek(key) {
        Ok(_) => Ok(false),
        Err(spot) => {
            pages.insert(spot, key, value(alloc, key)?)?;
            Ok(true)
        }
    }
}

/// Sets the row of a key, and answers whether the key had none.
fn set(pages: &mut Pages, alloc: Global, key: u64) -> Result<bool, AllocError> {
    Ok(pages.set(key, value(alloc, key)?)?.is_none())
}

/// A call that puts a row.
#[derive(Clone, Copy)]
enum Call {
    Insert,
    Set,
}

/// Puts a row by this call.
fn put(pages: &mut Pages, alloc: Global, call: Call, key: u64) -> Result<bool, AllocError> {
    match call {
        Call::Insert => insert(pages, alloc, key),
        Call::Set => set(pages, alloc, key),
    }
}

/// Whether all rows are put, each at once or at a second try after a refusal that left those before it.
fn are_put(pages: &mut Pages, alloc: Global, call: Call, order: Order) -> bool {
    for number in 0..ROWS {
        let key = key_at(order, number);
        let is_put = match put(pages, alloc, call, key) {
            Ok(is_put) => is_put,
            Err(_) => {
                are_there(pages, order, number) && put(pages, alloc, call, key).unwrap_or(false)
            }
        };
        if !is_put {
            return false;
        }
    }
    are_there(pages, order, ROWS)
}

/// Whether all rows are put by each call.
fn are_put_by_all_calls(alloc: Global, order: Order) -> bool {
    are_put(&mut Pages::new(alloc), alloc, Call::Insert, order)
        && are_put(&mut Pages::new(alloc), alloc, Call::Set, order)
}

#[test]
fn want_of_memory_is_no_other_answer(rt: HostRuntime) {
    assert!(rt; are_put_by_all_calls(rt.alloc(), Order::Rising));
    assert!(rt; are_put_by_all_calls(rt.alloc(), Order::Falling));
    assert!(rt; are_put_by_all_calls(rt.alloc(), Order::Mixed));
}

/// Puts rows in a mixed order until one is refused, and answers how many are put.
fn rows_put(pages: &mut Pages, alloc: Global) -> u64 {
    for number in 0..ROWS {
        if !set(pages, alloc, key_at(Order::Mixed, number)).unwrap_or(false) {
            return number;
        }
    }
    ROWS
}

/// Whether so many rows are found, replaced and taken away one by one, from the last that was put on, until none is left.
fn are_taken(pages: &mut Pages, alloc: Global, rows: u64) -> bool {
    for behind in 0..rows {
        let left = rows.saturating_sub(behind);
        let key = key_at(Order::Mixed, left.saturating_sub(1));
        if !are_there(pages, Order::Mixed, left)
            || set(pages, alloc, key) != Ok(false)
            || pages.take(key).is_none()
        {
            return false;
        }
    }
    pages.row_after(None).is_none()
}

/// Passes as well where, from some allocation on, each fails: a row that is there is found, replaced and taken away.
#[test]
fn no_memory_is_asked_for(rt: HostRuntime) {
    let mut pages = Pages::new(rt.alloc());
    let rows = rows_put(&mut pages, rt.alloc());
    assert!(rt; are_taken(&mut pages, rt.alloc(), rows));
}
