//! Many rows of a table by direct calls of a primary: in whatever order they are written, they are read, and walked in the order of
//! their keys.

use crate::primary::value;
use mt_names::{NameFault, TableName, TabletType, Value};
use mt_primary::{Op, Primary};
use std::alloc::Global;

/// How many rows are written. It is a prime, so that each key comes once in `Order::Mixed`.
const ROWS: u64 = 1499;

/// In which order rows are written.
#[derive(Clone, Copy)]
enum Order {
    Rising,
    Falling,
    Mixed,
}

/// The key of the row with this number, of `ROWS`: all keys are below it.
fn key_at(order: Order, number: u64) -> u64 {
    match order {
        Order::Rising => number,
        Order::Falling => ROWS.saturating_sub(1).saturating_sub(number),
        Order::Mixed => number.saturating_mul(601) % ROWS,
    }
}

/// The value of the row of a key, which tells the key.
fn row_of(key: u64) -> Value {
    value(&key.to_le_bytes())
}

/// What is done to rows.
#[derive(Clone, Copy)]
enum Edit {
    Insert,
    /// Rows whose keys aren't multiples of three are left.
    DeleteThirds,
    /// The others are.
    DeleteOthers,
}

/// Does it to the row of a key, and answers whether it is done.
fn is_edited(primary: &mut Primary, table: &TableName, edit: Edit, key: u64) -> bool {
    let op = match edit {
        Edit::Insert => Op::Insert(key, row_of(key)),
        Edit::DeleteThirds if key % 3 != 0 => return true,
        Edit::DeleteOthers if key % 3 == 0 => return true,
        Edit::DeleteThirds | Edit::DeleteOthers => Op::Delete(key),
    };
    primary.write(table, op).is_ok()
}

/// Whether it is done to all rows, in this order.
fn are_edited(primary: &mut Primary, table: &TableName, order: Order, edit: Edit) -> bool {
    for number in 0..ROWS {
        if !is_edited(primary, table, edit, key_at(order, number)) {
            return false;
        }
    }
    true
}

/// Whether the first row behind a key is that of the next one, and is read.
fn is_next(primary: &Primary, table: &TableName, last: Option<u64>, key: u64) -> bool {
    primary.row_after(table, last) == Some((key, row_of(key)))
        && primary.read(table, key, TabletType::Primary) == Ok(Some(row_of(key)))
}

/// Whether all rows are there, or those alone whose keys aren't multiples of three, each behind the one before it.
fn are_there(primary: &Primary, table: &TableName, thirds_too: bool) -> bool {
    let mut last = None;
    for key in 0..ROWS {
        if thirds_too || key % 3 != 0 {
            if !is_next(primary, table, last, key) {
                return false;
            }
            last = Some(key);
        } else if primary.read(table, key, TabletType::Primary) != Ok(None) {
            return false;
        }
    }
    primary.row_after(table, last).is_none()
}

/// Whether rows that are written in an order are read, walked and deleted in that order, and then written again.
fn are_kept(alloc: Global, order: Order) -> Result<bool, NameFault> {
    let table = TableName::parse("corder")?;
    let mut primary = Primary::new(alloc);
    let is_made = primary.create_table(&table).is_ok();
    Ok(
        is_made
            && are_edited(&mut primary, &table, order, Edit::Insert)
            && are_there(&primary, &table, true)
            && are_edited(&mut primary, &table, order, Edit::DeleteThirds)
            && are_there(&primary, &table, false)
            && are_edited(&mut primary, &table, order, Edit::DeleteOthers)
            && primary.row_after(&table, None).is_none()
            && are_edited(&mut primary, &table, order, Edit::Insert)
            && are_there(&primary, &table, true),
    )
}

#[test]
fn rows_written_in_any_order_are_walked_in_the_order_of_their_keys(
    rt: HostRuntime,
) -> Result<(), NameFault> {
    assert!(rt; are_kept(rt.alloc(), Order::Rising)?);
    assert!(rt; are_kept(rt.alloc(), Order::Falling)?);
    assert!(rt; are_kept(rt.alloc(), Order::Mixed)?);
    Ok(())
}
