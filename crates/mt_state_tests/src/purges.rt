//! A log of which the first entries are purged, by direct calls.

use crate::primary::value;
use mt_names::{NameFault, TableName, TabletType};
use mt_primary::{Op, Primary, PrimaryFault};
use std::alloc::Global;

/// The nth write to the row 1. Each leaves another value.
fn nth_write(n: u16) -> Op {
    let after = value(&n.to_le_bytes());
    if n == 0 {
        Op::Insert(1, after)
    } else {
        Op::Update(1, after)
    }
}

/// A primary with a table `t`, and so many writes to the row 1 there.
fn written(alloc: Global, table: &TableName, writes: u16) -> Option<Primary> {
    let mut primary = Primary::new(alloc);
    if primary.has_table(table) || primary.create_table(table).is_err() {
        return None;
    }
    for n in 0..writes {
        if primary.write(table, nth_write(n)) != Ok(u64::from(n) + 1) {
            return None;
        }
    }
    Some(primary)
}

/// Purges below a position, and answers whether the row 1 of `t` and the log's end are as they were.
fn purges(primary: &mut Primary, table: &TableName, below: u64) -> bool {
    let position = primary.position();
    let row = primary.read(table, 1, TabletType::Primary);
    if below > position {
        return false;
    }
    primary.purge_below(below);
    primary.position() == position && primary.read(table, 1, TabletType::Primary) == row
}

/// Whether the log keeps its entries from a position on, and each of them is of the row 1 of `t`.
fn keeps_from(primary: &Primary, table: &TableName, first: u64) -> bool {
    for position in 0..primary.position() {
        let as_wanted = match primary.entry(position) {
            Ok(Some(change)) => {
                position >= first
                    && change.table.name() == table
                    && change.key == 1
                    && change.after.is_some()
            }
            Ok(None) => false,
            Err(fault) => fault == PrimaryFault::Purged && position < first,
        };
        if !as_wanted {
            return false;
        }
    }
    primary.first_kept() == first && matches!(primary.entry(primary.position()), Ok(None))
}

#[test]
fn whole_segments_below_a_position_are_purged(rt: HostRuntime) -> Result<(), NameFault> {
    let table = TableName::parse("t")?;
    let primary = written(rt.alloc(), &table, 600);
    assert!(rt; primary.is_some());
    if let Some(mut primary) = primary {
        assert!(rt; keeps_from(&primary, &table, 0));
        assert!(rt; purges(&mut primary, &table, 255) && keeps_from(&primary, &table, 0));
        assert!(rt; purges(&mut primary, &table, 600));
        assert!(rt; primary.first_kept() == 512 && primary.position() == 600);
        assert!(rt; matches!(primary.entry(511), Err(PrimaryFault::Purged)));
        assert!(rt; matches!(primary.entry(512), Ok(Some(_))));
        assert!(rt; matches!(primary.entry(600), Ok(None)));
        assert!(rt; keeps_from(&primary, &table, 512));
    }
    Ok(())
}

#[test]
fn a_log_goes_on_where_all_of_it_is_purged(rt: HostRuntime) -> Result<(), NameFault> {
    let table = TableName::parse("t")?;
    let primary = written(rt.alloc(), &table, 256);
    assert!(rt; primary.is_some());
    if let Some(mut primary) = primary {
        assert!(rt; purges(&mut primary, &table, 256) && keeps_from(&primary, &table, 256));
        let op = Op::Update(1, value(b"b"));
        assert!(rt; primary.write(&table, op) == Ok(257) && keeps_from(&primary, &table, 256));
        assert!(rt; purges(&mut primary, &table, 0) && keeps_from(&primary, &table, 256));
    }
    Ok(())
}
