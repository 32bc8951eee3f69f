//! Edits of one row of a table, each with the log's entry of it. The own list isn't asked. The tests come in this order:
//! what refuses the edit of the row (`P3 RowExists` or `P4 NoRow`, `P5 TooLong`), `P6 LogFull`, and last `P0 Memory`. Each
//! answers the position behind its entry.
ghost use Rattle.std.specs.Prelude.{◌≡◌, true, None, Some, Ok, Err, OnOk, IfErr, IfOk};
ghost use Rattle.std.specs.Option.{option_copied};
ghost use Rattle.mt_model.specs.declared.faults.PrimaryFault.TheVariants.{TooLong};
ghost use Rattle.mt_model.specs.Rows.{appended};
ghost use Rattle.mt_model.specs.declared.rows.Op.TheVariants.{Append, Delete, Insert, Update};
ghost use Rattle.mt_store.specs.Log.{TellsRoom};
ghost use Rattle.mt_primary.specs.Tables.{ChangesRow, Put, Write};

use crate::table::Table;
use mt_model::{Op, PrimaryFault, RowChange, SharedName, SharedValue};
use mt_names::{Position, Value};
use mt_store::Log;

/// What a change shares: the name of its table, and the row's value for the row and for the log's entry.
#[derive(Drop)]
struct Made {
    name: SharedName,
    row: SharedValue,
    after: SharedValue,
}

/// Makes room for one entry more, and its table's name. It leaves the entries.
fn make_name(log: &mut Log, name: &SharedName) -> Result<SharedName, PrimaryFault>
    ensures entries { log.new.log ≡ log.old.log }
    ensures room { OnOk result (log.new.spare ≡ true) }
    ensures told { TellsRoom log.old.log result }
    ensures name { IfOk result (λ made. made ≡ name.now) }
{
    log.make_room()?;
    name.try_clone().map_err(|_| PrimaryFault::Memory)
}

/// Makes room for one entry more, and what it shares with a row of this value. It leaves the entries.
fn share(log: &mut Log, name: &SharedName, value: &SharedValue) -> Result<Made, PrimaryFault>
    ensures entries { log.new.log ≡ log.old.log }
    ensures room { OnOk result (log.new.spare ≡ true) }
    ensures told { TellsRoom log.old.log result }
    ensures made { IfOk result (λ made. made ≡ record { name = name.now; row = value.now; after = value.now }) }
{
    let name = make_name(log, name)?;
    let row = value.try_clone().map_err(|_| PrimaryFault::Memory)?;
    let after = value.try_clone().map_err(|_| PrimaryFault::Memory)?;
    Ok(Made { name, row, after })
}

/// Makes room for one entry more, and what it shares with a row of this value, which nobody has yet. It leaves the
/// entries.
#[inline(always)]
fn make(log: &mut Log, name: &SharedName, value: Value) -> Result<Made, PrimaryFault>
    ensures entries { log.new.log ≡ log.old.log }
    ensures room { OnOk result (log.new.spare ≡ true) }
    ensures told { TellsRoom log.old.log result }
    ensures made { IfOk result (λ made. made ≡ record { name = name.now; row = value; after = value }) }
{
    let name = make_name(log, name)?;
    let row = SharedValue::new(log.allocator(), value).map_err(|_| PrimaryFault::Memory)?;
    let after = row.try_clone().map_err(|_| PrimaryFault::Memory)?;
    Ok(Made { name, row, after })
}

/// Adds bytes at the end of a value, if they fit.
fn extend(value: &mut Value, more: &Value) -> Result<(), PrimaryFault>
    ensures added { OnOk result (appended value.old more.now ≡ Ok (Some value.new)) }
    ensures refused { IfErr result (λ fault. (fault ≡ TooLong) × (appended value.old more.now ≡ Err TooLong)) }
{
    match value.try_extend_from_slice(more) {
        Ok(()) => Ok(()),
        Err(_) => Err(PrimaryFault::TooLong),
    }
}

/// Makes a row that isn't there.
fn insert_row(
    table: &mut Table,
    log: &mut Log,
    name: &SharedName,
    key: u64,
    value: Value,
) -> Result<Position, PrimaryFault>
    ensures { ChangesRow (record { table = table.old; log = log.old.log }) name.now (Write (Insert key value)) result (record { table = table.new; log = log.new.log }) }
{
    match table.rows.seek(key) {
        Ok(_) => Err(PrimaryFault::RowExists),
        Err(spot) => {
            let made = make(log, name, value)?;
            table
                .rows
                .insert(spot, key, made.row)
                .map_err(|_| PrimaryFault::Memory)?;
            table.rows.facts();
            log.push_reserved(RowChange {
                table: made.name,
                key,
                before: None,
                after: Some(made.after),
            });
            Ok(log.position())
        }
    }
}

/// Sets the value of a row that is there.
fn update_row(
    table: &mut Table,
    log: &mut Log,
    name: &SharedName,
    key: u64,
    value: Value,
) -> Result<Position, PrimaryFault>
    ensures { ChangesRow (record { table = table.old; log = log.old.log }) name.now (Write (Update key value)) result (record { table = table.new; log = log.new.log }) }
{
    match table.rows.seek(key) {
        Ok(spot) => {
            let made = make(log, name, value)?;
            let before = table.rows.replace(spot, made.row);
            table.rows.facts();
            log.push_reserved(RowChange {
                table: made.name,
                key,
                before: Some(before),
                after: Some(made.after),
            });
            Ok(log.position())
        }
        Err(_) => Err(PrimaryFault::NoRow),
    }
}

/// Adds bytes at the end of the value of a row that is there.
fn append_row(
    table: &mut Table,
    log: &mut Log,
    name: &SharedName,
    key: u64,
    more: Value,
) -> Result<Position, PrimaryFault>
    ensures { ChangesRow (record { table = table.old; log = log.old.log }) name.now (Write (Append key more)) result (record { table = table.new; log = log.new.log }) }
{
    match table.rows.seek(key) {
        Ok(spot) => {
            let mut value = table.rows.at(spot).1.value();
            extend(&mut value, &more)?;
            let made = make(log, name, value)?;
            let before = table.rows.replace(spot, made.row);
            table.rows.facts();
            log.push_reserved(RowChange {
                table: made.name,
                key,
                before: Some(before),
                after: Some(made.after),
            });
            Ok(log.position())
        }
        Err(_) => Err(PrimaryFault::NoRow),
    }
}

/// Takes away a row that is there.
fn delete_row(
    table: &mut Table,
    log: &mut Log,
    name: &SharedName,
    key: u64,
) -> Result<Position, PrimaryFault>
    ensures { ChangesRow (record { table = table.old; log = log.old.log }) name.now (Write (Delete key)) result (record { table = table.new; log = log.new.log }) }
{
    match table.rows.seek(key) {
        Ok(spot) => {
            let name = make_name(log, name)?;
            let (_, before) = table.rows.remove(spot);
            table.rows.facts();
            log.push_reserved(RowChange {
                table: name,
                key,
                before: Some(before),
                after: None,
            });
            Ok(log.position())
        }
        Err(_) => Err(PrimaryFault::NoRow),
    }
}

/// Sets a row, whatever stands there.
fn set_row(
    table: &mut Table,
    log: &mut Log,
    name: &SharedName,
    key: u64,
    value: &SharedValue,
) -> Result<Position, PrimaryFault>
    ensures { ChangesRow (record { table = table.old; log = log.old.log }) name.now (Put key (Some value.now)) result (record { table = table.new; log = log.new.log }) }
{
    let Made { name, row, after } = share(log, name, value)?;
    let before = table.rows.set(key, row).map_err(|_| PrimaryFault::Memory)?;
    table.rows.facts();
    log.push_reserved(RowChange {
        table: name,
        key,
        before,
        after: Some(after),
    });
    Ok(log.position())
}

/// Takes a row away, if it is there.
fn take_row(
    table: &mut Table,
    log: &mut Log,
    name: &SharedName,
    key: u64,
) -> Result<Position, PrimaryFault>
    ensures { ChangesRow (record { table = table.old; log = log.old.log }) name.now (Put key None) result (record { table = table.new; log = log.new.log }) }
{
    let name = make_name(log, name)?;
    let before = table.rows.take(key);
    table.rows.facts();
    log.push_reserved(RowChange {
        table: name,
        key,
        before,
        after: None,
    });
    Ok(log.position())
}

/// Does a client's operation on a row, which the row that stands there may refuse.
pub fn write_row(
    table: &mut Table,
    log: &mut Log,
    name: &SharedName,
    op: Op,
) -> Result<Position, PrimaryFault>
    ensures { ChangesRow (record { table = table.old; log = log.old.log }) name.now (Write op) result (record { table = table.new; log = log.new.log }) }
{
    match op {
        Op::Insert(key, value) => insert_row(table, log, name, key, value),
        Op::Update(key, value) => update_row(table, log, name, key, value),
        Op::Append(key, more) => append_row(table, log, name, key, more),
        Op::Delete(key) => delete_row(table, log, name, key),
    }
}

/// Sets a row, or takes it away if there is none, whatever stands there.
pub fn put_row(
    table: &mut Table,
    log: &mut Log,
    name: &SharedName,
    key: u64,
    after: Option<&SharedValue>,
) -> Result<Position, PrimaryFault>
    ensures { ChangesRow (record { table = table.old; log = log.old.log }) name.now (Put key (option_copied after.entry)) result (record { table = table.new; log = log.new.log }) }
{
    match after {
        Some(value) => set_row(table, log, name, key, value),
        None => take_row(table, log, name, key),
    }
}
