//! Reading the source's log: the entries past a position are written at the sink, or passed over.
ghost use Rattle.std.specs.Prelude.{◌≡◌, ◌≢◌, ℕ, ◌≤◌, ◌&&◌, true, List, AllPairs, length};
ghost use Rattle.std.specs.List.{list_any};
ghost use Rattle.std.specs.Option.{option_copied};
ghost use Rattle.mt_plain.specs.Plain.{among};
ghost use Rattle.mt_names.specs.Shards.{holds};
ghost use Rattle.mt_plain.specs.Writes.{is_applied, place_of};
ghost use Rattle.mt_store.specs.Log.{entry_in};
ghost use Rattle.mt_primary.specs.Primary.{end_of, has_table};
ghost use Rattle.mt_primary.specs.Reads.{entries_from};
ghost use Rattle.mt_stream.specs.Advance.{is_written};
ghost use Rattle.mt_stream.specs.Loops.{FollowsEntry, PutsRow, ReadsEntries};
ghost use Rattle.mt_stream.specs.Streams.{IsPlaced, copied_from};

use crate::fault::StreamFault;
use crate::stream::CopiedRange;
use mt_model::SharedValue;
use mt_names::{KeyRange, Position, TableName};
use mt_primary::{Primary, PrimaryFault, RowChange};

/// Which entries are written at the sink: those about a key in the range whose row is of one of the tables, and in the copied
/// range.
#[derive(Clone, Copy)]
pub struct Filter<'a> {
    /// The range of the keys.
    pub keys: &'a KeyRange,
    /// The tables, each of them once.
    pub tables: &'a [TableName],
    /// How far the rows are copied.
    pub range: CopiedRange,
}

/// The entry at a position that is kept, if the log has one there.
fn kept_entry(source: &Primary, position: Position) -> Option<&RowChange>
    requires kept { source.now.log.purged ≤ position }
    ensures { option_copied result ≡ entry_in source.now.log position }
{
    match source.entry(position) {
        Ok(entry) => entry,
        Err(_) => unreachable!(),
    }
}

/// Whether an entry is about one of these tables, and a key in the range.
fn is_about(keys: &KeyRange, tables: &[TableName], change: &RowChange) -> bool
    ensures { result ≡ (holds keys.now change.now.key && among tables.now change.now.table) }
{
    keys.holds(change.key) && tables.contains(change.table.name())
}

/// Whether an entry from a position on is about one of these tables, and a key in the range.
pub fn names_any(
    keys: &KeyRange,
    tables: &[TableName],
    position: Position,
    source: &Primary,
) -> bool
    requires kept { source.now.log.purged ≤ position }
    ensures { result ≡ list_any (λ change. holds keys.now change.key && among tables.now change.table) (entries_from source.now position) }
{
    for at in position..source.position() {
        if let Some(change) = kept_entry(source, at) {
            if is_about(keys, tables, change) {
                return true;
            }
        }
    }
    false
}

/// The place of a table among those named; behind them all if it isn't named.
fn place_of(tables: &[TableName], table: &TableName) -> usize
    ensures { result ≡ place_of tables.now table.now }
{
    for (place, named) in tables.iter().enumerate() {
        if named == table {
            return place;
        }
    }
    tables.len()
}

/// Whether an entry's row is of one of the tables, and in the copied range.
fn is_copied(tables: &[TableName], range: CopiedRange, change: &RowChange) -> bool
    requires distinct { AllPairs ◌≢◌ tables.now }
    requires placed { IsPlaced tables.now range }
    ensures { result ≡ is_applied tables.now (copied_from tables.now range) change.now.table change.now.key }
{
    let place = place_of(tables, change.table.name());
    match range {
        CopiedRange::NotBegun => false,
        CopiedRange::UpTo(last, key) => place < last || place == last && change.key <= key,
        CopiedRange::Ended => place < tables.len(),
    }
}

/// Whether an entry is written at the sink.
fn is_written(filter: Filter<'_>, change: &RowChange) -> bool
    requires distinct { AllPairs ◌≢◌ filter.tables.now }
    requires placed { IsPlaced filter.tables.now filter.range }
    ensures { result ≡ is_written filter.entry.keys.now filter.entry.tables.now (copied_from filter.entry.tables.now filter.entry.range) change.now }
{
    filter.keys.holds(change.key) && is_copied(filter.tables, filter.range, change)
}

/// Puts a row at the sink, or takes it away if there is none: `S4 LogFull`, then `S0 Memory`, and then nothing changed.
pub fn put_row(
    sink: &mut Primary,
    table: &TableName,
    key: u64,
    after: Option<&SharedValue>,
) -> Result<(), StreamFault>
    requires there { has_table sink.old table.now ≡ true }
    ensures { PutsRow sink.old (record { table = table.now; key = key; after = option_copied after.entry }) result sink.new }
{
    match sink.put(table, key, after) {
        Ok(()) => Ok(()),
        Err(PrimaryFault::LogFull) => Err(StreamFault::LogFull),
        Err(_) => Err(StreamFault::Memory),
    }
}

/// Writes an entry at the sink, or passes over it, and answers whether it was written.
fn follow_entry(
    filter: Filter<'_>,
    change: &RowChange,
    sink: &mut Primary,
) -> Result<bool, StreamFault>
    requires distinct { AllPairs ◌≢◌ filter.tables.now }
    requires placed { IsPlaced filter.tables.now filter.range }
    requires there { (table : List ℕ) → among filter.tables.now table ≡ true → has_table sink.old table ≡ true }
    ensures { FollowsEntry filter.entry.keys.now filter.entry.tables.now (copied_from filter.entry.tables.now filter.entry.range) change.now sink.old result sink.new }
{
    if !is_written(filter, change) {
        return Ok(false);
    }
    put_row(sink, change.table.name(), change.key, change.after.as_ref())?;
    Ok(true)
}

/// Reads up to so many entries from a position on, and answers how many. A change that is refused ends it; at the first
/// one that is answered, and then nothing changed.
pub fn read_entries(
    filter: Filter<'_>,
    position: Position,
    source: &Primary,
    sink: &mut Primary,
    max: u16,
) -> Result<u16, StreamFault>
    requires distinct { AllPairs ◌≢◌ filter.tables.now }
    requires placed { IsPlaced filter.tables.now filter.range }
    requires kept { source.now.log.purged ≤ position }
    requires within { position ≤ end_of source.now }
    requires there { (table : List ℕ) → among filter.tables.now table ≡ true → has_table sink.old table ≡ true }
    ensures { ReadsEntries filter.entry.keys.now filter.entry.tables.now (copied_from filter.entry.tables.now filter.entry.range) (entries_from source.now position) sink.old max result sink.new }
{
    let _end = source.position();
    let mut written = false;
    for read in 0..max {
        let Some(change) = kept_entry(source, position + u64::from(read)) else {
            return Ok(read);
        };
        match follow_entry(filter, change, sink) {
            Ok(more) => written = written || more,
            Err(_) if written => return Ok(read),
            Err(fault) => return Err(fault),
        }
    }
    Ok(max)
}
