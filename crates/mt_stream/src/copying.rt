//! Copying rows: each is the first one behind the last one copied.
ghost use Rattle.std.specs.Prelude.{◌≡◌, ◌≢◌, ℕ, true, List, AllPairs};
ghost use Rattle.std.specs.Option.{option_map};
ghost use Rattle.mt_plain.specs.Plain.{among};
ghost use Rattle.mt_primary.specs.Primary.{has_table};
ghost use Rattle.mt_stream.specs.Loops.{CopiesRows, IsFirstLeft, behind_start, first_behind, next_in};
ghost use Rattle.mt_stream.specs.Streams.{IsPlaced, copied_from};

use crate::fault::StreamFault;
use crate::following::put_row;
use crate::stream::CopiedRange;
use mt_model::SharedValue;
use mt_names::{KeyRange, TableName};
use mt_primary::Primary;

/// A row that is left to copy, which the source lends.
#[derive(Clone, Copy)]
pub struct LeftRow<'a> {
    /// The place of its table among those named.
    pub place: usize,
    /// Its key.
    pub key: u64,
    /// Its value.
    pub value: &'a SharedValue,
}

/// Where the rows left begin: the place of a table, and the key that was copied last in it.
fn first_behind(tables: &[TableName], range: CopiedRange) -> (usize, Option<u64>)
    ensures { result ≡ first_behind tables.now range }
{
    match range {
        CopiedRange::NotBegun => (0, None),
        CopiedRange::UpTo(place, key) => (place, Some(key)),
        CopiedRange::Ended => (tables.len(), None),
    }
}

/// Behind which key the keys of a range come that come behind another one.
fn behind_start(first: u64, last: Option<u64>) -> Option<u64>
    ensures { result ≡ behind_start first last }
{
    match last {
        None if first == 0 => None,
        None => Some(first - 1),
        Some(last) if last < first => Some(first - 1),
        Some(last) => Some(last),
    }
}

/// The first row of a table in the key range that comes behind a key, if there is one.
fn first_in<'a>(
    keys: &KeyRange,
    source: &'a Primary,
    at: usize,
    table: &TableName,
    behind: Option<u64>,
) -> Option<(u64, &'a SharedValue)>
    ensures { option_map (λ row. (row.0, row.1.now)) result ≡ next_in source.now keys.now table.now behind }
{
    source.facts();
    let from = behind_start(keys.first_key(), behind);
    match source.lent_row_after_placed(at, table, from) {
        Some((key, value)) if keys.holds(key) => Some((key, value)),
        _ => None,
    }
}

/// The first row that is left to copy, if there is one. Its table is looked for first at a place of the source.
fn first_left<'a>(
    keys: &KeyRange,
    tables: &[TableName],
    range: CopiedRange,
    source: &'a Primary,
    at: usize,
) -> Option<LeftRow<'a>>
    requires distinct { AllPairs ◌≢◌ tables.now }
    requires placed { IsPlaced tables.now range }
    ensures { IsFirstLeft source.now keys.now tables.now (copied_from tables.now range) result }
{
    source.facts();
    let (start, mut behind) = first_behind(tables, range);
    for place in start..tables.len() {
        if let Some((key, value)) = first_in(keys, source, at, &tables[place], behind) {
            return Some(LeftRow { place, key, value });
        }
        behind = None;
    }
    None
}

/// Copies up to so many rows, and answers how many; the range is then as far, and has ended if none was left. A row that
/// is refused ends it; at the first one that is answered, and then nothing changed.
pub fn copy_rows(
    keys: &KeyRange,
    tables: &[TableName],
    range: &mut CopiedRange,
    source: &Primary,
    sink: &mut Primary,
    max: u16,
) -> Result<u16, StreamFault>
    requires distinct { AllPairs ◌≢◌ tables.now }
    requires placed { IsPlaced tables.now range.old }
    requires there { (table : List ℕ) → among tables.now table ≡ true → has_table sink.old table ≡ true }
    ensures placed { IsPlaced tables.now range.new }
    ensures copies { CopiesRows keys.now tables.now (copied_from tables.now range.old) source.now sink.old max result (copied_from tables.now range.new) sink.new }
{
    let mut copied_last = tables.len();
    let mut at = 0;
    for copied in 0..max {
        let Some(row) = first_left(keys, tables, *range, source, at) else {
            *range = CopiedRange::Ended;
            return Ok(copied);
        };
        let table = &tables[row.place];
        if row.place != copied_last {
            copied_last = row.place;
            at = source.place_of(table).unwrap_or(0);
        }
        match put_row(sink, table, row.key, Some(row.value)) {
            Ok(()) => *range = CopiedRange::UpTo(row.place, row.key),
            Err(_) if copied > 0 => return Ok(copied),
            Err(fault) => return Err(fault),
        }
    }
    Ok(max)
}
