//! Calls of a primary with a place at which the table is looked for first. Where it stands there, no hash is computed.
ghost use Rattle.std.specs.Prelude.{◌≡◌, ℕ, List, true, None, Some, slice_get};
ghost use Rattle.std.specs.Map.{keys_of};
ghost use Rattle.std.specs.Option.{option_copied, option_map, option_map_or, unwrap_or};
ghost use Rattle.mt_primary.specs.Denials.{AreDenialsSet, told_by_mark};
ghost use Rattle.mt_primary.specs.Primary.{is_denied_at, place_at};
ghost use Rattle.mt_primary.specs.Reads.{next_row, read_row};
ghost use Rattle.mt_primary.specs.Writes.{Puts, Writes};

use crate::edits::{put_row, write_row};
use crate::primary::Primary;
use mt_model::{Op, PrimaryFault, SharedValue};
use mt_names::{Position, TableName, TabletType, Value};

impl Primary {
    /// The place of a table among the primary's tables, if it is there: a hint for the calls with a place. It
    /// takes no memory.
    pub fn place_of(&self, table: &TableName) -> Option<usize>
        ensures { result ≡ place_at self.now table.now }
    {
        self.tables.get_index_of(table)
    }

    /// As `write`, with a place at which the table is looked for first. Whatever place is given, the table of this name
    /// is written to. (Vitess: a client's write at a primary tablet)
    #[inline(always)]
    pub fn write_placed(
        &mut self,
        place: usize,
        table: &TableName,
        op: Op,
    ) -> Result<Position, PrimaryFault>
        ensures { Writes self.old table.now op result self.new }
    {
        if self.stands_at(place, table) {
            self.write_at(place, table, op)
        } else {
            self.write(table, op)
        }
    }

    /// As `read`, with a place at which the table is looked for first. Whatever place is given, the table of this name
    /// is read. It takes no memory. (Vitess: a query at a tablet of this type)
    pub fn read_placed(
        &self,
        place: usize,
        table: &TableName,
        key: u64,
        tablet_type: TabletType,
    ) -> Result<Option<Value>, PrimaryFault>
        ensures { result ≡ read_row self.now table.now key tablet_type }
    {
        match self.tables.get_index(place) {
            Some((name, rows)) if name.name() == table => rows.read(key, tablet_type),
            _ => self.read(table, key, tablet_type),
        }
    }

    /// As `lent_row_after`, with a place at which the table is looked for first. Whatever place is given, the rows are those of the
    /// table of this name. It takes no memory. (Vitess: the copy phase of a stream)
    pub fn lent_row_after_placed(
        &self,
        place: usize,
        table: &TableName,
        key: Option<u64>,
    ) -> Option<(u64, &SharedValue)>
        ensures { option_map (λ row. (row.0, row.1.now)) result ≡ next_row self.now table.now key }
    {
        match self.tables.get_index(place) {
            Some((name, rows)) if name.name() == table => rows.row_after(key),
            _ => self.lent_row_after(table, key),
        }
    }

    /// Whether a table stands at a place.
    pub(crate) fn stands_at(&self, place: usize, table: &TableName) -> bool
        ensures { result ≡ true → slice_get (keys_of self.now.tables) place ≡ Some table.now }
    {
        match self.tables.get_index(place) {
            Some((name, _)) => name.name() == table,
            None => false,
        }
    }

    /// Where to look for some tables first: the place of the first of them, if there is one.
    pub(crate) fn first_place(&self, first: Option<&TableName>) -> usize
        ensures { result ≡ option_map_or (λ table. unwrap_or (place_at self.now table) 0) (option_copied first.entry) 0 }
    {
        match first {
            Some(table) => self.place_of(table).unwrap_or(0),
            None => 0,
        }
    }

    /// Whether the own list has the table that stands at a place.
    pub(crate) fn denies_at(&self, place: usize) -> bool
        ensures { (table : List ℕ) → slice_get (keys_of self.now.tables) place ≡ Some table → result ≡ is_denied_at self.now table }
    {
        match self.tables.get_index(place) {
            Some((_, rows)) => rows.is_denied(),
            None => false,
        }
    }

    /// Sets or clears the denial of the table that stands at a place.
    pub(crate) fn set_denied_at(&mut self, place: usize, table: &TableName, denied: bool)
        requires there { slice_get (keys_of self.old.tables) place ≡ Some table.now }
        ensures { AreDenialsSet self.old (λ name. told_by_mark name None (table.now, denied)) self.new }
    {
        let (_, rows) = self.tables.pair_mut(place);
        rows.set_denied(denied);
    }

    /// As `write` of the table that stands at a place.
    pub(crate) fn write_at(
        &mut self,
        place: usize,
        table: &TableName,
        op: Op,
    ) -> Result<Position, PrimaryFault>
        requires there { slice_get (keys_of self.old.tables) place ≡ Some table.now }
        ensures { Writes self.old table.now op result self.new }
    {
        let (name, rows) = self.tables.pair_mut(place);
        if rows.is_denied() {
            return Err(PrimaryFault::Denied);
        }
        write_row(rows, &mut self.log, name, op)
    }

    /// As `put` of the table that stands at a place.
    pub(crate) fn put_at(
        &mut self,
        place: usize,
        table: &TableName,
        key: u64,
        after: Option<&SharedValue>,
    ) -> Result<(), PrimaryFault>
        requires there { slice_get (keys_of self.old.tables) place ≡ Some table.now }
        ensures { Puts self.old (record { table = table.now; key = key; after = option_copied after.entry }) result self.new }
    {
        let (name, rows) = self.tables.pair_mut(place);
        put_row(rows, &mut self.log, name, key, after).map(|_| ())
    }
}
