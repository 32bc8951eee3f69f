//! A primary.
ghost use Rattle.std.specs.Prelude.{◌≡◌, ◌≤◌, true, false, None, length};
ghost use Rattle.std.specs.Option.{option_copied, option_map};
ghost use Rattle.std.specs.Result.{result_map_both};
ghost use Rattle.mt_names.specs.Tables.{most_tables};
ghost use Rattle.mt_primary.specs.Denials.{AreDenialsSet, marks_of, told_by_mark, told_by_marks, told_by_refresh};
ghost use Rattle.mt_primary.specs.Primary.{empty_primary, end_of, has_table, is_denied_at, IsPrimary};
ghost use Rattle.mt_primary.specs.Reads.{entry_at, next_row, read_row};
ghost use Rattle.mt_primary.specs.Writes.{Creates, Puts, Writes, put_of, with_purge, without_table};

use crate::before::{Before, Mark};
use crate::table::Table;
use arrayvec::ArrayVec;
use indexmap::IndexMap;
use mt_model::{Entry, Op, PrimaryFault, RowChange, SharedName, SharedValue};
use mt_names::{KeyspaceName, Position, TableName, TabletType, Value};
use mt_store::Log;
use mt_watch::Notice;
use std::alloc::Global;
use std::marker::Model;

/// A keyspace's primary: its tables with their rows, its own denied list, and the log of every change. (Vitess: the
/// denied tables that a primary tablet has in its memory, which it reads anew on RefreshState.)
#[derive(Drop)]
pub struct Primary {
    pub(crate) tables: IndexMap<SharedName, Table>,
    pub(crate) log: Log,
    // Where a stream's write looks for its table first.
    streamed: usize,
}

impl Model for Primary {
    ghost use Rattle.mt_primary.specs.Primary.{PrimaryState, IsPrimary};

    ghost Value = { PrimaryState };

    ghost view = { λ p. record { tables = p.tables.entries; log = p.log.log } };

    ghost invariant = { λ p. IsPrimary (record { tables = p.tables.entries; log = p.log.log }) };
}

impl Primary {
    /// A primary without tables and with an empty log. It takes no memory. (Vitess: the primary tablet of a new shard)
    pub fn new(alloc: Global) -> Self
        ensures { result ≡ empty_primary }
    {
        Primary {
            tables: IndexMap::new(alloc),
            log: Log::new(alloc),
            streamed: 0,
        }
    }

    /// What holds of every primary, for the proofs of callers: a table has one place and its rows in the order of their
    /// keys, and each entry that is kept since its table was made leads to the next one of its row, or to the row that
    /// stands. It does nothing.
    pub fn facts(&self)
        ensures { IsPrimary self.now }
    {
        // A proof knows what holds of the fields once one of them is read.
        let _log = &self.log;
    }

    /// How many entries the log has, which is the position behind its last one. It takes no memory. (Vitess: the
    /// position of a primary's binary log)
    pub fn position(&self) -> Position
        ensures { result ≡ end_of self.now }
    {
        self.log.position()
    }

    /// Whether there is such a table. It takes no memory. (Vitess: the schema of a tablet)
    pub fn has_table(&self, table: &TableName) -> bool
        ensures { result ≡ has_table self.now table.now }
    {
        self.tables.contains_key(table)
    }

    /// Makes a table without rows behind the others, which begins at this position of the log, and its place on the own
    /// list, where it is not denied. All else stays. It is refused with `P0 Memory` alone, and then changes nothing.
    /// (Vitess: CREATE TABLE on a primary tablet)
    pub fn create_table(&mut self, table: &TableName) -> Result<(), PrimaryFault>
        requires absent { has_table self.old table.now ≡ false }
        ensures { Creates self.old table.now result self.new }
    {
        let alloc = *self.tables.allocator();
        let made = self.log.position();
        let Ok(name) = SharedName::new(alloc, table.copied()) else {
            return Err(PrimaryFault::Memory);
        };
        match self.tables.insert(name, Table::new(alloc, made)) {
            Ok(_) => Ok(()),
            Err(_) => Err(PrimaryFault::Memory),
        }
    }

    /// Drops a table with its rows and its denial. The others stay in their order, and the log stays. A table that isn't
    /// there leaves all as it is. It takes no memory. (Vitess: DROP TABLE on a primary tablet, as Complete does at the
    /// source, and Cancel at the target)
    pub fn drop_table(&mut self, table: &TableName)
        ensures { self.new ≡ without_table self.old table.now }
    {
        self.tables.shift_remove(table);
    }

    /// Does an operation on a row of a table, and answers the position behind its entry in the log. The first of
    /// these that holds is answered, and then nothing changed: `P1 NoTable`, `P2 Denied`, `P3 RowExists` or `P4 NoRow`,
    /// `P5 TooLong`, `P6 LogFull`, `P0 Memory`. (Vitess: a client's write at a primary tablet, which the denied tables
    /// refuse, and a row event of its binary log)
    pub fn write(&mut self, table: &TableName, op: Op) -> Result<Position, PrimaryFault>
        ensures { Writes self.old table.now op result self.new }
    {
        match self.tables.get_index_of(table) {
            Some(place) => self.write_at(place, table, op),
            None => Err(PrimaryFault::NoTable),
        }
    }

    /// A stream's write: sets the row of the change's table and key to the one after it, or takes it away if there is
    /// none, whatever stands here, and enters the change into the log, with the row that stood here before it. The
    /// change's own row before counts for nothing. The own list isn't asked: it is for clients. The first of these that
    /// holds is answered, and then nothing changed: `P6 LogFull`, `P0 Memory`. (Vitess: a VReplication stream, whose
    /// writes are not refused by the denied tables, and are in the binary log of the primary they go to)
    pub fn apply_change(&mut self, change: &RowChange) -> Result<(), PrimaryFault>
        requires there { has_table self.old change.now.table ≡ true }
        ensures { Puts self.old (put_of change.now) result self.new }
    {
        self.put(change.table.name(), change.key, change.after.as_ref())
    }

    /// As `apply_change` of a change of this table and key with this row after it, which is shared from here on.
    /// (Vitess: the copy phase of a stream, which inserts the rows that it reads)
    pub fn put(
        &mut self,
        table: &TableName,
        key: u64,
        after: Option<&SharedValue>,
    ) -> Result<(), PrimaryFault>
        requires there { has_table self.old table.now ≡ true }
        ensures { Puts self.old (record { table = table.now; key = key; after = option_copied after.entry }) result self.new }
    {
        let streamed = self.streamed;
        if self.stands_at(streamed, table) {
            return self.put_at(streamed, table, key, after);
        }
        match self.tables.get_index_of(table) {
            Some(place) => {
                self.streamed = place;
                self.put_at(place, table, key, after)
            }
            None => unreachable!(),
        }
    }

    /// The row of a table and a key, as a tablet of this type has it: replicas see the rows of the primary. `P1 NoTable`,
    /// then `P2 Denied` of type primary alone, where the own list has the table. It takes no memory. (Vitess: a query at a
    /// tablet of this type)
    pub fn read(
        &self,
        table: &TableName,
        key: u64,
        tablet_type: TabletType,
    ) -> Result<Option<Value>, PrimaryFault>
        ensures { result ≡ read_row self.now table.now key tablet_type }
    {
        match self.tables.get(table) {
            None => Err(PrimaryFault::NoTable),
            Some(rows) => rows.read(key, tablet_type),
        }
    }

    /// The entry of the log at a position, which counts from 0; none from the primary's own position on. `P7 Purged` below
    /// the first position that is kept. It takes no memory. (Vitess: a stream reads the source's binary log from its
    /// position on)
    pub fn entry(&self, position: Position) -> Result<Option<&RowChange>, PrimaryFault>
        ensures { result_map_both option_copied (λ fault. fault) result ≡ entry_at self.now position }
    {
        self.log.entry(position)
    }

    /// The first position of the log whose entry is kept; the primary's own position if none is. It takes no memory.
    /// (Vitess: the first binary log that a primary still has, by gtid_purged)
    pub fn first_kept(&self) -> Position
        ensures { result ≡ self.now.log.purged }
    {
        self.log.first_kept()
    }

    /// Drops the whole segments of the log, of 256 entries each, that lie below a position, and leaves all else. It takes no
    /// memory. (Vitess: PURGE BINARY LOGS on a primary tablet)
    pub fn purge_below(&mut self, position: Position)
        requires { position ≤ end_of self.old }
        ensures { self.new ≡ with_purge self.old position }
    {
        self.log.purge_below(position);
    }

    /// The first row of a table in the order of the keys, or the first above a key; none where there is none, or no such
    /// table. The own list isn't asked. It takes no memory. (Vitess: the copy phase of a stream, which reads the rows of
    /// a table in primary key order, behind the last key that was copied)
    pub fn row_after(&self, table: &TableName, key: Option<u64>) -> Option<(u64, Value)>
        ensures { result ≡ next_row self.now table.now key }
    {
        let (key, row) = self.lent_row_after(table, key)?;
        Some((key, row.value()))
    }

    /// As `row_after`, with the row lent, to be shared. It takes no memory.
    pub(crate) fn lent_row_after(
        &self,
        table: &TableName,
        key: Option<u64>,
    ) -> Option<(u64, &SharedValue)>
        ensures { option_map (λ row. (row.0, row.1.now)) result ≡ next_row self.now table.now key }
    {
        self.tables.get(table)?.row_after(key)
    }

    /// Whether the own list has a table, which is looked for at a place first.
    fn is_denied(&self, near: usize, table: &TableName) -> bool
        ensures { result ≡ is_denied_at self.now table.now }
    {
        if self.stands_at(near, table) {
            return self.denies_at(near);
        }
        match self.tables.get(table) {
            Some(rows) => rows.is_denied(),
            None => false,
        }
    }

    /// Sets or clears the denial of a table, which is looked for at a place first. A table that isn't there has none.
    #[inline(always)]
    fn set_denied(&mut self, near: usize, table: &TableName, denied: bool)
        ensures { AreDenialsSet self.old (λ name. told_by_mark name None (table.now, denied)) self.new }
    {
        if self.stands_at(near, table) {
            self.set_denied_at(near, table, denied);
            return;
        }
        if let Some(rows) = self.tables.get_mut(table) {
            rows.set_denied(denied);
        }
    }

    /// What stands on the own list for these tables. They are looked for in a row first, from a place on.
    #[inline(never)]
    fn stands(&self, first: usize, tables: &[TableName]) -> Before
        requires { length tables.now ≤ most_tables }
        ensures { result ≡ marks_of self.now tables.now }
    {
        let mut marks = ArrayVec::new_in(());
        let mut near = first;
        for table in tables {
            marks.push(Mark {
                table: table.copied(),
                denied: self.is_denied(near, table),
            });
            near = near.wrapping_add(1);
        }
        Before { marks }
    }

    /// Takes over what a notice says of the denials of these tables at this keyspace, the primary's own, and answers
    /// what stood on the own list for them. A table of which the notice has no entry keeps what stands, and so does each
    /// table that isn't named. Of several entries for a table the last one counts. At most 16 tables. It takes no
    /// memory. (Vitess: RefreshState)
    #[inline(always)]
    pub fn take_denied(
        &mut self,
        keyspace: &KeyspaceName,
        notice: &Notice,
        tables: &[TableName],
    ) -> Before
        requires { length tables.now ≤ most_tables }
        ensures before { result ≡ marks_of self.old tables.now }
        ensures taken { AreDenialsSet self.old (told_by_refresh keyspace.now notice.now tables.now) self.new }
    {
        let mut near = self.first_place(tables.first());
        let before = self.stands(near, tables);
        for entry in notice.as_slice() {
            if let Entry::Denied(at, table, denied) = entry {
                if keyspace == at && tables.contains(table) {
                    self.set_denied(near, table, *denied);
                }
            }
            near = near.wrapping_add(1);
        }
        before
    }

    /// Gives the tables that a refresh named what stood for them before it, and leaves the others as they are now. It
    /// takes no memory.
    pub fn put_denied(&mut self, before: Before)
        ensures { AreDenialsSet self.old (told_by_marks before) self.new }
    {
        let mut near = self.first_place(before.marks.first().map(|mark| &mark.table));
        for mark in before.marks.iter() {
            self.set_denied(near, &mark.table, mark.denied);
            near = near.wrapping_add(1);
        }
    }
}
