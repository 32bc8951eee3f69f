//! A stream between two primaries, and steps of the three with what each answers.
ghost use Rattle.std.specs.Prelude.{◌≡◌, true, All};
ghost use Rattle.mt_primary.specs.Primary.{has_table};

use arrayvec::ArrayVec;
use mt_names::{
    KeyRange, MAX_TABLES, NameFault, Position, TableName, TabletType, Value, table_list,
};
use mt_primary::{Op, Primary, PrimaryFault};
use mt_stream::{Advanced, Stream, StreamFault, StreamState};
use std::alloc::Global;
use std::marker::Model;
use std::test::Fail;

/// A step, and what it answers.
#[derive(Clone, Copy)]
pub enum Step<'a> {
    /// A client's insert at the source.
    Insert(&'a str, u64, &'a [u8]),
    /// A client's update there.
    Update(&'a str, u64, &'a [u8]),
    /// A client's delete there.
    Delete(&'a str, u64),
    /// An advance at a position, by so many at most, reads so many entries and copies so many rows.
    Advances(Position, u16, u16, u16),
    /// An advance at a position, by so many at most, is refused.
    Refused(Position, u16, StreamFault),
    /// The stream is started, stopped or frozen, and that is then its state.
    Becomes(StreamState),
    /// The stream's position, whether it is copied, and whether it is level.
    Stands(Position, bool, bool),
    /// A row of the sink, or none.
    Row(&'a str, u64, Option<&'a [u8]>),
    /// The entry of the sink's log at a position is about this row.
    Logged(Position, &'a str, u64),
    /// How many entries the sink's log has.
    SinkAt(Position),
}

/// A value of these bytes, at most 64.
pub fn value(bytes: &[u8]) -> Value {
    let mut value = Value::new();
    let _fits = value.try_extend_from_slice(bytes);
    value
}

/// Whether the sink has each of these tables.
fn has_tables(sink: &Primary, tables: &[TableName]) -> bool
    ensures { result ≡ true → All (λ table. has_table sink.now table ≡ true) tables.now }
{
    tables.iter().all(|table| sink.has_table(table))
}

/// A stream between two primaries, and its tables.
#[derive(Drop)]
pub struct Pair {
    source: Primary,
    sink: Primary,
    stream: Stream,
    tables: ArrayVec<TableName, MAX_TABLES>,
}

impl Model for Pair {
    ghost use Rattle.std.specs.Prelude.{◌≡◌, ⊤};

    ghost Value = { ⊤ };

    ghost view = { λ p. tt };

    ghost invariant = { λ p. p.stream.tables ≡ p.tables.items };
}

impl Pair {
    /// A stream of the tables that a text lists and of a range of keys, from this position on, which copies their rows
    /// first or counts as copied.
    pub fn new(
        source: Primary,
        sink: Primary,
        listed: &str,
        range: KeyRange,
        at: Position,
        copies: bool,
    ) -> Result<Self, NameFault> {
        let (tables, named) = (table_list(listed)?, table_list(listed)?);
        let stream = if copies {
            Stream::new_copy(named, range, at)
        } else {
            Stream::new_running(named, range, at)
        };
        Ok(Pair {
            source,
            sink,
            stream,
            tables,
        })
    }

    /// How the stream answers an advance; nothing if its position isn't in what the source's log keeps, or the sink lacks a table.
    fn advance(&mut self, at: Position, max: u16) -> Option<Result<Advanced, StreamFault>> {
        let at_least = self.source.first_kept();
        let is_within = at_least <= self.stream.position()
            && self.stream.position() <= self.source.position();
        if is_within && has_tables(&self.sink, &self.tables) {
            return Some(self.stream.advance(&self.source, &mut self.sink, at, max));
        }
        None
    }

    /// Whether a write at the source is taken, at once or at a second try where memory was refused.
    fn writes(&mut self, table: &str, op: Op) -> Result<bool, NameFault> {
        let table = TableName::parse(table)?;
        Ok(match self.source.write(&table, op.copied()) {
            Err(PrimaryFault::Memory) => self.source.write(&table, op).is_ok(),
            answer => answer.is_ok(),
        })
    }

    /// Whether the stream and the sink stand so much further than at these positions, the entries of the source's log being
    /// all of the copied range.
    fn is_further(&self, from: Position, sink: Position, done: Advanced) -> bool {
        let (events, rows) = (u64::from(done.events), u64::from(done.rows));
        self.stream.position().checked_sub(from) == Some(events)
            && self.sink.position().checked_sub(sink) == Some(events + rows)
    }

    /// Whether an advance from where the stream stands does what it answers, at once or at a second try where memory was
    /// refused and nothing changed.
    pub fn goes_on(&mut self, max: u16) -> bool {
        let (from, sink, copied) = (
            self.stream.position(),
            self.sink.position(),
            self.stream.copied(),
        );
        let answer = match self.advance(from, max) {
            Some(Err(StreamFault::Memory)) if self.is_at(from, sink, copied) => {
                self.advance(from, max)
            }
            answer => answer,
        };
        match answer {
            Some(Ok(done)) => self.is_further(from, sink, done),
            _ => false,
        }
    }

    /// Whether the stream and the sink stand at these positions, and the stream is copied so.
    fn is_at(&self, from: Position, sink: Position, copied: bool) -> bool {
        self.stream.position() == from
            && self.sink.position() == sink
            && self.stream.copied() == copied
    }

    /// Whether an advance is answered so.
    fn answers(&mut self, at: Position, max: u16, want: Result<Advanced, StreamFault>) -> bool {
        self.advance(at, max) == Some(want)
    }

    /// Whether a row of the sink is this, or there is none.
    fn has_row(&self, table: &str, key: u64, want: Option<&[u8]>) -> Result<bool, NameFault> {
        let row = self
            .sink
            .read(&TableName::parse(table)?, key, TabletType::Primary);
        Ok(row == Ok(want.map(|bytes| value(bytes))))
    }

    /// Whether an entry of the sink's log is about this row.
    fn has_logged(&self, position: Position, table: &str, key: u64) -> Result<bool, NameFault> {
        let table = TableName::parse(table)?;
        Ok(match self.sink.entry(position) {
            Ok(Some(change)) => change.table.name() == &table && change.key == key,
            _ => false,
        })
    }

    /// Whether the stream stands at this position, is copied so, and is level so.
    fn stands(&self, position: Position, copied: bool, level: bool) -> bool {
        self.stream.position() == position
            && self.stream.copied() == copied
            && self.source.first_kept() <= position
            && self.stream.is_level(&self.source) == level
    }

    /// Whether a step answers what it is to.
    fn is_so(&mut self, step: Step<'_>) -> Result<bool, NameFault> {
        match step {
            Step::Insert(table, key, bytes) => self.writes(table, Op::Insert(key, value(bytes))),
            Step::Update(table, key, bytes) => self.writes(table, Op::Update(key, value(bytes))),
            Step::Delete(table, key) => self.writes(table, Op::Delete(key)),
            Step::Row(table, key, want) => self.has_row(table, key, want),
            Step::Logged(position, table, key) => self.has_logged(position, table, key),
            Step::Advances(at, max, events, rows) => {
                Ok(self.answers(at, max, Ok(Advanced { events, rows })))
            }
            Step::Refused(at, max, fault) => Ok(self.answers(at, max, Err(fault))),
            Step::Stands(position, copied, level) => Ok(self.stands(position, copied, level)),
            Step::Becomes(state) => {
                self.turn(state);
                Ok(self.stream.state() == state)
            }
            Step::SinkAt(position) => Ok(self.sink.position() == position),
        }
    }

    /// Whether steps answer what they are to, one after the other.
    pub fn all_so(&mut self, steps: &[Step<'_>]) -> bool {
        for step in steps {
            if !self.is_so(*step).unwrap_or(false) {
                return false;
            }
        }
        true
    }

    /// Starts, stops or freezes the stream.
    fn turn(&mut self, state: StreamState) {
        match state {
            StreamState::Running => self.stream.start(),
            StreamState::Stopped => self.stream.stop(),
            StreamState::Frozen => self.stream.freeze(),
        }
    }
}

/// Whether a table is made, at once or at a second try where memory was refused.
fn creates(primary: &mut Primary, table: &TableName) -> bool {
    if primary.has_table(table) {
        return false;
    }
    if primary.create_table(table).is_err() {
        return primary.create_table(table).is_ok();
    }
    true
}

/// A primary that has these tables.
pub fn primary_with(alloc: Global, tables: &[&str]) -> Result<Primary, Fail> {
    let mut primary = Primary::new(alloc);
    for name in tables {
        if !creates(&mut primary, &TableName::parse(name)?) {
            return Err(Fail::from("no table"));
        }
    }
    Ok(primary)
}
