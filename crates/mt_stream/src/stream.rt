//! A stream.
ghost use Rattle.std.specs.Prelude.{◌≡◌, ◌≢◌, ℕ, ◌≤◌, true, List, AllPairs, length};
ghost use Rattle.mt_plain.specs.Events.{running, stopped, frozen};
ghost use Rattle.mt_plain.specs.Plain.{not_begun, ended, among};
ghost use Rattle.mt_primary.specs.Primary.{end_of, has_table};
ghost use Rattle.mt_stream.specs.Advance.{Advances, refusal_before};
ghost use Rattle.mt_stream.specs.Follows.{FollowsSource};
ghost use Rattle.mt_stream.specs.Streams.{has_ended, is_level, state_from};

use crate::copying::copy_rows;
use crate::fault::StreamFault;
use crate::following::{Filter, names_any, read_entries};
use arrayvec::ArrayVec;
use mt_names::{KeyRange, MAX_TABLES, Position, TableName};
use mt_primary::Primary;
use std::marker::Model;

/// What a stream does. (Vitess: the state of a VReplication stream; frozen is the state that a finished switch of
/// traffic leaves)
#[derive(Clone, Copy, Debug, Eq, PartialEq)]
pub enum StreamState {
    /// It copies and follows when it is advanced.
    Running,
    /// It stays as it is until it is started.
    Stopped,
    /// It stays as it is, and its place is kept.
    Frozen,
}

/// How far the rows are copied, in the order of the tables named and then of keys.
#[derive(Clone, Copy, Debug)]
pub enum CopiedRange {
    /// No row is.
    NotBegun,
    /// Up to this key of the table at this place among those named.
    UpTo(usize, u64),
    /// All are.
    Ended,
}

/// What an advance did: how many entries it read, or how many rows it copied. One of them is 0.
#[derive(Clone, Copy, Debug, Eq, PartialEq)]
pub struct Advanced {
    /// The entries that were read, those that were passed over among them.
    pub events: u16,
    /// The rows that were copied.
    pub rows: u16,
}

/// A stream: it copies the rows of some tables, those with a key in its range, from one primary to another, and then writes
/// there what the log of the first tells of them. It owns neither of the primaries. (Vitess: a VReplication stream of
/// MoveTables, with its copy phase, its catchup, and its position in the source's binary log; its filter has the key range
/// of a shard)
#[derive(Drop)]
pub struct Stream {
    tables: ArrayVec<TableName, MAX_TABLES>,
    keys: KeyRange,
    range: CopiedRange,
    position: Position,
    state: StreamState,
}

impl Model for Stream {
    ghost use Rattle.mt_stream.specs.Streams.{IsStream, StreamValue, copied_from, state_from};

    ghost Value = { StreamValue };

    ghost view = { λ s. record { tables = s.tables.items; range = s.keys; copied = copied_from s.tables.items s.range; position = s.position; state = state_from s.state } };

    ghost invariant = { λ s. IsStream s.tables.items s.range };
}

impl Stream {
    /// A stream of the keys in a range that has copied nothing yet, and reads the log from this position on. It runs. Each
    /// table is named once. (Vitess: a stream of MoveTables that begins with its copy phase)
    pub fn new_copy(tables: ArrayVec<TableName, MAX_TABLES>, range: KeyRange, at: Position) -> Self
        requires { AllPairs ◌≢◌ tables.items }
        ensures { result ≡ record { tables = tables.items; range = range; copied = not_begun; position = at; state = running } }
    {
        Stream {
            tables,
            keys: range,
            range: CopiedRange::NotBegun,
            position: at,
            state: StreamState::Running,
        }
    }

    /// A stream of the keys in a range that counts as copied from its start, and reads the log from this position on. It
    /// runs. Each table is named once. (Vitess: the stream of the reverse workflow, which has no copy phase)
    pub fn new_running(
        tables: ArrayVec<TableName, MAX_TABLES>,
        range: KeyRange,
        at: Position,
    ) -> Self
        requires { AllPairs ◌≢◌ tables.items }
        ensures { result ≡ record { tables = tables.items; range = range; copied = ended; position = at; state = running } }
    {
        Stream {
            tables,
            keys: range,
            range: CopiedRange::Ended,
            position: at,
            state: StreamState::Running,
        }
    }

    /// The position up to which it has read its source's log. (Vitess: the position of a stream)
    pub fn position(&self) -> Position
        ensures { result ≡ self.now.position }
    {
        self.position
    }

    /// Whether the copy has ended. (Vitess: the copy phase is over)
    pub fn copied(&self) -> bool
        ensures { result ≡ has_ended self.now.copied }
    {
        matches!(self.range, CopiedRange::Ended)
    }

    /// What it does.
    pub fn state(&self) -> StreamState
        ensures { state_from result ≡ self.now.state }
    {
        self.state
    }

    /// Stops it, whatever it did. (Vitess: a stopped stream)
    pub fn stop(&mut self)
        ensures { self.new ≡ record self.old { state = stopped } }
    {
        self.state = StreamState::Stopped;
    }

    /// Lets it run, whatever it did. (Vitess: a running stream)
    pub fn start(&mut self)
        ensures { self.new ≡ record self.old { state = running } }
    {
        self.state = StreamState::Running;
    }

    /// Freezes it, whatever it did. (Vitess: a frozen workflow, whose traffic was switched)
    pub fn freeze(&mut self)
        ensures { self.new ≡ record self.old { state = frozen } }
    {
        self.state = StreamState::Frozen;
    }

    /// Whether it is level with its source: no entry about one of its tables and a key in its range stands past its
    /// position. It takes no memory, and looks at the entries past the position alone. (Vitess: how traffic is switched,
    /// the wait until the stream has caught up with the source's position)
    pub fn is_level(&self, source: &Primary) -> bool
        requires kept { source.now.log.purged ≤ self.now.position }
        ensures { result ≡ is_level self.now source.now }
    {
        !names_any(&self.keys, &self.tables, self.position, source)
    }

    /// What refuses an advance before anything is read: `S2 Stopped` or `S3 Frozen`, then `S1 Stale`.
    fn refusal(&self, at: Position) -> Option<StreamFault>
        ensures told { result ≡ refusal_before self.now at }
        ensures runs { result ≡ None → self.now.state ≡ running }
    {
        match self.state {
            StreamState::Stopped => Some(StreamFault::Stopped),
            StreamState::Frozen => Some(StreamFault::Frozen),
            StreamState::Running if at == self.position => None,
            StreamState::Running => Some(StreamFault::Stale(self.position)),
        }
    }

    /// Advances the stream, which stands at this position, by so many entries or rows at most. If entries stand past the
    /// position in the source's log it reads them: it writes those of its tables whose key is in its range and whose row is
    /// in the copied range, and passes over the others. Else it copies rows with a key in its range, in the order of the
    /// tables and then of keys; the copy ends where fewer are left than may be copied. The answer has the counts, 0 of both
    /// if nothing is left.
    ///
    /// The first of these that holds is answered, and then stream and sink are as they were: `S2 Stopped` or
    /// `S3 Frozen`; `S1 Stale` with the stream's position, if that is another one; `S4 LogFull` and `S0 Memory` of the
    /// first change. A later change that is refused ends the advance, which answers what it did. Nothing but an advance
    /// takes memory, and that at the sink.
    ///
    /// A sink that has, of the stream's tables and the keys in its range, the rows of the copied range as they were at the
    /// source at the stream's position, and no others, has them so behind the advance too. The source's log keeps the
    /// entries from the position of a stream that runs on. (Vitess: a VReplication stream, which copies in primary key
    /// order, and between applies from the source's binary log what concerns the rows already copied)
    pub fn advance(
        &mut self,
        source: &Primary,
        sink: &mut Primary,
        at: Position,
        max: u16,
    ) -> Result<Advanced, StreamFault>
        requires kept { self.old.state ≡ running → source.now.log.purged ≤ self.old.position }
        requires within { self.old.position ≤ end_of source.now }
        requires there { (table : List ℕ) → among self.old.tables table ≡ true → has_table sink.old table ≡ true }
        ensures advances { Advances self.old source.now sink.old at max result self.new sink.new }
        ensures within { self.new.position ≤ end_of source.now }
        ensures follows { FollowsSource self.old source.now sink.old → FollowsSource self.new source.now sink.new }
    {
        source.facts();
        if let Some(fault) = self.refusal(at) {
            return Err(fault);
        }
        if self.position < source.position() {
            let filter = Filter {
                keys: &self.keys,
                tables: &self.tables,
                range: self.range,
            };
            let events = read_entries(filter, self.position, source, sink, max)?;
            self.position += u64::from(events);
            return Ok(Advanced { events, rows: 0 });
        }
        let rows = copy_rows(&self.keys, &self.tables, &mut self.range, source, sink, max)?;
        Ok(Advanced { events: 0, rows })
    }
}
