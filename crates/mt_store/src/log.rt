//! A log.
ghost use Rattle.std.specs.Prelude.{◌≡◌, ◌≤◌, true, length, slice_get, Ok, Err, OnOk};
ghost use Rattle.std.specs.Option.{option_copied};
ghost use Rattle.std.specs.Result.{result_map_both};
ghost use Rattle.mt_store.specs.Log.{TellsRoom, empty_log, log_end, read_entry, with_entry, without_below, without_first};

use crate::segment::Segment;
use mt_model::{MAX_LOG, PrimaryFault, RowChange};
use mt_names::Position;
use std::alloc::Global;
use std::collections::VecDeque;
use std::marker::Model;
use std::mem::replace;

/// The entries of a segment.
const SEGMENT: usize = 256;

/// The changes of a primary's rows in their order, of which the first may be purged. They stand in segments of 256, and
/// go by whole segments. (Vitess: the binary logs of a primary, which are purged file by file)
#[derive(Drop)]
pub struct Log {
    purged: Position,
    // Whole ones.
    segments: VecDeque<Segment>,
    // The one that entries are pushed to. It is moved among the others only as room behind it is made, so it may be whole.
    last: Vec<RowChange>,
}

impl Model for Log {
    ghost use Rattle.std.specs.Prelude.{◌&&◌, nat_lt};
    ghost use Rattle.std.specs.Vec.{vec_len, vec_capacity};
    ghost use Rattle.mt_store.specs.Log.{LogRoom, has_room};
    ghost use Rattle.mt_store.specs.Segments.{AreSegments, log_of};

    ghost Value = { LogRoom };

    ghost view = { λ l. record { log = log_of l.purged l.segments.items l.last.items; spare = nat_lt (vec_len l.last) (vec_capacity l.last) && nat_lt (vec_len l.last) 256 && has_room (log_of l.purged l.segments.items l.last.items) } };

    ghost invariant = { λ l. AreSegments l.purged l.segments.items l.last.items };
}

impl Log {
    /// An empty log. It takes no memory.
    pub fn new(alloc: Global) -> Self
        ensures { result.log ≡ empty_log }
    {
        Log {
            purged: 0,
            segments: VecDeque::new(alloc),
            last: Vec::new(alloc),
        }
    }

    /// The allocator that it was made with.
    pub fn allocator(&self) -> Global {
        *self.last.allocator()
    }

    #[tactic(auto, using(crate::proofs::SegmentLemmas::log_count))]
    /// The position behind its last entry, which is how many entries it ever had. It takes no memory.
    pub fn position(&self) -> Position
        ensures { result ≡ log_end self.now.log }
    {
        self.purged + (SEGMENT * self.segments.len() + self.last.len()) as u64
    }

    /// The first position whose entry is kept; the log's end if none is. It takes no memory.
    pub fn first_kept(&self) -> Position
        ensures { result ≡ self.now.log.purged }
    {
        self.purged
    }

    /// The entry at a position; none from the log's end on. `P7 Purged` below the first position that is kept. It takes
    /// no memory.
    pub fn entry(&self, position: Position) -> Result<Option<&RowChange>, PrimaryFault>
        ensures { result_map_both option_copied (λ fault. fault) result ≡ read_entry self.now.log position }
    {
        if position < self.purged {
            return Err(PrimaryFault::Purged);
        }
        Ok(self.kept((position - self.purged) as usize))
    }

    /// The entry at a place among those that are kept.
    fn kept(&self, place: usize) -> Option<&RowChange>
        ensures { option_copied result ≡ slice_get self.now.log.entries place }
    {
        match self.segments.get(place / SEGMENT) {
            Some(segment) => segment.entry(place % SEGMENT),
            None => self.last.get(place - SEGMENT * self.segments.len()),
        }
    }

    /// Makes room for one entry more, so that to push it needs no memory. It leaves the entries. `P6 LogFull`, then
    /// `P0 Memory`.
    pub fn make_room(&mut self) -> Result<(), PrimaryFault>
        ensures entries { self.new.log ≡ self.old.log }
        ensures room { OnOk result (self.new.spare ≡ true) }
        ensures told { TellsRoom self.old.log result }
    {
        if self.position() >= MAX_LOG {
            return Err(PrimaryFault::LogFull);
        }
        if self.last.len() < SEGMENT {
            return self.last.reserve(1).map_err(|_| PrimaryFault::Memory);
        }
        let Ok(next) = Vec::with_capacity(self.allocator(), SEGMENT) else {
            return Err(PrimaryFault::Memory);
        };
        if self.segments.reserve(1).is_err() {
            return Err(PrimaryFault::Memory);
        }
        let whole = replace(&mut self.last, next);
        self.segments.push_back_reserved(Segment { entries: whole });
        Ok(())
    }

    /// Enters a change behind the others. It needs no memory.
    pub fn push_reserved(&mut self, change: RowChange)
        requires { self.old.spare ≡ true }
        ensures { self.new.log ≡ with_entry self.old.log change }
    {
        self.last.push_reserved(change);
    }

    /// Drops the first segment.
    fn drop_first(&mut self)
        requires { 256 ≤ length self.old.log.entries }
        ensures { self.new.log ≡ without_first 256 self.old.log }
    {
        self.purged += SEGMENT as u64;
        if self.segments.is_empty() {
            self.last.clear();
            return;
        }
        let _ = self.segments.pop_front();
    }

    /// Drops the whole segments that lie below a position, and leaves all else. It takes no memory.
    pub fn purge_below(&mut self, position: Position)
        requires { position ≤ log_end self.old.log }
        ensures { self.new.log ≡ without_below self.old.log position }
    {
        let whole = position.saturating_sub(self.purged) / SEGMENT as u64;
        for _ in 0..whole {
            self.drop_first();
        }
    }
}
