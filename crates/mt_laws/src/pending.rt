//! Laws on the writes that are not fed yet.
ghost use Rattle.std.specs.Prelude.{◌≡◌, ◌≢◌, ◌↔◌, ℕ, ◌+◌, true, List, [], Some, drop, fold, length, map};
ghost use Rattle.std.specs.List.{list_any};
ghost use Rattle.mt_laws.specs.Pending.{pending, row_of_entry, row_of_write};
ghost use Rattle.mt_laws.specs.WayBack.{IsReached};
ghost use Rattle.mt_plain.specs.Events.{StreamName, Slot, frozen};
ghost use Rattle.mt_plain.specs.Plain.{Lane, Live, Plain, lane_at, lane_of, live_at, moves, number_of, owner};
ghost use Rattle.mt_plain.specs.Refuse.{lane_is_behind};
ghost use Rattle.mt_plain.specs.Slots.{is_for, past, read_side, slot_of};
ghost use Rattle.mt_plain.specs.Writes.{client_row, in_range, lane_writes, other_row, row_after_write};

/// In each state that a run reaches each lane of a live workflow has a stream that reads the owner's log, running or stopped, and
/// never frozen: also behind the journal, where the one that fed up to there reads the side that was the owner.
pub fn a_stream_reads_the_owner()
    ensures reads { (p : Plain) → IsReached p → (name : List ℕ) (w : Live) → live_at p name ≡ Some w → (lane : Lane)
        → (stream : StreamName) × (s : Slot) × (slot_of w lane stream ≡ Some s) × (read_side w stream ≡ owner w)
        × (s.state ≢ frozen) }
{}

/// In each state that a run reaches, at each stream of a lane of a live workflow that reads the owner's log, running or
/// stopped: the entries of moved tables with a key in that lane's shard past its position are, one for one and in order, the
/// acknowledged writes to these tables with a key in that shard that were not fed, by table and key. So as many writes were not
/// fed as there are such entries, and a step that tests whether writes are left to be fed, which the definitions say by counts,
/// may look for such an entry at each lane.
pub fn what_is_pending_was_not_fed()
    ensures one_for_one { (p : Plain) → IsReached p → (name : List ℕ) (w : Live) → live_at p name ≡ Some w
        → (shard : ℕ) (lane : Lane) → lane_at w shard ≡ Some lane
        → (stream : StreamName) (s : Slot) → slot_of w lane stream ≡ Some s → read_side w stream ≡ owner w
        → map (row_of_entry p w) (pending p w lane stream s.position) ≡ map row_of_write (drop lane.fed (lane_writes p w lane)) }
    ensures counted { (p : Plain) → IsReached p → (name : List ℕ) (w : Live) → live_at p name ≡ Some w
        → (shard : ℕ) (lane : Lane) → lane_at w shard ≡ Some lane
        → (stream : StreamName) (s : Slot) → slot_of w lane stream ≡ Some s → read_side w stream ≡ owner w
        → lane.fed + length (pending p w lane stream s.position) ≡ length (lane_writes p w lane) }
    ensures level { (p : Plain) → IsReached p → (name : List ℕ) (w : Live) → live_at p name ≡ Some w
        → (shard : ℕ) (lane : Lane) → lane_at w shard ≡ Some lane
        → (stream : StreamName) (s : Slot) → slot_of w lane stream ≡ Some s → read_side w stream ≡ owner w
        → (lane.fed ≡ length (lane_writes p w lane)) ↔ (pending p w lane stream s.position ≡ []) }
    ensures behind { (p : Plain) → IsReached p → (name : List ℕ) (w : Live) → live_at p name ≡ Some w
        → (shard : ℕ) (lane : Lane) → lane_at w shard ≡ Some lane
        → (stream : StreamName) (s : Slot) → slot_of w lane stream ≡ Some s → read_side w stream ≡ owner w
        → lane_is_behind p w lane ≡ list_any (is_for w lane) (past p w lane stream s.position) }
{}

/// In each state that a run reaches the writes of a lane that were not fed, in their order and each with the row that it left, make of
/// a row at the side that isn't the owner the row at the owner, wherever the lane's copied range has it.
pub fn what_was_not_fed_makes_the_rows_of_the_owner()
    ensures rows { (p : Plain) → IsReached p → (name : List ℕ) (w : Live) → live_at p name ≡ Some w
        → (table : List ℕ) → moves w table ≡ true → (key : ℕ) (lane : Lane) → lane_of w key ≡ Some lane
        → in_range w.tables lane.copied table key ≡ true
        → fold (row_after_write (number_of p w.source table) key) (other_row p w table key) (drop lane.fed (lane_writes p w lane))
        ≡ client_row p (owner w) table key }
{}
