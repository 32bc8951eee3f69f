//! Laws on the copy at the side that isn't the owner.
ghost use Rattle.std.specs.Prelude.{◌≡◌, ◌≢◌, ◌↔◌, ℕ, ◌+◌, ◌<◌, ◌≤◌, true, false, List, None, Some, count_by, length, take};
ghost use Rattle.mt_laws.specs.Copies.{Feeds, tests_level};
ghost use Rattle.mt_laws.specs.WayBack.{IsReached};
ghost use Rattle.mt_model.specs.Rows.{Row};
ghost use Rattle.mt_names.specs.declared.types.TabletType.{TabletType};
ghost use Rattle.mt_plain.specs.Answers.{Answers};
ghost use Rattle.mt_plain.specs.Events.{Event, read, step, not_level, StreamName, Answer, done, row, refused, Way};
ghost use Rattle.mt_plain.specs.Next.{next};
ghost use Rattle.mt_plain.specs.Plain.{Lane, Live, Plain, catch_up, changes_primary, is_side, live_at, mover, moves, next_step, number_of, owner, refresh_target, stands_done, write_journal, lane_at, lane_of, stands_done_at};
ghost use Rattle.mt_plain.specs.Refuse.{is_behind};
ghost use Rattle.mt_plain.specs.Slots.{is_for, past, running_at, slot_of};
ghost use Rattle.mt_plain.specs.Writes.{client_row, in_range, lane_writes, other_row, row_after_writes};

/// A read of any type at the side that isn't the owner answers, in the copied range, what the first of the acknowledged
/// writes to the workflow's tables leave, as many as were fed; outside of that range there is no row.
pub fn the_other_side_answers_by_the_writes_that_were_fed()
    ensures copied { (p : Plain) (table : List ℕ) (w : Live) → mover p table ≡ Some w → (keyspace : List ℕ)
        → is_side w keyspace ≡ true → keyspace ≢ owner w → (key : ℕ) (lane : Lane) → lane_of w key ≡ Some lane
        → in_range w.tables lane.copied table key ≡ true
        → (tablet_type : TabletType) (r : Row) → Answers p (read keyspace table key tablet_type) (row r)
        → r ≡ row_after_writes (take lane.fed (lane_writes p w lane)) (number_of p w.source table) key }
    ensures elsewhere { (p : Plain) (table : List ℕ) (w : Live) → mover p table ≡ Some w → (keyspace : List ℕ)
        → is_side w keyspace ≡ true → keyspace ≢ owner w → (key : ℕ) (lane : Lane) → lane_of w key ≡ Some lane
        → in_range w.tables lane.copied table key ≡ false
        → (tablet_type : TabletType) (r : Row) → Answers p (read keyspace table key tablet_type) (row r) → r ≡ None }
{}

/// In each state that a run reaches: how many writes were fed never falls while a workflow is live, an advance of its
/// stream is what raises it, and it never rises past all that were acknowledged.
/// The writes that are not fed yet are those past the position of the stream that runs, so that none is lost or fed twice.
pub fn what_was_fed_stays_fed()
    ensures never_falls { (p : Plain) → IsReached p → (event : Event) (answer : Answer) → Answers p event answer
        → (name : List ℕ) (w v : Live) → live_at p name ≡ Some w → live_at (next p event answer) name ≡ Some v
        → (shard : ℕ) (lane later : Lane) → lane_at w shard ≡ Some lane → lane_at v shard ≡ Some later → lane.fed ≤ later.fed }
    ensures raised { (p : Plain) → IsReached p → (name : List ℕ) (w v : Live) → live_at p name ≡ Some w
        → (shard : ℕ) (lane later : Lane) → lane_at w shard ≡ Some lane → lane_at v shard ≡ Some later → lane.fed < later.fed
        → (event : Event) (answer : Answer) → Answers p event answer → live_at (next p event answer) name ≡ Some v → Feeds w lane event }
    ensures up_to_the_position { (p : Plain) → IsReached p → (name : List ℕ) (w : Live) → live_at p name ≡ Some w
        → (shard : ℕ) (lane : Lane) → lane_at w shard ≡ Some lane
        → (stream : StreamName) (at : ℕ) → running_at (slot_of w lane stream) ≡ Some at
        → lane.fed + count_by (is_for w lane) (past p w lane stream at) ≡ length (lane_writes p w lane) }
    ensures never_more { (p : Plain) → IsReached p → (name : List ℕ) (w : Live) → live_at p name ≡ Some w
        → (shard : ℕ) (lane : Lane) → lane_at w shard ≡ Some lane → lane.fed ≤ length (lane_writes p w lane) }
{}

/// A step is refused as not level exactly where it is the catch-up, or a switch of reads to the side that isn't the owner,
/// and fewer writes were fed than were acknowledged. Where such a step is taken, in a state that a run reaches, just the
/// acknowledged writes were fed, and the other side has every row of the owner: nothing is lost.
pub fn level_is_what_it_says()
    ensures refused { (p : Plain) (name : List ℕ) (w : Live) (way : Way) → live_at p name ≡ Some w → w.way ≡ Some way
        → way.undoing ≡ false → Answers p (step name way.done) (refused not_level)
        ↔ (tests_level w way ≡ true) × (is_behind p w ≡ true) }
    ensures all_fed { (p : Plain) → IsReached p → (name : List ℕ) (w : Live) (way : Way) → live_at p name ≡ Some w
        → w.way ≡ Some way → (at : ℕ) → tests_level w way ≡ true → Answers p (step name at) done
        → (shard : ℕ) (lane : Lane) → lane_at w shard ≡ Some lane → lane.fed ≡ length (lane_writes p w lane) }
    ensures nothing_lost { (p : Plain) → IsReached p → (name : List ℕ) (w : Live) (way : Way) → live_at p name ≡ Some w
        → w.way ≡ Some way → (at : ℕ) → tests_level w way ≡ true → Answers p (step name at) done → (table : List ℕ)
        → moves w table ≡ true → (key : ℕ) → other_row p w table key ≡ client_row p (owner w) table key }
{}

/// In each state that a run reaches, on a way that changes writes: from the catch-up to the refresh of the new owner's
/// primary, and so where the journal is next, the writes that were fed are all that were acknowledged, and at the journal the
/// side that becomes the owner has every row of the one that was.
pub fn all_writes_are_fed_at_the_journal()
    ensures between { (p : Plain) → IsReached p → (name : List ℕ) (w : Live) (way : Way) → live_at p name ≡ Some w
        → w.way ≡ Some way → changes_primary way ≡ true → stands_done way catch_up ≡ true
        → (shard : ℕ) (lane : Lane) → lane_at w shard ≡ Some lane
        → stands_done_at way refresh_target lane.shard ≡ false → lane.fed ≡ length (lane_writes p w lane) }
    ensures journal { (p : Plain) → IsReached p → (name : List ℕ) (w : Live) (way : Way) → live_at p name ≡ Some w
        → w.way ≡ Some way → next_step way ≡ write_journal
        → (shard : ℕ) (lane : Lane) → lane_at w shard ≡ Some lane → lane.fed ≡ length (lane_writes p w lane) }
    ensures rows { (p : Plain) → IsReached p → (name : List ℕ) (w : Live) (way : Way) → live_at p name ≡ Some w
        → w.way ≡ Some way → next_step way ≡ write_journal → (table : List ℕ)
        → moves w table ≡ true → (key : ℕ) → other_row p w table key ≡ client_row p (owner w) table key }
{}
