//! Laws on streams.
ghost use Rattle.std.specs.Prelude.{◌≡◌, ◌≢◌, ℕ, ◌≤◌, List, None, Some};
ghost use Rattle.mt_laws.specs.Copies.{Undoes, frozen_at, runs_at};
ghost use Rattle.mt_laws.specs.InUse.{StreamGoesOn};
ghost use Rattle.mt_laws.specs.WayBack.{IsReached};
ghost use Rattle.mt_plain.specs.Answers.{Answers};
ghost use Rattle.mt_plain.specs.Events.{Event, Answer, StreamName, forward, back, frozen, Slot};
ghost use Rattle.mt_plain.specs.Next.{next};
ghost use Rattle.mt_plain.specs.Plain.{Live, Plain, live_at, owner, Lane, lane_at};
ghost use Rattle.mt_plain.specs.Slots.{log_length, read_side, running_at, slot_of, read_shard};

/// In each state that a run reaches, where no way is open: with the source as owner the forward stream runs and there is
/// none back; with the target as owner the forward stream is frozen, and the back stream runs.
pub fn at_rest_the_stream_that_reads_the_owner_runs()
    ensures source { (p : Plain) → IsReached p → (name : List ℕ) (w : Live) → live_at p name ≡ Some w → w.way ≡ None
        → owner w ≡ w.source → (lane : Lane) → (slot_of w lane forward ≡ runs_at lane.forward_at) × (slot_of w lane back ≡ None) }
    ensures target { (p : Plain) → IsReached p → (name : List ℕ) (w : Live) → live_at p name ≡ Some w → w.way ≡ None
        → owner w ≡ w.target → (lane : Lane) → (slot_of w lane forward ≡ frozen_at lane.forward_at) × (slot_of w lane back ≡ runs_at lane.back_at) }
{}

/// In each state that a run reaches, whatever steps stand done: a stream that runs reads the log of the owner, so that the
/// two of a workflow never run at once.
pub fn a_stream_that_runs_reads_the_owner()
    ensures owner { (p : Plain) → IsReached p → (name : List ℕ) (w : Live) → live_at p name ≡ Some w
        → (lane : Lane) (stream : StreamName) (at : ℕ) → running_at (slot_of w lane stream) ≡ Some at → read_side w stream ≡ owner w }
    ensures never_both { (p : Plain) → IsReached p → (name : List ℕ) (w : Live) → live_at p name ≡ Some w → (one other : Lane) (a b : ℕ)
        → running_at (slot_of w one forward) ≡ Some a → running_at (slot_of w other back) ≡ Some b → ⊥ }
{}

/// In each state that a run reaches a stream has read no more than its log has; and while a workflow is live no event but
/// an undo, which may drop the stream that the way has made, lets the position of a stream fall.
pub fn positions_never_fall()
    ensures within { (p : Plain) → IsReached p → (name : List ℕ) (w : Live) → live_at p name ≡ Some w
        → (shard : ℕ) (lane : Lane) → lane_at w shard ≡ Some lane
        → (stream : StreamName) (s : Slot) → slot_of w lane stream ≡ Some s
        → s.position ≤ log_length p (read_side w stream) (read_shard lane stream) }
    ensures never_fall { (p : Plain) → IsReached p → (event : Event) (answer : Answer) → Answers p event answer
        → ¬ (Undoes event) → (name : List ℕ) (w v : Live) → live_at p name ≡ Some w
        → live_at (next p event answer) name ≡ Some v → (shard : ℕ) (lane later : Lane) → lane_at w shard ≡ Some lane
        → lane_at v shard ≡ Some later → (stream : StreamName) (a b : Slot)
        → slot_of w lane stream ≡ Some a → slot_of v later stream ≡ Some b → a.position ≤ b.position }
{}

/// In each state that an event leads to, a stream of a lane that isn't frozen was there before, not frozen, reading the same side
/// and no further; or it begins at the end of its log, or later. So no event lets a stream in use read again what lies below its
/// position, and where a frozen stream stood, one in use is a new one, which begins behind all that its log has. Upper layers
/// need this to purge logs: what lies below the positions of all streams in use that read a log is never read again.
pub fn what_is_in_use_goes_on()
    ensures { (p : Plain) → IsReached p → (event : Event) (answer : Answer) → Answers p event answer
        → (name : List ℕ) (v : Live) → live_at (next p event answer) name ≡ Some v → (shard : ℕ) (lane : Lane)
        → lane_at v shard ≡ Some lane → (stream : StreamName) (b : Slot) → slot_of v lane stream ≡ Some b → b.state ≢ frozen
        → StreamGoesOn p name shard v lane stream b }
{}
