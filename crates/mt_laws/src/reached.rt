//! Laws on the states that runs reach: on live workflows, their tables and their ways.
ghost use Rattle.std.specs.Prelude.{◌≡◌, ◌≢◌, ℕ, [], ◌∷◌, false, true, All, List, Some, map};
ghost use Rattle.std.specs.List.{IsDistinct, range_with_len};
ghost use Rattle.mt_laws.specs.Advances.{IsAfterAdvance};
ghost use Rattle.mt_laws.specs.Reached.{HandsOver, IsIdle, IsInPlace, IsOnCourse};
ghost use Rattle.mt_laws.specs.WayBack.{IsReached};
ghost use Rattle.mt_model.specs.declared.entries.EntryKey.{EntryKey};
ghost use Rattle.mt_model.specs.declared.entries.Scope.{Scope};
ghost use Rattle.mt_model.specs.Topology.{is_denied};
ghost use Rattle.mt_names.specs.Names.{same_text};
ghost use Rattle.mt_names.specs.Shards.{shard_count, shard_of};
ghost use Rattle.mt_plain.specs.Answers.{Answers, Run, after};
ghost use Rattle.mt_plain.specs.Events.{Event, advance, Answer, advanced, StreamName, Way};
ghost use Rattle.mt_plain.specs.Next.{next};
ghost use Rattle.mt_plain.specs.Plain.{Live, Plain, among, changes_primary, cuts_of, each_once, has_part, live_at, mover, moves, opening, part_owner, Lane, lane_at, lane_of, shard_at};
ghost use Rattle.mt_plain.specs.Slots.{running_at, slot_of};

/// The opening is reached; so is the state after each event with an answer that it may get, and the state after a run.
pub fn each_next_state_is_reached()
    ensures opening { (scopes : List Scope) → IsReached (opening scopes) }
    ensures next { (p : Plain) → IsReached p → (event : Event) (answer : Answer) → Answers p event answer
        → IsReached (next p event answer) }
    ensures run { (p : Plain) → IsReached p → (events : List Event) (answers : List Answer) → Run p events answers
        → IsReached (after p events answers) }
{}

/// Names as a set, as Create takes its tables: no name stands twice, the names are the same, and names of which none stands
/// twice are left as they are.
pub fn names_as_a_set_have_each_name_once()
    ensures distinct { (names : List (List ℕ)) → IsDistinct same_text (each_once names) }
    ensures members { (names : List (List ℕ)) (name : List ℕ) → among (each_once names) name ≡ among names name }
    ensures stays { (names : List (List ℕ)) → IsDistinct same_text names → each_once names ≡ names }
{}

/// In each state that a run reaches, as if no workflow were live: a live workflow has two keyspaces as its sides, names no
/// table twice, and finds each of its tables at the source and none at the target; and nothing is denied anywhere.
pub fn live_workflows_stand_in_place()
    ensures placed { (p : Plain) → IsReached p → (name : List ℕ) (w : Live) → live_at p name ≡ Some w
        → IsInPlace p.topology w }
    ensures allowed { (p : Plain) → IsReached p → (keyspace table : List ℕ)
        → is_denied p.topology.keyspaces keyspace table ≡ false }
{}

/// In each state that a run reaches, an open way has a step left, and the switched types follow its journal; where it
/// changes primary, the old owner hands the tables over to the new one with the journal.
pub fn ways_keep_their_course()
    ensures course { (p : Plain) → IsReached p → (name : List ℕ) (w : Live) → live_at p name ≡ Some w → (way : Way)
        → w.way ≡ Some way → IsOnCourse w way }
    ensures writes { (p : Plain) → IsReached p → (name : List ℕ) (w : Live) → live_at p name ≡ Some w → (way : Way)
        → w.way ≡ Some way → changes_primary way ≡ true → HandsOver w way }
{}

/// In each state that a run reaches, each live workflow is found by its name, by each entry of its part and by each of its
/// tables; and what is found so is live under its own name.
pub fn a_live_workflow_is_found_by_its_part()
    ensures listed { (p : Plain) → IsReached p → All (λ w. live_at p w.name ≡ Some w) p.lives }
    ensures named { (p : Plain) (name : List ℕ) (w : Live) → live_at p name ≡ Some w → w.name ≡ name }
    ensures owner { (p : Plain) → IsReached p → (name : List ℕ) (w : Live) → live_at p name ≡ Some w → (key : EntryKey)
        → has_part w key ≡ true → part_owner p key ≡ Some w }
    ensures mover { (p : Plain) → IsReached p → (name : List ℕ) (w : Live) → live_at p name ≡ Some w → (table : List ℕ)
        → moves w table ≡ true → mover p table ≡ Some w }
    ensures owner_is_live { (p : Plain) → IsReached p → (key : EntryKey) (w : Live) → part_owner p key ≡ Some w
        → (has_part w key ≡ true) × (live_at p w.name ≡ Some w) }
    ensures mover_is_live { (p : Plain) → IsReached p → (table : List ℕ) (w : Live) → mover p table ≡ Some w
        → (moves w table ≡ true) × (live_at p w.name ≡ Some w) }
{}

/// In each state that a run reaches, while one stream of a workflow runs the other is not in use.
pub fn while_a_stream_runs_the_other_is_idle()
    ensures { (p : Plain) → IsReached p → (name : List ℕ) (w : Live) → live_at p name ≡ Some w
        → (lane : Lane) (stream other : StreamName) → stream ≢ other → (at : ℕ) → running_at (slot_of w lane stream) ≡ Some at
        → IsIdle w lane other }
{}

/// An advance, whatever its counts, changes how far its own workflow has read and copied, and the log of the side that its
/// stream writes, and nothing else.
pub fn an_advance_writes_one_log()
    ensures { (p : Plain) (workflow : List ℕ) (w : Live) → live_at p workflow ≡ Some w → (stream : StreamName)
        (shard at at_most events rows : ℕ) (lane : Lane) → lane_at w shard ≡ Some lane
        → IsAfterAdvance p (next p (advance workflow stream shard at at_most) (advanced events rows)) workflow w lane stream shard at at_most events rows }
{}

/// In each state that a run reaches a live workflow knows the shards of its target, and has a lane for each of them, by their
/// numbers; its source has one shard. So a key stands at the source in its first shard, and at the target in that of its lane.
/// Where the target has one shard too, there is one lane.
pub fn a_live_workflow_knows_its_shards()
    ensures cuts { (p : Plain) → IsReached p → (name : List ℕ) (w : Live) → live_at p name ≡ Some w → w.cuts ≡ cuts_of p w.target }
    ensures source_cuts { (p : Plain) → IsReached p → (name : List ℕ) (w : Live) → live_at p name ≡ Some w → cuts_of p w.source ≡ [] }
    ensures source { (p : Plain) → IsReached p → (name : List ℕ) (w : Live) → live_at p name ≡ Some w → (key : ℕ) → shard_at p w.source key ≡ 0 }
    ensures target { (p : Plain) → IsReached p → (name : List ℕ) (w : Live) → live_at p name ≡ Some w → (key : ℕ) → shard_at p w.target key ≡ shard_of w.cuts key }
    ensures lanes { (p : Plain) → IsReached p → (name : List ℕ) (w : Live) → live_at p name ≡ Some w → (key : ℕ) → (lane : Lane) × (lane_of w key ≡ Some lane) }
    ensures numbers { (p : Plain) → IsReached p → (name : List ℕ) (w : Live) → live_at p name ≡ Some w
        → map (λ lane. lane.shard) w.lanes ≡ range_with_len 0 (shard_count w.cuts) }
    ensures one_lane { (p : Plain) → IsReached p → (name : List ℕ) (w : Live) → live_at p name ≡ Some w → w.cuts ≡ []
        → (lane : Lane) × (w.lanes ≡ lane ∷ []) × (lane.shard ≡ 0) }
{}
