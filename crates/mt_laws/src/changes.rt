//! Laws on what an event changes.
ghost use Rattle.std.specs.Prelude.{◌≡◌, ℕ, List, map, Some, false, is_some};
ghost use Rattle.mt_laws.specs.Changes.{BeginsWay, ChangesLives, ChangesLogs, ChangesNumbers, ChangesTopology, ChangesWay, ChangesWrites, HasSides, IsAdvance, IsOf, IsOfRows, IsStep, MovesStream, OnlyTells, fed_and_copied};
ghost use Rattle.mt_laws.specs.WayBack.{IsReached, in_part};
ghost use Rattle.mt_model.specs.declared.entries.EntryKey.{EntryKey};
ghost use Rattle.mt_plain.specs.Events.{Event, Answer};
ghost use Rattle.mt_plain.specs.Next.{next};
ghost use Rattle.mt_plain.specs.Plain.{Live, Plain, live_at};
ghost use Rattle.mt_plain.specs.Serve.{served_entry};

/// Only the events that are named change a thing, whatever their answer: by hand and by Complete the topology as if no
/// workflow were live, by a write the acknowledged writes, by writes and advances the logs, by a begin the number of ways,
/// by a step the journal. Read and Show change nothing; and no event changes the watchers.
pub fn only_named_events_change_the_state()
    ensures topology { (p : Plain) (event : Event) (answer : Answer) → ¬ (ChangesTopology event)
        → (next p event answer).topology ≡ p.topology }
    ensures numbers { (p : Plain) (event : Event) (answer : Answer) → ¬ (ChangesNumbers event)
        → (next p event answer).numbers ≡ p.numbers }
    ensures made { (p : Plain) (event : Event) (answer : Answer) → ¬ (ChangesNumbers event)
        → (next p event answer).made ≡ p.made }
    ensures writes { (p : Plain) (event : Event) (answer : Answer) → ¬ (ChangesWrites event)
        → (next p event answer).writes ≡ p.writes }
    ensures logs { (p : Plain) (event : Event) (answer : Answer) → ¬ (ChangesLogs event)
        → (next p event answer).log ≡ p.log }
    ensures ways { (p : Plain) (event : Event) (answer : Answer) → ¬ (BeginsWay event)
        → (next p event answer).ways ≡ p.ways }
    ensures journal { (p : Plain) (event : Event) (answer : Answer) → ¬ (IsStep event)
        → (next p event answer).journal ≡ p.journal }
    ensures scopes { (p : Plain) (event : Event) (answer : Answer) → (next p event answer).scopes ≡ p.scopes }
    ensures told { (p : Plain) (event : Event) (answer : Answer) → OnlyTells event → next p event answer ≡ p }
{}

/// What only named events change of a live workflow: Create, Cancel and Complete alone change which are live, a step alone what is switched, a
/// begin, a step and an undo alone the way, an advance alone what is fed and copied, an advance and a step alone the
/// positions of its streams. Its sides and tables stay, and an event on another workflow leaves it as it is.
pub fn only_named_events_change_a_workflow()
    ensures live { (p : Plain) (event : Event) (answer : Answer) (name : List ℕ) → ¬ (ChangesLives event)
        → is_some (live_at (next p event answer) name) ≡ is_some (live_at p name) }
    ensures elsewhere { (p : Plain) (event : Event) (answer : Answer) (name : List ℕ) → ¬ (IsOf name event)
        → live_at (next p event answer) name ≡ live_at p name }
    ensures sides { (p : Plain) (event : Event) (answer : Answer) (name : List ℕ) (w v : Live)
        → live_at p name ≡ Some w → live_at (next p event answer) name ≡ Some v → HasSides w v }
    ensures switched { (p : Plain) (event : Event) (answer : Answer) (name : List ℕ) (w v : Live)
        → live_at p name ≡ Some w → live_at (next p event answer) name ≡ Some v → ¬ (IsStep event)
        → v.switched ≡ w.switched }
    ensures way { (p : Plain) (event : Event) (answer : Answer) (name : List ℕ) (w v : Live)
        → live_at p name ≡ Some w → live_at (next p event answer) name ≡ Some v → ¬ (ChangesWay event)
        → v.way ≡ w.way }
    ensures lanes { (p : Plain) (event : Event) (answer : Answer) (name : List ℕ) (w v : Live)
        → live_at p name ≡ Some w → live_at (next p event answer) name ≡ Some v → ¬ (MovesStream event)
        → v.lanes ≡ w.lanes }
    ensures counts { (p : Plain) (event : Event) (answer : Answer) (name : List ℕ) (w v : Live)
        → live_at p name ≡ Some w → live_at (next p event answer) name ≡ Some v → ¬ (IsAdvance event)
        → map fed_and_copied v.lanes ≡ map fed_and_copied w.lanes }
{}

/// Writes, reads, advances and Show change no entry of the topology that is served, whatever workflows are live.
pub fn rows_and_streams_change_no_entry()
    ensures { (p : Plain) (event : Event) (answer : Answer) → IsOfRows event → (key : EntryKey)
        → served_entry (next p event answer) key ≡ served_entry p key }
{}

/// A begin, a step and an undo change no entry outside of the part of their workflow, in each state that a run reaches.
pub fn traffic_commands_change_their_own_part_alone()
    ensures { (p : Plain) (event : Event) (answer : Answer) (name : List ℕ) → IsReached p → ChangesWay event
        → IsOf name event → (key : EntryKey) → in_part p name key ≡ false
        → served_entry (next p event answer) key ≡ served_entry p key }
{}
