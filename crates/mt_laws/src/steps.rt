//! Laws on single steps and their undos.
ghost use Rattle.std.specs.Prelude.{◌≡◌, ◌≢◌, ℕ, suc, true, List, Some, codes, length, if◌then◌else◌};
ghost use Rattle.mt_laws.specs.Changes.{IsOf};
ghost use Rattle.mt_laws.specs.Steps.{StaysBeforeJournal, StepUndone, WritesNoJournal, stream_state, writes_journal};
ghost use Rattle.mt_laws.specs.WayBack.{IsBegin, IsReached, WayFrom, in_part};
ghost use Rattle.mt_model.specs.declared.entries.EntryKey.{EntryKey};
ghost use Rattle.mt_plain.specs.Answers.{Answers};
ghost use Rattle.mt_plain.specs.Events.{Event, step, undo, StreamName, Answer, done};
ghost use Rattle.mt_plain.specs.Next.{next};
ghost use Rattle.mt_plain.specs.Plain.{Live, Plain, live_at, moves};
ghost use Rattle.mt_plain.specs.Serve.{refuses, served_entry};

/// An undo takes back the step before it: each entry of the workflow's part is served as it was before that step, each
/// primary refuses of the workflow's tables what it refused then, and the workflow has the streams that it had, which run, are
/// stopped or are frozen as then. Between the two may come anything but a command of that workflow that is taken: calls
/// of clients, rules by hand, advances of streams, its own included, and commands of other workflows.
pub fn an_undo_takes_a_step_back()
    ensures served { (name : List ℕ) (at at_undo : ℕ) (p q : Plain) → IsReached p → StepUndone name at at_undo p q
        → (key : EntryKey) → in_part p name key ≡ true → served_entry q key ≡ served_entry p key }
    ensures refused { (name : List ℕ) (at at_undo : ℕ) (p q : Plain) → IsReached p → StepUndone name at at_undo p q
        → (w : Live) (keyspace : List ℕ) (shard : ℕ) (table : List ℕ) → live_at p name ≡ Some w → moves w table ≡ true
        → refuses q keyspace shard table ≡ refuses p keyspace shard table }
    ensures streams { (name : List ℕ) (at at_undo : ℕ) (p q : Plain) → IsReached p → StepUndone name at at_undo p q
        → (shard : ℕ) (stream : StreamName) → stream_state q name shard stream ≡ stream_state p name shard stream }
{}

/// What that law presupposes does happen: a step denies a table, and between it and its undo come a write to the table, an
/// advance that feeds it, a new table, and the Create of another workflow.
pub fn a_step_can_be_taken_back()
    ensures { (p : Plain) × (q : Plain) × (key : EntryKey) × (u : StepUndone (codes "w") 1 2 p q) × IsReached p
        × (length u.events ≡ 4) × (in_part p (codes "w") key ≡ true)
        × (served_entry (next p (step (codes "w") 1) done) key ≢ served_entry p key) }
{}

/// A way in either direction that was closed by an undo wrote no journal entry: none of its steps was the journal's, whatever
/// came between, and at no point did that step stand done. So the types that the workflow has switched are those from before
/// the way.
pub fn an_abandoned_way_writes_no_journal()
    ensures journal { (name : List ℕ) (begin : Event) (at : ℕ) (p q : Plain) → IsReached p → IsBegin name begin
        → (way : WayFrom name begin (undo name at) p q) → WritesNoJournal name (next p begin done) way.events way.answers }
    ensures before_it { (name : List ℕ) (begin : Event) (at : ℕ) (p q : Plain) → IsReached p → IsBegin name begin
        → (way : WayFrom name begin (undo name at) p q) → StaysBeforeJournal name (next p begin done) way.events way.answers }
    ensures switched { (name : List ℕ) (begin : Event) (at : ℕ) (p q : Plain) → IsReached p → IsBegin name begin
        → WayFrom name begin (undo name at) p q → (w v : Live) → live_at p name ≡ Some w → live_at q name ≡ Some v
        → v.switched ≡ w.switched }
{}

/// An event on a workflow adds one entry to the journal where it is the journal's step of that workflow, and none elsewhere.
pub fn the_journal_has_an_entry_for_each_such_step()
    ensures { (p : Plain) (name : List ℕ) (event : Event) (answer : Answer) → Answers p event answer → IsOf name event
        → (next p event answer).journal ≡ (if writes_journal name p event answer then suc p.journal else p.journal) }
{}
