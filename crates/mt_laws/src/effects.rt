//! Laws on what a step and an undo change.
ghost use Rattle.std.specs.Prelude.{◌≡◌, ℕ, ◌<◌, true, false, if◌then◌else◌, List, Some};
ghost use Rattle.mt_laws.specs.Changes.{HasSides};
ghost use Rattle.mt_laws.specs.Effects.{entry_stepped, entry_undone, list_stepped, list_undone, slot_stepped, slot_undone};
ghost use Rattle.mt_laws.specs.WayBack.{IsReached};
ghost use Rattle.mt_model.specs.declared.entries.EntryKey.{EntryKey};
ghost use Rattle.mt_model.specs.Topology.{TopologyState};
ghost use Rattle.mt_plain.specs.Answers.{Answers};
ghost use Rattle.mt_plain.specs.Events.{step, undo, done, StreamName, Way};
ghost use Rattle.mt_plain.specs.Next.{change_live, live_stepped, live_undone, next, lane_stepped};
ghost use Rattle.mt_plain.specs.Plain.{Live, Plain, behind_last, changes_primary, has_part, live_at, moves, next_step, stands_done, write_journal, Lane, before_way};
ghost use Rattle.mt_plain.specs.Refuse.{new_owner};
ghost use Rattle.mt_plain.specs.Serve.{refuses, refuses_by, served_by, served_entry};
ghost use Rattle.mt_plain.specs.Slots.{log_length, slot_before_way, slot_of};

/// What a step changes of its workflow, by one rule for all twelve numbers and both directions: the entries that change with this
/// step, and the own list of the shard whose refresh has this place, get the values of the types after the way, and all others stay.
pub fn a_step_changes_what_changes_with_its_number()
    ensures entries { (p : Plain) (w : Live) (way : Way) → w.way ≡ Some way → (u : TopologyState) (key : EntryKey)
        → served_by u (live_stepped p w way) key ≡ entry_stepped u w way key }
    ensures own_lists { (p : Plain) (w : Live) (way : Way) → w.way ≡ Some way → (keyspace : List ℕ) (shard : ℕ)
        → refuses_by (live_stepped p w way) keyspace shard ≡ list_stepped w way keyspace shard }
    ensures streams { (p : Plain) (w : Live) (way : Way) (name : StreamName) → w.way ≡ Some way
        → (changes_primary way ≡ true → way.before.primary ≡ way.back) → next_step way < behind_last way
        → (lane : Lane) → slot_of (live_stepped p w way) (lane_stepped p w way lane) name
        ≡ slot_stepped way name (log_length p (new_owner w) (if (before_way w).primary then 0 else lane.shard)) (slot_of w lane name) }
{}

/// What an undo changes of its workflow, before the journal: the entries that changed with the last step, and the own list of the
/// shard whose refresh has the place that is taken back, have the values of the types before the way again, and all others stay.
pub fn an_undo_changes_what_changed_with_the_last_step()
    ensures entries { (w : Live) (way : Way) → w.way ≡ Some way → w.switched ≡ way.before → (u : TopologyState) (key : EntryKey)
        → served_by u (live_undone w way) key ≡ entry_undone u w way key }
    ensures own_lists { (w : Live) (way : Way) → w.way ≡ Some way → w.switched ≡ way.before → (keyspace : List ℕ) (shard : ℕ)
        → refuses_by (live_undone w way) keyspace shard ≡ list_undone w way keyspace shard }
    ensures streams { (w : Live) (way : Way) (name : StreamName) → w.way ≡ Some way → w.switched ≡ way.before
        → (changes_primary way ≡ true → way.before.primary ≡ way.back) → next_step way < behind_last way
        → stands_done way write_journal ≡ false
        → (lane : Lane) → slot_of (live_undone w way) lane name ≡ slot_undone way name (slot_before_way w lane name) (slot_of w lane name) }
{}

/// A live workflow that changes, and keeps its name, its sides and its tables, changes what is served in its own part alone, and what the
/// primaries refuse of its own tables alone, in each state that a run reaches.
pub fn a_workflow_that_changes_changes_its_own_part()
    ensures entries { (p : Plain) → IsReached p → (name : List ℕ) (w : Live) → live_at p name ≡ Some w → (change : Live → Live)
        → ((v : Live) → HasSides v (change v)) → (key : EntryKey)
        → served_entry (change_live p name change) key ≡ (if has_part w key then served_by p.topology (change w) key else served_entry p key) }
    ensures own_lists { (p : Plain) → IsReached p → (name : List ℕ) (w : Live) → live_at p name ≡ Some w → (change : Live → Live)
        → ((v : Live) → HasSides v (change v)) → (keyspace : List ℕ) (shard : ℕ) (table : List ℕ)
        → refuses (change_live p name change) keyspace shard table ≡ (if moves w table then refuses_by (change w) keyspace shard else refuses p keyspace shard table) }
{}

/// So a step and an undo, in each state that a run reaches, change just the entries of their workflow's part, and the own lists on its tables,
/// that change with the step's number, and with its place.
pub fn steps_and_undos_change_the_state_by_their_numbers()
    ensures step { (p : Plain) → IsReached p → (name : List ℕ) (w : Live) (way : Way) → live_at p name ≡ Some w → w.way ≡ Some way
        → (at : ℕ) (key : EntryKey) → served_entry (next p (step name at) done) key
        ≡ (if has_part w key then entry_stepped p.topology w way key else served_entry p key) }
    ensures step_lists { (p : Plain) → IsReached p → (name : List ℕ) (w : Live) (way : Way) → live_at p name ≡ Some w → w.way ≡ Some way
        → (at : ℕ) (keyspace : List ℕ) (shard : ℕ) (table : List ℕ) → refuses (next p (step name at) done) keyspace shard table
        ≡ (if moves w table then list_stepped w way keyspace shard else refuses p keyspace shard table) }
    ensures undo { (p : Plain) → IsReached p → (name : List ℕ) (w : Live) (way : Way) → live_at p name ≡ Some w → w.way ≡ Some way
        → (at : ℕ) → Answers p (undo name at) done → (key : EntryKey) → served_entry (next p (undo name at) done) key
        ≡ (if has_part w key then entry_undone p.topology w way key else served_entry p key) }
    ensures undo_lists { (p : Plain) → IsReached p → (name : List ℕ) (w : Live) (way : Way) → live_at p name ≡ Some w → w.way ≡ Some way
        → (at : ℕ) → Answers p (undo name at) done → (keyspace : List ℕ) (shard : ℕ) (table : List ℕ) → refuses (next p (undo name at) done) keyspace shard table
        ≡ (if moves w table then list_undone w way keyspace shard else refuses p keyspace shard table) }
{}
