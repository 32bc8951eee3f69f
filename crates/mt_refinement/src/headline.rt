//! The headline, said of bases: what Cancel gives back, what reads answer, and where a moved table can be written.
ghost use Rattle.std.specs.Prelude.{◌≡◌, ◌↔◌, ◌<◌, ℕ, false, true, List, None, Some, option_map};
ghost use Rattle.mt_laws.specs.Acknowledged.{acknowledged, row_by};
ghost use Rattle.mt_laws.specs.WayBack.{IsBegin, NoWayBetween, SinceCreate, WayFrom, in_part};
ghost use Rattle.mt_model.specs.declared.entries.EntryKey.{EntryKey};
ghost use Rattle.mt_model.specs.declared.entries.Scope.{Scope};
ghost use Rattle.mt_model.specs.Rows.{Row};
ghost use Rattle.mt_model.specs.Topology.{value_of};
ghost use Rattle.mt_names.specs.declared.types.TabletType.TheVariants.{Primary};
ghost use Rattle.mt_names.specs.declared.types.TypeSet.{TypeSet};
ghost use Rattle.mt_plain.specs.Answers.{Answers, Run, after};
ghost use Rattle.mt_plain.specs.Drive.{way_of};
ghost use Rattle.mt_plain.specs.Events.{Event, begin_reverse, begin_switch, cancel, step, undo, Answer, done, row};
ghost use Rattle.mt_plain.specs.Next.{next};
ghost use Rattle.mt_plain.specs.Plain.{Plain, among, changed_types, is_side, opening, owner};
ghost use Rattle.mt_plain.specs.Writes.{client_number, client_row};
ghost use Rattle.mt_primary.specs.Primaries.{count_of};
ghost use Rattle.mt_stands.specs.ByHand.{ReadsRow};
ghost use Rattle.mt_stands.specs.Base.{BaseState, workflow_at};
ghost use Rattle.mt_stands.specs.Stands.{IsBase, StandsWith};
ghost use Rattle.mt_workflow.specs.Workflows.{WorkflowState, live_of};
ghost use Rattle.mt_refinement.specs.Writable.{TakesWrites, TakesWritesAt};

use crate::a_read_steps;
use mt_laws::{
    a_live_workflow_is_found_by_its_part, a_moved_table_is_never_writable_in_two,
    a_reversal_gives_the_part_back, an_abandoned_way_gives_the_part_back,
    cancel_gives_the_part_back, each_primary_read_answers_from_the_acknowledged_writes,
    live_workflows_stand_in_place,
};

/// After a Cancel that is taken the topology says of each entry of the workflow's part what it said before the Create that
/// made the workflow, whatever events came between, and of each other entry what it said just before the Cancel.
pub fn cancel_gives_back_what_create_found()
    ensures part { (scopes : List Scope) (before last now : BaseState) (name source target : List ℕ) (tables : List (List ℕ)) (p q : Plain)
        → StandsWith p scopes before → SinceCreate name source target tables p q → StandsWith q scopes last
        → Answers q (cancel name) done → StandsWith (next q (cancel name) done) scopes now → (key : EntryKey)
        → in_part q name key ≡ true → value_of now.topology key ≡ value_of before.topology key }
    ensures others { (scopes : List Scope) (before last now : BaseState) (name source target : List ℕ) (tables : List (List ℕ)) (p q : Plain)
        → StandsWith p scopes before → SinceCreate name source target tables p q → StandsWith q scopes last
        → Answers q (cancel name) done → StandsWith (next q (cancel name) done) scopes now → (key : EntryKey)
        → in_part q name key ≡ false → value_of now.topology key ≡ value_of last.topology key }
{
    cancel_gives_the_part_back();
}

/// After an undo that closes a way, forward or back, the topology says of each entry of the workflow's part what it said before
/// the begin of that way, whatever events came between.
pub fn an_abandoned_way_gives_back_what_its_begin_found()
    ensures { (scopes : List Scope) (before now : BaseState) (name : List ℕ) (begin : Event) (at : ℕ) (p q : Plain)
        → StandsWith p scopes before → IsBegin name begin → WayFrom name begin (undo name at) p q → StandsWith q scopes now
        → (key : EntryKey) → in_part p name key ≡ true → value_of now.topology key ≡ value_of before.topology key }
{
    an_abandoned_way_gives_the_part_back();
}

/// After a reversal of just the types that a switch changed the topology says of each entry of the workflow's part what it said
/// before the switch, whatever events came between, as long as no other traffic command of that workflow came to its end.
pub fn a_reversal_gives_back_what_its_switch_found()
    ensures { (scopes : List Scope) (before now : BaseState) (name : List ℕ) (types back_types : TypeSet) (at at_back : ℕ) (p q r s : Plain)
        → StandsWith p scopes before → WayFrom name (begin_switch name types) (step name at) p q → NoWayBetween name q r
        → WayFrom name (begin_reverse name back_types) (step name at_back) r s
        → option_map changed_types (way_of (next p (begin_switch name types) done) name)
        ≡ option_map changed_types (way_of (next r (begin_reverse name back_types) done) name)
        → StandsWith s scopes now → (key : EntryKey) → in_part p name key ≡ true → value_of now.topology key ≡ value_of before.topology key }
{
    a_reversal_gives_the_part_back();
}

/// A row that a base answers to a read of type primary is, after any run, what the operations acknowledged on it make, each
/// applied once, in their order, in either keyspace of a move, whatever steps of a switch or of a reversal stand done.
pub fn reads_of_a_base_answer_the_acknowledged_writes()
    ensures each_once { (scopes : List Scope) (events : List Event) (answers : List Answer) (base : BaseState)
        → Run (opening scopes) events answers → StandsWith (after (opening scopes) events answers) scopes base
        → (keyspace table : List ℕ) (key : ℕ) (r : Row) → ReadsRow base keyspace table key Primary (row r) base
        → r ≡ row_by (acknowledged (opening scopes) (client_number (after (opening scopes) events answers) keyspace table) key events answers) }
    ensures as_it_is { (scopes : List Scope) (p : Plain) (base : BaseState) → StandsWith p scopes base
        → (keyspace table : List ℕ) (key : ℕ) (r : Row) → ReadsRow base keyspace table key Primary (row r) base
        → r ≡ client_row p keyspace table key }
{
    a_read_steps();
    each_primary_read_answers_from_the_acknowledged_writes();
}

/// The two keyspaces of a live workflow never both have a primary that takes writes to a table that it moves, whatever steps
/// stand done; and where no way is open, each primary of the owner takes them, and none of the other keyspace does.
pub fn a_moved_table_of_a_base_is_never_writable_in_two()
    ensures stands { (scopes : List Scope) (p : Plain) (base : BaseState) → StandsWith p scopes base
        → (name : List ℕ) (w : WorkflowState) → workflow_at base.workflows name ≡ Some w → (table : List ℕ)
        → among w.tables table ≡ true → TakesWrites base w.source table → TakesWrites base w.target table → ⊥ }
    ensures each_base { (base : BaseState) → IsBase base
        → (name : List ℕ) (w : WorkflowState) → workflow_at base.workflows name ≡ Some w → (table : List ℕ)
        → among w.tables table ≡ true → TakesWrites base w.source table → TakesWrites base w.target table → ⊥ }
    ensures at_rest { (base : BaseState) → IsBase base
        → (name : List ℕ) (w : WorkflowState) → workflow_at base.workflows name ≡ Some w → w.way ≡ None → (table : List ℕ)
        → among w.tables table ≡ true → (keyspace : List ℕ) → is_side (live_of w) keyspace ≡ true
        → TakesWrites base keyspace table ↔ (keyspace ≡ owner (live_of w)) }
    ensures each_shard { (base : BaseState) → IsBase base
        → (name : List ℕ) (w : WorkflowState) → workflow_at base.workflows name ≡ Some w → w.way ≡ None → (table : List ℕ)
        → among w.tables table ≡ true → (shard : ℕ) → shard < count_of base.primaries (owner (live_of w)) → TakesWritesAt base (owner (live_of w)) shard table }
{
    a_live_workflow_is_found_by_its_part();
    live_workflows_stand_in_place();
    a_moved_table_is_never_writable_in_two();
}
