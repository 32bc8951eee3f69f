//! Laws on what begins, steps, undos and Complete are answered.
ghost use Rattle.std.specs.Prelude.{◌≡◌, ⊤, ℕ, true, List, Ok, Err};
ghost use Rattle.mt_model.specs.declared.entries.Scope.{Scope};
ghost use Rattle.mt_model.specs.declared.entries.Scope.TheVariants as scope;
ghost use Rattle.mt_names.specs.declared.types.TypeSet.{TypeSet};
ghost use Rattle.mt_plain.specs.Answers.{Answers};
ghost use Rattle.mt_plain.specs.Events.{Answer, Refusal, begin_reverse, begin_switch, complete, done, refused, step, undo};
ghost use Rattle.mt_plain.specs.Plain.{Plain};
ghost use Rattle.mt_stands.specs.Switching.{BeginsReverse, BeginsSwitch, Completes, StepsWorkflow, UndoesWorkflow};
ghost use Rattle.mt_stands.specs.Ways.{CoreState, CoreStands};
ghost use Rattle.mt_watch.specs.Scopes.{has_scope};

use mt_laws::{
    a_live_workflow_is_found_by_its_part, a_live_workflow_knows_its_shards, ways_keep_their_course,
};
use mt_stands::{a_lane_holds_its_keys, a_stream_is_level_where_all_is_fed};
use mt_watch::Asks;

/// A step is answered as the definitions allow: done, or refused by a test, by a watcher, or if no memory is left. What is done
/// would be with more watchers too.
pub fn a_step_answers_as_the_definitions_allow<W: Asks>(watchers: &W)
    ensures answers { (p : Plain) (old new : CoreState) → CoreStands p (W.scopes watchers.now) old → (workflow : List ℕ) (at : ℕ) (answer : Answer)
        → StepsWorkflow old (W.scopes watchers.now) (W.may_answer watchers.now) workflow at answer new → Answers p (step workflow at) answer }
    ensures wider { (p : Plain) (scopes : List Scope) (old new : CoreState) → CoreStands p scopes old
        → ((keyspace : List ℕ) → has_scope (W.scopes watchers.now) (scope.Primary keyspace) ≡ true → has_scope scopes (scope.Primary keyspace) ≡ true)
        → (workflow : List ℕ) (at : ℕ)
        → StepsWorkflow old (W.scopes watchers.now) (W.may_answer watchers.now) workflow at done new → Answers p (step workflow at) done }
    ensures unchanged { (old new : CoreState) (workflow : List ℕ) (at : ℕ) (r : Refusal) (p : Plain) (scopes : List Scope) → CoreStands p scopes old
        → StepsWorkflow old (W.scopes watchers.now) (W.may_answer watchers.now) workflow at (refused r) new → new ≡ old }
{
    a_live_workflow_is_found_by_its_part();
    a_live_workflow_knows_its_shards();
    ways_keep_their_course();
    a_lane_holds_its_keys();
    a_stream_is_level_where_all_is_fed();
}

/// An undo is answered as the definitions answer it.
pub fn an_undo_answers_as_the_definitions_allow()
    ensures answers { (p : Plain) (scopes : List Scope) (old new : CoreState) → CoreStands p scopes old → (workflow : List ℕ) (at : ℕ) (answer : Answer)
        → UndoesWorkflow old workflow at answer new → Answers p (undo workflow at) answer }
    ensures unchanged { (old new : CoreState) (workflow : List ℕ) (at : ℕ) (r : Refusal)
        → UndoesWorkflow old workflow at (refused r) new → new ≡ old }
{}

/// A begin of a way, forward or back, is answered as the definitions allow.
pub fn a_begin_answers_as_the_definitions_allow()
    ensures switch { (p : Plain) (scopes : List Scope) (old new : CoreState) → CoreStands p scopes old → (workflow : List ℕ) (types : TypeSet) (answer : Answer)
        → BeginsSwitch old workflow types answer new → Answers p (begin_switch workflow types) answer }
    ensures reverse { (p : Plain) (scopes : List Scope) (old new : CoreState) → CoreStands p scopes old → (workflow : List ℕ) (types : TypeSet) (answer : Answer)
        → BeginsReverse old workflow types answer new → Answers p (begin_reverse workflow types) answer }
{}

/// Complete is answered as the definitions answer it.
pub fn a_complete_answers_as_the_definitions_allow()
    ensures { (p : Plain) (scopes : List Scope) (old new : CoreState) → CoreStands p scopes old → (workflow : List ℕ) (answer : Answer)
        → Completes old workflow answer new → Answers p (complete workflow) answer }
{}
