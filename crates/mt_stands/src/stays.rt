//! Laws on events that change no row.
ghost use Rattle.std.specs.Prelude.{◌≡◌, ℕ, List};
ghost use Rattle.mt_laws.specs.Changes.{OnlyTells};
ghost use Rattle.mt_laws.specs.WayBack.{IsReached};
ghost use Rattle.mt_names.specs.declared.keys.RuleKey.{RuleKey};
ghost use Rattle.mt_names.specs.declared.keys.RuleTarget.{RuleTarget};
ghost use Rattle.mt_names.specs.declared.types.TypeSet.{TypeSet};
ghost use Rattle.mt_names.specs.Shards.{Cuts};
ghost use Rattle.mt_plain.specs.Answers.{Answers};
ghost use Rattle.mt_plain.specs.Events.{Event, add_keyspace, edit_rule, begin_switch, begin_reverse, undo, Refusal, Answer, done, refused};
ghost use Rattle.mt_plain.specs.Next.{next};
ghost use Rattle.mt_plain.specs.Plain.{Plain};
ghost use Rattle.mt_stands.specs.Rows.{Primaries, RowsStand};
ghost use Rattle.std.specs.Prelude.{Option};

use mt_laws::{
    a_live_workflow_is_found_by_its_part, a_live_workflow_knows_its_shards,
    each_next_state_is_reached, each_table_has_a_number_of_its_own, live_workflows_stand_in_place,
    only_named_events_change_a_workflow, only_named_events_change_the_state,
    the_owner_alone_serves_the_primary, what_is_in_use_goes_on, what_was_fed_stays_fed,
};

/// What is refused, reads and Show, a rule by hand, a new keyspace, and the begins and undos of switches and reversals leave
/// primaries that stand for the rows and logs of the next state, with no change of theirs.
pub fn events_that_change_no_row_keep_rows_and_logs()
    ensures refused { (p : Plain) (at : Primaries) → RowsStand p at → (event : Event) (refusal : Refusal)
        → RowsStand (next p event (refused refusal)) at }
    ensures told { (p : Plain) (at : Primaries) → RowsStand p at → (event : Event) → OnlyTells event → (answer : Answer)
        → RowsStand (next p event answer) at }
    ensures rule { (p : Plain) → IsReached p → (at : Primaries) → RowsStand p at → (key : RuleKey) (target : Option RuleTarget)
        → Answers p (edit_rule key target) done → RowsStand (next p (edit_rule key target) done) at }
    ensures keyspace { (p : Plain) → IsReached p → (at : Primaries) → RowsStand p at → (keyspace : List ℕ) (cuts : Cuts)
        → Answers p (add_keyspace keyspace cuts) done → RowsStand (next p (add_keyspace keyspace cuts) done) at }
    ensures switch { (p : Plain) → IsReached p → (at : Primaries) → RowsStand p at → (name : List ℕ) (types : TypeSet)
        → Answers p (begin_switch name types) done → RowsStand (next p (begin_switch name types) done) at }
    ensures reverse { (p : Plain) → IsReached p → (at : Primaries) → RowsStand p at → (name : List ℕ) (types : TypeSet)
        → Answers p (begin_reverse name types) done → RowsStand (next p (begin_reverse name types) done) at }
    ensures undo { (p : Plain) → IsReached p → (at : Primaries) → RowsStand p at → (name : List ℕ) (step : ℕ)
        → Answers p (undo name step) done → RowsStand (next p (undo name step) done) at }
{
    a_live_workflow_is_found_by_its_part();
    a_live_workflow_knows_its_shards();
    live_workflows_stand_in_place();
    what_was_fed_stays_fed();
    what_is_in_use_goes_on();
    each_table_has_a_number_of_its_own();
    the_owner_alone_serves_the_primary();
    each_next_state_is_reached();
    only_named_events_change_the_state();
    only_named_events_change_a_workflow();
}
