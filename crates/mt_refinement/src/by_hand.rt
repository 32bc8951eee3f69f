//! Laws on what is made by hand.
ghost use Rattle.std.specs.Prelude.{ℕ, List, Option};
ghost use Rattle.mt_model.specs.declared.entries.Scope.{Scope};
ghost use Rattle.mt_names.specs.declared.keys.RuleKey.{RuleKey};
ghost use Rattle.mt_names.specs.declared.keys.RuleTarget.{RuleTarget};
ghost use Rattle.mt_names.specs.Shards.{AreCuts, Cuts};
ghost use Rattle.mt_plain.specs.Events.{Answer, add_keyspace, add_table, edit_rule};
ghost use Rattle.mt_stands.specs.ByHand.{AddsKeyspace, AddsTable, EditsRule};
ghost use Rattle.mt_stands.specs.Base.{BaseState};
ghost use Rattle.mt_stands.specs.Stands.{Steps};

use mt_laws::{
    answers_are_determined, each_next_state_is_reached, no_limit_is_passed,
    only_named_events_change_the_state, only_what_stands_has_a_place, parts_are_apart,
};
use mt_model::what_is_made_by_hand;
use mt_stands::{
    a_new_table_keeps_rows_and_logs, edits_by_hand_are_made_in_the_topology,
    events_that_change_no_row_keep_rows_and_logs, places_are_as_many_as_the_definitions_count,
    tables_are_as_many_as_the_definitions_count, tables_made_and_dropped_leave_the_others,
    what_is_kept_stays_what_stood,
};

/// A keyspace that is made by hand, with bounds between its shards that are written as they should, leads from each state that a
/// base stands for to the next one.
pub fn a_keyspace_steps()
    ensures { (scopes : List Scope) (old new : BaseState) (name : List ℕ) (cuts : Cuts) (answer : Answer) → AreCuts cuts
        → AddsKeyspace old name cuts answer new → Steps scopes old (add_keyspace name cuts) answer new }
{
    answers_are_determined();
    each_next_state_is_reached();
    no_limit_is_passed();
    only_named_events_change_the_state();
    what_is_kept_stays_what_stood();
    edits_by_hand_are_made_in_the_topology();
    places_are_as_many_as_the_definitions_count();
    events_that_change_no_row_keep_rows_and_logs();
}

/// So does a table.
pub fn a_table_steps()
    ensures { (scopes : List Scope) (old new : BaseState) (keyspace table : List ℕ) (answer : Answer)
        → AddsTable old keyspace table answer new → Steps scopes old (add_table keyspace table) answer new }
{
    answers_are_determined();
    each_next_state_is_reached();
    no_limit_is_passed();
    only_named_events_change_the_state();
    only_what_stands_has_a_place();
    what_is_made_by_hand();
    what_is_kept_stays_what_stood();
    edits_by_hand_are_made_in_the_topology();
    tables_are_as_many_as_the_definitions_count();
    a_new_table_keeps_rows_and_logs();
    tables_made_and_dropped_leave_the_others();
}

/// So does a rule, which is refused in the part of a live workflow.
pub fn a_rule_steps()
    ensures { (scopes : List Scope) (old new : BaseState) (key : RuleKey) (target : Option RuleTarget) (answer : Answer)
        → EditsRule old key target answer new → Steps scopes old (edit_rule key target) answer new }
{
    answers_are_determined();
    each_next_state_is_reached();
    no_limit_is_passed();
    only_named_events_change_the_state();
    parts_are_apart();
    what_is_kept_stays_what_stood();
    edits_by_hand_are_made_in_the_topology();
    places_are_as_many_as_the_definitions_count();
    events_that_change_no_row_keep_rows_and_logs();
}
