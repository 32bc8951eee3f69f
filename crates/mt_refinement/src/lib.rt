//! Laws on the whole controller: what is true of every state, and that each event leads from each state of the definitions that it
//! stands for to the next one.
#![tactic(auto)]

mod advancing;
mod answers;
mod by_hand;
mod cancelling;
mod completing;
mod create_refusals;
mod creating;
mod denials;
mod events;
mod facts;
mod hand_rows;
mod headline;
mod numbers;
mod primaries;
mod purging;
mod purging_ways;
mod records;
mod rows;
mod shards;
mod showing;
mod staying;
mod stays;
mod streams;
mod tables;
mod telling;
mod way_workflows;
mod ways;
mod workflows;

pub use advancing::an_advance_steps;
pub use answers::{
    a_begin_answers_as_the_definitions_allow, a_complete_answers_as_the_definitions_allow,
    a_step_answers_as_the_definitions_allow, an_undo_answers_as_the_definitions_allow,
};
pub use by_hand::{a_keyspace_steps, a_rule_steps, a_table_steps};
pub use cancelling::a_cancel_steps;
pub use completing::what_complete_makes_stands_for_the_next_state;
pub use create_refusals::{
    a_create_is_refused_as_the_definitions_refuse_it, a_create_that_is_taken_finds_room,
    the_watchers_are_asked_with_what_create_makes,
};
pub use creating::{
    a_create_steps, the_target_has_the_tables_denied, what_a_create_makes_stands_for_the_next_state,
};
pub use denials::a_base_denies_only_what_a_workflow_moves;
pub use events::{
    a_create_steps_and_leaves_the_ways, events_by_hand_step_and_leave_the_ways,
    events_on_workflows_step_and_leave_the_ways,
};
pub use facts::a_base_stays_one;
pub use hand_rows::{a_read_steps, a_write_steps};
pub use headline::{
    a_moved_table_of_a_base_is_never_writable_in_two, a_reversal_gives_back_what_its_switch_found,
    an_abandoned_way_gives_back_what_its_begin_found, cancel_gives_back_what_create_found,
    reads_of_a_base_answer_the_acknowledged_writes,
};
pub use numbers::numbers_count_the_ways_from_one;
pub use primaries::{
    a_begin_leaves_the_primaries, a_log_ends_where_the_definitions_say,
    a_refresh_records_an_empty_list, a_step_leaves_the_primaries, an_undo_leaves_the_primaries,
};
pub use purging::{a_purged_base_stands, what_is_purged_stays_purged};
pub use purging_ways::a_purged_core_stands;
pub use records::{steps_and_undos_leave_the_topology, what_is_kept_of_the_ways_stays};
pub use rows::a_complete_keeps_rows_and_logs;
pub use shards::workflows_of_a_base_know_their_shards;
pub use showing::a_show_steps;
pub use staying::{a_create_can_be_taken_back, a_create_leaves_a_base};
pub use stays::{
    a_core_stays_one, a_create_leaves_a_core, each_open_way_has_a_record,
    what_a_step_looks_at_is_kept,
};
pub use streams::streams_of_a_base_lie_in_their_logs;
pub use tables::{
    each_shard_of_a_base_has_a_primary, primaries_of_a_base_have_the_tables_of_its_topology,
};
pub use telling::{a_base_tells_what_its_state_serves, an_empty_base_stands_for_the_opening};
pub use way_workflows::{
    a_begin_leaves_the_workflows, a_step_leaves_the_workflows, an_undo_leaves_the_workflows,
};
pub use ways::{a_begin_steps, a_complete_steps, a_step_steps, an_undo_steps};
pub use workflows::workflows_of_a_base_stand_in_place;
