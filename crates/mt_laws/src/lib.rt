//! What follows from the definitions of the plain state, the refusals, the next state and the output alone.
#![tactic(auto)]

mod changes;
mod copies;
mod documents;
mod effects;
mod events;
mod headline;
mod owed;
mod parts;
mod pending;
mod places;
mod reached;
mod rows;
mod runs;
mod scripts;
mod served_routes;
mod serving;
mod steps;
mod streams;
mod tables;
mod way_back;

pub use changes::{
    only_named_events_change_a_workflow, only_named_events_change_the_state,
    rows_and_streams_change_no_entry, traffic_commands_change_their_own_part_alone,
};
pub use copies::{
    all_writes_are_fed_at_the_journal, level_is_what_it_says,
    the_other_side_answers_by_the_writes_that_were_fed, what_was_fed_stays_fed,
};
pub use documents::{
    documents_need_distinct_texts, same_topologies_have_the_same_look_ups_and_documents,
    served_rules_have_named_keys,
};
pub use effects::{
    a_step_changes_what_changes_with_its_number, a_workflow_that_changes_changes_its_own_part,
    an_undo_changes_what_changed_with_the_last_step,
    steps_and_undos_change_the_state_by_their_numbers,
};
pub use events::{
    answers_are_determined, limits_are_told_last, reads_answer_the_row,
    refused_events_change_nothing,
};
pub use headline::every_run_keeps_the_headline;
pub use owed::each_event_owes_one_at_most;
pub use parts::{a_moved_table_is_never_writable_in_two, parts_are_apart};
pub use pending::{
    a_stream_reads_the_owner, what_is_pending_was_not_fed,
    what_was_not_fed_makes_the_rows_of_the_owner,
};
pub use places::{
    each_table_has_a_number_of_its_own, no_limit_is_passed, only_what_stands_has_a_place,
    what_is_served_is_a_topology,
};
pub use reached::{
    a_live_workflow_is_found_by_its_part, a_live_workflow_knows_its_shards,
    an_advance_writes_one_log, each_next_state_is_reached, live_workflows_stand_in_place,
    names_as_a_set_have_each_name_once, ways_keep_their_course,
    while_a_stream_runs_the_other_is_idle,
};
pub use rows::{
    a_move_with_rows_can_be_completed, each_primary_read_answers_from_the_acknowledged_writes,
    neither_side_serves_between_the_refreshes, the_owner_alone_serves_the_primary,
};
pub use runs::{
    a_moved_table_keeps_its_number, reads_answer_the_acknowledged_writes, tables_are_told_apart,
};
pub use scripts::{
    a_drive_fits_in_the_turns_that_are_left, a_small_script_was_this_run,
    drives_end_within_their_turns, each_line_that_writes_writes_one_line,
    each_output_is_that_of_a_run, output_is_what_is_written_where_memory_is_ample,
};
pub use served_routes::routes_of_what_is_served_are_a_view;
pub use serving::lists_of_entries_say_what_is_served;
pub use steps::{
    a_step_can_be_taken_back, an_abandoned_way_writes_no_journal, an_undo_takes_a_step_back,
    the_journal_has_an_entry_for_each_such_step,
};
pub use streams::{
    a_stream_that_runs_reads_the_owner, at_rest_the_stream_that_reads_the_owner_runs,
    positions_never_fall, what_is_in_use_goes_on,
};
pub use tables::{
    an_answer_changes_a_row_by_its_operation_alone, tables_keep_numbers_of_their_own,
};
pub use way_back::{
    a_reversal_gives_the_part_back, a_way_back_is_open_before_the_journal,
    an_abandoned_way_gives_the_part_back, cancel_gives_the_part_back, each_way_back_can_be_taken,
};
