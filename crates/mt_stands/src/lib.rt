//! What the controller's core is as a value, and which state of the definitions it stands for: definitions, and laws on the
//! topology and on the primaries, each of which an event leaves so that they stand for those of the next state.
#![tactic(auto)]

mod advances;
mod bridges;
mod by_hand;
mod completing;
mod counts;
mod creating;
mod ends;
mod entries;
mod kept;
mod maps;
mod opening;
mod purges;
mod rows;
mod stays;
mod steps;
mod tables;
mod ways;
mod writes;

pub use advances::{
    a_lane_holds_its_keys, an_advance_answers_as_the_definitions_allow,
    an_advance_keeps_rows_and_logs,
};
pub use bridges::tables_made_and_dropped_leave_the_others;
pub use by_hand::edits_by_hand_are_made_in_the_topology;
pub use completing::complete_writes_the_end;
pub use counts::{
    places_are_as_many_as_the_definitions_count, tables_are_as_many_as_the_definitions_count,
};
pub use creating::{
    a_create_taken_back_leaves_the_topology, cancel_writes_what_was_kept, create_writes_the_part,
};
pub use ends::{a_cancel_keeps_rows_and_logs, a_create_keeps_rows_and_logs};
pub use entries::{entries_are_written_each_at_its_key, what_is_written_has_a_place};
pub use kept::{the_empty_topology_stands_for_the_opening, what_is_kept_stays_what_stood};
pub use maps::{OpenWays, Workflows};
pub use opening::the_opening_has_no_rows;
pub use purges::{
    a_purge_keeps_rows_and_logs, a_stream_that_reads_the_owner_is_in_use,
    each_live_workflow_is_read, what_is_still_to_be_read_was_not_fed,
};
pub use rows::what_changes_no_entry_leaves_the_topology;
pub use stays::events_that_change_no_row_keep_rows_and_logs;
pub use steps::{a_step_keeps_rows_and_logs, a_stream_is_level_where_all_is_fed};
pub use tables::a_new_table_keeps_rows_and_logs;
pub use ways::{
    a_way_that_begins_leaves_the_topology, entries_follow_from_sides_types_and_way,
    steps_and_undos_write_what_is_theirs,
};
pub use writes::a_write_keeps_rows_and_logs;
