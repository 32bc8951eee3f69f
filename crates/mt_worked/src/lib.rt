//! Scripts, runs and answers that the checker computes from the definitions, as laws.
#![tactic(auto)]

mod changes;
mod copies;
mod cuts;
mod drives;
mod histories;
mod limits;
mod lines;
mod memory;
mod orders;
mod owed;
mod publications;
mod refusals;
mod scripts;
mod shards;
mod sharp;
mod topologies;
mod watched;
mod watchers;
mod wrong_answers;

pub use changes::watchers_are_asked_with_a_change;
pub use copies::{
    a_table_named_twice_counts_once, rows_are_copied_in_their_order, what_is_made_again_begins_anew,
};
pub use cuts::{copies_are_cut_between_rows, entries_are_cut_between_changes};
pub use drives::{drives_end_as_they_may, each_turn_of_a_drive_leads_on};
pub use histories::{
    histories_follow_from_their_opening, notices_have_what_concerns_their_scope,
    one_side_is_writable, scripts_that_end_early_leave_nothing,
};
pub use limits::{limits_are_exact, workflows_count_to_the_limits};
pub use lines::{lines_are_read_exactly, lines_are_refused_exactly};
pub use memory::{
    nine_steps_need_no_memory, what_does_not_grow_needs_no_memory, what_grows_may_be_out_of_memory,
};
pub use orders::{first_refusal_of_a_create_comes, first_refusal_of_a_workflow_comes};
pub use owed::each_workflow_is_owed_its_end;
pub use publications::publications_tell_the_views_of_their_fronts;
pub use refusals::each_refusal_comes;
pub use scripts::{
    dumps_tell_the_topology, moves_are_created_and_cancelled, rows_are_asked_by_name,
    switches_go_step_by_step, whole_switches_are_driven,
};
pub use shards::{a_target_is_writable_at_some_shard, shards_have_lanes_of_their_own};
pub use sharp::close_definitions_are_told_apart;
pub use topologies::{lists_say_what_is_served, topologies_are_served_by_what_they_say};
pub use watched::watchers_may_refuse;
pub use watchers::{no_watcher_refuses_another_event, watchers_refuse_what_they_are_asked};
pub use wrong_answers::no_wrong_answer_is_legal;
