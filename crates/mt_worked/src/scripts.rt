//! Worked scripts, computed from the definitions: what is printed for each line.
ghost use Rattle.mt_worked.specs.CreateAndCancel.{cancel_after_copy, cancel_gives_back_a_rule};
ghost use Rattle.mt_worked.specs.CreateAndCancel.{cancel_leaves_other_rules, create_of_a_live_name_or_table};
ghost use Rattle.mt_worked.specs.CreateAndCancel.{create_refusals, create_refuses_a_conflicting_rule};
ghost use Rattle.mt_worked.specs.CreateAndCancel.{create_without_a_target_watcher};
ghost use Rattle.mt_worked.specs.CreateAndCancel.{create_writes_rules_and_denies_target};
ghost use Rattle.mt_worked.specs.Dumps.{bad_ranges_and_a_sharded_source_then_dump, dump_of_a_live_workflow};
ghost use Rattle.mt_worked.specs.Dumps.{dump_of_a_sharded_keyspace, dump_of_two_keyspaces};
ghost use Rattle.mt_worked.specs.RowsAndNames.{ambiguous_name, bad_names_and_lists, client_operations_and_refusals};
ghost use Rattle.mt_worked.specs.RowsAndNames.{empty_script, get_back_through_a_rule, get_without_a_rule};
ghost use Rattle.mt_worked.specs.RowsAndNames.{longest_value_and_largest_key};
ghost use Rattle.mt_worked.specs.Steps.{give_up_by_undo, old_owner_is_closed_after_switch};
ghost use Rattle.mt_worked.specs.Steps.{show_of_an_open_way_and_of_undoing, stale_positions_and_steps};
ghost use Rattle.mt_worked.specs.Steps.{switch_by_steps_past_the_journal, switch_by_steps_until_level};
ghost use Rattle.mt_worked.specs.Steps.{two_workflows_at_once, undo_of_a_way_without_steps};
ghost use Rattle.mt_worked.specs.WholeSwitches.{complete_after_all_is_switched, rules_with_all_switched};
ghost use Rattle.mt_worked.specs.WholeSwitches.{switch_and_reverse, switch_and_reverse_after_many_updates};
ghost use Rattle.mt_worked.specs.WholeSwitches.{switch_and_reverse_of_two_shards, switch_of_empty_table};
ghost use Rattle.mt_worked.specs.WholeSwitches.{switch_of_replica_reads_alone, switch_without_a_source_watcher};

/// Rows and names: what a client asks, by which name, and what is no name.
pub fn rows_are_asked_by_name()
    ensures empty_script { empty_script }
    ensures get_without_a_rule { get_without_a_rule }
    ensures ambiguous_name { ambiguous_name }
    ensures get_back_through_a_rule { get_back_through_a_rule }
    ensures client_operations_and_refusals { client_operations_and_refusals }
    ensures longest_value_and_largest_key { longest_value_and_largest_key }
    ensures bad_names_and_lists { bad_names_and_lists }
{}

/// Moves that are begun, refused, or cancelled before anything is switched.
pub fn moves_are_created_and_cancelled()
    ensures create_writes_rules_and_denies_target { create_writes_rules_and_denies_target }
    ensures create_refuses_a_conflicting_rule { create_refuses_a_conflicting_rule }
    ensures create_refusals { create_refusals }
    ensures create_of_a_live_name_or_table { create_of_a_live_name_or_table }
    ensures create_without_a_target_watcher { create_without_a_target_watcher }
    ensures cancel_after_copy { cancel_after_copy }
    ensures cancel_gives_back_a_rule { cancel_gives_back_a_rule }
    ensures cancel_leaves_other_rules { cancel_leaves_other_rules }
{}

/// Switches step by step: waiting, giving up, going on, and what comes too late.
pub fn switches_go_step_by_step()
    ensures switch_by_steps_until_level { switch_by_steps_until_level }
    ensures give_up_by_undo { give_up_by_undo }
    ensures switch_by_steps_past_the_journal { switch_by_steps_past_the_journal }
    ensures old_owner_is_closed_after_switch { old_owner_is_closed_after_switch }
    ensures stale_positions_and_steps { stale_positions_and_steps }
    ensures undo_of_a_way_without_steps { undo_of_a_way_without_steps }
    ensures show_of_an_open_way_and_of_undoing { show_of_an_open_way_and_of_undoing }
    ensures two_workflows_at_once { two_workflows_at_once }
{}

/// Whole switches and reversals, and what follows them.
pub fn whole_switches_are_driven()
    ensures switch_of_empty_table { switch_of_empty_table }
    ensures switch_and_reverse { switch_and_reverse }
    ensures switch_and_reverse_after_many_updates { switch_and_reverse_after_many_updates }
    ensures switch_and_reverse_of_two_shards { switch_and_reverse_of_two_shards }
    ensures switch_of_replica_reads_alone { switch_of_replica_reads_alone }
    ensures switch_without_a_source_watcher { switch_without_a_source_watcher }
    ensures rules_with_all_switched { rules_with_all_switched }
    ensures complete_after_all_is_switched { complete_after_all_is_switched }
{}

/// Dumps of the whole topology.
pub fn dumps_tell_the_topology()
    ensures dump_of_two_keyspaces { dump_of_two_keyspaces }
    ensures dump_of_a_sharded_keyspace { dump_of_a_sharded_keyspace }
    ensures bad_ranges_and_a_sharded_source_then_dump { bad_ranges_and_a_sharded_source_then_dump }
    ensures dump_of_a_live_workflow { dump_of_a_live_workflow }
{}
