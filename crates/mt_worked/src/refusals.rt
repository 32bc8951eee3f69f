//! Each refusal of an event, once.
ghost use Rattle.std.specs.Prelude.{◌++◌, ◌∷◌, [], None, codes, replicate};
ghost use Rattle.mt_names.specs.declared.types.TabletType.TheVariants.{Primary};
ghost use Rattle.mt_names.specs.Types.{all_types, no_types};
ghost use Rattle.mt_model.specs.declared.rows.Op.TheVariants.{Append, Delete};
ghost use Rattle.mt_plain.specs.Answers.{Answers, Run};
ghost use Rattle.mt_plain.specs.Events.{add_keyspace, add_table, advance, begin_reverse, begin_switch, cancel};
ghost use Rattle.mt_plain.specs.Events.{complete, copying, create, denied, done, edit_rule, exists, forward, full};
ghost use Rattle.mt_plain.specs.Events.{memory, no_keyspace, no_row, no_shard, no_table, no_tables, no_watcher};
ghost use Rattle.mt_plain.specs.Events.{no_workflow, not_all_switched, not_level, nothing_to_reverse};
ghost use Rattle.mt_plain.specs.Events.{nothing_to_switch, nothing_under_way, past_journal, read, refused};
ghost use Rattle.mt_plain.specs.Events.{row_exists, rule_conflict, rule_owned, same_keyspace, sharded_source, stale};
ghost use Rattle.mt_plain.specs.Events.{step, stream_stopped, table_in_workflow, target_has_table, too_long};
ghost use Rattle.mt_plain.specs.Events.{traffic_switched, under_way, undo, undoing, watcher_refused, workflow_exists};
ghost use Rattle.mt_plain.specs.Events.{write};
ghost use Rattle.mt_plain.specs.Plain.{opening};
ghost use Rattle.mt_worked.specs.Limits.{some_keyspaces};
ghost use Rattle.mt_worked.specs.Shards.{halved};
ghost use Rattle.mt_worked.specs.States.{after_events, at_target, before_journal, begun, behind, commerce, copied};
ghost use Rattle.mt_worked.specs.States.{corder, customer, journalled, live, made, mv, nosuch, opened, other, plain};
ghost use Rattle.mt_worked.specs.States.{put, ruled, switched, undone, unwatched, value};

/// Each refusal comes where its condition holds.
pub fn each_refusal_comes()
    ensures a_write_that_may_be_out_of_memory { Answers begun (put commerce corder 2 (codes "b")) (refused memory) }
    ensures a_table_of_no_keyspace { Answers begun (add_table nosuch corder) (refused no_keyspace) }
    ensures a_read_of_no_table { Answers begun (read customer corder 1 Primary) (refused no_table) }
    ensures a_write_where_the_table_is_denied { Answers live (write customer corder (Delete 1)) (refused denied) }
    ensures an_insert_of_a_row_that_is_there { Answers begun (put commerce corder 1 (codes "b"))
        (refused row_exists) }
    ensures a_delete_of_no_row { Answers begun (write commerce corder (Delete 2)) (refused no_row) }
    ensures a_move_of_a_live_name { Answers live (create mv commerce customer (other ∷ []))
        (refused workflow_exists) }
    ensures a_cancel_of_no_workflow { Answers live (cancel nosuch) (refused no_workflow) }
    ensures a_move_of_a_table_on_the_move { Answers live (made nosuch) (refused table_in_workflow) }
    ensures a_move_where_a_rule_leads_elsewhere { Answers ruled (made mv)
        (refused (rule_conflict (at_target corder))) }
    ensures a_move_to_where_the_table_is { Answers (after_events begun (add_table customer corder ∷ [])) (made mv)
        (refused (target_has_table corder)) }
    ensures a_move_to_the_same_keyspace { Answers begun (create mv commerce commerce (corder ∷ []))
        (refused same_keyspace) }
    ensures a_move_of_no_tables { Answers begun (create mv commerce customer []) (refused no_tables) }
    ensures a_switch_beside_an_open_way { Answers opened (begin_switch mv all_types) (refused under_way) }
    ensures a_step_of_no_way { Answers copied (step mv 0) (refused nothing_under_way) }
    ensures a_switch_of_no_types { Answers copied (begin_switch mv no_types) (refused nothing_to_switch) }
    ensures a_reversal_of_nothing { Answers copied (begin_reverse mv all_types) (refused nothing_to_reverse) }
    ensures a_switch_before_the_copy_has_ended { Answers live (begin_switch mv all_types) (refused copying) }
    ensures a_step_where_a_write_is_not_fed { Answers behind (step mv 0) (refused not_level) }
    ensures an_undo_past_the_journal { Answers journalled (undo mv 7) (refused past_journal) }
    ensures a_cancel_of_what_is_switched { Answers switched (cancel mv) (refused traffic_switched) }
    ensures a_complete_of_what_is_not { Answers copied (complete mv) (refused not_all_switched) }
    ensures a_rule_of_a_table_on_the_move { Answers live (edit_rule (plain corder) None) (refused rule_owned) }
    ensures a_move_that_a_watcher_refuses { Answers begun (made mv) (refused (watcher_refused 2)) }
    ensures a_move_without_a_watcher { Answers unwatched (made mv) (refused no_watcher) }
    ensures an_advance_from_another_position { Answers live (advance mv forward 0 0 1) (refused (stale 1)) }
    ensures an_advance_of_a_stopped_stream { Answers before_journal (advance mv forward 0 1 1)
        (refused stream_stopped) }
    ensures a_keyspace_past_the_limit { Run (opening []) (some_keyspaces 33)
        (replicate 32 done ++ refused full ∷ []) }
    ensures a_step_behind_an_undo { Answers undone (step mv 1) (refused undoing) }
    ensures a_value_past_64_bytes { Answers begun (write commerce corder (Append 1 (value (replicate 64 98))))
        (refused too_long) }
    ensures a_keyspace_that_is_there { Answers begun (add_keyspace commerce []) (refused exists) }
    ensures an_advance_of_no_shard { Answers halved (advance mv forward 2 2 100) (refused no_shard) }
    ensures a_move_from_several_shards { Answers halved (create nosuch customer commerce (codes "t" ∷ []))
        (refused sharded_source) }
{}
