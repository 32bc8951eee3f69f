//! Which of two refusals comes.
ghost use Rattle.std.specs.Prelude.{◌∷◌, [], codes};
ghost use Rattle.mt_names.specs.Types.{all_types, no_types};
ghost use Rattle.mt_model.specs.declared.rows.Op.TheVariants.{Delete};
ghost use Rattle.mt_plain.specs.Answers.{Answers};
ghost use Rattle.mt_plain.specs.Events.{advance, back, begin_reverse, begin_switch, cancel, complete, copying};
ghost use Rattle.mt_plain.specs.Events.{create, denied, forward, full, no_keyspace, no_shard, no_table, no_tables};
ghost use Rattle.mt_plain.specs.Events.{no_watcher, no_workflow, nothing_to_reverse, refused, rule_conflict};
ghost use Rattle.mt_plain.specs.Events.{same_keyspace, sharded_source, stale, step, stream_stopped};
ghost use Rattle.mt_plain.specs.Events.{table_in_workflow, target_has_table, under_way, undoing, workflow_exists};
ghost use Rattle.mt_plain.specs.Events.{write};
ghost use Rattle.mt_worked.specs.Orders.{full_and_ruled, no_number_left, refresh_undone, replica_key, ruled_at_both};
ghost use Rattle.mt_worked.specs.Orders.{ruled_twice, ruled_unwatched, sixteen, with_third};
ghost use Rattle.mt_worked.specs.Shards.{halved};
ghost use Rattle.mt_worked.specs.States.{at_source, at_target, before_journal, begun, behind, commerce, copied};
ghost use Rattle.mt_worked.specs.States.{corder, customer, live, made, mv, nosuch, opened, put, reversing, ruled};
ghost use Rattle.mt_worked.specs.States.{switched, undone};

/// Of an event on rows or of a Create, the first in the order of the tests.
pub fn first_refusal_of_a_create_comes()
    ensures no_keyspace_before_no_table { Answers begun (write nosuch corder (Delete 1)) (refused no_keyspace) }
    ensures denied_before_no_row { Answers live (write customer corder (Delete 2)) (refused denied) }
    ensures denied_before_row_exists { Answers live (put customer corder 1 (codes "b")) (refused denied) }
    ensures workflow_exists_before_no_tables { Answers live (create mv commerce customer [])
        (refused workflow_exists) }
    ensures no_tables_before_same_keyspace { Answers begun (create mv commerce commerce []) (refused no_tables) }
    ensures same_keyspace_before_no_keyspace { Answers begun (create mv nosuch nosuch (corder ∷ []))
        (refused same_keyspace) }
    ensures no_source_before_no_table { Answers begun (create mv nosuch customer (nosuch ∷ []))
        (refused no_keyspace) }
    ensures no_target_before_no_table { Answers begun (create mv commerce nosuch (nosuch ∷ []))
        (refused no_keyspace) }
    ensures no_target_before_sharded_source { Answers halved (create nosuch customer nosuch (codes "t" ∷ []))
        (refused no_keyspace) }
    ensures sharded_source_before_no_table { Answers halved (create nosuch customer commerce (nosuch ∷ []))
        (refused sharded_source) }
    ensures no_table_before_table_in_workflow { Answers with_third
        (create nosuch (codes "third") customer (corder ∷ [])) (refused no_table) }
    ensures table_in_workflow_before_target_has_table { Answers live (made nosuch) (refused table_in_workflow) }
    ensures target_has_table_before_rule_conflict { Answers full_and_ruled (made mv)
        (refused (target_has_table corder)) }
    ensures the_first_rule_in_the_order_of_the_twelve_keys { Answers ruled_twice (made mv)
        (refused (rule_conflict replica_key)) }
    ensures the_source_key_before_the_target_key { Answers ruled_at_both (made mv)
        (refused (rule_conflict (at_source corder))) }
    ensures all_of_a_table_before_the_next_table { Answers ruled (create mv commerce customer (corder ∷ nosuch ∷ []))
        (refused (rule_conflict (at_target corder))) }
    ensures the_tables_before_the_watcher { Answers ruled_unwatched (made mv)
        (refused (rule_conflict (at_target corder))) }
    ensures the_watcher_before_the_limits { Answers sixteen (made mv) (refused no_watcher) }
{}

/// Of an event on a workflow, the first in the order of the tests.
pub fn first_refusal_of_a_workflow_comes()
    ensures no_workflow_before_under_way { Answers opened (complete nosuch) (refused no_workflow) }
    ensures no_workflow_before_no_shard { Answers halved (advance nosuch forward 2 2 100) (refused no_workflow) }
    ensures no_shard_before_stopped { Answers halved (advance mv back 2 0 100) (refused no_shard) }
    ensures no_shard_before_stale { Answers halved (advance mv forward 2 0 100) (refused no_shard) }
    ensures stopped_before_stale { Answers before_journal (advance mv forward 0 0 1) (refused stream_stopped) }
    ensures under_way_before_nothing_to_switch { Answers opened (begin_switch mv no_types) (refused under_way) }
    ensures copying_before_the_limit_of_ways { Answers (no_number_left live) (begin_switch mv all_types)
        (refused copying) }
    ensures under_way_before_nothing_to_reverse { Answers opened (begin_reverse mv all_types) (refused under_way) }
    ensures nothing_to_reverse_before_the_limit_of_ways { Answers (no_number_left copied) (begin_reverse mv all_types)
        (refused nothing_to_reverse) }
    ensures the_limit_of_ways_for_a_way_back { Answers (no_number_left switched) (begin_reverse mv all_types)
        (refused full) }
    ensures undoing_before_stale { Answers undone (step mv 2) (refused undoing) }
    ensures undoing_before_what_the_step_refuses { Answers refresh_undone (step mv 2) (refused undoing) }
    ensures stale_before_what_the_step_refuses { Answers behind (step mv 1) (refused (stale 0)) }
    ensures under_way_before_traffic_switched { Answers reversing (cancel mv) (refused under_way) }
    ensures under_way_before_not_all_switched { Answers opened (complete mv) (refused under_way) }
{}
