//! Scripts of which each tells a definition apart from a wrong one that is close to it.
ghost use Rattle.mt_worked.specs.Sharp.{a_carriage_return_of_the_last_line_stays};
ghost use Rattle.mt_worked.specs.Sharp.{a_name_of_a_table_is_in_one_workflow};
ghost use Rattle.mt_worked.specs.Sharp.{an_undo_gives_the_stream_from_before_back};
ghost use Rattle.mt_worked.specs.Sharp.{an_undo_of_a_refresh_opens_one_shard};
ghost use Rattle.mt_worked.specs.Sharp.{complete_takes_all_rules_of_the_part_away};
ghost use Rattle.mt_worked.specs.Sharp.{entries_of_moved_tables_alone_are_fed};
ghost use Rattle.mt_worked.specs.Sharp.{nothing_to_switch_is_told_before_copying, past_journal_is_told_before_stale};
ghost use Rattle.mt_worked.specs.Sharp.{the_rule_of_the_sources_own_name_stays};
ghost use Rattle.mt_worked.specs.Sharp.{the_target_is_denied_until_its_own_step};
ghost use Rattle.mt_worked.specs.Sharp.{writes_are_fed_in_the_order_acknowledged};

/// Each script prints what stands beside its lines.
pub fn close_definitions_are_told_apart()
    ensures the_target_is_denied_until_its_own_step { the_target_is_denied_until_its_own_step }
    ensures complete_takes_all_rules_of_the_part_away { complete_takes_all_rules_of_the_part_away }
    ensures entries_of_moved_tables_alone_are_fed { entries_of_moved_tables_alone_are_fed }
    ensures an_undo_gives_the_stream_from_before_back { an_undo_gives_the_stream_from_before_back }
    ensures nothing_to_switch_is_told_before_copying { nothing_to_switch_is_told_before_copying }
    ensures past_journal_is_told_before_stale { past_journal_is_told_before_stale }
    ensures a_name_of_a_table_is_in_one_workflow { a_name_of_a_table_is_in_one_workflow }
    ensures writes_are_fed_in_the_order_acknowledged { writes_are_fed_in_the_order_acknowledged }
    ensures the_rule_of_the_sources_own_name_stays { the_rule_of_the_sources_own_name_stays }
    ensures an_undo_of_a_refresh_opens_one_shard { an_undo_of_a_refresh_opens_one_shard }
    ensures a_carriage_return_of_the_last_line_stays { a_carriage_return_of_the_last_line_stays }
{}
