//! What is taken at each limit, and refused past it.
ghost use Rattle.std.specs.Prelude.{◌≡◌, ◌++◌, ◌∷◌, [], None, Some, codes, replicate};
ghost use Rattle.mt_names.specs.Types.{all_types};
ghost use Rattle.mt_plain.specs.Answers.{Answers, Run};
ghost use Rattle.mt_plain.specs.Events.{add_keyspace, add_table, begin_switch, cancel, done, edit_rule, exists, full};
ghost use Rattle.mt_plain.specs.Events.{refused, rule_owned, step};
ghost use Rattle.mt_plain.specs.Next.{next};
ghost use Rattle.mt_plain.specs.Plain.{opening};
ghost use Rattle.mt_plain.specs.Refuse.{rule_refusal, table_refusal};
ghost use Rattle.mt_worked.specs.Copies.{create_of};
ghost use Rattle.mt_worked.specs.Limits.{back_behind_last_entry, behind_last_way, made_of_both, name_of};
ghost use Rattle.mt_worked.specs.Limits.{rules_at_limit, some_keyspaces, some_rule, some_target, tables_at_limit};
ghost use Rattle.mt_worked.specs.Limits.{with_journal, with_other_rules, with_rules, with_tables, with_target_tables};
ghost use Rattle.mt_worked.specs.Limits.{with_ways, with_workflows};
ghost use Rattle.mt_worked.specs.States.{corder, customer, made, mv, plain};

/// Limits of keyspaces, tables and rules.
pub fn limits_are_exact()
    ensures keyspace_32_is_taken { Run (opening []) (some_keyspaces 32) (replicate 32 done) }
    ensures a_keyspace_exists_before_the_limit { Run (opening [])
        (some_keyspaces 32 ++ add_keyspace (name_of 0) [] ∷ []) (replicate 32 done ++ refused exists ∷ []) }
    ensures table_256_is_taken { table_refusal (with_tables 255) (codes "k") (codes "t") ≡ None }
    ensures table_257_is_refused { table_refusal (with_tables 256) (codes "k") (codes "t") ≡ Some full }
    ensures a_table_exists_before_the_limit { table_refusal (with_tables 256) (codes "k") (name_of 0) ≡ Some exists }
    ensures rule_4096_is_taken { rule_refusal (with_rules 4095) (plain (codes "u")) (Some some_target) ≡ None }
    ensures rule_4097_is_refused { rule_refusal (with_rules 4096) (plain (codes "u")) (Some some_target) ≡ Some full }
    ensures a_rule_is_changed_at_the_limit { rule_refusal (with_rules 4096) (plain (codes "t")) (Some some_target)
        ≡ None }
    ensures a_rule_is_taken_away_at_the_limit { rule_refusal (with_rules 4096) (plain (codes "t")) None ≡ None }
    ensures no_rule_is_taken_away { Run (opening []) (edit_rule (plain (codes "t")) None ∷ []) (done ∷ []) }
{}

/// Limits of workflows, of their parts, of ways and of the journal.
pub fn workflows_count_to_the_limits()
    ensures workflow_16_is_taken { Answers (with_workflows 15) (made mv) done }
    ensures workflow_17_is_refused { Answers (with_workflows 16) (made mv) (refused full) }
    ensures the_keys_of_a_part_up_to_4096_rules { Answers (with_other_rules 4084) (made mv) done }
    ensures the_keys_of_a_part_past_4096_rules { Answers (with_other_rules 4085) (made mv) (refused full) }
    ensures a_new_rule_past_the_keys_of_a_part { Answers rules_at_limit (edit_rule (plain (codes "y")) some_rule)
        (refused full) }
    ensures a_rule_is_changed_beside_them { Answers rules_at_limit (edit_rule (plain (codes "z")) some_rule) done }
    ensures rule_owned_before_the_limit { Answers rules_at_limit (edit_rule (plain corder) some_rule)
        (refused rule_owned) }
    ensures they_count_no_more_behind_cancel { Answers (next rules_at_limit (cancel mv) done)
        (edit_rule (plain (codes "y")) some_rule) done }
    ensures two_tables_up_to_256_at_the_target { Answers (with_target_tables 254) made_of_both done }
    ensures two_tables_past_256_at_the_target { Answers (with_target_tables 255) made_of_both (refused full) }
    ensures one_table_twice_counts_once { Answers (with_target_tables 255) (create_of (corder ∷ corder ∷ [])) done }
    ensures a_table_that_is_moved_in_counts { Answers tables_at_limit (add_table customer (codes "t"))
        (refused full) }
    ensures it_counts_no_more_behind_cancel { Answers (next tables_at_limit (cancel mv) done)
        (add_table customer (codes "t")) done }
    ensures the_last_number_of_a_way { Answers (with_ways 0x7fff_ffff_ffff_fffe) (begin_switch mv all_types) done }
    ensures no_number_of_a_way_is_left { Answers (with_ways 0x7fff_ffff_ffff_ffff) (begin_switch mv all_types)
        (refused full) }
    ensures a_way_takes_a_number_though_it_is_undone { Answers behind_last_way (begin_switch mv all_types)
        (refused full) }
    ensures journal_entry_4096_is_taken { Answers (with_journal 4095) (step mv 6) done }
    ensures journal_entry_4097_is_refused { Answers (with_journal 4096) (step mv 6) (refused full) }
    ensures a_journal_entry_stays { Answers back_behind_last_entry (step mv 6) (refused full) }
{}
