//! Where memory may run out.
ghost use Rattle.std.specs.Prelude.{◌≡◌, ◌∷◌, [], None, Some, false};
ghost use Rattle.mt_names.specs.declared.types.TabletType.TheVariants.{Primary, Replica};
ghost use Rattle.mt_names.specs.Types.{all_types};
ghost use Rattle.mt_model.specs.declared.rows.Op.TheVariants.{Delete};
ghost use Rattle.mt_plain.specs.Answers.{Answers};
ghost use Rattle.mt_plain.specs.Events.{add_keyspace, add_table, advance, back, begin_reverse, begin_switch, cancel};
ghost use Rattle.mt_plain.specs.Events.{complete, edit_rule, forward, memory, read, refused, show, step, undo, write};
ghost use Rattle.mt_plain.specs.Refuse.{may_grow};
ghost use Rattle.mt_worked.specs.FreeAnswers.{behind_half_copied, behind_not_copied, behind_switch, to_source};
ghost use Rattle.mt_worked.specs.FreeAnswers.{with_steps};
ghost use Rattle.mt_worked.specs.Scripts.{a_table};
ghost use Rattle.mt_worked.specs.Shards.{before_streams, one_behind};
ghost use Rattle.mt_worked.specs.States.{after_events, allowed, at_target, before_journal, begun, behind_by_others};
ghost use Rattle.mt_worked.specs.States.{behind_by_two, commerce, copied, corder, customer, live, made, mv, nosuch};
ghost use Rattle.mt_worked.specs.States.{opened, other, plain, refreshed, ruled, stepped, switched};

/// Where something may grow.
pub fn what_grows_may_be_out_of_memory()
    ensures a_keyspace { Answers begun (add_keyspace nosuch []) (refused memory) }
    ensures a_table { Answers begun (add_table customer corder) (refused memory) }
    ensures a_new_rule { Answers ruled (edit_rule (plain corder) to_source) (refused memory) }
    ensures a_new_rule_of_a_type_beside_that_of_all { Answers ruled
        (edit_rule (record (at_target corder) { tablet_type = Some Replica }) to_source) (refused memory) }
    ensures a_rule_that_was_taken_away { Answers (after_events ruled (edit_rule (at_target corder) None ∷ []))
        (edit_rule (at_target corder) to_source) (refused memory) }
    ensures a_new_rule_beside_a_live_part { Answers live (edit_rule (plain other) to_source) (refused memory) }
    ensures a_delete { Answers begun (write commerce corder (Delete 1)) (refused memory) }
    ensures a_create { Answers begun (made mv) (refused memory) }
    ensures an_advance_that_copies_a_row { Answers live (advance mv forward 0 1 100) (refused memory) }
    ensures an_advance_that_applies_an_entry { Answers behind_by_two (advance mv forward 0 1 1) (refused memory) }
    ensures an_advance_that_applies_one_behind_another { Answers behind_by_others (advance mv forward 0 1 2)
        (refused memory) }
    ensures an_advance_that_applies_one_of_a_row_copied { Answers behind_half_copied (advance mv forward 0 2 2)
        (refused memory) }
    ensures an_advance_that_feeds_back { Answers behind_switch (advance mv back 0 1 100) (refused memory) }
    ensures an_advance_that_applies_one_of_its_own_shard { Answers one_behind (advance mv forward 0 2 100)
        (refused memory) }
    ensures a_way_forward { Answers copied (begin_switch mv all_types) (refused memory) }
    ensures a_way_back { Answers switched (begin_reverse mv all_types) (refused memory) }
    ensures a_refresh_of_the_source { Answers stepped (step mv 2) (refused memory) }
    ensures streams_of_several_shards { Answers before_streams (step mv 5) (refused memory) }
    ensures the_journal { Answers before_journal (step mv 6) (refused memory) }
    ensures a_refresh_of_the_target { Answers allowed (step mv 8) (refused memory) }
{}

/// Where nothing grows, or nothing is done.
pub fn what_does_not_grow_needs_no_memory()
    ensures a_read { ¬ (Answers begun (read commerce corder 1 Primary) (refused memory)) }
    ensures a_keyspace_that_is_refused { ¬ (Answers begun (add_keyspace commerce []) (refused memory)) }
    ensures a_write_that_is_refused { ¬ (Answers begun (write commerce corder (Delete 2)) (refused memory)) }
    ensures a_create_that_is_refused { ¬ (Answers live (made mv) (refused memory)) }
    ensures a_rule_that_is_changed { ¬ (Answers ruled (edit_rule (at_target corder) to_source) (refused memory)) }
    ensures a_rule_that_is_taken_away { ¬ (Answers begun (edit_rule (plain corder) None) (refused memory)) }
    ensures a_rule_of_a_live_part { ¬ (Answers live (edit_rule (plain corder) to_source) (refused memory)) }
    ensures an_advance_from_another_position { ¬ (Answers live (advance mv forward 0 0 1) (refused memory)) }
    ensures an_advance_of_nothing { ¬ (Answers live (advance mv forward 0 1 0) (refused memory)) }
    ensures an_advance_with_nothing_to_do { ¬ (Answers copied (advance mv forward 0 1 100) (refused memory)) }
    ensures an_advance_over_another_table { ¬ (Answers behind_by_others (advance mv forward 0 1 1) (refused memory)) }
    ensures an_advance_over_a_row_not_copied { ¬ (Answers behind_not_copied (advance mv forward 0 1 100)
        (refused memory)) }
    ensures an_advance_over_a_row_behind_those_copied { ¬ (Answers behind_half_copied (advance mv forward 0 2 1)
        (refused memory)) }
    ensures an_advance_over_another_shard { ¬ (Answers one_behind (advance mv forward 1 2 100) (refused memory)) }
    ensures an_advance_with_nothing_to_feed_back { may_grow switched (advance mv back 0 1 100) ≡ false }
    ensures a_step_from_another_number { ¬ (Answers stepped (step mv 3) (refused memory)) }
    ensures an_undo_of_the_begin { ¬ (Answers opened (undo mv 0) (refused memory)) }
    ensures an_undo_of_a_refresh { ¬ (Answers refreshed (undo mv 3) (refused memory)) }
    ensures a_cancel { ¬ (Answers copied (cancel mv) (refused memory)) }
    ensures a_complete { may_grow switched (complete mv) ≡ false }
    ensures a_show { ¬ (Answers live (show mv) (refused memory)) }
{}

/// Of the twelve steps three may grow something; these are the others.
pub fn nine_steps_need_no_memory()
    ensures reads_to_the_target { may_grow opened (step mv 0) ≡ false }
    ensures denial_of_the_source { may_grow (with_steps 1) (step mv 1) ≡ false }
    ensures catching_up { may_grow (with_steps 3) (step mv 3) ≡ false }
    ensures end_of_feeding { may_grow (with_steps 4) (step mv 4) ≡ false }
    ensures a_stream_back { may_grow (with_steps 5) (step mv 5) ≡ false }
    ensures allowing_the_target { may_grow (with_steps 7) (step mv 7) ≡ false }
    ensures plain_names_to_the_target { may_grow (with_steps 9) (step mv 9) ≡ false }
    ensures start_of_the_stream_back { may_grow (with_steps 10) (step mv 10) ≡ false }
    ensures freezing_the_stream_forward { may_grow (with_steps 11) (step mv 11) ≡ false }
{}
