//! A target of several shards.
ghost use Rattle.std.specs.Prelude.{◌∷◌, [], None, Some, codes};
ghost use Rattle.mt_names.specs.declared.types.TabletType.TheVariants.{Primary, Replica};
ghost use Rattle.mt_names.specs.Types.{all_types};
ghost use Rattle.mt_plain.specs.Answers.{Answers};
ghost use Rattle.mt_plain.specs.Events.{advance, advanced, begin_switch, copying, denied, done, forward, not_level};
ghost use Rattle.mt_plain.specs.Events.{read, refused, row, step};
ghost use Rattle.mt_plain.specs.Serve.{IsWritable};
ghost use Rattle.mt_worked.specs.Shards.{both_closed, first_behind, half, half_closed, half_copied, half_opened};
ghost use Rattle.mt_worked.specs.Shards.{halved, last_behind, one_behind, other_read_alone};
ghost use Rattle.mt_worked.specs.States.{after_events, corder, customer, mv, value};

/// Each shard copies its own rows and applies its own entries; a copy has ended once each has its rows.
pub fn shards_have_lanes_of_their_own()
    ensures a_shard_copies_its_own_rows { Answers halved (advance mv forward 0 2 100) (advanced 0 1) }
    ensures the_other_rows_are_not_there { Answers half_copied (read customer corder half Replica) (row None) }
    ensures a_copy_ends_with_its_last_shard { Answers half_copied (begin_switch mv all_types) (refused copying) }
    ensures an_entry_of_another_shard_is_read_too { Answers one_behind (advance mv forward 1 2 100) (advanced 1 0) }
    ensures it_is_passed_over { Answers (after_events one_behind (advance mv forward 1 2 100 ∷ []))
        (read customer corder 2 Replica) (row None) }
    ensures the_first_shard_behind_is_not_level { Answers first_behind (step mv 0) (refused not_level) }
    ensures the_last_shard_behind_is_not_level { Answers last_behind (step mv 0) (refused not_level) }
    ensures an_entry_of_another_shard_need_not_be_read { Answers other_read_alone (step mv 0) done }
    ensures the_shard_that_is_open_answers { Answers half_opened (read customer corder 1 Primary)
        (row (Some (value (codes "a")))) }
    ensures the_other_is_denied { Answers half_opened (read customer corder half Primary) (refused denied) }
{}

/// A table is writable at the target as long as the primary of some shard takes writes.
pub fn a_target_is_writable_at_some_shard()
    ensures at_its_first_shard { IsWritable half_opened customer corder }
    ensures at_its_last_shard { IsWritable half_closed customer corder }
    ensures at_no_shard { ¬ (IsWritable both_closed customer corder) }
{}
