//! What is copied, and what is fed meanwhile.
ghost use Rattle.std.specs.Prelude.{◌≡◌, ◌∷◌, [], None, Some, codes};
ghost use Rattle.mt_names.specs.declared.types.TabletType.TheVariants.{Primary, Replica};
ghost use Rattle.mt_names.specs.Types.{all_types};
ghost use Rattle.mt_plain.specs.Answers.{Answers};
ghost use Rattle.mt_plain.specs.Events.{advance, advanced, begin_switch, copying, done, forward, read, refused, row};
ghost use Rattle.mt_plain.specs.Plain.{each_once};
ghost use Rattle.mt_worked.specs.Copies.{again, allowed_to_copy, changed_before_its_copy, changed_first, create_of};
ghost use Rattle.mt_worked.specs.Copies.{made_anew, named_twice, one_copied, three_copied, two_tables};
ghost use Rattle.mt_worked.specs.States.{after_events, begun, commerce, corder, customer, live, mv, other, value};

/// Rows are copied in the order of the tables named and then of keys, and fed where they are copied.
pub fn rows_are_copied_in_their_order()
    ensures the_least_key_first { Answers one_copied (read customer other 3 Replica)
        (row (Some (value (codes "c")))) }
    ensures the_next_key_not_with_it { Answers one_copied (read customer other 7 Replica) (row None) }
    ensures the_second_table_not_before_the_first { Answers one_copied (read customer corder 1 Replica) (row None) }
    ensures the_second_table_behind_the_first { Answers three_copied (read customer corder 1 Replica)
        (row (Some (value (codes "a")))) }
    ensures a_deleted_row_is_not_copied { Answers three_copied (read customer other 5 Replica) (row None) }
    ensures three_rows_are_left_to_copy { Answers two_tables (advance mv forward 0 5 100) (advanced 0 3) }
    ensures no_row_is_left_to_copy { Answers three_copied (advance mv forward 0 5 1) (advanced 0 0) }
    ensures a_change_of_the_copied_table_is_fed { Answers changed_first (read customer other 3 Replica)
        (row (Some (value (codes "C")))) }
    ensures a_change_of_the_table_to_copy_is_not { Answers changed_first (read customer corder 1 Replica) (row None) }
    ensures a_row_changed_before_its_copy_is_copied_as_it_is { Answers changed_before_its_copy
        (read customer corder 2 Replica) (row (Some (value (codes "z")))) }
    ensures a_copy_of_as_many_rows_as_allowed_has_not_ended { Answers (allowed_to_copy 2) (begin_switch mv all_types)
        (refused copying) }
    ensures a_copy_of_fewer_rows_has_ended { Answers (allowed_to_copy 3) (begin_switch mv all_types) done }
{}

/// A table that a Create names twice counts once, where it is first named.
pub fn a_table_named_twice_counts_once()
    ensures names_stand_in_the_order_first_named { each_once (other ∷ corder ∷ other ∷ corder ∷ corder ∷ [])
        ≡ other ∷ corder ∷ [] }
    ensures it_makes_the_same_state { after_events begun (create_of (corder ∷ corder ∷ []) ∷ []) ≡ live }
    ensures its_rows_are_copied_once { Answers named_twice (advance mv forward 0 3 100) (advanced 0 3) }
{}

/// A table that is made again has no row of the one before, and a workflow that is made again copies all.
pub fn what_is_made_again_begins_anew()
    ensures a_table_at_the_source { Answers made_anew (read commerce corder 1 Primary) (row None) }
    ensures the_one_that_moved_keeps_its_rows { Answers made_anew (read customer corder 1 Primary)
        (row (Some (value (codes "a")))) }
    ensures a_workflow_has_copied_nothing { Answers again (read customer corder 1 Replica) (row None) }
    ensures a_workflow_begins_at_the_end_of_the_log { Answers again (advance mv forward 0 2 100) (advanced 0 2) }
{}
