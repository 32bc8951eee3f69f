//! Where an advance may be cut short.
ghost use Rattle.mt_names.specs.Types.{all_types};
ghost use Rattle.mt_plain.specs.Answers.{Answers};
ghost use Rattle.mt_plain.specs.Events.{add_table, advance, advanced, begin_switch, copying, forward, refused};
ghost use Rattle.mt_worked.specs.FreeAnswers.{behind_around_another};
ghost use Rattle.mt_worked.specs.States.{begun, behind_by_others, behind_by_two, corder, customer, cut, live};
ghost use Rattle.mt_worked.specs.States.{live_of_two, mv};

/// A copy behind a row, if one more is to be copied.
pub fn copies_are_cut_between_rows()
    ensures behind_its_first_row { Answers live_of_two (advance mv forward 0 2 100) (advanced 0 1) }
    ensures not_before_it { ¬ (Answers live_of_two (advance mv forward 0 2 100) (advanced 0 0)) }
    ensures no_more_rows_than_there_are { ¬ (Answers live_of_two (advance mv forward 0 2 100) (advanced 0 3)) }
    ensures no_more_rows_than_allowed { ¬ (Answers live_of_two (advance mv forward 0 2 1) (advanced 0 2)) }
    ensures not_a_copy_of_one_row { ¬ (Answers live (advance mv forward 0 1 100) (advanced 0 0)) }
    ensures not_from_another_position { ¬ (Answers live_of_two (advance mv forward 0 1 100) (advanced 0 1)) }
    ensures what_was_cut_goes_on { Answers cut (advance mv forward 0 2 100) (advanced 0 1) }
    ensures what_was_cut_has_not_ended { Answers cut (begin_switch mv all_types) (refused copying) }
{}

/// Entries behind one that was applied, and behind those of other tables that follow it.
pub fn entries_are_cut_between_changes()
    ensures behind_the_first_change { Answers behind_by_two (advance mv forward 0 1 100) (advanced 1 0) }
    ensures not_before_it { ¬ (Answers behind_by_two (advance mv forward 0 1 100) (advanced 0 0)) }
    ensures no_more_entries_than_there_are { ¬ (Answers behind_by_two (advance mv forward 0 1 100) (advanced 3 0)) }
    ensures no_entries_and_rows_at_once { ¬ (Answers behind_by_two (advance mv forward 0 1 100) (advanced 1 1)) }
    ensures no_rows_in_place_of_entries { ¬ (Answers behind_by_two (advance mv forward 0 1 100) (advanced 0 1)) }
    ensures not_behind_an_entry_passed_over_alone { ¬ (Answers behind_by_others (advance mv forward 0 1 100)
        (advanced 1 0)) }
    ensures behind_a_change_and_an_entry_passed_over { Answers behind_around_another (advance mv forward 0 1 100)
        (advanced 2 0) }
    ensures not_before_an_entry_passed_over { ¬ (Answers behind_around_another (advance mv forward 0 1 100)
        (advanced 1 0)) }
    ensures as_many_as_allowed { Answers behind_around_another (advance mv forward 0 1 2) (advanced 2 0) }
    ensures nothing_but_an_advance { ¬ (Answers begun (add_table customer corder) (advanced 0 0)) }
{}
