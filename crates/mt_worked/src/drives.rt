//! Whole switches and reversals, as events.
ghost use Rattle.std.specs.Prelude.{◌≡◌, ◌∷◌, [], Err, None, Ok, Some};
ghost use Rattle.mt_names.specs.Types.{all_types, no_types};
ghost use Rattle.mt_plain.specs.Answers.{Answers};
ghost use Rattle.mt_plain.specs.Drive.{Drives, abandoned, ends, event_of, feeds, gives_up, goes_on, heard, steps};
ghost use Rattle.mt_plain.specs.Drive.{stopped};
ghost use Rattle.mt_plain.specs.Events.{advance, copying, done, forward, memory, not_level, nothing_to_reverse};
ghost use Rattle.mt_plain.specs.Events.{refused, under_way, undo, watcher_refused};
ghost use Rattle.mt_plain.specs.Output.{AnswersWithMemory};
ghost use Rattle.mt_worked.specs.Drives.{EndsAs, EndsWith, reverses, switches};
ghost use Rattle.mt_worked.specs.States.{after_events, allowed, back_allowed, before_journal, behind, copied, live};
ghost use Rattle.mt_worked.specs.States.{mv, opened, stepped, switched, undone};
ghost use Rattle.mt_plain.specs.Drive as driven;

/// Which event comes next, or how the drive ends.
pub fn each_turn_of_a_drive_leads_on()
    ensures it_begins_with_64_tries_of_a_step { heard copied switches done ≡ goes_on (steps mv 64) }
    ensures each_step_has_64_tries { heard stepped (steps mv 1) done ≡ goes_on (steps mv 64) }
    ensures a_step_that_is_not_level_is_tried_again { heard behind (steps mv 2) (refused not_level)
        ≡ goes_on (feeds mv 0 1) }
    ensures an_advance_between_tries_reads_100 { event_of behind (feeds mv 0 1) ≡ advance mv forward 0 1 100 }
    ensures the_last_try_gives_up { heard behind (steps mv 1) (refused not_level) ≡ goes_on (gives_up mv not_level) }
    ensures before_the_journal_it_gives_up { heard before_journal (steps mv 64) (refused memory)
        ≡ goes_on (gives_up mv memory) }
    ensures past_the_journal_it_stops_with_its_steps { heard allowed (steps mv 64) (refused (watcher_refused 2))
        ≡ ends (Ok (stopped (watcher_refused 2) 8)) }
    ensures on_a_way_back_it_stops_so_too { heard back_allowed (steps mv 64) (refused memory)
        ≡ ends (Ok (stopped memory 8)) }
    ensures the_last_step_ends_it_done { heard switched (steps mv 64) done ≡ ends (Ok driven.done) }
    ensures a_step_before_the_last_does_not { ¬ (heard allowed (steps mv 64) done ≡ ends (Ok driven.done)) }
    ensures the_last_undo_ends_it_abandoned { heard (after_events opened (undo mv 0 ∷ [])) (gives_up mv memory) done
        ≡ ends (Ok (abandoned memory)) }
    ensures an_undo_before_the_last_goes_on { heard undone (gives_up mv (watcher_refused 1)) done
        ≡ goes_on (gives_up mv (watcher_refused 1)) }
    ensures a_refused_begin_ends_it { heard live switches (refused copying) ≡ ends (Err copying) }
{}

/// A drive ends done, abandoned, stopped, or refused at its begin, and says so with its refusal and its steps.
pub fn drives_end_as_they_may()
    ensures a_switch_ends_done { Drives Answers 13 (EndsWith (Ok driven.done) None all_types) switches copied }
    ensures a_switch_with_memory_ends_done_alone { ¬ (Drives AnswersWithMemory 13
        (λ ended p. ¬ (ended ≡ Ok driven.done)) switches copied) }
    ensures it_takes_as_many_turns_as_events { ¬ (Drives AnswersWithMemory 12 (EndsAs (Ok driven.done)) switches
        copied) }
    ensures a_watchers_refusal_before_the_journal_abandons_it { Drives Answers 7
        (EndsWith (Ok (abandoned (watcher_refused 1))) None no_types) switches copied }
    ensures a_watchers_refusal_behind_it_stops_it { Drives Answers 10
        (EndsWith (Ok (stopped (watcher_refused 2) 8)) (Some 8) all_types) switches copied }
    ensures no_memory_for_the_begin_refuses_it { Drives Answers 1 (EndsWith (Err memory) None no_types) switches
        copied }
    ensures a_begin_that_is_refused_changes_nothing { Drives Answers 1 (EndsWith (Err copying) None no_types) switches
        live }
    ensures a_begin_that_is_refused_has_that_refusal_alone { ¬ (Drives Answers 1 (EndsAs (Err under_way)) switches
        live) }
    ensures a_reversal_of_nothing_is_refused { Drives AnswersWithMemory 1 (EndsAs (Err nothing_to_reverse)) reverses
        copied }
    ensures a_reversal_ends_done { Drives AnswersWithMemory 13 (EndsWith (Ok driven.done) None no_types) reverses
        switched }
{}
