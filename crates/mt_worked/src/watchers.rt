//! Which watchers may refuse an event.
ghost use Rattle.std.specs.Prelude.{◌≡◌, None, false};
ghost use Rattle.mt_names.specs.Types.{all_types};
ghost use Rattle.mt_model.specs.declared.rows.Op.TheVariants.{Delete};
ghost use Rattle.mt_plain.specs.Answers.{Answers};
ghost use Rattle.mt_plain.specs.Events.{advance, begin_switch, cancel, complete, edit_rule, forward, refused, step};
ghost use Rattle.mt_plain.specs.Events.{undo, watcher_refused, write};
ghost use Rattle.mt_plain.specs.Refuse.{may_refuse};
ghost use Rattle.mt_worked.specs.FreeAnswers.{watched_twice, with_steps};
ghost use Rattle.mt_worked.specs.States.{allowed, back_allowed, back_stepped, before_journal, begun, commerce};
ghost use Rattle.mt_worked.specs.States.{copied, corder, live, made, mv, plain, refreshed, stepped, switched};

/// Those of the primary that takes over denials, at a Create and at the two refreshes of a way.
pub fn watchers_refuse_what_they_are_asked()
    ensures of_the_target_a_create { Answers begun (made mv) (refused (watcher_refused 2)) }
    ensures of_the_source_no_create { ¬ (Answers begun (made mv) (refused (watcher_refused 1))) }
    ensures of_the_routers_no_create { ¬ (Answers begun (made mv) (refused (watcher_refused 0))) }
    ensures one_that_is_not_there_no_create { ¬ (Answers begun (made mv) (refused (watcher_refused 3))) }
    ensures no_create_that_is_refused { ¬ (Answers live (made mv) (refused (watcher_refused 2))) }
    ensures the_first_of_two_a_create { Answers watched_twice (made mv) (refused (watcher_refused 1)) }
    ensures the_second_of_two_a_create { Answers watched_twice (made mv) (refused (watcher_refused 2)) }
    ensures of_the_source_its_refresh { Answers stepped (step mv 2) (refused (watcher_refused 1)) }
    ensures of_the_target_not_that { ¬ (Answers stepped (step mv 2) (refused (watcher_refused 2))) }
    ensures of_the_target_its_refresh { Answers allowed (step mv 8) (refused (watcher_refused 2)) }
    ensures of_the_source_not_that { may_refuse allowed (step mv 8) 1 ≡ false }
    ensures on_a_way_back_of_the_target_the_first { Answers back_stepped (step mv 2) (refused (watcher_refused 2)) }
    ensures on_a_way_back_of_the_source_not_the_first { may_refuse back_stepped (step mv 2) 1 ≡ false }
    ensures on_a_way_back_of_the_source_the_second { Answers back_allowed (step mv 8) (refused (watcher_refused 1)) }
    ensures on_a_way_back_of_the_target_not_the_second { may_refuse back_allowed (step mv 8) 2 ≡ false }
{}

/// No watcher refuses any other event.
pub fn no_watcher_refuses_another_event()
    ensures a_denial { ¬ (Answers (with_steps 1) (step mv 1) (refused (watcher_refused 1))) }
    ensures a_step_from_another_number { ¬ (Answers stepped (step mv 3) (refused (watcher_refused 1))) }
    ensures an_undo_of_a_refresh { ¬ (Answers refreshed (undo mv 3) (refused (watcher_refused 1))) }
    ensures the_journal { may_refuse before_journal (step mv 6) 2 ≡ false }
    ensures a_cancel { ¬ (Answers copied (cancel mv) (refused (watcher_refused 2))) }
    ensures a_complete { may_refuse switched (complete mv) 1 ≡ false }
    ensures a_way { ¬ (Answers copied (begin_switch mv all_types) (refused (watcher_refused 1))) }
    ensures an_advance { ¬ (Answers live (advance mv forward 0 1 1) (refused (watcher_refused 2))) }
    ensures a_write { ¬ (Answers begun (write commerce corder (Delete 1)) (refused (watcher_refused 1))) }
    ensures a_rule { ¬ (Answers begun (edit_rule (plain corder) None) (refused (watcher_refused 0))) }
{}
