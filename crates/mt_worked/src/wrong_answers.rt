//! Answers that are not legal.
ghost use Rattle.std.specs.Prelude.{[], None, Some, codes};
ghost use Rattle.mt_names.specs.declared.types.TabletType.TheVariants.{Primary};
ghost use Rattle.mt_plain.specs.Answers.{Answers};
ghost use Rattle.mt_plain.specs.Events.{add_keyspace, advance, cancel, denied, done, forward, no_table, read};
ghost use Rattle.mt_plain.specs.Events.{refused, row};
ghost use Rattle.mt_worked.specs.States.{begun, commerce, corder, live, mv, nosuch, value};

/// A row is not invented, lost or changed; a refusal comes only where it is due, and nothing else where one is.
pub fn no_wrong_answer_is_legal()
    ensures a_row_is_not_invented { ¬ (Answers begun (read commerce corder 2 Primary)
        (row (Some (value (codes "a"))))) }
    ensures a_row_is_not_lost { ¬ (Answers begun (read commerce corder 1 Primary) (row None)) }
    ensures a_row_is_not_changed { ¬ (Answers begun (read commerce corder 1 Primary)
        (row (Some (value (codes "b"))))) }
    ensures no_refusal_where_none_is_due { ¬ (Answers begun (read commerce corder 1 Primary) (refused denied)) }
    ensures not_the_later_of_two_refusals { ¬ (Answers begun (read nosuch corder 1 Primary) (refused no_table)) }
    ensures not_taken_where_a_refusal_is_due { ¬ (Answers begun (add_keyspace commerce []) done) }
    ensures no_workflow_is_ended_that_is_not_there { ¬ (Answers begun (cancel mv) done) }
    ensures an_advance_is_not_just_done { ¬ (Answers live (advance mv forward 0 1 1) done) }
{}
