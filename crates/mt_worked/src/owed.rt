//! The events that must always find room.
ghost use Rattle.std.specs.Prelude.{◌≡◌, ◌∷◌, []};
ghost use Rattle.mt_plain.specs.Events.{cancel};
ghost use Rattle.mt_plain.specs.Refuse.{owed};
ghost use Rattle.mt_worked.specs.States.{after_events, back_stepped, before_journal, begun, copied, journalled, live};
ghost use Rattle.mt_worked.specs.States.{made_of_other, mv, opened, stepped, undone};

/// A live workflow is owed its Cancel, and an open way before its journal the undos that close it.
pub fn each_workflow_is_owed_its_end()
    ensures nothing_without_a_workflow { owed begun ≡ 0 }
    ensures its_cancel { owed live ≡ 1 }
    ensures an_undo_of_the_begin { owed opened ≡ 2 }
    ensures two_undos_behind_two_steps { owed stepped ≡ 3 }
    ensures one_where_one_was_undone { owed undone ≡ 2 }
    ensures six_undos_before_the_journal { owed before_journal ≡ 7 }
    ensures its_cancel_alone_behind_the_journal { owed journalled ≡ 1 }
    ensures two_undos_on_a_way_back { owed back_stepped ≡ 3 }
    ensures the_sum_for_two_workflows { owed (after_events stepped (made_of_other ∷ [])) ≡ 4 }
    ensures nothing_behind_its_cancel { owed (after_events copied (cancel mv ∷ [])) ≡ 0 }
{}
