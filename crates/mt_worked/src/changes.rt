//! The change with which watchers are asked.
ghost use Rattle.std.specs.Prelude.{◌≡◌, ◌++◌, ◌∷◌, [], None, Some, false, true};
ghost use Rattle.mt_names.specs.Types.{all_types};
ghost use Rattle.mt_model.specs.declared.rows.Op.TheVariants.{Delete};
ghost use Rattle.mt_model.specs.Notices.{notice_of};
ghost use Rattle.mt_plain.specs.Asks.{asked_change};
ghost use Rattle.mt_plain.specs.Events.{add_table, advance, begin_switch, cancel, complete, edit_rule, forward, show};
ghost use Rattle.mt_plain.specs.Events.{step, undo, write};
ghost use Rattle.mt_plain.specs.Plain.{in_keyspace};
ghost use Rattle.mt_worked.specs.Changes.{asked_by_any, created_marks, created_rules, denial, own_ruled, two_made};
ghost use Rattle.mt_worked.specs.Changes.{two_stepped};
ghost use Rattle.mt_worked.specs.FreeAnswers.{to_source, with_steps};
ghost use Rattle.mt_worked.specs.States.{allowed, back_allowed, back_stepped, before_journal, begun, commerce};
ghost use Rattle.mt_worked.specs.States.{corder, customer, journalled, live, made, mv, opened, other, plain};
ghost use Rattle.mt_worked.specs.States.{refreshed, stepped, switched};
ghost use Rattle.mt_model.specs.declared.entries.Entry.TheVariants as entry;
ghost use Rattle.mt_model.specs.declared.entries.Scope.TheVariants as scope;

/// At a Create with all that it makes, at a refresh with the denials to take over, and at no other event.
pub fn watchers_are_asked_with_a_change()
    ensures all_that_create_makes { asked_change begun (made mv) ≡ created_rules corder None ++ created_marks corder }
    ensures the_rule_of_the_sources_own_name_as_it_was { asked_change own_ruled (made mv)
        ≡ created_rules corder (Some (in_keyspace commerce corder)) ++ created_marks corder }
    ensures two_tables_in_the_order_first_named { asked_change begun two_made ≡ created_rules other None
        ++ created_marks other ++ created_rules corder None ++ created_marks corder }
    ensures the_denials_for_the_targets_primary { notice_of (scope.Primary customer) (asked_change begun two_made)
        ≡ entry.Denied customer other true ∷ entry.Denied customer corder true ∷ [] }
    ensures nothing_for_the_sources_primary { notice_of (scope.Primary commerce) (asked_change begun (made mv)) ≡ [] }
    ensures rules_and_presence_for_routers { notice_of scope.Routes (asked_change begun (made mv))
        ≡ created_rules corder None ++ entry.Present customer corder true ∷ [] }
    ensures the_source_is_denied { asked_change stepped (step mv 2) ≡ denial commerce true }
    ensures the_target_is_allowed { asked_change allowed (step mv 8) ≡ denial customer false }
    ensures on_a_way_back_the_target_is_denied { asked_change back_stepped (step mv 2) ≡ denial customer true }
    ensures on_a_way_back_the_source_is_allowed { asked_change back_allowed (step mv 8) ≡ denial commerce false }
    ensures both_tables_in_the_order_named { asked_change two_stepped (step mv 2)
        ≡ entry.Denied commerce other true ∷ entry.Denied commerce corder true ∷ [] }
    ensures nothing_before_a_way { asked_by_any live
        (advance mv forward 0 1 100 ∷ begin_switch mv all_types ∷ show mv ∷ cancel mv ∷ []) ≡ [] }
    ensures nothing_at_the_first_steps { asked_by_any opened (step mv 0 ∷ undo mv 0 ∷ [])
        ++ asked_by_any (with_steps 1) (step mv 1 ∷ undo mv 1 ∷ []) ≡ [] }
    ensures nothing_behind_the_refresh { asked_by_any refreshed (step mv 3 ∷ undo mv 3 ∷ [])
        ++ asked_by_any before_journal (step mv 6 ∷ undo mv 6 ∷ []) ≡ [] }
    ensures nothing_behind_the_journal { asked_by_any journalled (step mv 7 ∷ [])
        ++ asked_by_any (with_steps 9) (step mv 9 ∷ []) ≡ [] }
    ensures nothing_at_complete { asked_change switched (complete mv) ≡ [] }
    ensures nothing_of_rows_tables_and_rules { asked_by_any begun
        (write commerce corder (Delete 1) ∷ add_table customer corder ∷ edit_rule (plain corder) to_source ∷ []) ≡ [] }
    ensures nothing_of_no_workflow { asked_change begun (step mv 2) ≡ [] }
{}
