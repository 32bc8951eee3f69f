//! Publications: a front with the view of the topology after that many lines, in whatever order.
ghost use Rattle.std.specs.Prelude.{◌∷◌, [], None, Some, false, true};
ghost use Rattle.mt_plain.specs.Answers.{ArePublications, IsPublication, IsView};
ghost use Rattle.mt_plain.specs.Plain.{in_keyspace};
ghost use Rattle.mt_worked.specs.Histories.{history, start};
ghost use Rattle.mt_worked.specs.Publications.{c_entry, front, made_view, made_view_turned, moving, rules_at_create};
ghost use Rattle.mt_worked.specs.Publications.{switched_view, table_entry};
ghost use Rattle.mt_worked.specs.States.{commerce, corder, customer, other, plain, switched, watched};
ghost use Rattle.mt_model.specs.declared.entries.Entry.TheVariants as entry;

/// A publication has each entry that routes at its front, once, and no other; the fronts of a desk never fall.
pub fn publications_tell_the_views_of_their_fronts()
    ensures a_view_after_two_lines_is_empty { IsPublication start history (front 2 []) }
    ensures a_view_after_three_lines_has_the_table { IsPublication start history (front 3 (table_entry ∷ [])) }
    ensures a_view_after_all_lines_has_the_rule { IsPublication start history (front 5 (c_entry ∷ table_entry ∷ [])) }
    ensures a_view_in_another_order_is_one { IsPublication start history (front 5 (table_entry ∷ c_entry ∷ [])) }
    ensures no_view_lacks_an_entry { ¬ (IsPublication start history (front 5 (c_entry ∷ []))) }
    ensures no_view_has_an_entry_twice { ¬ (IsPublication start history
        (front 5 (c_entry ∷ table_entry ∷ c_entry ∷ []))) }
    ensures no_view_has_a_denial { ¬ (IsPublication watched moving
        (front 4 (entry.Denied customer corder true ∷ made_view))) }
    ensures no_view_has_a_rule_without_a_target { ¬ (IsPublication start history
        (front 5 (c_entry ∷ table_entry ∷ entry.Rule (plain corder) None ∷ []))) }
    ensures no_view_has_an_absent_table { ¬ (IsPublication start history
        (front 5 (c_entry ∷ table_entry ∷ entry.Present commerce (other) false ∷ []))) }
    ensures no_view_has_a_rule_that_is_not_served { ¬ (IsPublication start history
        (front 5 (c_entry ∷ table_entry ∷ entry.Rule (plain corder) (Some (in_keyspace commerce corder)) ∷ []))) }
    ensures no_view_is_of_another_front { ¬ (IsPublication start history (front 3 [])) }
    ensures no_front_is_past_the_history { ¬ (IsPublication start history (front 6 (c_entry ∷ table_entry ∷ []))) }
    ensures a_view_has_the_part_of_a_live_workflow { IsPublication watched moving (front 4 made_view) }
    ensures it_may_have_it_in_another_order { IsPublication watched moving (front 4 made_view_turned) }
    ensures no_view_lacks_the_table_at_the_target { ¬ (IsPublication watched moving
        (front 4 (table_entry ∷ rules_at_create))) }
    ensures no_view_is_of_the_topology_without_the_workflow { ¬ (IsPublication watched moving
        (front 4 (table_entry ∷ []))) }
    ensures a_view_behind_a_switch_leads_to_the_target { IsView switched switched_view }
    ensures publications_go_forward { ArePublications watched moving
        (front 0 [] ∷ front 3 (table_entry ∷ []) ∷ front 3 (table_entry ∷ []) ∷ front 4 made_view_turned ∷ []) }
    ensures the_first_is_of_no_line { ¬ (ArePublications watched moving
        (front 3 (table_entry ∷ []) ∷ front 4 made_view ∷ [])) }
    ensures fronts_never_fall { ¬ (ArePublications watched moving
        (front 0 [] ∷ front 4 made_view ∷ front 3 (table_entry ∷ []) ∷ [])) }
    ensures no_desk_has_no_publication { ¬ (ArePublications watched moving []) }
    ensures each_of_them_is_the_view_of_its_front { ¬ (ArePublications watched moving
        (front 0 [] ∷ front 3 [] ∷ front 4 made_view ∷ [])) }
{}
