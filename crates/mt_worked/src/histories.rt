//! Notices, writable tables, histories of several clients, and what scripts leave.
ghost use Rattle.std.specs.Prelude.{◌≡◌, ◌∷◌, [], codes, false, true};
ghost use Rattle.mt_model.specs.Notices.{notice_of};
ghost use Rattle.mt_plain.specs.Answers.{IsLegal};
ghost use Rattle.mt_plain.specs.Output.{Leaves, read_fault, too_long};
ghost use Rattle.mt_plain.specs.Script.{read_line};
ghost use Rattle.mt_plain.specs.Serve.{IsWritable};
ghost use Rattle.mt_worked.specs.Histories.{change, history, invented, rule_entry, start};
ghost use Rattle.mt_worked.specs.States.{commerce, corder, customer, live, other, refreshed, switched};
ghost use Rattle.mt_model.specs.declared.entries.Entry.TheVariants as entry;
ghost use Rattle.mt_model.specs.declared.entries.Scope.TheVariants as scope;

/// A notice has what concerns its scope.
pub fn notices_have_what_concerns_their_scope()
    ensures rules_and_tables_for_routers { notice_of scope.Routes change
        ≡ rule_entry ∷ entry.Present customer corder true ∷ [] }
    ensures its_denials_for_a_primary { notice_of (scope.Primary customer) change
        ≡ entry.Denied customer corder true ∷ entry.Denied customer other false ∷ [] }
    ensures its_own_for_another { notice_of (scope.Primary commerce) change
        ≡ entry.Denied commerce corder false ∷ [] }
{}

/// A moved table is writable at one side, or at none between the two refreshes.
pub fn one_side_is_writable()
    ensures the_owner { IsWritable live commerce corder }
    ensures the_other_side_is_not { ¬ (IsWritable live customer corder) }
    ensures no_side_behind_the_refresh { ¬ (IsWritable refreshed commerce corder) }
    ensures the_new_owner { IsWritable switched customer corder }
    ensures the_old_owner_is_not { ¬ (IsWritable switched commerce corder) }
{}

/// A history follows from its opening.
pub fn histories_follow_from_their_opening()
    ensures of_two_clients { IsLegal start history }
    ensures not_with_an_invented_answer { ¬ (IsLegal start invented) }
{}

/// A script is read whole before its first line.
pub fn scripts_that_end_early_leave_nothing()
    ensures a_read_that_fails { Leaves read_line [] read_fault (codes "keyspace k\n") [] }
    ensures not_an_answer { ¬ (Leaves read_line [] read_fault (codes "keyspace k\n") (codes "ok\n")) }
    ensures a_line_is_not_too_long { ¬ (Leaves read_line [] too_long (codes "keyspace k\n") []) }
{}
