//! Laws on tables and their rows where no workflow is live, one answer at a time.
ghost use Rattle.std.specs.Prelude.{◌≡◌, ℕ, List, [], None, fold};
ghost use Rattle.mt_laws.specs.Acknowledged.{row_with_op};
ghost use Rattle.mt_laws.specs.Numbers.{HasNumbers, IsByHand, acknowledged_at, calm};
ghost use Rattle.mt_model.specs.declared.entries.Scope.{Scope};
ghost use Rattle.mt_plain.specs.Events.{Event, done};
ghost use Rattle.mt_plain.specs.Next.{next};
ghost use Rattle.mt_plain.specs.Plain.{Plain, opening};
ghost use Rattle.mt_plain.specs.Refuse.{refusal_of};
ghost use Rattle.mt_plain.specs.Writes.{row_of};

/// From the opening on a table has a number of its own, whatever is done by hand.
pub fn tables_keep_numbers_of_their_own()
    ensures opening { (scopes : List Scope) → HasNumbers (opening scopes) }
    ensures next { (p : Plain) (event : Event) → IsByHand event → HasNumbers p → refusal_of (calm p) event ≡ None
        → HasNumbers (next (calm p) event done) }
{}

/// An event that is done changes a row by the operation that it acknowledges there, and changes no other row.
pub fn an_answer_changes_a_row_by_its_operation_alone()
    ensures { (p : Plain) (event : Event) → IsByHand event → HasNumbers p → refusal_of (calm p) event ≡ None
        → (keyspace table : List ℕ) (key : ℕ) → row_of (next (calm p) event done) keyspace table key
        ≡ fold row_with_op (row_of (calm p) keyspace table key) (acknowledged_at keyspace table key event done) }
{}
