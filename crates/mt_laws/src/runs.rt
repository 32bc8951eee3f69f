//! Laws on runs.
ghost use Rattle.std.specs.Prelude.{◌≡◌, ℕ, true, List, Some, fold};
ghost use Rattle.std.specs.Map.{lookup};
ghost use Rattle.mt_names.specs.declared.keys.RuleTarget.{RuleTarget};
ghost use Rattle.mt_names.specs.Same.{same_target};
ghost use Rattle.mt_laws.specs.Acknowledged.{acknowledged, row_by, row_with_op};
ghost use Rattle.mt_model.specs.declared.entries.Scope.{Scope};
ghost use Rattle.mt_laws.specs.WayBack.{IsReached};
ghost use Rattle.mt_plain.specs.Answers.{Answers, Run, after};
ghost use Rattle.mt_plain.specs.Events.{Event, create, cancel, complete, Answer, done};
ghost use Rattle.mt_plain.specs.Next.{next};
ghost use Rattle.mt_plain.specs.Plain.{Live, Plain, is_side, live_at, moves, opening};
ghost use Rattle.mt_plain.specs.Writes.{client_number, client_row, row_after_writes};

/// After any run the row of a client table is what the operations acknowledged on it make, each applied once, in their
/// order, wherever its workflow had it written; and a run goes on from the rows that it finds.
pub fn reads_answer_the_acknowledged_writes()
    ensures from_the_opening { (scopes : List Scope) (events : List Event) (answers : List Answer)
        → Run (opening scopes) events answers → (keyspace table : List ℕ) (key : ℕ)
        → client_row (after (opening scopes) events answers) keyspace table key
        ≡ row_by (acknowledged (opening scopes) (client_number (after (opening scopes) events answers) keyspace table) key events answers) }
    ensures from_each_state { (p : Plain) (events : List Event) (answers : List Answer)
        → Run p events answers → (number key : ℕ)
        → row_after_writes (after p events answers).writes number key
        ≡ fold row_with_op (row_after_writes p.writes number key) (acknowledged p number key events answers) }
{}

/// In every run, two tables have two numbers, so that no write is told of two tables; Complete moves a number, and no table
/// gets one that another has had.
pub fn tables_are_told_apart()
    ensures { (scopes : List Scope) (events : List Event) (answers : List Answer) (a b : RuleTarget) (n : ℕ)
        → lookup (same_target a) (after (opening scopes) events answers).numbers ≡ Some n
        → lookup (same_target b) (after (opening scopes) events answers).numbers ≡ Some n → a ≡ b }
{}

/// In each state that a run reaches, a moved table has one number, by which its acknowledged writes are told: Create takes that
/// of the source's table for both sides, each event keeps it while the workflow is live, Cancel leaves it to the source, and
/// Complete hands it to the target, whose rows then are those that it had just before. So a table's list of acknowledged writes
/// goes on through a move, any switches and reversals, and a completion.
pub fn a_moved_table_keeps_its_number()
    ensures create { (p : Plain) → IsReached p → (name source target : List ℕ) (tables : List (List ℕ))
        → Answers p (create name source target tables) done → (w : Live)
        → live_at (next p (create name source target tables) done) name ≡ Some w → (table : List ℕ) → moves w table ≡ true
        → (keyspace : List ℕ) → is_side w keyspace ≡ true
        → client_number (next p (create name source target tables) done) keyspace table ≡ client_number p source table }
    ensures kept { (p : Plain) → IsReached p → (name : List ℕ) (w : Live) → live_at p name ≡ Some w → (event : Event)
        (answer : Answer) → Answers p event answer → (v : Live) → live_at (next p event answer) name ≡ Some v
        → (table : List ℕ) → moves w table ≡ true → (keyspace : List ℕ) → is_side w keyspace ≡ true
        → client_number (next p event answer) keyspace table ≡ client_number p keyspace table }
    ensures cancel { (p : Plain) → IsReached p → (name : List ℕ) (w : Live) → live_at p name ≡ Some w
        → Answers p (cancel name) done → (table : List ℕ) → moves w table ≡ true
        → client_number (next p (cancel name) done) w.source table ≡ client_number p w.source table }
    ensures complete { (p : Plain) → IsReached p → (name : List ℕ) (w : Live) → live_at p name ≡ Some w
        → Answers p (complete name) done → (table : List ℕ) → moves w table ≡ true
        → client_number (next p (complete name) done) w.target table ≡ client_number p w.target table }
    ensures rows { (p : Plain) → IsReached p → (name : List ℕ) (w : Live) → live_at p name ≡ Some w
        → Answers p (complete name) done → (table : List ℕ) → moves w table ≡ true → (key : ℕ)
        → client_row (next p (complete name) done) w.target table key ≡ client_row p w.target table key }
{}
