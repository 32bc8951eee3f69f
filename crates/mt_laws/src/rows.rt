//! Laws on the rows that reads answer.
ghost use Rattle.std.specs.Prelude.{◌≡◌, ℕ, [], ◌∷◌, false, true, List, Some, codes, map};
ghost use Rattle.mt_laws.specs.Copies.{tests_level};
ghost use Rattle.mt_laws.specs.Acknowledged.{acknowledged, row_by};
ghost use Rattle.mt_laws.specs.WayBack.{IsReached};
ghost use Rattle.mt_model.specs.declared.entries.Scope.{Scope};
ghost use Rattle.mt_model.specs.declared.rows.Op.{Op};
ghost use Rattle.mt_model.specs.Rows.{Row, op_key};
ghost use Rattle.mt_names.specs.declared.types.TabletType.TheVariants.{Primary};
ghost use Rattle.mt_plain.specs.Answers.{Answers, Run, after};
ghost use Rattle.mt_plain.specs.Events.{Event, write, read, step, complete, not_level, Refusal, Answer, done, row, refused, Way};
ghost use Rattle.mt_plain.specs.Next.{next};
ghost use Rattle.mt_plain.specs.Plain.{Live, Plain, changes_primary, is_side, live_at, mover, next_step, opening, owner, refresh_source, refresh_target, stands_done, write_journal, Lane, lane_of, stands_done_at};
ghost use Rattle.mt_plain.specs.Refuse.{is_behind};
ghost use Rattle.mt_plain.specs.Serve.{IsWritable};
ghost use Rattle.mt_plain.specs.Writes.{client_number, client_row, row_of};

/// After any run, a row that a read of type primary answers is what the operations acknowledged on it make, each applied
/// once, in their order, in either keyspace of a move, whatever steps of a switch or of a reversal stand done.
pub fn each_primary_read_answers_from_the_acknowledged_writes()
    ensures each_once { (scopes : List Scope) (events : List Event) (answers : List Answer)
        → Run (opening scopes) events answers → (keyspace table : List ℕ) (key : ℕ) (r : Row)
        → Answers (after (opening scopes) events answers) (read keyspace table key Primary) (row r)
        → r ≡ row_by (acknowledged (opening scopes) (client_number (after (opening scopes) events answers) keyspace table) key events answers) }
    ensures as_it_is { (p : Plain) → IsReached p → (keyspace table : List ℕ) (key : ℕ) (r : Row)
        → Answers p (read keyspace table key Primary) (row r) → r ≡ client_row p keyspace table key }
{}

/// In each state that a run reaches, whatever steps stand done: of the two keyspaces of a moved table it is the owner alone
/// that answers reads of type primary, acknowledges writes and is writable at all. A write that is refused changes no row
/// anywhere.
pub fn the_owner_alone_serves_the_primary()
    ensures reads { (p : Plain) → IsReached p → (table : List ℕ) (w : Live) → mover p table ≡ Some w
        → (keyspace : List ℕ) → is_side w keyspace ≡ true → (key : ℕ) (r : Row)
        → Answers p (read keyspace table key Primary) (row r) → keyspace ≡ owner w }
    ensures writes { (p : Plain) → IsReached p → (table : List ℕ) (w : Live) → mover p table ≡ Some w
        → (keyspace : List ℕ) → is_side w keyspace ≡ true → (op : Op)
        → Answers p (write keyspace table op) done → keyspace ≡ owner w }
    ensures writable { (p : Plain) → IsReached p → (table : List ℕ) (w : Live) → mover p table ≡ Some w
        → (keyspace : List ℕ) → is_side w keyspace ≡ true → IsWritable p keyspace table → keyspace ≡ owner w }
    ensures refused { (p : Plain) (keyspace table : List ℕ) (op : Op) (refusal : Refusal) (k t : List ℕ) (key : ℕ)
        → row_of (next p (write keyspace table op) (refused refusal)) k t key ≡ row_of p k t key }
{}

/// In each state that a run reaches, on a way that changes writes: from the refresh of the old owner's primary to that of
/// the new one's no write to a moved table is acknowledged, and no read of type primary answered, in either of its
/// keyspaces.
pub fn neither_side_serves_between_the_refreshes()
    ensures writes { (p : Plain) → IsReached p → (table : List ℕ) (w : Live) (way : Way) → mover p table ≡ Some w
        → w.way ≡ Some way → changes_primary way ≡ true → stands_done way refresh_source ≡ true → (op : Op) (lane : Lane)
        → lane_of w (op_key op) ≡ Some lane → stands_done_at way refresh_target lane.shard ≡ false
        → (keyspace : List ℕ) → is_side w keyspace ≡ true → Answers p (write keyspace table op) done → ⊥ }
    ensures reads { (p : Plain) → IsReached p → (table : List ℕ) (w : Live) (way : Way) → mover p table ≡ Some w
        → w.way ≡ Some way → changes_primary way ≡ true → stands_done way refresh_source ≡ true → (key : ℕ) (lane : Lane)
        → lane_of w key ≡ Some lane → stands_done_at way refresh_target lane.shard ≡ false
        → (keyspace : List ℕ) → is_side w keyspace ≡ true → (r : Row) → Answers p (read keyspace table key Primary) (row r) → ⊥ }
{}

/// What the laws on rows presuppose does happen: a switch of reads is refused as not level; the rest is fed, and the journal is
/// taken; the move is completed, and the target answers the row that was written before Create and the one written since.
pub fn a_move_with_rows_can_be_completed()
    ensures refused { (p : Plain) × (w : Live) × (way : Way) × IsReached p × (live_at p (codes "w") ≡ Some w)
        × (w.way ≡ Some way) × (way.undoing ≡ false) × (tests_level w way ≡ true) × (is_behind p w ≡ true)
        × Answers p (step (codes "w") way.done) (refused not_level) }
    ensures journal { (p : Plain) × (w : Live) × (way : Way) × IsReached p × (live_at p (codes "w") ≡ Some w)
        × (w.way ≡ Some way) × (next_step way ≡ write_journal) × (map (λ lane. lane.fed) w.lanes ≡ 2 ∷ [])
        × Answers p (step (codes "w") way.done) done }
    ensures complete { (p : Plain) × (w : Live) × IsReached p × (live_at p (codes "w") ≡ Some w)
        × Answers p (complete (codes "w")) done
        × Answers (next p (complete (codes "w")) done) (read w.target (codes "t") 1 Primary) (row (Some (record { items = codes "x" })))
        × Answers (next p (complete (codes "w")) done) (read w.target (codes "t") 2 Primary) (row (Some (record { items = codes "y" }))) }
{}
