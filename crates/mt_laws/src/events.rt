//! Laws on one event.
ghost use Rattle.std.specs.Prelude.{◌≡◌, ℕ, true, false, List, Some, None};
ghost use Rattle.mt_names.specs.declared.types.TabletType.{TabletType};
ghost use Rattle.mt_model.specs.declared.rows.Op.{Op};
ghost use Rattle.mt_model.specs.Rows.{Row, op_key, op_row};
ghost use Rattle.mt_names.specs.Shards.{Cuts};
ghost use Rattle.mt_plain.specs.Answers.{Answers, IsFree, answer_of};
ghost use Rattle.mt_plain.specs.Events.{Event, write, read, add_keyspace, add_table, Refusal, exists, Answer, row, refused};
ghost use Rattle.mt_plain.specs.Next.{next};
ghost use Rattle.mt_plain.specs.Plain.{Live, Plain, has_keyspace, mover, owner, shard_at};
ghost use Rattle.mt_plain.specs.Refuse.{refusal_of, row_refusal};
ghost use Rattle.mt_plain.specs.Serve.{has_table, refuses};
ghost use Rattle.mt_plain.specs.Writes.{client_row, row_of};

/// A refused event leaves the state as it was.
pub fn refused_events_change_nothing()
    ensures { (p : Plain) (event : Event) (refusal : Refusal) → next p event (refused refusal) ≡ p }
{}

/// Free answers aside, which are out of memory, a watcher's refusal and an advance that is cut short, an event gets one
/// answer at most, and that is `answer_of`; each event gets it.
pub fn answers_are_determined()
    ensures one_at_most { (p : Plain) (event : Event) (answer : Answer) → Answers p event answer
        → ¬ (IsFree p event answer) → answer ≡ answer_of p event }
    ensures one_at_least { (p : Plain) (event : Event) → Answers p event (answer_of p event) }
{}

/// A row that a read answers is the row of the table there; at the owner of a moved table, and of a table that no live
/// workflow moves, that is the row of the client table.
pub fn reads_answer_the_row()
    ensures as_it_is { (p : Plain) (keyspace table : List ℕ) (key : ℕ) (tablet_type : TabletType) (r : Row)
        → Answers p (read keyspace table key tablet_type) (row r) → r ≡ row_of p keyspace table key }
    ensures not_moved { (p : Plain) (keyspace table : List ℕ) (key : ℕ) → mover p table ≡ None
        → row_of p keyspace table key ≡ client_row p keyspace table key }
    ensures at_the_owner { (p : Plain) (w : Live) (table : List ℕ) (key : ℕ) → mover p table ≡ Some w
        → row_of p (owner w) table key ≡ client_row p (owner w) table key }
{}

/// A limit is told last: what is there already, and what the row refuses, is told where a limit is reached too.
pub fn limits_are_told_last()
    ensures keyspace { (p : Plain) (keyspace : List ℕ) (cuts : Cuts) → has_keyspace p keyspace ≡ true
        → refusal_of p (add_keyspace keyspace cuts) ≡ Some exists }
    ensures table { (p : Plain) (keyspace table : List ℕ) → has_keyspace p keyspace ≡ true
        → has_table p keyspace table ≡ true → refusal_of p (add_table keyspace table) ≡ Some exists }
    ensures row { (p : Plain) (keyspace table : List ℕ) (op : Op) (refusal : Refusal)
        → has_keyspace p keyspace ≡ true → has_table p keyspace table ≡ true → refuses p keyspace (shard_at p keyspace (op_key op)) table ≡ false
        → row_refusal (op_row op (client_row p keyspace table (op_key op))) ≡ Some refusal
        → refusal_of p (write keyspace table op) ≡ Some refusal }
{}
