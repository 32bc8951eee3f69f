//! What follows from how the log and the rows of a table are read.
ghost use Rattle.std.specs.Prelude.{◌≡◌, ℕ, ◌+◌, ◌<◌, ◌≤◌, List, [], ◌∷◌, fold, take, Option, None, Some, Ok};
ghost use Rattle.mt_model.specs.Rows.{RowValue, row_with};
ghost use Rattle.mt_primary.specs.Primary.{IsInKeyOrder, IsPrimary, PrimaryState, TableState, end_of, made_at, row_at, row_at_position};
ghost use Rattle.mt_primary.specs.Reads.{entries_from, entry_at, next_row_in, rows_above};

use mt_model::RowChange;

/// From the first kept position on each entry is there: the entries from a position on are the one there and those from
/// the next position on; or there is none.
pub fn a_log_is_read_in_order()
    ensures kept { (p : PrimaryState) (position : ℕ) → p.log.purged ≤ position → position < end_of p
        → (change : RowChange) × (entry_at p position ≡ Ok (Some change)) }
    ensures entry { (p : PrimaryState) (position : ℕ) (change : RowChange) → entry_at p position ≡ Ok (Some change)
        → entries_from p position ≡ change ∷ entries_from p (position + 1) }
    ensures end { (p : PrimaryState) (position : ℕ) → entry_at p position ≡ Ok None → entries_from p position ≡ [] }
{}

/// The rows of a table as of a position at which it was there, changed by so many entries from there on, are its rows as of
/// the position behind these; and changed by all of them, its rows.
pub fn the_kept_entries_lead_to_the_rows()
    ensures on { (p : PrimaryState) → IsPrimary p → (name : List ℕ) (made : ℕ) → made_at p name ≡ Some made
        → (position : ℕ) → made ≤ position → p.log.purged ≤ position → (key count : ℕ)
        → fold (row_with name key) (row_at_position p position name key) (take count (entries_from p position)) ≡ row_at_position p (position + count) name key }
    ensures to_the_rows { (p : PrimaryState) → IsPrimary p → (name : List ℕ) (made : ℕ) → made_at p name ≡ Some made
        → (position : ℕ) → made ≤ position → p.log.purged ≤ position → (key : ℕ)
        → fold (row_with name key) (row_at_position p position name key) (entries_from p position) ≡ row_at p name key }
{}

/// The rows above a key are the next row and the rows above its key; or there is none.
pub fn rows_are_read_in_order()
    ensures row { (table : TableState) (last : Option ℕ) (row : ℕ × RowValue) → IsInKeyOrder table → next_row_in table last ≡ Some row
        → rows_above table last ≡ row ∷ rows_above table (Some row.0) }
    ensures end { (table : TableState) (last : Option ℕ) → next_row_in table last ≡ None → rows_above table last ≡ [] }
{}
