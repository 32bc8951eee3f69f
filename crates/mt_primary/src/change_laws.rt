//! What follows from how tables are made and dropped, and rows put.
ghost use Rattle.std.specs.Prelude.{◌≡◌, ◌≢◌, ℕ, ◌≤◌, false, List, [], ◌∷◌, ◌++◌, None, Some, length};
ghost use Rattle.mt_primary.specs.Primary.{IsPrimary, PrimaryState, end_of, has_table, new_table, row_at, table_at};
ghost use Rattle.mt_primary.specs.Reads.{entries_from};
ghost use Rattle.mt_primary.specs.Writes.{IsPut, RowPut, change_by, row_after_put, with_new_table, without_table};

/// A table that is made is there, without rows and not denied, and each other table is as it was. Dropped at once, it
/// leaves the very primary that stood before, if it wasn't there.
pub fn a_table_is_made()
    ensures here { (p : PrimaryState) (name : List ℕ) → has_table p name ≡ false
        → table_at (with_new_table p name) name ≡ Some (new_table (end_of p)) }
    ensures others { (p : PrimaryState) (name other : List ℕ) → other ≢ name
        → table_at (with_new_table p name) other ≡ table_at p other }
    ensures dropped_at_once { (p : PrimaryState) (name : List ℕ) → has_table p name ≡ false
        → without_table (with_new_table p name) name ≡ p }
{}

/// A table that is dropped is gone, and each other table is as it was.
pub fn a_table_is_dropped()
    ensures here { (p : PrimaryState) (name : List ℕ) → IsPrimary p → table_at (without_table p name) name ≡ None }
    ensures others { (p : PrimaryState) (name other : List ℕ) → other ≢ name
        → table_at (without_table p name) other ≡ table_at p other }
{}

/// A row that is put changes no other row and no table's presence, and its entry stands behind those that the log has
/// from any position on.
pub fn a_row_is_put()
    ensures rows { (old new : PrimaryState) (put : RowPut) → IsPut old put new
        → (table : List ℕ) (key : ℕ) → row_at new table key ≡ row_after_put table key (row_at old table key) put }
    ensures tables { (old new : PrimaryState) (put : RowPut) → IsPut old put new
        → (name : List ℕ) → has_table new name ≡ has_table old name }
    ensures entry { (old new : PrimaryState) (put : RowPut) → IsPut old put new
        → (position : ℕ) → old.log.purged ≤ position → position ≤ end_of old → entries_from new position ≡ entries_from old position ++ change_by old put ∷ [] }
{}
