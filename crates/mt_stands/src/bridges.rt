//! Laws on what the calls that make and drop tables, and set denials, leave of a primary: the premises of the laws on events.
ghost use Rattle.std.specs.Prelude.{◌≡◌, ℕ, Bool, true, false, not, ◌&&◌, ◌||◌, List, fold, reverse, Option, None};
ghost use Rattle.std.specs.List.{IsDistinct};
ghost use Rattle.mt_names.specs.Names.{same_text};
ghost use Rattle.mt_plain.specs.Plain.{among};
ghost use Rattle.mt_primary.specs.Denials.{AreDenialsSet};
ghost use Rattle.mt_primary.specs.Primary.{IsPrimary, PrimaryState, has_table, is_denied_at, row_at};
ghost use Rattle.mt_primary.specs.Writes.{with_new_table, without_table};
ghost use Rattle.mt_stands.specs.Rows.{OtherTablesStay};

use mt_primary::denials_change_nothing_else;

/// Tables that are made one after the other are there, without rows and not denied, and tables that are dropped are gone; the
/// log, the rows and the denials of the other tables stay. Tables that weren't there, made and then dropped, in the order
/// named or in reverse, leave the very primary that stood before. And denials that are set change no row and no log.
pub fn tables_made_and_dropped_leave_the_others()
    ensures made { (old : PrimaryState) (tables : List (List ℕ)) → OtherTablesStay tables old (fold with_new_table old tables) }
    ensures empty { (old : PrimaryState) (tables : List (List ℕ))
        → ((table : List ℕ) → among tables table ≡ true → has_table old table ≡ false)
        → (table : List ℕ) → among tables table ≡ true → (key : ℕ) → row_at (fold with_new_table old tables) table key ≡ None }
    ensures there { (old : PrimaryState) (tables : List (List ℕ)) (table : List ℕ)
        → has_table (fold with_new_table old tables) table ≡ (among tables table || has_table old table) }
    ensures allowed { (old : PrimaryState) (tables : List (List ℕ)) (table : List ℕ)
        → is_denied_at (fold with_new_table old tables) table ≡ is_denied_at old table }
    ensures dropped { (old : PrimaryState) (tables : List (List ℕ)) → OtherTablesStay tables old (fold without_table old tables) }
    ensures gone { (old : PrimaryState) (tables : List (List ℕ)) → IsPrimary old → (table : List ℕ)
        → has_table (fold without_table old tables) table ≡ (not (among tables table) && has_table old table) }
    ensures gone_denied { (old : PrimaryState) (tables : List (List ℕ)) → IsPrimary old → (table : List ℕ)
        → is_denied_at (fold without_table old tables) table ≡ (not (among tables table) && is_denied_at old table) }
    ensures dropped_at_once { (old : PrimaryState) (tables : List (List ℕ)) → IsDistinct same_text tables
        → ((table : List ℕ) → among tables table ≡ true → has_table old table ≡ false)
        → fold without_table (fold with_new_table old tables) (reverse tables) ≡ old }
    ensures dropped_in_order { (old : PrimaryState) (tables : List (List ℕ))
        → ((table : List ℕ) → among tables table ≡ true → has_table old table ≡ false)
        → fold without_table (fold with_new_table old tables) tables ≡ old }
    ensures denials { (old new : PrimaryState) (told : List ℕ → Option Bool) → AreDenialsSet old told new
        → (tables : List (List ℕ)) → OtherTablesStay tables old new }
{
    denials_change_nothing_else();
}
