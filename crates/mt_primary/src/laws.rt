//! What follows from how denials are set, refreshed and given back.
ghost use Rattle.std.specs.Prelude.{◌≡◌, ℕ, Bool, true, false, List, Option, None, Some, map, option_map, unwrap_or, if◌then◌else◌};
ghost use Rattle.mt_watch.specs.Notices.{notice_of};
ghost use Rattle.mt_primary.specs.Denials.{AreDenialsSet, is_named, marks_of, told_by_marks, told_by_notice, told_by_refresh, with_denials, with_told};
ghost use Rattle.mt_primary.specs.Primary.{IsPrimary, PrimaryState, has_table, is_denied_at, made_at, row_at, table_at};

use mt_watch::{Entry, Scope};

/// To set denials changes no table's presence, the position at which it was made, and no row; a table that is there is
/// denied as is told of it, or as before.
pub fn denials_change_nothing_else()
    ensures by_name { (old new : PrimaryState) (told : List ℕ → Option Bool) → AreDenialsSet old told new
        → (name : List ℕ) → table_at new name ≡ option_map (with_told (told name)) (table_at old name) }
    ensures tables { (old new : PrimaryState) (told : List ℕ → Option Bool) → AreDenialsSet old told new
        → (name : List ℕ) → has_table new name ≡ has_table old name }
    ensures made { (old new : PrimaryState) (told : List ℕ → Option Bool) → AreDenialsSet old told new
        → (name : List ℕ) → made_at new name ≡ made_at old name }
    ensures rows { (old new : PrimaryState) (told : List ℕ → Option Bool) → AreDenialsSet old told new
        → (name : List ℕ) (key : ℕ) → row_at new name key ≡ row_at old name key }
    ensures denied { (old new : PrimaryState) (told : List ℕ → Option Bool) → AreDenialsSet old told new
        → (name : List ℕ) → has_table old name ≡ true → is_denied_at new name ≡ unwrap_or (told name) (is_denied_at old name) }
{}

/// A refresh takes over what the notice says of a named table, and changes no other table.
pub fn a_refresh_concerns_named_tables()
    ensures named { (old new : PrimaryState) (keyspace : List ℕ) (notice : List Entry) (tables : List (List ℕ))
        → AreDenialsSet old (told_by_refresh keyspace notice tables) new
        → (name : List ℕ) → is_named tables name ≡ true → has_table old name ≡ true
        → is_denied_at new name ≡ unwrap_or (told_by_notice keyspace notice name) (is_denied_at old name) }
    ensures others { (old new : PrimaryState) (keyspace : List ℕ) (notice : List Entry) (tables : List (List ℕ))
        → AreDenialsSet old (told_by_refresh keyspace notice tables) new
        → (name : List ℕ) → is_named tables name ≡ false → table_at new name ≡ table_at old name }
{}

/// What stood before a refresh is given back to the named tables, whatever changed between, and the other tables stay
/// as they are now. Where nothing changed between, all is as before the refresh.
pub fn a_refresh_is_taken_back()
    ensures named { (before now back : PrimaryState) (tables : List (List ℕ))
        → AreDenialsSet now (told_by_marks (marks_of before tables)) back
        → (name : List ℕ) → is_named tables name ≡ true → has_table now name ≡ true
        → is_denied_at back name ≡ is_denied_at before name }
    ensures others { (before now back : PrimaryState) (tables : List (List ℕ))
        → AreDenialsSet now (told_by_marks (marks_of before tables)) back
        → (name : List ℕ) → is_named tables name ≡ false → table_at back name ≡ table_at now name }
    ensures at_once { (p : PrimaryState) (keyspace : List ℕ) (notice : List Entry) (tables : List (List ℕ)) → IsPrimary p
        → with_denials (told_by_marks (marks_of p tables)) (with_denials (told_by_refresh keyspace notice tables) p) ≡ p }
{}

/// The notice of a change for a keyspace's primary says of its denials what the change says; and a change that has a
/// denial of each of some tables says it of these, and of no other.
pub fn a_notice_tells_what_its_change_tells()
    ensures notice { (keyspace : List ℕ) (change : List Entry) (name : List ℕ)
        → told_by_notice keyspace (notice_of (Scope.Primary keyspace) change) name ≡ told_by_notice keyspace change name }
    ensures change { (keyspace : List ℕ) (tables : List (List ℕ)) (mark : List ℕ → Bool) (name : List ℕ)
        → told_by_notice keyspace (map (λ table. Entry.Denied keyspace table (mark table)) tables) name ≡ (if is_named tables name then Some (mark name) else None) }
{}
