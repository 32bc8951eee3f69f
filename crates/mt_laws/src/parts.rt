//! Laws on the parts of live workflows, and on where a moved table is writable.
ghost use Rattle.std.specs.Prelude.{◌≡◌, ◌≢◌, ◌↔◌, AllPairs, ℕ, false, true, List, None, Some};
ghost use Rattle.mt_laws.specs.WayBack.{IsReached};
ghost use Rattle.mt_model.specs.declared.entries.Entry.TheVariants as entry;
ghost use Rattle.mt_model.specs.declared.entries.EntryKey.{EntryKey};
ghost use Rattle.mt_model.specs.declared.entries.EntryKey.TheVariants as about;
ghost use Rattle.mt_plain.specs.Plain.{Live, Plain, has_part, is_side, mover, moves, owner, part_owner};
ghost use Rattle.mt_plain.specs.Serve.{IsWritable, refuses, served_entry};

/// In each state that a run reaches, no two live workflows share an entry of their parts, a table or a name; and a denial
/// stands only in the part of a live workflow, in the topology and in the primaries' own lists.
pub fn parts_are_apart()
    ensures keys { (p : Plain) → IsReached p
        → AllPairs (λ v w. (key : EntryKey) → has_part v key ≡ true → has_part w key ≡ true → ⊥) p.lives }
    ensures tables { (p : Plain) → IsReached p
        → AllPairs (λ v w. (table : List ℕ) → moves v table ≡ true → moves w table ≡ true → ⊥) p.lives }
    ensures names { (p : Plain) → IsReached p → AllPairs (λ v w. v.name ≢ w.name) p.lives }
    ensures denials { (p : Plain) → IsReached p → (keyspace table : List ℕ)
        → part_owner p (about.Denied keyspace table) ≡ None
        → served_entry p (about.Denied keyspace table) ≡ entry.Denied keyspace table false }
    ensures own_lists { (p : Plain) (keyspace : List ℕ) (shard : ℕ) (table : List ℕ) → part_owner p (about.Denied keyspace table) ≡ None
        → refuses p keyspace shard table ≡ false }
{}

/// In each state that a run reaches, a moved table is writable in at most one of the two keyspaces of its workflow,
/// whatever steps stand done; where no way is open it is writable in exactly one of them, the owner, and there in each shard.
pub fn a_moved_table_is_never_writable_in_two()
    ensures at_most_one { (p : Plain) → IsReached p → (table : List ℕ) (w : Live) → mover p table ≡ Some w
        → IsWritable p w.source table → IsWritable p w.target table → ⊥ }
    ensures the_owner { (p : Plain) → IsReached p → (table : List ℕ) (w : Live) → mover p table ≡ Some w
        → w.way ≡ None → (keyspace : List ℕ) → is_side w keyspace ≡ true
        → IsWritable p keyspace table ↔ (keyspace ≡ owner w) }
    ensures each_shard { (p : Plain) → IsReached p → (table : List ℕ) (w : Live) → mover p table ≡ Some w
        → w.way ≡ None → (shard : ℕ) → refuses p (owner w) shard table ≡ false }
{}
