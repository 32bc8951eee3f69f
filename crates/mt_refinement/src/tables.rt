//! Laws on the keyspaces and tables of a base.
ghost use Rattle.std.specs.Prelude.{◌≡◌, ℕ, ◌<◌, true, List, is_some, length};
ghost use Rattle.mt_model.specs.declared.entries.EntryKey.TheVariants as about;
ghost use Rattle.mt_model.specs.Topology.{cuts_at, has_place, is_present, keyspace_at};
ghost use Rattle.mt_names.specs.Shards.{AreCuts, shard_count};
ghost use Rattle.mt_primary.specs.Primaries.{count_of, has_primaries, primary_of, shards_of};
ghost use Rattle.mt_primary.specs.Primary.{has_table};
ghost use Rattle.mt_stands.specs.Base.{BaseState};
ghost use Rattle.mt_stands.specs.Stands.{IsBase};

use mt_laws::only_what_stands_has_a_place;
use mt_stands::places_are_as_many_as_the_definitions_count;

/// Each keyspace of a base's topology has a primary for each of its shards, and there are no others.
pub fn each_shard_of_a_base_has_a_primary()
    ensures there { (base : BaseState) → IsBase base → (keyspace : List ℕ)
        → has_primaries base.primaries keyspace ≡ is_some (keyspace_at base.topology.keyspaces keyspace) }
    ensures count { (base : BaseState) → IsBase base → length base.primaries ≡ length base.topology.keyspaces }
    ensures cuts { (base : BaseState) → IsBase base → (keyspace : List ℕ)
        → (shards_of base.primaries keyspace).cuts ≡ cuts_at base.topology.keyspaces keyspace }
    ensures ascend { (base : BaseState) → IsBase base → (keyspace : List ℕ) → AreCuts (shards_of base.primaries keyspace).cuts }
    ensures shards { (base : BaseState) → IsBase base → (keyspace : List ℕ) → has_primaries base.primaries keyspace ≡ true
        → count_of base.primaries keyspace ≡ shard_count (shards_of base.primaries keyspace).cuts }
{
    places_are_as_many_as_the_definitions_count();
}

/// Each primary of a keyspace has just the tables that are there in the topology, and just these have a place.
pub fn primaries_of_a_base_have_the_tables_of_its_topology()
    ensures tables { (base : BaseState) → IsBase base → (keyspace : List ℕ) (shard : ℕ) → shard < count_of base.primaries keyspace → (table : List ℕ)
        → has_table (primary_of base.primaries keyspace shard) table ≡ is_present base.topology.keyspaces keyspace table }
    ensures places { (base : BaseState) → IsBase base → (keyspace table : List ℕ)
        → has_place base.topology (about.Present keyspace table) ≡ is_present base.topology.keyspaces keyspace table }
{
    only_what_stands_has_a_place();
}
