//! Laws on logs that are purged.
ghost use Rattle.std.specs.Prelude.{ℕ, List};
ghost use Rattle.mt_model.specs.declared.entries.Scope.{Scope};
ghost use Rattle.mt_model.specs.declared.rows.Op.{Op};
ghost use Rattle.mt_plain.specs.Events.{Answer};
ghost use Rattle.mt_plain.specs.Plain.{Plain};
ghost use Rattle.mt_model.specs.Rows.{op_key};
ghost use Rattle.mt_primary.specs.Primaries.{place_of_key, shards_of};
ghost use Rattle.mt_stands.specs.ByHand.{WritesRow};
ghost use Rattle.mt_stands.specs.Base.{BaseState};
ghost use Rattle.mt_stands.specs.Purges.{IsPurged, PurgesAll, PurgesBase, PurgesOne, with_purges};
ghost use Rattle.mt_stands.specs.Stands.{StandsWith};

use mt_stands::a_purge_keeps_rows_and_logs;

/// A base whose logs are purged, each below a position of which nothing before is needed, stands for the states that it stood for; so
/// logs are purged behind each event, all of them or one.
pub fn a_purged_base_stands()
    ensures stands { (p : Plain) (scopes : List Scope) (old new : BaseState) → StandsWith p scopes old → PurgesBase old new → StandsWith p scopes new }
    ensures all { (old new : BaseState) (answer : Answer) → PurgesAll answer old new → PurgesBase old new }
    ensures one { (old new : BaseState) (keyspace : List ℕ) (shard : ℕ) (answer : Answer) → PurgesOne keyspace shard answer old new → PurgesBase old new }
{
    a_purge_keeps_rows_and_logs();
}

/// If all logs are purged, each keeps less than a segment of what isn't needed; and so it is behind a write, if it was so before and the log
/// that is written is purged as a segment gets whole.
pub fn what_is_purged_stays_purged()
    ensures all { (base : BaseState) → IsPurged (with_purges base) }
    ensures written { (old made new : BaseState) (keyspace table : List ℕ) (op : Op) (answer : Answer) → IsPurged old
        → WritesRow old keyspace table op answer made → PurgesOne keyspace (place_of_key (shards_of made.primaries keyspace) (op_key op)) answer made new → IsPurged new }
{}
