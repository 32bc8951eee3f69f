//! Where a keyspace's primaries stand among those of the others.
ghost use Rattle.std.specs.Prelude.{◌≡◌, ◌<◌, true, length};
ghost use Rattle.std.specs.List.{IsDistinct};
ghost use Rattle.std.specs.Map.{keys_of};
ghost use Rattle.mt_names.specs.Names.{same_text};
ghost use Rattle.mt_names.specs.Shards.{shard_count};
ghost use Rattle.mt_primary.specs.Places.{IsAt};
ghost use Rattle.mt_primary.specs.Primaries.{count_of, has_primaries, shards_of};

use crate::Primaries;
use mt_names::KeyspaceName;

/// Whether a keyspace has primaries. It takes no memory.
pub(crate) fn has_primaries(primaries: &Primaries, keyspace: &KeyspaceName) -> bool
    ensures { result ≡ has_primaries primaries.now keyspace.now }
{
    primaries.place(keyspace).is_some()
}

/// The place of a keyspace that has primaries: one for each of its shards. It takes no memory.
pub(crate) fn place_of(primaries: &Primaries, keyspace: &KeyspaceName) -> usize
    requires { has_primaries primaries.now keyspace.now ≡ true }
    ensures at { IsAt primaries.now keyspace.now result }
    ensures within { result < length primaries.now }
    ensures distinct { IsDistinct same_text (keys_of primaries.now) }
    ensures count { count_of primaries.now keyspace.now ≡ shard_count (shards_of primaries.now keyspace.now).cuts }
{
    match primaries.place(keyspace) {
        None => unreachable!(),
        Some(place) => {
            let _list = primaries.list(place);
            place
        }
    }
}
