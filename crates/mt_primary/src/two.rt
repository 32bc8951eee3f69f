//! Two keyspaces of all, at once.
ghost use Rattle.std.specs.Prelude.{◌≡◌, ◌≢◌, ◌<◌, Some, length, slice_get};
ghost use Rattle.std.specs.Borrow.{sem};
ghost use Rattle.mt_primary.specs.Lends.{LendsSides, LendsTwo};
ghost use Rattle.mt_primary.specs.Places.{shards_in};
ghost use Rattle.mt_primary.specs.Primaries.{primary_in};

use crate::{Primary, Shards};

/// The shards of the keyspaces at two places, to write both at once.
fn two_of(places: &mut [Shards], first: usize, second: usize) -> (&mut Shards, &mut Shards)
    requires first { first < length places.old }
    requires second { second < length places.old }
    requires apart { first ≢ second }
    ensures* writes_back { sem 𝓛 (LendsTwo places.entry first second result) }
    ensures first { slice_get places.old first ≡ Some result.0.now }
    ensures second { slice_get places.old second ≡ Some result.1.now }
{
    if first < second {
        let (before, rest) = places.split_at_mut(second);
        return (&mut before[first], &mut rest[0]);
    }
    let (before, rest) = places.split_at_mut(first);
    (&mut rest[0], &mut before[second])
}

/// The primaries of the keyspaces at two places, to write those of both at once: of a workflow's source the first, and all of its target. It
/// takes no memory, and looks for no name.
pub fn sides_of(
    places: &mut [Shards],
    source: usize,
    target: usize,
) -> (&mut Primary, &mut [Primary])
    requires source { source < length places.old }
    requires target { target < length places.old }
    requires apart { source ≢ target }
    requires some { 0 < length (shards_in places.old source).each }
    ensures* writes_back { sem 𝓛 (LendsSides places.entry source target result) }
    ensures source { result.0.now ≡ primary_in (shards_in places.old source) 0 }
    ensures target { result.1.now ≡ (shards_in places.old target).each }
{
    let (from, to) = two_of(places, source, target);
    (from.shard_mut(0), to.all_mut())
}
