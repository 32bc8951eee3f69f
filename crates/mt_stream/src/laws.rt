//! What follows from how a stream advances.
ghost use Rattle.std.specs.Prelude.{◌≡◌, ◌≢◌, ℕ, ◌≤◌, AllPairs};
ghost use Rattle.mt_names.specs.Shards.{KeyRange, holds};
ghost use Rattle.mt_plain.specs.Plain.{Lane, Live, Plain, in_lane};
ghost use Rattle.mt_plain.specs.Slots.{uncopied};
ghost use Rattle.mt_primary.specs.Primary.{IsPrimary, PrimaryState};
ghost use Rattle.mt_stream.specs.Advance.{IsAdvanced, places, rows_left};
ghost use Rattle.mt_stream.specs.Follows.{FollowsSource};
ghost use Rattle.mt_stream.specs.Sources.{HasClientRows};
ghost use Rattle.mt_stream.specs.Streams.{StreamValue};

use crate::stream::Advanced;

/// If the sink has, of the stream's tables and the keys in its range, the rows of the copied range as they were at the
/// source at the stream's position, and no others, then so it has behind an advance, for the copied range and the position
/// that it leaves.
pub fn the_copied_range_follows_the_source()
    ensures { (old new : StreamValue) (source sink new_sink : PrimaryState) (at_most : ℕ) (answer : Advanced)
        → IsPrimary source → source.log.purged ≤ old.position → AllPairs ◌≢◌ old.tables
        → IsAdvanced old source sink at_most answer new new_sink → FollowsSource old source sink → FollowsSource new source new_sink }
{}

/// If a primary has, of the tables of a live workflow, the rows of a lane's shard that the clients' acknowledged writes
/// leave, then the rows that a stream of these tables, with the lane's copied range and a key range that has the keys of
/// its shard, still has to copy from it are those that the definitions have not copied there, in their order.
pub fn the_rows_left_are_the_uncopied_rows()
    ensures { (p : Plain) (w : Live) (lane : Lane) (range : KeyRange) (source : PrimaryState) → IsPrimary source → HasClientRows p w lane source
        → ((key : ℕ) → holds range key ≡ in_lane w lane key) → places (rows_left source range w.tables lane.copied) ≡ uncopied p w lane }
{}
