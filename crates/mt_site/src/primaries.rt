//! What is true of all primaries.
ghost use Rattle.std.specs.Prelude.{◌<◌, List, ℕ, length, slice_index_or};
ghost use Rattle.mt_primary.specs.Primary.{IsPrimary, empty_primary};
ghost use Rattle.mt_primary.specs.Primaries.{primary_of};

use crate::Primaries;
use mt_primary::Primary;
use std::alloc::Global;

/// What is true of every primary is true of each of some, for a caller's proof. It does nothing.
fn each_is_one(primaries: &[Primary])
    ensures { (n : ℕ) → n < length primaries.now → IsPrimary (slice_index_or primaries.now n empty_primary) }
{
    for index in 0..primaries.len() {
        primaries[index].facts();
    }
}

/// So it is of those of all keyspaces. It does nothing.
pub(crate) fn each_is_a_primary(alloc: Global, primaries: &Primaries)
    ensures { (keyspace : List ℕ) (shard : ℕ) → IsPrimary (primary_of primaries.now keyspace shard) }
{
    for place in 0..primaries.len() {
        each_is_one(primaries.all(place));
    }
    Primary::new(alloc).facts();
}
