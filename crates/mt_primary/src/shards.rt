//! The primaries of one keyspace.
ghost use Rattle.std.specs.Prelude.{◌≡◌, ◌<◌, IfOk, length, replicate};
ghost use Rattle.std.specs.Borrow.{sem};
ghost use Rattle.mt_names.specs.Shards.{AreCuts, shard_count};
ghost use Rattle.mt_primary.specs.Primary.{empty_primary};
ghost use Rattle.mt_primary.specs.Lends.{LendsEach, LendsOne};
ghost use Rattle.mt_primary.specs.Primaries.{new_shards, place_of_key, primary_in};

use crate::Primary;
use mt_names::ShardList;
use std::alloc::{AllocError, Global};
use std::marker::Model;

/// The shards of a keyspace with their primaries: one for each, in the order of their ranges. (Vitess: the shards of a keyspace, each with
/// its primary tablet)
#[derive(Drop)]
pub struct Shards {
    list: ShardList,
    each: Vec<Primary>,
}

impl Model for Shards {
    ghost use Rattle.std.specs.Prelude.{◌≡◌, length};
    ghost use Rattle.mt_names.specs.Shards.{shard_count};
    ghost use Rattle.mt_primary.specs.Primaries.{ShardsState};

    ghost Value = { ShardsState };

    ghost view = { λ s. record { cuts = s.list; each = s.each.items } };

    ghost invariant = { λ s. length s.each.items ≡ shard_count s.list };
}

/// So many empty primaries.
fn empty_primaries(alloc: Global, count: usize) -> Result<Vec<Primary>, AllocError>
    ensures { IfOk result (λ primaries. primaries.items ≡ replicate count empty_primary) }
{
    let mut primaries = Vec::with_capacity(alloc, count)?;
    for _ in 0..count {
        primaries.push(Primary::new(alloc))?;
    }
    Ok(primaries)
}

impl Shards {
    /// Shards with empty primaries. It takes memory for as many primaries as there are shards, and fails without it.
    pub fn new(alloc: Global, list: ShardList) -> Result<Self, AllocError>
        ensures { IfOk result (λ shards. shards ≡ new_shards list) }
    {
        let each = empty_primaries(alloc, list.as_slice().len())?;
        Ok(Shards { list, each })
    }

    /// What is true of the shards of every keyspace, for a caller's proof: each has its primary, and their ranges cover all keys. It does
    /// nothing.
    pub fn facts(&self)
        ensures count { length self.now.each ≡ shard_count self.now.cuts }
        ensures cuts { AreCuts self.now.cuts }
    {
        self.list.facts();
    }

    /// Their ranges. It takes no memory.
    pub fn list(&self) -> &ShardList
        ensures { result.now ≡ self.now.cuts }
    {
        &self.list
    }

    /// The shard in which a key stands. Where there is one, that costs a look at their number. It takes no memory.
    pub fn find(&self, key: u64) -> u8
        ensures place { result ≡ place_of_key self.now key }
        ensures below { result < length self.now.each }
    {
        if self.list.as_slice().len() == 1 {
            return 0;
        }
        self.list.find(key)
    }

    /// The primary of a shard. It takes no memory.
    pub fn shard(&self, shard: u8) -> &Primary
        requires { shard < length self.now.each }
        ensures { result.now ≡ primary_in self.now shard }
    {
        &self.each[usize::from(shard)]
    }

    /// The same, to write.
    pub fn shard_mut(&mut self, shard: u8) -> &mut Primary
        requires { shard < length self.old.each }
        ensures* writes_back { sem 𝓛 (LendsOne self.entry shard result) }
        ensures value { result.now ≡ primary_in self.old shard }
    {
        &mut self.each[usize::from(shard)]
    }

    /// All primaries, in the order of the shards. It takes no memory.
    pub fn all(&self) -> &[Primary]
        ensures { result.now ≡ self.now.each }
    {
        self.each.as_slice()
    }

    /// The same, to write.
    pub fn all_mut(&mut self) -> &mut [Primary]
        ensures* writes_back { sem 𝓛 (LendsEach self.entry result) }
        ensures value { result.now ≡ self.old.each }
    {
        self.each.as_mut_slice()
    }
}
