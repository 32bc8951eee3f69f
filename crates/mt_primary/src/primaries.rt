//! The primaries of all keyspaces, by their names and by their places.
ghost use Rattle.std.specs.Prelude.{◌≡◌, ◌≢◌, ◌-◌, ◌<◌, ℕ, List, [], None, false, true, MatchOption, MatchResult, length, take};
ghost use Rattle.std.specs.Borrow.{sem};
ghost use Rattle.std.specs.List.{IsDistinct};
ghost use Rattle.std.specs.Map.{keys_of};
ghost use Rattle.mt_names.specs.Names.{same_text};
ghost use Rattle.mt_names.specs.Shards.{shard_count};
ghost use Rattle.mt_primary.specs.Lends.{LendsAll, LendsPlaces, LendsPrimary};
ghost use Rattle.mt_primary.specs.Places.{AreSides, IsAt, keyspace_at};
ghost use Rattle.mt_primary.specs.Primaries.{count_of, has_primaries, place_of_key, primary_of, shards_at, shards_of, with_keyspace};

use crate::{Primary, Shards};
use indexmap::IndexMap;
use mt_names::{KeyspaceName, ShardList};
use std::alloc::{AllocError, Global};
use std::marker::Model;

/// The primaries of all keyspaces: each keyspace has one for each of its shards. A keyspace keeps its place, so that it can be found
/// once by its name and then by its place. (Vitess: the primary tablets of the shards)
#[derive(Drop)]
pub struct Primaries {
    // The names alone, in the order of the places.
    names: IndexMap<KeyspaceName, ()>,
    shards: Vec<Shards>,
}

impl Model for Primaries {
    ghost use Rattle.std.specs.Prelude.{List, ℕ, zip};
    ghost use Rattle.std.specs.Map.{keys_of};
    ghost use Rattle.mt_primary.specs.Primaries.{ShardsState};
    ghost use Rattle.mt_primary.specs.Kept.{AreKept};

    ghost Value = { List (List ℕ × ShardsState) };

    ghost view = { λ p. zip (keys_of p.names.entries) p.shards.items };

    ghost invariant = { λ p. AreKept (keys_of p.names.entries) p.shards.items };
}

impl Primaries {
    /// Those of no keyspace. It takes no memory.
    pub fn new(alloc: Global) -> Self
        ensures { result ≡ [] }
    {
        Primaries {
            names: IndexMap::new(alloc),
            shards: Vec::new(alloc),
        }
    }

    /// What is true of the primaries of all keyspaces, for a caller's proof: a keyspace has one place. It does nothing.
    pub fn facts(&self)
        ensures { IsDistinct same_text (keys_of self.now) }
    {
        let _names = &self.names;
    }

    /// How many keyspaces have primaries. It takes no memory.
    pub fn len(&self) -> usize
        ensures { result ≡ length self.now }
    {
        self.shards.len()
    }

    /// Adds a keyspace behind the others, with empty primaries. It takes all memory before it adds anything, and changes nothing where
    /// that fails. (Vitess: CreateKeyspace, and CreateShard for each of its shards)
    pub fn add(&mut self, keyspace: KeyspaceName, list: ShardList) -> Result<(), AllocError>
        requires { has_primaries self.old keyspace ≡ false }
        ensures { MatchResult result (λ _. self.new ≡ with_keyspace self.old keyspace list) (λ _. self.new ≡ self.old) }
    {
        let alloc = *self.shards.allocator();
        let shards = Shards::new(alloc, list)?;
        self.shards.reserve(1)?;
        self.names.insert(keyspace, ())?;
        match self.shards.push(shards) {
            Ok(()) => Ok(()),
            Err(_) => unreachable!(),
        }
    }

    /// Takes the last keyspace away again, as one that was added in vain. It takes no memory.
    pub fn pop(&mut self)
        ensures { self.new ≡ take (length self.old - 1) self.old }
    {
        let last = self.shards.len().saturating_sub(1);
        self.names.truncate(last);
        self.shards.truncate(last);
    }

    /// Where a keyspace stands, if it is there. It takes no memory.
    pub fn place(&self, keyspace: &KeyspaceName) -> Option<usize>
        ensures found { MatchOption result (shards_at self.now keyspace.now ≡ None) (λ place. IsAt self.now keyspace.now place) }
        ensures distinct { IsDistinct same_text (keys_of self.now) }
    {
        self.names.get_index_of(keyspace)
    }

    /// Whether a keyspace stands at a place. It takes no memory.
    pub fn stands_at(&self, place: usize, keyspace: &KeyspaceName) -> bool
        ensures there { result ≡ true → IsAt self.now keyspace.now place }
        ensures distinct { IsDistinct same_text (keys_of self.now) }
    {
        match self.names.as_slice().get_index(place) {
            Some((name, _)) => name == keyspace,
            None => false,
        }
    }

    /// Where a keyspace stands, if it is there: it is looked for at a place first, of which nothing is promised. It takes no memory.
    pub fn place_near(&self, near: usize, keyspace: &KeyspaceName) -> Option<usize>
        ensures found { MatchOption result (shards_at self.now keyspace.now ≡ None) (λ place. IsAt self.now keyspace.now place) }
        ensures distinct { IsDistinct same_text (keys_of self.now) }
    {
        if self.stands_at(near, keyspace) {
            return Some(near);
        }
        self.place(keyspace)
    }

    /// The name of the keyspace at a place. It takes no memory.
    pub fn name(&self, place: usize) -> &KeyspaceName
        requires { place < length self.now }
        ensures { IsAt self.now result.now place }
    {
        match self.names.get_index(place) {
            Some((name, _)) => name,
            None => unreachable!(),
        }
    }

    /// The ranges of the keyspace at a place. It takes no memory, and looks for no name, as all that follows.
    pub fn list(&self, place: usize) -> &ShardList
        requires { place < length self.now }
        ensures list { (keyspace : List ℕ) → IsAt self.now keyspace place → result.now ≡ (shards_of self.now keyspace).cuts }
        ensures count { (keyspace : List ℕ) → IsAt self.now keyspace place → count_of self.now keyspace ≡ shard_count result.now }
    {
        let there = &self.shards[place];
        there.facts();
        there.list()
    }

    /// The shard of the keyspace at a place in which a key stands. Where there is one, that costs a look at their number.
    pub fn find(&self, place: usize, key: u64) -> u8
        requires { place < length self.now }
        ensures shard { (keyspace : List ℕ) → IsAt self.now keyspace place → result ≡ place_of_key (shards_of self.now keyspace) key }
        ensures below { result < count_of self.now (keyspace_at self.now place) }
    {
        let there = &self.shards[place];
        there.find(key)
    }

    /// The primary of a key's shard, of the keyspace at a place.
    pub fn at(&self, place: usize, key: u64) -> &Primary
        requires { place < length self.now }
        ensures { (keyspace : List ℕ) → IsAt self.now keyspace place → result.now ≡ primary_of self.now keyspace (place_of_key (shards_of self.now keyspace) key) }
    {
        let there = &self.shards[place];
        there.shard(there.find(key))
    }

    /// The primary of a shard of the keyspace at a place.
    pub fn shard(&self, place: usize, shard: u8) -> &Primary
        requires place { place < length self.now }
        requires shard { shard < count_of self.now (keyspace_at self.now place) }
        ensures { (keyspace : List ℕ) → IsAt self.now keyspace place → result.now ≡ primary_of self.now keyspace shard }
    {
        let there = &self.shards[place];
        there.shard(shard)
    }

    /// The same, to write.
    pub fn shard_mut(&mut self, place: usize, shard: u8) -> &mut Primary
        requires place { place < length self.old }
        requires shard { shard < count_of self.old (keyspace_at self.old place) }
        ensures* writes_back { sem 𝓛 (LendsPrimary self.entry place shard result) }
        ensures value { (keyspace : List ℕ) → IsAt self.old keyspace place → result.now ≡ primary_of self.old keyspace shard }
    {
        let there = &mut self.shards[place];
        there.shard_mut(shard)
    }

    /// All primaries of the keyspace at a place, in the order of its shards.
    pub fn all(&self, place: usize) -> &[Primary]
        requires { place < length self.now }
        ensures { (keyspace : List ℕ) → IsAt self.now keyspace place → result.now ≡ (shards_of self.now keyspace).each }
    {
        let there = &self.shards[place];
        there.all()
    }

    /// The same, to write.
    pub fn all_mut(&mut self, place: usize) -> &mut [Primary]
        requires { place < length self.old }
        ensures* writes_back { sem 𝓛 (LendsAll self.entry place result) }
        ensures value { (keyspace : List ℕ) → IsAt self.old keyspace place → result.now ≡ (shards_of self.old keyspace).each }
    {
        let there = &mut self.shards[place];
        there.all_mut()
    }

    /// The place of a keyspace that is there. It takes no memory.
    fn place_of(&self, keyspace: &KeyspaceName) -> usize
        requires { has_primaries self.now keyspace.now ≡ true }
        ensures at { IsAt self.now keyspace.now result }
        ensures distinct { IsDistinct same_text (keys_of self.now) }
    {
        match self.place(keyspace) {
            Some(place) => place,
            None => unreachable!(),
        }
    }

    /// The shards of all keyspaces, by their places, to write, and the places of two that are there, a workflow's source and its target:
    /// `sides_of` takes these. It takes no memory, and looks each name up once.
    pub fn sides_mut(
        &mut self,
        source: &KeyspaceName,
        target: &KeyspaceName,
    ) -> (&mut [Shards], usize, usize)
        requires source { has_primaries self.old source.now ≡ true }
        requires target { has_primaries self.old target.now ≡ true }
        requires apart { source.now ≢ target.now }
        ensures* writes_back { sem 𝓛 (LendsPlaces self.entry result.0) }
        ensures sides { AreSides self.old source.now target.now result.0.now result.1 result.2 }
    {
        let first = self.place_of(source);
        let second = self.place_of(target);
        (self.shards.as_mut_slice(), first, second)
    }
}
