//! The shards of a keyspace.
ghost use Rattle.std.specs.Prelude.{◌≡◌, ◌↔◌, ◌<◌, ◌≤◌, ◌==◌, ℕ, List, [], ◌∷◌, Option, None, Some, Ok, Err, if◌then◌else◌, nat_lt, IsOk, MatchResult, length, position, slice_get};
ghost use Rattle.std.specs.Cmp.{partial_equiv_from_equiv};
ghost use Rattle.std.specs.List.{slice_split};
ghost use Rattle.mt_names.specs.Shards as shards;
ghost use Rattle.mt_names.specs.Shards.{AreCuts, Cuts, IsShardsText, cuts_of_ranges, holds, items_of, place_of_range, ranges_of, read_ranges_after, read_shards, same_range, same_shards, same_shards_equiv, shard_count, shard_of, shards_from, shards_text, with_word};
ghost use Rattle.mt_names.specs.Types.{comma};

use crate::ranges::check_covering;
use crate::types::push_word;
use crate::{KeyRange, NameFault};
use arrayvec::{ArrayString, ArrayVec};
use std::default::MadeWith;
use std::fmt;
use std::marker::Model;

/// How many shards a keyspace may have.
pub const MAX_SHARDS: usize = 8;

/// The longest text of shards, in bytes: eight ranges of 33, and seven commas.
const MAX_SHARDS_LENGTH: usize = 271;

/// The shards of a keyspace: one to eight key ranges, of which each starts where the one before it ends, so that they cover all keys, and
/// no key twice. Contracts see them as the bounds between them. (Vitess: the shards of a keyspace, a complete set of key ranges)
#[derive(Drop)]
pub struct ShardList {
    ranges: ArrayVec<KeyRange, MAX_SHARDS>,
}

impl Model for ShardList {
    ghost use Rattle.std.specs.Prelude.{◌≡◌};
    ghost use Rattle.mt_names.specs.Shards.{AreCuts, Cuts, cuts_between, ranges_of};

    ghost Value = { Cuts };

    ghost view = { λ s. cuts_between s.ranges.items };

    ghost invariant = { λ s. (ranges_of (cuts_between s.ranges.items) ≡ s.ranges.items) × AreCuts (cuts_between s.ranges.items) };
}

/// Adds the range that a word is: its own `N9 BadRange`, then `N7 TooMany` where there are eight.
fn add_word(ranges: &mut ArrayVec<KeyRange, MAX_SHARDS>, word: &str) -> Result<(), NameFault>
    ensures { MatchResult result
        (λ _. with_word ranges.old.items word.now ≡ Ok ranges.new.items)
        (λ fault. with_word ranges.old.items word.now ≡ Err fault) }
{
    let range = KeyRange::parse(word)?;
    if ranges.is_full() {
        return Err(NameFault::TooMany);
    }
    ranges.push(range);
    Ok(())
}

/// Reads ranges that stand here separated by commas.
fn parse_ranges(text: &str) -> Result<ArrayVec<KeyRange, MAX_SHARDS>, NameFault>
    ensures { items_of result ≡ read_ranges_after [] (slice_split (λ b. b == comma) text.now) }
{
    let mut ranges = ArrayVec::new_in(());
    for word in text.split(',') {
        add_word(&mut ranges, word)?;
    }
    Ok(ranges)
}

/// Copies of ranges.
fn copies_of(ranges: &[KeyRange]) -> ArrayVec<KeyRange, MAX_SHARDS>
    requires { length ranges.now ≤ MAX_SHARDS }
    ensures { result.items ≡ ranges.now }
{
    let mut copies = ArrayVec::new_in(());
    for range in ranges {
        copies.push(range.copied());
    }
    copies
}

/// The place of the first range that holds a key.
fn first_that_holds(ranges: &[KeyRange], key: u64) -> Option<usize>
    ensures { result ≡ position (λ range. holds range key) ranges.now }
{
    ranges.iter().position(|range| range.holds(key))
}

/// The place of the first range that is written as another.
fn first_alike(ranges: &[KeyRange], range: &KeyRange) -> Option<usize>
    ensures { result ≡ position (same_range range.now) ranges.now }
{
    ranges.iter().position(|other| range == other)
}

impl ShardList {
    /// The one shard of a keyspace that isn't sharded, `-`.
    pub fn unsharded() -> Self
        ensures { result ≡ [] }
    {
        let mut ranges = ArrayVec::new_in(());
        ranges.push(KeyRange::whole());
        ShardList { ranges }
    }

    /// Shards with these ranges: `N1 Empty` where there are none, `N10 NotCovering` unless they cover all keys.
    fn of(ranges: ArrayVec<KeyRange, MAX_SHARDS>) -> Result<Self, NameFault>
        ensures { result ≡ cuts_of_ranges ranges.items }
    {
        if ranges.is_empty() {
            return Err(NameFault::Empty);
        }
        check_covering(ranges.as_slice())?;
        Ok(ShardList { ranges })
    }

    /// Shards with these ranges: `N1 Empty` where there are none, `N7 TooMany` of a ninth, `N10 NotCovering` where the first start or the
    /// last end isn't open, or an end isn't written as the next start.
    pub fn from_ranges(ranges: &[KeyRange]) -> Result<Self, NameFault>
        ensures { result ≡ shards_from ranges.now }
    {
        if ranges.len() > MAX_SHARDS {
            return Err(NameFault::TooMany);
        }
        ShardList::of(copies_of(ranges))
    }

    /// Reads shards: ranges that are separated by commas. `N1 Empty` of an empty text; then, from left to right, of each range `N9
    /// BadRange`, and `N7 TooMany` of a ninth; then `N10 NotCovering`, as `from_ranges` tells it.
    pub fn parse(text: &str) -> Result<Self, NameFault>
        ensures value { result ≡ read_shards text.now }
        ensures grammar { IsOk result ↔ IsShardsText text.now }
    {
        if text.is_empty() {
            return Err(NameFault::Empty);
        }
        let ranges = parse_ranges(text)?;
        ShardList::of(ranges)
    }

    /// The shards as a text, by which they are read back.
    pub fn text(&self) -> ArrayString<MAX_SHARDS_LENGTH>
        ensures bytes { result.bytes ≡ shards_text self.now }
        ensures cuts { AreCuts self.now }
        ensures read_back { read_shards (shards_text self.now) ≡ Ok self.now }
    {
        let mut text = ArrayString::new();
        let ranges = self.ranges.as_slice();
        for range in ranges {
            let word = range.text();
            push_word(&mut text, word.as_str());
        }
        text
    }

    /// What is true of the shards of every keyspace, for a caller's proof: their bounds ascend, and there are at most seven. It does nothing.
    pub fn facts(&self)
        ensures { AreCuts self.now }
    {
        let _ranges = &self.ranges;
    }

    /// The ranges, in their order.
    pub fn as_slice(&self) -> &[KeyRange]
        ensures value { result.now ≡ ranges_of self.now }
        ensures cuts { AreCuts self.now }
    {
        self.ranges.as_slice()
    }

    /// The place of the shard in which a key stands. It takes no memory.
    pub fn find(&self, key: u64) -> u8
        ensures { result ≡ shard_of self.now key }
    {
        match first_that_holds(self.ranges.as_slice(), key) {
            Some(place) => place as u8,
            None => 0,
        }
    }

    /// The place of the shard whose range is written so, if there is one. It takes no memory.
    pub fn place(&self, range: &KeyRange) -> Option<u8>
        ensures { let place = place_of_range self.now range.now in
            result ≡ (if nat_lt place (shard_count self.now) then Some place else None) }
    {
        match first_alike(self.ranges.as_slice(), range) {
            Some(place) => Some(place as u8),
            None => None,
        }
    }

    /// A copy. It takes no memory.
    pub fn copied(&self) -> Self
        ensures { result ≡ self.now }
    {
        ShardList {
            ranges: copies_of(self.ranges.as_slice()),
        }
    }
}

/// The blank that an `ArrayVec` of such lists keeps in its unused places.
impl MadeWith<()> for ShardList {
    fn made_with(_alloc: ()) -> Self {
        ShardList::unsharded()
    }
}

impl PartialEq for ShardList {
    ghost eq = { same_shards };

    ghost laws = { partial_equiv_from_equiv same_shards_equiv };

    fn eq(&self, other: &Self) -> bool {
        self.ranges.as_slice() == other.ranges.as_slice()
    }
}

impl Eq for ShardList {
    ghost laws = { same_shards_equiv };
}

impl fmt::Display for ShardList {
    ghost output = { λ cuts. Some (shards_text cuts) };

    fn fmt<W: fmt::Write>(&self, f: &mut fmt::Formatter<W>) -> fmt::Result {
        f.pad(self.text().as_str())
    }
}

impl fmt::Debug for ShardList {
    fn fmt<W: fmt::Write>(&self, f: &mut fmt::Formatter<W>) -> fmt::Result {
        fmt::Debug::fmt(&self.text().as_str(), f)
    }
}

/// Shards have one spelling: a text that is read as shards is the text of those shards.
pub fn shards_have_one_spelling()
    ensures { (text : List ℕ) (cuts : Cuts) → read_shards text ≡ Ok cuts → shards_text cuts ≡ text }
{}

/// Of bounds that ascend, of which there are seven at most, just one range holds a key: that of the shard in which it stands.
pub fn a_shard_holds_its_keys()
    ensures holds { (cuts : Cuts) → AreCuts cuts → (n : ℕ) (range : shards.KeyRange) → slice_get (ranges_of cuts) n ≡ Some range
        → (key : ℕ) → holds range key ≡ (shard_of cuts key == n) }
    ensures there { (cuts : Cuts) → AreCuts cuts → (key : ℕ) → shard_of cuts key < length (ranges_of cuts) }
{}
