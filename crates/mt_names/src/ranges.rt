//! Key ranges: which keys of its tables a shard of a keyspace has.
ghost use Rattle.std.specs.Prelude.{◌≡◌, ◌↔◌, ◌<◌, ◌^◌, ◌≤◌, ◌||◌, ℕ, List, [], None, Some, Ok, Err, true, false, if◌then◌else◌, nat_lt, IsOk, length};
ghost use Rattle.std.specs.Cmp.{partial_equiv_from_equiv};
ghost use Rattle.std.specs.Cmp.Lexicographic.{nat_list_eq_equiv};
ghost use Rattle.std.specs.Int.{to_be_bytes, w64};
ghost use Rattle.std.specs.List.{list_all};
ghost use Rattle.mt_names.specs.Names.{same_text};
ghost use Rattle.mt_names.specs.Shards as shards;
ghost use Rattle.mt_names.specs.Shards.{IsRangeText, bound_value, byte_at, cuts_behind, digit_at, digit_value, end_of, holds, holds_bytes, is_bound, is_digit, is_open, is_range, outcome, range_from, range_text, read_range, same_range, same_range_equiv, start_behind, whole};

use crate::NameFault;
use crate::keys::cut;
use arrayvec::ArrayString;
use std::default::MadeWith;
use std::fmt;
use std::marker::Model;

/// The most digits of a bound: those of eight bytes.
const MAX_BOUND_LENGTH: usize = 16;

/// The longest text of a range, in bytes: two bounds, and a dash between them.
const MAX_RANGE_LENGTH: usize = 33;

/// Whether a byte is one of the digits `0` to `9` and `a` to `f`.
fn is_digit(byte: u8) -> bool
    ensures { result ≡ is_digit byte }
{
    matches!(byte, b'0'..=b'9' | b'a'..=b'f')
}

/// Whether a text has no other bytes.
fn has_digits_alone(text: &str) -> bool
    ensures { result ≡ list_all is_digit text.now }
{
    text.as_bytes().iter().all(|&byte| is_digit(byte))
}

/// Whether a text is a bound: an even number of digits, 0 to 16.
fn is_bound(text: &str) -> bool
    ensures { result ≡ is_bound text.now }
{
    has_digits_alone(text) && text.len() <= MAX_BOUND_LENGTH && text.len() % 2 == 0
}

/// What a digit says.
fn digit_value(digit: u8) -> u8
    requires { is_digit digit ≡ true }
    ensures value { result ≡ digit_value digit }
    ensures low { result < 16 }
{
    if digit <= b'9' {
        digit - b'0'
    } else {
        digit - b'a' + 10
    }
}

/// What the digit at a place says. One that is missing counts as `0`.
fn digit_at(digits: &[u8], place: usize) -> u8
    requires { list_all is_digit digits.now ≡ true }
    ensures value { result ≡ digit_at digits.now place }
    ensures low { result < 16 }
{
    digit_value(digits.get(place).copied().unwrap_or(b'0'))
}

/// The byte at a place of a bound, which is zero behind its digits.
fn byte_at(digits: &[u8], place: usize) -> u8
    requires digits { list_all is_digit digits.now ≡ true }
    requires place { place < 8 }
    ensures { result ≡ byte_at digits.now place }
{
    16 * digit_at(digits, 2 * place) + digit_at(digits, 2 * place + 1)
}

/// The first key at a bound: that of its bytes, the highest first, with zero bytes behind them.
fn first_key(digits: &[u8]) -> u64
    requires { list_all is_digit digits.now ≡ true }
    ensures { result ≡ bound_value digits.now }
{
    u64::from_be_bytes([
        byte_at(digits, 0),
        byte_at(digits, 1),
        byte_at(digits, 2),
        byte_at(digits, 3),
        byte_at(digits, 4),
        byte_at(digits, 5),
        byte_at(digits, 6),
        byte_at(digits, 7),
    ])
}

/// A bound of key ranges, which contracts see as its digits: none where a range is open.
#[derive(Drop)]
struct Bound {
    digits: ArrayString<MAX_BOUND_LENGTH>,
    /// The first key at it.
    key: u64,
}

impl Model for Bound {
    ghost use Rattle.std.specs.Prelude.{◌≡◌, List, ℕ, true};
    ghost use Rattle.mt_names.specs.Shards.{bound_value, is_bound};

    ghost Value = { List ℕ };

    ghost view = { λ b. b.digits.bytes };

    ghost invariant = { λ b. (is_bound b.digits.bytes ≡ true) × (b.key ≡ bound_value b.digits.bytes) };
}

impl Bound {
    /// That of an open end.
    fn open() -> Self
        ensures { result ≡ [] }
    {
        Bound {
            digits: ArrayString::new(),
            key: 0,
        }
    }

    /// The bound that a text is: `N9 BadRange` where it is none.
    fn parse(text: &str) -> Result<Self, NameFault>
        ensures { result ≡ (if is_bound text.now then Ok text.now else Err NameFault.BadRange) }
    {
        let Ok(digits) = ArrayString::from(text) else {
            return Err(NameFault::BadRange);
        };
        if !is_bound(text) {
            return Err(NameFault::BadRange);
        }
        let key = first_key(text.as_bytes());
        Ok(Bound { digits, key })
    }

    /// A copy.
    fn copied(&self) -> Self
        ensures { result ≡ self.now }
    {
        Bound {
            digits: self.digits,
            key: self.key,
        }
    }

    /// Its digits.
    fn as_str(&self) -> &str
        ensures value { result.now ≡ self.now }
        ensures short { length result.now ≤ MAX_BOUND_LENGTH }
    {
        self.digits.as_str()
    }

    /// Whether an end is above it.
    fn is_below(&self, end: &Bound) -> bool
        ensures { result ≡ (is_open end.now || nat_lt (bound_value self.now) (bound_value end.now)) }
    {
        end.is_open() || self.key < end.key
    }

    /// Whether a range is open there.
    fn is_open(&self) -> bool
        ensures { result ≡ is_open self.now }
    {
        self.as_str().is_empty()
    }
}

impl PartialEq for Bound {
    ghost eq = { same_text };

    ghost laws = { partial_equiv_from_equiv nat_list_eq_equiv };

    fn eq(&self, other: &Self) -> bool {
        self.as_str() == other.as_str()
    }
}

impl Eq for Bound {
    ghost laws = { nat_list_eq_equiv };
}

/// A key range: the keys from its start on, up to its end and without it, by the order of their eight bytes, the highest first. A bound is written
/// with the hexadecimal digits of its bytes, at most eight of them, and counts as if zero bytes stood behind these; where there are none the
/// range is open. Two ranges are the same if they are written alike. (Vitess: the key range of a shard)
#[derive(Drop)]
pub struct KeyRange {
    start: Bound,
    end: Bound,
}

impl Model for KeyRange {
    ghost use Rattle.std.specs.Prelude.{◌≡◌, true};
    ghost use Rattle.mt_names.specs.Shards as shards;

    ghost Value = { shards.KeyRange };

    ghost view = { λ r. record { start = r.start; end = r.end } };

    ghost invariant = { λ r. shards.is_range (record { start = r.start; end = r.end }) ≡ true };
}

impl KeyRange {
    /// The range of all keys, `-`: that of the one shard of a keyspace that isn't sharded.
    pub fn whole() -> Self
        ensures { result ≡ whole }
    {
        KeyRange {
            start: Bound::open(),
            end: Bound::open(),
        }
    }

    /// Reads a range, `start-end`: `N9 BadRange` of any other text, and where the start isn't below the end.
    pub fn parse(text: &str) -> Result<Self, NameFault>
        ensures value { result ≡ read_range text.now }
        ensures grammar { IsOk result ↔ IsRangeText text.now }
    {
        let (start, rest) = cut(text, '-');
        match rest {
            None => Err(NameFault::BadRange),
            Some(end) => range_of(start, end),
        }
    }

    /// The range as a text, by which it is read back.
    pub fn text(&self) -> ArrayString<MAX_RANGE_LENGTH>
        ensures bytes { result.bytes ≡ range_text self.now }
        ensures range { is_range self.now ≡ true }
        ensures read_back { read_range (range_text self.now) ≡ Ok self.now }
    {
        let mut text = ArrayString::new();
        text.push_str(self.start.as_str());
        text.push('-');
        text.push_str(self.end.as_str());
        text
    }

    /// Whether a key stands in it.
    pub fn holds(&self, key: u64) -> bool
        ensures { result ≡ holds self.now key }
    {
        (self.start.is_open() || self.start.key <= key)
            && (self.end.is_open() || key < self.end.key)
    }

    /// The key that it starts at: of an open start the lowest key, 0.
    pub fn first_key(&self) -> u64
        ensures { result ≡ bound_value self.now.start }
    {
        self.start.key
    }

    /// A copy. It takes no memory.
    pub fn copied(&self) -> Self
        ensures { result ≡ self.now }
    {
        KeyRange {
            start: self.start.copied(),
            end: self.end.copied(),
        }
    }

    /// Where the next range has to start: nowhere behind an open end.
    fn next_start(&self) -> Option<Bound>
        ensures value { result ≡ end_of self.now }
        ensures range { is_range self.now ≡ true }
    {
        if self.end.is_open() {
            return None;
        }
        Some(self.end.copied())
    }
}

/// The range between two bounds.
fn range_of(start: &str, end: &str) -> Result<KeyRange, NameFault>
    ensures { result ≡ range_from start.now (Some end.now) }
{
    let start = Bound::parse(start)?;
    let end = Bound::parse(end)?;
    if !start.is_below(&end) {
        return Err(NameFault::BadRange);
    }
    Ok(KeyRange { start, end })
}

/// Where the range behind one has to start, where that one has to start at a bound itself: `N10 NotCovering` if it doesn't.
fn start_behind(start: &Option<Bound>, range: &KeyRange) -> Result<Option<Bound>, NameFault>
    ensures value { result ≡ start_behind start.now range.now }
    ensures range { is_range range.now ≡ true }
{
    let next = range.next_start();
    match start {
        None => Err(NameFault::NotCovering),
        Some(start) => {
            if range.start == *start {
                Ok(next)
            } else {
                Err(NameFault::NotCovering)
            }
        }
    }
}

/// Whether ranges cover all keys: `N10 NotCovering` unless the first start and the last end alone are open, and each other end is written
/// as the next start.
pub fn check_covering(ranges: &[KeyRange]) -> Result<(), NameFault>
    ensures value { result ≡ outcome (cuts_behind [] ranges.now) }
    ensures ranges { IsOk result → list_all is_range ranges.now ≡ true }
{
    let mut start = Some(Bound::open());
    for range in ranges {
        start = start_behind(&start, range)?;
    }
    match start {
        None => Ok(()),
        Some(_) => Err(NameFault::NotCovering),
    }
}

/// The blank that an `ArrayVec` of ranges keeps in its unused places.
impl MadeWith<()> for KeyRange {
    fn made_with(_alloc: ()) -> Self {
        KeyRange::whole()
    }
}

impl PartialEq for KeyRange {
    ghost eq = { same_range };

    ghost laws = { partial_equiv_from_equiv same_range_equiv };

    fn eq(&self, other: &Self) -> bool {
        self.start == other.start && self.end == other.end
    }
}

impl Eq for KeyRange {
    ghost laws = { same_range_equiv };
}

impl fmt::Display for KeyRange {
    ghost output = { λ range. Some (range_text range) };

    fn fmt<W: fmt::Write>(&self, f: &mut fmt::Formatter<W>) -> fmt::Result {
        f.pad(self.text().as_str())
    }
}

impl fmt::Debug for KeyRange {
    fn fmt<W: fmt::Write>(&self, f: &mut fmt::Formatter<W>) -> fmt::Result {
        fmt::Debug::fmt(&self.text().as_str(), f)
    }
}

/// A range has one spelling: a text that is read as a range is the text of that range.
pub fn range_has_one_spelling()
    ensures { (text : List ℕ) (range : shards.KeyRange) → read_range text ≡ Ok range → range_text range ≡ text }
{}

/// Whether a range holds a key goes by the order of bytes: that of the key's eight, the highest first, and of those of its bounds.
pub fn a_range_goes_by_bytes()
    ensures { (range : shards.KeyRange) → is_range range ≡ true → (key : ℕ) → key < 2 ^ 64 → holds range key ≡ holds_bytes range (to_be_bytes w64 key) }
{}
