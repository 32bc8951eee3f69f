//! Key ranges and lists of shards: what is read and refused, and where keys and ranges are found.
use mt_names::{KeyRange, NameFault, ShardList};
use std::alloc::Global;

/// Nine ranges that follow one another.
const NINE_RANGES: &str = "-10,10-20,20-30,30-40,40-50,50-60,60-70,70-80,80-";

/// Eight of them.
const EIGHT_RANGES: &str = "-20,20-40,40-60,60-80,80-a0,a0-c0,c0-e0,e0-";

/// The key whose eight bytes begin with `0x80` and go on with zeros.
const AT_80: u64 = 9223372036854775808;

/// How what is read is written again, or why the text is refused.
type Read = Result<&'static str, NameFault>;

fn reads_range(text: &str, want: Read) -> bool {
    match KeyRange::parse(text) {
        Ok(range) => want == Ok(range.text().as_str()),
        Err(fault) => want == Err(fault),
    }
}

static RANGES: [(&str, Read); 18] = [
    ("-", Ok("-")),
    ("-80", Ok("-80")),
    ("80-", Ok("80-")),
    ("8000-", Ok("8000-")),
    ("40-80", Ok("40-80")),
    ("00-80", Ok("00-80")),
    ("0000000000000100-", Ok("0000000000000100-")),
    ("", Err(NameFault::BadRange)),
    ("80", Err(NameFault::BadRange)),
    ("80-40", Err(NameFault::BadRange)),
    ("80-80", Err(NameFault::BadRange)),
    ("80-8000", Err(NameFault::BadRange)),
    ("-00", Err(NameFault::BadRange)),
    ("8-", Err(NameFault::BadRange)),
    ("8g-", Err(NameFault::BadRange)),
    ("A0-", Err(NameFault::BadRange)),
    ("40-80-", Err(NameFault::BadRange)),
    ("001122334455667788-", Err(NameFault::BadRange)),
];

/// The first text that isn't read so.
fn first_wrong_range() -> Option<&'static str> {
    for (text, want) in &RANGES {
        if !reads_range(text, *want) {
            return Some(text);
        }
    }
    None
}

#[test]
fn ranges(rt: HostRuntime) {
    assert_eq!(rt; first_wrong_range(), None);
}

/// A range, a key, and whether the key stands in it.
static HELD: [(&str, u64, bool); 11] = [
    ("-", 0, true),
    ("-", u64::MAX, true),
    ("-80", AT_80 - 1, true),
    ("-80", AT_80, false),
    ("80-", AT_80 - 1, false),
    ("80-", AT_80, true),
    ("8000-", AT_80, true),
    ("-0000000000000100", 255, true),
    ("-0000000000000100", 256, false),
    ("00-ffffffffffffffff", u64::MAX - 1, true),
    ("00-ffffffffffffffff", u64::MAX, false),
];

/// Whether a key stands so in the range that a text is.
fn holds(text: &str, key: u64, want: bool) -> bool {
    KeyRange::parse(text).is_ok_and(|range| range.holds(key) == want)
}

/// The first range that holds its key otherwise.
fn first_wrong_holder() -> Option<&'static str> {
    for (text, key, want) in &HELD {
        if !holds(text, *key, *want) {
            return Some(text);
        }
    }
    None
}

#[test]
fn ranges_hold_keys(rt: HostRuntime) {
    assert_eq!(rt; first_wrong_holder(), None);
}

fn reads_shards(text: &str, want: Read) -> bool {
    match ShardList::parse(text) {
        Ok(shards) => want == Ok(shards.text().as_str()),
        Err(fault) => want == Err(fault),
    }
}

static SHARDS: [(&str, Read); 19] = [
    ("-", Ok("-")),
    ("-80,80-", Ok("-80,80-")),
    ("-40,40-80,80-", Ok("-40,40-80,80-")),
    (EIGHT_RANGES, Ok(EIGHT_RANGES)),
    ("", Err(NameFault::Empty)),
    ("80-40", Err(NameFault::BadRange)),
    ("-80,", Err(NameFault::BadRange)),
    ("-80,90-,80-40", Err(NameFault::BadRange)),
    ("-,-,-,-,-,-,-,-,x", Err(NameFault::BadRange)),
    (NINE_RANGES, Err(NameFault::TooMany)),
    ("-,-,-,-,-,-,-,-,-,x", Err(NameFault::TooMany)),
    ("-80,90-", Err(NameFault::NotCovering)),
    ("-80,8000-", Err(NameFault::NotCovering)),
    ("-80,40-", Err(NameFault::NotCovering)),
    ("-,-", Err(NameFault::NotCovering)),
    ("-80", Err(NameFault::NotCovering)),
    ("80-", Err(NameFault::NotCovering)),
    ("00-80,80-", Err(NameFault::NotCovering)),
    ("-80,80-,-", Err(NameFault::NotCovering)),
];

/// The first text that isn't read so.
fn first_wrong_list() -> Option<&'static str> {
    for (text, want) in &SHARDS {
        if !reads_shards(text, *want) {
            return Some(text);
        }
    }
    None
}

#[test]
fn lists_of_shards(rt: HostRuntime) {
    assert_eq!(rt; first_wrong_list(), None);
}

/// Shards, a key, and the place of the one in which the key stands.
static FOUND: [(&str, u64, u8); 8] = [
    ("-", u64::MAX, 0),
    ("-40,40-80,80-", 0, 0),
    ("-40,40-80,80-", AT_80 / 2 - 1, 0),
    ("-40,40-80,80-", AT_80 / 2, 1),
    ("-40,40-80,80-", AT_80, 2),
    ("-0000000000000100,0000000000000100-", 255, 0),
    ("-0000000000000100,0000000000000100-", 256, 1),
    (EIGHT_RANGES, u64::MAX, 7),
];

/// Whether a key is found there.
fn finds(text: &str, key: u64, want: u8) -> bool {
    ShardList::parse(text).is_ok_and(|shards| shards.find(key) == want)
}

/// The first list in which the key is found elsewhere.
fn first_lost_key() -> Option<&'static str> {
    for (text, key, want) in &FOUND {
        if !finds(text, *key, *want) {
            return Some(text);
        }
    }
    None
}

/// Shards, a range, and its place among them.
static PLACES: [(&str, &str, Option<u8>); 5] = [
    ("-", "-", Some(0)),
    ("-40,40-80,80-", "40-80", Some(1)),
    ("-40,40-80,80-", "80-", Some(2)),
    ("-40,40-80,80-", "8000-", None),
    ("-40,40-80,80-", "-", None),
];

/// Whether a range has this place.
fn places(shards: &str, range: &str, want: Option<u8>) -> bool {
    match (ShardList::parse(shards), KeyRange::parse(range)) {
        (Ok(shards), Ok(range)) => shards.place(&range) == want,
        _ => false,
    }
}

/// The first range that is placed elsewhere.
fn first_misplaced() -> Option<&'static str> {
    for (shards, range, want) in &PLACES {
        if !places(shards, range, *want) {
            return Some(range);
        }
    }
    None
}

#[test]
fn keys_and_ranges_are_found(rt: HostRuntime) {
    assert_eq!(rt; first_lost_key(), None);
    assert_eq!(rt; first_misplaced(), None);
}

/// Whether shards are the same if they are made of ranges, copied, or of one shard.
fn are_made() -> Option<bool> {
    let read = ShardList::parse("-80,80-").ok()?;
    let made = ShardList::from_ranges(read.as_slice()).ok()?;
    let one = ShardList::from_ranges(&[KeyRange::whole()]).ok()?;
    let same = made == read && read.copied() == read && one == ShardList::unsharded();
    Some(same && one != read && ShardList::from_ranges(&[]).err() == Some(NameFault::Empty))
}

/// Whether ranges that don't follow one another, and nine of them, are refused.
fn are_not_made() -> Option<bool> {
    let low = KeyRange::parse("-80").ok()?;
    let high = KeyRange::parse("8000-").ok()?;
    let nine = [
        KeyRange::whole(),
        KeyRange::whole(),
        KeyRange::whole(),
        KeyRange::whole(),
        KeyRange::whole(),
        KeyRange::whole(),
        KeyRange::whole(),
        KeyRange::whole(),
        KeyRange::whole(),
    ];
    let apart = ShardList::from_ranges(&[low, high]).err() == Some(NameFault::NotCovering);
    Some(apart && ShardList::from_ranges(&nine).err() == Some(NameFault::TooMany))
}

#[test]
fn shards_are_made_of_ranges(rt: HostRuntime) {
    assert_eq!(rt; are_made(), Some(true));
    assert_eq!(rt; are_not_made(), Some(true));
}

/// Whether ranges and shards are printed as they are read.
fn are_printed(alloc: Global) -> Option<bool> {
    let range = KeyRange::parse("40-80").ok()?;
    let shards = ShardList::parse("-80,80-").ok()?;
    let printed = format!(in alloc; "{range} {shards} {range:>7} {range:?} {shards:?}").ok()?;
    Some(printed.as_str() == "40-80 -80,80-   40-80 \"40-80\" \"-80,80-\"")
}

#[test]
fn ranges_and_shards_are_printed(rt: HostRuntime) {
    assert_eq!(rt; are_printed(rt.alloc()), Some(true));
}
