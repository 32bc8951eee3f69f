//! Dumps, written and read.

use crate::topology::{Call, TWO_KEYSPACES, all_answered};
use mt_names::{KeyspaceName, NameFault, RuleKey, TableName};
use mt_topology::{EntryKey, Topology, TopologyFault};
use std::alloc::{AllocError, Global};

/// The dump of two keyspaces, of which `b` has the table `t`.
const TWO: &str =
    "{\"denied\":[],\"keyspaces\":[{\"name\":\"a\",\"shards\":[\"-\"],\"tables\":[]},{\"name\":\"b\",\"shards\":[\"-\"],\"tables\":[\"t\"]}],\"rules\":[],\"version\":2}";

/// The dump of those two with a rule and a denial.
const DENIED: &str =
    "{\"denied\":[\"b.t\"],\"keyspaces\":[{\"name\":\"a\",\"shards\":[\"-\"],\"tables\":[]},{\"name\":\"b\",\"shards\":[\"-\"],\"tables\":[\"t\"]}],\"rules\":[{\"from_table\":\"x\",\"to_tables\":[\"b.t\"]}],\"version\":2}";

/// The two keyspaces, to go over.
static TWO_MADE: [(Call<'static>, &str); 3] = TWO_KEYSPACES;

/// The keyspaces `a` and `b`, the table in `b`, and a rule. The part of the table's move to `a` is reserved, and it is denied.
static WITH_DENIAL: [(Call<'static>, &str); 6] = [
    (Call::Keyspace("b"), "ok"),
    (Call::Keyspace("a"), "ok"),
    (Call::Table("b", "t"), "ok"),
    (Call::Set("x", "b.t"), "ok"),
    (Call::Reserve("b", "a"), "ok"),
    (Call::Deny(true), "no"),
];

/// How the reading of a text is answered.
fn loaded(alloc: Global, text: &str) -> &'static str {
    match Topology::load(alloc, text.as_bytes()) {
        Ok(_) => "ok",
        Err(fault) => fault.as_str(),
    }
}

/// Whether a topology's dump is this.
fn dumps(alloc: Global, topology: &Topology, want: &str) -> bool {
    topology.dump(alloc).is_ok_and(|text| text.as_str() == want)
}

/// Whether the topology that calls make of none has this dump.
fn is_dumped(alloc: Global, calls: &[(Call<'_>, &str)], want: &str) -> bool {
    let mut topology = Topology::new(alloc);
    all_answered(&mut topology, calls) && dumps(alloc, &topology, want)
}

/// Whether a text is read as a topology with this dump.
fn is_read_as(alloc: Global, text: &str, want: &str) -> bool {
    match Topology::load(alloc, text.as_bytes()) {
        Ok(topology) => dumps(alloc, &topology, want),
        Err(_) => false,
    }
}

/// Whether a dump is read as a topology that has the same dump.
fn is_read_back(alloc: Global, text: &str) -> bool {
    is_read_as(alloc, text, text)
}

/// Pushes an item of a list, a text with its number between two others.
fn push_item(
    text: &mut String,
    alloc: Global,
    front: &str,
    back: &str,
    number: u32,
) -> Result<(), AllocError> {
    if number > 0 {
        text.push_str(",")?;
    }
    text.push_str(format!(in alloc; "{front}{number}{back}")?.as_str())
}

/// A list of so many items.
fn list_of(alloc: Global, front: &str, back: &str, count: u32) -> Result<String, AllocError> {
    let mut text = String::new(alloc);
    for number in 0..count {
        push_item(&mut text, alloc, front, back, number)?;
    }
    Ok(text)
}

#[test]
fn a_dump_is_sorted_and_read_back(rt: HostRuntime) {
    assert!(rt; is_dumped(rt.alloc(), &TWO_MADE, TWO));
    assert!(rt; is_read_back(rt.alloc(), TWO));
    assert!(rt; is_dumped(rt.alloc(), &WITH_DENIAL, DENIED));
    assert!(rt; is_read_back(rt.alloc(), DENIED));
}

/// Texts that are read as a topology.
static TAKEN: [&str; 5] = [
    "{\"version\":2}",
    "{\"version\":1}",
    "{\"version\":1,\"rules\":null,\"shards\":3}",
    "{\"rules\":[],\"version\":1,\"keyspaces\":[{\"tables\":[\"t\"],\"name\":\"a\"}],\"denied\":[\"a.t\"]}",
    "{\"version\":2,\"version\":1}",
];

#[test]
fn what_is_taken(rt: HostRuntime) {
    for text in &TAKEN {
        assert_eq!(rt; loaded(rt.alloc(), text), "ok", "at {text}");
    }
}

/// Texts in which members stand twice, on each level, with the dump of what they are read as: the last of them counts.
static REPEATED: [(&str, &str); 4] = [
    (
        "{\"version\":1,\"keyspaces\":[{\"name\":\"c\"}],\"keyspaces\":[{\"name\":\"b\",\"tables\":[\"u\"],\"tables\":[\"t\"]},{\"name\":1,\"name\":\"a\"}]}",
        TWO,
    ),
    (
        "{\"version\":1,\"denied\":1,\"rules\":{},\"keyspaces\":[{\"name\":\"a\"},{\"name\":\"b\",\"tables\":[\"t\"]}],\"denied\":[\"b.t\"],\"rules\":[{\"from_table\":\"y\",\"from_table\":\"x\",\"to_tables\":[],\"to_tables\":[\"b.t\"]}]}",
        DENIED,
    ),
    (
        "{\"version\":1,\"\\u006beyspaces\":1,\"keyspaces\":[{\"n\\u0061me\":1,\"name\":\"a\",\"x\":{\"y\":1,\"y\":2}},{\"name\":\"b\",\"tables\":1,\"tabl\\u0065s\":[\"t\"]}],\"x\":{\"y\":1,\"y\":2},\"x\":1}",
        TWO,
    ),
    (
        "{\"version\":2,\"version\":\"1\",\"version\":1,\"keyspaces\":[{\"name\":\"b\",\"tables\":[\"t\"]},{\"name\":\"a\"}],\"rules\":[{\"from_table\":\"x\",\"to_tables\":[\"b.t\"]}],\"rules\":null,\"denied\":[\"b.t\"],\"denied\":[]}",
        TWO,
    ),
];

#[test]
fn the_last_of_members_counts(rt: HostRuntime) {
    for (text, want) in &REPEATED {
        assert!(rt; is_read_as(rt.alloc(), text, want), "at {text}");
    }
}

/// The dump of two keyspaces, of which `a` has three shards.
const SHARDED: &str =
    "{\"denied\":[],\"keyspaces\":[{\"name\":\"a\",\"shards\":[\"-40\",\"40-80\",\"80-\"],\"tables\":[]},{\"name\":\"b\",\"shards\":[\"-\"],\"tables\":[\"t\"]}],\"rules\":[],\"version\":2}";

/// Texts with shards, with the dump of what they are read as: they count in version 2 alone, and there a keyspace may leave them out.
static WITH_SHARDS: [(&str, &str); 4] = [
    (SHARDED, SHARDED),
    (
        "{\"version\":2,\"keyspaces\":[{\"tables\":[\"t\"],\"name\":\"b\"},{\"shards\":1,\"shards\":[\"-40\",\"40-80\",\"80-\"],\"name\":\"a\"}]}",
        SHARDED,
    ),
    (
        "{\"version\":1,\"keyspaces\":[{\"name\":\"a\",\"shards\":[\"-40\",\"40-80\",\"80-\"]},{\"name\":\"b\",\"tables\":[\"t\"],\"shards\":{}}]}",
        TWO,
    ),
    (
        "{\"version\":2,\"keyspaces\":[{\"name\":\"a\",\"shards\":[\"-\"]},{\"name\":\"b\",\"tables\":[\"t\"]}]}",
        TWO,
    ),
];

#[test]
fn shards_are_read(rt: HostRuntime) {
    for (text, want) in &WITH_SHARDS {
        assert!(rt; is_read_as(rt.alloc(), text, want), "at {text}");
    }
}

/// Texts that are no dumps.
static REFUSED: [&str; 36] = [
    "{",
    "[]",
    "{}",
    "{\"version\":3}",
    "{\"version\":1.0}",
    "{\"version\":\"1\"}",
    "{\"version\":1,\"denied\":null}",
    "{\"version\":1,\"keyspaces\":null}",
    "{\"version\":1,\"keyspaces\":{}}",
    "{\"version\":1,\"keyspaces\":[\"a\"]}",
    "{\"version\":1,\"keyspaces\":[{\"tables\":[]}]}",
    "{\"version\":1,\"keyspaces\":[{\"name\":\"-a\"}]}",
    "{\"version\":1,\"keyspaces\":[{\"name\":\"a\",\"tables\":null}]}",
    "{\"version\":1,\"keyspaces\":[{\"name\":\"a\"},{\"name\":\"a\"}]}",
    "{\"version\":1,\"keyspaces\":[{\"name\":\"a\",\"tables\":[\"t\",\"t\"]}]}",
    "{\"version\":1,\"keyspaces\":[{\"name\":\"a\",\"tables\":[\"t.\"]}]}",
    "{\"version\":1,\"keyspaces\":[{\"name\":\"a\",\"tables\":[\"t\"]}],\"denied\":[\"a.u\"]}",
    "{\"version\":1,\"keyspaces\":[{\"name\":\"a\",\"tables\":[\"t\"]}],\"denied\":[\"b.t\"]}",
    "{\"version\":1,\"keyspaces\":[{\"name\":\"a\",\"tables\":[\"t\"]}],\"denied\":[\"a.t\",\"a.t\"]}",
    "{\"version\":1,\"keyspaces\":[{\"name\":\"a\",\"tables\":[\"t\"]}],\"denied\":[\"t\"]}",
    "{\"version\":2,\"version\":3}",
    "{\"version\":1,\"keyspaces\":[],\"keyspaces\":1}",
    "{\"version\":1,\"denied\":[],\"denied\":null}",
    "{\"version\":1,\"rules\":null,\"rules\":1}",
    "{\"version\":1,\"keyspaces\":[{\"name\":\"a\",\"name\":1}]}",
    "{\"version\":1,\"keyspaces\":[{\"name\":\"a\",\"tables\":[],\"tables\":1}]}",
    "{\"version\":1,\"rules\":{}}",
    "{\"version\":1,\"rules\":[{\"from_table\":\"x\",\"to_tables\":[]}]}",
    "{\"version\":1,\"rules\":[{\"from_table\":\"x\",\"to_tables\":[\"a.x\"]},{\"from_table\":\"x\",\"to_tables\":[\"a.x\"]}]}",
    "{\"version\":2,\"keyspaces\":[{\"name\":\"a\",\"shards\":null}]}",
    "{\"version\":2,\"keyspaces\":[{\"name\":\"a\",\"shards\":[]}]}",
    "{\"version\":2,\"keyspaces\":[{\"name\":\"a\",\"shards\":\"-\"}]}",
    "{\"version\":2,\"keyspaces\":[{\"name\":\"a\",\"shards\":[1]}]}",
    "{\"version\":2,\"keyspaces\":[{\"name\":\"a\",\"shards\":[\"-80\",\"8000-\"]}]}",
    "{\"version\":2,\"keyspaces\":[{\"name\":\"a\",\"shards\":[\"80-\",\"-80\"]}]}",
    "{\"version\":2,\"keyspaces\":[{\"name\":\"a\",\"shards\":[\"-10\",\"10-20\",\"20-30\",\"30-40\",\"40-50\",\"50-60\",\"60-70\",\"70-80\",\"80-\"]}]}",
];

#[test]
fn what_is_refused(rt: HostRuntime) {
    for text in &REFUSED {
        assert_eq!(rt; loaded(rt.alloc(), text), "T6 BadDump", "at {text}");
    }
}

/// A dump of many, with the number of them.
#[derive(Clone, Copy)]
enum Many {
    /// Keyspaces, with this text behind them.
    Keyspaces(u32, &'static str),
    /// Tables of a keyspace, with this denial.
    Tables(u32, &'static str),
    /// Rules, with this text behind them.
    Rules(u32, &'static str),
}

/// How a dump of keyspaces is answered.
fn with_keyspaces(alloc: Global, count: u32, bad: &str) -> Result<&'static str, AllocError> {
    let list = list_of(alloc, "{\"name\":\"k", "\"}", count)?;
    let text = format!(in alloc; "{{\"version\":1,\"keyspaces\":[{list}{bad}]}}")?;
    Ok(loaded(alloc, text.as_str()))
}

/// How a dump of tables is answered.
fn with_tables(alloc: Global, count: u32, denied: &str) -> Result<&'static str, AllocError> {
    let list = list_of(alloc, "\"t", "\"", count)?;
    let text = format!(in alloc;
        "{{\"version\":1,\"keyspaces\":[{{\"name\":\"k\",\"tables\":[{list}]}}],\"denied\":[\"{denied}\"]}}"
    )?;
    Ok(loaded(alloc, text.as_str()))
}

/// How a dump of rules is answered.
fn with_rules(alloc: Global, count: u32, bad: &str) -> Result<&'static str, AllocError> {
    let front = "{\"to_tables\":[\"k.t\"],\"from_table\":\"t";
    let list = list_of(alloc, front, "\"}", count)?;
    let text = format!(in alloc; "{{\"version\":1,\"rules\":[{list}{bad}]}}")?;
    Ok(loaded(alloc, text.as_str()))
}

/// Whether a dump of many is answered so.
fn is_loaded(alloc: Global, many: Many, want: &str) -> bool {
    let answer = match many {
        Many::Keyspaces(count, bad) => with_keyspaces(alloc, count, bad),
        Many::Tables(count, denied) => with_tables(alloc, count, denied),
        Many::Rules(count, bad) => with_rules(alloc, count, bad),
    };
    answer.is_ok_and(|text| text == want)
}

/// The index of the first dump that isn't answered so.
fn first_other(alloc: Global, dumps: &[(Many, &str)]) -> Option<usize> {
    for (index, (many, want)) in dumps.iter().enumerate() {
        if !is_loaded(alloc, *many, want) {
            return Some(index);
        }
    }
    None
}

/// As many keyspaces as there may be, and one more.
static MANY_KEYSPACES: [(Many, &str); 3] = [
    (Many::Keyspaces(32, ""), "ok"),
    (Many::Keyspaces(33, ""), "T5 Full"),
    (Many::Keyspaces(33, ",{\"name\":\"k0\"}"), "T6 BadDump"),
];

#[test]
fn too_many_keyspaces_in_a_dump(rt: HostRuntime) {
    assert_eq!(rt; first_other(rt.alloc(), &MANY_KEYSPACES), None);
}

/// As many tables as a keyspace may have, and one more.
static MANY_TABLES: [(Many, &str); 3] = [
    (Many::Tables(256, "k.t255"), "ok"),
    (Many::Tables(257, "k.t256"), "T5 Full"),
    (Many::Tables(257, "k.t257"), "T6 BadDump"),
];

#[test]
fn too_many_tables_in_a_dump(rt: HostRuntime) {
    assert_eq!(rt; first_other(rt.alloc(), &MANY_TABLES), None);
}

/// As many rules as there may be, and one more.
static MANY_RULES: [(Many, &str); 3] = [
    (Many::Rules(4096, ""), "ok"),
    (Many::Rules(4097, ""), "T5 Full"),
    (Many::Rules(4097, ",{\"from_table\":\"t.\"}"), "T6 BadDump"),
];

#[test]
fn too_many_rules_in_a_dump(rt: HostRuntime) {
    assert_eq!(rt; first_other(rt.alloc(), &MANY_RULES), None);
}

/// Whether a text is no dump.
fn is_no_dump(alloc: Global, text: &[u8]) -> bool {
    Topology::load(alloc, text).err() == Some(TopologyFault::BadDump)
}

/// Whether a text is no dump with another byte at an index.
fn is_none_changed(alloc: Global, text: &[u8], index: usize) -> bool {
    let mut changed = Vec::new(alloc);
    if changed.extend_from_slice(text).is_err() || index >= changed.len() {
        return false;
    }
    changed[index] = 0xff;
    is_no_dump(alloc, &changed)
}

/// The first index at which a text may be cut off or changed, and is a dump.
fn first_taken(alloc: Global, text: &[u8]) -> Option<usize> {
    for end in 0..text.len() {
        if !is_no_dump(alloc, &text[..end]) || !is_none_changed(alloc, text, end) {
            return Some(end);
        }
    }
    None
}

#[test]
fn every_prefix_and_every_byte_that_is_none(rt: HostRuntime) {
    assert_eq!(rt; first_taken(rt.alloc(), TWO.as_bytes()), None);
    assert_eq!(rt; first_taken(rt.alloc(), DENIED.as_bytes()), None);
}

/// Writes a bracket so often.
fn push_times(text: &mut String, bracket: char, times: u32) -> Result<(), AllocError> {
    for _ in 0..times {
        text.push(bracket)?;
    }
    Ok(())
}

/// A text of which a member that counts for nothing has so many lists, each in the one before it.
fn nested(alloc: Global, depth: u32) -> Result<String, AllocError> {
    let mut text = String::new(alloc);
    text.push_str("{\"version\":1,\"x\":")?;
    push_times(&mut text, '[', depth)?;
    push_times(&mut text, ']', depth)?;
    text.push('}')?;
    Ok(text)
}

/// How the reading of such a text is answered.
fn loaded_nested(alloc: Global, depth: u32) -> &'static str {
    match nested(alloc, depth) {
        Ok(text) => loaded(alloc, text.as_str()),
        Err(_) => "no text",
    }
}

#[test]
fn nested_deep(rt: HostRuntime) {
    assert_eq!(rt; loaded_nested(rt.alloc(), 20), "ok");
    assert_eq!(rt; loaded_nested(rt.alloc(), 200), "T6 BadDump");
}

/// The keys of a rule, of the table and of its denial.
fn keys() -> Result<[EntryKey; 3], NameFault> {
    let (b, t) = (KeyspaceName::parse("b")?, TableName::parse("t")?);
    let rule = EntryKey::Rule(RuleKey::parse("x")?);
    Ok([
        rule,
        EntryKey::Denied(b.copied(), t.copied()),
        EntryKey::Present(b, t),
    ])
}

/// How many of these entries say the same in two topologies.
fn same(one: &Topology, other: &Topology, keys: &[EntryKey]) -> usize {
    keys.iter()
        .filter(|key| one.value(key) == other.value(key))
        .count()
}

/// How many of the three entries say the same in two topologies.
fn same_of_three(one: &Topology, other: &Topology) -> Option<usize> {
    match keys() {
        Ok(keys) => Some(same(one, other, &keys)),
        Err(_) => None,
    }
}

/// How many of them a topology has in common with the one that a dump is read as.
fn shared_with(alloc: Global, topology: &Topology, dump: &str) -> Option<usize> {
    match Topology::load(alloc, dump.as_bytes()) {
        Ok(other) => same_of_three(topology, &other),
        Err(_) => None,
    }
}

/// How many of them a topology has in common with it once calls are answered so.
fn shared_behind(
    alloc: Global,
    topology: &mut Topology,
    calls: &[(Call<'_>, &str)],
    dump: &str,
) -> Option<usize> {
    if all_answered(topology, calls) {
        return shared_with(alloc, topology, dump);
    }
    None
}

/// How many of them the topology that the calls make of nothing has in common with it.
fn shared(alloc: Global, calls: &[(Call<'_>, &str)], dump: &str) -> Option<usize> {
    let mut topology = Topology::new(alloc);
    shared_behind(alloc, &mut topology, calls, dump)
}

#[test]
fn a_loaded_topology_is_the_dumped_one(rt: HostRuntime) {
    assert_eq!(rt; shared(rt.alloc(), &WITH_DENIAL, DENIED), Some(3));
}

#[test]
fn another_dump_is_another_topology(rt: HostRuntime) {
    assert_eq!(rt; shared(rt.alloc(), &TWO_MADE, DENIED), Some(1));
}
