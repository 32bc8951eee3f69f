//! A topology by direct calls.

use mt_names::{KeyspaceName, NameFault, RuleKey, RuleTarget, ShardList, TableName, TabletType};
use mt_topology::{Entry, EntryKey, Topology, TopologyFault};
use std::alloc::Global;

/// A call of a topology. Its answer is a text: `ok`, a target, what an entry says, or a refusal.
#[derive(Clone, Copy)]
pub enum Call<'a> {
    /// A keyspace is added.
    Keyspace(&'a str),
    /// A table is added to a keyspace.
    Table(&'a str, &'a str),
    /// The rule of a key is set.
    Set(&'a str, &'a str),
    /// The rule of a key is taken away.
    Take(&'a str),
    /// A name is looked up for a type.
    Find(&'a str, TabletType),
    /// The part of a workflow that moves `t` from one keyspace to another is reserved.
    Reserve(&'a str, &'a str),
    /// The part that moves `t` from `b` to `a` is released.
    Release,
    /// It is asked whether `t` is denied at `b`.
    IsDenied,
    /// `t` is denied at `b`, or allowed, where that has a place. Answered is what was so before.
    Deny(bool),
    /// `t` is there in `b`, or isn't any more, where that has a place. Answered is what was so before.
    Hold(bool),
}

/// How an answer is printed.
fn printed(answer: Result<(), TopologyFault>) -> &'static str {
    match answer {
        Ok(()) => "ok",
        Err(fault) => fault.as_str(),
    }
}

fn add_keyspace(topology: &mut Topology, name: &str) -> Result<&'static str, NameFault> {
    let name = KeyspaceName::parse(name)?;
    Ok(printed(topology.add_keyspace(&name, ShardList::unsharded())))
}

fn add_table(
    topology: &mut Topology,
    keyspace: &str,
    table: &str,
) -> Result<&'static str, NameFault> {
    let keyspace = KeyspaceName::parse(keyspace)?;
    Ok(printed(topology.add_table(&keyspace, &TableName::parse(table)?)))
}

fn set_rule(topology: &mut Topology, key: &str, target: &str) -> Result<&'static str, NameFault> {
    let target = RuleTarget::parse(target)?;
    Ok(printed(topology.edit_rule(&RuleKey::parse(key)?, Some(target))))
}

fn take_rule(topology: &mut Topology, key: &str) -> Result<&'static str, NameFault> {
    Ok(printed(topology.edit_rule(&RuleKey::parse(key)?, None)))
}

/// Whether a name leads to a target for a type, or is refused so.
fn leads(
    topology: &Topology,
    key: &str,
    tablet_type: TabletType,
    want: &str,
) -> Result<bool, NameFault> {
    match topology.resolve(&RuleKey::parse(key)?, tablet_type) {
        Ok(target) => Ok(target.text().as_str() == want),
        Err(fault) => Ok(fault.as_str() == want),
    }
}

fn reserve(topology: &mut Topology, source: &str, target: &str) -> Result<&'static str, NameFault> {
    let source = KeyspaceName::parse(source)?;
    let target = KeyspaceName::parse(target)?;
    Ok(printed(topology.reserve_part(&source, &target, &[TableName::parse("t")?])))
}

fn release(topology: &mut Topology) -> Result<&'static str, NameFault> {
    let source = KeyspaceName::parse("b")?;
    let target = KeyspaceName::parse("a")?;
    topology.release_part(&source, &target, &[TableName::parse("t")?]);
    Ok("ok")
}

/// What an entry of a table says.
fn said(entry: &Entry) -> &'static str {
    match entry {
        Entry::Denied(_, _, true) | Entry::Present(_, _, true) => "yes",
        Entry::Denied(_, _, false) | Entry::Present(_, _, false) => "no",
        Entry::Rule(_, _) => "a rule",
    }
}

/// Writes an entry that has a place: what stood there.
fn write(topology: &mut Topology, entry: Entry) -> &'static str {
    if topology.has_place(&entry.key()) {
        return said(&topology.write(entry));
    }
    "no place"
}

/// Whether `t` is denied at `b`.
fn is_denied(topology: &Topology) -> Result<&'static str, NameFault> {
    let keyspace = KeyspaceName::parse("b")?;
    let key = EntryKey::Denied(keyspace, TableName::parse("t")?);
    Ok(said(&topology.value(&key)))
}

/// Denies `t` at `b` or allows it, where that has a place: what was so before.
fn deny(topology: &mut Topology, is_denied: bool) -> Result<&'static str, NameFault> {
    let keyspace = KeyspaceName::parse("b")?;
    Ok(write(
        topology,
        Entry::Denied(keyspace, TableName::parse("t")?, is_denied),
    ))
}

/// Makes `t` be there in `b` or not, where that has a place: what was so before.
fn hold(topology: &mut Topology, is_there: bool) -> Result<&'static str, NameFault> {
    let keyspace = KeyspaceName::parse("b")?;
    Ok(write(
        topology,
        Entry::Present(keyspace, TableName::parse("t")?, is_there),
    ))
}

/// Whether a call is answered so.
fn is_answered(topology: &mut Topology, call: Call<'_>, want: &str) -> bool {
    let answer = match call {
        Call::Keyspace(name) => add_keyspace(topology, name),
        Call::Table(keyspace, table) => add_table(topology, keyspace, table),
        Call::Set(key, target) => set_rule(topology, key, target),
        Call::Take(key) => take_rule(topology, key),
        Call::Find(key, type_of) => return leads(topology, key, type_of, want).unwrap_or(false),
        Call::Reserve(source, target) => reserve(topology, source, target),
        Call::Release => release(topology),
        Call::IsDenied => is_denied(topology),
        Call::Deny(is_denied) => deny(topology, is_denied),
        Call::Hold(is_there) => hold(topology, is_there),
    };
    answer == Ok(want)
}

/// Whether calls are answered so.
pub fn all_answered(topology: &mut Topology, calls: &[(Call<'_>, &str)]) -> bool {
    for (call, want) in calls {
        if !is_answered(topology, *call, want) {
            return false;
        }
    }
    true
}

/// What happens next at a topology.
#[derive(Clone, Copy)]
enum Phase {
    /// Calls are answered so.
    Answered(&'static [(Call<'static>, &'static str)]),
    /// Thirty more keyspaces are added.
    Keyspaces,
    /// As many tables are added as a keyspace may have.
    Tables,
    /// So many rules are set.
    Rules(u32),
}

/// Whether a phase goes so.
fn goes(topology: &mut Topology, alloc: Global, phase: Phase) -> bool {
    match phase {
        Phase::Answered(calls) => all_answered(topology, calls),
        Phase::Keyspaces => add_keyspaces(topology, alloc),
        Phase::Tables => add_tables(topology, alloc),
        Phase::Rules(count) => set_rules(topology, alloc, count),
    }
}

/// The index of the first of some phases that doesn't go so, at a topology that stands as it does.
fn first_wrong_at(topology: &mut Topology, alloc: Global, phases: &[Phase]) -> Option<usize> {
    for (index, phase) in phases.iter().enumerate() {
        if !goes(topology, alloc, *phase) {
            return Some(index);
        }
    }
    None
}

/// The index of the first of some phases that doesn't go so, at a topology that begins with nothing.
fn first_wrong(alloc: Global, phases: &[Phase]) -> Option<usize> {
    let mut topology = Topology::new(alloc);
    first_wrong_at(&mut topology, alloc, phases)
}

/// The keyspaces `a` and `b`, of which `b` has the table `t`.
pub const TWO_KEYSPACES: [(Call<'static>, &str); 3] = [
    (Call::Keyspace("b"), "ok"),
    (Call::Keyspace("a"), "ok"),
    (Call::Table("b", "t"), "ok"),
];

/// A name leads by the rule for its type, else by that for all types, else it is looked up among the keyspaces.
const LOOK_UPS: [(Call<'static>, &str); 19] = [
    (Call::Set("x", "b.t"), "ok"),
    (Call::Set("x@replica", "a.x"), "ok"),
    (Call::Find("x", TabletType::Primary), "b.t"),
    (Call::Find("x@replica", TabletType::Primary), "b.t"),
    (Call::Find("x", TabletType::Replica), "a.x"),
    (Call::Take("x"), "ok"),
    (Call::Take("x"), "ok"),
    (Call::Find("x", TabletType::Primary), "T2 NoTable"),
    (Call::Keyspace("a"), "T4 Exists"),
    (Call::Table("b", "t"), "T4 Exists"),
    (Call::Table("c", "t"), "T1 NoKeyspace"),
    (Call::Hold(false), "yes"),
    (Call::Find("t", TabletType::Primary), "T2 NoTable"),
    (Call::Hold(true), "no"),
    (Call::Find("t", TabletType::Primary), "b.t"),
    (Call::Find("c.u", TabletType::Primary), "c.u"),
    (Call::Find("u", TabletType::Primary), "T2 NoTable"),
    (Call::Table("a", "t"), "ok"),
    (Call::Find("t", TabletType::Primary), "T3 Ambiguous"),
];

/// The two keyspaces, then what is looked up.
static LOOKED_UP: [Phase; 2] = [Phase::Answered(&TWO_KEYSPACES), Phase::Answered(&LOOK_UPS)];

#[test]
fn rows_of_look_ups(rt: HostRuntime) {
    assert_eq!(rt; first_wrong(rt.alloc(), &LOOKED_UP), None);
}

/// A part is reserved, of which one rule is there before. Places that hold something stay when it is released.
const PARTS: [(Call<'static>, &str); 27] = [
    (Call::Deny(true), "no place"),
    (Call::Reserve("b", "c"), "T1 NoKeyspace"),
    (Call::Set("t@replica", "b.t"), "ok"),
    (Call::Reserve("b", "a"), "ok"),
    (Call::Deny(true), "no"),
    (Call::IsDenied, "yes"),
    (Call::Deny(false), "yes"),
    (Call::IsDenied, "no"),
    (Call::Deny(true), "no"),
    (Call::Release, "ok"),
    (Call::IsDenied, "yes"),
    (Call::Deny(false), "yes"),
    (Call::Release, "ok"),
    (Call::Deny(true), "no place"),
    (Call::Find("t", TabletType::Replica), "b.t"),
    (Call::Set("x", "b.t"), "ok"),
    (Call::Set("t@replica", "a.t"), "ok"),
    (Call::Find("t", TabletType::Replica), "a.t"),
    (Call::Reserve("b", "a"), "ok"),
    (Call::Deny(true), "no"),
    (Call::Take("t@replica"), "ok"),
    (Call::Deny(false), "yes"),
    (Call::Release, "ok"),
    (Call::IsDenied, "no"),
    (Call::Deny(true), "no place"),
    (Call::Find("t", TabletType::Replica), "b.t"),
    (Call::Find("x", TabletType::Primary), "b.t"),
];

/// The two keyspaces, then the part.
static PARTED: [Phase; 2] = [Phase::Answered(&TWO_KEYSPACES), Phase::Answered(&PARTS)];

#[test]
fn parts(rt: HostRuntime) {
    assert_eq!(rt; first_wrong(rt.alloc(), &PARTED), None);
}

/// Adds a keyspace with a number in its name.
fn adds_keyspace(topology: &mut Topology, alloc: Global, number: u32) -> bool {
    match format!(in alloc; "k{number}") {
        Ok(name) => is_answered(topology, Call::Keyspace(name.as_str()), "ok"),
        Err(_) => false,
    }
}

/// Adds a table with a number in its name to `a`.
fn adds_table(topology: &mut Topology, alloc: Global, number: u32) -> bool {
    match format!(in alloc; "t{number}") {
        Ok(name) => is_answered(topology, Call::Table("a", name.as_str()), "ok"),
        Err(_) => false,
    }
}

/// Sets a rule with a number in its key.
fn sets_rule(topology: &mut Topology, alloc: Global, number: u32) -> bool {
    match format!(in alloc; "t{number}") {
        Ok(name) => is_answered(topology, Call::Set(name.as_str(), "k.t"), "ok"),
        Err(_) => false,
    }
}

/// Thirty more keyspaces.
fn add_keyspaces(topology: &mut Topology, alloc: Global) -> bool {
    for number in 0..30u32 {
        if !adds_keyspace(topology, alloc, number) {
            return false;
        }
    }
    true
}

/// As many tables as a keyspace may have.
fn add_tables(topology: &mut Topology, alloc: Global) -> bool {
    for number in 0..256u32 {
        if !adds_table(topology, alloc, number) {
            return false;
        }
    }
    true
}

/// So many rules.
fn set_rules(topology: &mut Topology, alloc: Global, count: u32) -> bool {
    for number in 0..count {
        if !sets_rule(topology, alloc, number) {
            return false;
        }
    }
    true
}

/// What is refused at the limits of keyspaces and tables, and what is taken.
const AT_THE_LIMITS: [(Call<'static>, &str); 5] = [
    (Call::Keyspace("k7"), "T4 Exists"),
    (Call::Keyspace("k"), "T5 Full"),
    (Call::Table("a", "t7"), "T4 Exists"),
    (Call::Table("a", "u"), "T5 Full"),
    (Call::Table("b", "u"), "ok"),
];

/// What is refused and taken at the limit of rules: one that is there may be changed or taken away.
const AT_THE_LAST_RULE: [(Call<'static>, &str); 5] = [
    (Call::Set("t", "k.t"), "T5 Full"),
    (Call::Take("t"), "ok"),
    (Call::Set("t9", "k.u"), "ok"),
    (Call::Take("t9"), "ok"),
    (Call::Set("t", "k.t"), "ok"),
];

/// The two keyspaces, each limit, and what is answered at it.
static LIMITS: [Phase; 6] = [
    Phase::Answered(&TWO_KEYSPACES),
    Phase::Keyspaces,
    Phase::Tables,
    Phase::Answered(&AT_THE_LIMITS),
    Phase::Rules(4096),
    Phase::Answered(&AT_THE_LAST_RULE),
];

#[test]
fn limits(rt: HostRuntime) {
    assert_eq!(rt; first_wrong(rt.alloc(), &LIMITS), None);
}

/// A part that finds no room behind 4,085 rules, and leaves all as it was; with one rule less it finds room.
const WITHOUT_ROOM: [(Call<'static>, &str); 5] = [
    (Call::Reserve("b", "a"), "T5 Full"),
    (Call::Deny(true), "no place"),
    (Call::Take("t0"), "ok"),
    (Call::Reserve("b", "a"), "ok"),
    (Call::Deny(true), "no"),
];

/// The two keyspaces, the rules, and the part behind them.
static FILLED: [Phase; 3] = [
    Phase::Answered(&TWO_KEYSPACES),
    Phase::Rules(4085),
    Phase::Answered(&WITHOUT_ROOM),
];

#[test]
fn room_for_parts(rt: HostRuntime) {
    assert_eq!(rt; first_wrong(rt.alloc(), &FILLED), None);
}
