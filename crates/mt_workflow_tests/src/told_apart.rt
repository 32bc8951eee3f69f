//! Events, replies and refusals: which of them are equal, and to whose copies.

use crate::pair::value;
use arrayvec::ArrayVec;
use mt_event::{Event, Reason, Refusal, Reply, Shown, ShownLane, ShownStream};
use mt_model::Op;
use mt_names::{
    KeyRange, KeyspaceName, NameFault, RuleKey, RuleTarget, ShardList, TableName, TabletType,
    TypeSet, WorkflowName, table_list,
};
use mt_stream::{Advanced, StreamState};
use mt_workflow::{Slot, Way};
use std::alloc::Global;
use std::test::Fail;

/// A write to the table `t` of a keyspace.
fn write(keyspace: &str, op: Op) -> Result<Event, NameFault> {
    Ok(Event::Write {
        keyspace: KeyspaceName::parse(keyspace)?,
        table: TableName::parse("t")?,
        op,
    })
}

/// A read of the row 1 of the table `k.t`.
fn read(type_of: TabletType) -> Result<Event, NameFault> {
    Ok(Event::Read {
        keyspace: KeyspaceName::parse("k")?,
        table: TableName::parse("t")?,
        key: 1,
        type_of,
    })
}

/// A keyspace with these shards.
fn keyspace(shards: &str) -> Result<Event, NameFault> {
    Ok(Event::AddKeyspace {
        keyspace: KeyspaceName::parse("k")?,
        shards: ShardList::parse(shards)?,
    })
}

/// The table `k.t`.
fn table() -> Result<Event, NameFault> {
    Ok(Event::AddTable {
        keyspace: KeyspaceName::parse("k")?,
        table: TableName::parse("t")?,
    })
}

/// A rule edited by hand.
fn rule(target: Option<&str>) -> Result<Event, NameFault> {
    let key = RuleKey::parse("k.t@replica")?;
    let target = match target {
        Some(target) => Some(RuleTarget::parse(target)?),
        None => None,
    };
    Ok(Event::EditRule { key, target })
}

/// A Create of these tables.
fn create(listed: &str) -> Result<Event, NameFault> {
    Ok(Event::Create {
        workflow: WorkflowName::parse("m")?,
        source: KeyspaceName::parse("k")?,
        target: KeyspaceName::parse("j")?,
        tables: table_list(listed)?,
    })
}

/// An advance of a stream of a shard.
fn advance(stream: Slot, shard: u8, at: u64, max: u16) -> Result<Event, NameFault> {
    Ok(Event::Advance {
        workflow: WorkflowName::parse("m")?,
        stream,
        shard,
        at,
        max,
    })
}

/// Adds writes and reads, of which each but the first differs from another one in one place.
fn add_rows(events: &mut Vec<Event>) -> Result<(), Fail> {
    events.push(write("k", Op::Insert(1, value(b"a")))?)?;
    events.push(write("k", Op::Insert(1, value(b"b")))?)?;
    events.push(write("k", Op::Insert(2, value(b"a")))?)?;
    events.push(write("j", Op::Insert(1, value(b"a")))?)?;
    events.push(write("k", Op::Update(1, value(b"a")))?)?;
    events.push(write("k", Op::Append(1, value(b"a")))?)?;
    events.push(write("k", Op::Delete(1))?)?;
    events.push(read(TabletType::Primary)?)?;
    events.push(read(TabletType::Rdonly)?)?;
    Ok(())
}

/// Adds events of keyspaces, tables and rules.
fn add_places(events: &mut Vec<Event>) -> Result<(), Fail> {
    events.push(keyspace("-")?)?;
    events.push(keyspace("-80,80-")?)?;
    events.push(table()?)?;
    events.push(rule(Some("k.t"))?)?;
    events.push(rule(Some("k.u"))?)?;
    events.push(rule(None)?)?;
    Ok(())
}

/// Adds the making of workflows, and advances.
fn add_moves(events: &mut Vec<Event>) -> Result<(), Fail> {
    events.push(create("t,u")?)?;
    events.push(create("u,t")?)?;
    events.push(create("-")?)?;
    events.push(advance(Slot::Forward, 0, 1, 2)?)?;
    events.push(advance(Slot::Back, 0, 1, 2)?)?;
    events.push(advance(Slot::Forward, 1, 1, 2)?)?;
    events.push(advance(Slot::Forward, 0, 2, 2)?)?;
    events.push(advance(Slot::Forward, 0, 1, 3)?)?;
    Ok(())
}

/// Adds the beginnings of ways of a workflow.
fn add_begins(events: &mut Vec<Event>, name: &WorkflowName, types: TypeSet) -> Result<(), Fail> {
    let (one, two) = (name.copied(), name.copied());
    events.push(Event::BeginSwitch {
        workflow: one,
        types,
    })?;
    events.push(Event::BeginReverse {
        workflow: two,
        types,
    })?;
    Ok(())
}

/// Adds a step and an undo of a workflow.
fn add_steps(events: &mut Vec<Event>, name: &WorkflowName, at: u64) -> Result<(), Fail> {
    let (one, two) = (name.copied(), name.copied());
    events.push(Event::Step { workflow: one, at })?;
    events.push(Event::Undo { workflow: two, at })?;
    Ok(())
}

/// Adds what ends a workflow, and what tells of it.
fn add_ends(events: &mut Vec<Event>, name: &WorkflowName) -> Result<(), Fail> {
    let (one, two, three) = (name.copied(), name.copied(), name.copied());
    events.push(Event::Cancel { workflow: one })?;
    events.push(Event::Complete { workflow: two })?;
    events.push(Event::Show { workflow: three })?;
    Ok(())
}

/// Adds what is asked of two workflows.
fn add_workflows(events: &mut Vec<Event>) -> Result<(), Fail> {
    let (one, two) = (WorkflowName::parse("m")?, WorkflowName::parse("n")?);
    add_begins(events, &one, TypeSet::ALL)?;
    add_begins(events, &one, TypeSet::NONE)?;
    add_begins(events, &two, TypeSet::ALL)?;
    add_steps(events, &one, 1)?;
    add_steps(events, &one, 2)?;
    add_steps(events, &two, 1)?;
    add_ends(events, &one)?;
    add_ends(events, &two)?;
    Ok(())
}

/// Adds all of them.
fn add_events(events: &mut Vec<Event>) -> Result<(), Fail> {
    add_rows(events)?;
    add_places(events)?;
    add_moves(events)?;
    add_workflows(events)
}

/// Whether two events are told apart, and a copy of one from the other; or are the same.
fn are_events_apart(a: &Event, b: &Event, is_same: bool) -> bool {
    (a == b) == is_same && (a.copied() == *b) == is_same
}

/// Whether an event is equal to that of this number alone.
fn is_event_alone(index: usize, event: &Event, events: &[Event]) -> bool {
    for (at, other) in events.iter().enumerate() {
        if !are_events_apart(event, other, at == index) {
            return false;
        }
    }
    true
}

/// The number of the first event that isn't equal to itself alone.
fn first_event(events: &[Event]) -> Option<usize> {
    for (index, event) in events.iter().enumerate() {
        if !is_event_alone(index, event, events) {
            return Some(index);
        }
    }
    None
}

/// How many events there are, and the first that isn't equal to itself alone.
fn events_alike(alloc: Global) -> Result<(usize, Option<usize>), Fail> {
    let mut events = Vec::new(alloc);
    let added = add_events(&mut events);
    let found = (events.len(), first_event(&events));
    drop(events);
    added?;
    Ok(found)
}

#[test]
fn events_are_told_apart(rt: HostRuntime) -> Result<(), Fail> {
    assert_eq!(rt; events_alike(rt.alloc())?, (41, None));
    Ok(())
}

/// A way with a step done, which may be one that is undone.
fn way(undoing: bool) -> Option<Way> {
    Some(Way {
        back: false,
        shards: 1,
        before: TypeSet::NONE,
        after: TypeSet::ALL,
        done: 1,
        undoing,
    })
}

/// A stream at a position.
fn at(state: StreamState, position: u64) -> ShownStream {
    ShownStream { state, position }
}

/// The streams for one shard.
fn lane(forward: ShownStream, copied: bool, back: Option<ShownStream>) -> ShownLane {
    ShownLane {
        range: KeyRange::whole(),
        forward,
        copied,
        back,
    }
}

/// What is told of a workflow `m` from `k` to `j` with one lane.
fn shown(
    listed: &str,
    switched: TypeSet,
    way: Option<Way>,
    lane: ShownLane,
) -> Result<Reply, NameFault> {
    let (workflow, tables) = (WorkflowName::parse("m")?, table_list(listed)?);
    let (source, target) = (KeyspaceName::parse("k")?, KeyspaceName::parse("j")?);
    let mut lanes = ArrayVec::new_in(());
    lanes.push(lane);
    Ok(Reply::Shown(Shown {
        workflow,
        source,
        target,
        tables,
        switched,
        way,
        lanes,
    }))
}

/// Adds replies that tell of no workflow.
fn add_plain(replies: &mut Vec<Reply>) -> Result<(), Fail> {
    replies.push(Reply::Done)?;
    replies.push(Reply::Row(None))?;
    replies.push(Reply::Row(Some(value(b""))))?;
    replies.push(Reply::Row(Some(value(b"a"))))?;
    replies.push(Reply::Advanced(Advanced { events: 0, rows: 1 }))?;
    replies.push(Reply::Advanced(Advanced { events: 1, rows: 0 }))?;
    Ok(())
}

/// Adds replies that tell of a workflow, of which each but the first differs from another one in one place.
fn add_shown(replies: &mut Vec<Reply>) -> Result<(), Fail> {
    let (none, all) = (TypeSet::NONE, TypeSet::ALL);
    let runs = at(StreamState::Running, 1);
    let further = at(StreamState::Running, 2);
    let frozen = at(StreamState::Frozen, 1);
    replies.push(shown("t", none, None, lane(runs, false, None))?)?;
    replies.push(shown("u", none, None, lane(runs, false, None))?)?;
    replies.push(shown("t", all, None, lane(runs, false, None))?)?;
    replies.push(shown("t", none, way(false), lane(runs, false, None))?)?;
    replies.push(shown("t", none, way(true), lane(runs, false, None))?)?;
    replies.push(shown("t", none, None, lane(further, false, None))?)?;
    replies.push(shown("t", none, None, lane(frozen, false, None))?)?;
    replies.push(shown("t", none, None, lane(runs, true, None))?)?;
    replies.push(shown("t", none, None, lane(runs, false, Some(runs)))?)?;
    replies.push(shown("t", none, None, lane(runs, false, Some(further)))?)?;
    Ok(())
}

/// Adds all of them.
fn add_replies(replies: &mut Vec<Reply>) -> Result<(), Fail> {
    add_plain(replies)?;
    add_shown(replies)
}

/// Whether two replies are told apart, and a copy of one from the other; or are the same.
fn are_replies_apart(a: &Reply, b: &Reply, is_same: bool) -> bool {
    (a == b) == is_same && (a.copied() == *b) == is_same
}

/// Whether a reply is equal to that of this number alone.
fn is_reply_alone(index: usize, reply: &Reply, replies: &[Reply]) -> bool {
    for (at, other) in replies.iter().enumerate() {
        if !are_replies_apart(reply, other, at == index) {
            return false;
        }
    }
    true
}

/// The number of the first reply that isn't equal to itself alone.
fn first_reply(replies: &[Reply]) -> Option<usize> {
    for (index, reply) in replies.iter().enumerate() {
        if !is_reply_alone(index, reply, replies) {
            return Some(index);
        }
    }
    None
}

/// How many replies there are, and the first that isn't equal to itself alone.
fn replies_alike(alloc: Global) -> Result<(usize, Option<usize>), Fail> {
    let mut replies = Vec::new(alloc);
    let added = add_replies(&mut replies);
    let found = (replies.len(), first_reply(&replies));
    drop(replies);
    added?;
    Ok(found)
}

#[test]
fn replies_are_told_apart(rt: HostRuntime) -> Result<(), Fail> {
    assert_eq!(rt; replies_alike(rt.alloc())?, (16, None));
    Ok(())
}

/// Refusals that carry a value.
fn carrying() -> Result<[Refusal; 8], NameFault> {
    let (name, key) = (RuleKey::parse("t")?, RuleKey::parse("k.t@replica")?);
    let (table, other) = (TableName::parse("t")?, TableName::parse("u")?);
    Ok([
        Refusal::RuleConflict(name),
        Refusal::RuleConflict(key),
        Refusal::TargetHasTable(table),
        Refusal::TargetHasTable(other),
        Refusal::Other(Reason::WatcherRefused(0)),
        Refusal::Other(Reason::WatcherRefused(1)),
        Refusal::Other(Reason::Stale(0)),
        Refusal::Other(Reason::Stale(1)),
    ])
}

/// The others, in their order.
fn plain() -> [Refusal; 29] {
    [
        Refusal::Other(Reason::Memory),
        Refusal::Other(Reason::NoKeyspace),
        Refusal::Other(Reason::NoTable),
        Refusal::Other(Reason::Denied),
        Refusal::Other(Reason::RowExists),
        Refusal::Other(Reason::NoRow),
        Refusal::Other(Reason::WorkflowExists),
        Refusal::Other(Reason::NoWorkflow),
        Refusal::Other(Reason::TableInWorkflow),
        Refusal::Other(Reason::SameKeyspace),
        Refusal::Other(Reason::NoTables),
        Refusal::Other(Reason::UnderWay),
        Refusal::Other(Reason::NothingUnderWay),
        Refusal::Other(Reason::NothingToSwitch),
        Refusal::Other(Reason::NothingToReverse),
        Refusal::Other(Reason::Copying),
        Refusal::Other(Reason::NotLevel),
        Refusal::Other(Reason::PastJournal),
        Refusal::Other(Reason::TrafficSwitched),
        Refusal::Other(Reason::NotAllSwitched),
        Refusal::Other(Reason::RuleOwned),
        Refusal::Other(Reason::NoWatcher),
        Refusal::Other(Reason::StreamStopped),
        Refusal::Other(Reason::Full),
        Refusal::Other(Reason::Undoing),
        Refusal::Other(Reason::TooLong),
        Refusal::Other(Reason::Exists),
        Refusal::Other(Reason::NoShard),
        Refusal::Other(Reason::ShardedSource),
    ]
}

/// How many of some refusals a refusal and its copy are equal to.
fn equals(refusal: &Refusal, refusals: &[Refusal]) -> usize {
    refusals
        .iter()
        .filter(|other| refusal == *other && refusal.copied() == **other)
        .count()
}

/// The index of the first of some refusals that isn't equal to itself alone among them, or is to one of others.
fn first_equal(own: &[Refusal], others: &[Refusal]) -> Option<usize> {
    for (index, refusal) in own.iter().enumerate() {
        if equals(refusal, own) != 1 || equals(refusal, others) != 0 {
            return Some(index);
        }
    }
    None
}

/// The index of the first refusal that carries a value and isn't told apart.
fn first_carrying() -> Result<Option<usize>, NameFault> {
    let carrying = carrying()?;
    Ok(first_equal(&carrying, &plain()))
}

/// The index of the first refusal that carries none and isn't told apart.
fn first_plain() -> Result<Option<usize>, NameFault> {
    let carrying = carrying()?;
    Ok(first_equal(&plain(), &carrying))
}

#[test]
fn refusals_are_told_apart(rt: HostRuntime) {
    assert_eq!(rt; first_carrying(), Ok(None));
    assert_eq!(rt; first_plain(), Ok(None));
}
