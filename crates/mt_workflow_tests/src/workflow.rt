//! A workflow by direct calls.

use crate::made::{workflow_naming, workflow_of};
use mt_names::{KeyRange, KeyspaceName, NameFault, TableName, TypeSet, table_list};
use mt_stream::{Stream, StreamState};
use mt_workflow::{Slot, Way, Workflow};
use std::test::Fail;

/// The way on which all traffic is switched.
const WAY: Way = Way {
    back: false,
    shards: 1,
    before: TypeSet::NONE,
    after: TypeSet::ALL,
    done: 3,
    undoing: false,
};

/// Where the stream of a slot stands, if there is one.
fn position(workflow: &Workflow, slot: Slot) -> Option<u64> {
    Some(workflow.slot(0, slot)?.position())
}

/// Whether a workflow has this name, and moves from this keyspace to that one.
fn is_named(workflow: &Workflow, name: &str, source: &str, target: &str) -> bool {
    workflow.name().as_str() == name
        && workflow.source().as_str() == source
        && workflow.target().as_str() == target
}

/// Whether a workflow moves these tables, and lists them.
fn has_tables(workflow: &Workflow, tables: &[TableName]) -> bool {
    workflow.tables() == tables && workflow.table_list().as_slice() == workflow.tables()
}

/// Whether no type is switched, no way is open, and there is no back stream.
fn is_unswitched(workflow: &Workflow) -> bool {
    workflow.switched() == TypeSet::NONE
        && workflow.way().is_none()
        && position(workflow, Slot::Back).is_none()
}

/// Whether a forward stream runs from this position, and copies yet.
fn is_fed_from(workflow: &Workflow, position: u64) -> bool {
    workflow.slot(0, Slot::Forward).is_some_and(|stream| {
        stream.position() == position && !stream.copied() && stream.state() == StreamState::Running
    })
}

/// Whether a workflow `m` that moves these tables from `a` to `b` is as it was asked for: its names, its tables, what is switched,
/// its stream.
fn as_asked(workflow: &Workflow, tables: &[TableName]) -> [bool; 4] {
    workflow.facts();
    [
        is_named(workflow, "m", "a", "b"),
        has_tables(workflow, tables),
        is_unswitched(workflow),
        is_fed_from(workflow, 7),
    ]
}

#[test]
fn a_new_workflow_is_as_it_was_asked_for(rt: HostRuntime) -> Result<(), Fail> {
    let tables = table_list("y,t")?;
    let workflow = workflow_of(rt.alloc(), "y,t")?;
    let answer = as_asked(&workflow, &tables);
    drop(workflow);
    assert!(rt; answer == [true, true, true, true]);
    Ok(())
}

/// Two tables, of which the first is named again, twice, behind the second.
fn named_again() -> Result<[TableName; 4], NameFault> {
    Ok([
        TableName::parse("y")?,
        TableName::parse("t")?,
        TableName::parse("y")?,
        TableName::parse("y")?,
    ])
}

// No script names a table twice: its list of tables is refused before.
#[test]
fn a_table_named_twice_is_moved_once_in_its_first_place(rt: HostRuntime) -> Result<(), Fail> {
    let (named, once) = (named_again()?, table_list("y,t")?);
    let workflow = workflow_naming(rt.alloc(), &named)?;
    let answer = has_tables(&workflow, &once);
    drop(workflow);
    assert!(rt; answer);
    Ok(())
}

/// Whether a stream stands at a position.
fn stands_at(stream: Option<Stream>, position: u64) -> bool {
    stream.is_some_and(|stream| stream.position() == position)
}

/// Whether a back stream is put where none stood, beside the forward one.
fn puts_back(workflow: &mut Workflow) -> bool {
    let stream = Stream::new_running(workflow.table_list(), KeyRange::whole(), 3);
    workflow.shards() > 0
        && workflow.put_slot(0, Slot::Back, Some(stream)).is_none()
        && position(workflow, Slot::Back) == Some(3)
        && position(workflow, Slot::Forward) == Some(7)
}

/// Whether the forward stream is taken, and then the back one.
fn takes_both(workflow: &mut Workflow) -> bool {
    workflow.shards() > 0
        && stands_at(workflow.put_slot(0, Slot::Forward, None), 7)
        && position(workflow, Slot::Forward).is_none()
        && position(workflow, Slot::Back) == Some(3)
        && workflow.shards() > 0
        && stands_at(workflow.put_slot(0, Slot::Back, None), 3)
}

/// Whether the streams are put, and taken.
fn slots(workflow: &mut Workflow) -> [bool; 2] {
    workflow.facts();
    [puts_back(workflow), takes_both(workflow)]
}

#[test]
fn a_slot_answers_what_stood_there(rt: HostRuntime) -> Result<(), Fail> {
    let mut workflow = workflow_of(rt.alloc(), "y,t")?;
    let answer = slots(&mut workflow);
    drop(workflow);
    assert!(rt; answer == [true, true]);
    Ok(())
}

/// What the stream of a slot does, if there is one.
fn state(workflow: &Workflow, slot: Slot) -> Option<StreamState> {
    Some(workflow.slot(0, slot)?.state())
}

/// Whether the forward stream stops, runs and freezes where it stands; a slot without a stream stays without one.
fn sets_states(workflow: &mut Workflow) -> [bool; 4] {
    workflow.set_state(Slot::Forward, StreamState::Stopped);
    let stopped = state(workflow, Slot::Forward) == Some(StreamState::Stopped);
    workflow.set_state(Slot::Forward, StreamState::Running);
    let runs = state(workflow, Slot::Forward) == Some(StreamState::Running);
    workflow.set_state(Slot::Back, StreamState::Running);
    let none = state(workflow, Slot::Back).is_none();
    workflow.set_state(Slot::Forward, StreamState::Frozen);
    let frozen = state(workflow, Slot::Forward) == Some(StreamState::Frozen)
        && position(workflow, Slot::Forward) == Some(7);
    [stopped, runs, none, frozen]
}

#[test]
fn a_stream_is_stopped_where_it_stands(rt: HostRuntime) -> Result<(), Fail> {
    let mut workflow = workflow_of(rt.alloc(), "y,t")?;
    let answer = sets_states(&mut workflow);
    drop(workflow);
    assert!(rt; answer == [true, true, true, true]);
    Ok(())
}

/// Whether all types are switched where none was.
fn sets_types(workflow: &mut Workflow) -> bool {
    workflow.set_switched(TypeSet::ALL) == TypeSet::NONE && workflow.switched() == TypeSet::ALL
}

/// Whether a way is set where none was, which leaves the types, and taken.
fn sets_way(workflow: &mut Workflow) -> bool {
    workflow.set_way(Some(WAY)).is_none()
        && workflow.way() == Some(WAY)
        && workflow.switched() == TypeSet::ALL
        && workflow.set_way(None) == Some(WAY)
        && workflow.way().is_none()
}

/// Whether the types are set, and the way.
fn types_and_way(workflow: &mut Workflow) -> [bool; 2] {
    [sets_types(workflow), sets_way(workflow)]
}

#[test]
fn types_and_way_answer_what_stood_there(rt: HostRuntime) -> Result<(), Fail> {
    let mut workflow = workflow_of(rt.alloc(), "y,t")?;
    let answer = types_and_way(&mut workflow);
    drop(workflow);
    assert!(rt; answer == [true, true]);
    Ok(())
}

/// Whether the back stream feeds one keyspace, and the forward stream another.
fn has_sides(workflow: &Workflow, source: &KeyspaceName, target: &KeyspaceName) -> bool {
    workflow.feeding(source) == Slot::Back && workflow.feeding(target) == Slot::Forward
}

/// Whether the tables were owned by one keyspace, and not by another.
fn is_owner(workflow: &Workflow, owner: &KeyspaceName, other: &KeyspaceName) -> bool {
    workflow.owned_before(owner) && !workflow.owned_before(other)
}

/// Whether each side has its stream, and whether the owner is the source, the target once all types are switched, and the source
/// once the way of that is open.
fn owners(workflow: &mut Workflow, source: &KeyspaceName, target: &KeyspaceName) -> [bool; 4] {
    let has_sides = has_sides(workflow, source, target);
    let at_first = is_owner(workflow, source, target);
    workflow.set_switched(TypeSet::ALL);
    let switched = is_owner(workflow, target, source);
    workflow.set_way(Some(WAY));
    [
        has_sides,
        at_first,
        switched,
        is_owner(workflow, source, target),
    ]
}

#[test]
fn each_side_has_its_stream_and_an_owner(rt: HostRuntime) -> Result<(), Fail> {
    let a = KeyspaceName::parse("a")?;
    let b = KeyspaceName::parse("b")?;
    let mut workflow = workflow_of(rt.alloc(), "y,t")?;
    let answer = owners(&mut workflow, &a, &b);
    drop(workflow);
    assert!(rt; answer == [true, true, true, true]);
    Ok(())
}
