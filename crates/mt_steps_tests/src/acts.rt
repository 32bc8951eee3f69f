//! What is done with workflows, what it answers, and how things stand then.

use crate::effects::{Row, Standing, are_done, are_undone};
use crate::scene::{Moved, Scene};
use mt_names::{KeyspaceName, Position, RuleKey, TableName, TabletType, TypeSet, Value};
use mt_primary::{Op, Primary, PrimaryFault};
use mt_steps::{Step, StepFault};
use mt_stream::StreamState;
use mt_topology::{Entry, EntryKey, Topology};
use mt_watch::Asks;
use mt_workflow::{Slot, Way, Workflow};
use std::alloc::Global;

/// Something that is done with a workflow, or how things stand for it.
#[derive(Clone, Copy)]
pub enum Act {
    /// A way is begun: its number, whether it is a reversal, the switched types before it and after it.
    Begins(u64, bool, TypeSet, TypeSet),
    /// A step is done.
    Does(Step),
    /// A step is refused.
    Refused(Step, StepFault),
    /// A refresh is done for each shard of the target, in their order; behind each, the primaries up to that shard refuse the table, or
    /// take it, and the others do as they did.
    DoesEach(Step, bool),
    /// The first steps of these are done, so many, each with the effect of its row.
    DoesRows(&'static [Row], usize),
    /// They are taken back, from the last one on, down to how things stood before all.
    UndoesRows(&'static [Row], usize, Standing),
    /// The last step is taken back.
    Undoes,
    /// A refresh is taken back for each shard, from the last one on; behind each, the primaries from that shard on refuse the table, or
    /// take it, and the others do as they did.
    UndoesEach(bool),
    /// A client writes a row of the table at the source.
    Writes(u64),
    /// A client writes a row of the table at the target's last shard.
    WritesLast(u64),
    /// All forward streams, or all back streams, read their logs to the end.
    Levels(Slot),
    /// Whether the topology denies the table at the source, and at the target.
    Denied(bool, bool),
    /// Whether the source's primary refuses the table, and each of the target's.
    Refuses(bool, bool),
    /// Whether the table's name leads to the target for a type, or to the source.
    Leads(TabletType, bool),
    /// How many steps stand done, without the refreshes of the shards but the first; none if no way is open.
    Stands(Option<u8>),
    /// What the forward stream of each shard does, and the back stream.
    Streams(Option<StreamState>, Option<StreamState>),
    /// Each of these streams has read its log to the end.
    AreAtEnds(Slot),
    /// How many entries the journal has, and whether its last one is of a reversal; that one has the ends of all primaries' logs.
    Journal(usize, bool),
}

/// Whether a topology denies a table at a keyspace.
fn is_denied(topology: &Topology, keyspace: &KeyspaceName, table: &TableName) -> bool {
    let key = EntryKey::Denied(keyspace.copied(), table.copied());
    matches!(topology.value(&key), Entry::Denied(_, _, true))
}

/// Whether a primary refuses a table.
fn refuses(primary: &Primary, table: &TableName) -> bool {
    primary.read(table, 0, TabletType::Primary) == Err(PrimaryFault::Denied)
}

/// Whether a name leads to a keyspace.
fn leads(
    topology: &Topology,
    table: &TableName,
    tablet_type: TabletType,
    keyspace: &KeyspaceName,
) -> bool {
    let key = RuleKey {
        keyspace: None,
        table: table.copied(),
        tablet_type: None,
    };
    match topology.resolve(&key, tablet_type) {
        Ok(target) => &target.keyspace == keyspace,
        Err(_) => false,
    }
}

/// Whether the primaries of the shards before this one refuse a table, or take it, and the others do the other.
fn refuse_up_to(targets: &[Primary], table: &TableName, count: usize, refused: bool) -> bool {
    for (shard, target) in targets.iter().enumerate() {
        if refuses(target, table) != (refused == (shard < count)) {
            return false;
        }
    }
    true
}

/// Whether a stream of each shard does this.
fn all_do(moved: &Moved, slot: Slot, want: Option<StreamState>) -> bool {
    for shard in 0..moved.workflow().shards() {
        let stream = moved.workflow().slot(shard, slot);
        if stream.map(|stream| stream.state()) != want {
            return false;
        }
    }
    true
}

/// Whether a stream of each shard has read its log to the end.
fn are_at_ends(scene: &Scene, moved: &Moved, slot: Slot) -> bool {
    for shard in 0..moved.workflow().shards() {
        let stream = moved.workflow().slot(shard, slot);
        if stream.map(|stream| stream.position())
            != Some(moved.read_end(slot, shard, &scene.source))
        {
            return false;
        }
    }
    true
}

/// Whether positions are where the logs of primaries end, in their order.
fn are_ends(positions: &[Position], targets: &[Primary]) -> bool {
    for (shard, target) in targets.iter().enumerate() {
        if positions.get(shard) != Some(&target.position()) {
            return false;
        }
    }
    positions.len() == targets.len()
}

/// Whether the journal has so many entries, and its last one is this.
fn has_entries(scene: &Scene, moved: &Moved, count: usize, back: bool) -> bool {
    let is_so = match scene.journal.entries().last() {
        None => true,
        Some(entry) => {
            entry.back == back
                && entry.source_position == scene.source.position()
                && are_ends(entry.target_positions.as_slice(), moved.targets())
        }
    };
    scene.journal.len() == count && is_so
}

/// How a step is answered, at once or at a second try if it, or a watcher, is out of memory.
pub fn answer<W: Asks>(
    alloc: Global,
    scene: &mut Scene,
    moved: &mut Moved,
    watchers: &W,
    step: Step,
) -> Option<Result<(), StepFault>> {
    match moved.does(alloc, scene, watchers, step) {
        Some(Err(StepFault::Memory | StepFault::WatcherRefused(_))) => {
            moved.does(alloc, scene, watchers, step)
        }
        answer => answer,
    }
}

/// Whether a way is begun, at once or at a second try.
fn begins(alloc: Global, moved: &mut Moved, number: u64, way: Way) -> bool {
    match moved.begin(alloc, number, way) {
        Ok(()) => true,
        Err(fault) => fault == StepFault::Memory && moved.begin(alloc, number, way).is_ok(),
    }
}

/// Whether a row is written, at once or at a second try.
fn writes(primary: &mut Primary, table: &TableName, key: u64) -> bool {
    primary.write(table, Op::Insert(key, Value::new())).is_ok()
        || primary.write(table, Op::Insert(key, Value::new())).is_ok()
}

/// Whether a row of the workflow's table is written at the source.
fn writes_source(scene: &mut Scene, moved: &Moved, key: u64) -> bool {
    match moved.workflow().tables().first() {
        Some(table) => writes(&mut scene.source, table, key),
        None => false,
    }
}

/// Whether one is written at the target's last shard.
fn writes_last(moved: &mut Moved, key: u64) -> bool {
    let Some(table) = moved.workflow().tables().first() else {
        return false;
    };
    let table = table.copied();
    match moved.last_target() {
        Some(target) => writes(target, &table, key),
        None => false,
    }
}

/// Whether a refresh is done for each shard of the target, one after the other, and changes the list of that one's primary alone.
pub fn does_each<W: Asks>(
    alloc: Global,
    scene: &mut Scene,
    moved: &mut Moved,
    watchers: &W,
    step: Step,
    refused: bool,
) -> bool {
    for shard in 0..moved.targets().len() {
        if answer(alloc, scene, moved, watchers, step) != Some(Ok(()))
            || !refuses_up_to(moved, shard + 1, refused)
        {
            return false;
        }
    }
    true
}

/// Whether a refresh is taken back for each shard, from the last one on, and changes the list of that one's primary alone.
pub fn undoes_each<W: Asks>(
    scene: &mut Scene,
    moved: &mut Moved,
    watchers: &W,
    refused: bool,
) -> bool {
    let count = moved.targets().len();
    for taken in 0..count {
        if !moved.undoes(scene, watchers) || !refuses_up_to(moved, count - taken - 1, !refused) {
            return false;
        }
    }
    true
}

/// Whether the primaries of the shards before this one refuse the workflow's table, or take it, and the others do the other.
fn refuses_up_to(moved: &Moved, count: usize, refused: bool) -> bool {
    match moved.workflow().tables().first() {
        Some(table) => refuse_up_to(moved.targets(), table, count, refused),
        None => false,
    }
}

/// Whether something is done so.
pub fn is_done<W: Asks>(
    alloc: Global,
    scene: &mut Scene,
    moved: &mut Moved,
    watchers: &W,
    act: Act,
) -> bool {
    match act {
        Act::Begins(number, back, before, after) => {
            let way = Way {
                back,
                shards: moved.workflow().shards(),
                before,
                after,
                done: 0,
                undoing: false,
            };
            begins(alloc, moved, number, way)
        }
        Act::Does(step) => answer(alloc, scene, moved, watchers, step) == Some(Ok(())),
        Act::Refused(step, want) => {
            answer(alloc, scene, moved, watchers, step) == Some(Err(want))
        }
        Act::DoesEach(step, refused) => { does_each(alloc, scene, moved, watchers, step, refused) }
        Act::DoesRows(rows, count) => are_done(alloc, scene, moved, watchers, rows, count),
        Act::UndoesRows(rows, count, first) => {
            are_undone(scene, moved, watchers, rows, count, first)
        }
        Act::Undoes => moved.undoes(scene, watchers),
        Act::UndoesEach(refused) => undoes_each(scene, moved, watchers, refused),
        Act::Writes(key) => writes_source(scene, moved, key),
        Act::WritesLast(key) => writes_last(moved, key),
        Act::Levels(slot) => {
            moved.level(slot, &scene.source);
            true
        }
        other => stands(scene, moved, other),
    }
}

/// How many steps of the way that is open stand done: the places but those of the refreshes of later shards.
fn steps_done(workflow: &Workflow) -> Option<u8> {
    let way = workflow.way()?;
    let first = way.next_place().saturating_sub(u16::from(way.done));
    u8::try_from(way.next_step().saturating_sub(first)).ok()
}

/// Whether things stand so.
pub fn stands(scene: &Scene, moved: &Moved, act: Act) -> bool {
    let workflow = moved.workflow();
    let Some(table) = workflow.tables().first() else {
        return false;
    };
    match act {
        Act::Denied(source, target) => {
            is_denied(&scene.topology, workflow.source(), table) == source
                && is_denied(&scene.topology, workflow.target(), table) == target
        }
        Act::Refuses(source, target) => {
            refuses(&scene.source, table) == source
                && refuse_up_to(moved.targets(), table, moved.targets().len(), target)
        }
        Act::Leads(tablet_type, is_target) => {
            leads(
                &scene.topology,
                table,
                tablet_type,
                workflow.side(is_target),
            )
        }
        Act::Stands(want) => steps_done(workflow) == want,
        Act::Streams(forward, back) => {
            all_do(moved, Slot::Forward, forward) && all_do(moved, Slot::Back, back)
        }
        Act::AreAtEnds(slot) => are_at_ends(scene, moved, slot),
        Act::Journal(count, back) => has_entries(scene, moved, count, back),
        _ => false,
    }
}
