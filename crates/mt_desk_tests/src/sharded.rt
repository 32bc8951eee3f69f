//! Workers over a target of two shards.

use crate::opened::{Trial, they_work};
use crate::together::{ROWS, are_gathered, row_key, writes};
use crate::turns::{are_done, ends, workflow};
use crossbeam_channel::{Sender, unbounded};
use mt_desk::{Desk, DeskName, Pass};
use mt_event::{Driven, Event, Reply, ShownLane};
use mt_names::{KeyspaceName, NameFault, TableName, TabletType, TypeSet};
use mt_watch::Asks;
use mt_workers::{Message, NoGate, controller, stream_worker};
use mt_workflow::Slot;
use std::alloc::Global;
use std::sync::Wait;
use std::thread::{Threads, join};

/// A row of each shard is written at the source.
static AT_SOURCE: [&str; 2] = [
    "at commerce.corder insert 1 a",
    "at commerce.corder insert 9223372036854775808 b",
];

/// Another row of each is written at the target.
static AT_TARGET: [&str; 2] = [
    "at customer.corder insert 2 a",
    "at customer.corder insert 9223372036854775809 b",
];

/// What is tried over two shards.
#[derive(Clone, Copy)]
pub enum Sharded {
    /// A stream worker with so many turns, and where the streams stand behind it.
    Fed(u64, [u64; 2]),
    /// A controller that may try a step twice, where neither shard has read all rows.
    Level,
    /// A stream worker, a controller and two clients at once.
    Race,
}

/// A read of a row for the primary.
fn read_of(keyspace: &str, key: u64) -> Result<Event, NameFault> {
    Ok(Event::Read {
        keyspace: KeyspaceName::parse(keyspace)?,
        table: TableName::parse("corder")?,
        key,
        type_of: TabletType::Primary,
    })
}

/// Whether a client with a pass of its own writes a row of each shard.
fn are_written<R: Wait, D: DeskName, W: Asks + Drop>(
    rt: &R,
    desk: &Desk<D, W>,
    client: u16,
    lines: &[&str],
) -> bool {
    let Ok(mut pass) = desk.pass(rt, client) else {
        return false;
    };
    let is_so = are_done(rt, desk, &mut pass, lines);
    drop(pass);
    is_so
}

/// Whether the forward stream of a lane stands there.
fn stands(lane: Option<&ShownLane>, position: u64) -> bool {
    match lane {
        Some(lane) => lane.forward.position == position,
        None => false,
    }
}

/// Whether the forward streams of both shards stand there, as Show tells.
fn are_at<R: Wait, D: DeskName, W: Asks + Drop>(
    rt: &R,
    desk: &Desk<D, W>,
    pass: &mut Pass<D>,
    positions: [u64; 2],
) -> bool {
    let Some(workflow) = workflow() else {
        return false;
    };
    match desk.ask(rt, pass, Event::Show { workflow }) {
        Ok(Ok(Reply::Shown(shown))) => {
            stands(shown.lanes.get(0), positions[0]) && stands(shown.lanes.get(1), positions[1])
        }
        _ => false,
    }
}

/// Whether a stream worker over both shards takes an advance by one entry in each of its turns, and the streams stand there then.
fn are_fed<R: Wait, D: DeskName, W: Asks + Drop>(
    rt: &R,
    desk: &Desk<D, W>,
    turns: u64,
    positions: [u64; 2],
) -> bool {
    let (Some(name), Ok(pass)) = (workflow(), desk.pass(rt, 1)) else {
        return false;
    };
    let (mut pass, taken) = stream_worker(
        rt,
        &NoGate,
        desk,
        pass,
        0,
        &name,
        Slot::Forward,
        2,
        1,
        turns,
    );
    let is_so = taken == turns && are_at(rt, desk, &mut pass, positions);
    drop(pass);
    is_so
}

/// Switches all types, while others ask. Answers the pass, if that is done.
fn switches<R: Wait, D: DeskName, W: Asks + Drop>(rt: &R, desk: &Desk<D, W>) -> Option<Pass<D>> {
    let (Some(name), Ok(pass)) = (workflow(), desk.pass(rt, 1)) else {
        return None;
    };
    match controller(rt, &NoGate, desk, pass, 0, &name, TypeSet::ALL, false, 256) {
        (pass, Ok(Driven::Done)) => Some(pass),
        _ => None,
    }
}

/// Advances the forward streams of both shards, while others ask.
fn feeds<R: Wait, D: DeskName, W: Asks + Drop>(rt: &R, desk: &Desk<D, W>) -> Option<Pass<D>> {
    let (Some(name), Ok(pass)) = (workflow(), desk.pass(rt, 2)) else {
        return None;
    };
    let (pass, _taken) = stream_worker(rt, &NoGate, desk, pass, 1, &name, Slot::Forward, 2, 4, 100);
    Some(pass)
}

/// How many writes of a client were acknowledged.
fn acknowledged<D: DeskName>(pass: &Pass<D>) -> u64 {
    let mut count: u64 = 0;
    for call in pass.calls() {
        if matches!(call.answer.copied(), Ok(Reply::Done)) {
            count = count.saturating_add(1);
        }
    }
    count
}

/// How many rows of two clients are found at the target.
fn rows_found<R: Wait, D: DeskName, W: Asks + Drop>(
    rt: &R,
    desk: &Desk<D, W>,
    pass: &mut Pass<D>,
) -> u64 {
    let mut count: u64 = 0;
    for row in 0..2 * ROWS {
        let client = if row < ROWS { 3 } else { 4 };
        let Ok(read) = read_of("customer", row_key(client, row % ROWS)) else {
            return 0;
        };
        if matches!(desk.ask(rt, pass, read), Ok(Ok(Reply::Row(Some(_))))) {
            count = count.saturating_add(1);
        }
    }
    count
}

/// A controller, a stream worker and two clients that insert, at once.
fn all_at_once<R: Threads + Wait + Sync, D: DeskName + Send + Sync, W: Asks + Drop + Send>(
    rt: &R,
    alloc: Global,
    desk: &Desk<D, W>,
    told: &Sender<Message>,
) -> (
    (Option<Pass<D>>, Option<Pass<D>>),
    (Option<Pass<D>>, Option<Pass<D>>),
) {
    join(
        rt,
        move || join(rt, move || switches(rt, desk), move || feeds(rt, desk)),
        move || {
            join(
                rt,
                move || writes(rt, alloc, desk, told, 3),
                move || writes(rt, alloc, desk, told, 4),
            )
        },
    )
}

/// Whether all workers end as they should, as many rows are found at the target then as writes were acknowledged, and all passes are gathered.
fn is_raced<R: Threads + Wait + Sync, D: DeskName + Send + Sync, W: Asks + Drop + Send>(
    rt: &R,
    alloc: Global,
    desk: &Desk<D, W>,
) -> bool {
    let Ok((sender, _receiver)) = unbounded(alloc) else {
        return false;
    };
    let ((one, two), (three, four)) = all_at_once(rt, alloc, desk, &sender);
    match (one, two, three, four) {
        (Some(mut one), Some(two), Some(three), Some(four)) => {
            let rows = rows_found(rt, desk, &mut one);
            let others = rows.checked_sub(acknowledged(&three));
            let is_so = rows > 0 && others == Some(acknowledged(&four));
            are_gathered(rt, alloc, desk, [one, two, three, four]) && is_so
        }
        _ => false,
    }
}

/// Whether workers over two shards do what they should.
pub fn over_shards<R: Threads + Wait + Sync, D: DeskName + Send + Sync, W: Asks + Drop + Send>(
    rt: &R,
    alloc: Global,
    desk: &Desk<D, W>,
    sharded: Sharded,
) -> bool {
    match sharded {
        Sharded::Fed(turns, positions) => {
            are_written(rt, desk, 3, &AT_SOURCE) && are_fed(rt, desk, turns, positions)
        }
        Sharded::Level => {
            are_written(rt, desk, 3, &AT_SOURCE)
                && ends(rt, desk, 1, (false, 2), Driven::Done, TypeSet::ALL)
                && are_written(rt, desk, 4, &AT_TARGET)
                && ends(rt, desk, 2, (true, 2), Driven::Done, TypeSet::NONE)
        }
        Sharded::Race => is_raced(rt, alloc, desk),
    }
}

/// A stream worker with so many turns, and where the streams stand behind it.
fn fed(turns: u64, positions: [u64; 2]) -> Trial<'static> {
    Trial::OverShards(Sharded::Fed(turns, positions))
}

#[test]
fn a_stream_worker_goes_from_shard_to_shard(rt: HostRuntime) {
    assert!(rt; they_work(&rt, rt.alloc(), fed(1, [1, 0])));
    assert!(rt; they_work(&rt, rt.alloc(), fed(2, [1, 1])));
    assert!(rt; they_work(&rt, rt.alloc(), fed(3, [2, 1])));
    assert!(rt; they_work(&rt, rt.alloc(), fed(4, [2, 2])));
}

#[test]
fn a_controller_feeds_both_shards(rt: HostRuntime) {
    assert!(rt; they_work(&rt, rt.alloc(), Trial::OverShards(Sharded::Level)));
}

#[test]
fn workers_race_over_two_shards(rt: HostRuntime) {
    assert!(rt; they_work(&rt, rt.alloc(), Trial::OverShards(Sharded::Race)));
}
