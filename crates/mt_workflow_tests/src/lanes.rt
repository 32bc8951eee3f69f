//! Workflows whose targets have one, two, three and eight shards, by direct calls.

use crate::made::workflow_to;
use mt_stream::{Stream, StreamState};
use mt_workflow::{Slot, Workflow};
use std::alloc::Global;
use std::test::Fail;

/// A keyspace, and the ranges of its shards.
pub type Case = (&'static str, &'static [&'static str]);

/// Those of one, two, three and eight shards.
pub static CASES: [Case; 4] = [
    ("one", &["-"]),
    ("two", &["-80", "80-"]),
    ("three", &["-40", "40-80", "80-"]),
    (
        "eight",
        &[
            "-20", "20-40", "40-60", "60-80", "80-a0", "a0-c0", "c0-e0", "e0-",
        ],
    ),
];

/// Whether a shard has the range at its place among these.
fn has_range(workflow: &Workflow, shard: u8, ranges: &[&str]) -> bool {
    match ranges.get(usize::from(shard)) {
        Some(range) => {
            shard < workflow.shards() && workflow.range(shard).text().as_str() == *range
        }
        None => false,
    }
}

/// Whether a stream stands in a slot, from this position on, and does this.
fn stands(workflow: &Workflow, shard: u8, slot: Slot, position: u64, state: StreamState) -> bool {
    workflow.slot(shard, slot).is_some_and(|stream| stream.position() == position
        && stream.state() == state)
}

/// Whether a forward stream of a shard is to copy, and runs from position 7 on, and there is no back stream.
fn is_new_lane(workflow: &Workflow, shard: u8) -> bool {
    stands(workflow, shard, Slot::Forward, 7, StreamState::Running)
        && workflow
            .slot(shard, Slot::Forward)
            .is_some_and(|stream| !stream.copied())
        && workflow.slot(shard, Slot::Back).is_none()
}

/// Whether the lanes of a new workflow have these ranges, and there is none behind them.
pub fn has_lanes(workflow: &Workflow, ranges: &[&str]) -> bool {
    for shard in 0..workflow.shards() {
        if !has_range(workflow, shard, ranges) || !is_new_lane(workflow, shard) {
            return false;
        }
    }
    usize::from(workflow.shards()) == ranges.len()
        && workflow.slot(workflow.shards(), Slot::Forward).is_none()
}

/// Whether a new workflow of a case has its lanes.
fn is_made(alloc: Global, case: Case) -> Result<bool, Fail> {
    let (target, ranges) = case;
    let workflow = workflow_to(alloc, target)?;
    let answer = has_lanes(&workflow, ranges);
    drop(workflow);
    Ok(answer)
}

#[test]
fn a_new_workflow_has_a_lane_for_each_shard(rt: HostRuntime) -> Result<(), Fail> {
    for case in CASES {
        assert!(rt; is_made(rt.alloc(), case)?, "{}", case.0);
    }
    Ok(())
}

/// Puts a back stream of a shard, from this position on; whether the shard is there, and none stood in that slot.
fn puts_back(workflow: &mut Workflow, shard: u8, position: u64) -> bool {
    if shard >= workflow.shards() {
        return false;
    }
    let range = workflow.range(shard).copied();
    let stream = Stream::new_running(workflow.table_list(), range, position);
    workflow.put_slot(shard, Slot::Back, Some(stream)).is_none()
}

/// Whether a shard's back stream is taken from this position, and none stands there then.
fn takes_back(workflow: &mut Workflow, shard: u8, position: u64) -> bool {
    shard < workflow.shards()
        && workflow
            .put_slot(shard, Slot::Back, None)
            .is_some_and(|stream| stream.position() == position)
        && workflow.slot(shard, Slot::Back).is_none()
}

/// How many shards have a back stream.
fn back_streams(workflow: &Workflow) -> u8 {
    let mut count: u8 = 0;
    for shard in 0..workflow.shards() {
        if workflow.slot(shard, Slot::Back).is_some() {
            count = count.saturating_add(1);
        }
    }
    count
}

/// How many shards have a forward stream that does this.
fn forward_in(workflow: &Workflow, state: StreamState) -> u8 {
    let mut count: u8 = 0;
    for shard in 0..workflow.shards() {
        if stands(workflow, shard, Slot::Forward, 7, state) {
            count = count.saturating_add(1);
        }
    }
    count
}

/// Whether a back stream of the last shard alone is put and taken, and no forward stream changes.
fn puts_and_takes(workflow: &mut Workflow) -> bool {
    let last = workflow.shards() - 1;
    puts_back(workflow, last, 3)
        && stands(workflow, last, Slot::Back, 3, StreamState::Running)
        && back_streams(workflow) == 1
        && forward_in(workflow, StreamState::Running) == workflow.shards()
        && takes_back(workflow, last, 3)
        && back_streams(workflow) == 0
}

/// Whether the forward streams of all shards stop, run and freeze where they stand, and leave a back stream as it is, which does so
/// after them.
fn sets_all(workflow: &mut Workflow) -> bool {
    let last = workflow.shards() - 1;
    let put = puts_back(workflow, last, 3);
    workflow.set_state(Slot::Forward, StreamState::Stopped);
    let stopped = forward_in(workflow, StreamState::Stopped) == workflow.shards()
        && stands(workflow, last, Slot::Back, 3, StreamState::Running);
    workflow.set_state(Slot::Back, StreamState::Frozen);
    let frozen = forward_in(workflow, StreamState::Stopped) == workflow.shards()
        && stands(workflow, last, Slot::Back, 3, StreamState::Frozen)
        && back_streams(workflow) == 1;
    workflow.set_state(Slot::Forward, StreamState::Running);
    put && stopped && frozen && forward_in(workflow, StreamState::Running) == workflow.shards()
}

/// Whether the streams of a workflow to this keyspace are put, taken and set.
fn changes(alloc: Global, target: &str) -> Result<[bool; 2], Fail> {
    let mut workflow = workflow_to(alloc, target)?;
    let puts = puts_and_takes(&mut workflow);
    let sets = sets_all(&mut workflow);
    drop(workflow);
    Ok([puts, sets])
}

#[test]
fn streams_are_put_for_one_shard_and_set_for_all(rt: HostRuntime) -> Result<(), Fail> {
    for (target, _) in CASES {
        assert!(rt; changes(rt.alloc(), target)? == [true, true], "{target}");
    }
    Ok(())
}
