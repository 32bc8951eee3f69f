//! What stands behind each step of a way, and behind each undo, written out.

use crate::acts::{Act, answer, does_each, stands, undoes_each};
use crate::scene::{Moved, Scene};
use mt_names::TabletType;
use mt_steps::Step;
use mt_stream::StreamState;
use mt_watch::Asks;
use std::alloc::Global;

/// What holds at the source, and at the target.
type Sides = (bool, bool);

/// At the source alone.
const SOURCE: Sides = (true, false);
/// At the target alone.
const TARGET: Sides = (false, true);
/// At both.
const BOTH: Sides = (true, true);

/// Whether the reads lead to the target, and the writes.
type Traffic = (bool, bool);

/// Neither.
const NONE: Traffic = (false, false);
/// The reads.
const READS: Traffic = (true, false);
/// The writes.
const WRITES: Traffic = (false, true);
/// All.
const ALL: Traffic = (true, true);

/// What the forward stream of each shard does, and the back stream.
type Streams = (Option<StreamState>, Option<StreamState>);

/// It runs.
const RUNS: Option<StreamState> = Some(StreamState::Running);
/// It stands still.
const STOPS: Option<StreamState> = Some(StreamState::Stopped);
/// It is of no use any more.
const FROZEN: Option<StreamState> = Some(StreamState::Frozen);

/// How things stand for a workflow: where the topology denies its table, whose primaries refuse it, which of its traffic leads to the
/// target, its streams, how many steps stand done if a way is open, and how many entries the journal has.
pub type Standing = (Sides, Sides, Traffic, Streams, Option<u8>, usize);

/// A step, and how things stand behind it.
pub type Row = (Step, Standing);

/// How things stand behind Create.
pub const CREATED: Standing = (TARGET, TARGET, NONE, (RUNS, None), None, 0);

/// How things stand behind a switch of all types.
pub const SWITCHED: Standing = (SOURCE, SOURCE, ALL, (FROZEN, RUNS), None, 1);

/// A switch of all types.
pub static SWITCH: [Row; 12] = [
    (
        Step::SwitchReads,
        (TARGET, TARGET, READS, (RUNS, None), Some(1), 0),
    ),
    (
        Step::DenySource,
        (BOTH, TARGET, READS, (RUNS, None), Some(2), 0),
    ),
    (
        Step::RefreshSource,
        (BOTH, BOTH, READS, (RUNS, None), Some(3), 0),
    ),
    (Step::CatchUp, (BOTH, BOTH, READS, (RUNS, None), Some(4), 0)),
    (
        Step::StopFeeding,
        (BOTH, BOTH, READS, (STOPS, None), Some(5), 0),
    ),
    (
        Step::CreateBack,
        (BOTH, BOTH, READS, (STOPS, STOPS), Some(6), 0),
    ),
    (
        Step::Journal,
        (BOTH, BOTH, READS, (STOPS, STOPS), Some(7), 1),
    ),
    (
        Step::AllowTarget,
        (SOURCE, BOTH, READS, (STOPS, STOPS), Some(8), 1),
    ),
    (
        Step::RefreshTarget,
        (SOURCE, SOURCE, READS, (STOPS, STOPS), Some(9), 1),
    ),
    (
        Step::SwitchWriteRules,
        (SOURCE, SOURCE, ALL, (STOPS, STOPS), Some(10), 1),
    ),
    (
        Step::StartBack,
        (SOURCE, SOURCE, ALL, (STOPS, RUNS), Some(11), 1),
    ),
    (Step::FreezeOld, SWITCHED),
];

/// Its reversal.
pub static REVERSAL: [Row; 12] = [
    (
        Step::SwitchReads,
        (SOURCE, SOURCE, WRITES, (FROZEN, RUNS), Some(1), 1),
    ),
    (
        Step::DenySource,
        (BOTH, SOURCE, WRITES, (FROZEN, RUNS), Some(2), 1),
    ),
    (
        Step::RefreshSource,
        (BOTH, BOTH, WRITES, (FROZEN, RUNS), Some(3), 1),
    ),
    (
        Step::CatchUp,
        (BOTH, BOTH, WRITES, (FROZEN, RUNS), Some(4), 1),
    ),
    (
        Step::StopFeeding,
        (BOTH, BOTH, WRITES, (FROZEN, STOPS), Some(5), 1),
    ),
    (
        Step::CreateBack,
        (BOTH, BOTH, WRITES, (STOPS, STOPS), Some(6), 1),
    ),
    (
        Step::Journal,
        (BOTH, BOTH, WRITES, (STOPS, STOPS), Some(7), 2),
    ),
    (
        Step::AllowTarget,
        (TARGET, BOTH, WRITES, (STOPS, STOPS), Some(8), 2),
    ),
    (
        Step::RefreshTarget,
        (TARGET, TARGET, WRITES, (STOPS, STOPS), Some(9), 2),
    ),
    (
        Step::SwitchWriteRules,
        (TARGET, TARGET, NONE, (STOPS, STOPS), Some(10), 2),
    ),
    (
        Step::StartBack,
        (TARGET, TARGET, NONE, (RUNS, STOPS), Some(11), 2),
    ),
    (
        Step::FreezeOld,
        (TARGET, TARGET, NONE, (RUNS, None), None, 2),
    ),
];

/// How things stand, each by itself. The journal's first entry is that of a switch, and its second that of a reversal.
fn parts(standing: Standing) -> [Act; 8] {
    let (denied, refused, traffic, streams, done, entries) = standing;
    [
        Act::Denied(denied.0, denied.1),
        Act::Refuses(refused.0, refused.1),
        Act::Leads(TabletType::Replica, traffic.0),
        Act::Leads(TabletType::Rdonly, traffic.0),
        Act::Leads(TabletType::Primary, traffic.1),
        Act::Streams(streams.0, streams.1),
        Act::Stands(done),
        Act::Journal(entries, entries == 2),
    ]
}

/// Whether things stand so.
fn are_so(scene: &Scene, moved: &Moved, standing: Standing) -> bool {
    for act in parts(standing) {
        if !stands(scene, moved, act) {
            return false;
        }
    }
    true
}

/// Whether the target's primaries refuse the table behind a step, if it refreshes them.
fn refreshed(moved: &Moved, step: Step) -> Option<bool> {
    let back = moved.workflow().way()?.back;
    match step {
        Step::RefreshSource => if back { Some(true) } else { None },
        Step::RefreshTarget => if back { None } else { Some(false) },
        _ => None,
    }
}

/// Whether a step is done; for each shard, if it refreshes the target's primaries.
fn is_step_done<W: Asks>(
    alloc: Global,
    scene: &mut Scene,
    moved: &mut Moved,
    watchers: &W,
    step: Step,
) -> bool {
    match refreshed(moved, step) {
        Some(refused) => does_each(alloc, scene, moved, watchers, step, refused),
        None => answer(alloc, scene, moved, watchers, step) == Some(Ok(())),
    }
}

/// Whether a step is taken back; for each shard, if it refreshed the target's primaries.
fn is_step_undone<W: Asks>(scene: &mut Scene, moved: &mut Moved, watchers: &W, step: Step) -> bool {
    match refreshed(moved, step) {
        Some(refused) => undoes_each(scene, moved, watchers, !refused),
        None => moved.undoes(scene, watchers),
    }
}

/// Whether the first steps of these are done, so many, and things stand behind each as its row says.
pub fn are_done<W: Asks>(
    alloc: Global,
    scene: &mut Scene,
    moved: &mut Moved,
    watchers: &W,
    rows: &[Row],
    count: usize,
) -> bool {
    let Some(rows) = rows.get(..count) else {
        return false;
    };
    for (step, standing) in rows {
        if !is_step_done(alloc, scene, moved, watchers, *step) || !are_so(scene, moved, *standing) {
            return false;
        }
    }
    true
}

/// How things stood before the step of a row, if that is how they stood before all.
fn stood_before(rows: &[Row], at: usize, first: Standing) -> Standing {
    let Some(before) = at.checked_sub(1) else {
        return first;
    };
    match rows.get(before) {
        Some((_, standing)) => *standing,
        None => first,
    }
}

/// Whether the first steps of these are taken back, so many, from the last one on, and things stand behind each undo as they did before its step.
pub fn are_undone<W: Asks>(
    scene: &mut Scene,
    moved: &mut Moved,
    watchers: &W,
    rows: &[Row],
    count: usize,
    first: Standing,
) -> bool {
    for taken in 0..count {
        let at = count - taken - 1;
        let Some((step, _)) = rows.get(at) else {
            return false;
        };
        if !is_step_undone(scene, moved, watchers, *step)
            || !are_so(scene, moved, stood_before(rows, at, first))
        {
            return false;
        }
    }
    true
}
