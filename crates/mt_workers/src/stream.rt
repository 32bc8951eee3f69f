//! The worker that advances a stream.
ghost use Rattle.std.specs.Prelude.{◌≡◌, ◌≤◌, ◌+◌, ◌++◌, List, ℕ};
ghost use Rattle.mt_names.specs.Shards.{most_shards};
ghost use Rattle.mt_desk.specs.declared.history.Call.{Call};
ghost use Rattle.mt_workers.specs.Advances.{IsAdvancing, next_position, one_if_taken};

use crate::Gate;
use crate::asking::ask;
use mt_desk::{Answer, Desk, DeskName, Pass};
use mt_event::{Event, Reason, Refusal, Reply};
use mt_names::{MAX_SHARDS, Position, WorkflowName};
use mt_watch::Asks;
use mt_workflow::Slot;
use std::sync::Wait;

/// The position at which a stream is expected after an answer to an advance of it.
pub(crate) fn next_position(at: Position, answer: &Answer) -> Position
    ensures { result ≡ next_position at answer.now }
{
    match answer {
        Ok(Reply::Advanced(advanced)) => at.saturating_add(u64::from(advanced.events)),
        Err(Refusal::Other(Reason::Stale(current))) => *current,
        _ => at,
    }
}

/// 1 where an advance was taken.
fn one_if_taken(answer: &Answer) -> u64
    ensures { result ≡ one_if_taken answer.now }
{
    match answer {
        Ok(Reply::Advanced(_)) => 1,
        _ => 0,
    }
}

/// Advances the streams of a workflow that go one way, those of the first so many shards of its target (1 to 8): one after the other, and
/// then from the first on again, so many times in all at most, each time by at most `max` rows or entries. The first time in a shard it is at
/// position 0, and then where the last answer there says that the stream is. A refusal takes a turn too; `F25 Stale` says where the stream is.
/// It gives its pass back, and the number of advances that were taken. It ends early only where the desk refuses a call, with its `DeskFault`
/// told by nobody. (Vitess: VReplication streams, which go on by themselves)
pub fn stream_worker<R: Wait, G: Gate, D: DeskName, W: Asks + Drop>(
    rt: &R,
    gate: &G,
    desk: &Desk<D, W>,
    mut pass: Pass<D>,
    worker: u16,
    workflow: &WorkflowName,
    stream: Slot,
    shards: u8,
    max: u16,
    turns: u64,
) -> (Pass<D>, u64)
    requires some { 1 ≤ shards }
    requires few { shards ≤ most_shards }
    ensures client { result.0.client ≡ pass.client }
    ensures gains { (calls : List Call) × (result.0.calls.items ≡ pass.calls.items ++ calls)
        × IsAdvancing workflow.now stream shards max turns calls result.1 }
{
    let mut positions = [0; MAX_SHARDS];
    let mut taken = 0;
    for line in 0..turns {
        let shard = (line % u64::from(shards)) as u8;
        let place = usize::from(shard);
        let at = positions[place];
        let event = Event::Advance {
            workflow: workflow.copied(),
            stream,
            shard,
            at,
            max,
        };
        let Ok(answer) = ask(rt, gate, desk, &mut pass, worker, line, event) else {
            return (pass, taken);
        };
        positions[place] = next_position(at, &answer);
        taken += one_if_taken(&answer);
    }
    (pass, taken)
}
