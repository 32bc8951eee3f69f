//! The worker that switches the traffic of a workflow, or reverses it.
ghost use Rattle.std.specs.Prelude.{◌≡◌, ◌≤◌, ◌++◌, List};
ghost use Rattle.mt_desk.specs.declared.history.Call.{Call};
ghost use Rattle.mt_names.specs.Shards.{most_shards};
ghost use Rattle.mt_workers.specs.Controls.{Controls, Runs, begin_event, most_places, none_open};
ghost use Rattle.mt_workers.specs.declared.turn.Turn.TheVariants.{Steps};

use crate::asking::ask;
use crate::course::{Course, course_of};
use crate::turn::{Heard, Turn, due, hear};
use crate::{ControlFault, Gate};
use mt_desk::{Answer, Desk, DeskName, Pass};
use mt_event::{Driven, Event, Reason, Refusal};
use mt_names::{TypeSet, WorkflowName};
use mt_watch::Asks;
use std::sync::Wait;

/// The event that begins a switch of traffic, or its reversal.
fn begin_of(workflow: &WorkflowName, types: TypeSet, back: bool) -> Event
    ensures { result ≡ begin_event workflow.now types back }
{
    let workflow = workflow.copied();
    if back {
        Event::BeginReverse { workflow, types }
    } else {
        Event::BeginSwitch { workflow, types }
    }
}

/// The refusal that ends a controller if no way is open after the answer to its begin, or that ends it at once.
fn none_open(answer: Answer) -> Result<Refusal, Refusal>
    ensures { result ≡ none_open answer }
{
    match answer {
        Ok(_) => Ok(Refusal::Other(Reason::NothingUnderWay)),
        Err(Refusal::Other(Reason::UnderWay)) => Ok(Refusal::Other(Reason::UnderWay)),
        Err(refusal) => Err(refusal),
    }
}

/// Goes on with the way that is open, until it ends.
fn run<R: Wait, G: Gate, D: DeskName, W: Asks + Drop>(
    rt: &R,
    gate: &G,
    desk: &Desk<D, W>,
    mut pass: Pass<D>,
    worker: u16,
    workflow: &WorkflowName,
    mut course: Course,
) -> (Pass<D>, Result<Driven, ControlFault>)
    requires done { course.way.done ≤ most_places }
    requires shards { course.way.shards ≤ most_shards }
    ensures client { result.0.client ≡ pass.client }
    ensures runs { (calls : List Call) × (result.0.calls.items ≡ pass.calls.items ++ calls)
        × Runs workflow.now Steps course calls result.1 }
{
    let mut turn = Turn::Steps;
    let mut line: u64 = 2;
    'turns: loop {
        let event = due(workflow, &turn, course);
        let answer = match ask(rt, gate, desk, &mut pass, worker, line, event) {
            Ok(answer) => answer,
            Err(fault) => return (pass, Err(ControlFault::Desk(fault))),
        };
        line = line.saturating_add(1);
        match hear(turn, course, answer) {
            Heard::GoesOn(next, further) => {
                turn = next;
                course = further;
            }
            Heard::Ends(Ok(driven)) => return (pass, Ok(driven)),
            Heard::Ends(Err(refusal)) => return (pass, Err(ControlFault::Refused(refusal))),
        }
    }
}

/// Switches the traffic of some types of a workflow as a whole, or reverses it (`back`), as `drive` of mt_site does, but by calls of a
/// desk where others ask at the same time. It begins the way; where one is open already (`F13 UnderWay`) it goes on with that one, and
/// ends with `F13 UnderWay` if none is open any more. It takes the steps in turn. At `F18 NotLevel` the feeding stream of each shard reads at
/// most 100 entries, in the order of the shards, and the step is tried again; `F25 Stale` says where another one went on, and the controller goes on from there. Of both together
/// there are fewer than `tries`: the last one ends it as any other refusal of a step or of the stream does. Before the journal all is undone,
/// and the answer is `Abandoned`; behind it the way stays open, and the answer is `Stopped`. It ends with a refusal if the begin or a Show is
/// refused, if a step or an undo is as `F7 NoWorkflow` or `F14 NothingUnderWay`, or if an undo is for any other cause but `F25 Stale` with a
/// try left. If the desk refuses a call it ends with its fault. It gives its pass back.
pub fn controller<R: Wait, G: Gate, D: DeskName, W: Asks + Drop>(
    rt: &R,
    gate: &G,
    desk: &Desk<D, W>,
    mut pass: Pass<D>,
    worker: u16,
    workflow: &WorkflowName,
    types: TypeSet,
    back: bool,
    tries: u64,
) -> (Pass<D>, Result<Driven, ControlFault>)
    ensures client { result.0.client ≡ pass.client }
    ensures controls { (calls : List Call) × (result.0.calls.items ≡ pass.calls.items ++ calls)
        × Controls workflow.now types back tries calls result.1 }
{
    let begin = begin_of(workflow, types, back);
    let begun = match ask(rt, gate, desk, &mut pass, worker, 0, begin) {
        Ok(answer) => answer,
        Err(fault) => return (pass, Err(ControlFault::Desk(fault))),
    };
    let none = match none_open(begun) {
        Ok(none) => none,
        Err(refusal) => return (pass, Err(ControlFault::Refused(refusal))),
    };
    let show = Event::Show {
        workflow: workflow.copied(),
    };
    let shown = match ask(rt, gate, desk, &mut pass, worker, 1, show) {
        Ok(answer) => answer,
        Err(fault) => return (pass, Err(ControlFault::Desk(fault))),
    };
    match course_of(tries, none, shown) {
        Ok(course) => run(rt, gate, desk, pass, worker, workflow, course),
        Err(refusal) => (pass, Err(ControlFault::Refused(refusal))),
    }
}
