//! Workers one after the other: each alone, and a controller that takes over from one that stopped.

use crate::acts::asks;
use crate::opened::{Trial, they_work};
use mt_desk::{Desk, DeskName, Pass};
use mt_event::{Driven, Event, Reason, Refusal, Reply};
use mt_names::{TypeSet, WorkflowName};
use mt_watch::Asks;
use mt_workers::{NoGate, controller, stream_worker};
use mt_workflow::Slot;
use std::alloc::Global;
use std::sync::Wait;
use std::thread::Threads;

/// What workers do one after the other.
#[derive(Clone, Copy)]
pub enum Turns {
    /// A stream worker, and a controller behind it.
    Alone,
    /// A switch, or a reversal behind one, stops when so many of its steps are done; another controller finishes it.
    Finished(bool, usize),
    /// Another controller gives a switch up that stopped so, since a write that came later isn't read and it has one try.
    Abandoned(usize),
}

/// The steps of a way of all types.
static STEPS: [&str; 12] = [
    "step mv 0",
    "step mv 1",
    "step mv 2",
    "step mv 3",
    "step mv 4",
    "step mv 5",
    "step mv 6",
    "step mv 7",
    "step mv 8",
    "step mv 9",
    "step mv 10",
    "step mv 11",
];

/// A write at the source.
static WRITTEN: [&str; 1] = ["at commerce.corder insert 1 a"];

/// The workflow.
pub fn workflow() -> Option<WorkflowName> {
    WorkflowName::parse("mv").ok()
}

/// Whether lines are done, one after the other.
pub fn are_done<R: Wait, D: DeskName, W: Asks + Drop>(
    rt: &R,
    desk: &Desk<D, W>,
    pass: &mut Pass<D>,
    lines: &[&str],
) -> bool {
    for line in lines {
        if !asks(rt, desk, pass, line, "ok") {
            return false;
        }
    }
    true
}

/// Whether no way is open, and just these types are switched.
pub fn is_at_rest<R: Wait, D: DeskName, W: Asks + Drop>(
    rt: &R,
    desk: &Desk<D, W>,
    pass: &mut Pass<D>,
    switched: TypeSet,
) -> bool {
    let Some(workflow) = workflow() else {
        return false;
    };
    match desk.ask(rt, pass, Event::Show { workflow }) {
        Ok(Ok(Reply::Shown(shown))) => shown.way.is_none() && shown.switched == switched,
        _ => false,
    }
}

/// Whether a controller of a new client, for all types and with so many tries, ends so, and just these types are switched then.
pub fn ends<R: Wait, D: DeskName, W: Asks + Drop>(
    rt: &R,
    desk: &Desk<D, W>,
    client: u16,
    (back, tries): (bool, u64),
    want: Driven,
    switched: TypeSet,
) -> bool {
    let Some(name) = workflow() else {
        return false;
    };
    let Ok(pass) = desk.pass(rt, client) else {
        return false;
    };
    let (mut pass, end) = controller(rt, &NoGate, desk, pass, 0, &name, TypeSet::ALL, back, tries);
    let is_so = end == Ok(want) && is_at_rest(rt, desk, &mut pass, switched);
    drop(pass);
    is_so
}

/// Whether all is switched by a client, if a reversal is to begin.
fn is_ready<R: Wait, D: DeskName, W: Asks + Drop>(rt: &R, desk: &Desk<D, W>, back: bool) -> bool {
    !back || ends(rt, desk, 3, (false, 64), Driven::Done, TypeSet::ALL)
}

/// Whether client 1 begins a way and does so many of its steps, and then what lines ask for.
fn is_begun<R: Wait, D: DeskName, W: Asks + Drop>(
    rt: &R,
    desk: &Desk<D, W>,
    (back, count): (bool, usize),
    behind: &[&str],
) -> bool {
    let Some(steps) = STEPS.get(0..count) else {
        return false;
    };
    let Ok(mut pass) = desk.pass(rt, 1) else {
        return false;
    };
    let begin = if back {
        "begin-reverse mv all"
    } else {
        "begin-switch mv all"
    };
    let is_so = asks(rt, desk, &mut pass, begin, "ok")
        && are_done(rt, desk, &mut pass, steps)
        && are_done(rt, desk, &mut pass, behind);
    drop(pass);
    is_so
}

/// Whether a stream worker with two turns takes two advances.
fn are_taken<R: Wait, D: DeskName, W: Asks + Drop>(rt: &R, desk: &Desk<D, W>) -> bool {
    let Some(name) = workflow() else {
        return false;
    };
    let Ok(pass) = desk.pass(rt, 1) else {
        return false;
    };
    let (pass, taken) = stream_worker(rt, &NoGate, desk, pass, 0, &name, Slot::Forward, 1, 100, 2);
    drop(pass);
    taken == 2
}

/// Whether workers one after the other do what they should.
pub fn in_turn<R: Wait, D: DeskName, W: Asks + Drop>(
    rt: &R,
    desk: &Desk<D, W>,
    turns: Turns,
) -> bool {
    let not_level = Driven::Abandoned(Refusal::Other(Reason::NotLevel));
    match turns {
        Turns::Alone => {
            are_taken(rt, desk) && ends(rt, desk, 2, (false, 64), Driven::Done, TypeSet::ALL)
        }
        Turns::Finished(back, steps) => {
            let switched = if back { TypeSet::NONE } else { TypeSet::ALL };
            is_ready(rt, desk, back)
                && is_begun(rt, desk, (back, steps), &[])
                && ends(rt, desk, 2, (back, 64), Driven::Done, switched)
        }
        Turns::Abandoned(steps) => {
            is_begun(rt, desk, (false, steps), &WRITTEN)
                && ends(rt, desk, 2, (false, 1), not_level, TypeSet::NONE)
        }
    }
}

/// The first way that another controller doesn't finish, with the steps that were done.
fn first_unfinished<R: Threads + Wait + Sync>(rt: &R, alloc: Global) -> Option<(bool, usize)> {
    for number in 0..24usize {
        let (back, steps) = (number >= 12, number % 12);
        if !they_work(rt, alloc, Trial::InTurn(Turns::Finished(back, steps))) {
            return Some((back, steps));
        }
    }
    None
}

#[test]
fn each_worker_does_its_part(rt: HostRuntime) {
    assert!(rt; they_work(&rt, rt.alloc(), Trial::InTurn(Turns::Alone)));
}

#[test]
fn another_controller_finishes(rt: HostRuntime) {
    assert_eq!(rt; first_unfinished(&rt, rt.alloc()), None);
}

#[test]
fn another_controller_gives_up_before_the_journal(rt: HostRuntime) {
    assert!(rt; they_work(&rt, rt.alloc(), Trial::InTurn(Turns::Abandoned(1))));
    assert!(rt; they_work(&rt, rt.alloc(), Trial::InTurn(Turns::Abandoned(2))));
}
