//! Two controllers and two clients at once: both controllers switch, or one switches and the other undoes.

use crate::opened::{Trial, they_work};
use crate::turns::{is_at_rest, workflow};
use crossbeam_channel::{Sender, unbounded};
use mt_desk::{Desk, DeskName, Pass};
use mt_event::{Driven, Event, Reason, Refusal, Reply};
use mt_model::Op;
use mt_names::{RuleKey, TypeSet, Value};
use mt_watch::Asks;
use mt_workers::{ControlFault, Line, Message, NoGate, controller, query_worker};
use mt_workflow::Way;
use std::alloc::Global;
use std::sync::Wait;
use std::thread::{Threads, join};

/// How many rows a client inserts.
pub const ROWS: u64 = 32;

/// How often a controller that undoes asks Show.
const LOOKS: u32 = 100;

/// The key of a row of a client, of which half stand in either half of all keys.
pub fn row_key(client: u16, number: u64) -> u64 {
    (number << 59) | u64::from(client)
}

/// Inserts of a client's rows by the table's name.
fn inserts(alloc: Global, client: u16) -> Option<Vec<Line>> {
    let mut lines = Vec::new(alloc);
    for number in 0..ROWS {
        let key = RuleKey::parse("corder").ok()?;
        let op = Op::Insert(row_key(client, number), Value::new());
        lines.push(Line::Put(key, op)).ok()?;
    }
    Some(lines)
}

/// A client inserts its rows. Answers its pass, if all of its lines were sent.
pub fn writes<R: Wait, D: DeskName, W: Asks + Drop>(
    rt: &R,
    alloc: Global,
    desk: &Desk<D, W>,
    sender: &Sender<Message>,
    client: u16,
) -> Option<Pass<D>> {
    let lines = inserts(alloc, client)?;
    let (Ok(pass), Ok(router)) = (desk.pass(rt, client), desk.router(rt)) else {
        return None;
    };
    match query_worker(rt, &NoGate, desk, router, pass, 0, lines.as_slice(), sender) {
        (pass, ROWS) => Some(pass),
        _ => None,
    }
}

/// A controller switches all types. Answers its pass, and whether it did, if it ended as one of two may: it did; the other one was first, or
/// has written the journal; or the switch was given up, since the other one had stopped the stream that this one was to advance.
fn switches<R: Wait, D: DeskName, W: Asks + Drop>(
    rt: &R,
    desk: &Desk<D, W>,
    pass: Pass<D>,
) -> Option<(Pass<D>, bool)> {
    let name = workflow()?;
    let (pass, end) = controller(rt, &NoGate, desk, pass, 0, &name, TypeSet::ALL, false, 256);
    match end {
        Ok(Driven::Done) => Some((pass, true)),
        Ok(Driven::Abandoned(Refusal::Other(Reason::StreamStopped | Reason::Undoing)))
        | Err(
            ControlFault::Refused(
                Refusal::Other(Reason::UnderWay)
                | Refusal::Other(Reason::NothingUnderWay)
                | Refusal::Other(Reason::NothingToSwitch)
                | Refusal::Other(Reason::PastJournal),
            ),
        ) => Some((pass, false)),
        _ => None,
    }
}

/// The way that is open, if one is, as Show tells it.
fn way_shown<R: Wait, D: DeskName, W: Asks + Drop>(
    rt: &R,
    desk: &Desk<D, W>,
    pass: &mut Pass<D>,
) -> Option<Option<Way>> {
    let workflow = workflow()?;
    match desk.ask(rt, pass, Event::Show { workflow }) {
        Ok(Ok(Reply::Shown(shown))) => Some(shown.way),
        _ => None,
    }
}

/// Whether an undo is done, or refused since the other controller was first: it took a step, closed the way, or wrote the journal.
fn is_undone<R: Wait, D: DeskName, W: Asks + Drop>(
    rt: &R,
    desk: &Desk<D, W>,
    pass: &mut Pass<D>,
    at: u64,
) -> bool {
    let Some(workflow) = workflow() else {
        return false;
    };
    match desk.ask(rt, pass, Event::Undo { workflow, at }) {
        Ok(Ok(Reply::Done)) => true,
        Ok(Err(Refusal::Other(reason))) => matches!(
            reason,
            Reason::Stale(_) | Reason::NothingUnderWay | Reason::PastJournal
        ),
        _ => false,
    }
}

/// Whether the last step of the way is undone, if one is open, or that is refused as it may be.
fn undoes_one<R: Wait, D: DeskName, W: Asks + Drop>(
    rt: &R,
    desk: &Desk<D, W>,
    pass: &mut Pass<D>,
) -> bool {
    match way_shown(rt, desk, pass) {
        Some(Some(way)) => is_undone(rt, desk, pass, u64::from(way.done)),
        Some(None) => true,
        None => false,
    }
}

/// Whether a controller undoes what another one does, step by step, and each undo is answered as it may be.
fn undoes<R: Wait, D: DeskName, W: Asks + Drop>(
    rt: &R,
    desk: &Desk<D, W>,
    pass: &mut Pass<D>,
) -> bool {
    for _ in 0..LOOKS {
        if !undoes_one(rt, desk, pass) {
            return false;
        }
    }
    true
}

/// Undoes with a new pass of a client. Answers the pass, and that it switched nothing.
fn undoes_as<R: Wait, D: DeskName, W: Asks + Drop>(
    rt: &R,
    desk: &Desk<D, W>,
    client: u16,
) -> Option<(Pass<D>, bool)> {
    let Ok(mut pass) = desk.pass(rt, client) else {
        return None;
    };
    if undoes(rt, desk, &mut pass) {
        return Some((pass, false));
    }
    drop(pass);
    None
}

/// Switches with a new pass of a client.
fn switches_as<R: Wait, D: DeskName, W: Asks + Drop>(
    rt: &R,
    desk: &Desk<D, W>,
    client: u16,
) -> Option<(Pass<D>, bool)> {
    match desk.pass(rt, client) {
        Ok(pass) => switches(rt, desk, pass),
        Err(_) => None,
    }
}

/// The second controller, which may undo what the first does.
fn switches_or_undoes<R: Wait, D: DeskName, W: Asks + Drop>(
    rt: &R,
    desk: &Desk<D, W>,
    is_undoing: bool,
) -> Option<(Pass<D>, bool)> {
    if is_undoing {
        undoes_as(rt, desk, 2)
    } else {
        switches_as(rt, desk, 2)
    }
}

/// Answers the pass if all is switched behind two controllers, of which one did it (`is_done`). If none did, nothing is switched and no way
/// is open, and a controller that is alone switches all.
fn is_switched_at_last<R: Wait, D: DeskName, W: Asks + Drop>(
    rt: &R,
    desk: &Desk<D, W>,
    mut pass: Pass<D>,
    is_done: bool,
) -> Option<Pass<D>> {
    let mut pass = if is_done {
        pass
    } else if is_at_rest(rt, desk, &mut pass, TypeSet::NONE) {
        match switches(rt, desk, pass) {
            Some((pass, true)) => pass,
            _ => return None,
        }
    } else {
        return None;
    };
    if is_at_rest(rt, desk, &mut pass, TypeSet::ALL) {
        Some(pass)
    } else {
        None
    }
}

/// Whether four passes are gathered.
pub fn are_gathered<R: Wait, D: DeskName, W: Asks + Drop>(
    rt: &R,
    alloc: Global,
    desk: &Desk<D, W>,
    passes: [Pass<D>; 4],
) -> bool {
    match Vec::from_array(alloc, passes) {
        Ok(passes) => desk.gather(rt, passes).is_ok(),
        Err(_) => false,
    }
}

/// Two controllers, of which the second may undo what the first does, and two clients that insert, at once.
fn all_at_once<R: Threads + Wait + Sync, D: DeskName + Send + Sync, W: Asks + Drop + Send>(
    rt: &R,
    alloc: Global,
    desk: &Desk<D, W>,
    told: &Sender<Message>,
    is_undoing: bool,
) -> (
    (Option<(Pass<D>, bool)>, Option<(Pass<D>, bool)>),
    (Option<Pass<D>>, Option<Pass<D>>),
) {
    join(
        rt,
        move || join(
            rt,
            move || switches_as(rt, desk, 1),
            move || switches_or_undoes(rt, desk, is_undoing),
        ),
        move || {
            join(
                rt,
                move || writes(rt, alloc, desk, told, 3),
                move || writes(rt, alloc, desk, told, 4),
            )
        },
    )
}

/// Whether two controllers end while two clients write, of which the second may undo what the first does; whether all is switched at last, by
/// one of them, and all passes are gathered.
pub fn two_controllers<R: Threads + Wait + Sync, D: DeskName + Send + Sync, W: Asks + Drop + Send>(
    rt: &R,
    alloc: Global,
    desk: &Desk<D, W>,
    is_undoing: bool,
) -> bool {
    let Ok((sender, _receiver)) = unbounded(alloc) else {
        return false;
    };
    let ((one, two), (three, four)) = all_at_once(rt, alloc, desk, &sender, is_undoing);
    match (one, two, three, four) {
        (Some((one, first)), Some((two, second)), Some(three), Some(four)) => {
            match is_switched_at_last(rt, desk, one, first || second) {
                Some(one) => {
                    are_gathered(rt, alloc, desk, [one, two, three, four]) && !(first && second)
                }
                None => false,
            }
        }
        _ => false,
    }
}

#[test]
fn two_controllers_switch_once(rt: HostRuntime) {
    assert!(rt; they_work(&rt, rt.alloc(), Trial::TwoControllers(false)));
}

/// How often a switch is undone while it is done.
const TIMES: u32 = 20;

#[test]
fn one_controller_switches_and_one_undoes(rt: HostRuntime) {
    for _ in 0..TIMES {
        assert!(rt; they_work(&rt, rt.alloc(), Trial::TwoControllers(true)));
    }
}
