//! Lists of acts at a desk.

use crate::route_acts::{RouteAct, Routing, is_routed};
use crate::texts::{event_of, is_written};
use mt_desk::{Account, Desk, DeskFault, DeskName, Pass};
use mt_watch::Asks;
use std::alloc::Global;
use std::sync::Wait;

/// What clients do at a desk.
#[derive(Clone, Copy)]
pub enum Act {
    /// A client gets a pass.
    Gets(u16),
    /// A client gets no pass, with this refusal.
    GetsNone(u16, DeskFault),
    /// A client makes room in its pass.
    Reserves(u16, usize),
    /// A client asks for what a line says, and the answer is written so.
    Asks(u16, &'static str, &'static str),
    /// All passes are handed in, and each client is answered with the number of its calls.
    Gathers(&'static [(u16, u64)]),
    /// So many passes are handed in, the newest ones, and given back with this refusal.
    GathersNone(usize, DeskFault),
    /// Something is asked of the routes.
    Routes(RouteAct),
}

/// How a list of acts went.
#[derive(Clone, Copy, Debug, Eq, PartialEq)]
pub enum Played {
    /// Each act was so.
    AllSo,
    /// The act of this index was the first that wasn't.
    Wrong(usize),
    /// The desk wasn't made.
    NotMade,
}

impl Played {
    /// Up to the first act that wasn't so, if there is one.
    pub fn up_to(wrong: Option<usize>) -> Self {
        match wrong {
            Some(index) => Played::Wrong(index),
            None => Played::AllSo,
        }
    }

    /// Whether it was so, where it is one act.
    pub fn of(is_so: bool) -> Self {
        if is_so {
            Played::AllSo
        } else {
            Played::Wrong(0)
        }
    }
}

/// The place of a client's pass.
fn place_of<D: DeskName>(passes: &[Pass<D>], client: u16) -> Option<usize> {
    passes.iter().position(|pass| pass.client() == client)
}

/// Whether a client gets a pass, or this refusal.
fn gets<D: DeskName, W: Asks + Drop>(
    rt: &impl Wait,
    desk: &Desk<D, W>,
    passes: &mut Vec<Pass<D>>,
    client: u16,
    refusal: Option<DeskFault>,
) -> bool {
    match desk.pass(rt, client) {
        Ok(pass) => refusal.is_none() && pass.calls().is_empty() && passes.push(pass).is_ok(),
        Err(fault) => refusal == Some(fault),
    }
}

/// Whether a client is answered so, and its pass lists one call more.
pub fn asks<D: DeskName, W: Asks + Drop>(
    rt: &impl Wait,
    desk: &Desk<D, W>,
    pass: &mut Pass<D>,
    line: &str,
    want: &str,
) -> bool {
    let Some(event) = event_of(line) else {
        return false;
    };
    let before = pass.calls().len();
    match desk.ask(rt, pass, event) {
        Ok(answer) => is_written(&answer, want) && pass.calls().len() > before,
        Err(_) => false,
    }
}

/// Whether so many passes are there, the newest of which are moved to others.
fn are_taken<D: DeskName>(
    passes: &mut Vec<Pass<D>>,
    taken: &mut Vec<Pass<D>>,
    count: usize,
) -> bool {
    for _ in 0..count {
        let Some(pass) = passes.pop() else {
            return false;
        };
        if taken.push(pass).is_err() {
            return false;
        }
    }
    true
}

/// Whether passes that are handed in are given back with this refusal, to those from which they were taken.
fn are_refused<D: DeskName, W: Asks + Drop>(
    rt: &impl Wait,
    desk: &Desk<D, W>,
    passes: &mut Vec<Pass<D>>,
    taken: Vec<Pass<D>>,
    refusal: DeskFault,
) -> bool {
    let count = taken.len();
    match desk.gather(rt, taken) {
        Ok(_) => false,
        Err((fault, mut back)) => {
            back.reverse();
            fault == refusal && back.len() == count && passes.append(&mut back).is_ok()
        }
    }
}

/// Whether so many passes are handed in and given back, with this refusal.
fn gathers_none<D: DeskName, W: Asks + Drop>(
    rt: &impl Wait,
    alloc: Global,
    desk: &Desk<D, W>,
    passes: &mut Vec<Pass<D>>,
    count: usize,
    refusal: DeskFault,
) -> bool {
    let mut taken = Vec::new(alloc);
    if are_taken(passes, &mut taken, count) {
        return are_refused(rt, desk, passes, taken, refusal);
    }
    drop(taken);
    false
}

/// Whether all passes are handed in, and each client is answered with the number of its calls.
pub fn gathers<D: DeskName, W: Asks + Drop>(
    rt: &impl Wait,
    desk: &Desk<D, W>,
    passes: Vec<Pass<D>>,
    want: &[(u16, u64)],
) -> bool {
    match desk.gather(rt, passes) {
        Ok(Account { calls }) => calls.as_slice() == want,
        Err(_) => false,
    }
}

/// The pass of a client.
fn pass_of<D: DeskName>(passes: &mut Vec<Pass<D>>, client: u16) -> Option<&mut Pass<D>> {
    let place = place_of(passes, client)?;
    passes.get_mut(place)
}

/// Whether an act is so.
fn is_so<D: DeskName, W: Asks + Drop>(
    rt: &impl Wait,
    alloc: Global,
    desk: &Desk<D, W>,
    passes: &mut Vec<Pass<D>>,
    routing: &mut Routing<D>,
    act: Act,
) -> bool {
    match act {
        Act::Gets(client) => gets(rt, desk, passes, client, None),
        Act::GetsNone(client, refusal) => gets(rt, desk, passes, client, Some(refusal)),
        Act::Reserves(client, more) => match pass_of(passes, client) {
            Some(pass) => pass.reserve(more).is_ok(),
            None => false,
        },
        Act::Asks(client, line, want) => match pass_of(passes, client) {
            Some(pass) => asks(rt, desk, pass, line, want),
            None => false,
        },
        Act::Gathers(want) => {
            let handed_in = std::mem::replace(passes, Vec::new(alloc));
            gathers(rt, desk, handed_in, want)
        }
        Act::GathersNone(count, refusal) => gathers_none(rt, alloc, desk, passes, count, refusal),
        Act::Routes(act) => is_routed(rt, desk, routing, act),
    }
}

/// The index of the first act that isn't so.
fn first_wrong<D: DeskName, W: Asks + Drop>(
    rt: &impl Wait,
    alloc: Global,
    desk: &Desk<D, W>,
    passes: &mut Vec<Pass<D>>,
    routing: &mut Routing<D>,
    acts: &[Act],
) -> Option<usize> {
    for (index, act) in acts.iter().enumerate() {
        if !is_so(rt, alloc, desk, passes, routing, *act) {
            return Some(index);
        }
    }
    None
}

/// How acts go at a desk, in their order up to the first that isn't so.
pub fn play<D: DeskName, W: Asks + Drop>(
    rt: &impl Wait,
    alloc: Global,
    desk: &Desk<D, W>,
    acts: &[Act],
) -> Played {
    let (mut passes, mut routing) = (Vec::new(alloc), Routing::new(alloc));
    let wrong = first_wrong(rt, alloc, desk, &mut passes, &mut routing, acts);
    drop(passes);
    drop(routing);
    Played::up_to(wrong)
}
