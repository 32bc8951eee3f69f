//! Routers in four threads while a client edits a rule, and each edit is told.

use crate::acts::{Played, gathers};
use crate::opened::{Trial, Watch, tried};
use crate::texts::event_of;
use mt_desk::{Desk, DeskName, Pass};
use mt_names::{RuleKey, TabletType};
use mt_routes::{Front, Router};
use mt_watch::Asks;
use std::alloc::Global;
use std::sync::Wait;
use std::test::Fail;
use std::thread::{Threads, join};

/// How many edits there are.
const MANY: u64 = 1000;

/// How many look-ups a router makes at most.
const MOST: u64 = 2_000_000_000;

/// What stands before the first edit.
static BEFORE: [&str; 2] = ["keyspace commerce", "rule x commerce.t0"];

/// The edits by their numbers, which begin again behind the last of these: each is a line, and where the name leads behind it.
static EDITS: [(&str, &str); 4] = [
    ("rule x commerce.t0", "commerce.t0"),
    ("rule x commerce.t1", "commerce.t1"),
    ("rule x customer.t2", "customer.t2"),
    ("rule x customer.t3", "customer.t3"),
];

/// The edit of a number.
fn edit(number: u64) -> (&'static str, &'static str) {
    EDITS[(number % 4) as usize]
}

/// Whether each answer is by one publication, and none by an earlier one than that before it, up to the last publication.
fn follows<D: DeskName>(router: &mut Router<D>) -> bool {
    let Ok(key) = RuleKey::parse("x") else {
        return false;
    };
    let mut latest = Front(0);
    for _ in 0..MOST {
        let Ok((target, front)) = router.route(&key, TabletType::Primary) else {
            return false;
        };
        if front < latest || target.text().as_str() != edit(front.0).1 {
            return false;
        }
        latest = front;
        if latest == Front(MANY) {
            return true;
        }
    }
    false
}

/// Whether the answers of a new router follow each other so.
fn reads_on<D: DeskName, W: Asks + Drop>(rt: &impl Wait, desk: &Desk<D, W>) -> bool {
    let Ok(mut router) = desk.router(rt) else {
        return false;
    };
    let is_so = follows(&mut router);
    drop(router);
    is_so
}

/// Whether an edit is done, and told with its number.
fn is_told<D: DeskName, W: Asks + Drop>(
    rt: &impl Wait,
    desk: &Desk<D, W>,
    pass: &mut Pass<D>,
    number: u64,
) -> bool {
    let Some(event) = event_of(edit(number).0) else {
        return false;
    };
    if !matches!(desk.ask(rt, pass, event), Ok(Ok(_))) {
        return false;
    }
    desk.tell(rt)
        .is_ok_and(|told| told.front() == Front(number))
}

/// Whether a client makes each edit, and tells it.
fn are_told<D: DeskName, W: Asks + Drop>(
    rt: &impl Wait,
    desk: &Desk<D, W>,
    pass: &mut Pass<D>,
) -> bool {
    for number in 1..=MANY {
        if !is_told(rt, desk, pass, number) {
            return false;
        }
    }
    true
}

/// Whether a new client does, and its calls are gathered.
fn edits_on<D: DeskName, W: Asks + Drop>(rt: &impl Wait, alloc: Global, desk: &Desk<D, W>) -> bool {
    let Ok(mut pass) = desk.pass(rt, 1) else {
        return false;
    };
    let is_so = are_told(rt, desk, &mut pass);
    match Vec::from_array(alloc, [pass]) {
        Ok(passes) => gathers(rt, desk, passes, &[(1, MANY)]) && is_so,
        Err(_) => false,
    }
}

/// Whether two routers in two threads read on.
fn two_read_on<D: DeskName + Send + Sync, W: Asks + Drop + Send, R: Threads + Wait + Sync>(
    rt: &R,
    desk: &Desk<D, W>,
) -> bool {
    join(rt, || reads_on(rt, desk), || reads_on(rt, desk)) == (true, true)
}

/// Four routers read on while a client edits on, whose calls are gathered.
pub fn all_go_on<D: DeskName + Send + Sync, W: Asks + Drop + Send, R: Threads + Wait + Sync>(
    rt: &R,
    alloc: Global,
    desk: &Desk<D, W>,
) -> Played {
    let (four_read, is_told) = join(
        rt,
        || join(rt, || two_read_on(rt, desk), || two_read_on(rt, desk)) == (true, true),
        || edits_on(rt, alloc, desk),
    );
    Played::of(four_read && is_told)
}

#[test]
fn four_read_while_edits_are_told(rt: HostRuntime) -> Result<(), Fail> {
    assert_eq!(rt;
        tried(&rt, rt.alloc(), Watch::Routes, &BEFORE, Trial::Readers),
        Played::AllSo
    );
    Ok(())
}
