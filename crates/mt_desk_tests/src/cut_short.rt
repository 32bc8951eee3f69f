//! A tell that memory cuts short between two entries leaves nothing behind, and the next one tells what stands then.

use crate::acts::Played;
use crate::opened::{Trial, Watch, tried};
use crate::route_acts::leads;
use crate::told_memory::{is_done, pass_of};
use mt_desk::{Desk, DeskFault, DeskName, Pass};
use mt_model::TopologyFault;
use mt_names::{RuleKey, TabletType};
use mt_routes::{Front, Router, Told};
use mt_watch::Asks;
use std::sync::Wait;
use std::test::Fail;

/// Two keyspaces and a table.
static BEFORE: [&str; 3] = [
    "keyspace commerce",
    "keyspace customer",
    "table commerce corder",
];

/// Rules whose entries come before those of `x` and `y`, so that the maps that these are written to grow in between.
static OTHERS: [&str; 7] = [
    "rule a commerce.a",
    "rule b commerce.b",
    "rule c commerce.c",
    "rule d commerce.d",
    "rule e commerce.e",
    "rule f commerce.f",
    "rule g commerce.g",
];

/// The two rules.
static TWO: [&str; 2] = ["rule x commerce.x", "rule y commerce.y"];

/// Whether a name leads nowhere at the primary, since there is no such table, by this front.
fn is_unled<D: DeskName>(router: &mut Router<D>, name: &str, front: u64) -> bool {
    match RuleKey::parse(name) {
        Ok(key) => {
            router.route(&key, TabletType::Primary) == Err((TopologyFault::NoTable, Front(front)))
        }
        Err(_) => false,
    }
}

/// Whether all lines are done.
fn are_done<D: DeskName, W: Asks + Drop>(
    rt: &impl Wait,
    desk: &Desk<D, W>,
    pass: &mut Pass<D>,
    lines: &[&str],
) -> bool {
    for line in lines {
        if !is_done(rt, desk, pass, line) {
            return false;
        }
    }
    true
}

/// Whether what stands is told, or is refused, and both names lead where they did at the opening.
fn is_told_or_refused<D: DeskName, W: Asks + Drop>(
    rt: &impl Wait,
    desk: &Desk<D, W>,
    router: &mut Router<D>,
) -> bool {
    match desk.tell(rt) {
        Ok(told) => {
            router.learn(told);
            true
        }
        Err(DeskFault::Memory | DeskFault::WatcherRefused(2)) => {
            is_unled(router, "x", 0) && is_unled(router, "y", 0)
        }
        Err(_) => false,
    }
}

/// What is told at once, or at a second try.
fn told_at_last<D: DeskName, W: Asks + Drop>(rt: &impl Wait, desk: &Desk<D, W>) -> Option<Told<D>> {
    match desk.tell(rt) {
        Ok(told) => Some(told),
        Err(_) => desk.tell(rt).ok(),
    }
}

/// Whether, once the rule of `x` is taken away, only that of `y` is told.
fn is_one_told<D: DeskName, W: Asks + Drop>(
    rt: &impl Wait,
    desk: &Desk<D, W>,
    pass: &mut Pass<D>,
    router: &mut Router<D>,
) -> bool {
    if !is_done(rt, desk, pass, "rule x -") {
        return false;
    }
    let front = pass.calls().len() as u64;
    match told_at_last(rt, desk) {
        Some(told) => {
            router.learn(told);
            is_unled(router, "x", front) && leads(router, "y", "commerce.y", front)
        }
        None => false,
    }
}

/// Whether both rules are told behind so many others, or neither, and then only that which still stands.
fn is_kept_apart<D: DeskName, W: Asks + Drop>(
    rt: &impl Wait,
    desk: &Desk<D, W>,
    pass: &mut Pass<D>,
    router: &mut Router<D>,
    others: usize,
) -> bool {
    let Some(first) = OTHERS.get(0..others) else {
        return false;
    };
    are_done(rt, desk, pass, first)
        && are_done(rt, desk, pass, &TWO)
        && is_told_or_refused(rt, desk, router)
        && is_one_told(rt, desk, pass, router)
}

/// The same by a new router.
fn is_kept_apart_anew<D: DeskName, W: Asks + Drop>(
    rt: &impl Wait,
    desk: &Desk<D, W>,
    pass: &mut Pass<D>,
    others: usize,
) -> Played {
    let Ok(mut router) = desk.router(rt) else {
        return Played::NotMade;
    };
    let is_so = is_kept_apart(rt, desk, pass, &mut router, others);
    drop(router);
    Played::up_to(if is_so { None } else { Some(others) })
}

/// How a tell of two rules behind so many others goes, where one allocation may fail.
pub fn is_cut_short_well<D: DeskName, W: Asks + Drop>(
    rt: &impl Wait,
    desk: &Desk<D, W>,
    others: usize,
) -> Played {
    let Some(mut pass) = pass_of(rt, desk, 1) else {
        return Played::NotMade;
    };
    let played = is_kept_apart_anew(rt, desk, &mut pass, others);
    drop(pass);
    played
}

#[test]
fn want_of_memory_is_no_other_answer_between_two_entries(rt: HostRuntime) -> Result<(), Fail> {
    for others in [0, 3, 7] {
        assert_eq!(rt;
            tried(
                &rt,
                rt.alloc(),
                Watch::Routes,
                &BEFORE,
                Trial::OneFailsBetween(others)
            ),
            Played::AllSo
        );
    }
    Ok(())
}
