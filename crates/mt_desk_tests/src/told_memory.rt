//! Where an allocation fails, what is to be told is refused, a refusal shows nothing, and the next try tells it.

use crate::acts::Played;
use crate::opened::{Trial, Watch, tried};
use crate::route_acts::leads;
use crate::texts::event_of;
use mt_desk::{Desk, DeskFault, DeskName, Pass};
use mt_routes::{Front, Router, Told};
use mt_watch::Asks;
use std::sync::Wait;
use std::test::Fail;

/// One keyspace with two tables.
static TABLES: [&str; 3] = [
    "keyspace commerce",
    "table commerce corder",
    "table commerce cart",
];

/// Rules of one name, each with its target.
static RULES: [(&str, &str); 4] = [
    ("rule x commerce.corder", "commerce.corder"),
    ("rule x customer.corder", "customer.corder"),
    ("rule x commerce.cart", "commerce.cart"),
    ("rule x customer.cart", "customer.cart"),
];

/// A client's pass, at once or at a second try.
pub fn pass_of<D: DeskName, W: Asks + Drop>(
    rt: &impl Wait,
    desk: &Desk<D, W>,
    client: u16,
) -> Option<Pass<D>> {
    match desk.pass(rt, client) {
        Ok(pass) => Some(pass),
        Err(_) => desk.pass(rt, client).ok(),
    }
}

/// Whether a line is done, at once or at a second try.
pub fn is_done<D: DeskName, W: Asks + Drop>(
    rt: &impl Wait,
    desk: &Desk<D, W>,
    pass: &mut Pass<D>,
    line: &str,
) -> bool {
    let Some(event) = event_of(line) else {
        return false;
    };
    matches!(desk.ask(rt, pass, event.copied()), Ok(Ok(_)))
        || matches!(desk.ask(rt, pass, event), Ok(Ok(_)))
}

/// What is told at once, or at a second try after a refusal out of memory, behind which the router answers by the same front.
fn told_of<D: DeskName, W: Asks + Drop>(
    rt: &impl Wait,
    desk: &Desk<D, W>,
    router: &mut Router<D>,
    last: u64,
) -> Option<Told<D>> {
    match desk.tell(rt) {
        Ok(told) => Some(told),
        Err(DeskFault::Memory | DeskFault::WatcherRefused(2)) => {
            if leads(router, "commerce.corder", "commerce.corder", last) {
                desk.tell(rt).ok()
            } else {
                None
            }
        }
        Err(_) => None,
    }
}

/// Whether a rule is told, with the front of this number of lines behind that of the last.
fn is_told<D: DeskName, W: Asks + Drop>(
    rt: &impl Wait,
    desk: &Desk<D, W>,
    pass: &mut Pass<D>,
    router: &mut Router<D>,
    rule: (&str, &str),
) -> bool {
    let before = pass.calls().len() as u64;
    if !is_done(rt, desk, pass, rule.0) {
        return false;
    }
    let front = pass.calls().len() as u64;
    match told_of(rt, desk, router, before) {
        Some(told) => {
            let is_so = told.front() == Front(front);
            router.learn(told);
            is_so && leads(router, "x", rule.1, front)
        }
        None => false,
    }
}

/// The index of the first rule that isn't told.
fn first_untold<D: DeskName, W: Asks + Drop>(
    rt: &impl Wait,
    desk: &Desk<D, W>,
    pass: &mut Pass<D>,
    router: &mut Router<D>,
) -> Option<usize> {
    for (index, rule) in RULES.iter().enumerate() {
        if !is_told(rt, desk, pass, router, *rule) {
            return Some(index);
        }
    }
    None
}

/// The index of the first rule that isn't told to a new router.
fn first_untold_anew<D: DeskName, W: Asks + Drop>(
    rt: &impl Wait,
    desk: &Desk<D, W>,
    pass: &mut Pass<D>,
) -> Played {
    let Ok(mut router) = desk.router(rt) else {
        return Played::NotMade;
    };
    let wrong = first_untold(rt, desk, pass, &mut router);
    drop(router);
    Played::up_to(wrong)
}

/// How each rule is told, up to the first that isn't.
pub fn is_told_all<D: DeskName, W: Asks + Drop>(rt: &impl Wait, desk: &Desk<D, W>) -> Played {
    let Some(mut pass) = pass_of(rt, desk, 1) else {
        return Played::NotMade;
    };
    let played = first_untold_anew(rt, desk, &mut pass);
    drop(pass);
    played
}

#[test]
fn want_of_memory_is_no_other_answer(rt: HostRuntime) -> Result<(), Fail> {
    assert_eq!(rt;
        tried(
            &rt,
            rt.alloc(),
            Watch::Routes,
            &TABLES,
            Trial::OneFailsTelling
        ),
        Played::AllSo
    );
    Ok(())
}
