//! A switch that is taken back, and cancelled, at a book itself, whichever allocation fails.
ghost use Rattle.mt_site.specs.Stood.{IsCoreWith};

use crate::acts::Played;
use crate::giving_up::{GivenUp, given_up_at_a_book};
use crate::opened::{site_of, two_watchers};
use mt_desk::{Answer, DeskFault};
use mt_event::Reply;
use mt_names::WorkflowName;
use mt_site::Site;
use mt_watch::{Asks, Watchers};
use std::alloc::Global;
use std::sync::Wait;

/// A workflow of whose switch one step is done.
static SWITCHED: [&str; 9] = [
    "keyspace commerce",
    "keyspace customer",
    "table commerce corder",
    "at commerce.corder insert 1 a",
    "rule corder commerce.corder",
    "create mv commerce customer corder",
    "advance mv forward 1 100",
    "begin-switch mv all",
    "step mv 0",
];

/// Whether an event was done.
fn is_done(told: &Result<Answer, DeskFault>) -> bool {
    match told {
        Ok(answer) => matches!(answer, Ok(Reply::Done)),
        Err(_) => false,
    }
}

/// Whether an undo and a Cancel are done, each with its line. It is refused only where the book isn't opened.
fn played(told: Result<GivenUp, DeskFault>) -> Played {
    let Ok(given_up) = told else {
        return Played::NotMade;
    };
    let is_so = is_done(&given_up.undone) && is_done(&given_up.cancelled) && given_up.lines == 2;
    drop(given_up);
    if is_so {
        Played::AllSo
    } else {
        Played::Wrong(0)
    }
}

/// How it goes at a book for the core of a site.
fn given_up_of<R: Wait, W: Asks + Drop>(
    rt: &R,
    alloc: Global,
    site: Site<W>,
    workflow: &WorkflowName,
) -> Played
    requires { IsCoreWith (W.scopes site.watchers) site.core }
{
    let Site { core, watchers } = site;
    let told = given_up_at_a_book(rt, alloc, core, &watchers, workflow, 1);
    drop(watchers);
    played(told)
}

/// How it goes with these watchers.
fn given_up_with<R: Wait, W: Asks + Drop>(rt: &R, alloc: Global, watchers: W) -> Played {
    let Ok(workflow) = WorkflowName::parse("mv") else {
        return Played::NotMade;
    };
    match site_of(alloc, watchers, &SWITCHED) {
        Some(site) => given_up_of(rt, alloc, site, &workflow),
        None => Played::NotMade,
    }
}

/// How it goes with the watchers of two primaries. Where there was no memory to make the controller, or to open the book, there is nothing to give up.
fn given_up<R: Wait>(rt: &R, alloc: Global) -> Played {
    match two_watchers(alloc) {
        Some(watchers) => given_up_with::<R, Watchers>(rt, alloc, watchers),
        None => Played::NotMade,
    }
}

#[test]
fn want_of_memory_is_no_other_answer_at_a_book(rt: HostRuntime) {
    let alloc = rt.alloc();
    let played = match given_up(&rt, alloc) {
        Played::NotMade => given_up(&rt, alloc),
        played => played,
    };
    assert_eq!(rt; played, Played::AllSo);
}

/// Passes as well where, from some allocation on, each fails.
#[test]
fn no_memory_is_asked_for(rt: HostRuntime) {
    let played = given_up(&rt, rt.alloc());
    assert!(rt; played == Played::AllSo || played == Played::NotMade);
}
