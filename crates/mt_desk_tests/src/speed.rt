//! Calls at a desk by some threads at once, routes that are told, and what is gathered: `bench/desk.py` says how many there are of each,
//! and measures how long they take.

use crate::acts::{Played, asks};
use crate::opened::{MOVED, Trial, Watch, tried};
use crate::threads::calls;
use mt_desk::{Desk, DeskName, Pass};
use mt_watch::Asks;
use std::alloc::Global;
use std::env::{self, VarError};
use std::sync::Wait;
use std::test::Fail;
use std::thread::{Threads, map_indices};

/// How many there are of each.
#[derive(Clone, Copy)]
pub struct Load {
    /// Threads that ask.
    threads: u64,
    /// Calls of each thread.
    calls: u64,
    /// Rules that the first thread sets, beside the twelve of the workflow.
    rules: u64,
    /// Edits of the first of these rules.
    edits: u64,
    /// Tellings, each behind the edit of its number.
    tells: u64,
    /// Gatherings: one or none.
    gathers: u64,
}

/// Whether a rule is set, to one of two targets by its turn.
fn is_set<D: DeskName, W: Asks + Drop>(
    rt: &impl Wait,
    alloc: Global,
    desk: &Desk<D, W>,
    pass: &mut Pass<D>,
    rule: u64,
    turn: u64,
) -> bool {
    let keyspace = ["commerce", "customer"][(turn % 2) as usize];
    match format!(in alloc; "rule t{rule} {keyspace}.corder") {
        Ok(line) => asks(rt, desk, pass, line.as_str(), "ok"),
        Err(_) => false,
    }
}

/// Whether each turn goes well: the first ones set the rules, and then one is edited and the routes are told, each so often.
fn are_told<D: DeskName, W: Asks + Drop>(
    rt: &impl Wait,
    alloc: Global,
    desk: &Desk<D, W>,
    pass: &mut Pass<D>,
    load: Load,
) -> bool {
    for turn in 0..load.rules.saturating_add(load.edits.max(load.tells)) {
        let behind = turn.saturating_sub(load.rules);
        let (sets, edits) = (turn < load.rules, behind < load.edits);
        let rule = if sets { turn } else { 0 };
        if (sets || edits) && !is_set(rt, alloc, desk, pass, rule, behind) {
            return false;
        }
        if !sets && behind < load.tells && desk.tell(rt).is_err() {
            return false;
        }
    }
    true
}

/// The pass of a thread's client, if all of its calls are taken, and of the first thread what it edits and tells.
fn asked<D: DeskName, W: Asks + Drop>(
    rt: &impl Wait,
    alloc: Global,
    desk: &Desk<D, W>,
    thread: usize,
    load: Load,
) -> Option<Pass<D>> {
    let client = u16::try_from(thread).ok()?;
    let (mut pass, is_so) = calls(rt, desk, client, load.calls)?;
    if is_so && (thread > 0 || are_told(rt, alloc, desk, &mut pass, load)) {
        return Some(pass);
    }
    drop(pass);
    None
}

/// The passes of all threads, if each has one.
fn all_asked<D: DeskName + Send + Sync, W: Asks + Drop + Send, R: Threads + Wait + Sync>(
    rt: &R,
    alloc: Global,
    desk: &Desk<D, W>,
    load: Load,
) -> Option<Vec<Pass<D>>> {
    let count = load.threads as usize;
    let made = map_indices(rt, alloc, count, &|it| asked(rt, alloc, desk, it, load)).ok()?;
    let mut passes = Vec::new(alloc);
    for pass in made {
        passes.push(pass?).ok()?;
    }
    Some(passes)
}

/// Whether all of it goes well, and is gathered if that is wanted.
pub fn is_borne<D: DeskName + Send + Sync, W: Asks + Drop + Send, R: Threads + Wait + Sync>(
    rt: &R,
    alloc: Global,
    desk: &Desk<D, W>,
    load: Load,
) -> bool {
    match all_asked(rt, alloc, desk, load) {
        Some(passes) if load.gathers > 0 => desk.gather(rt, passes).is_ok(),
        made => made.is_some(),
    }
}

/// The number in a variable, or another one if it isn't set.
fn number(rt: &HostRuntime, name: &str, unset: u64) -> Result<u64, Fail> {
    match env::var(rt, name) {
        Ok(text) => Ok(text.as_str().parse::<u64>()?),
        Err(VarError::NotPresent) => Ok(unset),
        Err(_) => Err(Fail::from("no number")),
    }
}

#[test]
fn many_calls_are_gathered(rt: HostRuntime) -> Result<(), Fail> {
    let load = Load {
        threads: number(&rt, "MT_THREADS", 2)?,
        calls: number(&rt, "MT_CALLS", 100)?,
        rules: number(&rt, "MT_RULES", 4)?,
        edits: number(&rt, "MT_EDITS", 3)?,
        tells: number(&rt, "MT_TELLS", 4)?,
        gathers: number(&rt, "MT_GATHERS", 1)?,
    };
    let played = tried(&rt, rt.alloc(), Watch::Routes, &MOVED, Trial::Load(load));
    assert_eq!(rt; played, Played::AllSo);
    Ok(())
}
