//! Two clients that ask at once.

use crate::acts::{Played, asks, gathers};
use crate::opened::{Trial, Watch, tried};
use mt_desk::{Desk, DeskName, Pass};
use mt_event::Event;
use mt_model::Op;
use mt_names::{RuleTarget, TabletType, Value};
use mt_watch::Asks;
use std::alloc::Global;
use std::sync::Wait;
use std::test::Fail;
use std::thread::{Threads, join};

/// One keyspace with one table.
static TABLE: [&str; 2] = ["keyspace commerce", "table commerce corder"];

/// The call of a number that a client makes at a table: it inserts a row, or else reads the one before.
fn call_of(at: &RuleTarget, client: u16, number: u64) -> Option<Event> {
    let RuleTarget { keyspace, table } = at.copied();
    let key = (u64::from(client) << 32).saturating_add(number / 2);
    if number % 2 == 1 {
        let type_of = TabletType::Primary;
        return Some(Event::Read {
            keyspace,
            table,
            key,
            type_of,
        });
    }
    let mut value = Value::new();
    value.try_extend_from_slice(b"abcdefghijklmnop").ok()?;
    let op = Op::Insert(key, value);
    Some(Event::Write {
        keyspace,
        table,
        op,
    })
}

/// Whether a client's calls are taken, so many.
fn are_taken<D: DeskName, W: Asks + Drop>(
    rt: &impl Wait,
    desk: &Desk<D, W>,
    pass: &mut Pass<D>,
    count: u64,
) -> bool {
    let Ok(at) = RuleTarget::parse("commerce.corder") else {
        return false;
    };
    for number in 0..count {
        let Some(event) = call_of(&at, pass.client(), number) else {
            return false;
        };
        if !matches!(desk.ask(rt, pass, event), Ok(Ok(_))) {
            return false;
        }
    }
    true
}

/// A new client inserts rows of its own and reads each, by so many calls. Answers its pass, and whether all were taken, if it got one.
pub fn calls<D: DeskName, W: Asks + Drop>(
    rt: &impl Wait,
    desk: &Desk<D, W>,
    client: u16,
    count: u64,
) -> Option<(Pass<D>, bool)> {
    let Ok(mut pass) = desk.pass(rt, client) else {
        return None;
    };
    let is_so = are_taken(rt, desk, &mut pass, count);
    Some((pass, is_so))
}

/// A third client reads the last row of each of two. Answers its pass, and whether both are there, if it got one.
fn reads<D: DeskName, W: Asks + Drop>(
    rt: &impl Wait,
    desk: &Desk<D, W>,
) -> Option<(Pass<D>, bool)> {
    let Ok(mut pass) = desk.pass(rt, 3) else {
        return None;
    };
    let is_so = asks(
        rt,
        desk,
        &mut pass,
        "at commerce.corder get 4294967795",
        "row abcdefghijklmnop",
    ) && asks(
        rt,
        desk,
        &mut pass,
        "at commerce.corder get 8589935091",
        "row abcdefghijklmnop",
    );
    Some((pass, is_so))
}

/// Whether three passes are gathered with these calls.
fn are_gathered<D: DeskName, W: Asks + Drop>(
    rt: &impl Wait,
    alloc: Global,
    desk: &Desk<D, W>,
    passes: [Pass<D>; 3],
    want: &[(u16, u64)],
) -> bool {
    match Vec::from_array(alloc, passes) {
        Ok(passes) => gathers(rt, desk, passes, want),
        Err(_) => false,
    }
}

/// Two clients ask on two threads, each so often; then a third reads the last row of each, and all passes are gathered.
pub fn two_ask<D: DeskName + Send + Sync, W: Asks + Drop + Send, R: Threads + Wait + Sync>(
    rt: &R,
    alloc: Global,
    desk: &Desk<D, W>,
    count: u64,
) -> Played {
    let (one, two) = join(
        rt,
        || calls(rt, desk, 1, count),
        || calls(rt, desk, 2, count),
    );
    match (one, two, reads(rt, desk)) {
        (Some((one, true)), Some((two, true)), Some((three, true))) => {
            let want = [(1, count), (2, count), (3, 2)];
            if are_gathered(rt, alloc, desk, [one, two, three], &want) {
                Played::AllSo
            } else {
                Played::Wrong(1)
            }
        }
        _ => Played::Wrong(0),
    }
}

#[test]
fn two_clients_ask_at_once(rt: HostRuntime) -> Result<(), Fail> {
    assert_eq!(rt;
        tried(
            &rt,
            rt.alloc(),
            Watch::Primaries,
            &TABLE,
            Trial::TwoThreads(1000)
        ),
        Played::AllSo
    );
    Ok(())
}
