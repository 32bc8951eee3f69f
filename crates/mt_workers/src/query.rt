//! The worker that queries by name.
ghost use Rattle.std.specs.Prelude.{◌≡◌, ◌≢◌, ◌++◌, List, Err, MatchBool};
ghost use mathlib.Core.List.{IsPrefix};
ghost use Rattle.mt_desk.specs.declared.history.Call.{Call};
ghost use Rattle.mt_workers.specs.Queries.{IsTried, Queries};

use crate::asking::ask;
use crate::{Gate, Line, Message};
use crossbeam_channel::Sender;
use mt_desk::{Answer, Desk, DeskName, Pass};
use mt_event::{Reason, Refusal};
use mt_routes::Router;
use mt_watch::Asks;
use std::sync::Wait;

/// How often a line is tried at most.
const MOST_TRIES: u8 = 64;

/// Whether an answer is `F3 Denied`.
fn is_denied(answer: &Answer) -> bool
    ensures { MatchBool result (answer.now ≡ Err (Refusal.Other Reason.Denied)) (answer.now ≢ Err (Refusal.Other Reason.Denied)) }
{
    matches!(answer, Err(Refusal::Other(Reason::Denied)))
}

/// Learns what the desk tells of its routes, before each try but the first. Answers whether the desk told it.
fn learn<R: Wait, D: DeskName, W: Asks + Drop>(
    rt: &R,
    desk: &Desk<D, W>,
    router: &mut Router<D>,
    tried: u8,
) -> bool
    ensures { IsPrefix router.old router.new }
{
    if tried == 0 {
        return true;
    }
    match desk.tell(rt) {
        Ok(told) => {
            router.learn(told);
            true
        }
        Err(_) => false,
    }
}

/// Tries a line, at most 64 times: what `query_worker` sends of it, or nothing, where the desk refused a call.
fn ask_line<R: Wait, G: Gate, D: DeskName, W: Asks + Drop>(
    rt: &R,
    gate: &G,
    desk: &Desk<D, W>,
    router: &mut Router<D>,
    pass: &mut Pass<D>,
    worker: u16,
    number: u64,
    line: &Line,
) -> Option<Answer>
    ensures client { pass.new.client ≡ pass.old.client }
    ensures grows { IsPrefix router.old router.new }
    ensures tried { (tries : List Call) × (pass.new.calls.items ≡ pass.old.calls.items ++ tries) × IsTried router.old line.now tries result }
{
    for tried in 0..MOST_TRIES {
        if !learn(rt, desk, router, tried) {
            return None;
        }
        let target = match router.route(line.key(), line.type_of()) {
            Ok((target, _front)) => target,
            Err((_why, _front)) => return Some(Err(Refusal::Other(Reason::NoTable))),
        };
        let event = line.event_at(target);
        let answer = match ask(rt, gate, desk, pass, worker, number, event) {
            Ok(answer) => answer,
            Err(_) => return None,
        };
        if !is_denied(&answer) {
            return Some(answer);
        }
    }
    Some(Err(Refusal::Other(Reason::Denied)))
}

/// Tries one line after the other, and sends what comes of each. Answers how many were sent.
fn ask_lines<R: Wait, G: Gate, D: DeskName, W: Asks + Drop>(
    rt: &R,
    gate: &G,
    desk: &Desk<D, W>,
    router: &mut Router<D>,
    pass: &mut Pass<D>,
    worker: u16,
    lines: &[Line],
    sender: &Sender<Message>,
) -> u64
    ensures client { pass.new.client ≡ pass.old.client }
    ensures queries { (calls : List Call) × (pass.new.calls.items ≡ pass.old.calls.items ++ calls) × Queries router.old lines.now calls result }
{
    let mut sent = 0;
    for line in lines {
        let reply = match ask_line(rt, gate, desk, router, pass, worker, sent, line) {
            Some(reply) => reply,
            None => return sent,
        };
        let message = Message {
            worker,
            line: sent,
            reply,
        };
        if sender.send(rt, message).is_err() {
            return sent;
        }
        sent += 1;
    }
    sent
}

/// Asks for some lines in their order, each at the table that its name leads to, which it looks up without waiting. Where the answer is
/// `F3 Denied`, the table has moved on: it has the desk tell of its routes, learns them, and tries again, at most 64 times a line. It sends the
/// last answer to each line, and `F2 NoTable` of a line whose name leads nowhere, or to no single table. It ends early only where the desk
/// refuses a call, or where the message can't be sent. It gives its pass back, and the number of the lines that were sent. (Vitess: a client
/// at a vtgate)
pub fn query_worker<R: Wait, G: Gate, D: DeskName, W: Asks + Drop>(
    rt: &R,
    gate: &G,
    desk: &Desk<D, W>,
    mut router: Router<D>,
    mut pass: Pass<D>,
    worker: u16,
    lines: &[Line],
    sender: &Sender<Message>,
) -> (Pass<D>, u64)
    ensures client { result.0.client ≡ pass.client }
    ensures queries { (calls : List Call) × (result.0.calls.items ≡ pass.calls.items ++ calls) × Queries router lines.now calls result.1 }
{
    let sent = ask_lines(
        rt,
        gate,
        desk,
        &mut router,
        &mut pass,
        worker,
        lines,
        sender,
    );
    (pass, sent)
}
