//! Who races: what each worker has before its thread starts, and what it does there.
ghost use Rattle.std.specs.Prelude.{◌≡◌, ◌+◌, ◌++◌, true, [], IfOk, IfSome, OnOk};
ghost use Rattle.mt_race.specs.Agreements.{AreAdvancing, AreAsked, AreControls, all_reads, is_finished, reads_of, row_key, written, writes_of};

use crate::RaceFault;
use crate::moving::{name, workflow};
use crossbeam_channel::Sender;
use mt_desk::{Desk, DeskFault, DeskName, Pass};
use mt_event::Driven;
use mt_model::Op;
use mt_names::{TypeSet, Value};
use mt_routes::Router;
use mt_watch::Asks;
use mt_workers::{ControlFault, Gate, Line, Message, controller, query_worker, stream_worker};
use mt_workflow::Slot;
use std::alloc::Global;
use std::sync::Wait;

/// How many keys there are for each client.
const KEYS: u64 = 1000;

/// How many rows or entries the stream worker's advances take at most, and how many advances it asks for.
const MOST_AT_ONCE: u16 = 100;

const TURNS: u64 = 200;

/// How many tries the controller has.
const TRIES: u64 = 256;

/// The key of a row of a client, both counted from 0.
fn row_key(worker: u16, row: u16) -> u64
    ensures { result ≡ row_key worker row }
{
    u64::from(worker) * KEYS + u64::from(row) + 1
}

/// The value that each row gets.
fn value() -> Value
    ensures { result ≡ written }
{
    let mut value = Value::new();
    value.push(b'a');
    value
}

/// An insert of each of a client's rows: `Memory`.
fn inserts(alloc: Global, worker: u16, writes: u16) -> Result<Vec<Line>, RaceFault>
    ensures { IfOk result (λ lines. lines.items ≡ writes_of writes worker) }
{
    let mut lines = Vec::new(alloc);
    for row in 0..writes {
        let op = Op::Insert(row_key(worker, row), value());
        if lines.push(Line::Put(name(), op)).is_err() {
            return Err(RaceFault::Memory);
        }
    }
    Ok(lines)
}

/// Adds a read of each of a client's rows: `Memory`.
fn add_gets(lines: &mut Vec<Line>, worker: u16, writes: u16) -> Result<(), RaceFault>
    ensures { OnOk result (lines.new.items ≡ lines.old.items ++ reads_of writes worker) }
{
    for row in 0..writes {
        let line = Line::Get(name(), row_key(worker, row));
        if lines.push(line).is_err() {
            return Err(RaceFault::Memory);
        }
    }
    Ok(())
}

/// A read of each client's rows: `Memory`.
pub(crate) fn gets(alloc: Global, clients: u16, writes: u16) -> Result<Vec<Line>, RaceFault>
    ensures { IfOk result (λ lines. lines.items ≡ all_reads clients writes) }
{
    let mut lines = Vec::new(alloc);
    for worker in 0..clients {
        add_gets(&mut lines, worker, writes)?;
    }
    Ok(lines)
}

/// A client before it asks.
#[derive(Drop)]
pub(crate) struct Client<D: DeskName> {
    /// Its number among the workers.
    pub worker: u16,
    /// What it looks names up with.
    pub router: Router<D>,
    /// What it asks with.
    pub pass: Pass<D>,
    ghost fresh: { pass.calls.items ≡ [] },
}

/// A pass that lists nothing.
#[derive(Drop)]
pub(crate) struct Fresh<D: DeskName> {
    /// The pass.
    pub pass: Pass<D>,
    ghost fresh: { pass.calls.items ≡ [] },
}

/// The pass of a client that asked for all of its rows.
#[derive(Drop)]
pub(crate) struct Wrote<D: DeskName> {
    worker: u16,
    writes: u16,
    pass: Pass<D>,
    ghost asked: { AreAsked (writes_of writes worker) pass.calls.items },
}

impl<D: DeskName> Wrote<D> {
    /// Whether it is of the worker of this number, who is the client of the next, and so many rows.
    fn is_of(&self, worker: usize, writes: u16) -> bool
        ensures worker { result ≡ true → self.now.worker ≡ worker }
        ensures writes { result ≡ true → self.now.writes ≡ writes }
        ensures client { result ≡ true → self.now.pass.client ≡ worker + 1 }
    {
        let own = usize::from(self.worker);
        own == worker && self.writes == writes && usize::from(self.pass.client()) == own + 1
    }

    /// The pass, if it is of the worker of this number, who is the client of the next, and so many rows.
    pub(crate) fn into_pass(self, worker: usize, writes: u16) -> Option<Pass<D>>
        ensures client { IfSome result (λ pass. pass.client ≡ worker + 1) }
        ensures asked { IfSome result (λ pass. AreAsked (writes_of writes worker) pass.calls.items) }
    {
        if self.is_of(worker, writes) {
            Some(self.pass)
        } else {
            None
        }
    }
}

/// What the stream worker leaves.
#[derive(Drop)]
pub(crate) struct Advanced<D: DeskName> {
    /// Its pass.
    pub pass: Pass<D>,
    ghost advancing: { AreAdvancing pass.calls.items },
}

/// What the controller leaves.
#[derive(Drop)]
pub(crate) struct Controlled<D: DeskName> {
    /// Its pass.
    pub pass: Pass<D>,
    /// Why the desk refused a call of it, if it did.
    pub fault: Option<DeskFault>,
    ghost controls: { AreControls pass.calls.items },
}

/// Asks for some lines as a client. Answers its pass, if it told the answers to all.
pub(crate) fn query<R: Wait, G: Gate, D: DeskName, W: Asks + Drop>(
    rt: &R,
    gate: &G,
    desk: &Desk<D, W>,
    sender: &Sender<Message>,
    client: Client<D>,
    lines: &[Line],
) -> Option<Pass<D>>
    ensures { IfSome result (λ pass. AreAsked lines.now pass.calls.items) }
{
    let Client {
        worker,
        router,
        pass,
    } = client;
    let (pass, told) = query_worker(rt, gate, desk, router, pass, worker, lines, sender);
    if told == lines.len() as u64 {
        Some(pass)
    } else {
        None
    }
}

/// Inserts a client's rows. Answers its pass, if it was told the answers to all.
pub(crate) fn insert<R: Wait, G: Gate, D: DeskName, W: Asks + Drop>(
    rt: &R,
    alloc: Global,
    gate: &G,
    desk: &Desk<D, W>,
    sender: &Sender<Message>,
    client: Client<D>,
    writes: u16,
) -> Option<Wrote<D>> {
    let worker = client.worker;
    let Ok(lines) = inserts(alloc, worker, writes) else {
        return None;
    };
    match query(rt, gate, desk, sender, client, lines.as_slice()) {
        Some(pass) => Some(Wrote {
            worker,
            writes,
            pass,
        }),
        None => None,
    }
}

/// Advances the forward stream.
pub(crate) fn feed<R: Wait, G: Gate, D: DeskName, W: Asks + Drop>(
    rt: &R,
    gate: &G,
    desk: &Desk<D, W>,
    worker: u16,
    fresh: Fresh<D>,
) -> Advanced<D> {
    let (pass, _taken) = stream_worker(
        rt,
        gate,
        desk,
        fresh.pass,
        worker,
        &workflow(),
        Slot::Forward,
        1,
        MOST_AT_ONCE,
        TURNS,
    );
    Advanced { pass }
}

/// The desk's fault, if that ended a controller.
fn fault_of(end: Result<Driven, ControlFault>) -> Option<DeskFault> {
    match end {
        Err(ControlFault::Desk(fault)) => Some(fault),
        _ => None,
    }
}

/// Whether a controller has done all that it was to do.
fn is_finished(end: &Result<Driven, ControlFault>) -> bool
    ensures { result ≡ is_finished end.now }
{
    matches!(end, Ok(Driven::Done))
}

/// Switches the traffic of all types, and reverses it where that is done.
pub(crate) fn control<R: Wait, G: Gate, D: DeskName, W: Asks + Drop>(
    rt: &R,
    gate: &G,
    desk: &Desk<D, W>,
    worker: u16,
    fresh: Fresh<D>,
) -> Controlled<D> {
    let workflow = workflow();
    let (pass, switched) = controller(
        rt,
        gate,
        desk,
        fresh.pass,
        worker,
        &workflow,
        TypeSet::ALL,
        false,
        TRIES,
    );
    if !is_finished(&switched) {
        return Controlled {
            pass,
            fault: fault_of(switched),
        };
    }
    let (pass, reversed) = controller(
        rt,
        gate,
        desk,
        pass,
        worker,
        &workflow,
        TypeSet::ALL,
        true,
        TRIES,
    );
    Controlled {
        pass,
        fault: fault_of(reversed),
    }
}
