//! The workers of a race, each in a thread of its own.

use crate::RaceFault;
use crate::crew::{Advanced, Client, Controlled, Fresh, Wrote, control, feed, insert};
use crossbeam_channel::Sender;
use mt_desk::{Desk, DeskName};
use mt_watch::Asks;
use mt_workers::{Gate, Message};
use std::alloc::Global;
use std::sync::Wait;
use std::thread;
use std::thread::{JoinHandle, Scope, Threads};

/// A thread, if it was started.
type Started<T> = Option<JoinHandle<T>>;

/// A thread of a client that writes.
type Writing<D> = JoinHandle<Option<Wrote<D>>>;

/// Starts the thread of a client.
fn start_client<
    's,
    E,
    R: Wait + Sync,
    G: Gate + Sync,
    D: DeskName + Send + Sync,
    W: Asks + Drop + Send,
>(
    scope: &Scope<'s, E>,
    rt: &'s R,
    alloc: Global,
    gate: &'s G,
    desk: &'s Desk<D, W>,
    sender: &'s Sender<Message>,
    client: Client<D>,
    writes: u16,
) -> Option<Writing<D>> {
    scope
        .spawn(move || insert(rt, alloc, gate, desk, sender, client, writes))
        .ok()
}

/// Starts the thread of the stream worker.
fn start_feeder<
    's,
    E,
    R: Wait + Sync,
    G: Gate + Sync,
    D: DeskName + Send + Sync,
    W: Asks + Drop + Send,
>(
    scope: &Scope<'s, E>,
    rt: &'s R,
    gate: &'s G,
    desk: &'s Desk<D, W>,
    worker: u16,
    fresh: Fresh<D>,
) -> Started<Advanced<D>> {
    scope
        .spawn(move || feed(rt, gate, desk, worker, fresh))
        .ok()
}

/// Starts the thread of the controller.
fn start_controller<
    's,
    E,
    R: Wait + Sync,
    G: Gate + Sync,
    D: DeskName + Send + Sync,
    W: Asks + Drop + Send,
>(
    scope: &Scope<'s, E>,
    rt: &'s R,
    gate: &'s G,
    desk: &'s Desk<D, W>,
    worker: u16,
    fresh: Fresh<D>,
) -> Started<Controlled<D>> {
    scope
        .spawn(move || control(rt, gate, desk, worker, fresh))
        .ok()
}

/// Keeps a thread that was started, for which there is room. Answers whether it was.
fn keep<D: DeskName>(threads: &mut Vec<Writing<D>>, thread: Option<Writing<D>>) -> bool {
    match thread {
        Some(thread) => threads.push(thread).is_ok(),
        None => false,
    }
}

/// Starts the threads of all clients, and keeps them. Answers whether each was started.
fn start_clients<
    's,
    E,
    R: Wait + Sync,
    G: Gate + Sync,
    D: DeskName + Send + Sync,
    W: Asks + Drop + Send,
>(
    scope: &Scope<'s, E>,
    rt: &'s R,
    alloc: Global,
    gate: &'s G,
    desk: &'s Desk<D, W>,
    sender: &'s Sender<Message>,
    clients: Vec<Client<D>>,
    writes: u16,
    threads: &mut Vec<Writing<D>>,
) -> bool {
    let mut is_whole = true;
    for client in clients {
        let thread = start_client(scope, rt, alloc, gate, desk, sender, client, writes);
        is_whole = keep(threads, thread) && is_whole;
    }
    is_whole
}

/// Waits for each thread of a client, and keeps what it left, for which there is room. Answers whether each left something.
fn join_clients<R: Threads, D: DeskName + Send>(
    rt: &R,
    threads: Vec<Writing<D>>,
    all: &mut Vec<Wrote<D>>,
) -> bool {
    let mut is_whole = true;
    for thread in threads {
        is_whole = match thread.join(rt) {
            Some(wrote) => all.push(wrote).is_ok() && is_whole,
            None => false,
        };
    }
    is_whole
}

/// Waits for a thread, if it was started.
fn join<R: Threads, T: Send + Drop>(rt: &R, thread: Started<T>) -> Option<T> {
    match thread {
        Some(thread) => Some(thread.join(rt)),
        None => None,
    }
}

/// Who is to have a thread.
#[derive(Drop)]
pub(crate) struct Crew<D: DeskName> {
    /// The clients.
    pub clients: Vec<Client<D>>,
    /// How many writes each makes.
    pub writes: u16,
    /// The stream worker: its number, and its pass.
    pub feeder: (u16, Fresh<D>),
    /// The controller.
    pub switcher: (u16, Fresh<D>),
}

/// What the workers leave.
#[derive(Drop)]
pub(crate) struct Ended<D: DeskName> {
    /// Those of the clients that write.
    pub wrote: Vec<Wrote<D>>,
    /// The stream worker.
    pub advanced: Advanced<D>,
    /// The controller.
    pub controlled: Controlled<D>,
}

/// What the workers leave, if each thread was started, and each client told all of its answers.
fn all_ended<D: DeskName>(
    writing: bool,
    written: bool,
    wrote: Vec<Wrote<D>>,
    advanced: Option<Advanced<D>>,
    controlled: Option<Controlled<D>>,
) -> Result<Ended<D>, RaceFault> {
    match (advanced, controlled) {
        (Some(advanced), Some(controlled)) if writing && written => Ok(Ended {
            wrote,
            advanced,
            controlled,
        }),
        (Some(_), Some(_)) if writing => Err(RaceFault::Memory),
        _ => Err(RaceFault::Thread),
    }
}

/// See `run`.
fn run_in<
    's,
    E,
    R: Threads + Wait + Sync,
    G: Gate + Sync,
    D: DeskName + Send + Sync,
    W: Asks + Drop + Send,
>(
    scope: &Scope<'s, E>,
    rt: &'s R,
    alloc: Global,
    gate: &'s G,
    desk: &'s Desk<D, W>,
    sender: &'s Sender<Message>,
    crew: Crew<D>,
) -> Result<Ended<D>, RaceFault> {
    let Crew {
        clients,
        writes,
        feeder,
        switcher,
    } = crew;
    let mut threads = Vec::new(alloc);
    let mut wrote = Vec::new(alloc);
    let places = clients.len();
    if threads.reserve(places).is_err() || wrote.reserve(places).is_err() {
        return Err(RaceFault::Memory);
    }
    let writing = start_clients(
        scope,
        rt,
        alloc,
        gate,
        desk,
        sender,
        clients,
        writes,
        &mut threads,
    );
    let fed = start_feeder(scope, rt, gate, desk, feeder.0, feeder.1);
    let switched = start_controller(scope, rt, gate, desk, switcher.0, switcher.1);
    let written = join_clients(rt, threads, &mut wrote);
    let (advanced, controlled) = (join(rt, fed), join(rt, switched));
    all_ended(writing, written, wrote, advanced, controlled)
}

/// Starts a thread for each client, one for the stream and one for the controller, and answers what they leave once all have ended.
/// `Thread` where one couldn't be started, and `Memory`, also where a client ended before its last line; those that were started have ended
/// then too.
pub(crate) fn run<
    R: Threads + Wait + Sync,
    G: Gate + Sync,
    D: DeskName + Send + Sync,
    W: Asks + Drop + Send,
>(
    rt: &R,
    alloc: Global,
    gate: &G,
    desk: &Desk<D, W>,
    sender: &Sender<Message>,
    crew: Crew<D>,
) -> Result<Ended<D>, RaceFault> {
    thread::scope(thread::scope_env(), rt, move |scope| {
        run_in(scope, rt, alloc, gate, desk, sender, crew)
    })
}
