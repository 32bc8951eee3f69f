//! The race.
ghost use Rattle.std.specs.Prelude.{◌≡◌, ◌+◌, ◌≤◌, ◌++◌, true, [], ◌∷◌, IfOk, length, map};
ghost use Rattle.mt_desk.specs.Passes.{HaveOneHistory};
ghost use Rattle.mt_site.specs.Stood.{IsCoreWith};
ghost use Rattle.mt_race.specs.Agreements.{AreAdvancing, AreAsked, AreControls, AreWriters, RacedAt, RacedFrom, acknowledged_in, all_reads, rows_found};

use crate::RaceFault;
use crate::counting::{acknowledged_in, rows_found};
use crate::crew::{Client, Fresh, Wrote, gets, query};
use crate::hearing::are_told;
use crate::moving::set_up;
use crate::threads::{Crew, Ended, run};
use crossbeam_channel::unbounded;
use mt_desk::{Desk, DeskFault, DeskName, Pass};
use mt_routes::Opened;
use mt_site::Site;
use mt_watch::Asks;
use mt_workers::{Gate, NoGate};
use std::alloc::Global;
use std::marker::Brand;
use std::sync::Wait;
use std::sync::ledger::Blank;
use std::thread::Threads;

/// What came of a race.
#[derive(Clone, Copy, Debug, Eq, PartialEq)]
pub struct Raced {
    /// How many writes were acknowledged.
    pub acknowledged: u64,
    /// How many of the keys that were to be written have a row at the end.
    pub rows: u64,
    /// Whether these are as many, the history of the desk is just what all passes list, and each answer to a client was told once.
    pub agree: bool,
}

/// A worker that is a client, with its pass and its router.
fn client_of<R: Wait, D: DeskName, W: Asks + Drop>(
    rt: &R,
    desk: &Desk<D, W>,
    worker: u16,
) -> Result<Client<D>, RaceFault> {
    let pass = pass_of(rt, desk, worker)?;
    match desk.router(rt) {
        Ok(router) => Ok(Client {
            worker,
            router,
            pass,
        }),
        Err(fault) => Err(RaceFault::Desk(fault)),
    }
}

/// The pass of a worker: it is the client of the next number.
fn pass_of<R: Wait, D: DeskName, W: Asks + Drop>(
    rt: &R,
    desk: &Desk<D, W>,
    worker: u16,
) -> Result<Pass<D>, RaceFault>
    ensures { IfOk result (λ pass. pass.calls.items ≡ []) }
{
    match desk.pass(rt, worker.saturating_add(1)) {
        Ok(pass) => Ok(pass),
        Err(fault) => Err(RaceFault::Desk(fault)),
    }
}

/// The clients: `Memory`, and `Desk`.
fn clients_of<R: Wait, D: DeskName, W: Asks + Drop>(
    rt: &R,
    alloc: Global,
    desk: &Desk<D, W>,
    clients: u16,
) -> Result<Vec<Client<D>>, RaceFault> {
    let mut all = Vec::new(alloc);
    for worker in 0..clients {
        let client = client_of(rt, desk, worker)?;
        if all.push(client).is_err() {
            return Err(RaceFault::Memory);
        }
    }
    Ok(all)
}

/// The pass of a worker, beside its number.
fn fresh_of<R: Wait, D: DeskName, W: Asks + Drop>(
    rt: &R,
    desk: &Desk<D, W>,
    worker: u16,
) -> Result<(u16, Fresh<D>), RaceFault> {
    let pass = pass_of(rt, desk, worker)?;
    Ok((worker, Fresh { pass }))
}

/// Has all workers ask at once. Answers what they leave, and whether each client told of each of its lines once.
fn write_all<
    R: Threads + Wait + Sync,
    G: Gate + Sync,
    D: DeskName + Send + Sync,
    W: Asks + Drop + Send,
>(
    rt: &R,
    alloc: Global,
    gate: &G,
    desk: &Desk<D, W>,
    clients: u16,
    writes: u16,
) -> Result<(Ended<D>, bool), RaceFault> {
    let Ok((sender, receiver)) = unbounded(alloc) else {
        return Err(RaceFault::Memory);
    };
    let crew = Crew {
        clients: clients_of(rt, alloc, desk, clients)?,
        writes,
        feeder: fresh_of(rt, desk, clients)?,
        switcher: fresh_of(rt, desk, clients.saturating_add(1))?,
    };
    let ended = run(rt, alloc, gate, desk, &sender, crew)?;
    drop(sender);
    let told = are_told(rt, alloc, &receiver, clients, writes)?;
    Ok((ended, told))
}

/// Reads each row as one more client: `Memory`, also where it ended before its last line, and `Desk`.
fn read_all<R: Wait, D: DeskName, W: Asks + Drop>(
    rt: &R,
    alloc: Global,
    desk: &Desk<D, W>,
    clients: u16,
    writes: u16,
) -> Result<Pass<D>, RaceFault>
    ensures { IfOk result (λ reader. AreAsked (all_reads clients writes) reader.calls.items) }
{
    let Ok((sender, receiver)) = unbounded(alloc) else {
        return Err(RaceFault::Memory);
    };
    let lines = gets(alloc, clients, writes)?;
    let reader = client_of(rt, desk, clients.saturating_add(2))?;
    let read = query(rt, &NoGate, desk, &sender, reader, lines.as_slice());
    drop(receiver);
    match read {
        Some(pass) => Ok(pass),
        None => Err(RaceFault::Memory),
    }
}

/// The passes of all workers of a race.
#[derive(Drop)]
struct Passes<D: DeskName> {
    /// Those of the clients that write.
    writers: Vec<Pass<D>>,
    /// That of the stream worker.
    stream: Pass<D>,
    /// That of the controller.
    controller: Pass<D>,
    /// That of the client that reads.
    reader: Pass<D>,
}

/// The passes of clients that wrote so many rows each: `K7 PassMissing` where one isn't in its place, and `Memory`. A thread says nothing of
/// which worker it was, so that is looked at here.
fn writers_of<D: DeskName>(
    alloc: Global,
    wrote: Vec<Wrote<D>>,
    writes: u16,
) -> Result<Vec<Pass<D>>, RaceFault>
    ensures { IfOk result (λ writers. AreWriters writes 0 (map (λ pass. (pass.client, pass.calls.items)) writers.items)) }
{
    let mut writers = Vec::new(alloc);
    for one in wrote {
        let Some(pass) = one.into_pass(writers.len(), writes) else {
            return Err(RaceFault::Desk(DeskFault::PassMissing));
        };
        if writers.push(pass).is_err() {
            return Err(RaceFault::Memory);
        }
    }
    Ok(writers)
}

/// The passes of all workers: `Desk` where the desk refused a call of the controller, else as `writers_of`.
fn passes_of<D: DeskName>(
    alloc: Global,
    ended: Ended<D>,
    reader: Pass<D>,
    writes: u16,
) -> Result<Passes<D>, RaceFault>
    ensures writers { IfOk result (λ passes. AreWriters writes 0 (map (λ pass. (pass.client, pass.calls.items)) passes.writers.items)) }
    ensures stream { IfOk result (λ passes. AreAdvancing passes.stream.calls.items) }
    ensures controller { IfOk result (λ passes. AreControls passes.controller.calls.items) }
    ensures reader { IfOk result (λ passes. passes.reader ≡ reader) }
{
    let Ended {
        wrote,
        advanced,
        controlled,
    } = ended;
    if let Some(fault) = controlled.fault {
        return Err(RaceFault::Desk(fault));
    }
    let writers = writers_of(alloc, wrote, writes)?;
    Ok(Passes {
        writers,
        stream: advanced.pass,
        controller: controlled.pass,
        reader,
    })
}

/// Whether there are so many clients that write, and the next three are the stream worker, the controller and the client that reads. A thread
/// says nothing of whose pass it leaves, so that is looked at here.
fn are_in_place<D: DeskName>(passes: &Passes<D>, clients: u16) -> bool
    ensures writers { result ≡ true → length passes.now.writers.items ≡ clients }
    ensures stream { result ≡ true → passes.now.stream.client ≡ clients + 1 }
    ensures controller { result ≡ true → passes.now.controller.client ≡ clients + 2 }
    ensures reader { result ≡ true → passes.now.reader.client ≡ clients + 3 }
{
    let clients = usize::from(clients);
    passes.writers.len() == clients
        && usize::from(passes.stream.client()) == clients + 1
        && usize::from(passes.controller.client()) == clients + 2
        && usize::from(passes.reader.client()) == clients + 3
}

/// Hands in all passes. Answers whether the history is just what they list, and `Memory`.
fn gather<R: Wait, D: DeskName, W: Asks + Drop>(
    rt: &R,
    desk: &Desk<D, W>,
    passes: Passes<D>,
) -> Result<bool, RaceFault>
    ensures { IfOk result (λ is. is ≡ true → HaveOneHistory D.scopes D.opening (map (λ pass. (pass.client, pass.calls.items)) (passes.writers.items ++ passes.stream ∷ passes.controller ∷ passes.reader ∷ []))) }
{
    let Passes {
        writers: mut all,
        stream,
        controller,
        reader,
    } = passes;
    if all.reserve(3).is_err() {
        return Err(RaceFault::Memory);
    }
    all.push_reserved(stream);
    all.push_reserved(controller);
    all.push_reserved(reader);
    Ok(desk.gather(rt, all).is_ok())
}

/// What came of a race with these passes, in which each answer was told once or not: `Memory`, also where the writes are too many to be counted.
fn raced_with<R: Wait, D: DeskName, W: Asks + Drop>(
    rt: &R,
    desk: &Desk<D, W>,
    passes: Passes<D>,
    told: bool,
) -> Result<Raced, RaceFault>
    ensures agree { IfOk result (λ raced. raced.agree ≡ true → raced.acknowledged ≡ raced.rows) }
    ensures acknowledged { IfOk result (λ raced. raced.acknowledged ≡ acknowledged_in (map (λ pass. (pass.client, pass.calls.items)) passes.writers.items)) }
    ensures rows { IfOk result (λ raced. raced.rows ≡ rows_found passes.reader.calls.items) }
    ensures one { IfOk result (λ raced. raced.agree ≡ true → HaveOneHistory D.scopes D.opening (map (λ pass. (pass.client, pass.calls.items)) (passes.writers.items ++ passes.stream ∷ passes.controller ∷ passes.reader ∷ []))) }
{
    let Some(acknowledged) = acknowledged_in(passes.writers.as_slice()) else {
        return Err(RaceFault::Memory);
    };
    let rows = rows_found(passes.reader.calls());
    let is_gathered = gather(rt, desk, passes)?;
    Ok(Raced {
        acknowledged,
        rows,
        agree: is_gathered && told && acknowledged == rows,
    })
}

/// A race at a desk that is open.
fn race_at<
    R: Threads + Wait + Sync,
    G: Gate + Sync,
    D: DeskName + Send + Sync,
    W: Asks + Drop + Send,
>(
    rt: &R,
    alloc: Global,
    gate: &G,
    desk: &Desk<D, W>,
    clients: u16,
    writes: u16,
) -> Result<Raced, RaceFault>
    ensures agree { IfOk result (λ raced. raced.agree ≡ true → raced.acknowledged ≡ raced.rows) }
    ensures raced { IfOk result (λ raced. raced.agree ≡ true → RacedFrom D.scopes D.opening clients writes raced) }
{
    let (ended, told) = write_all(rt, alloc, gate, desk, clients, writes)?;
    let reader = read_all(rt, alloc, desk, clients, writes)?;
    let passes = passes_of(alloc, ended, reader, writes)?;
    if are_in_place(&passes, clients) {
        raced_with(rt, desk, passes, told)
    } else {
        Err(RaceFault::Desk(DeskFault::PassMissing))
    }
}

/// A race at a desk that is opened for it.
fn race_named<
    R: Threads + Wait + Sync,
    G: Gate + Sync,
    D: DeskName + Send + Sync,
    W: Asks + Drop + Send,
>(
    rt: &R,
    alloc: Global,
    gate: &G,
    blank: Blank,
    opened: Opened,
    site: Site<W>,
    clients: u16,
    writes: u16,
) -> Result<Raced, RaceFault>
    requires name { (blank.name ≡ D.name) × (blank.parts ≡ D.parts) }
    requires list { (opened.seen.book ≡ D.book) × (opened.blank.name ≡ D.shown) }
    requires opening { site.core ≡ D.opening }
    requires scopes { W.scopes site.watchers ≡ D.scopes }
    requires stood { IsCoreWith D.scopes site.core }
    ensures agree { IfOk result (λ raced. raced.agree ≡ true → raced.acknowledged ≡ raced.rows) }
    ensures raced { IfOk result (λ raced. raced.agree ≡ true → RacedFrom D.scopes D.opening clients writes raced) }
{
    let opened: Result<Desk<D, W>, DeskFault> = Desk::open(alloc, rt, blank, opened, site);
    let desk = match opened {
        Ok(desk) => desk,
        Err(fault) => return Err(RaceFault::Desk(fault)),
    };
    let raced = race_at(rt, alloc, gate, &desk, clients, writes);
    desk.close(rt);
    raced
}

/// Has clients write while a worker advances the stream of a move and a controller switches its traffic and reverses it, each in a thread
/// of its own at one desk; then one more client reads all rows. Before that both keyspaces, the table without a row, the workflow and
/// its copy are made. Client `i`, from 1, is worker `i - 1`, and inserts by the table's name the keys `(i - 1) * 1000 + j` for `j` from 1
/// to `writes`; the stream worker and the controller are the next two, and each asks through the gate. The stream worker asks for 200
/// advances of at most 100 rows or entries; the controller has 256 tries for the switch of all types, and, if that is done, 256 more for
/// its reversal. A `RaceFault` says why there is no result; all threads have ended then.
pub fn race<R: Threads + Wait + Sync, G: Gate + Sync, W: Asks + Drop + Send>(
    rt: &R,
    alloc: Global,
    gate: &G,
    clients: u16,
    writes: u16,
    watchers: W,
) -> Result<Raced, RaceFault>
    requires clients { (1 ≤ clients) × (clients ≤ 4) }
    requires writes { (1 ≤ writes) × (writes ≤ 1000) }
    ensures agree { IfOk result (λ raced. raced.agree ≡ true → raced.acknowledged ≡ raced.rows) }
    ensures raced { IfOk result (λ raced. raced.agree ≡ true → RacedAt (W.scopes watchers) clients writes raced) }
{
    let mut site = Site::open(alloc, watchers);
    set_up(alloc, &mut site)?;
    race_named::<R, G, Brand, W>(
        rt,
        alloc,
        gate,
        Blank::new(1),
        Opened::new(),
        site,
        clients,
        writes,
    )
}
