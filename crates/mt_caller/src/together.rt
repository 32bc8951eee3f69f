//! A table that moves while clients ask for it: a desk, its workers, and a router.
ghost use Rattle.std.specs.Prelude.{◌≡◌, [], ◌∷◌, true, IfSome, map};
ghost use Rattle.mt_desk.specs.Passes.{HaveOneHistory};
ghost use Rattle.mt_site.specs.Stood.{IsCoreWith};
ghost use Rattle.mt_caller.specs.Moves.{AreOne, IsOfClient, IsOfController, IsOfFeeder, inserts};

use crate::names::{SHARDS, by_name, create_and_copy, insert, product, second, target};
use mt_desk::{Desk, DeskFault, DeskName, Opened, Pass};
use mt_site::{Asks, Driven, Site, Slot, TabletType, TypeSet};
use mt_workers::{
    Line, Message, NoGate, Sender, controller, query_worker, stream_worker, unbounded,
};
use std::alloc::Global;
use std::marker::{Brand, PhantomData};
use std::sync::Wait;
use std::sync::ledger::Blank;
use std::thread::{Threads, join};

/// How many rows the client inserts, and how far their keys are apart: half of them are in either shard of the target.
const ROWS: u64 = 32;

const BETWEEN: u64 = 1 << 59;

/// The pass of the client that inserts: it asked for all rows, and was answered each.
#[derive(Drop)]
struct Wrote<D: DeskName> {
    pass: Pass<D>,
    ghost client: { pass.client ≡ 2 },
    ghost asked: { IsOfClient pass.calls.items },
}

/// The pass of the worker that advances the streams of both shards.
#[derive(Drop)]
struct Fed<D: DeskName> {
    pass: Pass<D>,
    ghost client: { pass.client ≡ 3 },
    ghost advanced: { IsOfFeeder pass.calls.items },
}

/// The pass of the controller that has switched the traffic of all types.
#[derive(Drop)]
struct Switched<D: DeskName> {
    pass: Pass<D>,
    ghost client: { pass.client ≡ 4 },
    ghost controlled: { IsOfController pass.calls.items },
}

/// Makes the workflow, and copies the table. Answers the pass of who asked for it, if all was taken.
fn create<R: Wait, D: DeskName, W: Asks + Drop>(rt: &R, desk: &Desk<D, W>) -> Option<Pass<D>>
    ensures { IfSome result (λ pass. pass.client ≡ 1) }
{
    let mut pass = desk.pass(rt, 1).ok()?;
    for event in create_and_copy(&second(), product()) {
        if !matches!(desk.ask(rt, &mut pass, event), Ok(Ok(_))) {
            return None;
        }
    }
    Some(pass)
}

/// The inserts of all rows, by the table's name: half of them in either shard of the target.
fn inserts(alloc: Global) -> Option<Vec<Line>>
    ensures { IfSome result (λ lines. lines.items ≡ inserts 32) }
{
    let mut lines = Vec::new(alloc);
    for row in 0..ROWS {
        let line = Line::Put(by_name(product()), insert(row * BETWEEN));
        lines.push(line).ok()?;
    }
    Some(lines)
}

/// Inserts all rows. Answers the client's pass, if each was answered.
fn write<R: Wait, D: DeskName, W: Asks + Drop>(
    rt: &R,
    alloc: Global,
    desk: &Desk<D, W>,
    sender: &Sender<Message>,
) -> Option<Wrote<D>> {
    let lines = inserts(alloc)?;
    let Ok(router) = desk.router(rt) else {
        return None;
    };
    let Ok(pass) = desk.pass(rt, 2) else {
        return None;
    };
    match query_worker(rt, &NoGate, desk, router, pass, 0, &lines, sender) {
        (pass, ROWS) => Some(Wrote { pass }),
        _ => None,
    }
}

/// Advances the streams of both shards. Answers the worker's pass.
fn feed<R: Wait, D: DeskName, W: Asks + Drop>(rt: &R, desk: &Desk<D, W>) -> Option<Fed<D>> {
    let pass = desk.pass(rt, 3).ok()?;
    let (pass, _taken) = stream_worker(
        rt,
        &NoGate,
        desk,
        pass,
        1,
        &second(),
        Slot::Forward,
        SHARDS,
        100,
        200,
    );
    Some(Fed { pass })
}

/// Switches the traffic of all types. Answers the controller's pass, if that is done.
fn switch<R: Wait, D: DeskName, W: Asks + Drop>(rt: &R, desk: &Desk<D, W>) -> Option<Switched<D>> {
    let pass = desk.pass(rt, 4).ok()?;
    match controller(
        rt,
        &NoGate,
        desk,
        pass,
        2,
        &second(),
        TypeSet::ALL,
        false,
        256,
    ) {
        (pass, Ok(Driven::Done)) => Some(Switched { pass }),
        _ => None,
    }
}

/// Hands in four passes, and says whether they are gathered: then there is one legal history with just their calls.
fn are_gathered<R: Wait, D: DeskName, W: Asks + Drop>(
    rt: &R,
    alloc: Global,
    desk: &Desk<D, W>,
    passes: [Pass<D>; 4],
) -> bool
    ensures { result ≡ true → HaveOneHistory D.scopes D.opening (map (λ pass. (pass.client, pass.calls.items)) passes) }
{
    match Vec::from_array(alloc, passes) {
        Ok(passes) => desk.gather(rt, passes).is_ok(),
        Err(_) => false,
    }
}

/// Whether the table's name leads to the target, as a router says that was told what stands now.
fn leads_on<R: Wait, D: DeskName, W: Asks + Drop>(rt: &R, desk: &Desk<D, W>) -> bool {
    let (Ok(mut router), Ok(told)) = (desk.router(rt), desk.tell(rt)) else {
        return false;
    };
    router.learn(told);
    match router.route(&by_name(product()), TabletType::Primary) {
        Ok((found, _front)) => found.keyspace == target(),
        Err(_) => false,
    }
}

/// That one legal history has just the calls of all four who took part in a move at a desk, as they are said to be.
#[derive(Drop)]
struct Moved<D: DeskName> {
    /// Where the table's name leads behind it: to the target, or still elsewhere.
    leads_on: bool,
    name: PhantomData<D>,
    ghost one: { AreOne (HaveOneHistory D.scopes D.opening) },
}

/// Hands in the passes of a move, and looks the table up behind it. Answers that they are gathered, if they are.
fn gather<R: Wait, D: DeskName, W: Asks + Drop>(
    rt: &R,
    alloc: Global,
    desk: &Desk<D, W>,
    passes: (Pass<D>, Wrote<D>, Fed<D>, Switched<D>),
) -> Option<Moved<D>>
    requires { passes.0.client ≡ 1 }
{
    let (created, wrote, fed, switched) = passes;
    let passes = [created, wrote.pass, fed.pass, switched.pass];
    if !are_gathered(rt, alloc, desk, passes) {
        return None;
    }
    Some(Moved {
        leads_on: leads_on(rt, desk),
        name: PhantomData,
    })
}

/// Moves the second table, while a client writes to it. Answers that all four who took part have one legal history, if so it is.
fn move_at<R: Threads + Wait + Sync, D: DeskName + Send + Sync, W: Asks + Drop + Send>(
    rt: &R,
    alloc: Global,
    desk: &Desk<D, W>,
) -> Option<Moved<D>> {
    let created = create(rt, desk)?;
    let (sender, _receiver) = unbounded(alloc).ok()?;
    let sender = &sender;
    let (wrote, (fed, switched)) = join(
        rt,
        move || write(rt, alloc, desk, sender),
        move || join(rt, move || feed(rt, desk), move || switch(rt, desk)),
    );
    gather(rt, alloc, desk, (created, wrote?, fed?, switched?))
}

/// The same at a desk that is opened for it, under the name of a blank.
fn move_named<R: Threads + Wait + Sync, D: DeskName + Send + Sync, W: Asks + Drop + Send>(
    rt: &R,
    alloc: Global,
    blank: Blank,
    opened: Opened,
    site: Site<W>,
) -> bool
    requires name { (blank.name ≡ D.name) × (blank.parts ≡ D.parts) }
    requires list { (opened.seen.book ≡ D.book) × (opened.blank.name ≡ D.shown) }
    requires opening { site.core ≡ D.opening }
    requires scopes { W.scopes site.watchers ≡ D.scopes }
    requires stood { IsCoreWith D.scopes site.core }
    ensures { result ≡ true → AreOne (HaveOneHistory D.scopes D.opening) }
{
    let made: Result<Desk<D, W>, DeskFault> = Desk::open(alloc, rt, blank, opened, site);
    let Ok(desk) = made else {
        return false;
    };
    let moved = move_at(rt, alloc, &desk);
    desk.close(rt);
    match moved {
        Some(moved) => moved.leads_on,
        None => false,
    }
}

/// Moves the second table at a desk, while a client writes to it. Answers whether it is moved: then one legal history has just the calls of all who
/// took part, of the controller among them, whose switch is done.
pub(crate) fn move_together<R: Threads + Wait + Sync, W: Asks + Drop + Send>(
    rt: &R,
    alloc: Global,
    site: Site<W>,
) -> bool
    requires { IsCoreWith (W.scopes site.watchers) site.core }
    ensures { result ≡ true → AreOne (HaveOneHistory (W.scopes site.watchers) site.core) }
{
    let (blank, opened) = (Blank::new(1), Opened::new());
    move_named::<R, Brand, W>(rt, alloc, blank, opened, site)
}
