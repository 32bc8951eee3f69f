//! A desk that is asked one line after the other, by two clients in turn; names are looked up by a router that is
//! told each time, and a whole switch, once it is begun, is a controller's. In the end the passes are gathered.
ghost use Rattle.std.specs.Prelude.{◌≡◌};
ghost use Rattle.mt_site.specs.Stood.{IsCoreWith};

use crate::asked::{Asked, advance_at, row_there, type_of};
use crate::playing::{Memory, Play, Wrong, first_wrong};
use crate::told::Told;
use crate::venue::Venue;
use mt_desk::{Desk, DeskFault, DeskName, Opened, Pass, Router};
use mt_event::{Event, Reason, Refusal, Reply};
use mt_names::{KeyRange, RuleKey, TypeSet, WorkflowName};
use mt_script::{AdvanceWords, RowAsked};
use mt_site::Site;
use mt_watch::Asks;
use mt_workers::{ControlFault, NoGate, controller};
use std::alloc::Global;
use std::marker::Brand;
use std::sync::Wait;
use std::sync::ledger::Blank;

/// How many tries a controller has.
const TRIES: u64 = 64;

/// How a play went at a desk.
#[derive(Drop)]
pub enum Gone<'a> {
    /// As it must.
    AllSo,
    /// There was no memory for a desk.
    NotMade,
    /// Something went otherwise.
    Wrong(Wrong<'a>),
    /// The calls weren't gathered.
    Ungathered,
}

/// A desk that is asked.
#[derive(Drop)]
struct AtDesk<'a, D: DeskName, W: Asks + Drop> {
    desk: &'a Desk<D, W>,
    passes: &'a mut Vec<Pass<D>>,
    router: &'a mut Router<D>,
}

/// What an event is told, of which the client asks whose turn it is.
fn told_of<D: DeskName, W: Asks + Drop, R: Wait>(
    rt: &R,
    at: &mut AtDesk<'_, D, W>,
    event: Event,
) -> Told {
    at.passes.reverse();
    let Some(pass) = at.passes.last_mut() else {
        return Told::unasked();
    };
    let is_owed = matches!(event, Event::Undo { .. } | Event::Cancel { .. })
        && (pass.reserve(1).is_ok() || pass.reserve(1).is_ok());
    match at.desk.ask(rt, pass, event) {
        Ok(answer) => Told::of_answer(&answer),
        Err(_) if is_owed => Told::out_though_owed(),
        Err(_) => Told::out_of_memory(),
    }
}

/// Whether the router is told, at once or at a second try.
fn is_taught<D: DeskName, W: Asks + Drop, R: Wait>(rt: &R, at: &mut AtDesk<'_, D, W>) -> bool {
    let told = match at.desk.tell(rt) {
        Ok(told) => told,
        Err(_) => match at.desk.tell(rt) {
            Ok(told) => told,
            Err(_) => return false,
        },
    };
    at.router.learn(told);
    true
}

/// What is told of a row where a name leads.
fn row<D: DeskName, W: Asks + Drop, R: Wait>(
    rt: &R,
    at: &mut AtDesk<'_, D, W>,
    key: &RuleKey,
    asked: &RowAsked<'_>,
) -> Told {
    if !is_taught(rt, at) {
        return Told::out_of_memory();
    }
    match at.router.route(key, type_of(key)) {
        Ok((target, _front)) => told_of(rt, at, row_there(target, key, asked)),
        Err((fault, _front)) => Told::of_look_up(fault),
    }
}

/// What is told of where a name leads.
fn led<D: DeskName, W: Asks + Drop, R: Wait>(
    rt: &R,
    at: &mut AtDesk<'_, D, W>,
    key: &RuleKey,
) -> Told {
    if !is_taught(rt, at) {
        return Told::out_of_memory();
    }
    match at.router.route(key, type_of(key)) {
        Ok((target, _front)) => Told::of_text(target.text().as_str().as_bytes()),
        Err((fault, _front)) => Told::of_look_up(fault),
    }
}

/// The place of the shard of a range, as Show tells it, or what is told in its stead.
fn place_of<D: DeskName, W: Asks + Drop, R: Wait>(
    rt: &R,
    at: &mut AtDesk<'_, D, W>,
    workflow: &WorkflowName,
    range: &KeyRange,
) -> Result<u8, Told> {
    at.passes.reverse();
    let Some(pass) = at.passes.last_mut() else {
        return Err(Told::unasked());
    };
    let show = Event::Show {
        workflow: workflow.copied(),
    };
    let shown = match at.desk.ask(rt, pass, show) {
        Ok(Ok(Reply::Shown(shown))) => shown,
        Ok(answer) => return Err(Told::of_answer(&answer)),
        Err(_) => return Err(Told::out_of_memory()),
    };
    let mut place = 0u8;
    for lane in shown.lanes.iter() {
        if lane.range == *range {
            return Ok(place);
        }
        place = place.saturating_add(1);
    }
    Err(Told::of_answer(&Err(Refusal::Other(Reason::NoShard))))
}

/// What is told of an advance in the shard of a range.
fn advance<D: DeskName, W: Asks + Drop, R: Wait>(
    rt: &R,
    at: &mut AtDesk<'_, D, W>,
    workflow: &WorkflowName,
    range: &KeyRange,
    words: &AdvanceWords<'_>,
) -> Told {
    match place_of(rt, at, workflow, range) {
        Ok(shard) => told_of(rt, at, advance_at(workflow, words, shard)),
        Err(told) => told,
    }
}

/// The event that begins a switch, or a reversal.
fn begin_of(workflow: &WorkflowName, types: TypeSet, back: bool) -> Event {
    let workflow = workflow.copied();
    if back {
        Event::BeginReverse { workflow, types }
    } else {
        Event::BeginSwitch { workflow, types }
    }
}

/// What is told of a whole switch, or of a whole reversal: a controller goes on with what was begun.
fn driven<D: DeskName, W: Asks + Drop, R: Wait>(
    rt: &R,
    at: &mut AtDesk<'_, D, W>,
    workflow: &WorkflowName,
    types: TypeSet,
    back: bool,
) -> Told {
    let begun = told_of(rt, at, begin_of(workflow, types, back));
    if !begun.is("ok") {
        return begun;
    }
    let Some(pass) = at.passes.pop() else {
        return Told::unasked();
    };
    let (pass, end) = controller(rt, &NoGate, at.desk, pass, 0, workflow, types, back, TRIES);
    if at.passes.push(pass).is_err() {
        return Told::out_of_memory();
    }
    match end {
        Ok(driven) => Told::of_drive(&Ok(driven)),
        Err(ControlFault::Refused(refusal)) => Told::of_drive(&Err(refusal)),
        Err(ControlFault::Desk(_)) => Told::out_of_memory(),
    }
}

impl<D: DeskName, W: Asks + Drop> Venue for AtDesk<'_, D, W> {
    fn tell<R: Wait>(&mut self, rt: &R, asked: &Asked<'_>) -> Told {
        match asked {
            Asked::Event(event) => told_of(rt, self, event.copied()),
            Asked::Row(key, asked) => row(rt, self, key, asked),
            Asked::Advance(workflow, range, words) => advance(rt, self, workflow, range, words),
            Asked::Drive(workflow, types, back) => driven(rt, self, workflow, *types, *back),
            Asked::Leads(key) => led(rt, self, key),
            _ => Told::unasked(),
        }
    }
}

/// Adds the pass of a client, at once or at a second try, with room for so many calls.
fn is_added<D: DeskName, W: Asks + Drop, R: Wait>(
    rt: &R,
    desk: &Desk<D, W>,
    passes: &mut Vec<Pass<D>>,
    client: u16,
    calls: usize,
) -> bool {
    let mut made = match desk.pass(rt, client) {
        Ok(pass) => pass,
        Err(_) => match desk.pass(rt, client) {
            Ok(pass) => pass,
            Err(_) => return false,
        },
    };
    made.reserve(calls).is_ok() && passes.push(made).is_ok()
}

/// How many calls each pass is to have room for from its beginning: where all allocations may fail, all of them.
fn room_of(play: &Play<'_>) -> usize {
    match play.memory {
        Memory::AllFail => play.steps.len(),
        Memory::Ample | Memory::OneFails => 0,
    }
}

/// Whether all passes are gathered, at once or at a second try, with the numbers of their calls.
fn are_gathered<D: DeskName, W: Asks + Drop, R: Wait>(
    rt: &R,
    desk: &Desk<D, W>,
    mut passes: Vec<Pass<D>>,
) -> bool {
    let (one, two) = match passes.as_slice() {
        [one, two] => (
            (one.client(), one.calls().len() as u64),
            (two.client(), two.calls().len() as u64),
        ),
        _ => return false,
    };
    let want = if one.0 < two.0 {
        [one, two]
    } else {
        [two, one]
    };
    for _ in 0..2 {
        match desk.gather(rt, passes) {
            Ok(account) => return account.calls.as_slice() == want.as_slice(),
            Err((_, back)) => passes = back,
        }
    }
    drop(passes);
    false
}

/// How a play goes by these passes and a new router.
fn played_by<'a, D: DeskName, W: Asks + Drop, R: Wait>(
    rt: &R,
    alloc: Global,
    desk: &Desk<D, W>,
    passes: &mut Vec<Pass<D>>,
    play: &Play<'a>,
) -> Gone<'a> {
    let Ok(mut router) = desk.router(rt) else {
        return Gone::NotMade;
    };
    let mut venue = AtDesk {
        desk,
        passes,
        router: &mut router,
    };
    let wrong = first_wrong(rt, alloc, &mut venue, play);
    drop(router);
    match wrong {
        Some(wrong) => Gone::Wrong(wrong),
        None => Gone::AllSo,
    }
}

/// How a play goes at a desk that is there.
fn played<'a, D: DeskName, W: Asks + Drop, R: Wait>(
    rt: &R,
    alloc: Global,
    desk: &Desk<D, W>,
    play: &Play<'a>,
) -> Gone<'a> {
    let mut passes = Vec::new(alloc);
    let room = room_of(play);
    if !is_added(rt, desk, &mut passes, 1, room) || !is_added(rt, desk, &mut passes, 2, room) {
        drop(passes);
        return Gone::NotMade;
    }
    let gone = played_by(rt, alloc, desk, &mut passes, play);
    let are_gathered = are_gathered(rt, desk, passes);
    match gone {
        Gone::AllSo if !are_gathered && play.memory != Memory::AllFail => Gone::Ungathered,
        gone => gone,
    }
}

/// How a play goes at a desk that is opened for it.
fn at_a_desk<'a, D: DeskName, W: Asks + Drop, R: Wait>(
    rt: &R,
    alloc: Global,
    blank: Blank,
    opened: Opened,
    site: Site<W>,
    play: &Play<'a>,
) -> Gone<'a>
    requires name { (blank.name ≡ D.name) × (blank.parts ≡ D.parts) }
    requires list { (opened.seen.book ≡ D.book) × (opened.blank.name ≡ D.shown) }
    requires opening { site.core ≡ D.opening }
    requires scopes { W.scopes site.watchers ≡ D.scopes }
    requires stood { IsCoreWith D.scopes site.core }
{
    let made: Result<Desk<D, W>, DeskFault> = Desk::open(alloc, rt, blank, opened, site);
    let Ok(desk) = made else {
        return Gone::NotMade;
    };
    let gone = played(rt, alloc, &desk, play);
    desk.close(rt);
    gone
}

/// How a play goes at a new desk.
pub fn by_desk<'a, W: Asks + Drop, R: Wait>(
    rt: &R,
    alloc: Global,
    watchers: W,
    play: &Play<'a>,
) -> Gone<'a> {
    let site = Site::open(alloc, watchers);
    let (blank, opened) = (Blank::new(1), Opened::new());
    at_a_desk::<Brand, W, R>(rt, alloc, blank, opened, site, play)
}
