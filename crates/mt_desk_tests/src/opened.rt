//! A desk for a test: its watchers, what was applied before it was opened, and what is tried at it.
ghost use Rattle.std.specs.Prelude.{◌≡◌, IfOk, IfSome};
ghost use Rattle.mt_site.specs.Stood.{IsCoreWith};
ghost use Rattle.mt_watch.specs.Notices.{notice_of};

use crate::acts::{Act, Played, play};
use crate::cut_short::is_cut_short_well;
use crate::reading::all_go_on;
use crate::sharded::{Sharded, over_shards};
use crate::speed::{Load, is_borne};
use crate::texts::event_of;
use crate::threads::two_ask;
use crate::together::two_controllers;
use crate::told_memory::is_told_all;
use crate::turns::{Turns, in_turn};
use mt_desk::{Desk, DeskFault, DeskName};
use mt_event::{Event, Reason, Refusal, Reply};
use mt_names::KeyspaceName;
use mt_routes::Opened;
use mt_site::Site;
use mt_watch::{Asks, Callback, Change, Notice, Scope, WatchFault, Watcher, Watchers, tell};
use std::alloc::Global;
use std::marker::Brand;
use std::sync::Wait;
use std::sync::ledger::Blank;
use std::thread::Threads;

/// Who watches.
#[derive(Clone, Copy)]
pub enum Watch {
    /// The primaries of the two keyspaces that tables move between.
    Primaries,
    /// Routers too, behind them.
    Routes,
    /// Routers too, but what these are asked is refused.
    RoutesRefused,
}

/// What is tried at a desk.
#[derive(Clone, Copy)]
pub enum Trial<'a> {
    /// A list of acts.
    Acts(&'a [Act]),
    /// Two clients ask on two threads, each so often.
    TwoThreads(u64),
    /// Routers read in four threads while a client edits a rule and each edit is told.
    Readers,
    /// Routes that are told, where one allocation may fail.
    OneFailsTelling,
    /// Two rules that are told behind so many others, where one allocation may fail.
    OneFailsBetween(usize),
    /// Many calls and tellings.
    Load(Load),
    /// Workers one after the other.
    InTurn(Turns),
    /// Two controllers and two clients at once; whether the second controller undoes what the first does.
    TwoControllers(bool),
    /// Workers over a target of two shards.
    OverShards(Sharded),
}

/// A table that a workflow moves, of which no row is there yet.
pub static MOVED: [&str; 5] = [
    "keyspace commerce",
    "keyspace customer",
    "table commerce corder",
    "create mv commerce customer corder",
    "advance mv forward 0 100",
];

/// One that it moves to two shards.
static MOVED_TO_TWO: [&str; 6] = [
    "keyspace commerce",
    "keyspace customer -80,80-",
    "table commerce corder",
    "create mv commerce customer corder",
    "advance mv forward/-80 0 100",
    "advance mv forward/80- 0 100",
];

/// A watcher of a scope, which may refuse whatever it is asked.
fn watcher_of(alloc: Global, scope: Scope, refuses: bool) -> Option<Watcher> {
    let own = scope.copied();
    let call: Callback = match Box::new(
        alloc,
        move |change: &Change| -> Result<Notice, WatchFault>
            ensures { IfOk result (λ notice. notice ≡ notice_of own change.now) }
        {
            if refuses {
                return Err(WatchFault(1));
            }
            tell(alloc, &own, change)
        },
    ) {
        Ok(call) => call,
        Err(_) => return None,
    };
    Some(Watcher::new(scope, call))
}

/// Whether a watcher of a scope is added.
fn is_added(alloc: Global, watchers: &mut Watchers, scope: Scope, refuses: bool) -> bool {
    match watcher_of(alloc, scope, refuses) {
        Some(watcher) => watchers.add(watcher).is_ok(),
        None => false,
    }
}

/// Whether watchers of the primaries of two keyspaces are added.
fn are_added(alloc: Global, watchers: &mut Watchers) -> bool {
    let (Ok(commerce), Ok(customer)) = (
        KeyspaceName::parse("commerce"),
        KeyspaceName::parse("customer"),
    ) else {
        return false;
    };
    is_added(alloc, watchers, Scope::Primary(commerce), false)
        && is_added(alloc, watchers, Scope::Primary(customer), false)
}

/// Watchers of the primaries of two keyspaces.
pub fn two_watchers(alloc: Global) -> Option<Watchers> {
    let mut watchers = Watchers::new(alloc);
    if are_added(alloc, &mut watchers) {
        return Some(watchers);
    }
    drop(watchers);
    None
}

/// Whoever watches.
fn watchers_of(alloc: Global, watch: Watch) -> Option<Watchers> {
    let mut watchers = Watchers::new(alloc);
    let is_made = are_added(alloc, &mut watchers)
        && match watch {
            Watch::Primaries => true,
            Watch::Routes => is_added(alloc, &mut watchers, Scope::Routes, false),
            Watch::RoutesRefused => is_added(alloc, &mut watchers, Scope::Routes, true),
        };
    if is_made {
        return Some(watchers);
    }
    drop(watchers);
    None
}

/// The answer to an event: there goes on to be a state that the controller stands for.
fn answer<W: Asks>(site: &mut Site<W>, event: &Event) -> Result<Reply, Refusal>
    ensures { IsCoreWith (W.scopes site.old.watchers) site.old.core → IsCoreWith (W.scopes site.new.watchers) site.new.core }
{
    site.apply(event)
}

/// Whether an event is done, at once or at a second try where memory was short.
fn applies<W: Asks>(site: &mut Site<W>, line: &str) -> bool
    ensures { IsCoreWith (W.scopes site.old.watchers) site.old.core → IsCoreWith (W.scopes site.new.watchers) site.new.core }
{
    let Some(event) = event_of(line) else {
        return false;
    };
    match answer(site, &event) {
        Ok(_) => true,
        Err(Refusal::Other(Reason::Memory)) => answer(site, &event).is_ok(),
        Err(_) => false,
    }
}

/// Whether events are done, one after the other.
fn apply_all<W: Asks>(site: &mut Site<W>, lines: &[&str]) -> bool
    ensures { IsCoreWith (W.scopes site.old.watchers) site.old.core → IsCoreWith (W.scopes site.new.watchers) site.new.core }
{
    for line in lines {
        if !applies(site, line) {
            return false;
        }
    }
    true
}

/// A controller to which events were applied.
pub fn site_of<W: Asks + Drop>(alloc: Global, watchers: W, lines: &[&str]) -> Option<Site<W>>
    ensures { IfSome result (λ site. IsCoreWith (W.scopes site.watchers) site.core) }
{
    let mut site = Site::open(alloc, watchers);
    if apply_all(&mut site, lines) {
        return Some(site);
    }
    drop(site);
    None
}

/// How a trial goes at a desk.
fn goes<D: DeskName + Send + Sync, W: Asks + Drop + Send, R: Threads + Wait + Sync>(
    rt: &R,
    alloc: Global,
    desk: &Desk<D, W>,
    trial: Trial<'_>,
) -> Played {
    match trial {
        Trial::Acts(acts) => play(rt, alloc, desk, acts),
        Trial::TwoThreads(asks) => two_ask(rt, alloc, desk, asks),
        Trial::Readers => all_go_on(rt, alloc, desk),
        Trial::OneFailsTelling => is_told_all(rt, desk),
        Trial::OneFailsBetween(others) => is_cut_short_well(rt, desk, others),
        Trial::Load(load) => Played::of(is_borne(rt, alloc, desk, load)),
        Trial::InTurn(turns) => Played::of(in_turn(rt, desk, turns)),
        Trial::TwoControllers(undoes) => Played::of(two_controllers(rt, alloc, desk, undoes)),
        Trial::OverShards(sharded) => Played::of(over_shards(rt, alloc, desk, sharded)),
    }
}

/// How a trial goes at a desk that is opened for it.
fn at_a_desk<D: DeskName + Send + Sync, W: Asks + Drop + Send, R: Threads + Wait + Sync>(
    rt: &R,
    alloc: Global,
    blank: Blank,
    opened: Opened,
    site: Site<W>,
    trial: Trial<'_>,
) -> Played
    requires name { (blank.name ≡ D.name) × (blank.parts ≡ D.parts) }
    requires list { (opened.seen.book ≡ D.book) × (opened.blank.name ≡ D.shown) }
    requires opening { site.core ≡ D.opening }
    requires scopes { W.scopes site.watchers ≡ D.scopes }
    requires stood { IsCoreWith D.scopes site.core }
{
    let made: Result<Desk<D, W>, DeskFault> = Desk::open(alloc, rt, blank, opened, site);
    let Ok(desk) = made else {
        return Played::NotMade;
    };
    let played = goes(rt, alloc, &desk, trial);
    desk.close(rt);
    played
}

/// How a trial goes at a desk with these watchers, whose controller was asked for these events before.
fn watched<W: Asks + Drop + Send, R: Threads + Wait + Sync>(
    rt: &R,
    alloc: Global,
    watchers: W,
    before: &[&str],
    trial: Trial<'_>,
) -> Played {
    let Some(site) = site_of(alloc, watchers, before) else {
        return Played::NotMade;
    };
    let (blank, opened) = (Blank::new(1), Opened::new());
    at_a_desk::<Brand, W, R>(rt, alloc, blank, opened, site, trial)
}

/// How a trial goes at a desk whose watchers are made for it.
fn tried_once<R: Threads + Wait + Sync>(
    rt: &R,
    alloc: Global,
    watch: Watch,
    before: &[&str],
    trial: Trial<'_>,
) -> Played {
    match watchers_of(alloc, watch) {
        Some(watchers) => watched::<Watchers, R>(rt, alloc, watchers, before, trial),
        None => Played::NotMade,
    }
}

/// How a trial goes at a desk that is so watched, whose controller was asked for these events before. A desk that isn't made is made
/// a second time.
pub fn tried<R: Threads + Wait + Sync>(
    rt: &R,
    alloc: Global,
    watch: Watch,
    before: &[&str],
    trial: Trial<'_>,
) -> Played {
    match tried_once(rt, alloc, watch, before, trial) {
        Played::NotMade => tried_once(rt, alloc, watch, before, trial),
        played => played,
    }
}

/// Whether workers do what they should at a desk whose controller has copied what they move.
pub fn they_work<R: Threads + Wait + Sync>(rt: &R, alloc: Global, trial: Trial<'_>) -> bool {
    let before = match trial {
        Trial::OverShards(_) => MOVED_TO_TWO.as_slice(),
        _ => MOVED.as_slice(),
    };
    tried(rt, alloc, Watch::Routes, before, trial) == Played::AllSo
}
