//! Watchers that are added and asked.
ghost use Rattle.std.specs.Prelude.{◌≡◌, IfOk};
ghost use Rattle.mt_watch.specs.Notices.{notice_of};

use mt_model::{Entry, Scope};
use mt_names::{KeyspaceName, RuleKey, RuleTarget, TableName};
use mt_watch::{
    Asks, Callback, Change, Notice, WatchFault, Watcher, Watchers, WatchersFault, tell,
};
use std::alloc::Global;

/// A rule, and an entry of either kind at the keyspace `customer`.
fn three_entries(alloc: Global) -> Option<Change> {
    let (keyspace, table) = (
        KeyspaceName::parse("customer").ok()?,
        TableName::parse("customer").ok()?,
    );
    let (key, target) = (
        RuleKey::parse("customer").ok()?,
        RuleTarget::parse("commerce.customer").ok()?,
    );
    let mut change = Change::new(alloc);
    change.push(Entry::Rule(key, Some(target))).ok()?;
    change
        .push(Entry::Denied(keyspace.copied(), table.copied(), true))
        .ok()?;
    change.push(Entry::Present(keyspace, table, true)).ok()?;
    Some(change)
}

/// Whether a change takes an entry, and has it alone.
fn is_list_of_one(change: &mut Change) -> bool {
    let Ok(key) = RuleKey::parse("customer") else {
        return false;
    };
    let entry = Entry::Rule(key, None);
    change.as_slice().is_empty()
        && change.push(entry.copied()) == Ok(())
        && change.as_slice() == [entry].as_slice()
}

#[test]
fn a_change_is_a_list_of_entries(rt: HostRuntime) {
    let mut change = Change::new(rt.alloc());
    assert!(rt; is_list_of_one(&mut change));
}

/// A watcher of a scope, which may refuse whatever it is asked.
fn watcher_of(alloc: Global, scope: Scope, refuses: bool) -> Option<Watcher> {
    let own = scope.copied();
    let call: Callback = match Box::new(
        alloc,
        move |change: &Change| -> Result<Notice, WatchFault>
            ensures { IfOk result (λ notice. notice ≡ notice_of own change.now) }
        {
            if refuses {
                return Err(WatchFault(7));
            }
            tell(alloc, &own, change)
        },
    ) {
        Ok(call) => call,
        Err(_) => return None,
    };
    Some(Watcher::new(scope, call))
}

/// How it is answered that a watcher is added.
fn added(
    alloc: Global,
    watchers: &mut Watchers,
    scope: &Scope,
    refuses: bool,
) -> Result<(), WatchersFault> {
    match watcher_of(alloc, scope.copied(), refuses) {
        Some(watcher) => watchers.add(watcher),
        None => Err(WatchersFault::Memory),
    }
}

/// Whether watchers of a scope are added, of which some refuse.
fn are_added(alloc: Global, watchers: &mut Watchers, scope: &Scope, refusing: &[bool]) -> bool {
    for refuses in refusing {
        if added(alloc, watchers, scope, *refuses).is_err() {
            return false;
        }
    }
    true
}

/// How many entries the watchers of a scope answer of a change.
fn noticed<A: Asks>(watchers: &A, scope: &Scope, change: &Change) -> Result<usize, WatchersFault> {
    match watchers.ask(scope, change) {
        Ok(notice) => Ok(notice.as_slice().len()),
        Err(fault) => Err(fault),
    }
}

/// Whether there are 32 watchers at most, which answer both entries for routers.
fn are_32_at_most(alloc: Global, watchers: &mut Watchers, change: &Change) -> bool {
    are_added(alloc, watchers, &Scope::Routes, &[false; 32])
        && added(alloc, watchers, &Scope::Routes, true) == Err(WatchersFault::Full)
        && noticed(watchers, &Scope::Routes, change) == Ok(2)
}

#[test]
fn a_thirty_third_watcher_is_refused(rt: HostRuntime) {
    let mut watchers = Watchers::new(rt.alloc());
    let change = three_entries(rt.alloc());
    assert!(rt; change.is_some_and(|change| are_32_at_most(rt.alloc(), &mut watchers, &change)));
}

/// Whether the watchers of a scope answer just its entries of a change, which has one for the primary of `customer`, and other
/// scopes aren't answered for.
fn are_asked_alone(alloc: Global, watchers: &mut Watchers, change: &Change) -> Option<bool> {
    let customer = Scope::Primary(KeyspaceName::parse("customer").ok()?);
    let commerce = Scope::Primary(KeyspaceName::parse("commerce").ok()?);
    Some(
        are_added(alloc, watchers, &customer, &[false])
            && are_added(alloc, watchers, &commerce, &[false])
            && are_added(alloc, watchers, &customer, &[false])
            && watchers.has(&commerce)
            && !watchers.has(&Scope::Routes)
            && noticed(watchers, &Scope::Routes, change) == Err(WatchersFault::NoWatcher)
            && is_denial(watchers, &customer, change)
            && noticed(watchers, &commerce, change) == Ok(0),
    )
}

/// Whether what is answered of a change is its second entry.
fn is_denial(watchers: &Watchers, scope: &Scope, change: &Change) -> bool {
    match watchers.ask(scope, change) {
        Ok(notice) => Some(notice.as_slice()) == change.as_slice().get(1..2),
        Err(_) => false,
    }
}

#[test]
fn the_watchers_of_a_scope_are_asked(rt: HostRuntime) {
    let mut watchers = Watchers::new(rt.alloc());
    let change = three_entries(rt.alloc());
    assert!(rt;
        change.is_some_and(|change| {
            are_asked_alone(rt.alloc(), &mut watchers, &change) == Some(true)
        })
    );
}

/// Whether the second of three watchers refuses, with its number.
fn second_refuses(alloc: Global, watchers: &mut Watchers, change: &Change) -> bool {
    are_added(alloc, watchers, &Scope::Routes, &[false, true, false])
        && noticed(watchers, &Scope::Routes, change) == Err(WatchersFault::Refused(1))
}

#[test]
fn the_second_watcher_refuses(rt: HostRuntime) {
    let mut watchers = Watchers::new(rt.alloc());
    let change = Change::new(rt.alloc());
    assert!(rt; second_refuses(rt.alloc(), &mut watchers, &change));
}

static FAULTS: [(WatchersFault, &str); 4] = [
    (WatchersFault::Memory, "H0 Memory"),
    (WatchersFault::NoWatcher, "H1 NoWatcher"),
    (WatchersFault::Refused(1), "H2 Refused"),
    (WatchersFault::Full, "H3 Full"),
];

/// The first refusal that isn't printed so.
fn first_other(alloc: Global) -> Option<&'static str> {
    for (fault, text) in &FAULTS {
        if !format!(in alloc; "{fault}").is_ok_and(|printed| printed.as_str() == *text) {
            return Some(text);
        }
    }
    None
}

#[test]
fn refusals_are_printed(rt: HostRuntime) {
    assert_eq!(rt; first_other(rt.alloc()), None);
}
