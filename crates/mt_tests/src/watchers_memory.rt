//! Where an allocation fails, the answer is `Memory` or the one that there is without, and a refusal changes nothing.

use mt_model::{Entry, Scope};
use mt_names::RuleKey;
use mt_watch::{Asks, Change, Notice, Watchers, WatchersFault, telling_watcher};
use std::alloc::Global;

/// Whether an entry is added at once, or at a second try after a refusal that changed nothing.
fn pushes(change: &mut Change, entry: &Entry) -> bool {
    let before = change.as_slice().len();
    if let Err(fault) = change.push(entry.copied()) {
        let is_kept = change.as_slice().len() == before;
        return fault == WatchersFault::Memory && is_kept && change.push(entry.copied()).is_ok();
    }
    change.as_slice().last() == Some(entry)
}

/// Whether a notice has the whole change at once, or at a second try.
fn notes(alloc: Global, change: &Change) -> bool {
    let notice = match Notice::of(alloc, &Scope::Routes, change) {
        Err(WatchersFault::Memory) => Notice::of(alloc, &Scope::Routes, change),
        answer => answer,
    };
    notice.is_ok_and(|notice| notice.as_slice() == change.as_slice())
}

/// Whether the routers' watchers answer the whole change, or one of them refuses.
fn answers(watchers: &Watchers, change: &Change) -> bool {
    match watchers.ask(&Scope::Routes, change) {
        Ok(notice) => notice.as_slice() == change.as_slice(),
        Err(WatchersFault::Refused(_)) => true,
        Err(fault) => fault == WatchersFault::NoWatcher && !watchers.has(&Scope::Routes),
    }
}

/// Whether a change has entries for five tables.
fn are_pushed(change: &mut Change) -> bool {
    for table in ["a", "b", "c", "d", "e"] {
        let Ok(key) = RuleKey::parse(table) else {
            return false;
        };
        if !pushes(change, &Entry::Rule(key, None)) {
            return false;
        }
    }
    true
}

/// Whether a change is answered behind each of five watchers that are added, if there is memory for it.
fn are_asked(alloc: Global, change: &Change) -> bool {
    let mut watchers = Watchers::new(alloc);
    for _ in 0..5u8 {
        let added = match telling_watcher!(alloc, Scope::Routes) {
            Ok(watcher) => watchers.add(watcher),
            Err(fault) => Err(fault),
        };
        let is_so = added == Ok(()) || added == Err(WatchersFault::Memory);
        if !is_so || !answers(&watchers, change) {
            return false;
        }
    }
    true
}

#[test]
fn want_of_memory_is_no_other_answer(rt: HostRuntime) {
    let mut change = Change::new(rt.alloc());
    assert!(rt; are_pushed(&mut change) && notes(rt.alloc(), &change));
    assert!(rt; are_asked(rt.alloc(), &change));
}
