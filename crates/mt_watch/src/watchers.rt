//! Watchers.
ghost use Rattle.std.specs.Prelude.{◌≡◌, ◌≤◌, [], length};
ghost use Rattle.mt_watch.specs.Lists.{Adds, most_watchers};

use crate::step::ask_one;
use crate::{Asks, Callback, Change, Notice, Watcher, WatchersFault};
use mt_model::Scope;
use std::alloc::Global;

/// How many watchers there are at most.
const MAX_WATCHERS: usize = 32;

/// Watchers in the order in which they were added, at most 32.
#[derive(Drop)]
pub struct Watchers {
    all: Vec<Watcher>,
    ghost within: { length all.items ≤ most_watchers },
}

impl Watchers {
    /// No watcher. It takes no memory.
    pub fn new(alloc: Global) -> Self
        ensures { result.all.items ≡ [] }
    {
        Watchers {
            all: Vec::new(alloc),
        }
    }

    /// Adds a watcher behind the others. `H3 Full` at a 33rd, `H0 Memory`; both drop the watcher and leave the others.
    pub fn add(&mut self, watcher: Watcher) -> Result<(), WatchersFault>
        ensures { Adds self.old.all.items watcher result self.new.all.items }
    {
        if self.all.len() == MAX_WATCHERS {
            return Err(WatchersFault::Full);
        }
        match self.all.push(watcher) {
            Ok(()) => Ok(()),
            Err(_) => Err(WatchersFault::Memory),
        }
    }
}

impl Asks for Watchers {
    ghost use Rattle.std.specs.Prelude.{◌≡◌, map};
    ghost use Rattle.mt_watch.specs.Asking.{by_number};

    ghost scopes = { λ watchers. map (λ watcher. watcher.scope) watchers.all.items };

    ghost may_answer = { λ watchers. by_number watchers.all.items (λ watcher change answer. (asked : _) × (asked.now ≡ change) × Callback.post watcher.call asked answer) };

    fn has(&self, scope: &Scope) -> bool {
        for watcher in &self.all {
            if watcher.is_of(scope) {
                return true;
            }
        }
        false
    }

    fn ask(&self, scope: &Scope, change: &Change) -> Result<Notice, WatchersFault> {
        let mut told = None;
        for (index, watcher) in self.all.iter().enumerate() {
            told = ask_one(watcher, index, scope, change, told)?;
        }
        match told {
            Some(notice) => Ok(notice),
            None => Err(WatchersFault::NoWatcher),
        }
    }
}
