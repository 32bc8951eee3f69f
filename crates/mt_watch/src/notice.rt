//! The notice of a change.
ghost use Rattle.std.specs.Prelude.{◌≡◌, []};
ghost use Rattle.mt_watch.specs.Lists.{Pushes};
ghost use Rattle.mt_watch.specs.Notices.{Notes, concerns};

use crate::{Change, WatchersFault};
use mt_model::{Entry, Scope};
use std::alloc::Global;
use std::marker::Model;

/// What a watcher answers to a change: the entries of the change that concern its scope, in their order.
#[derive(Debug, Drop)]
pub struct Notice {
    part: Change,
}

impl Model for Notice {
    ghost use Rattle.std.specs.Prelude.{List};
    ghost use Rattle.mt_model.specs.declared.entries.Entry.{Entry};

    ghost Value = { List Entry };

    ghost view = { λ notice. notice.part };
}

impl Notice {
    /// A notice of nothing. It takes no memory.
    pub fn new(alloc: Global) -> Self
        ensures { result ≡ [] }
    {
        Notice {
            part: Change::new(alloc),
        }
    }

    /// Adds an entry at the end. It is refused with `H0 Memory` alone, and then leaves the list as it was.
    pub fn push(&mut self, entry: Entry) -> Result<(), WatchersFault>
        ensures { Pushes self.old entry result self.new }
    {
        self.part.push(entry)
    }

    /// The entries in their order. It takes no memory.
    pub fn as_slice(&self) -> &[Entry]
        ensures { result.now ≡ self.now }
    {
        self.part.as_slice()
    }

    /// The notice of a change for a scope: what a watcher of that scope has to answer. `H0 Memory` alone.
    pub fn of(alloc: Global, scope: &Scope, change: &Change) -> Result<Self, WatchersFault>
        ensures { Notes scope.now change.now result }
    {
        let mut notice = Notice::new(alloc);
        for entry in change.as_slice() {
            if concerns(scope, entry) {
                match notice.push(entry.copied()) {
                    Ok(()) => {}
                    Err(_) => return Err(WatchersFault::Memory),
                }
            }
        }
        Ok(notice)
    }
}

/// Whether an entry concerns a scope.
fn concerns(scope: &Scope, entry: &Entry) -> bool
    ensures { result ≡ concerns scope.now entry.now }
{
    match (scope, entry) {
        (Scope::Routes, Entry::Rule(_, _)) => true,
        (Scope::Routes, Entry::Denied(_, _, _)) => false,
        (Scope::Routes, Entry::Present(_, _, _)) => true,
        (Scope::Primary(own), Entry::Denied(keyspace, _, _)) => own == keyspace,
        (Scope::Primary(_), _) => false,
    }
}
