//! A change.
ghost use Rattle.std.specs.Prelude.{◌≡◌, [], IfErr, IfOk};
ghost use Rattle.mt_watch.specs.Lists.{Pushes};

use crate::WatchersFault;
use mt_model::Entry;
use std::alloc::Global;
use std::marker::Model;

/// What changes in a topology: entries with their new values, in the order of their writes.
#[derive(Debug, Drop)]
pub struct Change {
    entries: Vec<Entry>,
}

impl Model for Change {
    ghost use Rattle.std.specs.Prelude.{List};
    ghost use Rattle.mt_model.specs.declared.entries.Entry.{Entry};

    ghost Value = { List Entry };

    ghost view = { λ change. change.entries.items };
}

impl Change {
    /// A change of nothing. It takes no memory.
    pub fn new(alloc: Global) -> Self
        ensures { result ≡ [] }
    {
        Change {
            entries: Vec::new(alloc),
        }
    }

    /// A change of nothing, with room for some entries. `H0 Memory`.
    pub fn with_room(alloc: Global, entries: usize) -> Result<Self, WatchersFault>
        ensures value { IfOk result (λ change. change ≡ []) }
        ensures memory { IfErr result (λ fault. fault ≡ WatchersFault.Memory) }
    {
        match Vec::with_capacity(alloc, entries) {
            Ok(entries) => Ok(Change { entries }),
            Err(_) => Err(WatchersFault::Memory),
        }
    }

    /// Adds an entry at the end. It is refused with `H0 Memory` alone, and then leaves the list as it was.
    #[inline(always)]
    pub fn push(&mut self, entry: Entry) -> Result<(), WatchersFault>
        ensures { Pushes self.old entry result self.new }
    {
        match self.entries.push(entry) {
            Ok(()) => Ok(()),
            Err(_) => Err(WatchersFault::Memory),
        }
    }

    /// The entries in their order. It takes no memory.
    pub fn as_slice(&self) -> &[Entry]
        ensures { result.now ≡ self.now }
    {
        &self.entries
    }
}
