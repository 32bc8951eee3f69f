//! The journal.
ghost use Rattle.std.specs.Prelude.{◌≡◌, [], length, option_copied};
ghost use Rattle.mt_journal.specs.Journal.{Appends, IsJournal, entry_of};

use crate::{JournalEntry, JournalFault};
use indexmap::IndexMap;
use std::alloc::Global;
use std::marker::Model;

/// How many entries a journal has at most.
const MAX_ENTRIES: usize = 4096;

/// The journal of all switches and reversals of writes: a list of entries with distinct numbers, at most 4,096, that only
/// grows at its end. With its entry a switch of writes can no longer be given up. (Vitess: how traffic is switched, the
/// journal as the point of no return)
#[derive(Drop)]
pub struct Journal {
    places: IndexMap<u64, JournalEntry>,
}

impl Model for Journal {
    ghost use Rattle.std.specs.Prelude.{List};
    ghost use Rattle.mt_journal.specs.declared.entry.JournalEntry.{JournalEntry};
    ghost use Rattle.mt_journal.specs.Journal.{IsKept, entries_in};

    ghost Value = { List JournalEntry };

    ghost view = { λ journal. entries_in journal.places.entries };

    ghost invariant = { λ journal. IsKept journal.places.entries };
}

impl Journal {
    /// A journal without entries. It takes no memory.
    pub fn new(alloc: Global) -> Self
        ensures { result ≡ [] }
    {
        Journal {
            places: IndexMap::new(alloc),
        }
    }

    /// What is true of every journal, for a caller's proof: no two entries have one number, and there are at most 4,096. It
    /// does nothing.
    pub fn facts(&self)
        ensures { IsJournal self.now }
    {
        let _places = &self.places;
    }

    /// How many entries there are. It takes no memory.
    pub fn len(&self) -> usize
        ensures { result ≡ length self.now }
    {
        self.places.len()
    }

    /// Adds an entry at the end. The first of these that holds is answered, and then nothing changed: `J2 Repeated` if an
    /// entry with its number is there, `J1 Full` at a 4,097th entry, `J0 Memory`.
    pub fn append(&mut self, entry: JournalEntry) -> Result<(), JournalFault>
        ensures { Appends self.old entry result self.new }
    {
        if self.places.contains_key(&entry.id) {
            return Err(JournalFault::Repeated);
        }
        if self.len() == MAX_ENTRIES {
            return Err(JournalFault::Full);
        }
        match self.places.insert(entry.id, entry) {
            Ok(_) => Ok(()),
            Err(_) => Err(JournalFault::Memory),
        }
    }

    /// The entry of a number, if there is one. It takes no memory.
    pub fn find(&self, id: u64) -> Option<&JournalEntry>
        ensures { option_copied result ≡ entry_of self.now id }
    {
        self.places.get(&id)
    }

    /// The entries, in the order in which they were added. It takes no memory.
    pub fn entries(&self) -> &[JournalEntry]
        ensures { result.now ≡ self.now }
    {
        self.places.values().as_slice()
    }
}
