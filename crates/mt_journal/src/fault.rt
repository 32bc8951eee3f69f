//! Why a journal refuses.
use std::fmt;
use thiserror::Error;

/// Why a journal refuses an entry.
#[derive(Clone, Copy, Debug, Eq, Error, PartialEq)]
pub enum JournalFault {
    /// No memory was left.
    Memory,
    /// There are as many entries as there may be.
    Full,
    /// An entry with that number is there.
    Repeated,
}

impl JournalFault {
    ghost use Rattle.std.specs.Prelude.{◌≡◌};
    ghost use Rattle.mt_journal.specs.Faults.{journal_fault_text};

    /// The refusal as it is printed: its number and its name.
    pub fn as_str(self) -> &'static str
        ensures { result.now ≡ journal_fault_text self }
    {
        match self {
            JournalFault::Memory => "J0 Memory",
            JournalFault::Full => "J1 Full",
            JournalFault::Repeated => "J2 Repeated",
        }
    }
}

impl fmt::Display for JournalFault {
    ghost use Rattle.std.specs.Prelude.{Some};
    ghost use Rattle.mt_journal.specs.Faults.{journal_fault_text};

    ghost output = { λ fault. Some (journal_fault_text fault) };

    fn fmt<W: fmt::Write>(&self, f: &mut fmt::Formatter<W>) -> fmt::Result {
        f.pad(self.as_str())
    }
}
