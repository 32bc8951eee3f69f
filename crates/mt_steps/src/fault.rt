//! Why a step is refused.
use std::fmt;
use thiserror::Error;

/// Why a step is refused. A refused step leaves everything as it was.
#[derive(Clone, Copy, Debug, Eq, Error, PartialEq)]
pub enum StepFault {
    /// No memory was left.
    Memory,
    /// A stream that feeds on the way isn't level with the primary that it reads.
    NotLevel,
    /// The watcher of this number, counted from 0 in the order in which they were added, refused.
    WatcherRefused(usize),
    /// The primary that is to be told has no watcher.
    NoWatcher,
    /// The journal has as many entries as it may have.
    Full,
}

impl StepFault {
    ghost use Rattle.std.specs.Prelude.{◌≡◌};
    ghost use Rattle.mt_steps.specs.Faults.{step_fault_text};

    /// The refusal as it is printed: its number and its name, without the watcher's number.
    pub fn as_str(self) -> &'static str
        ensures { result.now ≡ step_fault_text self }
    {
        match self {
            StepFault::Memory => "F0 Memory",
            StepFault::NotLevel => "F18 NotLevel",
            StepFault::WatcherRefused(_) => "F23 WatcherRefused",
            StepFault::NoWatcher => "F24 NoWatcher",
            StepFault::Full => "F27 Full",
        }
    }
}

impl fmt::Display for StepFault {
    ghost use Rattle.std.specs.Prelude.{Some};
    ghost use Rattle.mt_steps.specs.Faults.{step_fault_text};

    ghost output = { λ fault. Some (step_fault_text fault) };

    fn fmt<W: fmt::Write>(&self, f: &mut fmt::Formatter<W>) -> fmt::Result {
        f.pad(self.as_str())
    }
}
