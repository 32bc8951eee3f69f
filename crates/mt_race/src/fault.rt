//! Why a race has no result.

use mt_desk::DeskFault;
use mt_event::Refusal;
use std::fmt;
use thiserror::Error;

/// Why a race has no result. Each thread that was started has ended then.
#[derive(Debug, Drop, Eq, Error, PartialEq)]
pub enum RaceFault {
    /// No memory was left for the race itself, or a client ended before its last line.
    Memory,
    /// A thread couldn't be started.
    Thread,
    /// An event of the set-up was refused, with which nothing was raced.
    Setup(Refusal),
    /// The desk refused a call that is no client's.
    Desk(DeskFault),
}

impl RaceFault {
    ghost use Rattle.std.specs.Prelude.{◌≡◌};
    ghost use Rattle.mt_race.specs.Faults.{race_fault_text};

    /// The name of the fault as it is printed.
    pub fn as_str(&self) -> &'static str
        ensures { result.now ≡ race_fault_text self.now }
    {
        match self {
            RaceFault::Memory => "Memory",
            RaceFault::Thread => "Thread",
            RaceFault::Setup(_) => "Setup",
            RaceFault::Desk(_) => "Desk",
        }
    }
}

impl fmt::Display for RaceFault {
    ghost use Rattle.std.specs.Prelude.{Some};
    ghost use Rattle.mt_race.specs.Faults.{race_fault_text};

    ghost output = { λ fault. Some (race_fault_text fault) };

    fn fmt<W: fmt::Write>(&self, f: &mut fmt::Formatter<W>) -> fmt::Result {
        f.pad(self.as_str())
    }
}
