//! Why a controller ends without a switch, and why a collector refuses.

use mt_desk::DeskFault;
use mt_event::Refusal;
use std::fmt;
use thiserror::Error;

/// Why a controller ends that neither switched the traffic, nor gave the switch up, nor stopped behind the journal.
#[derive(Debug, Drop, Eq, Error, PartialEq)]
pub enum ControlFault {
    /// The begin was refused, or another event after whose refusal nothing can be done.
    #[error("{0}")]
    Refused(Refusal),
    /// The desk refused a call.
    #[error("{0}")]
    Desk(DeskFault),
}

/// Why a collector refuses a message. What is refused leaves it as it was.
#[derive(Clone, Copy, Debug, Eq, Error, PartialEq)]
pub enum CollectFault {
    /// No memory was left.
    Memory,
    /// A message of that line of that worker is there.
    Double,
    /// There is no such worker, or it has no such line.
    Stranger,
}

impl CollectFault {
    ghost use Rattle.std.specs.Prelude.{◌≡◌};
    ghost use Rattle.mt_workers.specs.Faults.{collect_fault_text};

    /// The refusal as it is printed: its number and its name.
    pub fn as_str(self) -> &'static str
        ensures { result.now ≡ collect_fault_text self }
    {
        match self {
            CollectFault::Memory => "C0 Memory",
            CollectFault::Double => "C1 Double",
            CollectFault::Stranger => "C2 Stranger",
        }
    }
}

impl fmt::Display for CollectFault {
    ghost use Rattle.std.specs.Prelude.{Some};
    ghost use Rattle.mt_workers.specs.Faults.{collect_fault_text};

    ghost output = { λ fault. Some (collect_fault_text fault) };

    fn fmt<W: fmt::Write>(&self, f: &mut fmt::Formatter<W>) -> fmt::Result {
        f.pad(self.as_str())
    }
}
