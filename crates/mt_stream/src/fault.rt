//! Why a stream refuses.
use mt_names::Position;
use std::fmt;
use thiserror::Error;

/// Why a stream refuses to advance.
#[derive(Clone, Copy, Debug, Eq, Error, PartialEq)]
pub enum StreamFault {
    /// No memory was left for the first change.
    Memory,
    /// The stream doesn't stand at the position that was named; this is the one at which it stands.
    Stale(Position),
    /// The stream is stopped.
    Stopped,
    /// The stream is frozen.
    Frozen,
    /// The log of the written primary has no room for the first change.
    LogFull,
}

impl StreamFault {
    ghost use Rattle.std.specs.Prelude.{◌≡◌};
    ghost use Rattle.mt_stream.specs.Faults.{stream_fault_text};

    /// The refusal as it is printed: its number and its name, without the position.
    pub fn as_str(self) -> &'static str
        ensures { result.now ≡ stream_fault_text self }
    {
        match self {
            StreamFault::Memory => "S0 Memory",
            StreamFault::Stale(_) => "S1 Stale",
            StreamFault::Stopped => "S2 Stopped",
            StreamFault::Frozen => "S3 Frozen",
            StreamFault::LogFull => "S4 LogFull",
        }
    }
}

impl fmt::Display for StreamFault {
    ghost use Rattle.std.specs.Prelude.{Some};
    ghost use Rattle.mt_stream.specs.Faults.{stream_fault_text};

    ghost output = { λ fault. Some (stream_fault_text fault) };

    fn fmt<W: fmt::Write>(&self, f: &mut fmt::Formatter<W>) -> fmt::Result {
        f.pad(self.as_str())
    }
}
