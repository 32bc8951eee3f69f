//! Why a topology or a primary refuses.

use std::fmt;
use thiserror::Error;

/// Why a topology refuses a call.
#[derive(Clone, Copy, Debug, Eq, Error, PartialEq)]
pub enum TopologyFault {
    /// No memory was left.
    Memory,
    /// There is no keyspace of that name.
    NoKeyspace,
    /// No keyspace has the table.
    NoTable,
    /// Several keyspaces have the table, and the name says none.
    Ambiguous,
    /// The keyspace or the table is there already.
    Exists,
    /// A limit would be passed.
    Full,
    /// A text is no dump of a topology.
    BadDump,
}

impl TopologyFault {
    ghost use Rattle.std.specs.Prelude.{◌≡◌};
    ghost use Rattle.mt_model.specs.Faults.{topology_fault_text};

    /// The refusal as it is printed: its number and its name.
    pub fn as_str(self) -> &'static str
        ensures { result.now ≡ topology_fault_text self }
    {
        match self {
            TopologyFault::Memory => "T0 Memory",
            TopologyFault::NoKeyspace => "T1 NoKeyspace",
            TopologyFault::NoTable => "T2 NoTable",
            TopologyFault::Ambiguous => "T3 Ambiguous",
            TopologyFault::Exists => "T4 Exists",
            TopologyFault::Full => "T5 Full",
            TopologyFault::BadDump => "T6 BadDump",
        }
    }
}

impl fmt::Display for TopologyFault {
    ghost use Rattle.std.specs.Prelude.{Some};
    ghost use Rattle.mt_model.specs.Faults.{topology_fault_text};

    ghost output = { λ fault. Some (topology_fault_text fault) };

    fn fmt<W: fmt::Write>(&self, f: &mut fmt::Formatter<W>) -> fmt::Result {
        f.pad(self.as_str())
    }
}

/// Why a primary refuses a call.
#[derive(Clone, Copy, Debug, Eq, Error, PartialEq)]
pub enum PrimaryFault {
    /// No memory was left.
    Memory,
    /// The primary has no such table.
    NoTable,
    /// The primary's own list has the table.
    Denied,
    /// An insert of a key that is there.
    RowExists,
    /// An update, an append or a delete of a key that isn't there.
    NoRow,
    /// An append that would make a value longer than 64 bytes.
    TooLong,
    /// The log can take no entry more.
    LogFull,
    /// The log keeps no entry at a position any more.
    Purged,
}

impl PrimaryFault {
    ghost use Rattle.std.specs.Prelude.{◌≡◌};
    ghost use Rattle.mt_model.specs.Faults.{primary_fault_text};

    /// The refusal as it is printed: its number and its name.
    pub fn as_str(self) -> &'static str
        ensures { result.now ≡ primary_fault_text self }
    {
        match self {
            PrimaryFault::Memory => "P0 Memory",
            PrimaryFault::NoTable => "P1 NoTable",
            PrimaryFault::Denied => "P2 Denied",
            PrimaryFault::RowExists => "P3 RowExists",
            PrimaryFault::NoRow => "P4 NoRow",
            PrimaryFault::TooLong => "P5 TooLong",
            PrimaryFault::LogFull => "P6 LogFull",
            PrimaryFault::Purged => "P7 Purged",
        }
    }
}

impl fmt::Display for PrimaryFault {
    ghost use Rattle.std.specs.Prelude.{Some};
    ghost use Rattle.mt_model.specs.Faults.{primary_fault_text};

    ghost output = { λ fault. Some (primary_fault_text fault) };

    fn fmt<W: fmt::Write>(&self, f: &mut fmt::Formatter<W>) -> fmt::Result {
        f.pad(self.as_str())
    }
}
