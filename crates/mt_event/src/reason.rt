//! Why an event is refused, where no name is told.
use mt_model::{PrimaryFault, TopologyFault};
use mt_stream::StreamFault;
use std::fmt;
use thiserror::Error;

/// Why an event is refused, where no name is told. Each comes exactly where its condition holds and none before it in the event's order
/// does; out of memory comes last.
#[derive(Clone, Copy, Debug, Eq, Error, PartialEq)]
pub enum Reason {
    /// No memory was left.
    Memory,
    /// There is no such keyspace.
    NoKeyspace,
    /// The keyspace doesn't have the table.
    NoTable,
    /// The keyspace's primary refuses the table: its own denied list has it.
    Denied,
    /// An insert of a key that is there.
    RowExists,
    /// An update, an append or a delete of a key that isn't there.
    NoRow,
    /// A workflow of that name is there already.
    WorkflowExists,
    /// There is no workflow of that name.
    NoWorkflow,
    /// A workflow that is there moves one of the tables.
    TableInWorkflow,
    /// The source is the target.
    SameKeyspace,
    /// No table was named.
    NoTables,
    /// A way is open on the workflow.
    UnderWay,
    /// No way is open on the workflow.
    NothingUnderWay,
    /// All these types are switched already.
    NothingToSwitch,
    /// None of these types is switched.
    NothingToReverse,
    /// Rows are still to be copied.
    Copying,
    /// A write to the workflow's tables hasn't reached the other side.
    NotLevel,
    /// The journal is written, after which no step is undone.
    PastJournal,
    /// Traffic of some type is switched.
    TrafficSwitched,
    /// Traffic of some type isn't switched.
    NotAllSwitched,
    /// The rule of the key lies in the part of a workflow that is there.
    RuleOwned,
    /// The watcher of this number, counted from 0, refused.
    WatcherRefused(usize),
    /// No watcher keeps that primary up to date.
    NoWatcher,
    /// The event names another position, or another count of steps done, than this one, which holds.
    Stale(u64),
    /// The stream doesn't run, or isn't there.
    StreamStopped,
    /// A limit would be passed.
    Full,
    /// An undo of the way was taken, after which no step is.
    Undoing,
    /// An append that would make a value longer than 64 bytes.
    TooLong,
    /// The keyspace or the table is there already.
    Exists,
    /// The target has no shard of that range.
    NoShard,
    /// The source has several shards.
    ShardedSource,
}

impl Reason {
    ghost use Rattle.std.specs.Prelude.{◌≡◌};
    ghost use Rattle.mt_plain.specs.Events.{refusal_text};
    ghost use Rattle.mt_event.specs.Reasons.{reason_from};

    /// The reason as it is printed: its number and its name, without the values that it carries.
    pub fn as_str(self) -> &'static str
        ensures { result.now ≡ refusal_text (reason_from self) }
    {
        match self {
            Reason::Memory => "F0 Memory",
            Reason::NoKeyspace => "F1 NoKeyspace",
            Reason::NoTable => "F2 NoTable",
            Reason::Denied => "F3 Denied",
            Reason::RowExists => "F4 RowExists",
            Reason::NoRow => "F5 NoRow",
            Reason::WorkflowExists => "F6 WorkflowExists",
            Reason::NoWorkflow => "F7 NoWorkflow",
            Reason::TableInWorkflow => "F8 TableInWorkflow",
            Reason::SameKeyspace => "F11 SameKeyspace",
            Reason::NoTables => "F12 NoTables",
            Reason::UnderWay => "F13 UnderWay",
            Reason::NothingUnderWay => "F14 NothingUnderWay",
            Reason::NothingToSwitch => "F15 NothingToSwitch",
            Reason::NothingToReverse => "F16 NothingToReverse",
            Reason::Copying => "F17 Copying",
            Reason::NotLevel => "F18 NotLevel",
            Reason::PastJournal => "F19 PastJournal",
            Reason::TrafficSwitched => "F20 TrafficSwitched",
            Reason::NotAllSwitched => "F21 NotAllSwitched",
            Reason::RuleOwned => "F22 RuleOwned",
            Reason::WatcherRefused(_) => "F23 WatcherRefused",
            Reason::NoWatcher => "F24 NoWatcher",
            Reason::Stale(_) => "F25 Stale",
            Reason::StreamStopped => "F26 Stopped",
            Reason::Full => "F27 Full",
            Reason::Undoing => "F28 Undoing",
            Reason::TooLong => "F29 TooLong",
            Reason::Exists => "F30 Exists",
            Reason::NoShard => "F32 NoShard",
            Reason::ShardedSource => "F33 ShardedSource",
        }
    }
}

impl From<StreamFault> for Reason {
    ghost use Rattle.std.specs.Prelude.{◌≡◌};
    ghost use Rattle.mt_event.specs.Reasons.{reason_by_stream};

    ghost from_gives = { λ fault reason. reason ≡ reason_by_stream fault };

    fn from(fault: StreamFault) -> Reason {
        match fault {
            StreamFault::Memory => Reason::Memory,
            StreamFault::Stale(position) => Reason::Stale(position),
            StreamFault::Stopped | StreamFault::Frozen => Reason::StreamStopped,
            StreamFault::LogFull => Reason::Full,
        }
    }
}

impl From<TopologyFault> for Reason {
    ghost use Rattle.std.specs.Prelude.{◌≡◌};
    ghost use Rattle.mt_event.specs.Reasons.{reason_by_topology};

    ghost from_gives = { λ fault reason. reason ≡ reason_by_topology fault };

    fn from(fault: TopologyFault) -> Reason {
        match fault {
            TopologyFault::Memory => Reason::Memory,
            TopologyFault::NoKeyspace => Reason::NoKeyspace,
            TopologyFault::NoTable => Reason::NoTable,
            TopologyFault::Exists => Reason::Exists,
            TopologyFault::Ambiguous | TopologyFault::Full | TopologyFault::BadDump => Reason::Full,
        }
    }
}

impl From<PrimaryFault> for Reason {
    ghost use Rattle.std.specs.Prelude.{◌≡◌};
    ghost use Rattle.mt_event.specs.Reasons.{reason_by_primary};

    ghost from_gives = { λ fault reason. reason ≡ reason_by_primary fault };

    #[inline(always)]
    fn from(fault: PrimaryFault) -> Reason {
        match fault {
            PrimaryFault::Memory => Reason::Memory,
            PrimaryFault::NoTable => Reason::NoTable,
            PrimaryFault::Denied => Reason::Denied,
            PrimaryFault::RowExists => Reason::RowExists,
            PrimaryFault::NoRow => Reason::NoRow,
            PrimaryFault::TooLong => Reason::TooLong,
            // A write is never told the second.
            PrimaryFault::LogFull | PrimaryFault::Purged => Reason::Full,
        }
    }
}

impl fmt::Display for Reason {
    ghost use Rattle.std.specs.Prelude.{Some};
    ghost use Rattle.mt_plain.specs.Events.{refusal_text};
    ghost use Rattle.mt_event.specs.Reasons.{reason_from};

    ghost output = { λ reason. Some (refusal_text (reason_from reason)) };

    fn fmt<W: fmt::Write>(&self, f: &mut fmt::Formatter<W>) -> fmt::Result {
        f.pad(self.as_str())
    }
}
