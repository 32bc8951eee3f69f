//! What the controller answers to an event that is taken.
use crate::lanes::{ShownLane, copied_lanes};
use crate::tables::{Tables, copied_tables};
use arrayvec::ArrayVec;
use mt_names::{
    KeyspaceName, MAX_SHARDS, MAX_TABLES, TableName, TypeSet, Value, WorkflowName, copied_value,
};
use mt_stream::Advanced;
use mt_workflow::Way;

/// What is told of a workflow. (Vitess: Show of MoveTables; the layout is this profile's own)
#[derive(Debug, Drop, Eq, PartialEq)]
pub struct Shown {
    /// Its name.
    pub workflow: WorkflowName,
    /// The keyspace that its tables move from.
    pub source: KeyspaceName,
    /// The keyspace that they move to.
    pub target: KeyspaceName,
    /// Its tables, each once, in the order in which they were first named.
    pub tables: ArrayVec<TableName, MAX_TABLES>,
    /// The tablet types whose traffic is switched.
    pub switched: TypeSet,
    /// The way that is open, if one is.
    pub way: Option<Way>,
    /// Its lanes, one for each shard of the target, in their order.
    pub lanes: ArrayVec<ShownLane, MAX_SHARDS>,
}

/// What is told of a workflow, with its names and its tables lent: see `Shown`. (Vitess: Show of MoveTables)
#[derive(Debug, Drop)]
pub struct ShownOf<'a> {
    /// Its name.
    pub workflow: &'a WorkflowName,
    /// The keyspace that its tables move from.
    pub source: &'a KeyspaceName,
    /// The keyspace that they move to.
    pub target: &'a KeyspaceName,
    /// Its tables, each once, in the order in which they were first named.
    pub tables: Tables<'a>,
    /// The tablet types whose traffic is switched.
    pub switched: TypeSet,
    /// The way that is open, if one is.
    pub way: Option<Way>,
    /// Its lanes, one for each shard of the target, in their order.
    pub lanes: ArrayVec<ShownLane, MAX_SHARDS>,
}

/// The answer to an event that is taken.
#[derive(Debug, Drop, Eq, PartialEq)]
pub enum Reply {
    /// The event is done.
    Done,
    /// The row that was read, if there is one.
    Row(Option<Value>),
    /// What an advance did.
    Advanced(Advanced),
    /// What is told of a workflow.
    Shown(Shown),
}

/// What is told of what is asked and taken, in few bytes: a reply, but that what is told of a workflow stands in the core, which lends it.
#[derive(Debug, Drop, Eq, PartialEq)]
pub enum Told {
    /// It is done.
    Done,
    /// The row that was read, if there is one.
    Row(Option<Value>),
    /// What an advance did.
    Advanced(Advanced),
    /// The workflow is there.
    Shown,
}

impl Shown {
    ghost use Rattle.std.specs.Prelude.{◌≡◌};
    ghost use Rattle.mt_event.specs.Events.{lent_shown, shown_from};

    /// A copy. It takes no memory.
    pub fn copied(&self) -> Self
        ensures { result ≡ self.now }
    {
        Shown {
            workflow: self.workflow.copied(),
            source: self.source.copied(),
            target: self.target.copied(),
            tables: copied_tables(self.tables.as_slice()),
            switched: self.switched,
            way: self.way,
            lanes: copied_lanes(self.lanes.as_slice()),
        }
    }

    /// What it tells, with its names and its tables lent. It takes no memory.
    pub fn lent(&self) -> ShownOf<'_>
        ensures { lent_shown result ≡ shown_from self.now }
    {
        ShownOf {
            workflow: &self.workflow,
            source: &self.source,
            target: &self.target,
            tables: Tables::new(self.tables.as_slice()),
            switched: self.switched,
            way: self.way,
            lanes: copied_lanes(self.lanes.as_slice()),
        }
    }
}

impl ShownOf<'_> {
    ghost use Rattle.std.specs.Prelude.{◌≡◌};
    ghost use Rattle.mt_event.specs.Events.{lent_shown, shown_from};

    /// What it tells, with names and tables of its own. It takes no memory.
    pub fn owned(&self) -> Shown
        ensures { shown_from result ≡ lent_shown self.now }
    {
        let tables = copied_tables(self.tables.as_slice());
        Shown {
            workflow: self.workflow.copied(),
            source: self.source.copied(),
            target: self.target.copied(),
            tables,
            switched: self.switched,
            way: self.way,
            lanes: copied_lanes(self.lanes.as_slice()),
        }
    }
}

impl Reply {
    ghost use Rattle.std.specs.Prelude.{◌≡◌};

    /// A copy. It takes no memory.
    pub fn copied(&self) -> Self
        ensures { result ≡ self.now }
    {
        match self {
            Reply::Done => Reply::Done,
            Reply::Row(row) => Reply::Row(row.as_ref().map(|value| copied_value(value))),
            Reply::Advanced(advanced) => Reply::Advanced(*advanced),
            Reply::Shown(shown) => Reply::Shown(shown.copied()),
        }
    }
}
