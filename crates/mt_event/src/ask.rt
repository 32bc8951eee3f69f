//! What is asked of the controller, with its names lent.
use crate::event::Event;
use crate::tables::copied_tables;
use arrayvec::ArrayVec;
use mt_model::Op;
use mt_names::{
    KeyspaceName, MAX_TABLES, Position, RuleKey, RuleTarget, ShardList, TableName, TabletType,
    TypeSet, WorkflowName,
};
use mt_workflow::Slot;

/// What is asked of a workflow that is there. (Vitess: the commands of MoveTables, in atomic steps)
#[derive(Clone, Copy, Debug)]
pub enum Verb {
    /// A stream copies rows, or reads its source's log. (Vitess: VReplication, which does so on its own)
    Advance {
        /// Which of the streams of its shard it is.
        stream: Slot,
        /// The shard of the target that it is of, by its place among them.
        shard: u8,
        /// The position at which it is expected.
        at: Position,
        /// How many rows or entries at most.
        max: u16,
    },
    /// Begins to switch the traffic of some types to the target.
    BeginSwitch(TypeSet),
    /// Begins to send the traffic of some types back to the source.
    BeginReverse(TypeSet),
    /// Does the next step of the way that is open, of which so many are expected to stand done.
    Step(u64),
    /// Undoes the last step of that way, of which so many are expected to stand done.
    Undo(u64),
    /// Takes the workflow back.
    Cancel,
    /// Ends a workflow whose traffic is switched as a whole.
    Complete,
    /// Tells of the workflow.
    Show,
}

/// What is asked of the controller, with its names lent: each is taken whole, or refused and changes nothing. An `Event` has names of its
/// own, and is as large as sixteen of them. (Vitess: the commands of MoveTables, in atomic steps)
#[derive(Clone, Copy, Debug)]
pub enum Ask<'a> {
    /// A client writes a row of a table of a keyspace.
    Write(&'a KeyspaceName, &'a TableName, &'a Op),
    /// A client reads the row of a key of a table of a keyspace, as a tablet of a type has it.
    Read(&'a KeyspaceName, &'a TableName, u64, TabletType),
    /// Makes a keyspace of some shards.
    AddKeyspace(&'a KeyspaceName, &'a ShardList),
    /// Makes a table in a keyspace.
    AddTable(&'a KeyspaceName, &'a TableName),
    /// Sets the routing rule of a key, or takes it away.
    EditRule(&'a RuleKey, Option<&'a RuleTarget>),
    /// Makes a workflow that moves tables. (Vitess: Create of MoveTables)
    Create {
        /// The workflow.
        workflow: &'a WorkflowName,
        /// The keyspace that the tables move from.
        source: &'a KeyspaceName,
        /// The keyspace that they move to.
        target: &'a KeyspaceName,
        /// The tables.
        tables: &'a ArrayVec<TableName, MAX_TABLES>,
    },
    /// Something is asked of a workflow that is there.
    On(&'a WorkflowName, Verb),
}

impl Verb {
    ghost use Rattle.std.specs.Prelude.{◌≡◌};
    ghost use Rattle.mt_event.specs.Asks.{owned_on};

    /// The event that asks so of a workflow. It takes no memory.
    pub fn of(self, workflow: WorkflowName) -> Event
        ensures { result ≡ owned_on workflow self }
    {
        match self {
            Verb::Advance {
                stream,
                shard,
                at,
                max,
            } => Event::Advance {
                workflow,
                stream,
                shard,
                at,
                max,
            },
            Verb::BeginSwitch(types) => Event::BeginSwitch { workflow, types },
            Verb::BeginReverse(types) => Event::BeginReverse { workflow, types },
            Verb::Step(at) => Event::Step { workflow, at },
            Verb::Undo(at) => Event::Undo { workflow, at },
            Verb::Cancel => Event::Cancel { workflow },
            Verb::Complete => Event::Complete { workflow },
            Verb::Show => Event::Show { workflow },
        }
    }
}

impl Ask<'_> {
    ghost use Rattle.std.specs.Prelude.{◌≡◌};
    ghost use Rattle.mt_event.specs.Asks.{owned};

    /// The event, with names of its own. It takes no memory.
    pub fn event(&self) -> Event
        ensures { result ≡ owned self.now }
    {
        match self {
            Ask::Write(keyspace, table, op) => Event::Write {
                keyspace: keyspace.copied(),
                table: table.copied(),
                op: op.copied(),
            },
            Ask::Read(keyspace, table, key, type_of) => Event::Read {
                keyspace: keyspace.copied(),
                table: table.copied(),
                key: *key,
                type_of: *type_of,
            },
            Ask::AddKeyspace(keyspace, shards) => Event::AddKeyspace {
                keyspace: keyspace.copied(),
                shards: shards.copied(),
            },
            Ask::AddTable(keyspace, table) => Event::AddTable {
                keyspace: keyspace.copied(),
                table: table.copied(),
            },
            Ask::EditRule(key, target) => Event::EditRule {
                key: key.copied(),
                target: target.map(|target| target.copied()),
            },
            Ask::Create {
                workflow,
                source,
                target,
                tables,
            } => Event::Create {
                workflow: workflow.copied(),
                source: source.copied(),
                target: target.copied(),
                tables: copied_tables(tables.as_slice()),
            },
            Ask::On(workflow, verb) => verb.of(workflow.copied()),
        }
    }
}
