//! What is asked of the controller.
use crate::ask::{Ask, Verb};
use arrayvec::ArrayVec;
use mt_model::Op;
use mt_names::{
    KeyspaceName, MAX_TABLES, Position, RuleKey, RuleTarget, ShardList, TableName, TabletType,
    TypeSet, WorkflowName,
};
use mt_workflow::Slot;

/// An event: each is taken whole, or refused and changes nothing. (Vitess: the commands of MoveTables, in atomic steps)
#[derive(Debug, Drop, Eq, PartialEq)]
pub enum Event {
    /// A client writes to a table of a keyspace.
    Write {
        /// The keyspace.
        keyspace: KeyspaceName,
        /// The table.
        table: TableName,
        /// What is done to a row of it.
        op: Op,
    },
    /// A client reads a row of a table of a keyspace.
    Read {
        /// The keyspace.
        keyspace: KeyspaceName,
        /// The table.
        table: TableName,
        /// The key of the row.
        key: u64,
        /// The type of the tablet that is read.
        type_of: TabletType,
    },
    /// Makes a keyspace.
    AddKeyspace {
        /// The keyspace.
        keyspace: KeyspaceName,
        /// Its shards.
        shards: ShardList,
    },
    /// Makes a table in a keyspace.
    AddTable {
        /// The keyspace.
        keyspace: KeyspaceName,
        /// The table.
        table: TableName,
    },
    /// Sets the routing rule of a key, or takes it away.
    EditRule {
        /// The key.
        key: RuleKey,
        /// Where it leads, or that there is no rule.
        target: Option<RuleTarget>,
    },
    /// Makes a workflow that moves tables. (Vitess: Create of MoveTables)
    Create {
        /// The workflow.
        workflow: WorkflowName,
        /// The keyspace that the tables move from.
        source: KeyspaceName,
        /// The keyspace that they move to.
        target: KeyspaceName,
        /// The tables.
        tables: ArrayVec<TableName, MAX_TABLES>,
    },
    /// A stream of a workflow copies rows, or reads its source's log. (Vitess: VReplication, which does so on its own)
    Advance {
        /// The workflow.
        workflow: WorkflowName,
        /// Which of its streams.
        stream: Slot,
        /// The shard of the target that the stream is of, by its place among them.
        shard: u8,
        /// The position at which the stream is expected.
        at: Position,
        /// How many rows or entries at most.
        max: u16,
    },
    /// Begins to switch the traffic of some types to the target. (Vitess: SwitchTraffic of MoveTables)
    BeginSwitch {
        /// The workflow.
        workflow: WorkflowName,
        /// The types.
        types: TypeSet,
    },
    /// Begins to send the traffic of some types back to the source. (Vitess: ReverseTraffic of MoveTables)
    BeginReverse {
        /// The workflow.
        workflow: WorkflowName,
        /// The types.
        types: TypeSet,
    },
    /// Does the next step of the switch or reversal of traffic that is open. (Vitess: the actions of SwitchTraffic and of
    /// ReverseTraffic, one after the other)
    Step {
        /// The workflow.
        workflow: WorkflowName,
        /// How many of the steps are expected to stand done.
        at: u64,
    },
    /// Undoes the last step that stands done of the switch or reversal of traffic that is open, which ends where none is left.
    /// (Vitess: what a SwitchTraffic or a ReverseTraffic that fails undoes)
    Undo {
        /// The workflow.
        workflow: WorkflowName,
        /// How many of the steps are expected to stand done.
        at: u64,
    },
    /// Takes a workflow back. (Vitess: Cancel of MoveTables)
    Cancel {
        /// The workflow.
        workflow: WorkflowName,
    },
    /// Ends a workflow whose traffic is switched as a whole. (Vitess: Complete of MoveTables)
    Complete {
        /// The workflow.
        workflow: WorkflowName,
    },
    /// Tells of a workflow. (Vitess: Show of MoveTables)
    Show {
        /// The workflow.
        workflow: WorkflowName,
    },
}

impl Event {
    ghost use Rattle.std.specs.Prelude.{◌≡◌, true};
    ghost use Rattle.mt_event.specs.Asks.{is_on_a_workflow, owned};

    /// What it asks, with its names lent. It takes no memory.
    pub fn ask(&self) -> Ask<'_>
        ensures { owned result ≡ self.now }
    {
        match self {
            Event::Write {
                keyspace,
                table,
                op,
            } => Ask::Write(keyspace, table, op),
            Event::Read {
                keyspace,
                table,
                key,
                type_of,
            } => Ask::Read(keyspace, table, *key, *type_of),
            Event::AddKeyspace { keyspace, shards } => Ask::AddKeyspace(keyspace, shards),
            Event::AddTable { keyspace, table } => Ask::AddTable(keyspace, table),
            Event::EditRule { key, target } => Ask::EditRule(key, target.as_ref()),
            Event::Create {
                workflow,
                source,
                target,
                tables,
            } => Ask::Create {
                workflow,
                source,
                target,
                tables,
            },
            _ => self.ask_on_a_workflow(),
        }
    }

    /// What it asks of a workflow that is there.
    fn ask_on_a_workflow(&self) -> Ask<'_>
        requires { is_on_a_workflow self.now ≡ true }
        ensures { owned result ≡ self.now }
    {
        match self {
            Event::Advance {
                workflow,
                stream,
                shard,
                at,
                max,
            } => Ask::On(
                workflow,
                Verb::Advance {
                    stream: *stream,
                    shard: *shard,
                    at: *at,
                    max: *max,
                },
            ),
            Event::BeginSwitch { workflow, types } => Ask::On(workflow, Verb::BeginSwitch(*types)),
            Event::BeginReverse { workflow, types } => {
                Ask::On(workflow, Verb::BeginReverse(*types))
            }
            Event::Step { workflow, at } => Ask::On(workflow, Verb::Step(*at)),
            Event::Undo { workflow, at } => Ask::On(workflow, Verb::Undo(*at)),
            Event::Cancel { workflow } => Ask::On(workflow, Verb::Cancel),
            Event::Complete { workflow } => Ask::On(workflow, Verb::Complete),
            Event::Show { workflow } => Ask::On(workflow, Verb::Show),
            _ => unreachable!(),
        }
    }

    /// A copy. It takes no memory.
    pub fn copied(&self) -> Self
        ensures { result ≡ self.now }
    {
        self.ask().event()
    }
}
