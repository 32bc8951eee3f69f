//! What the two moves are about: tables of `commerce`, which has one shard, that go to `customer`, which has two.
ghost use Rattle.std.specs.Prelude.{◌≡◌, [], None, codes};
ghost use Rattle.mt_model.specs.declared.rows.Op.TheVariants.{Insert};
ghost use Rattle.mt_caller.specs.Moves.{second};

use arrayvec::ArrayVec;
use mt_site::{Event, KeyspaceName, Op, RuleKey, ShardList, Slot, TableName, Value, WorkflowName};

/// How many shards the target has.
pub(crate) const SHARDS: u8 = 2;

/// The keyspace that the tables move from.
pub(crate) fn source() -> KeyspaceName {
    KeyspaceName::parse("commerce").unwrap()
}

/// The keyspace that they move to.
pub(crate) fn target() -> KeyspaceName {
    KeyspaceName::parse("customer").unwrap()
}

/// The table that one caller moves alone.
pub(crate) fn corder() -> TableName {
    TableName::parse("corder").unwrap()
}

/// The table that workers move.
pub(crate) fn product() -> TableName
    ensures { result ≡ codes "product" }
{
    TableName::parse("product").unwrap()
}

/// The workflow of the first move.
pub(crate) fn first() -> WorkflowName {
    WorkflowName::parse("first").unwrap()
}

/// The workflow of the second move.
pub(crate) fn second() -> WorkflowName
    ensures { result ≡ second }
{
    WorkflowName::parse("second").unwrap()
}

/// A table by its name alone, wherever it is.
pub(crate) fn by_name(table: TableName) -> RuleKey
    ensures { result ≡ record { keyspace = None; table = table; tablet_type = None } }
{
    RuleKey {
        keyspace: None,
        table,
        tablet_type: None,
    }
}

/// An insert of an empty row.
pub(crate) fn insert(key: u64) -> Op
    ensures { result ≡ Insert key (record { items = [] }) }
{
    Op::Insert(key, Value::new())
}

/// Both keyspaces, and both tables.
pub(crate) fn keyspaces_and_tables() -> [Event; 4] {
    [
        Event::AddKeyspace {
            keyspace: source(),
            shards: ShardList::unsharded(),
        },
        Event::AddKeyspace {
            keyspace: target(),
            shards: ShardList::parse("-80,80-").unwrap(),
        },
        Event::AddTable {
            keyspace: source(),
            table: corder(),
        },
        Event::AddTable {
            keyspace: source(),
            table: product(),
        },
    ]
}

/// The workflow that moves a table, and the copy of it to both shards.
pub(crate) fn create_and_copy(workflow: &WorkflowName, table: TableName) -> [Event; 3] {
    let mut tables = ArrayVec::new_in(());
    tables.push(table);
    [
        Event::Create {
            workflow: workflow.copied(),
            source: source(),
            target: target(),
            tables,
        },
        copy(workflow, 0),
        copy(workflow, 1),
    ]
}

/// The copy to one shard, of at most 100 rows. It begins behind what the source's log has then: the two rows of the first table.
fn copy(workflow: &WorkflowName, shard: u8) -> Event {
    Event::Advance {
        workflow: workflow.copied(),
        stream: Slot::Forward,
        shard,
        at: 2,
        max: 100,
    }
}
