//! Each lane of a workflow copies the rows with a key in its shard.
ghost use Rattle.std.specs.Prelude.{◌≡◌, ℕ, [], ◌∷◌, Some, IfOk};
ghost use Rattle.mt_plain.specs.Events.{forward};
ghost use Rattle.mt_stream.specs.Streams.{StreamValue};
ghost use Rattle.mt_workflow.specs.Workflows.{slot_of};

use crate::made::SHARDED;
use crate::pair::primary_with;
use mt_names::{KeyRange, KeyspaceName, TableName, TabletType, Value, WorkflowName};
use mt_primary::{Op, Primary};
use mt_topology::Topology;
use mt_workflow::{Slot, Workflow};
use std::alloc::Global;
use std::test::Fail;

/// The first key of each eighth of all keys.
static KEYS: [u64; 8] = [
    0,
    1 << 61,
    1 << 62,
    (1 << 61) + (1 << 62),
    1 << 63,
    (1 << 61) + (1 << 63),
    (1 << 62) + (1 << 63),
    (1 << 61) + (1 << 62) + (1 << 63),
];

/// A primary that has the table `t`, with a row of each eighth of all keys.
fn full_primary(alloc: Global, table: &TableName) -> Result<Primary, Fail> {
    let mut primary = primary_with(alloc, &["t"])?;
    for key in KEYS {
        if primary.write(table, Op::Insert(key, Value::new())).is_err() {
            return Err(Fail::from("no row"));
        }
    }
    Ok(primary)
}

/// A workflow `m` that moves this table from `a` to this keyspace, and whose streams begin at this position.
fn workflow_at(
    alloc: Global,
    topology: &Topology,
    target: &str,
    table: &TableName,
    position: u64,
) -> Result<Workflow, Fail>
    ensures { IfOk result (λ w. (shard : ℕ) (stream : StreamValue) → slot_of w shard forward ≡ Some stream → stream.tables ≡ table.now ∷ []) }
{
    let (source, target) = (KeyspaceName::parse("a")?, KeyspaceName::parse(target)?);
    let name = WorkflowName::parse("m")?;
    if source == target {
        return Err(Fail::from("the source is the target"));
    }
    let tables = [table.copied()];
    Ok(Workflow::new(alloc, &name, &source, &target, &tables, topology, position)?)
}

/// How many rows the forward stream of a shard copies at once, which is then copied; nothing if it doesn't.
fn rows_copied(
    workflow: &mut Workflow,
    shard: u8,
    table: &TableName,
    source: &Primary,
    sink: &mut Primary,
) -> Option<u16>
    requires { (stream : StreamValue) → slot_of workflow.old shard forward ≡ Some stream → stream.tables ≡ table.now ∷ [] }
{
    let at = workflow.slot(shard, Slot::Forward)?.position();
    if at < source.first_kept() || source.position() < at || !sink.has_table(table) {
        return None;
    }
    match workflow.advance(shard, Slot::Forward, source, sink, at, 100) {
        Some(Ok(done)) => Some(done.rows),
        _ => None,
    }
}

/// How many shards have a forward stream that has copied all.
fn copied(workflow: &Workflow) -> u8 {
    let mut count: u8 = 0;
    for shard in 0..workflow.shards() {
        if workflow
            .slot(shard, Slot::Forward)
            .is_some_and(|stream| stream.copied())
        {
            count = count.saturating_add(1);
        }
    }
    count
}

/// Whether a primary has the rows of all keys in a range, and no other.
fn has_rows_of(primary: &Primary, table: &TableName, range: &KeyRange) -> bool {
    for key in KEYS {
        let row = primary.read(table, key, TabletType::Primary);
        if matches!(row, Ok(Some(_))) != range.holds(key) {
            return false;
        }
    }
    true
}

/// Whether the stream of a shard copies the rows of its keys, so many of them, and no other stream does anything.
fn copies_its_own(alloc: Global, target: &str, shard: usize, count: u16) -> Result<bool, Fail> {
    let Ok(shard) = u8::try_from(shard) else {
        return Ok(false);
    };
    let table = TableName::parse("t")?;
    let topology = Topology::load(alloc, SHARDED.as_bytes())?;
    let source = full_primary(alloc, &table)?;
    let mut sink = primary_with(alloc, &["t"])?;
    let mut workflow = workflow_at(alloc, &topology, target, &table, source.position())?;
    let rows = rows_copied(&mut workflow, shard, &table, &source, &mut sink);
    let answer = rows == Some(count)
        && copied(&workflow) == 1
        && shard < workflow.shards()
        && has_rows_of(&sink, &table, workflow.range(shard));
    drop((topology, source, sink, workflow));
    Ok(answer)
}

/// How many of these keys each shard has of the keyspaces of one, two, three and eight shards.
static COUNTS: [(&str, &[u16]); 4] = [
    ("one", &[8]),
    ("two", &[4, 4]),
    ("three", &[2, 2, 4]),
    ("eight", &[1, 1, 1, 1, 1, 1, 1, 1]),
];

#[test]
fn each_shard_gets_the_rows_of_its_keys(rt: HostRuntime) -> Result<(), Fail> {
    for (target, counts) in COUNTS {
        for (shard, count) in counts.iter().enumerate() {
            assert!(rt;
                copies_its_own(rt.alloc(), target, shard, *count)?,
                "{target} {shard}"
            );
        }
    }
    Ok(())
}
