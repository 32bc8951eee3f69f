//! Clients' rows: they are written and read at the primary of the shard that their keys stand in.
ghost use Rattle.std.specs.Prelude.{◌≡◌};
ghost use Rattle.mt_event.specs.Reasons.{done_by};
ghost use Rattle.mt_model.specs.Topology.{TopologyState};
ghost use Rattle.mt_stands.specs.ByHand.{read_at};
ghost use Rattle.mt_primary.specs.Primaries.{shards_at};
ghost use Rattle.mt_site.specs.Applies.{WritesAndPurges};
ghost use Rattle.mt_site.specs.ByHand.{read_from};

use crate::{Primaries, Workflows};
use mt_event::Reason;
use mt_model::Op;
use mt_moves::purge_whole;
use mt_names::{KeyspaceName, TableName, TabletType, Value};

/// Where a keyspace may stand among the others, and where a table may stand in its primaries. Nothing is promised of either: there they
/// are looked for first.
#[derive(Clone, Copy)]
pub(crate) struct Hint {
    /// The place of the keyspace.
    pub keyspace: usize,
    /// The place of the table.
    pub table: usize,
}

/// A hint at which nothing stands.
pub(crate) const NOWHERE: Hint = Hint {
    keyspace: usize::MAX,
    table: usize::MAX,
};

/// Writes a row at the primary of the shard that its key stands in, wherever its keyspace stands, and purges its log as a segment gets
/// whole.
#[inline(always)]
pub(crate) fn write_row(
    primaries: &mut Primaries,
    workflows: &Workflows,
    hint: Hint,
    keyspace: &KeyspaceName,
    table: &TableName,
    op: Op,
) -> Result<(), Reason>
    ensures { (topology : TopologyState)
        → WritesAndPurges (record { topology = topology; primaries = primaries.old; workflows = workflows.now.entries }) keyspace.now table.now op (done_by result)
        (record { topology = topology; primaries = primaries.new; workflows = workflows.now.entries }) }
{
    let Some(place) = primaries.place_near(hint.keyspace, keyspace) else {
        return Err(Reason::NoKeyspace);
    };
    let shard = primaries.find(place, op.key());
    let primary = primaries.shard_mut(place, shard);
    primary.write_placed(hint.table, table, op)?;
    purge_whole(workflows, keyspace, usize::from(shard), primary);
    Ok(())
}

/// Reads a row at the primary of the shard that its key stands in, wherever its keyspace stands, as a tablet of this type has it.
#[inline(always)]
pub(crate) fn read_row(
    primaries: &Primaries,
    hint: Hint,
    keyspace: &KeyspaceName,
    table: &TableName,
    key: u64,
    tablet_type: TabletType,
) -> Result<Option<Value>, Reason>
    ensures { read_from result ≡ read_at (shards_at primaries.now keyspace.now) table.now key tablet_type }
{
    let Some(place) = primaries.place_near(hint.keyspace, keyspace) else {
        return Err(Reason::NoKeyspace);
    };
    let primary = primaries.at(place, key);
    Ok(primary.read_placed(hint.table, table, key, tablet_type)?)
}
