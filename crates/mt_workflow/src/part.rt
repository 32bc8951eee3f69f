//! The keys that a table adds to a part, one at a time.
ghost use Rattle.std.specs.Prelude.{◌≡◌, ◌<◌, Some, option_copied, slice_get};
ghost use Rattle.mt_model.specs.Part.{table_part_keys};

use mt_model::{EntryKey, key_of_name};
use mt_names::{KeyspaceName, TableName, TabletType};

/// A name as the key of its rule.
fn rule_key(
    keyspace: Option<&KeyspaceName>,
    table: &TableName,
    tablet_type: Option<TabletType>,
) -> EntryKey
    ensures { result ≡ EntryKey.Rule (record { keyspace = option_copied keyspace.entry; table = table.now; tablet_type = tablet_type }) }
{
    EntryKey::Rule(key_of_name(keyspace, table, tablet_type))
}

/// The key at a place of the fifteen that a table adds to a part: its twelve rule keys, its denial at the source and at the target, and
/// its presence at the target. It takes no memory.
pub(crate) fn table_part_key(
    source: &KeyspaceName,
    target: &KeyspaceName,
    table: &TableName,
    place: usize,
) -> EntryKey
    requires { place < 15 }
    ensures { Some result ≡ slice_get (table_part_keys source.now target.now table.now) place }
{
    match place {
        0 => rule_key(None, table, None),
        1 => rule_key(None, table, Some(TabletType::Primary)),
        2 => rule_key(None, table, Some(TabletType::Replica)),
        3 => rule_key(None, table, Some(TabletType::Rdonly)),
        4 => rule_key(Some(source), table, None),
        5 => rule_key(Some(source), table, Some(TabletType::Primary)),
        6 => rule_key(Some(source), table, Some(TabletType::Replica)),
        7 => rule_key(Some(source), table, Some(TabletType::Rdonly)),
        8 => rule_key(Some(target), table, None),
        9 => rule_key(Some(target), table, Some(TabletType::Primary)),
        10 => rule_key(Some(target), table, Some(TabletType::Replica)),
        11 => rule_key(Some(target), table, Some(TabletType::Rdonly)),
        12 => EntryKey::Denied(source.copied(), table.copied()),
        13 => EntryKey::Denied(target.copied(), table.copied()),
        14 => EntryKey::Present(target.copied(), table.copied()),
        _ => unreachable!(),
    }
}
