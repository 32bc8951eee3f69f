//! Reading the keyspaces of a dump.
ghost use Rattle.std.specs.Prelude.{◌≡◌, ◌≤◌, ◌||◌, [], false, nat_lt, length, option_map, IfOk, IfErr, OnOk};
ghost use Rattle.std.specs.List.{IsDistinct, list_any};
ghost use Rattle.std.specs.Map.{keys_of};
ghost use Rattle.indexmap.specs.IndexMap.{insert_entry};
ghost use Rattle.serde_json.specs.View.{view, items_view};
ghost use Rattle.mt_names.specs.Names.{same_text};
ghost use Rattle.mt_model.specs.Limits.{most_keyspaces};
ghost use Rattle.mt_keyspace.specs.Load.{IsUnlessMemory, answer_with, cuts_in, cuts_of_member, denials_of, has_too_many_tables, keyspaces_in, keyspaces_of, list_of, listed, name_of, or_bad_dump, range_of, ranges_read, ranges_read_of, state_of, table_of, tables_of, with_denial, with_denial_of, with_keyspace_of, with_new_keyspace, with_range_of, with_table_of};

use crate::draft::Draft;
use crate::keyspace::Keyspace;
use crate::keyspaces::Keyspaces;
use arrayvec::ArrayVec;
use indexmap::IndexMap;
use mt_model::{MAX_KEYSPACES, TopologyFault};
use mt_names::{KeyRange, KeyspaceName, MAX_SHARDS, RuleTarget, ShardList, TableName};
use serde_json::Value;
use std::alloc::Global;

/// The version of a dump: in the first one a keyspace says nothing of shards.
#[derive(Clone, Copy)]
pub enum DumpVersion {
    /// Each keyspace has one shard.
    One,
    /// Each keyspace has a list of shards.
    Two,
}

/// Keyspaces by their names, however many.
pub type Drafts = IndexMap<KeyspaceName, Draft>;

/// Key ranges, of which it isn't known whether they cover all keys.
type Ranges = ArrayVec<KeyRange, MAX_SHARDS>;

/// The values of a member, which may be missing.
fn list_of(found: Option<&Value>) -> Option<&[Value]>
    ensures { option_map (λ list. items_view list.now) result ≡ list_of (option_map (λ v. view v.now) found.entry) }
{
    match found {
        None => Some(&[]),
        Some(Value::Array(list)) => Some(list),
        Some(_) => None,
    }
}

/// The name of a table that a value is.
fn table_of(value: &Value) -> Result<TableName, TopologyFault>
    ensures { result ≡ or_bad_dump (table_of (view value.now)) }
{
    let Some(text) = value.as_str() else {
        return Err(TopologyFault::BadDump);
    };
    match TableName::parse(text) {
        Ok(table) => Ok(table),
        Err(_) => Err(TopologyFault::BadDump),
    }
}

/// The key range that a value is.
fn range_of(value: &Value) -> Result<KeyRange, TopologyFault>
    ensures { result ≡ or_bad_dump (range_of (view value.now)) }
{
    let Some(text) = value.as_str() else {
        return Err(TopologyFault::BadDump);
    };
    match KeyRange::parse(text) {
        Ok(range) => Ok(range),
        Err(_) => Err(TopologyFault::BadDump),
    }
}

/// Adds the range that a value is, where there is room for it.
fn add_range_of(ranges: &mut Ranges, value: &Value) -> Result<(), TopologyFault>
    ensures { answer_with ranges.new.items result ≡ or_bad_dump (with_range_of ranges.old.items (view value.now)) }
{
    let range = range_of(value)?;
    if ranges.is_full() {
        return Err(TopologyFault::BadDump);
    }
    ranges.push(range);
    Ok(())
}

/// The ranges that a list names.
fn ranges_of(list: &[Value]) -> Result<Ranges, TopologyFault>
    ensures { ranges_read_of result ≡ or_bad_dump (ranges_read [] (items_view list.now)) }
{
    let mut ranges = ArrayVec::new_in(());
    'values: for value in list {
        add_range_of(&mut ranges, value)?;
    }
    Ok(ranges)
}

/// The shards that a list names.
fn shards_in(list: &[Value]) -> Result<ShardList, TopologyFault>
    ensures { result ≡ or_bad_dump (cuts_in (items_view list.now)) }
{
    let ranges = ranges_of(list)?;
    match ShardList::from_ranges(ranges.as_slice()) {
        Ok(shards) => Ok(shards),
        Err(_) => Err(TopologyFault::BadDump),
    }
}

/// The shards of the keyspace that a member tells of.
fn shards_of(version: DumpVersion, found: Option<&Value>) -> Result<ShardList, TopologyFault>
    ensures { result ≡ or_bad_dump (cuts_of_member version (option_map (λ v. view v.now) found.entry)) }
{
    match (version, found) {
        (DumpVersion::One, _) | (DumpVersion::Two, None) => Ok(ShardList::unsharded()),
        (DumpVersion::Two, Some(Value::Array(list))) => shards_in(list),
        (DumpVersion::Two, Some(_)) => Err(TopologyFault::BadDump),
    }
}

/// Adds the table that a value names.
fn add_table_of(draft: &mut Draft, value: &Value) -> Result<(), TopologyFault>
    ensures answer { IsUnlessMemory (answer_with draft.new.tables result) (or_bad_dump (with_table_of draft.old.tables (view value.now))) }
    ensures denied { draft.new.denied ≡ draft.old.denied }
    ensures cuts { draft.new.cuts ≡ draft.old.cuts }
{
    let table = table_of(value)?;
    draft.add_table(table)
}

/// Adds the tables that a list names.
fn add_tables_of(draft: &mut Draft, list: &[Value]) -> Result<(), TopologyFault>
    ensures answer { IsUnlessMemory (answer_with draft.new.tables result) (or_bad_dump (tables_of draft.old.tables (items_view list.now))) }
    ensures denied { draft.new.denied ≡ draft.old.denied }
    ensures cuts { draft.new.cuts ≡ draft.old.cuts }
{
    'values: for value in list {
        add_table_of(draft, value)?;
    }
    Ok(())
}

/// The shards and the tables of the keyspace that a value tells of.
fn draft_of(alloc: Global, version: DumpVersion, value: &Value) -> Result<Draft, TopologyFault>
    ensures { IsUnlessMemory result (or_bad_dump (state_of version (view value.now))) }
{
    let shards = shards_of(version, value.get("shards"))?;
    let Some(list) = list_of(value.get("tables")) else {
        return Err(TopologyFault::BadDump);
    };
    let mut draft = Draft::new(alloc, shards);
    add_tables_of(&mut draft, list)?;
    Ok(draft)
}

/// The name of the keyspace that a value tells of.
fn name_of(value: &Value) -> Result<KeyspaceName, TopologyFault>
    ensures { result ≡ or_bad_dump (name_of (view value.now)) }
{
    let Some(Value::String(text)) = value.get("name") else {
        return Err(TopologyFault::BadDump);
    };
    match KeyspaceName::parse(text.as_str()) {
        Ok(name) => Ok(name),
        Err(_) => Err(TopologyFault::BadDump),
    }
}

/// Adds a keyspace of a name that has none.
fn add_draft(drafts: &mut Drafts, name: KeyspaceName, draft: Draft) -> Result<(), TopologyFault>
    requires { IsDistinct same_text (keys_of drafts.old.entries) }
    ensures answer { IsUnlessMemory (answer_with drafts.new.entries result) (or_bad_dump (with_new_keyspace drafts.old.entries name draft)) }
    ensures distinct { IsDistinct same_text (keys_of drafts.new.entries) }
{
    if drafts.contains_key(&name) {
        return Err(TopologyFault::BadDump);
    }
    match drafts.insert(name, draft) {
        Ok(_) => Ok(()),
        Err(_) => Err(TopologyFault::Memory),
    }
}

/// Adds the keyspace that a value tells of.
fn add_draft_of(
    drafts: &mut Drafts,
    alloc: Global,
    version: DumpVersion,
    value: &Value,
) -> Result<(), TopologyFault>
    requires { IsDistinct same_text (keys_of drafts.old.entries) }
    ensures answer { IsUnlessMemory (answer_with drafts.new.entries result) (or_bad_dump (with_keyspace_of version drafts.old.entries (view value.now))) }
    ensures distinct { IsDistinct same_text (keys_of drafts.new.entries) }
{
    let name = name_of(value)?;
    let draft = draft_of(alloc, version, value)?;
    add_draft(drafts, name, draft)
}

/// The keyspaces of a list.
fn drafts_of(alloc: Global, version: DumpVersion, list: &[Value]) -> Result<Drafts, TopologyFault>
    ensures answer { IsUnlessMemory (listed result) (or_bad_dump (keyspaces_of version [] (items_view list.now))) }
    ensures distinct { IfOk result (λ drafts. IsDistinct same_text (keys_of drafts.entries)) }
{
    let mut drafts = IndexMap::new(alloc);
    'values: for value in list {
        add_draft_of(&mut drafts, alloc, version, value)?;
    }
    Ok(drafts)
}

/// Denies a table at its keyspace.
fn deny(drafts: &mut Drafts, target: RuleTarget) -> Result<(), TopologyFault>
    requires { IsDistinct same_text (keys_of drafts.old.entries) }
    ensures answer { IsUnlessMemory (answer_with drafts.new.entries result) (or_bad_dump (with_denial drafts.old.entries target)) }
    ensures distinct { IsDistinct same_text (keys_of drafts.new.entries) }
{
    match drafts.get_mut(&target.keyspace) {
        Some(draft) => draft.deny(target.table),
        None => Err(TopologyFault::BadDump),
    }
}

/// Denies the table that a value names.
fn deny_value(drafts: &mut Drafts, value: &Value) -> Result<(), TopologyFault>
    requires { IsDistinct same_text (keys_of drafts.old.entries) }
    ensures answer { IsUnlessMemory (answer_with drafts.new.entries result) (or_bad_dump (with_denial_of drafts.old.entries (view value.now))) }
    ensures distinct { IsDistinct same_text (keys_of drafts.new.entries) }
{
    let Some(text) = value.as_str() else {
        return Err(TopologyFault::BadDump);
    };
    match RuleTarget::parse(text) {
        Ok(target) => deny(drafts, target),
        Err(_) => Err(TopologyFault::BadDump),
    }
}

/// Denies the tables that a list names.
fn deny_all(drafts: &mut Drafts, list: &[Value]) -> Result<(), TopologyFault>
    requires { IsDistinct same_text (keys_of drafts.old.entries) }
    ensures answer { IsUnlessMemory (answer_with drafts.new.entries result) (or_bad_dump (denials_of drafts.old.entries (items_view list.now))) }
    ensures distinct { IsDistinct same_text (keys_of drafts.new.entries) }
{
    'values: for value in list {
        deny_value(drafts, value)?;
    }
    Ok(())
}

/// The keyspaces of a document, with their denials.
pub fn drafts_in(
    alloc: Global,
    version: DumpVersion,
    document: &Value,
) -> Result<Drafts, TopologyFault>
    ensures answer { IsUnlessMemory (listed result) (or_bad_dump (keyspaces_in version (view document.now))) }
    ensures distinct { IfOk result (λ drafts. IsDistinct same_text (keys_of drafts.entries)) }
{
    let Some(list) = list_of(document.get("keyspaces")) else {
        return Err(TopologyFault::BadDump);
    };
    let mut drafts = drafts_of(alloc, version, list)?;
    let Some(denied) = list_of(document.get("denied")) else {
        return Err(TopologyFault::BadDump);
    };
    deny_all(&mut drafts, denied)?;
    Ok(drafts)
}

/// Whether a keyspace has more tables than it may have.
fn has_too_many_tables(drafts: &Drafts) -> bool
    ensures { result ≡ list_any has_too_many_tables drafts.now.entries }
{
    'drafts: for (_, draft) in drafts.iter() {
        if draft.has_too_many_tables() {
            return true;
        }
    }
    false
}

/// Whether there are more keyspaces than there may be, or one has too many tables.
pub fn is_too_large(drafts: &Drafts) -> bool
    ensures { result ≡ (nat_lt most_keyspaces (length drafts.now.entries) || list_any has_too_many_tables drafts.now.entries) }
{
    drafts.len() > MAX_KEYSPACES || has_too_many_tables(drafts)
}

/// Puts a keyspace under its name.
fn put_keyspace(
    keyspaces: &mut IndexMap<KeyspaceName, Keyspace>,
    name: KeyspaceName,
    keyspace: Keyspace,
) -> Result<(), TopologyFault>
    ensures entries { OnOk result (keyspaces.new.entries ≡ insert_entry same_text keyspaces.old.entries name keyspace) }
    ensures memory { IfErr result (λ fault. fault ≡ TopologyFault.Memory) }
{
    match keyspaces.insert(name, keyspace) {
        Ok(_) => Ok(()),
        Err(_) => Err(TopologyFault::Memory),
    }
}

/// The keyspaces, of which there are not too many, none with too many tables. `T0 Memory`.
pub fn settled(alloc: Global, drafts: Drafts) -> Result<Keyspaces, TopologyFault>
    requires distinct { IsDistinct same_text (keys_of drafts.entries) }
    requires few { length drafts.entries ≤ most_keyspaces }
    requires few_tables { list_any has_too_many_tables drafts.entries ≡ false }
    ensures value { IfOk result (λ keyspaces. keyspaces ≡ drafts.entries) }
    ensures memory { IfErr result (λ fault. fault ≡ TopologyFault.Memory) }
{
    let mut keyspaces = IndexMap::new(alloc);
    'drafts: for (name, draft) in drafts.into_iter() {
        draft.facts();
        let keyspace = draft.settled(alloc)?;
        put_keyspace(&mut keyspaces, name, keyspace)?;
    }
    Ok(Keyspaces::from_places(keyspaces))
}
