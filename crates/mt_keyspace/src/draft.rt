//! A keyspace as a dump tells it, before limits are looked at.
ghost use Rattle.std.specs.Prelude.{◌≡◌, ◌≤◌, [], nat_lt, length, IfOk, IfErr, OnOk};
ghost use Rattle.std.specs.List.{IsDistinct};
ghost use Rattle.std.specs.Map.{keys_of, set_value};
ghost use Rattle.mt_names.specs.Names.{same_text};
ghost use Rattle.mt_model.specs.Limits.{most_tables_in_keyspace};
ghost use Rattle.mt_model.specs.Topology.{is_marked, new_keyspace, with_mark_place};
ghost use Rattle.mt_keyspace.specs.Load.{IsUnlessMemory, answer_with, or_bad_dump, with_new_denial, with_new_mark};

use crate::keyspace::Keyspace;
use indexmap::IndexMap;
use mt_denied::{DeniedTables, TableMarks};
use mt_model::{MAX_TABLES_IN_KEYSPACE, TopologyFault};
use mt_names::{ShardList, TableName};
use std::alloc::Global;
use std::marker::Model;

/// The shards of a keyspace, its tables and its denials, however many of these.
#[derive(Drop)]
pub struct Draft {
    shards: ShardList,
    tables: IndexMap<TableName, bool>,
    denied: IndexMap<TableName, bool>,
}

impl Model for Draft {
    ghost use Rattle.std.specs.List.{IsDistinct};
    ghost use Rattle.std.specs.Map.{keys_of};
    ghost use Rattle.mt_names.specs.Names.{same_text};
    ghost use Rattle.mt_model.specs.Topology.{KeyspaceState};

    ghost Value = { KeyspaceState };

    ghost view = { λ draft. record { cuts = draft.shards; tables = draft.tables.entries; denied = draft.denied.entries } };

    ghost invariant = { λ draft. IsDistinct same_text (keys_of draft.tables.entries) × IsDistinct same_text (keys_of draft.denied.entries) };
}

impl Draft {
    /// No table, and no denial.
    pub(crate) fn new(alloc: Global, shards: ShardList) -> Self
        ensures { result ≡ new_keyspace shards }
    {
        Draft {
            shards,
            tables: IndexMap::new(alloc),
            denied: IndexMap::new(alloc),
        }
    }

    /// Adds a table. `T6 BadDump` where it is there, `T0 Memory`.
    pub(crate) fn add_table(&mut self, table: TableName) -> Result<(), TopologyFault>
        ensures answer { IsUnlessMemory (answer_with self.new.tables result) (or_bad_dump (with_new_mark self.old.tables table)) }
        ensures denied { self.new.denied ≡ self.old.denied }
        ensures cuts { self.new.cuts ≡ self.old.cuts }
    {
        add_mark(&mut self.tables, table)
    }

    /// Denies a table. `T6 BadDump` where it isn't there, or is denied already, `T0 Memory`.
    pub(crate) fn deny(&mut self, table: TableName) -> Result<(), TopologyFault>
        ensures { IsUnlessMemory (answer_with self.new result) (or_bad_dump (with_new_denial table self.old)) }
    {
        if !self.has_table(&table) {
            return Err(TopologyFault::BadDump);
        }
        add_mark(&mut self.denied, table)
    }

    /// What is true of every draft, for a caller's proof: no table and no denial stands twice. It does nothing.
    pub(crate) fn facts(&self)
        ensures tables { IsDistinct same_text (keys_of self.now.tables) }
        ensures denied { IsDistinct same_text (keys_of self.now.denied) }
    {
        let _tables = &self.tables;
    }

    /// Whether a table is there.
    fn has_table(&self, table: &TableName) -> bool
        ensures { result ≡ is_marked self.now.tables table.now }
    {
        self.tables.get(table) == Some(&true)
    }

    /// Whether there are more tables than a keyspace may have.
    pub(crate) fn has_too_many_tables(&self) -> bool
        ensures { result ≡ nat_lt most_tables_in_keyspace (length self.now.tables) }
    {
        self.tables.len() > MAX_TABLES_IN_KEYSPACE
    }

    /// The keyspace. `T0 Memory`.
    pub(crate) fn settled(self, alloc: Global) -> Result<Keyspace, TopologyFault>
        requires { length self.tables ≤ most_tables_in_keyspace }
        ensures value { IfOk result (λ keyspace. keyspace ≡ self) }
        ensures memory { IfErr result (λ fault. fault ≡ TopologyFault.Memory) }
    {
        let Draft {
            shards,
            tables,
            denied,
        } = self;
        let denied = denials(alloc, &denied)?;
        let tables = TableMarks::from_places(tables);
        Ok(Keyspace::from_places(shards, tables, denied))
    }
}

/// Marks a name that has no mark. `T6 BadDump` where it has one, `T0 Memory`.
fn add_mark(marks: &mut IndexMap<TableName, bool>, table: TableName) -> Result<(), TopologyFault>
    requires { IsDistinct same_text (keys_of marks.old.entries) }
    ensures answer { IsUnlessMemory (answer_with marks.new.entries result) (or_bad_dump (with_new_mark marks.old.entries table)) }
    ensures distinct { IsDistinct same_text (keys_of marks.new.entries) }
{
    if marks.contains_key(&table) {
        return Err(TopologyFault::BadDump);
    }
    match marks.insert(table, true) {
        Ok(_) => Ok(()),
        Err(_) => Err(TopologyFault::Memory),
    }
}

/// A place for each denial. They find room where the tables do, as each is one of these.
fn denials(alloc: Global, places: &IndexMap<TableName, bool>) -> Result<DeniedTables, TopologyFault>
    requires { IsDistinct same_text (keys_of places.now.entries) }
    ensures value { IfOk result (λ denied. denied ≡ places.now.entries) }
    ensures memory { IfErr result (λ fault. fault ≡ TopologyFault.Memory) }
{
    let mut denied = DeniedTables::new(alloc);
    'places: for (table, is_denied) in places.iter() {
        put_denial(&mut denied, table, *is_denied)?;
    }
    Ok(denied)
}

/// Makes the place of a denial and says whether it is there.
fn put_denial(
    denied: &mut DeniedTables,
    table: &TableName,
    is_denied: bool,
) -> Result<(), TopologyFault>
    ensures value { OnOk result (denied.new ≡ set_value (same_text table.now) (with_mark_place denied.old table.now) is_denied) }
    ensures memory { IfErr result (λ fault. fault ≡ TopologyFault.Memory) }
{
    match denied.reserve(table) {
        Ok(()) => {
            denied.set(table, is_denied);
            Ok(())
        }
        Err(_) => Err(TopologyFault::Memory),
    }
}
