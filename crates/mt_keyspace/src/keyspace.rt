//! One keyspace of a topology.
ghost use Rattle.std.specs.Prelude.{◌≡◌, ◌&&◌, ◌==◌, ◌≤◌, ◌++◌, [], Some, true, false, length, is_some, map, slice_get, IfOk, OnOk, string_bytes};
ghost use Rattle.std.specs.List.{AllByRecursion, IsDistinct};
ghost use Rattle.std.specs.Map.{keys_of, lookup};
ghost use Rattle.mt_names.specs.Keys.{qualifier_text};
ghost use Rattle.mt_names.specs.Names.{IsTableName, same_text};
ghost use Rattle.mt_names.specs.Shards.{AreCuts, ranges_of};
ghost use Rattle.mt_model.specs.Limits.{most_tables_in_keyspace};
ghost use Rattle.mt_model.specs.Part.{table_routes};
ghost use Rattle.mt_model.specs.Topology.{is_marked, new_keyspace, with_table_mark, with_denied_mark, with_new_table, with_table_place, without_table_place, with_denied_place, without_denied_place};
ghost use Rattle.mt_denied.specs.Denied.{done};
ghost use Rattle.mt_keyspace.specs.Edits.{Edits, answer_of, new_table_refusal, lacks_table_place};
ghost use Rattle.mt_keyspace.specs.Room.{has_mark_room, lacking_marks, lacks_mark_place, mark_place_refusal};
ghost use Rattle.mt_model.specs.Documents.{array, marked, quoted, shard_texts, tables_in_order};
ghost use Rattle.mt_rules.specs.Written.{written_text};
ghost use Rattle.mt_keyspace.specs.Values.{IsReadRange};
ghost use Rattle.mt_keyspace.specs.Written.{items_behind};

use crate::{routes, text};
use mt_denied::{DeniedFault, DeniedTables, TableMarks};
use mt_model::{Entry, MAX_TABLES_IN_KEYSPACE, TopologyFault};
use mt_names::{KeyspaceName, ShardList, TableName};
use mt_rules::WrittenItem;
use std::alloc::{AllocError, Global};
use std::marker::Model;

/// The shards of a keyspace, its tables, each there or not, and those that its primary is to refuse.
#[derive(Drop)]
pub struct Keyspace {
    shards: ShardList,
    tables: TableMarks,
    denied: DeniedTables,
}

impl Model for Keyspace {
    ghost use Rattle.mt_model.specs.Topology.{KeyspaceState};

    ghost Value = { KeyspaceState };

    ghost view = { λ keyspace. record { cuts = keyspace.shards; tables = keyspace.tables; denied = keyspace.denied } };
}

impl Keyspace {
    /// A keyspace of these shards, without a table and without a denial.
    pub(crate) fn new(alloc: Global, shards: ShardList) -> Self
        ensures { result ≡ new_keyspace shards }
    {
        Keyspace {
            shards,
            tables: TableMarks::new(alloc),
            denied: DeniedTables::new(alloc),
        }
    }

    /// A keyspace with these places.
    pub(crate) fn from_places(shards: ShardList, tables: TableMarks, denied: DeniedTables) -> Self
        ensures { result ≡ record { cuts = shards; tables = tables; denied = denied } }
    {
        Keyspace {
            shards,
            tables,
            denied,
        }
    }

    /// What is true of every keyspace, for a caller's proof: it has at most 256 places for tables, and no table has two; its shards cover
    /// all keys. It does nothing.
    pub(crate) fn facts(&self)
        ensures tables { IsDistinct same_text (keys_of self.now.tables) }
        ensures few { length self.now.tables ≤ most_tables_in_keyspace }
        ensures cuts { AreCuts self.now.cuts }
    {
        self.tables.facts();
        self.shards.facts();
    }

    /// The shards. It takes no memory.
    pub fn shards(&self) -> &ShardList
        ensures { result.now ≡ self.now.cuts }
    {
        &self.shards
    }

    /// Whether the keyspace has a table.
    pub(crate) fn is_present(&self, table: &TableName) -> bool
        ensures { result ≡ is_marked self.now.tables table.now }
    {
        self.tables.contains(table)
    }

    /// Whether the keyspace's primary is to refuse a table.
    pub(crate) fn is_denied(&self, table: &TableName) -> bool
        ensures { result ≡ is_marked self.now.denied table.now }
    {
        self.denied.contains(table)
    }

    /// Whether the denial of a table has a place.
    pub(crate) fn has_denied_place(&self, table: &TableName) -> bool
        ensures { result ≡ is_some (lookup (same_text table.now) self.now.denied) }
    {
        self.denied.has_place(table)
    }

    /// Whether a table has a place.
    pub(crate) fn has_place(&self, table: &TableName) -> bool
        ensures { result ≡ is_some (lookup (same_text table.now) self.now.tables) }
    {
        self.tables.has_place(table)
    }

    /// Says of a table that has a place whether it is there, and answers what was said before. It takes no memory.
    pub(crate) fn set_present(&mut self, table: &TableName, is_present: bool) -> bool
        requires { is_some (lookup (same_text table.now) self.old.tables) ≡ true }
        ensures before { result ≡ is_marked self.old.tables table.now }
        ensures after { self.new ≡ with_table_mark table.now is_present self.old }
    {
        self.tables.set(table, is_present)
    }

    /// Says of a table whose denial has a place whether it is denied, and answers what was said before. It takes no
    /// memory.
    pub(crate) fn set_denied(&mut self, table: &TableName, is_denied: bool) -> bool
        requires { is_some (lookup (same_text table.now) self.old.denied) ≡ true }
        ensures before { result ≡ is_marked self.old.denied table.now }
        ensures after { self.new ≡ with_denied_mark table.now is_denied self.old }
    {
        self.denied.set(table, is_denied)
    }

    /// Whether there is room for the places that tables lack.
    pub fn has_room_for_tables(&self, tables: &[TableName]) -> bool
        ensures { result ≡ has_mark_room self.now.tables tables.now }
    {
        has_room(&self.tables, tables)
    }

    /// Whether there is room for the places that denials of tables lack.
    pub fn has_room_for_denials(&self, tables: &[TableName]) -> bool
        ensures { result ≡ has_mark_room self.now.denied tables.now }
    {
        has_room(&self.denied, tables)
    }

    /// Makes a place for a table, which isn't there by it, and answers whether it made one. Where the table has one nothing
    /// changes. `L1 Full` at a 257th place, `L0 Memory`.
    pub(crate) fn make_place(&mut self, table: &TableName) -> Result<bool, DeniedFault>
        ensures made { IfOk result (λ made. made ≡ lacks_mark_place self.old.tables table.now) }
        ensures edits { Edits self.old (mark_place_refusal self.old.tables table.now) (lacks_mark_place self.old.tables table.now) (with_table_place table.now self.old) (answer_of (done result)) self.new }
    {
        self.tables.make_place(table)
    }

    /// Makes a place for the denial of a table, which isn't denied by it, and answers whether it made one. Where the denial
    /// has one nothing changes. `L1 Full` at a 257th place, `L0 Memory`.
    pub(crate) fn make_denied_place(&mut self, table: &TableName) -> Result<bool, DeniedFault>
        ensures made { IfOk result (λ made. made ≡ lacks_mark_place self.old.denied table.now) }
        ensures edits { Edits self.old (mark_place_refusal self.old.denied table.now) (lacks_mark_place self.old.denied table.now) (with_denied_place table.now self.old) (answer_of (done result)) self.new }
    {
        self.denied.make_place(table)
    }

    /// Drops the place of a table that isn't there. It takes no memory.
    pub(crate) fn release_table(&mut self, table: &TableName)
        ensures { self.new ≡ without_table_place table.now self.old }
    {
        self.tables.release(table);
    }

    /// Drops the place of a denial that isn't there. It takes no memory.
    pub(crate) fn release_denial(&mut self, table: &TableName)
        ensures { self.new ≡ without_denied_place table.now self.old }
    {
        self.denied.release(table);
    }

    /// How many tables are there.
    pub(crate) fn table_count(&self) -> usize
        ensures value { result ≡ length (marked self.now.tables) }
        ensures within { result ≤ most_tables_in_keyspace }
    {
        routes::table_count(self.tables.places())
    }

    /// The entry of a table that is there, by its index among those.
    pub(crate) fn table_entry(&self, name: &KeyspaceName, index: usize) -> Option<Entry>
        ensures { result ≡ slice_get (table_routes (name.now, self.now)) index }
    {
        routes::table_entry(name, self.tables.places(), index)
    }

    /// Adds the entries of the tables that are there to a list, in the order of their places.
    pub(crate) fn push_routes(
        &self,
        name: &KeyspaceName,
        list: &mut Vec<Entry>,
    ) -> Result<(), AllocError>
        ensures { OnOk result (list.new.items ≡ list.old.items ++ table_routes (name.now, self.now)) }
    {
        routes::push_routes(name, self.tables.places(), list)
    }

    /// Appends the list of the shards, in the order of their ranges.
    pub(crate) fn push_shards(&self, text: &mut String) -> Result<(), AllocError>
        ensures text { OnOk result (string_bytes text.new ≡ string_bytes text.old ++ array (map quoted (shard_texts self.now))) }
        ensures read { OnOk result (AllByRecursion IsReadRange (ranges_of self.now.cuts)) }
    {
        text::push_ranges(text, self.shards.as_slice())
    }

    /// Appends the list of the tables that are there, in the order of their names.
    pub(crate) fn push_tables(&self, alloc: Global, text: &mut String) -> Result<(), AllocError>
        ensures text { OnOk result (string_bytes text.new ≡ string_bytes text.old ++ array (map quoted (tables_in_order self.now))) }
        ensures named { OnOk result (AllByRecursion IsTableName (tables_in_order self.now)) }
    {
        text::push_tables(alloc, text, self.tables.places())
    }

    /// Adds the denied tables, each behind the name of the keyspace, in the order of their places.
    pub(crate) fn add_denied(
        &self,
        items: &mut Vec<WrittenItem>,
        name: &KeyspaceName,
    ) -> Result<(), AllocError>
        ensures texts { OnOk result (map written_text items.new.items ≡ map written_text items.old.items ++ items_behind (qualifier_text (Some name.now)) self.now.denied) }
        ensures named { OnOk result (AllByRecursion IsTableName (marked self.now.denied)) }
    {
        text::add_names(items, Some(name), self.denied.places())
    }

    /// Adds a table. `T4 Exists`, `T5 Full` at a 257th place, `T0 Memory`.
    pub(crate) fn add_table(&mut self, table: &TableName) -> Result<(), TopologyFault>
        ensures { Edits self.old (new_table_refusal self.old table.now) (lacks_table_place self.old table.now) (with_new_table table.now self.old) result self.new }
    {
        if self.is_present(table) {
            return Err(TopologyFault::Exists);
        }
        match self.tables.reserve(table) {
            Ok(()) => {
                self.tables.set(table, true);
                Ok(())
            }
            Err(DeniedFault::Full) => Err(TopologyFault::Full),
            Err(DeniedFault::Memory) => Err(TopologyFault::Memory),
        }
    }
}

/// Whether there is room for the places that some tables lack. No table is looked for where there is room for all.
fn has_room(places: &TableMarks, tables: &[TableName]) -> bool
    ensures { result ≡ has_mark_room places.now tables.now }
{
    let room = MAX_TABLES_IN_KEYSPACE - places.len();
    tables.len() <= room || lacking(places, tables) <= room
}

/// How many of some tables lack a place.
fn lacking(places: &TableMarks, tables: &[TableName]) -> usize
    ensures { result ≡ lacking_marks places.now tables.now }
{
    tables
        .iter()
        .filter(|table| !places.has_place(table))
        .count()
}
