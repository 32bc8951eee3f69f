//! Tables that are marked or not: the denied tables, and those that are there.
ghost use Rattle.std.specs.Prelude.{◌≡◌, ◌≤◌, [], true, length, not, IfOk, IfErr};
ghost use Rattle.std.specs.List.{IsDistinct};
ghost use Rattle.std.specs.Map.{keys_of, remove_entry, set_value};
ghost use Rattle.mt_names.specs.Names.{same_text};
ghost use Rattle.mt_model.specs.Limits.{most_tables_in_keyspace};
ghost use Rattle.mt_model.specs.Topology.{is_marked, without_mark_place};
ghost use Rattle.mt_denied.specs.Denied.{AreMembersInOrder, Reserves, done, has_mark_place, is_last};

use crate::DeniedFault;
use indexmap::IndexMap;
use mt_model::MAX_TABLES_IN_KEYSPACE;
use mt_names::TableName;
use std::alloc::Global;
use std::marker::Model;
use std::mem;

/// The tables that a keyspace's primary is to refuse, as the denied tables of Vitess's shard record.
pub type DeniedTables = TableMarks;

/// Tables, each marked or not. A table is reserved before it is marked, so that to mark it takes no memory: it then has
/// a place, marked or not. There are at most 256 places.
#[derive(Drop)]
pub struct TableMarks {
    places: IndexMap<TableName, bool>,
}

impl Model for TableMarks {
    ghost use Rattle.std.specs.Prelude.{◌≤◌, length};
    ghost use Rattle.std.specs.List.{IsDistinct};
    ghost use Rattle.std.specs.Map.{keys_of};
    ghost use Rattle.mt_names.specs.Names.{same_text};
    ghost use Rattle.mt_model.specs.Limits.{most_tables_in_keyspace};
    ghost use Rattle.mt_model.specs.Topology.{Marks};

    ghost Value = { Marks };

    ghost view = { λ denied. denied.places.entries };

    ghost invariant = { λ denied. IsDistinct same_text (keys_of denied.places.entries) × (length denied.places.entries ≤ most_tables_in_keyspace) };
}

impl TableMarks {
    /// No table has a place.
    pub fn new(alloc: Global) -> Self
        ensures { result ≡ [] }
    {
        TableMarks {
            places: IndexMap::new(alloc),
        }
    }

    /// A map's places, as they are.
    pub fn from_places(places: IndexMap<TableName, bool>) -> Self
        requires distinct { IsDistinct same_text (keys_of places.entries) }
        requires few { length places.entries ≤ most_tables_in_keyspace }
        ensures { result ≡ places.entries }
    {
        TableMarks { places }
    }

    /// The places, each with its mark.
    pub fn places(&self) -> &IndexMap<TableName, bool>
        ensures places { result.now.entries ≡ self.now }
        ensures within { length result.now.entries ≤ most_tables_in_keyspace }
        ensures distinct { IsDistinct same_text (keys_of result.now.entries) }
    {
        &self.places
    }

    /// What is true of all such marks, for a caller's proof: there are at most 256 places, and no name has two. It does
    /// nothing.
    pub fn facts(&self)
        ensures within { length self.now ≤ most_tables_in_keyspace }
        ensures distinct { IsDistinct same_text (keys_of self.now) }
    {
        let _places = &self.places;
    }

    /// How many places there are.
    pub fn len(&self) -> usize
        ensures len { result ≡ length self.now }
        ensures within { length self.now ≤ most_tables_in_keyspace }
    {
        self.places.len()
    }

    /// Whether a table is marked. It takes no memory.
    pub fn contains(&self, table: &TableName) -> bool
        ensures { result ≡ is_marked self.now table.now }
    {
        self.places.get(table) == Some(&true)
    }

    /// Whether a table is reserved.
    pub fn has_place(&self, table: &TableName) -> bool
        ensures { result ≡ has_mark_place self.now table.now }
    {
        self.places.contains_key(table)
    }

    /// Makes a place for a table, which isn't marked by it. If the table has one nothing changes. `L1 Full` at a 257th
    /// place, `L0 Memory`; both leave all as it was.
    pub fn reserve(&mut self, table: &TableName) -> Result<(), DeniedFault>
        ensures { Reserves self.old table.now result self.new }
    {
        self.make_place(table)?;
        Ok(())
    }

    /// Makes a place for a table as `reserve` does, and answers whether it made one: not if the table had one. It looks a table that has
    /// none up once, and another twice.
    pub fn make_place(&mut self, table: &TableName) -> Result<bool, DeniedFault>
        ensures made { IfOk result (λ made. made ≡ not (has_mark_place self.old table.now)) }
        ensures reserves { Reserves self.old table.now (done result) self.new }
    {
        if self.len() == MAX_TABLES_IN_KEYSPACE {
            return self.place_when_full(table);
        }
        match self.places.insert(table.copied(), false) {
            Ok(None) => Ok(true),
            Ok(Some(mark)) => {
                self.set(table, mark);
                Ok(false)
            }
            Err(_) => Err(DeniedFault::Memory),
        }
    }

    /// The answer of `make_place` where there are as many places as there may be: `L1 Full`, unless the table has one.
    fn place_when_full(&self, table: &TableName) -> Result<bool, DeniedFault>
        requires { length self.now ≡ most_tables_in_keyspace }
        ensures made { IfOk result (λ made. made ≡ not (has_mark_place self.now table.now)) }
        ensures reserves { Reserves self.now table.now (done result) self.now }
    {
        if self.has_place(table) {
            Ok(false)
        } else {
            Err(DeniedFault::Full)
        }
    }

    /// Says of a reserved table whether it is marked, and answers what stood before. It takes no memory.
    pub fn set(&mut self, table: &TableName, is_denied: bool) -> bool
        requires { has_mark_place self.old table.now ≡ true }
        ensures before { result ≡ is_marked self.old table.now }
        ensures after { self.new ≡ set_value (same_text table.now) self.old is_denied }
    {
        match self.places.get_mut(table) {
            Some(mark) => mem::replace(mark, is_denied),
            None => false,
        }
    }

    /// Drops the place of a table that isn't marked. If it is marked nothing changes. It takes no memory.
    pub fn release(&mut self, table: &TableName)
        ensures { self.new ≡ without_mark_place self.old table.now }
    {
        if !self.contains(table) {
            self.drop_place(table);
        }
    }

    /// Drops the place of a table, with its mark. It takes no memory, and where the place is the last one it looks no table up.
    pub fn drop_place(&mut self, table: &TableName)
        ensures { self.new ≡ remove_entry (same_text table.now) self.old }
    {
        if self.is_last(table) {
            let others = self.places.len().saturating_sub(1);
            self.places.truncate(others);
        } else {
            self.places.shift_remove(table);
        }
    }

    /// Whether a table has the last place.
    fn is_last(&self, table: &TableName) -> bool
        ensures { result ≡ is_last self.now table.now }
    {
        match self.places.last() {
            Some((last, _)) => last == table,
            None => false,
        }
    }

    /// The marked tables in the order of their bytes, each once. `L0 Memory`.
    pub fn sorted(&self, alloc: Global) -> Result<Vec<TableName>, DeniedFault>
        ensures members { IfOk result (λ names. AreMembersInOrder self.now names.items) }
        ensures memory { IfErr result (λ fault. fault ≡ DeniedFault.Memory) }
    {
        let mut names = Vec::new(alloc);
        for (name, is_denied) in self.places.iter() {
            if *is_denied && names.push(name.copied()).is_err() {
                return Err(DeniedFault::Memory);
            }
        }
        names.sort_unstable();
        Ok(names)
    }
}
