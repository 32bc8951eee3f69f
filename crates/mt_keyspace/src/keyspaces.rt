//! The keyspaces of a topology: what is read, written, edited and reserved at them.
ghost use Rattle.std.specs.Prelude.{◌≡◌, ◌++◌, ◌∷◌, ◌≤◌, ◌*◌, [], true, length, false, is_some, flat_map, map, option_copied, slice_get, IfOk, OnOk, string_bytes};
ghost use Rattle.std.specs.List.{AllByRecursion};
ghost use Rattle.std.specs.Map.{lookup};
ghost use Rattle.std.specs.Option.{option_map_or};
ghost use Rattle.mt_names.specs.Names.{same_text};
ghost use Rattle.mt_model.specs.Documents.{array, denied_sorted, denied_texts, keyspace_text, keyspaces_in_order, quoted};
ghost use Rattle.mt_model.specs.Limits.{most_keyspaces, most_tables_in_keyspace};
ghost use Rattle.mt_model.specs.Part.{table_routes};
ghost use Rattle.mt_model.specs.Topology.{holders, is_denied, is_present, keyspace_at, new_keyspace, sole_holder, with_denied_mark, with_denied_place, with_keyspace_state, with_new_table, with_table_mark, with_table_place, without_denied_place, without_table_place};
ghost use Rattle.mt_denied.specs.Denied.{done};
ghost use Rattle.mt_keyspace.specs.Edits.{Edits, add_keyspace_refusal, add_table_grows, add_table_refusal, answer_of, denied_place_grows, denied_place_refusal, table_place_grows, table_place_refusal};
ghost use Rattle.mt_keyspace.specs.Keyspaces.{AreKeyspaces, held_there};
ghost use Rattle.mt_keyspace.specs.Values.{IsDenialText, IsNamedKeyspace};

use crate::keyspace::Keyspace;
use crate::text::{push_denials, push_keyspaces};
use indexmap::IndexMap;
use mt_denied::DeniedFault;
use mt_model::{Entry, MAX_KEYSPACES, TopologyFault};
use mt_names::{KeyspaceName, ShardList, TableName};
use std::alloc::{AllocError, Global};
use std::marker::Model;

/// The keyspaces of a topology by their names, 32 at most.
#[derive(Drop)]
pub struct Keyspaces {
    places: IndexMap<KeyspaceName, Keyspace>,
}

impl Model for Keyspaces {
    ghost use Rattle.mt_model.specs.Topology as model;
    ghost use Rattle.mt_keyspace.specs.Keyspaces.{AreKeyspaces};

    ghost Value = { model.Keyspaces };

    ghost view = { λ keyspaces. keyspaces.places.entries };

    ghost invariant = { λ keyspaces. AreKeyspaces keyspaces.places.entries };
}

impl Keyspaces {
    /// No keyspace.
    pub fn new(alloc: Global) -> Self
        ensures { result ≡ [] }
    {
        Keyspaces {
            places: IndexMap::new(alloc),
        }
    }

    /// These keyspaces.
    pub(crate) fn from_places(places: IndexMap<KeyspaceName, Keyspace>) -> Self
        requires { AreKeyspaces places.entries }
        ensures { result ≡ places.entries }
    {
        Keyspaces { places }
    }

    /// What is true of all keyspaces, for a caller's proof: no name has two places, neither a keyspace's nor a table's nor a
    /// denial's, and there are at most 32 keyspaces. It does nothing.
    pub fn facts(&self)
        ensures { AreKeyspaces self.now }
    {
        let _places = &self.places;
    }

    /// The keyspace of a name. It takes no memory.
    pub fn get(&self, name: &KeyspaceName) -> Option<&Keyspace>
        ensures { option_copied result ≡ keyspace_at self.now name.now }
    {
        self.places.get(name)
    }

    /// Whether a keyspace has a table.
    pub fn is_present(&self, keyspace: &KeyspaceName, table: &TableName) -> bool
        ensures { result ≡ is_present self.now keyspace.now table.now }
    {
        match self.places.get(keyspace) {
            Some(keyspace) => keyspace.is_present(table),
            None => false,
        }
    }

    /// Whether a keyspace's primary is to refuse a table.
    pub fn is_denied(&self, keyspace: &KeyspaceName, table: &TableName) -> bool
        ensures { result ≡ is_denied self.now keyspace.now table.now }
    {
        match self.places.get(keyspace) {
            Some(keyspace) => keyspace.is_denied(table),
            None => false,
        }
    }

    /// Whether a denial of a table has a place in a keyspace.
    pub fn has_denied_place(&self, keyspace: &KeyspaceName, table: &TableName) -> bool
        ensures { result ≡ option_map_or (λ state. is_some (lookup (same_text table.now) state.denied)) (keyspace_at self.now keyspace.now) false }
    {
        match self.places.get(keyspace) {
            Some(keyspace) => keyspace.has_denied_place(table),
            None => false,
        }
    }

    /// Whether a table has a place in a keyspace.
    pub fn has_place(&self, keyspace: &KeyspaceName, table: &TableName) -> bool
        ensures { result ≡ option_map_or (λ state. is_some (lookup (same_text table.now) state.tables)) (keyspace_at self.now keyspace.now) false }
    {
        match self.places.get(keyspace) {
            Some(keyspace) => keyspace.has_place(table),
            None => false,
        }
    }

    /// Says of a table that has a place whether it is there, and answers what was said before. It takes no memory.
    pub fn set_present(&mut self, keyspace: &KeyspaceName, table: &TableName, mark: bool) -> bool
        requires { option_map_or (λ state. is_some (lookup (same_text table.now) state.tables)) (keyspace_at self.old keyspace.now) false ≡ true }
        ensures before { result ≡ is_present self.old keyspace.now table.now }
        ensures after { self.new ≡ with_keyspace_state (with_table_mark table.now mark) self.old keyspace.now }
    {
        let Some(keyspace) = self.places.get_mut(keyspace) else {
            return false;
        };
        keyspace.set_present(table, mark)
    }

    /// Says of a table whose denial has a place whether it is denied, and answers what was said before. It takes no memory.
    pub fn set_denied(&mut self, keyspace: &KeyspaceName, table: &TableName, mark: bool) -> bool
        requires { option_map_or (λ state. is_some (lookup (same_text table.now) state.denied)) (keyspace_at self.old keyspace.now) false ≡ true }
        ensures before { result ≡ is_denied self.old keyspace.now table.now }
        ensures after { self.new ≡ with_keyspace_state (with_denied_mark table.now mark) self.old keyspace.now }
    {
        let Some(keyspace) = self.places.get_mut(keyspace) else {
            return false;
        };
        keyspace.set_denied(table, mark)
    }

    /// The one keyspace that has a table: `T2 NoTable` if none has it, `T3 Ambiguous` if several do. It takes no memory.
    pub fn sole_holder(&self, table: &TableName) -> Result<&KeyspaceName, TopologyFault>
        ensures { held_there result table.now ≡ sole_holder (holders self.now table.now) table.now }
    {
        let mut holder = None;
        for (name, keyspace) in self.places.iter() {
            if keyspace.is_present(table) {
                if holder.is_some() {
                    return Err(TopologyFault::Ambiguous);
                }
                holder = Some(name);
            }
        }
        holder.ok_or(TopologyFault::NoTable)
    }

    /// Adds a keyspace of these shards, without tables. `T4 Exists`, `T5 Full` at a 33rd, `T0 Memory`.
    pub fn add_keyspace(
        &mut self,
        alloc: Global,
        name: &KeyspaceName,
        shards: ShardList,
    ) -> Result<(), TopologyFault>
        ensures { Edits self.old (add_keyspace_refusal self.old name.now) true
            (self.old ++ (name.now, new_keyspace shards) ∷ []) result self.new }
    {
        if self.places.contains_key(name) {
            return Err(TopologyFault::Exists);
        }
        if self.places.len() == MAX_KEYSPACES {
            return Err(TopologyFault::Full);
        }
        let keyspace = Keyspace::new(alloc, shards);
        if self.places.insert(name.copied(), keyspace).is_err() {
            return Err(TopologyFault::Memory);
        }
        Ok(())
    }

    /// Adds a table to a keyspace. `T1 NoKeyspace`, `T4 Exists`, `T5 Full` at a 257th place of the keyspace, `T0 Memory`.
    pub fn add_table(
        &mut self,
        keyspace: &KeyspaceName,
        table: &TableName,
    ) -> Result<(), TopologyFault>
        ensures { Edits self.old (add_table_refusal self.old keyspace.now table.now) (add_table_grows self.old keyspace.now table.now)
            (with_keyspace_state (with_new_table table.now) self.old keyspace.now) result self.new }
    {
        let Some(keyspace) = self.places.get_mut(keyspace) else {
            return Err(TopologyFault::NoKeyspace);
        };
        keyspace.add_table(table)
    }

    /// Makes a place for a table in a keyspace that is there, and answers whether it made one: where the table has one nothing changes.
    /// `L1 Full` at a 257th place of the keyspace, `L0 Memory`; both leave all as it was. It looks a table that has none up once.
    pub fn make_place(
        &mut self,
        keyspace: &KeyspaceName,
        table: &TableName,
    ) -> Result<bool, DeniedFault>
        requires { is_some (keyspace_at self.old keyspace.now) ≡ true }
        ensures made { IfOk result (λ made. made ≡ table_place_grows self.old keyspace.now table.now) }
        ensures edits { Edits self.old (table_place_refusal self.old keyspace.now table.now) (table_place_grows self.old keyspace.now table.now)
            (with_keyspace_state (with_table_place table.now) self.old keyspace.now) (answer_of (done result)) self.new }
    {
        let Some(keyspace) = self.places.get_mut(keyspace) else {
            unreachable!();
        };
        keyspace.make_place(table)
    }

    /// Makes a place for the denial of a table in a keyspace that is there, and answers whether it made one: where the denial has one
    /// nothing changes. `L1 Full` at a 257th place of the keyspace, `L0 Memory`; both leave all as it was. It looks a denial that has none
    /// up once.
    pub fn make_denied_place(
        &mut self,
        keyspace: &KeyspaceName,
        table: &TableName,
    ) -> Result<bool, DeniedFault>
        requires { is_some (keyspace_at self.old keyspace.now) ≡ true }
        ensures made { IfOk result (λ made. made ≡ denied_place_grows self.old keyspace.now table.now) }
        ensures edits { Edits self.old (denied_place_refusal self.old keyspace.now table.now) (denied_place_grows self.old keyspace.now table.now)
            (with_keyspace_state (with_denied_place table.now) self.old keyspace.now) (answer_of (done result)) self.new }
    {
        let Some(keyspace) = self.places.get_mut(keyspace) else {
            unreachable!();
        };
        keyspace.make_denied_place(table)
    }

    /// Drops the place of a table that isn't there.
    pub fn release_table(&mut self, keyspace: &KeyspaceName, table: &TableName)
        ensures { self.new ≡ with_keyspace_state (without_table_place table.now) self.old keyspace.now }
    {
        let Some(keyspace) = self.places.get_mut(keyspace) else {
            return;
        };
        keyspace.release_table(table);
    }

    /// Drops the place of a denial that isn't there.
    pub fn release_denial(&mut self, keyspace: &KeyspaceName, table: &TableName)
        ensures { self.new ≡ with_keyspace_state (without_denied_place table.now) self.old keyspace.now }
    {
        let Some(keyspace) = self.places.get_mut(keyspace) else {
            return;
        };
        keyspace.release_denial(table);
    }

    /// How many tables of all keyspaces are there. It takes no memory; it looks at each place.
    pub fn route_len(&self) -> usize
        ensures value { result ≡ length (flat_map table_routes self.now) }
        ensures within { result ≤ most_keyspaces * most_tables_in_keyspace }
    {
        let mut count = 0;
        for (_, keyspace) in self.places.iter() {
            count += keyspace.table_count();
        }
        count
    }

    /// The entry of a table that is there, by its index among those of all keyspaces. It takes no memory; it looks at each
    /// place before it.
    pub fn route_entry(&self, index: usize) -> Option<Entry>
        ensures { result ≡ slice_get (flat_map table_routes self.now) index }
    {
        let mut before = index;
        for (name, keyspace) in self.places.iter() {
            let count = keyspace.table_count();
            if before < count {
                return keyspace.table_entry(name, before);
            }
            before -= count;
        }
        None
    }

    /// Adds the entries of all tables that are there to a list, keyspace by keyspace; it looks at each place once. Refused only when out of
    /// memory, and then some of them are added.
    pub fn push_routes(&self, list: &mut Vec<Entry>) -> Result<(), AllocError>
        ensures { OnOk result (list.new.items ≡ list.old.items ++ flat_map table_routes self.now) }
    {
        for (name, keyspace) in self.places.iter() {
            keyspace.push_routes(name, list)?;
        }
        Ok(())
    }

    /// Appends the list of the keyspaces with their shards and their tables, in the order of their names.
    pub fn push_list(&self, alloc: Global, text: &mut String) -> Result<(), AllocError>
        ensures text { OnOk result (string_bytes text.new ≡ string_bytes text.old
            ++ array (map keyspace_text (keyspaces_in_order (record { rules = []; keyspaces = self.now })))) }
        ensures named { OnOk result (AllByRecursion IsNamedKeyspace self.now) }
    {
        push_keyspaces(alloc, text, &self.places)
    }

    /// Appends the list of the texts of all denials, in their order.
    pub fn push_denials(&self, alloc: Global, text: &mut String) -> Result<(), AllocError>
        ensures text { OnOk result (string_bytes text.new ≡ string_bytes text.old ++ array (map quoted (denied_sorted (record { rules = []; keyspaces = self.now })))) }
        ensures named { OnOk result (AllByRecursion IsDenialText (flat_map denied_texts self.now)) }
    {
        push_denials(alloc, text, &self.places)
    }
}
