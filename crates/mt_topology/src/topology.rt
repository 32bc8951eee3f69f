//! The topology as one value.
ghost use Rattle.std.specs.Prelude.{◌≡◌, ◌<◌, ◌≤◌, true, Some, IfOk, IfErr, length, map, option_copied, option_map, slice_get, string_bytes};
ghost use Rattle.std.specs.List.{AllByRecursion};
ghost use Rattle.mt_model.specs.Limits.{most_keyspaces};
ghost use Rattle.mt_model.specs.Topology.{HasDistinctPlaces, empty_topology, has_place, is_denied, is_present, key_of, keyspace_at, resolution, routes_of, rule_at, value_of, with_entry, with_keyspace, with_keyspace_state, with_rule, with_table, without_table_place};
ghost use Rattle.mt_model.specs.Part.{with_entries};
ghost use Rattle.mt_keyspace.specs.Load.{IsUnlessMemory};
ghost use Rattle.mt_topology.specs.Dump.{topology_of_text};
ghost use Rattle.mt_topology.specs.Says.{HasDeniedTables, Says};
ghost use Rattle.mt_topology.specs.Values.{dump_value};
ghost use Rattle.mt_topology.specs.Versions.{IsUnsharded, dump_text_one};
ghost use Rattle.serde_json.specs.Written.{compact_text};
ghost use Rattle.mt_model.specs.Documents.{dump_text};
ghost use Rattle.mt_keyspace.specs.Edits.{Edits, add_keyspace_refusal, add_table_grows, add_table_refusal};
ghost use Rattle.mt_topology.specs.Edits.{edit_rule_grows, edit_rule_refusal};
ghost use Rattle.mt_topology.specs.Leads.{lent_target};
ghost use Rattle.mt_rules.specs.Rules.{four_keys, four_rules, lent_rule, of_type};

mod part;

use crate::rules::{put_rule, rule_for, take_rule};
use crate::{load, routes, write};
use mt_keyspace::{Keyspace, Keyspaces};
use mt_model::{Entry, EntryKey, TopologyFault};
use mt_names::{KeyspaceName, RuleKey, RuleTarget, ShardList, TableName, TabletType};
use mt_rules::RoutingRules;
use std::alloc::{AllocError, Global};
use std::marker::Model;

/// The topology: routing rules, and keyspaces with their tables and denials. What is written has a place before, so a write takes
/// no memory.
#[derive(Drop)]
pub struct Topology {
    alloc: Global,
    rules: RoutingRules,
    keyspaces: Keyspaces,
}

impl Model for Topology {
    ghost use Rattle.mt_model.specs.Topology.{TopologyState};

    ghost Value = { TopologyState };

    ghost view = { λ topology. record { rules = topology.rules; keyspaces = topology.keyspaces } };
}

impl Topology {
    /// A topology without keyspaces and rules.
    pub fn new(alloc: Global) -> Self
        ensures { result ≡ empty_topology }
    {
        Topology {
            alloc,
            rules: RoutingRules::new(alloc),
            keyspaces: Keyspaces::new(alloc),
        }
    }

    /// Reads a dump: an object in which `version` is the number 1 or 2, `keyspaces` a list of objects with a `name`
    /// and a list of `tables`, `denied` a list of texts `keyspace.table`, and `rules` a list as that of routing rules. In version 2 a
    /// keyspace may have a list of `shards`, the texts of their key ranges in order; one without it has the one shard `-`, as each
    /// keyspace has in version 1, where `shards` is ignored. Any other missing list is empty, and other members are ignored; of a member
    /// that stands twice the last one counts.
    /// `T6 BadDump` of any fault of the text: no JSON, another shape or version, a bad name, a repetition, shards of which one is no key
    /// range, that are none or more than eight, or that don't cover all keys once, a denied table that isn't in its keyspace. Only where there is none, `T5 Full` past 32 keyspaces, past 256 tables of a keyspace, or
    /// past 4,096 rules. `T0 Memory`.
    pub fn load(alloc: Global, text: &[u8]) -> Result<Self, TopologyFault>
        ensures { IsUnlessMemory result (topology_of_text text.now) }
    {
        let (rules, keyspaces) = load::parts_of_text(alloc, text)?;
        Ok(Topology {
            alloc,
            rules,
            keyspaces,
        })
    }

    /// The dump of the topology, version 2, as `load` reads it: the compact text that `serde_json` writes of its value; the keyspaces sorted
    /// by their names, each with its shards in the order of their ranges, and its
    /// tables sorted; the denied tables sorted by the bytes of their texts `keyspace.table`; the rules as routing rules are
    /// written. Places without a rule, and tables that aren't there or denied, are left out. Where each denied table is
    /// there in its keyspace, `load` reads it back as the same topology: it has the same keyspaces with the same shards, and says the
    /// same of every entry. Where each keyspace has one shard it is read as what version 1 told of the topology. `T0 Memory`.
    pub fn dump(&self, alloc: Global) -> Result<String, TopologyFault>
        ensures text { IfOk result (λ text. string_bytes text ≡ dump_text self.now) }
        ensures value { IfOk result (λ text. string_bytes text ≡ compact_text (dump_value self.now)) }
        ensures says { IfOk result (λ text. HasDeniedTables self.now → Says (string_bytes text) self.now) }
        ensures versions { IfOk result (λ text. IsUnsharded self.now → topology_of_text (dump_text_one self.now) ≡ topology_of_text (string_bytes text)) }
        ensures memory { IfErr result (λ fault. fault ≡ TopologyFault.Memory) }
    {
        match write::text_of_parts(alloc, &self.rules, &self.keyspaces) {
            Ok(text) => Ok(text),
            Err(_) => Err(TopologyFault::Memory),
        }
    }

    /// The routing rules. It takes no memory.
    pub fn rules(&self) -> &RoutingRules
        ensures { result.now ≡ self.now.rules }
    {
        &self.rules
    }

    /// What is true of every topology, for a caller's proof: no name and no key has two places, and there are at most 32
    /// keyspaces. It does nothing.
    pub fn facts(&self)
        ensures distinct { HasDistinctPlaces self.now }
        ensures few { length self.now.keyspaces ≤ most_keyspaces }
    {
        self.rules.facts();
        self.keyspaces.facts();
    }

    /// All routes, each once: first the rules that stand, in the order of their keys, then the tables that are there, keyspace by
    /// keyspace. It looks at each place once to count them, and once to list them; the rules are then put in order. Refused only when out of memory. (Vitess: the
    /// serving VSchema)
    pub fn routes(&self, alloc: Global) -> Result<Vec<Entry>, AllocError>
        ensures { IfOk result (λ list. list.items ≡ routes_of self.now) }
    {
        let mut list = Vec::with_capacity(alloc, self.route_len())?;
        self.rules.push_routes(&mut list)?;
        self.keyspaces.push_routes(&mut list)?;
        Ok(list)
    }

    /// How many routes there are: the rules that stand, and the tables that are there. A denial is none, nor is a place
    /// that holds nothing. It takes no memory; it looks at each place.
    pub fn route_len(&self) -> usize
        ensures { result ≡ length (routes_of self.now) }
    {
        routes::count(&self.rules, &self.keyspaces)
    }

    /// A route by its index: first the rules in the order of their keys, then the tables, keyspace by keyspace. No two
    /// routes have the same key. It takes no memory; for a table it looks at each place before it, for a rule at all places of
    /// rules once for each of them up to its own, so that a walk over all routes wants `routes`.
    pub fn route_entry(&self, index: usize) -> Entry
        requires { index < length (routes_of self.now) }
        ensures { Some result ≡ slice_get (routes_of self.now) index }
    {
        routes::at(&self.rules, &self.keyspaces, index).unwrap()
    }

    /// What the topology says at a key. It takes no memory.
    pub fn value(&self, key: &EntryKey) -> Entry
        ensures { result ≡ value_of self.now key.now }
    {
        match key {
            EntryKey::Rule(key) => {
                Entry::Rule(key.copied(), self.rules.get(key).map(RuleTarget::copied))
            }
            EntryKey::Denied(keyspace, table) => Entry::Denied(
                keyspace.copied(),
                table.copied(),
                self.keyspaces.is_denied(keyspace, table),
            ),
            EntryKey::Present(keyspace, table) => Entry::Present(
                keyspace.copied(),
                table.copied(),
                self.keyspaces.is_present(keyspace, table),
            ),
        }
    }

    /// Whether a keyspace has a table, as `value` says it of that entry. It takes no memory, and copies no key.
    #[inline(always)]
    pub fn is_present(&self, keyspace: &KeyspaceName, table: &TableName) -> bool
        ensures { result ≡ is_present self.now.keyspaces keyspace.now table.now }
    {
        self.keyspaces.is_present(keyspace, table)
    }

    /// Whether a keyspace's primary is to refuse a table, as `value` says it of that entry. It takes no memory, and copies no key.
    #[inline(always)]
    pub fn is_denied(&self, keyspace: &KeyspaceName, table: &TableName) -> bool
        ensures { result ≡ is_denied self.now.keyspaces keyspace.now table.now }
    {
        self.keyspaces.is_denied(keyspace, table)
    }

    /// Whether a key has a place, so that its entry can be written. It takes no memory.
    pub fn has_place(&self, key: &EntryKey) -> bool
        ensures { result ≡ has_place self.now key.now }
    {
        match key {
            EntryKey::Rule(key) => self.rules.has_place(key),
            EntryKey::Denied(keyspace, table) => self.keyspaces.has_denied_place(keyspace, table),
            EntryKey::Present(keyspace, table) => self.keyspaces.has_place(keyspace, table),
        }
    }

    /// Writes an entry that has a place, and answers what stood before. It takes no memory.
    pub fn write(&mut self, entry: Entry) -> Entry
        requires { has_place self.old (key_of entry) ≡ true }
        ensures before { result ≡ value_of self.old (key_of entry) }
        ensures after { self.new ≡ with_entry self.old entry }
    {
        match entry {
            Entry::Rule(key, target) => {
                let before = self.rules.set(&key, target);
                Entry::Rule(key, before)
            }
            Entry::Denied(keyspace, table, mark) => {
                let before = self.keyspaces.set_denied(&keyspace, &table, mark);
                Entry::Denied(keyspace, table, before)
            }
            Entry::Present(keyspace, table, mark) => {
                let before = self.keyspaces.set_present(&keyspace, &table, mark);
                Entry::Present(keyspace, table, before)
            }
        }
    }

    /// Writes the rule of a key that has a place, by the names of where it leads, or takes it away. It takes no memory.
    pub fn put_rule(&mut self, key: &RuleKey, rule: Option<(&KeyspaceName, &TableName)>)
        requires { has_place self.old (EntryKey.Rule key.now) ≡ true }
        ensures { self.new ≡ with_entry self.old (Entry.Rule key.now (lent_rule rule.entry)) }
    {
        self.rules.put(key, rule);
    }

    /// Writes the rules of a name's four keys, each of which has a place, one after the other: that for all types, those of primary,
    /// replica and rdonly, each by the names of where it leads, or none. The type of the key is not looked at. It takes no memory, and
    /// looks the name up once.
    pub fn put_name(
        &mut self,
        name: &RuleKey,
        plain: Option<(&KeyspaceName, &TableName)>,
        primary: Option<(&KeyspaceName, &TableName)>,
        replica: Option<(&KeyspaceName, &TableName)>,
        rdonly: Option<(&KeyspaceName, &TableName)>,
    )
        requires { AllByRecursion (λ key. has_place self.old (EntryKey.Rule key) ≡ true) (four_keys name.now) }
        ensures { self.new ≡ with_entries self.old (map (λ r. Entry.Rule r.0 r.1) (four_rules name.now (lent_rule plain.entry) (lent_rule primary.entry) (lent_rule replica.entry) (lent_rule rdonly.entry))) }
    {
        self.rules.put_name(name, plain, primary, replica, rdonly);
    }

    /// Writes the rules of two keys of a name, each of which has a place, one after the other, by the names of where they lead, or takes
    /// them away, and leaves the rules before. The type of the key is not looked at. It takes no memory, and looks the name up twice.
    pub fn exchange_two(
        &mut self,
        name: &RuleKey,
        types: (Option<TabletType>, Option<TabletType>),
        rules: (
            Option<(&KeyspaceName, &TableName)>,
            Option<(&KeyspaceName, &TableName)>,
        ),
        first: &mut Option<RuleTarget>,
        second: &mut Option<RuleTarget>,
    )
        requires first { has_place self.old (EntryKey.Rule (of_type name.now types.0)) ≡ true }
        requires second { has_place self.old (EntryKey.Rule (of_type name.now types.1)) ≡ true }
        ensures first { first.new ≡ rule_at self.old.rules (of_type name.now types.0) }
        ensures second { second.new ≡ rule_at (with_entry self.old (Entry.Rule (of_type name.now types.0) (lent_rule rules.entry.0))).rules (of_type name.now types.1) }
        ensures after { self.new ≡ with_entry (with_entry self.old (Entry.Rule (of_type name.now types.0) (lent_rule rules.entry.0))) (Entry.Rule (of_type name.now types.1) (lent_rule rules.entry.1)) }
    {
        self.rules.exchange_two(name, types, rules, first, second);
    }

    /// Writes whether a keyspace's primary is to refuse a table, where that has a place. It takes no memory.
    pub fn put_denied(&mut self, keyspace: &KeyspaceName, table: &TableName, is_denied: bool)
        requires { has_place self.old (EntryKey.Denied keyspace.now table.now) ≡ true }
        ensures { self.new ≡ with_entry self.old (Entry.Denied keyspace.now table.now is_denied) }
    {
        self.keyspaces.set_denied(keyspace, table, is_denied);
    }

    /// Writes whether a keyspace has a table, where that has a place. It takes no memory.
    pub fn put_present(&mut self, keyspace: &KeyspaceName, table: &TableName, is_present: bool)
        requires { has_place self.old (EntryKey.Present keyspace.now table.now) ≡ true }
        ensures { self.new ≡ with_entry self.old (Entry.Present keyspace.now table.now is_present) }
    {
        self.keyspaces.set_present(keyspace, table, is_present);
    }

    /// Writes whether a keyspace's primary is to refuse a table, where that has a place, and answers what stood before. It takes no
    /// memory.
    pub fn exchange_denied(
        &mut self,
        keyspace: &KeyspaceName,
        table: &TableName,
        mark: bool,
    ) -> bool
        requires { has_place self.old (EntryKey.Denied keyspace.now table.now) ≡ true }
        ensures before { result ≡ is_denied self.old.keyspaces keyspace.now table.now }
        ensures after { self.new ≡ with_entry self.old (Entry.Denied keyspace.now table.now mark) }
    {
        self.keyspaces.set_denied(keyspace, table, mark)
    }

    /// Writes whether a keyspace has a table, where that has a place, and answers what stood before. It takes no memory.
    pub fn exchange_present(
        &mut self,
        keyspace: &KeyspaceName,
        table: &TableName,
        mark: bool,
    ) -> bool
        requires { has_place self.old (EntryKey.Present keyspace.now table.now) ≡ true }
        ensures before { result ≡ is_present self.old.keyspaces keyspace.now table.now }
        ensures after { self.new ≡ with_entry self.old (Entry.Present keyspace.now table.now mark) }
    {
        self.keyspaces.set_present(keyspace, table, mark)
    }

    /// Where a name leads for a type: where its rule for the type, else its rule for all types leads, which is not looked
    /// up again. A name without a rule is the table of its keyspace; else that of the one keyspace that has it, with
    /// `T2 NoTable` where none has it and `T3 Ambiguous` where several do. The key's own type is not looked at. It takes
    /// no memory.
    pub fn resolve(
        &self,
        key: &RuleKey,
        tablet_type: TabletType,
    ) -> Result<RuleTarget, TopologyFault>
        ensures { result ≡ resolution self.now key.now tablet_type }
    {
        let (keyspace, table) = self.look_up(key, tablet_type)?;
        Ok(RuleTarget {
            keyspace: keyspace.copied(),
            table: table.copied(),
        })
    }

    /// The names of the keyspace and the table that a name leads to for a type, as `resolve` answers them, without a copy
    /// of either. It takes no memory.
    #[inline(always)]
    pub fn look_up<'a>(
        &'a self,
        key: &'a RuleKey,
        tablet_type: TabletType,
    ) -> Result<(&'a KeyspaceName, &'a TableName), TopologyFault>
        ensures { lent_target result ≡ resolution self.now key.now tablet_type }
    {
        if let Some(target) = rule_for(&self.rules, key, tablet_type) {
            return Ok((&target.keyspace, &target.table));
        }
        match &key.keyspace {
            Some(keyspace) => Ok((keyspace, &key.table)),
            None => Ok((self.keyspaces.sole_holder(&key.table)?, &key.table)),
        }
    }

    /// Adds a keyspace of these shards, without tables. `T4 Exists`, `T5 Full` at a 33rd, `T0 Memory`.
    pub fn add_keyspace(
        &mut self,
        name: &KeyspaceName,
        shards: ShardList,
    ) -> Result<(), TopologyFault>
        ensures { Edits self.old (add_keyspace_refusal self.old.keyspaces name.now) true (with_keyspace self.old name.now shards) result self.new }
    {
        self.keyspaces.add_keyspace(self.alloc, name, shards)
    }

    /// The shards of a keyspace, if it is there. It takes no memory.
    pub fn shards(&self, keyspace: &KeyspaceName) -> Option<&ShardList>
        ensures { option_copied result ≡ option_map (λ state. state.cuts) (keyspace_at self.now.keyspaces keyspace.now) }
    {
        self.keyspaces.get(keyspace).map(Keyspace::shards)
    }

    /// Adds a table to a keyspace. `T1 NoKeyspace`, `T4 Exists`, `T5 Full` at a 257th place of the keyspace, `T0 Memory`.
    pub fn add_table(
        &mut self,
        keyspace: &KeyspaceName,
        table: &TableName,
    ) -> Result<(), TopologyFault>
        ensures { Edits self.old (add_table_refusal self.old.keyspaces keyspace.now table.now) (add_table_grows self.old.keyspaces keyspace.now table.now)
            (with_table self.old keyspace.now table.now) result self.new }
    {
        self.keyspaces.add_table(keyspace, table)
    }

    /// Drops the place of a table that isn't there. Where the table is there nothing changes. It takes no memory.
    pub fn release_table(&mut self, keyspace: &KeyspaceName, table: &TableName)
        ensures { self.new ≡ record self.old { keyspaces = with_keyspace_state (without_table_place table.now) self.old.keyspaces keyspace.now } }
    {
        self.keyspaces.release_table(keyspace, table);
    }

    /// Sets the rule of a key, or takes it away with its place. `T5 Full` at a 4,097th place, `T0 Memory`. To change a
    /// rule or to take one away is never refused.
    pub fn edit_rule(
        &mut self,
        key: &RuleKey,
        target: Option<RuleTarget>,
    ) -> Result<(), TopologyFault>
        ensures { Edits self.old (edit_rule_refusal self.old.rules key.now target) (edit_rule_grows self.old.rules key.now target)
            (record self.old { rules = with_rule self.old.rules key.now target }) result self.new }
    {
        match target {
            Some(target) => put_rule(&mut self.rules, key, target),
            None => {
                take_rule(&mut self.rules, key);
                Ok(())
            }
        }
    }
}
