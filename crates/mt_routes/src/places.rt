//! Routes, each under the key by which it is looked up.
ghost use Rattle.std.specs.Prelude.{◌≡◌, ◌↔◌, IsTrue, OnErr, OnOk, fold, option_copied, IfOk};
ghost use Rattle.mt_model.specs.Topology.{key_of, rule_at, rule_for, sole_holder};
ghost use Rattle.mt_routes.specs.Differences.{is_rule, is_said};
ghost use Rattle.mt_routes.specs.Places.{Agrees, ArePlaces, AreRoutes, found_in, holders_of, is_held, no_places, said_in, standing, unruled_at, with_entry, with_holder};

use crate::holders::Holders;
use crate::maps::{Copied, Stands, set, standing};
use indexmap::IndexMap;
use mt_model::{Entry, TopologyFault};
use mt_names::{KeyspaceName, RuleKey, RuleTarget, TableName, TabletType};
use std::alloc::{AllocError, Global};
use std::marker::Model;

/// Routes as they are looked up: rules by their keys, and the keyspaces of each table. They take memory as it is needed. A key whose
/// rule is taken away, and a table that no keyspace has, stays as one at which nothing stands until the next copy.
#[derive(Drop)]
pub struct Places {
    rules: IndexMap<RuleKey, Option<RuleTarget>>,
    tables: IndexMap<TableName, Holders>,
}

impl Model for Places {
    ghost use Rattle.std.specs.Prelude.{All};
    ghost use Rattle.std.specs.List.{IsDistinct};
    ghost use Rattle.std.specs.Map.{values_of};
    ghost use Rattle.mt_names.specs.Names.{same_text};
    ghost use Rattle.mt_routes.specs.Places.{PlacesState};

    ghost Value = { PlacesState };

    ghost view = { λ p. record { rules = p.rules.entries; tables = p.tables.entries } };

    ghost invariant = { λ p. All (IsDistinct same_text) (values_of p.tables.entries) };
}

impl Copied for RuleKey {
    fn copied(&self) -> Self {
        RuleKey::copied(self)
    }
}

impl Copied for TableName {
    fn copied(&self) -> Self {
        TableName::copied(self)
    }
}

impl Stands for Option<RuleTarget> {
    ghost use Rattle.std.specs.Prelude.{is_some};

    ghost stands = { is_some };

    fn is_any(&self) -> bool {
        self.is_some()
    }

    fn again(&self) -> Result<Self, AllocError> {
        Ok(self.as_ref().map(RuleTarget::copied))
    }
}

impl Places {
    /// No routes. It takes no memory.
    pub(crate) fn new(alloc: Global) -> Places
        ensures { result ≡ no_places }
    {
        let rules = IndexMap::new(alloc);
        let tables = IndexMap::new(alloc);
        Places { rules, tables }
    }

    /// These routes, as they are looked up. It is refused only when out of memory.
    pub fn of(alloc: Global, routes: &[Entry]) -> Result<Places, AllocError>
        requires { AreRoutes routes.now }
        ensures { IfOk result (λ places. Agrees places routes.now) }
    {
        let mut places = Places::new(alloc);
        places.write_all(routes)?;
        Ok(places)
    }

    /// What is true of all places, for a caller's proof: no key and no table stands twice, and no keyspace twice at a table. It does nothing.
    pub fn facts(&self)
        ensures { ArePlaces self.now }
    {
        let _rules = self.rules.len();
        let _tables = self.tables.len();
    }

    /// The rules, by their keys.
    pub(crate) fn rules(&self) -> &IndexMap<RuleKey, Option<RuleTarget>>
        ensures { result.now.entries ≡ self.now.rules }
    {
        &self.rules
    }

    /// The tables, each with the keyspaces that have it.
    pub(crate) fn tables(&self) -> &IndexMap<TableName, Holders>
        ensures { result.now.entries ≡ self.now.tables }
    {
        &self.tables
    }

    /// A copy, without the keys at which nothing stands. It is refused only when out of memory.
    pub(crate) fn standing(&self, alloc: Global) -> Result<Places, AllocError>
        ensures { IfOk result (λ places. places ≡ standing self.now) }
    {
        let rules = standing(alloc, &self.rules)?;
        let tables = standing(alloc, &self.tables)?;
        Ok(Places { rules, tables })
    }

    /// Writes an entry: a rule is set or taken away, a table is there or not. It is refused only when out of memory, and then changes
    /// nothing.
    pub fn write(&mut self, entry: &Entry) -> Result<(), AllocError>
        ensures written { OnOk result (self.new ≡ with_entry self.old entry.now) }
        ensures refused { OnErr result (self.new ≡ self.old) }
    {
        match entry {
            Entry::Rule(key, target) => {
                self.put_rule(key, target.as_ref().map(RuleTarget::copied))
            }
            Entry::Present(keyspace, table, is_there) => self.put_table(keyspace, table, *is_there),
            Entry::Denied(..) => Ok(()),
        }
    }

    /// Writes entries one after the other. It is refused only when out of memory, and then some are written.
    pub(crate) fn write_all(&mut self, entries: &[Entry]) -> Result<(), AllocError>
        ensures { OnOk result (self.new ≡ fold with_entry self.old entries.now) }
    {
        for entry in entries {
            self.write(entry)?;
        }
        Ok(())
    }

    /// Sets the rule of a key, or takes it away.
    fn put_rule(&mut self, key: &RuleKey, target: Option<RuleTarget>) -> Result<(), AllocError>
        ensures written { OnOk result (self.new ≡ with_entry self.old (Entry.Rule key.now target)) }
        ensures refused { OnErr result (self.new ≡ self.old) }
    {
        set(&mut self.rules, key.copied(), target)
    }

    /// Says of a table whether a keyspace has it.
    fn put_table(
        &mut self,
        keyspace: &KeyspaceName,
        table: &TableName,
        is_there: bool,
    ) -> Result<(), AllocError>
        ensures written { OnOk result (self.new ≡ with_entry self.old (Entry.Present keyspace.now table.now is_there)) }
        ensures refused { OnErr result (self.new ≡ self.old) }
    {
        let holders = self.holders_with(keyspace, table, is_there)?;
        set(&mut self.tables, table.copied(), holders)
    }

    /// The keyspaces that have a table, with one among them or without it.
    fn holders_with(
        &self,
        keyspace: &KeyspaceName,
        table: &TableName,
        is_there: bool,
    ) -> Result<Holders, AllocError>
        ensures { IfOk result (λ holders. holders ≡ with_holder (holders_of self.now table.now) keyspace.now is_there) }
    {
        match self.tables.get(table) {
            Some(holders) => holders.with(keyspace, is_there),
            None => Holders::new(*self.tables.allocator()).with(keyspace, is_there),
        }
    }

    /// Whether a keyspace has a table. It takes no memory.
    fn has(&self, keyspace: &KeyspaceName, table: &TableName) -> bool
        ensures { result ≡ is_held self.now keyspace.now table.now }
    {
        match self.tables.get(table) {
            Some(holders) => holders.contains(keyspace),
            None => false,
        }
    }

    /// Whether an entry is what is said at its key. It takes no memory.
    pub fn says(&self, entry: &Entry) -> bool
        ensures says { IsTrue result ↔ (said_in self.now (key_of entry.now) ≡ entry.now) }
        ensures test { result ≡ is_said self.now entry.now }
    {
        match entry {
            Entry::Rule(key, target) => is_rule(&self.rules, key, target.as_ref()),
            Entry::Denied(_, _, is_denied) => !is_denied,
            Entry::Present(keyspace, table, is_there) => self.has(keyspace, table) == *is_there,
        }
    }

    /// Where a name leads for a type. It takes no memory, and a hash or two however many routes there are.
    pub fn find(&self, key: &RuleKey, tablet_type: TabletType) -> Result<RuleTarget, TopologyFault>
        ensures { result ≡ found_in self.now key.now tablet_type }
    {
        match target_for(&self.rules, key, tablet_type) {
            Some(target) => Ok(target.copied()),
            None => self.unruled(key),
        }
    }

    /// Where a name without a rule leads.
    fn unruled(&self, key: &RuleKey) -> Result<RuleTarget, TopologyFault>
        ensures { result ≡ unruled_at self.now key.now.keyspace key.now.table }
    {
        match &key.keyspace {
            Some(keyspace) => Ok(RuleTarget {
                keyspace: keyspace.copied(),
                table: key.table.copied(),
            }),
            None => self.sole_holder(&key.table),
        }
    }

    /// The table of the one keyspace that has it.
    fn sole_holder(&self, table: &TableName) -> Result<RuleTarget, TopologyFault>
        ensures { result ≡ sole_holder (holders_of self.now table.now) table.now }
    {
        let Some(holders) = self.tables.get(table) else {
            return Err(TopologyFault::NoTable);
        };
        let holders = holders.as_slice();
        match holders {
            [] => Err(TopologyFault::NoTable),
            [keyspace] => Ok(RuleTarget {
                keyspace: keyspace.copied(),
                table: table.copied(),
            }),
            _ => Err(TopologyFault::Ambiguous),
        }
    }
}

/// The rule of a key, if it has one.
fn rule_of<'a>(
    rules: &'a IndexMap<RuleKey, Option<RuleTarget>>,
    key: &RuleKey,
) -> Option<&'a RuleTarget>
    ensures { option_copied result ≡ rule_at rules.now.entries key.now }
{
    rules.get(key)?.as_ref()
}

/// Whether a key's rule leads to this target, or there is none and is to be none.
fn is_rule(
    rules: &IndexMap<RuleKey, Option<RuleTarget>>,
    key: &RuleKey,
    target: Option<&RuleTarget>,
) -> bool
    ensures says { IsTrue result ↔ (rule_at rules.now.entries key.now ≡ option_copied target.entry) }
    ensures test { result ≡ is_rule (rule_at rules.now.entries key.now) (option_copied target.entry) }
{
    match (rule_of(rules, key), target) {
        (None, None) => true,
        (Some(found), Some(target)) => *found == *target,
        _ => false,
    }
}

/// The target of the rule that applies to a name: that for the type, else that for all types.
fn target_for<'a>(
    rules: &'a IndexMap<RuleKey, Option<RuleTarget>>,
    key: &RuleKey,
    tablet_type: TabletType,
) -> Option<&'a RuleTarget>
    ensures { option_copied result ≡ rule_for rules.now.entries key.now tablet_type }
{
    let mut looked_up = key.copied();
    looked_up.tablet_type = Some(tablet_type);
    let found = rule_of(rules, &looked_up);
    if found.is_some() {
        return found;
    }
    looked_up.tablet_type = None;
    rule_of(rules, &looked_up)
}
