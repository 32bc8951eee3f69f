//! Places of rule keys, in the order of these, whatever the order in which they were made.
ghost use Rattle.std.specs.Prelude.{◌≡◌, ◌↔◌, [], Option, None, Some, true, false, fold, length, is_some, option_and_then, option_copied, reverse, unwrap_or, OnOk, OnErr};
ghost use Rattle.std.specs.List.{AllByRecursion, IsDistinct};
ghost use Rattle.std.specs.Map.{keys_of, lookup, remove_entry, set_value};
ghost use Rattle.std.specs.Option.{option_map_or};
ghost use Rattle.mt_names.specs.declared.keys.RuleKey.{RuleKey};
ghost use Rattle.mt_names.specs.declared.types.TabletType.{TabletType};
ghost use Rattle.mt_names.specs.Same.{same_key};
ghost use Rattle.mt_model.specs.Order.{Ascends, key_before};
ghost use Rattle.mt_model.specs.Topology.{put_rule, rule_at, rule_for, with_rule_place, without_rule_place};
ghost use Rattle.mt_rules.specs.Places.{blank_count, key_of, no_places, place_at, place_in, released_four, rules_in, same_name, with_name, with_place_at};
ghost use Rattle.mt_rules.specs.declared.four.FourPlaces.{FourPlaces};
ghost use Rattle.mt_rules.specs.Rules.{four_keys, four_rules, has_rule_place, lent_rule, of_type, with_rules_set};

use crate::name::{NamePlaces, RuleName};
use indexmap::IndexMap;
use mt_names::{KeyspaceName, RuleKey, RuleTarget, TableName, TabletType};
use std::alloc::{AllocError, Global};
use std::marker::Model;

/// Places of rule keys, each with a rule or without one. A name stands among them as long as one of its keys has a place.
#[derive(Drop)]
pub struct Places {
    alloc: Global,
    names: IndexMap<RuleName, NamePlaces>,
    len: usize,
}

impl Model for Places {
    ghost use Rattle.std.specs.Prelude.{◌≡◌, length};
    ghost use Rattle.mt_model.specs.Topology.{Rules};
    ghost use Rattle.mt_rules.specs.Places.{rules_in};

    ghost Value = { Rules };

    ghost view = { λ places. rules_in places.names.entries };

    ghost invariant = { λ places. places.len ≡ length (rules_in places.names.entries) };
}

impl Places {
    /// No place. It takes no memory.
    pub(crate) fn new(alloc: Global) -> Self
        ensures { result ≡ [] }
    {
        Places {
            alloc,
            names: IndexMap::new(alloc),
            len: 0,
        }
    }

    /// Where the places take memory.
    pub(crate) fn alloc(&self) -> Global {
        self.alloc
    }

    /// How many places there are.
    pub(crate) fn len(&self) -> usize
        ensures len { result ≡ length self.now }
        ensures distinct { IsDistinct same_key (keys_of self.now) }
        ensures ordered { Ascends key_before self.now }
    {
        self.len
    }

    /// The names, each with the places of its keys.
    pub(crate) fn names(&self) -> &IndexMap<RuleName, NamePlaces>
        ensures rules { rules_in result.now.entries ≡ self.now }
        ensures distinct { IsDistinct same_name (keys_of result.now.entries) }
    {
        let _distinct = self.names.len();
        &self.names
    }

    /// The places of a name, if one of its keys has one.
    pub(crate) fn name(&self, name: &RuleName) -> Option<&NamePlaces>
        ensures { (type : Option TabletType) → option_and_then (λ four. place_at four type) (option_copied result) ≡ lookup (same_key (key_of name.now type)) self.now }
    {
        let _distinct = self.names.len();
        self.names.get(name)
    }

    /// What the place of a key has: a rule or none.
    pub(crate) fn get(&self, key: &RuleKey) -> Option<&Option<RuleTarget>>
        ensures { option_copied result ≡ lookup (same_key key.now) self.now }
    {
        self.name(&RuleName::of(key))?.at(key.tablet_type)
    }

    /// The rule that applies to a name: that for the type, or else that for all types. The type of the key is not looked at.
    pub(crate) fn rule_for(&self, key: &RuleKey, tablet_type: TabletType) -> Option<&RuleTarget>
        ensures { option_copied result ≡ rule_for self.now key.now tablet_type }
    {
        let places = self.name(&RuleName::of(key))?;
        let rule = places.rule(Some(tablet_type));
        if rule.is_some() {
            return rule;
        }
        places.rule(None)
    }

    /// Whether a key has a place.
    pub(crate) fn contains(&self, key: &RuleKey) -> bool
        ensures { result ≡ has_rule_place self.now key.now }
    {
        self.get(key).is_some()
    }

    /// Makes a place for a key that has none. Without memory nothing changes.
    pub(crate) fn add(
        &mut self,
        key: &RuleKey,
        rule: Option<(&KeyspaceName, &TableName)>,
    ) -> Result<(), AllocError>
        requires lacks { has_rule_place self.old key.now ≡ false }
        ensures ok { OnOk result (self.new ≡ put_rule self.old (key.now, lent_rule rule.entry)) }
        ensures err { OnErr result (self.new ≡ self.old) }
    {
        let Some(len) = self.len.checked_add(1) else {
            return Err(AllocError);
        };
        let name = RuleName::of(key);
        make_name(self.alloc, &mut self.names, &name)?;
        put_at(&mut self.names, &name, key.tablet_type, rule);
        self.len = len;
        Ok(())
    }

    /// Makes the places of a name's four keys, none of which has one, without rules. The type of the key is not looked at. Without
    /// memory nothing changes.
    pub(crate) fn add_name(&mut self, key: &RuleKey) -> Result<(), AllocError>
        requires { AllByRecursion (λ key. has_rule_place self.old key ≡ false) (four_keys key.now) }
        ensures ok { OnOk result (self.new ≡ fold with_rule_place self.old (four_keys key.now)) }
        ensures err { OnErr result (self.new ≡ self.old) }
    {
        let Some(len) = self.len.checked_add(4) else {
            return Err(AllocError);
        };
        let name = RuleName::of(key);
        make_name(self.alloc, &mut self.names, &name)?;
        put_all_at(&mut self.names, &name, (None, None, None, None));
        self.len = len;
        Ok(())
    }

    /// Sets the rule of a key that has a place, by the names of where it leads, or takes it away. It takes no memory.
    pub(crate) fn put(&mut self, key: &RuleKey, rule: Option<(&KeyspaceName, &TableName)>)
        requires { has_rule_place self.old key.now ≡ true }
        ensures { self.new ≡ set_value (same_key key.now) self.old (lent_rule rule.entry) }
    {
        let _distinct = self.names.len();
        put_at(&mut self.names, &RuleName::of(key), key.tablet_type, rule);
    }

    /// Sets the rules of two keys of a name, each of which has a place, one after the other, by the names of where they lead, or takes
    /// them away, and leaves the rules before. The type of the key is not looked at. It takes no memory, and looks the name up twice.
    pub(crate) fn exchange_two(
        &mut self,
        key: &RuleKey,
        types: (Option<TabletType>, Option<TabletType>),
        rules: (
            Option<(&KeyspaceName, &TableName)>,
            Option<(&KeyspaceName, &TableName)>,
        ),
        first: &mut Option<RuleTarget>,
        second: &mut Option<RuleTarget>,
    )
        requires first { has_rule_place self.old (of_type key.now types.0) ≡ true }
        requires second { has_rule_place self.old (of_type key.now types.1) ≡ true }
        ensures first { first.new ≡ rule_at self.old (of_type key.now types.0) }
        ensures second { second.new ≡ rule_at (set_value (same_key (of_type key.now types.0)) self.old (lent_rule rules.entry.0)) (of_type key.now types.1) }
        ensures after { self.new ≡ set_value (same_key (of_type key.now types.1)) (set_value (same_key (of_type key.now types.0)) self.old (lent_rule rules.entry.0)) (lent_rule rules.entry.1) }
    {
        let _distinct = self.names.len();
        let name = RuleName::of(key);
        exchange_at(&mut self.names, &name, types.0, rules.0, first);
        exchange_at(&mut self.names, &name, types.1, rules.1, second);
    }

    /// Sets the rules of a name's four keys, each of which has a place, one after the other: that for all types, those of primary,
    /// replica and rdonly. The type of the key is not looked at. It takes no memory, and looks the name up once.
    pub(crate) fn put_name(
        &mut self,
        key: &RuleKey,
        plain: Option<(&KeyspaceName, &TableName)>,
        primary: Option<(&KeyspaceName, &TableName)>,
        replica: Option<(&KeyspaceName, &TableName)>,
        rdonly: Option<(&KeyspaceName, &TableName)>,
    )
        requires { AllByRecursion (λ key. has_rule_place self.old key ≡ true) (four_keys key.now) }
        ensures { self.new ≡ with_rules_set self.old (four_rules key.now (lent_rule plain.entry) (lent_rule primary.entry) (lent_rule replica.entry) (lent_rule rdonly.entry)) }
    {
        let _distinct = self.names.len();
        let name = RuleName::of(key);
        put_all_at(&mut self.names, &name, (plain, primary, replica, rdonly));
    }

    /// Drops the place of a key that has one. It takes no memory.
    pub(crate) fn remove(&mut self, key: &RuleKey)
        requires { has_rule_place self.old key.now ≡ true }
        ensures { self.new ≡ remove_entry (same_key key.now) self.old }
    {
        let _distinct = self.names.len();
        let name = RuleName::of(key);
        remove_at(&mut self.names, &name, key.tablet_type);
        drop_if_empty(&mut self.names, &name);
        self.len -= 1;
    }

    /// Drops those places of a name's four keys that have no rule, the last first. The type of the key is not looked at. It takes no
    /// memory, and looks the name up three times at most.
    pub(crate) fn release_name(&mut self, key: &RuleKey)
        ensures { self.new ≡ fold without_rule_place self.old (reverse (four_keys key.now)) }
    {
        let _distinct = self.names.len();
        let name = RuleName::of(key);
        let dropped = release_at(&mut self.names, &name);
        drop_if_empty(&mut self.names, &name);
        self.len -= dropped;
    }
}

/// Makes room for the places of a name, where there is none. What there is of places stays.
fn make_name(
    alloc: Global,
    names: &mut IndexMap<RuleName, NamePlaces>,
    name: &RuleName,
) -> Result<(), AllocError>
    ensures room { OnOk result (is_some (lookup (same_name name.now) names.new.entries) ≡ true) }
    ensures places { (key : RuleKey) → place_in names.new.entries key ≡ place_in names.old.entries key }
    ensures before { IsDistinct same_name (keys_of names.old.entries) }
    ensures after { IsDistinct same_name (keys_of names.new.entries) }
{
    let _distinct = names.len();
    if names.contains_key(name) {
        return Ok(());
    }
    let places = NamePlaces::new(alloc)?;
    match names.insert(name.copied(), places) {
        Ok(_) => Ok(()),
        Err(_) => Err(AllocError),
    }
}

/// Makes the place of a name's key, where there is the name, with a rule by the names of where it leads, or without one.
fn put_at(
    names: &mut IndexMap<RuleName, NamePlaces>,
    name: &RuleName,
    tablet_type: Option<TabletType>,
    rule: Option<(&KeyspaceName, &TableName)>,
)
    ensures { names.new.entries ≡ with_name names.old.entries name.now (λ four. with_place_at four tablet_type (Some (lent_rule rule.entry))) }
{
    if let Some(places) = names.get_mut(name) {
        places.put(tablet_type, rule);
    }
}

/// The same, and the rule before is left, or none.
fn exchange_at(
    names: &mut IndexMap<RuleName, NamePlaces>,
    name: &RuleName,
    tablet_type: Option<TabletType>,
    rule: Option<(&KeyspaceName, &TableName)>,
    before: &mut Option<RuleTarget>,
)
    ensures before { (four : FourPlaces) → lookup (same_name name.now) names.old.entries ≡ Some four → before.new ≡ unwrap_or (place_at four tablet_type) None }
    ensures after { names.new.entries ≡ with_name names.old.entries name.now (λ four. with_place_at four tablet_type (Some (lent_rule rule.entry))) }
{
    if let Some(places) = names.get_mut(name) {
        places.exchange(tablet_type, rule, before);
    }
}

/// Makes the places of a name's four keys, where there is the name: that for all types, those of primary, replica and rdonly.
fn put_all_at(
    names: &mut IndexMap<RuleName, NamePlaces>,
    name: &RuleName,
    rules: (
        Option<(&KeyspaceName, &TableName)>,
        Option<(&KeyspaceName, &TableName)>,
        Option<(&KeyspaceName, &TableName)>,
        Option<(&KeyspaceName, &TableName)>,
    ),
)
    ensures { names.new.entries ≡ with_name names.old.entries name.now (λ four. record { all = Some (lent_rule rules.entry.0); primary = Some (lent_rule rules.entry.1); replica = Some (lent_rule rules.entry.2); rdonly = Some (lent_rule rules.entry.3) }) }
{
    if let Some(places) = names.get_mut(name) {
        places.put_all(rules.0, rules.1, rules.2, rules.3);
    }
}

/// Drops the place of a name's key.
fn remove_at(
    names: &mut IndexMap<RuleName, NamePlaces>,
    name: &RuleName,
    tablet_type: Option<TabletType>,
)
    ensures { names.new.entries ≡ with_name names.old.entries name.now (λ four. with_place_at four tablet_type None) }
{
    if let Some(places) = names.get_mut(name) {
        places.remove(tablet_type);
    }
}

/// Drops those places of a name's four keys that have no rule, and answers how many these are.
fn release_at(names: &mut IndexMap<RuleName, NamePlaces>, name: &RuleName) -> usize
    ensures count { result ≡ option_map_or blank_count (lookup (same_name name.now) names.old.entries) 0 }
    ensures after { names.new.entries ≡ with_name names.old.entries name.now released_four }
{
    match names.get_mut(name) {
        Some(places) => places.release(),
        None => 0,
    }
}

/// Lets a name go none of whose keys has a place. What there is of places stays.
fn drop_if_empty(names: &mut IndexMap<RuleName, NamePlaces>, name: &RuleName)
    ensures places { (key : RuleKey) → place_in names.new.entries key ≡ place_in names.old.entries key }
    ensures distinct { IsDistinct same_name (keys_of names.old.entries) → IsDistinct same_name (keys_of names.new.entries) }
{
    if is_empty_at(names, name) {
        names.swap_remove(name);
    }
}

/// Whether a name is there none of whose keys has a place.
fn is_empty_at(names: &IndexMap<RuleName, NamePlaces>, name: &RuleName) -> bool
    ensures { (result ≡ true) ↔ (lookup (same_name name.now) names.now.entries ≡ Some no_places) }
{
    match names.get(name) {
        Some(places) => places.is_empty(),
        None => false,
    }
}
