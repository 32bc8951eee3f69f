//! The table of routing rules.
ghost use Rattle.std.specs.Prelude.{◌≡◌, ◌≤◌, ◌<◌, ◌↔◌, ◌==◌, ◌++◌, [], Option, None, Some, true, false, fold, length, reverse, IsTrue, IfOk, IfErr, OnOk, OnErr, string_bytes, option_and_then, option_copied, option_map, slice_get, ◌+◌};
ghost use Rattle.std.specs.List.{AllByRecursion, IsDistinct};
ghost use Rattle.std.specs.Map.{keys_of, lookup, set_value};
ghost use Rattle.mt_names.specs.declared.types.TabletType.{TabletType};
ghost use Rattle.mt_names.specs.Same.{same_key};
ghost use Rattle.mt_model.specs.Limits.{most_rules};
ghost use Rattle.mt_model.specs.Order.{Ascends, key_before};
ghost use Rattle.mt_model.specs.Part.{rule_routes};
ghost use Rattle.mt_model.specs.Topology.{put_rule, rule_at, rule_for, with_rule_place, without_rule_place};
ghost use Rattle.mt_rules.specs.Read.{IsUnlessMemory, answer_with, rules_of_text, with_one_more};
ghost use Rattle.serde_json.specs.View.{view};
ghost use Rattle.serde_json.specs.Written.{compact_text};
ghost use Rattle.mt_rules.specs.Values.{IsWellSorted, Says, document_value};
ghost use Rattle.mt_rules.specs.Member.{rules_within};
ghost use Rattle.mt_model.specs.Documents.{rules_array, rules_text};
ghost use Rattle.mt_rules.specs.Places.{first_after, place_at};
ghost use Rattle.mt_rules.specs.Rules.{Reserves, four_keys, four_rules, has_rule_place, lent_rule, of_type, with_rules_set};

use crate::name::{NamePlaces, RuleName};
use crate::places::Places;
use crate::{RulesFault, member, read, text, walk, write};
use mt_model::{Entry, MAX_RULES};
use mt_names::{KeyspaceName, RuleKey, RuleTarget, TableName, TabletType};
use serde_json::Value;
use std::alloc::{AllocError, Global};
use std::marker::Model;

/// Routing rules by their keys. A key is reserved before its rule is set, so that to set it takes no memory: it then
/// has a place, with a rule or without one. There are at most 4,096 places.
#[derive(Drop)]
pub struct RoutingRules {
    places: Places,
}

impl Model for RoutingRules {
    ghost use Rattle.std.specs.Prelude.{◌≤◌, length};
    ghost use Rattle.mt_model.specs.Limits.{most_rules};
    ghost use Rattle.mt_model.specs.Topology.{Rules};

    ghost Value = { Rules };

    ghost view = { λ rules. rules.places };

    ghost invariant = { λ rules. length rules.places ≤ most_rules };
}

impl RoutingRules {
    /// No rule, and no place for one.
    pub fn new(alloc: Global) -> Self
        ensures { result ≡ [] }
    {
        RoutingRules {
            places: Places::new(alloc),
        }
    }

    /// Reads the document of the rules: an object, in which `rules` is a list of objects or missing or null. In each of
    /// them `from_table` (or `fromTable`, where that is missing) is the text of a key, and `to_tables` (or `toTables`) a
    /// list of one text, that of a target. Other members are ignored; of a member that stands twice the last one counts.
    /// Of several faults the first in the list's order is told, and in one rule `R3 Shape`, `R5 NotOneTarget`,
    /// `R4 BadName`, `R6 RepeatedKey`, `R1 Full`. `R2 NotJson` of a text without a value, `R0 Memory`.
    pub fn from_json(alloc: Global, text: &[u8]) -> Result<Self, RulesFault>
        ensures { IsUnlessMemory result (rules_of_text text.now) }
    {
        read::rules_of_text(alloc, text)
    }

    /// Reads the rules as a member of a larger document, which may be missing or null; else it is a list as that of
    /// `from_json`. `R3 Shape` of every fault of the list or of a rule, then `R1 Full` where there are more than 4,096 of
    /// them, `R0 Memory`.
    pub fn from_member(alloc: Global, member: Option<&Value>) -> Result<Self, RulesFault>
        ensures { IsUnlessMemory result (rules_within (option_map (λ v. view v.now) member.entry)) }
    {
        let places = member::places_of_member(alloc, member)?;
        if places.len() > MAX_RULES {
            return Err(RulesFault::Full);
        }
        Ok(RoutingRules { places })
    }

    /// The document of the rules, which `from_json` reads back: the compact text that `serde_json` writes of their value, `from_table` before
    /// `to_tables`, sorted by the bytes of the keys' texts, without the places that have no rule. `R0 Memory`.
    pub fn to_json(&self, alloc: Global) -> Result<String, RulesFault>
        ensures text { IfOk result (λ text. string_bytes text ≡ rules_text self.now) }
        ensures value { IfOk result (λ text. string_bytes text ≡ compact_text (document_value self.now)) }
        ensures says { IfOk result (λ text. Says (string_bytes text) self.now) }
        ensures memory { IfErr result (λ fault. fault ≡ RulesFault.Memory) }
    {
        match write::text_of_rules(alloc, &self.places) {
            Ok(text) => Ok(text),
            Err(_) => Err(RulesFault::Memory),
        }
    }

    /// Appends the list of the rules to a larger document, as `to_json` writes it. `R0 Memory`, which leaves the text with a
    /// part of it.
    pub fn push_list(&self, alloc: Global, text: &mut String) -> Result<(), AllocError>
        ensures text { OnOk result (string_bytes text.new ≡ string_bytes text.old ++ rules_array self.now) }
        ensures sorted { OnOk result (IsWellSorted self.now) }
    {
        text::push_rules(alloc, text, &self.places)
    }

    /// What is true of all rules, for a caller's proof: there are at most 4,096 places, they stand in the order of their keys, and no key
    /// has two. It does nothing.
    pub fn facts(&self)
        ensures within { length self.now ≤ most_rules }
        ensures ordered { Ascends key_before self.now }
        ensures distinct { IsDistinct same_key (keys_of self.now) }
    {
        let _len = self.places.len();
    }

    /// How many places there are. It takes no memory.
    pub fn places(&self) -> usize
        ensures len { result ≡ length self.now }
        ensures within { length self.now ≤ most_rules }
    {
        self.places.len()
    }

    /// The first key after another that has a place, or the first of all, in the order of keys: so a caller goes from place to place.
    /// The other needs no place of its own. It takes no memory; it looks at each place once.
    pub fn after(&self, last: Option<&RuleKey>) -> Option<RuleKey>
        ensures { result ≡ first_after (option_copied last.entry) self.now }
    {
        walk::after(self.places.names(), last)
    }

    /// The key of a place by its index, and the rule that it has, if it has one: each place once, in the order of their keys. It takes no
    /// memory; it looks at all places once, and once more for each place before this one.
    pub fn place(&self, index: usize) -> (RuleKey, Option<&RuleTarget>)
        requires { index < length self.now }
        ensures { Some (result.0, option_copied result.1) ≡ slice_get self.now index }
    {
        self.facts();
        let mut last = None;
        for _ in 0..index {
            last = self.after(last.as_ref());
        }
        let key = self.after(last.as_ref()).unwrap();
        let rule = self.get(&key);
        (key, rule)
    }

    /// Whether there is no place.
    pub fn is_empty(&self) -> bool
        ensures { IsTrue result ↔ (self.now ≡ []) }
    {
        self.places() == 0
    }

    /// Whether there are as many places as there may be.
    fn is_full(&self) -> bool
        ensures test { result ≡ (length self.now == most_rules) }
        ensures full { result ≡ true → length self.now ≡ most_rules }
        ensures room { result ≡ false → length self.now < most_rules }
    {
        self.places() == MAX_RULES
    }

    /// The rule of a key, if it has one. It takes no memory.
    pub fn get(&self, key: &RuleKey) -> Option<&RuleTarget>
        ensures { option_copied result ≡ rule_at self.now key.now }
    {
        self.places.get(key)?.as_ref()
    }

    /// The rule that applies to a name: that for the type, or else that for all types. The type of the key is not looked at. It takes no
    /// memory, and looks the name up once.
    pub fn rule_for(&self, key: &RuleKey, tablet_type: TabletType) -> Option<&RuleTarget>
        ensures { option_copied result ≡ rule_for self.now key.now tablet_type }
    {
        self.places.rule_for(key, tablet_type)
    }

    /// The places of a name's four keys: none if none of these has one. It takes no memory, and looks the name up once.
    pub fn name(&self, keyspace: Option<&KeyspaceName>, table: &TableName) -> Option<&NamePlaces>
        ensures { (type : Option TabletType) → option_and_then (λ four. place_at four type) (option_copied result)
            ≡ lookup (same_key (record { keyspace = option_copied keyspace.entry; table = table.now; tablet_type = type })) self.now }
    {
        self.places.name(&RuleName::new(keyspace, table))
    }

    /// How many keys have a rule. It takes no memory; it looks at each place.
    pub fn rule_count(&self) -> usize
        ensures value { result ≡ length (rule_routes self.now) }
        ensures within { result ≤ most_rules }
    {
        walk::rule_count(self.places.names())
    }

    /// The entry of a rule, by its index among the keys that have one, in the order of their places. It takes no memory; it looks at all
    /// places once for each place up to its own.
    pub fn rule_entry(&self, index: usize) -> Option<Entry>
        ensures { result ≡ slice_get (rule_routes self.now) index }
    {
        self.facts();
        let mut left = index;
        let mut last = None;
        for _ in 0..self.places.len() {
            let key = self.after(last.as_ref())?;
            if let Some(target) = self.get(&key) {
                if left == 0 {
                    return Some(Entry::Rule(key, Some(target.copied())));
                }
                left -= 1;
            }
            last = Some(key);
        }
        None
    }

    /// Adds the entries of all rules to a list, in the order of their places; it looks at each place once. Refused only when out of memory,
    /// and then some of them are added.
    pub fn push_routes(&self, list: &mut Vec<Entry>) -> Result<(), AllocError>
        ensures { OnOk result (list.new.items ≡ list.old.items ++ rule_routes self.now) }
    {
        for place in &walk::in_order(self.places.alloc(), &self.places)? {
            if let Some(target) = place.rule {
                let key = place.name.key(place.tablet_type);
                list.push(Entry::Rule(key, Some(target.copied())))?;
            }
        }
        Ok(())
    }

    /// Whether a key is reserved.
    pub fn has_place(&self, key: &RuleKey) -> bool
        ensures { result ≡ has_rule_place self.now key.now }
    {
        self.places.contains(key)
    }

    /// Makes a place for a key, without a rule. Where the key has one nothing changes. `R1 Full` at a 4,097th place,
    /// `R0 Memory`; both leave all as it was.
    pub fn reserve_key(&mut self, key: &RuleKey) -> Result<(), RulesFault>
        ensures { Reserves self.old key.now result self.new }
    {
        if self.has_place(key) {
            return Ok(());
        }
        if self.is_full() {
            return Err(RulesFault::Full);
        }
        self.add_key(key)
    }

    /// Makes a place for a key that has none, without a rule, where there is room for one more. `R0 Memory`, which leaves
    /// all as it was. It looks the key's name up three times at most, and `reserve_key` once more.
    pub fn add_key(&mut self, key: &RuleKey) -> Result<(), RulesFault>
        requires lacks { has_rule_place self.old key.now ≡ false }
        requires room { length self.old < most_rules }
        ensures { Reserves self.old key.now result self.new }
    {
        match self.add_place(key, None) {
            Ok(()) => Ok(()),
            Err(_) => Err(RulesFault::Memory),
        }
    }

    /// Makes the places of a name's four keys, none of which has one, without rules, where there is room for four more. The type of the
    /// key is not looked at. `R0 Memory`, which leaves all as it was. It looks the name up three times.
    pub fn add_name(&mut self, name: &RuleKey) -> Result<(), RulesFault>
        requires lacks { AllByRecursion (λ key. has_rule_place self.old key ≡ false) (four_keys name.now) }
        requires room { length self.old + 4 ≤ most_rules }
        ensures ok { OnOk result (self.new ≡ fold with_rule_place self.old (four_keys name.now)) }
        ensures err { IfErr result (λ fault. (fault ≡ RulesFault.Memory) × (self.new ≡ self.old)) }
    {
        match self.places.add_name(name) {
            Ok(()) => Ok(()),
            Err(_) => Err(RulesFault::Memory),
        }
    }

    /// Makes a place for a key that has none. Without memory nothing changes.
    fn add_place(
        &mut self,
        key: &RuleKey,
        rule: Option<(&KeyspaceName, &TableName)>,
    ) -> Result<(), AllocError>
        requires lacks { has_rule_place self.old key.now ≡ false }
        requires room { length self.old < most_rules }
        ensures ok { OnOk result (self.new ≡ put_rule self.old (key.now, lent_rule rule.entry)) }
        ensures err { OnErr result (self.new ≡ self.old) }
    {
        self.places.add(key, rule)
    }

    /// Adds the rule of a document, whose key must be new. `R6 RepeatedKey`, then `R1 Full`, then `R0 Memory`.
    pub(crate) fn add(&mut self, key: RuleKey, target: RuleTarget) -> Result<(), RulesFault>
        ensures { IsUnlessMemory (answer_with self.new result) (with_one_more self.old (key, target)) }
    {
        if self.has_place(&key) {
            return Err(RulesFault::RepeatedKey);
        }
        if self.is_full() {
            return Err(RulesFault::Full);
        }
        match self.add_place(&key, Some((&target.keyspace, &target.table))) {
            Ok(()) => Ok(()),
            Err(_) => Err(RulesFault::Memory),
        }
    }

    /// Sets the rule of a reserved key, or takes it away, and answers the rule before. It takes no memory.
    pub fn set(&mut self, key: &RuleKey, target: Option<RuleTarget>) -> Option<RuleTarget>
        requires { has_rule_place self.old key.now ≡ true }
        ensures before { result ≡ rule_at self.old key.now }
        ensures after { self.new ≡ set_value (same_key key.now) self.old target }
    {
        let before = self.get(key).map(|rule| rule.copied());
        self.put(
            key,
            target.as_ref().map(|rule| (&rule.keyspace, &rule.table)),
        );
        before
    }

    /// Sets the rule of a reserved key, by the names of where it leads, or takes it away. It takes no memory.
    pub fn put(&mut self, key: &RuleKey, rule: Option<(&KeyspaceName, &TableName)>)
        requires { has_rule_place self.old key.now ≡ true }
        ensures { self.new ≡ set_value (same_key key.now) self.old (lent_rule rule.entry) }
    {
        self.places.put(key, rule);
    }

    /// Sets the rules of two keys of a name, each of which is reserved, one after the other, by the names of where they lead, or takes
    /// them away, and leaves the rules before. The type of the key is not looked at. It takes no memory, and looks the name up twice.
    pub fn exchange_two(
        &mut self,
        name: &RuleKey,
        types: (Option<TabletType>, Option<TabletType>),
        rules: (
            Option<(&KeyspaceName, &TableName)>,
            Option<(&KeyspaceName, &TableName)>,
        ),
        first: &mut Option<RuleTarget>,
        second: &mut Option<RuleTarget>,
    )
        requires first { has_rule_place self.old (of_type name.now types.0) ≡ true }
        requires second { has_rule_place self.old (of_type name.now types.1) ≡ true }
        ensures first { first.new ≡ rule_at self.old (of_type name.now types.0) }
        ensures second { second.new ≡ rule_at (set_value (same_key (of_type name.now types.0)) self.old (lent_rule rules.entry.0)) (of_type name.now types.1) }
        ensures after { self.new ≡ set_value (same_key (of_type name.now types.1)) (set_value (same_key (of_type name.now types.0)) self.old (lent_rule rules.entry.0)) (lent_rule rules.entry.1) }
    {
        self.places.exchange_two(name, types, rules, first, second);
    }

    /// Sets the rules of a name's four keys, each of which has a place, one after the other: that for all types, those of primary,
    /// replica and rdonly. The type of the key is not looked at. It takes no memory, and looks the name up once.
    pub fn put_name(
        &mut self,
        name: &RuleKey,
        plain: Option<(&KeyspaceName, &TableName)>,
        primary: Option<(&KeyspaceName, &TableName)>,
        replica: Option<(&KeyspaceName, &TableName)>,
        rdonly: Option<(&KeyspaceName, &TableName)>,
    )
        requires { AllByRecursion (λ key. has_rule_place self.old key ≡ true) (four_keys name.now) }
        ensures { self.new ≡ with_rules_set self.old (four_rules name.now (lent_rule plain.entry) (lent_rule primary.entry) (lent_rule replica.entry) (lent_rule rdonly.entry)) }
    {
        self.places.put_name(name, plain, primary, replica, rdonly);
    }

    /// Drops those places of a name's four keys that have no rule, the last first. The type of the key is not looked at. It takes no
    /// memory.
    pub fn release_name(&mut self, name: &RuleKey)
        ensures { self.new ≡ fold without_rule_place self.old (reverse (four_keys name.now)) }
    {
        self.places.release_name(name);
    }

    /// Drops the place of a key that has no rule. Where the key has a rule nothing changes. It takes no memory.
    pub fn release_key(&mut self, key: &RuleKey)
        ensures { self.new ≡ without_rule_place self.old key.now }
    {
        let Some(rule) = self.places.get(key) else {
            return;
        };
        if rule.is_none() {
            self.places.remove(key);
        }
    }
}
