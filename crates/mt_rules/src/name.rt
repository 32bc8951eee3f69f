//! Names of rule keys, and the places of a name in memory of their own.
ghost use Rattle.std.specs.Prelude.{◌≡◌, ◌↔◌, ℕ, List, true, IfOk, is_some, option_copied, Some, None};
ghost use Rattle.std.specs.Option.{unwrap_or};
ghost use Rattle.mt_rules.specs.Places.{any_ruled, blank_count, key_of, name_of, no_places, place_at, released_four, ruled_count, with_place_at};
ghost use Rattle.mt_rules.specs.Rules.{lent_rule};

use crate::four::FourPlaces;
use mt_names::{KeyspaceName, RuleKey, RuleTarget, TableName, TabletType};
use std::alloc::{AllocError, Global};
use std::hash::{Hash, Hasher};
use std::marker::Model;

/// The name that rule keys are for: a table's by itself, or at a keyspace.
#[derive(Debug, Drop, Eq, PartialEq)]
pub struct RuleName {
    /// The keyspace, where the name is qualified.
    pub keyspace: Option<KeyspaceName>,
    /// The table.
    pub table: TableName,
}

/// A name feeds a hasher its texts without the marks that a text's own hash sets behind them.
impl Hash for RuleName {
    ghost use Rattle.std.proofs.Common.{rules};
    ghost use Rattle.std.specs.Cmp.Rules.{hashing};
    ghost use Rattle.mt_rules.specs.Places.{name_input};

    ghost hash_input = { name_input };

    ghost respects_eq = { Prim.search (hashing, rules) };

    fn hash<H: Hasher>(&self, state: &mut H) {
        state.write(self.table.as_str().as_bytes());
        if let Some(keyspace) = &self.keyspace {
            state.write(keyspace.as_str().as_bytes());
        }
    }
}

impl RuleName {
    /// The name of a key.
    pub(crate) fn of(key: &RuleKey) -> Self
        ensures { result ≡ name_of key.now }
    {
        RuleName::new(key.keyspace.as_ref(), &key.table)
    }

    /// The name of these parts.
    pub(crate) fn new(keyspace: Option<&KeyspaceName>, table: &TableName) -> Self
        ensures keyspace { result.keyspace ≡ option_copied keyspace.entry }
        ensures table { result.table ≡ table.now }
    {
        RuleName {
            keyspace: keyspace.map(KeyspaceName::copied),
            table: table.copied(),
        }
    }

    /// A copy. It takes no memory.
    pub(crate) fn copied(&self) -> Self
        ensures { result ≡ self.now }
    {
        RuleName::new(self.keyspace.as_ref(), &self.table)
    }

    /// Its key for a type or for all.
    pub(crate) fn key(&self, tablet_type: Option<TabletType>) -> RuleKey
        ensures { result ≡ key_of self.now tablet_type }
    {
        RuleKey {
            keyspace: self.keyspace.as_ref().map(KeyspaceName::copied),
            table: self.table.copied(),
            tablet_type,
        }
    }
}

/// The places of a name's four keys. They stand in memory of their own, so that a map of names that grows moves none.
#[derive(Drop)]
pub struct NamePlaces {
    four: Box<FourPlaces>,
}

impl Model for NamePlaces {
    ghost use Rattle.mt_rules.specs.declared.four.FourPlaces.{FourPlaces};

    ghost Value = { FourPlaces };

    ghost view = { λ places. places.four.value };
}

impl NamePlaces {
    /// No place.
    pub(crate) fn new(alloc: Global) -> Result<Self, AllocError>
        ensures { IfOk result (λ places. places ≡ no_places) }
    {
        match Box::new(alloc, FourPlaces::none()) {
            Ok(four) => Ok(NamePlaces { four }),
            Err(_) => Err(AllocError),
        }
    }

    /// Whether there is no place.
    pub(crate) fn is_empty(&self) -> bool
        ensures { (result ≡ true) ↔ (self.now ≡ no_places) }
    {
        self.four.is_empty()
    }

    /// What the place of the key for a type or for all has, if there is one.
    pub(crate) fn at(&self, tablet_type: Option<TabletType>) -> Option<&Option<RuleTarget>>
        ensures { option_copied result ≡ place_at self.now tablet_type }
    {
        self.four.at(tablet_type)
    }

    /// The rule of the key for a type or for all, if it has one. It takes no memory.
    pub fn rule(&self, tablet_type: Option<TabletType>) -> Option<&RuleTarget>
        ensures { option_copied result ≡ unwrap_or (place_at self.now tablet_type) None }
    {
        self.at(tablet_type)?.as_ref()
    }

    /// Whether one of the four keys has a rule. It takes no memory.
    pub fn has_rule(&self) -> bool
        ensures { result ≡ any_ruled self.now }
    {
        self.rule(None).is_some()
            || self.rule(Some(TabletType::Primary)).is_some()
            || self.rule(Some(TabletType::Replica)).is_some()
            || self.rule(Some(TabletType::Rdonly)).is_some()
    }

    /// How many of the four keys have a rule.
    pub(crate) fn rule_count(&self) -> usize
        ensures { result ≡ ruled_count self.now }
    {
        usize::from(self.rule(None).is_some())
            + usize::from(self.rule(Some(TabletType::Primary)).is_some())
            + usize::from(self.rule(Some(TabletType::Replica)).is_some())
            + usize::from(self.rule(Some(TabletType::Rdonly)).is_some())
    }

    /// Makes the place of the key for a type or for all, with a rule by the names of where it leads, or without one.
    pub(crate) fn put(
        &mut self,
        tablet_type: Option<TabletType>,
        rule: Option<(&KeyspaceName, &TableName)>,
    )
        ensures { self.new ≡ with_place_at self.old tablet_type (Some (lent_rule rule.entry)) }
    {
        self.four.put(tablet_type, rule);
    }

    /// The same, and the rule before is left, or none.
    pub(crate) fn exchange(
        &mut self,
        tablet_type: Option<TabletType>,
        rule: Option<(&KeyspaceName, &TableName)>,
        before: &mut Option<RuleTarget>,
    )
        ensures before { before.new ≡ unwrap_or (place_at self.old tablet_type) None }
        ensures after { self.new ≡ with_place_at self.old tablet_type (Some (lent_rule rule.entry)) }
    {
        *before = self.rule(tablet_type).map(RuleTarget::copied);
        self.put(tablet_type, rule);
    }

    /// Makes the places of all four keys, each with a rule by the names of where it leads, or without one.
    pub(crate) fn put_all(
        &mut self,
        plain: Option<(&KeyspaceName, &TableName)>,
        primary: Option<(&KeyspaceName, &TableName)>,
        replica: Option<(&KeyspaceName, &TableName)>,
        rdonly: Option<(&KeyspaceName, &TableName)>,
    )
        ensures { self.new ≡ record { all = Some (lent_rule plain.entry); primary = Some (lent_rule primary.entry); replica = Some (lent_rule replica.entry); rdonly = Some (lent_rule rdonly.entry) } }
    {
        self.four.put(None, plain);
        self.four.put(Some(TabletType::Primary), primary);
        self.four.put(Some(TabletType::Replica), replica);
        self.four.put(Some(TabletType::Rdonly), rdonly);
    }

    /// Drops those of the four places that have no rule, and answers how many these are.
    pub(crate) fn release(&mut self) -> usize
        ensures count { result ≡ blank_count self.old }
        ensures after { self.new ≡ released_four self.old }
    {
        let rdonly = self.four.release(Some(TabletType::Rdonly));
        let replica = self.four.release(Some(TabletType::Replica));
        let primary = self.four.release(Some(TabletType::Primary));
        let all = self.four.release(None);
        usize::from(all) + usize::from(primary) + usize::from(replica) + usize::from(rdonly)
    }

    /// Drops the place of the key for a type or for all.
    pub(crate) fn remove(&mut self, tablet_type: Option<TabletType>)
        ensures { self.new ≡ with_place_at self.old tablet_type None }
    {
        self.four.remove(tablet_type);
    }
}
