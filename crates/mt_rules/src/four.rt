//! The places of a name's four keys.
ghost use Rattle.std.specs.Prelude.{◌≡◌, ◌↔◌, true, option_copied, Some, None};
ghost use Rattle.mt_rules.specs.Places.{is_blank, no_places, place_at, released, with_place_at};
ghost use Rattle.mt_rules.specs.Rules.{lent_rule};

use mt_names::{KeyspaceName, RuleTarget, TableName, TabletType};

/// The places of a name's four keys: of each none, one without a rule, or one with a rule.
#[derive(Drop)]
pub struct FourPlaces {
    all: Option<Option<RuleTarget>>,
    primary: Option<Option<RuleTarget>>,
    replica: Option<Option<RuleTarget>>,
    rdonly: Option<Option<RuleTarget>>,
}

impl FourPlaces {
    /// No place.
    pub(crate) fn none() -> Self
        ensures { result ≡ no_places }
    {
        FourPlaces {
            all: None,
            primary: None,
            replica: None,
            rdonly: None,
        }
    }

    /// Whether there is no place.
    pub(crate) fn is_empty(&self) -> bool
        ensures { (result ≡ true) ↔ (self.now ≡ no_places) }
    {
        self.all.is_none()
            && self.primary.is_none()
            && self.replica.is_none()
            && self.rdonly.is_none()
    }

    /// What the place of the key for a type or for all has, if there is one.
    pub(crate) fn at(&self, tablet_type: Option<TabletType>) -> Option<&Option<RuleTarget>>
        ensures { option_copied result ≡ place_at self.now tablet_type }
    {
        match tablet_type {
            None => self.all.as_ref(),
            Some(TabletType::Primary) => self.primary.as_ref(),
            Some(TabletType::Replica) => self.replica.as_ref(),
            Some(TabletType::Rdonly) => self.rdonly.as_ref(),
        }
    }

    /// Makes the place of the key for a type or for all, with a rule by the names of where it leads, or without one.
    pub(crate) fn put(
        &mut self,
        tablet_type: Option<TabletType>,
        rule: Option<(&KeyspaceName, &TableName)>,
    )
        ensures { self.new ≡ with_place_at self.old tablet_type (Some (lent_rule rule.entry)) }
    {
        match tablet_type {
            None => put_place(&mut self.all, rule),
            Some(TabletType::Primary) => put_place(&mut self.primary, rule),
            Some(TabletType::Replica) => put_place(&mut self.replica, rule),
            Some(TabletType::Rdonly) => put_place(&mut self.rdonly, rule),
        }
    }

    /// Drops the place of the key for a type or for all if it has no rule, and answers whether it did.
    pub(crate) fn release(&mut self, tablet_type: Option<TabletType>) -> bool
        ensures dropped { result ≡ is_blank (place_at self.old tablet_type) }
        ensures after { self.new ≡ with_place_at self.old tablet_type (released (place_at self.old tablet_type)) }
    {
        match self.at(tablet_type) {
            Some(None) => {
                self.remove(tablet_type);
                true
            }
            _ => false,
        }
    }

    /// Drops the place of the key for a type or for all.
    pub(crate) fn remove(&mut self, tablet_type: Option<TabletType>)
        ensures { self.new ≡ with_place_at self.old tablet_type None }
    {
        match tablet_type {
            None => self.all = None,
            Some(TabletType::Primary) => self.primary = None,
            Some(TabletType::Replica) => self.replica = None,
            Some(TabletType::Rdonly) => self.rdonly = None,
        }
    }
}

/// Makes a place with a rule, or without one.
fn put_place(place: &mut Option<Option<RuleTarget>>, rule: Option<(&KeyspaceName, &TableName)>)
    ensures { place.new ≡ Some (lent_rule rule.entry) }
{
    match place {
        Some(stood) => put_rule(stood, rule),
        None => *place = Some(rule_of_names(rule)),
    }
}

/// Sets what a place has. Names are copied to where they stay.
fn put_rule(place: &mut Option<RuleTarget>, rule: Option<(&KeyspaceName, &TableName)>)
    ensures { place.new ≡ lent_rule rule.entry }
{
    match (place.as_mut(), rule) {
        (Some(stood), Some((keyspace, table))) => {
            stood.keyspace = keyspace.copied();
            stood.table = table.copied();
        }
        (None, Some((keyspace, table))) => {
            *place = Some(RuleTarget {
                keyspace: keyspace.copied(),
                table: table.copied(),
            });
        }
        (_, None) => *place = None,
    }
}

/// The rule that leads where some names say.
fn rule_of_names(rule: Option<(&KeyspaceName, &TableName)>) -> Option<RuleTarget>
    ensures { result ≡ lent_rule rule.entry }
{
    let (keyspace, table) = rule?;
    Some(RuleTarget {
        keyspace: keyspace.copied(),
        table: table.copied(),
    })
}
