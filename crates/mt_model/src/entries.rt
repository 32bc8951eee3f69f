//! Entries of a topology, and whom a change of them concerns.
ghost use Rattle.std.specs.Prelude.{◌≡◌};

use mt_names::{KeyspaceName, RuleKey, RuleTarget, TableName};

/// One thing that a topology says, with its value.
#[derive(Debug, Drop, Eq, Hash, PartialEq)]
pub enum Entry {
    /// The routing rule of a key, if it has one.
    Rule(RuleKey, Option<RuleTarget>),
    /// Whether a keyspace's primary is to refuse a table, as a denied table of Vitess's shard record.
    Denied(KeyspaceName, TableName, bool),
    /// Whether a keyspace has a table.
    Present(KeyspaceName, TableName, bool),
}

/// What an entry is about: the entry without its value.
#[derive(Debug, Drop, Eq, Hash, PartialEq)]
pub enum EntryKey {
    /// The routing rule of a key.
    Rule(RuleKey),
    /// The denial of a table at a keyspace.
    Denied(KeyspaceName, TableName),
    /// The presence of a table in a keyspace.
    Present(KeyspaceName, TableName),
}

/// Whom a watcher keeps up to date.
#[derive(Debug, Drop, Eq, Hash, PartialEq)]
pub enum Scope {
    /// The routers: they follow rules and tables.
    Routes,
    /// The primary of a keyspace: it follows that keyspace's denials.
    Primary(KeyspaceName),
}

impl Entry {
    ghost use Rattle.mt_model.specs.Topology.{key_of};

    /// What the entry is about. It takes no memory.
    pub fn key(&self) -> EntryKey
        ensures { result ≡ key_of self.now }
    {
        match self {
            Entry::Rule(key, _) => EntryKey::Rule(key.copied()),
            Entry::Denied(keyspace, table, _) => EntryKey::Denied(
                keyspace.copied(),
                table.copied(),
            ),
            Entry::Present(keyspace, table, _) => EntryKey::Present(
                keyspace.copied(),
                table.copied(),
            ),
        }
    }

    /// A copy. It takes no memory.
    pub fn copied(&self) -> Self
        ensures { result ≡ self.now }
    {
        match self {
            Entry::Rule(key, target) => {
                Entry::Rule(key.copied(), target.as_ref().map(|target| target.copied()))
            }
            Entry::Denied(keyspace, table, is_denied) => {
                Entry::Denied(keyspace.copied(), table.copied(), *is_denied)
            }
            Entry::Present(keyspace, table, is_present) => {
                Entry::Present(keyspace.copied(), table.copied(), *is_present)
            }
        }
    }
}

impl Scope {
    /// A copy. It takes no memory.
    pub fn copied(&self) -> Self
        ensures { result ≡ self.now }
    {
        match self {
            Scope::Routes => Scope::Routes,
            Scope::Primary(keyspace) => Scope::Primary(keyspace.copied()),
        }
    }
}
