//! In which turn entries are written.
ghost use Rattle.std.specs.Prelude.{◌≡◌};
ghost use Rattle.mt_routes.specs.Turns.{turn_of};

use mt_model::Entry;
use mt_names::{KeyspaceName, RuleKey, TableName};

/// What an entry is about, in the order in which entries are written.
#[derive(Debug, Drop, Eq, Ord, PartialEq, PartialOrd)]
pub enum Place {
    /// The rule of a key.
    Rule(RuleKey),
    /// The presence of a table in a keyspace, or its denial.
    Table(KeyspaceName, TableName),
}

/// The turn of an entry: those that take a rule or a table away come first, and each part is in the order of what its
/// entries are about.
#[derive(Debug, Drop, Eq, Ord, PartialEq, PartialOrd)]
pub struct Turn {
    /// Whether a rule or a table stands afterwards.
    pub is_routed: bool,
    /// What it is about.
    pub place: Place,
}

/// The turn of an entry.
pub(crate) fn turn_of(entry: &Entry) -> Turn
    ensures { result ≡ turn_of entry.now }
{
    match entry {
        Entry::Rule(key, target) => Turn {
            is_routed: target.is_some(),
            place: Place::Rule(key.copied()),
        },
        Entry::Denied(keyspace, table, _) => Turn {
            is_routed: false,
            place: Place::Table(keyspace.copied(), table.copied()),
        },
        Entry::Present(keyspace, table, is_there) => Turn {
            is_routed: *is_there,
            place: Place::Table(keyspace.copied(), table.copied()),
        },
    }
}
