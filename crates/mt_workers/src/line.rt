//! What a client asks for by name.
ghost use Rattle.std.specs.Prelude.{◌≡◌};
ghost use Rattle.mt_workers.specs.Queries.{event_at, key_of, type_of};

use mt_event::Event;
use mt_model::Op;
use mt_names::{RuleKey, RuleTarget, TabletType};

/// A line of a client that asks by name, wherever the name leads.
#[derive(Debug, Drop, Eq, PartialEq)]
pub enum Line {
    /// A write to a row of the table.
    Put(RuleKey, Op),
    /// A read of the row with this key, for the type that the name has, or for the primary if it has none.
    Get(RuleKey, u64),
}

impl Line {
    /// The name.
    pub(crate) fn key(&self) -> &RuleKey
        ensures { result.now ≡ key_of self.now }
    {
        match self {
            Line::Put(key, _) | Line::Get(key, _) => key,
        }
    }

    /// The type that it is for.
    pub(crate) fn type_of(&self) -> TabletType
        ensures { result ≡ type_of self.now }
    {
        match self {
            Line::Put(..) => TabletType::Primary,
            Line::Get(key, _) => key.tablet_type.unwrap_or(TabletType::Primary),
        }
    }

    /// The event that asks for it at a table.
    pub(crate) fn event_at(&self, target: RuleTarget) -> Event
        ensures { result ≡ event_at self.now target }
    {
        let RuleTarget { keyspace, table } = target;
        match self {
            Line::Put(_, op) => Event::Write {
                keyspace,
                table,
                op: op.copied(),
            },
            Line::Get(_, key) => Event::Read {
                keyspace,
                table,
                key: *key,
                type_of: self.type_of(),
            },
        }
    }
}
