//! Why an event is refused.
use crate::reason::Reason;
use mt_names::{RuleKey, TableName};
use std::fmt;
use thiserror::Error;

/// Why an event is refused. Create alone tells a name: it has refusals of its own, so that the others stay small.
#[derive(Debug, Drop, Eq, Error, PartialEq)]
pub enum Refusal {
    /// The rule of this key leads elsewhere than to the table at the source.
    RuleConflict(RuleKey),
    /// The target has this table already.
    TargetHasTable(TableName),
    /// Any other reason, which tells no name.
    Other(Reason),
}

impl Refusal {
    ghost use Rattle.std.specs.Prelude.{◌≡◌};
    ghost use Rattle.mt_plain.specs.Events.{refusal_text};
    ghost use Rattle.mt_event.specs.Events.{refusal_from};

    /// The refusal as it is printed: its number and its name, without the values that it carries.
    pub fn as_str(&self) -> &'static str
        ensures { result.now ≡ refusal_text (refusal_from self.now) }
    {
        match self {
            Refusal::RuleConflict(_) => "F9 RuleConflict",
            Refusal::TargetHasTable(_) => "F10 TargetHasTable",
            Refusal::Other(reason) => reason.as_str(),
        }
    }

    /// A refusal with the same values. It takes no memory.
    pub fn copied(&self) -> Self
        ensures { result ≡ self.now }
    {
        match self {
            Refusal::RuleConflict(key) => Refusal::RuleConflict(key.copied()),
            Refusal::TargetHasTable(table) => Refusal::TargetHasTable(table.copied()),
            Refusal::Other(reason) => Refusal::Other(*reason),
        }
    }
}

impl From<Reason> for Refusal {
    ghost use Rattle.std.specs.Prelude.{◌≡◌};
    ghost use Rattle.mt_event.specs.declared.refusal.Refusal.TheVariants.{Other};

    ghost from_gives = { λ reason refusal. refusal ≡ Other reason };

    fn from(reason: Reason) -> Refusal {
        Refusal::Other(reason)
    }
}

impl fmt::Display for Refusal {
    ghost use Rattle.std.specs.Prelude.{Some};
    ghost use Rattle.mt_plain.specs.Events.{refusal_text};
    ghost use Rattle.mt_event.specs.Events.{refusal_from};

    ghost output = { λ refusal. Some (refusal_text (refusal_from refusal)) };

    fn fmt<W: fmt::Write>(&self, f: &mut fmt::Formatter<W>) -> fmt::Result {
        f.pad(self.as_str())
    }
}
