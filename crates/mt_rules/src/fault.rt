//! Why routing rules refuse a call.

use std::fmt;
use thiserror::Error;

/// Why routing rules refuse a call.
#[derive(Clone, Copy, Debug, Eq, Error, PartialEq)]
pub enum RulesFault {
    /// No memory was left.
    Memory,
    /// There are as many places as there may be.
    Full,
    /// A document is no JSON: `serde_json` reads no value, for another cause than memory.
    NotJson,
    /// A value in a document is of the wrong kind.
    Shape,
    /// A key or a target of a document isn't one.
    BadName,
    /// A rule of a document has no target, or several.
    NotOneTarget,
    /// A key of a document has two rules.
    RepeatedKey,
}

impl RulesFault {
    ghost use Rattle.std.specs.Prelude.{◌≡◌};
    ghost use Rattle.mt_rules.specs.Rules.{rules_fault_text};

    /// The refusal as it is printed: its number and its name.
    pub fn as_str(self) -> &'static str
        ensures { result.now ≡ rules_fault_text self }
    {
        match self {
            RulesFault::Memory => "R0 Memory",
            RulesFault::Full => "R1 Full",
            RulesFault::NotJson => "R2 NotJson",
            RulesFault::Shape => "R3 Shape",
            RulesFault::BadName => "R4 BadName",
            RulesFault::NotOneTarget => "R5 NotOneTarget",
            RulesFault::RepeatedKey => "R6 RepeatedKey",
        }
    }
}

impl fmt::Display for RulesFault {
    ghost use Rattle.std.specs.Prelude.{Some};
    ghost use Rattle.mt_rules.specs.Rules.{rules_fault_text};

    ghost output = { λ fault. Some (rules_fault_text fault) };

    fn fmt<W: fmt::Write>(&self, f: &mut fmt::Formatter<W>) -> fmt::Result {
        f.pad(self.as_str())
    }
}
