//! Why a workflow isn't created.
use mt_names::{RuleKey, TableName};
use std::fmt;
use thiserror::Error;

/// Why a workflow isn't created.
#[derive(Debug, Drop, Eq, Error, PartialEq)]
pub enum WorkflowFault {
    /// No memory was left.
    Memory,
    /// The source is the target.
    SameKeyspace,
    /// No table was named.
    NoTables,
    /// The rule of this key leads elsewhere than to the table at the source.
    RuleConflict(RuleKey),
    /// The target has this table already.
    TargetHasTable(TableName),
    /// The topology denies this table at the source or at the target.
    DeniedByHand(TableName),
    /// The source lacks this table.
    NoTable(TableName),
    /// The source has several shards.
    ShardedSource,
}

impl WorkflowFault {
    ghost use Rattle.std.specs.Prelude.{◌≡◌};
    ghost use Rattle.mt_workflow.specs.Faults.{workflow_fault_text};

    /// The refusal as it is printed: its number and its name, without the key or the table.
    pub fn as_str(&self) -> &'static str
        ensures { result.now ≡ workflow_fault_text self.now }
    {
        match self {
            WorkflowFault::Memory => "W0 Memory",
            WorkflowFault::SameKeyspace => "W1 SameKeyspace",
            WorkflowFault::NoTables => "W2 NoTables",
            WorkflowFault::RuleConflict(_) => "W3 RuleConflict",
            WorkflowFault::TargetHasTable(_) => "W4 TargetHasTable",
            WorkflowFault::DeniedByHand(_) => "W5 DeniedByHand",
            WorkflowFault::NoTable(_) => "W6 NoTable",
            WorkflowFault::ShardedSource => "W7 ShardedSource",
        }
    }
}

impl fmt::Display for WorkflowFault {
    ghost use Rattle.std.specs.Prelude.{Some};
    ghost use Rattle.mt_workflow.specs.Faults.{workflow_fault_text};

    ghost output = { λ fault. Some (workflow_fault_text fault) };

    fn fmt<W: fmt::Write>(&self, f: &mut fmt::Formatter<W>) -> fmt::Result {
        f.pad(self.as_str())
    }
}
