//! How refusals are printed.

use mt_names::{RuleKey, TableName};
use mt_workflow::WorkflowFault;
use std::alloc::Global;
use std::test::Fail;

/// Whether a refusal is printed so.
fn is_printed(alloc: Global, fault: &WorkflowFault, want: &str) -> Result<bool, Fail> {
    Ok(fault.as_str() == want && format!(in alloc; "{fault}")?.as_str() == want)
}

#[test]
fn a_refusal_is_printed_by_number_and_name(rt: HostRuntime) -> Result<(), Fail> {
    let faults = [
        (WorkflowFault::Memory, "W0 Memory"),
        (WorkflowFault::SameKeyspace, "W1 SameKeyspace"),
        (WorkflowFault::NoTables, "W2 NoTables"),
        (
            WorkflowFault::RuleConflict(RuleKey::parse("k.t@replica")?),
            "W3 RuleConflict",
        ),
        (
            WorkflowFault::TargetHasTable(TableName::parse("t")?),
            "W4 TargetHasTable",
        ),
        (
            WorkflowFault::DeniedByHand(TableName::parse("t")?),
            "W5 DeniedByHand",
        ),
        (WorkflowFault::NoTable(TableName::parse("t")?), "W6 NoTable"),
        (WorkflowFault::ShardedSource, "W7 ShardedSource"),
    ];
    for (at, (fault, want)) in faults.iter().enumerate() {
        assert!(rt; is_printed(rt.alloc(), fault, want)?, "at {at}");
    }
    Ok(())
}
