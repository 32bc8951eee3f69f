//! The plans of ways, and how refusals of steps are printed.
use mt_names::TypeSet;
use mt_steps::{MAX_PLACES, Plan, PlannedStep, Step, StepFault};
use std::test::Fail;

/// The types that a way changes.
fn types(primary: bool, reads: bool) -> TypeSet {
    TypeSet {
        primary,
        replica: reads,
        rdonly: false,
    }
}

#[test]
fn a_plan_begins_with_reads_and_ends_with_writes(rt: HostRuntime) -> Result<(), Fail> {
    assert_eq!(rt; Plan::forward(types(true, true), 1).len(), 12);
    assert_eq!(rt; Plan::back(types(true, true), 1).len(), 12);
    assert_eq!(rt; Plan::forward(TypeSet::NONE, 1).len(), 0);
    Ok(())
}

#[test]
fn a_plan_of_writes_or_of_reads_alone(rt: HostRuntime) -> Result<(), Fail> {
    let writes = types(true, false);
    let reads = types(false, true);
    assert!(rt; Plan::forward(writes, 1).len() == 11 && Plan::forward(reads, 8).len() == 1);
    assert!(rt; Plan::back(writes, 1).first() == Some(&place(Step::DenySource, 0)));
    assert!(rt; Plan::back(writes, 3).last() == Some(&place(Step::FreezeOld, 0)));
    assert!(rt; Plan::back(reads, 3).first() == Some(&place(Step::SwitchReads, 0)));
    Ok(())
}

/// A place of a plan.
fn place(step: Step, shard: u8) -> PlannedStep {
    PlannedStep { step, shard }
}

/// The number of the step at a place of a plan, and the shard that it is for.
fn told(plan: &[PlannedStep], at: usize) -> Option<(u8, u8)> {
    match plan.get(at) {
        Some(place) => Some((place.step.number(), place.shard)),
        None => None,
    }
}

#[test]
fn a_switch_refreshes_each_shard_behind_its_journal(rt: HostRuntime) -> Result<(), Fail> {
    let plan = Plan::forward(types(true, true), 3);
    assert_eq!(rt; plan.len(), 14);
    assert_eq!(rt; told(plan.as_slice(), 2), Some((2, 0)));
    assert_eq!(rt; told(plan.as_slice(), 7), Some((7, 0)));
    assert_eq!(rt; told(plan.as_slice(), 8), Some((8, 0)));
    assert_eq!(rt; told(plan.as_slice(), 9), Some((8, 1)));
    assert_eq!(rt; told(plan.as_slice(), 10), Some((8, 2)));
    assert_eq!(rt; told(plan.as_slice(), 11), Some((9, 0)));
    assert_eq!(rt; told(plan.as_slice(), 13), Some((11, 0)));
    Ok(())
}

#[test]
fn a_reversal_refreshes_each_shard_before_its_journal(rt: HostRuntime) -> Result<(), Fail> {
    let plan = Plan::back(types(true, false), 8);
    assert_eq!(rt; plan.len(), MAX_PLACES - 1);
    assert_eq!(rt; told(plan.as_slice(), 0), Some((1, 0)));
    assert_eq!(rt; told(plan.as_slice(), 1), Some((2, 0)));
    assert_eq!(rt; told(plan.as_slice(), 8), Some((2, 7)));
    assert_eq!(rt; told(plan.as_slice(), 9), Some((3, 0)));
    assert_eq!(rt; told(plan.as_slice(), 14), Some((8, 0)));
    assert_eq!(rt; told(plan.as_slice(), 17), Some((11, 0)));
    Ok(())
}

/// Refusals, and how they are printed.
static PRINTED: [(StepFault, &str); 5] = [
    (StepFault::Memory, "F0 Memory"),
    (StepFault::NotLevel, "F18 NotLevel"),
    (StepFault::WatcherRefused(3), "F23 WatcherRefused"),
    (StepFault::NoWatcher, "F24 NoWatcher"),
    (StepFault::Full, "F27 Full"),
];

/// The first refusal that is printed otherwise.
fn first_other() -> Option<usize> {
    for (at, (fault, want)) in PRINTED.iter().enumerate() {
        if fault.as_str() != *want {
            return Some(at);
        }
    }
    None
}

#[test]
fn refusals_of_steps_are_printed(rt: HostRuntime) -> Result<(), Fail> {
    assert_eq!(rt; first_other(), None);
    assert_eq!(rt; Step::Journal.number(), 6);
    Ok(())
}
